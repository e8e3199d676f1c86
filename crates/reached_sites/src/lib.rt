//! The schemas that are reached from roots, each a visit of what stands at a place.
#![tactic(auto)]

pub mod cause;
pub mod compile_key;
pub mod identifying;
pub mod leads;
pub mod making;
pub mod pattern;
pub mod place;
pub mod refusing;
pub mod schema_path;
pub mod seen;
pub mod visit;
pub mod waypoint;

pub use referencing::{Draft, Error, Registry, uri};
