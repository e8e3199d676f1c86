//! Paths as texts that are owned, compared and hashed.
#![tactic(auto)]

mod lazy_location;
mod location;

pub use lazy_location::LazyLocation;
pub use location::Location;
