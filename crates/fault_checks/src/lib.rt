//! Whether two paths of a fault are a certificate, by the documents alone.
#![tactic(auto)]

mod applied_refusals;
mod applied_steps;
pub mod checking;
pub mod choice_refusals;
mod choice_steps;
mod finished;
mod names;
pub mod reading;
pub mod refusing;
pub mod stepping;
pub mod trial;
pub mod walk;
pub mod walking;

pub use plain_reader::{
    Applicator, Assertion, Error, Keyword, ReferenceKeyword, Refusal, Resolved, Site, at_root,
    at_target, keyword,
};
pub use reached_sites::cause::BuildCause;
pub use reached_sites::place::SchemaPlace;
pub use reached_sites::{Draft, Registry, uri};
