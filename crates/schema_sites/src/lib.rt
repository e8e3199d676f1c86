//! Schemas met on the way from a root, and what their members are.
#![tactic(auto)]

mod applying;
mod asserting;
mod choosing;
pub mod keyword;
mod neighbours;
pub mod reading;
pub mod reference_keyword;
mod referred;
pub mod site;

pub use applicators::applicator::Applicator;
pub use assertions::assertion::Assertion;
pub use referencing::{Error, Resolved};
