//! Keywords that only assert: read from their values, accepted or refused, and what is wrong with a value that they refuse.
#![tactic(auto)]

pub mod accepting;
pub mod assertion;
pub mod keyword;
pub mod missing;
pub mod named;
pub mod names;
pub mod reading;
mod types;
mod values;
pub mod whole_number;

pub use types::{TypeNames, read};
