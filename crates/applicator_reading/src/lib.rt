//! Keywords that apply subschemas, read from the members of schemas.
#![tactic(auto)]

pub mod dependencies;
mod entries;
mod keyword;
pub mod neighbours;
pub mod reading;
