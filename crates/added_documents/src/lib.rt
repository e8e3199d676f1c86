//! Laws of documents that are added to others: each is the contract of a function.
#![tactic(auto)]

pub mod added_readings;
pub mod documents;
