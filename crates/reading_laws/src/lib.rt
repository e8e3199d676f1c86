//! Laws of the plain reading: each is the contract of a function.
#![tactic(auto)]

pub mod asked_matches;
pub mod keys;
pub mod names;
pub mod plain_readings;
pub mod rows;
pub mod sites;
