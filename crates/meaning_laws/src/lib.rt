//! Laws of readings: each is the contract of a function, and costs nothing to call.
#![tactic(auto)]

pub mod matches;
pub mod readings;
