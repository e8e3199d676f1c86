//! One pair of documents in three forms: laws, each the contract of a function, which costs nothing to call.
#![tactic(auto)]

pub mod joining;
pub mod roads;
