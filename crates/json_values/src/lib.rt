//! Paths and pointers in JSON documents, and what keywords compare: definitions in `specs/`, and their laws.
#![tactic(auto)]

pub mod laws;
