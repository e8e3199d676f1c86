//! Examples that the checker computes: keywords, readings, whole documents.
#![tactic(auto)]

pub mod documents;
pub mod keywords;
pub mod readings;
