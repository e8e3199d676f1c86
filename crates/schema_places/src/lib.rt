//! The schema places of a document: the parts of it that are schemas, each with its base URI and its dialect.
#![tactic(auto)]

mod borne;
pub mod document;
mod entering;
pub mod error;
pub mod place;
mod plain;
pub mod reached;
mod walk;
mod within;
