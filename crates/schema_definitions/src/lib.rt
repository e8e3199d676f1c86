//! Documents, schema places, what references lead to, what documents want, and how schemas are read: definitions, in `specs/`.
#![tactic(auto)]

pub mod rounds;

pub use uri_references::error::{Error, UriError};
