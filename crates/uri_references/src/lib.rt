//! URIs and URI references (RFC 3986), owned and borrowed: parsing, resolving, normalising.
#![tactic(auto)]

mod borrowed;
pub mod dots;
pub mod error;
mod fragment;
pub mod normal;
mod owned;
mod refusal;
pub mod resolution;
mod traits;
pub mod triplets;
pub mod uri;
pub mod writing;

pub use uri_grammar::components::{Components, split_fragment, split_reference};
pub use uri_grammar::grammar::{is_fragment, is_uri, is_uri_reference};
