//! The drafts of JSON Schema: which keyword counts, and which members hold schemas.
#![tactic(auto)]

pub mod children;
pub mod draft;
pub mod identifiers;
pub mod keywords;
pub mod resource;
pub mod subschemas;
