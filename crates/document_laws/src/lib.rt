//! Laws on schema places, lookup, the dialects of meta-schemas, scopes and targets: each is the contract of a function.
#![tactic(auto)]

pub mod dialect_stages;
pub mod dialects;
pub mod lookups;
pub mod places;
pub mod scopes;
pub mod subschemas;
pub mod targets;
