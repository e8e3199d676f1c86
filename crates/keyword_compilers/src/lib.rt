//! Keywords that were read at a schema, made into keywords that own what they need.
#![tactic(auto)]

mod applying;
mod asserting;
pub mod compiling;
mod dependencies;
mod names;
pub mod nodes;
mod patterns;
