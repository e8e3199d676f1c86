//! The keywords of compiled schemas: each owns what it needs, its subschemas by the numbers of their nodes and its patterns by their
//! numbers in a table.
#![tactic(auto)]

pub mod applicator;
mod asking;
pub mod asks;
pub mod assertion;
mod beside;
mod entries;
pub mod keyword;
mod members;
pub mod names;
mod notes;
pub mod options;
mod patterns;
mod reasons;
pub mod required;
mod rules;
pub mod subschemas;
pub mod together;
mod walk;
