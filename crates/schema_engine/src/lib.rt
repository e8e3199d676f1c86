//! An engine for compiled schemas: numbered nodes of keywords, each keyword by one of the eight rules of JSON Schema, and whether a node
//! accepts a value.
#![tactic(auto)]

pub mod accepts;
pub mod asking;
pub mod combination;
pub mod counting;
pub mod entry;
pub mod graph;
pub mod here;
pub mod itself;
pub mod matching;
pub mod node;
pub mod pairing;
pub mod place;
pub mod progress;
pub mod reason;
pub mod situation;
pub mod validate;
pub mod verdict;
