//! Paths in JSON documents that are owned and share their fronts.
//!
//! A path goes from a place in a document up to the document's root, the last step first. A path with one more step
//! shares the steps of the one that it was made from.
#![tactic(auto)]

mod display;
mod path;
mod step;

pub use path::Path;
pub use step::Step;
