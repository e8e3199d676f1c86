//! What compiled graphs answer: the verdict and the faults of the documents that a graph means.
#![tactic(auto)]

mod answers;
pub mod assumed;
pub mod certain;
pub mod checking;
pub mod direct;
pub mod lookup;
pub mod runs;
pub mod seeking;
mod telling;
