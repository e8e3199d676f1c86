//! Which nodes of a graph lead to marked ones.
#![tactic(auto)]

mod graph;
mod leading;
mod noting;

pub use graph::Edge;
pub use leading::leading_to;
pub use noting::note;
