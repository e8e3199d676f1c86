//! The parts of two paths of a fault, and the question of a keyword that they lead to.
#![tactic(auto)]

pub mod ahead;
pub mod behind;
pub mod items;
pub mod members;
pub mod obliging;
pub mod once;
pub mod parts;
