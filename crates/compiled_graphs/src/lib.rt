//! The schemas that are reached from roots, compiled into graphs.
#![tactic(auto)]

mod asking;
pub mod causes;
pub mod each;
mod filling;
pub mod graph;
mod linking;
mod reading;
pub mod schemas;
pub mod several;
mod starting;
mod walk;
