//! Which faults a node of compiled schemas tells of a value: each keyword's own, and those behind what it asks.
#![tactic(auto)]

mod refusals;
pub mod tell;
mod telling;
mod there;
