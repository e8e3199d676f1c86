//! Documents that are given, and those that they want and that are not at hand, asked for by rounds.
#![tactic(auto)]

pub mod given;
pub mod layers;
mod names;
mod round;
pub mod rounds;
pub mod wants;
