//! An immutable list whose copies share their ends.
#![tactic(auto)]

mod compared;
mod iter;
mod list;
#[cfg(test)]
mod tests;

pub use iter::Iter;
pub use list::List;
