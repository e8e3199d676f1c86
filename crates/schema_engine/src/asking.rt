//! What a keyword asks, where that is simple.

use serde_json::Value;

/// What a keyword asks of a place, where no question need be listed for it.
#[derive(Clone, Copy)]
pub enum Asking<'q, 'i> {
    /// Nothing: what is wrong with the value itself decides.
    Nothing,
    /// The place, by the target of a reference, which has to accept it.
    Target(usize),
    /// Each item of a list from `start` on, by one node, which has to accept each.
    Items {
        start: usize,
        node: usize,
        items: &'i [Value],
    },
    /// The place, by each of these nodes, each of which has to accept it.
    Each(&'q [usize]),
    /// The place, by each of these nodes, of which so many have to accept it.
    Counted {
        branches: &'q [usize],
        least: usize,
        most: Option<usize>,
    },
    /// What its questions say, and by its rule.
    Listed,
}
