//! Where the keywords of a node are asked.

use crate::graph::Graph;
use crate::place::Place;
use crate::progress::Progress;
use crate::validate::Validate;

/// A node at a place, and the references in progress there.
#[derive(Drop)]
pub struct Here<'q, 'i, 'p, K: Validate> {
    pub graph: &'q Graph<K>,
    pub node: usize,
    pub place: Place<'i>,
    pub progress: &'p Progress<'p>,
}
