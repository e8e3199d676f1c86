//! Where the keywords of a node tell.

use schema_engine::here::Here;
use schema_engine::situation::Situation;
use schema_engine::validate::Validate;

/// A node at a place with the references in progress there, and the roads that led there.
#[derive(Drop)]
pub(crate) struct There<'q, 'i, 'p, K: Validate> {
    pub(crate) here: Here<'q, 'i, 'p, K>,
    pub(crate) situation: Situation<'p, 'i>,
}
