//! Compiled schemas.
ghost use Rattle.schema_engine.specs.Graphs.{IsSound};

use crate::node::Node;
use crate::validate::Validate;

/// Schemas, each named by its number.
#[derive(Drop)]
pub struct Graph<K: Validate> {
    pub nodes: Vec<Node<K>>,
    pub ghost sound: { IsSound K.shape nodes.items },
}
