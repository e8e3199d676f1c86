//! What is compiled of several roots.

ghost use Rattle.std.specs.Prelude.{length};
ghost use Rattle.std.specs.List.{All};
ghost use Rattle.std.proofs.Props.{props};
ghost use Rattle.compiled_graphs.specs.Marked.{IsNode};

use crate::schemas::SchemaGraph;
use schema_patterns::PatternMatcher;

/// The schemas that are reached from several roots, and for each root the number of its node, or none where it may not be read: it leads
/// nowhere, or to a cause.
#[derive(Drop)]
pub struct CompiledEach<M: PatternMatcher> {
    pub schemas: SchemaGraph<M>,
    pub starts: Vec<Option<usize>>,
    pub ghost there: { All (IsNode (length schemas.graph.nodes.items)) starts.items } by { Prim.hlevel props },
}
