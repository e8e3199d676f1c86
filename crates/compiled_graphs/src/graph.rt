//! Graphs of schemas.

ghost use Rattle.std.specs.Prelude.{◌<◌, ◌∷◌, [], length, IfOk, IfErr};
ghost use Rattle.reading_laws.specs.Asked.{AreAmong};
ghost use Rattle.reading_laws.specs.Keys.{AreWithin};
ghost use Rattle.referencing.specs.Resolved.{documents_in, target_in};
ghost use Rattle.schema_definitions.specs.BuildCauses.{IsCauseOf};
ghost use Rattle.schema_definitions.specs.Rows as rows;
ghost use Rattle.schema_definitions.specs.Sites.{root_site};
ghost use Rattle.schema_patterns.specs.Tables.{texts_of_table, AreMadeBy};
ghost use Rattle.reached_sites.specs.Causes.{RefusesWithin};
ghost use Rattle.reached_sites.specs.Roots.{IsPlaced};
ghost use Rattle.compiled_graphs.specs.Linking.{IsCompiledAt};
ghost use Rattle.compiled_graphs.specs.First.{RefusesFirst};

use crate::schemas::SchemaGraph;
use crate::starting::start_at;
use crate::walk::{AtCause, Walk};
use reached_sites::cause::BuildCause;
use referencing::Resolved;
use schema_engine::graph::Graph;
use schema_patterns::matches::Matches;
use schema_patterns::{PatternMaker, PatternMatcher};
use std::alloc::{AllocError, Global};

/// The schemas that are reached from a root, and the number of the root's node.
#[derive(Drop)]
pub struct Compiled<M: PatternMatcher> {
    pub schemas: SchemaGraph<M>,
    pub start: usize,
    pub ghost there: { start < length schemas.graph.nodes.items },
}

// The graph from a root, with the matches that its visits carry.
fn build_from<'r, P: PatternMaker>(
    alloc: Global,
    root: &Resolved<'r>,
    matches: &'r Matches,
    maker: &P,
    limit: usize,
) -> Result<Compiled<P::Matcher>, BuildCause>
    requires placed { IsPlaced (documents_in root.now.resolver) (target_in root.now) }
    ensures accepted { IfOk result (λ g. (c : rows.BuildCause)
        → IsCauseOf (documents_in root.now.resolver) (P.patterns maker.now).makes
        (root_site (target_in root.now)) c → ⊥) }
    ensures within { IfOk result (λ g. AreWithin (documents_in root.now.resolver) (P.patterns maker.now).makes
        (root_site (target_in root.now) ∷ []) limit) }
    ensures patterns { IfOk result (λ g. AreAmong (documents_in root.now.resolver) (P.patterns maker.now).makes
        (root_site (target_in root.now)) (texts_of_table g.schemas.table)) }
    ensures made { IfOk result (λ g. AreMadeBy P.Matcher.finds (P.patterns maker.now).finished g.schemas.table) }
    ensures linked { IfOk result (λ g. IsCompiledAt (documents_in root.now.resolver)
        (P.patterns maker.now).makes g.schemas.graph.nodes.items (root_site (target_in root.now)) g.start) }
    ensures refused { IfErr result (RefusesWithin (documents_in root.now.resolver) (P.patterns maker.now).makes
        (root_site (target_in root.now)) limit) }
    ensures first { IfErr result (RefusesFirst (documents_in root.now.resolver) (P.patterns maker.now).makes
        (root_site (target_in root.now)) limit) }
{
    let visits = start_at(alloc, root, matches)?;
    let begun = Walk::new(alloc, visits);
    let walk = begun.run(alloc, maker, limit, AtCause::Stop)?;
    Ok(Compiled {
        schemas: SchemaGraph {
            graph: Graph { nodes: walk.nodes },
            table: walk.table,
        },
        start: 0,
    })
}

/// Compiles the schemas that are reached from a root, each once for each compile key with which it is reached: its place, base, dialect, scope
/// key and schema path. Those next to the root come first; the position in that order is the node's number.
///
/// A schema is found again by one look-up of its compile key. A scope key is made for each reference and where a subschema has a base of its own. The
/// maker is asked once for each text, and for none of the literal forms.
///
/// # Errors
///
/// The first cause in the order of the nodes: nothing is wrong at what earlier roads from the root lead to, and there it is of the identifier,
/// or else of the first member that has one. Or more compile keys than the limit, or want of memory.
pub fn build<P: PatternMaker>(
    alloc: Global,
    root: &Resolved<'_>,
    maker: &P,
    limit: usize,
) -> Result<Compiled<P::Matcher>, BuildCause>
    requires placed { IsPlaced (documents_in root.now.resolver) (target_in root.now) }
    ensures accepted { IfOk result (λ g. (c : rows.BuildCause)
        → IsCauseOf (documents_in root.now.resolver) (P.patterns maker.now).makes
        (root_site (target_in root.now)) c → ⊥) }
    ensures within { IfOk result (λ g. AreWithin (documents_in root.now.resolver) (P.patterns maker.now).makes
        (root_site (target_in root.now) ∷ []) limit) }
    ensures patterns { IfOk result (λ g. AreAmong (documents_in root.now.resolver) (P.patterns maker.now).makes
        (root_site (target_in root.now)) (texts_of_table g.schemas.table)) }
    ensures made { IfOk result (λ g. AreMadeBy P.Matcher.finds (P.patterns maker.now).finished g.schemas.table) }
    ensures linked { IfOk result (λ g. IsCompiledAt (documents_in root.now.resolver)
        (P.patterns maker.now).makes g.schemas.graph.nodes.items (root_site (target_in root.now)) g.start) }
    ensures refused { IfErr result (RefusesWithin (documents_in root.now.resolver) (P.patterns maker.now).makes
        (root_site (target_in root.now)) limit) }
    ensures first { IfErr result (RefusesFirst (documents_in root.now.resolver) (P.patterns maker.now).makes
        (root_site (target_in root.now)) limit) }
{
    let matches = Matches::none(alloc);
    build_from(alloc, &*root, &matches, maker, limit)
}
