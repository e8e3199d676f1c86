//! Graphs of several roots.

ghost use Rattle.std.specs.Prelude.{◌≡◌, true, map, length, string_bytes, IfOk, IfErr};
ghost use Rattle.std.specs.List.{list_all, All, AllZip};
ghost use Rattle.serde_json.specs.View.{view};
ghost use Rattle.document_laws.specs.TargetLaws.{are_apart, contents_rise};
ghost use Rattle.referencing.specs.Resolved.{base_of, documents_in};
ghost use Rattle.referencing.specs.Seen.{documents_of};
ghost use Rattle.compiled_graphs.specs.Causes.{RefusesFrom};
ghost use Rattle.compiled_graphs.specs.Marked.{IsMarked, IsNode};
ghost use Rattle.compiled_graphs.specs.Several.{AnswersAt, AreBuilt};

use crate::each::CompiledEach;
use crate::schemas::SchemaGraph;
use crate::starting::start;
use crate::walk::{AtCause, Walk};
use marked_nodes::leading_to;
use reached_sites::cause::BuildCause;
use referencing::{Registry, Resolver};
use schema_engine::graph::Graph;
use schema_patterns::matches::Matches;
use schema_patterns::{PatternMaker, PatternMatcher};
use serde_json::Value;
use std::alloc::{AllocError, Global};
use uri_references::uri::Uri;

impl<M: PatternMatcher> CompiledEach<M> {
    /// Whether a value is valid from the root at a position on, or nothing where that may not be read.
    ///
    /// # Errors
    ///
    /// Where memory was refused.
    pub fn is_valid(
        &self,
        alloc: Global,
        position: usize,
        value: &Value,
    ) -> Result<Option<bool>, AllocError>
        ensures { IfOk result (AnswersAt M.finds self.now.schemas.graph.nodes.items self.now.schemas.table
            (view value.now) self.now.starts.items position) }
    {
        match self.starts.get(position) {
            Some(Some(start)) => Ok(Some(self.schemas.is_valid(alloc, *start, value)?)),
            _ => Ok(None),
        }
    }
}

// A start that leads to no node that is marked.
fn clear_start(start: Option<usize>, marks: &[bool]) -> Option<usize>
    requires { IsNode (length marks.now) start }
    ensures { IsMarked marks.now start result }
{
    match start {
        Some(position) => {
            if marks[position] {
                None
            } else {
                Some(position)
            }
        }
        None => None,
    }
}

// Those that lead to no node that is marked.
fn clear_starts(
    alloc: Global,
    starts: Vec<Option<usize>>,
    marks: &[bool],
) -> Result<Vec<Option<usize>>, AllocError>
    requires { All (IsNode (length marks.now)) starts.items }
    ensures { IfOk result (λ v. AllZip (IsMarked marks.now) starts.items v.items) }
{
    let mut clear = Vec::new(alloc);
    for start in starts {
        clear.push(clear_start(start, marks))?;
    }
    Ok(clear)
}

// The graph by matches that live as long as the documents are lent.
fn build_from<'r, P: PatternMaker>(
    alloc: Global,
    resolver: &Resolver<'r>,
    references: &[String],
    matches: &'r Matches,
    maker: &P,
    limit: usize,
) -> Result<CompiledEach<P::Matcher>, BuildCause>
    requires apart { are_apart (documents_in resolver.now) ≡ true }
    requires rise { list_all contents_rise (documents_in resolver.now) ≡ true }
    ensures built { IfOk result (λ g. AreBuilt P.Matcher.finds (P.patterns maker.now) (documents_in resolver.now)
        (base_of resolver.now) (map string_bytes references.now) limit g.schemas.graph.nodes.items g.schemas.table g.starts.items) }
    ensures refused { IfErr result (RefusesFrom (P.patterns maker.now).makes (documents_in resolver.now)
        (base_of resolver.now) (map string_bytes references.now) limit) }
{
    let started = start(alloc, resolver, references, matches)?;
    let begun = Walk::new(alloc, started.visits);
    let walk = begun.run(alloc, maker, limit, AtCause::GoOn)?;
    let count = walk.visits.list.len();
    let (edges, wrong) = (walk.edges.as_slice(), walk.wrong.as_slice());
    let marks = leading_to(alloc, count, edges, wrong)?;
    let starts = clear_starts(alloc, started.starts, marks.as_slice())?;
    Ok(CompiledEach {
        schemas: SchemaGraph {
            graph: Graph { nodes: walk.nodes },
            table: walk.table,
        },
        starts,
    })
}

// The same from a resolver, by no matches.
fn build_by<P: PatternMaker>(
    alloc: Global,
    resolver: &Resolver<'_>,
    references: &[String],
    maker: &P,
    limit: usize,
) -> Result<CompiledEach<P::Matcher>, BuildCause>
    requires apart { are_apart (documents_in resolver.now) ≡ true }
    requires rise { list_all contents_rise (documents_in resolver.now) ≡ true }
    ensures built { IfOk result (λ g. AreBuilt P.Matcher.finds (P.patterns maker.now) (documents_in resolver.now)
        (base_of resolver.now) (map string_bytes references.now) limit g.schemas.graph.nodes.items g.schemas.table g.starts.items) }
    ensures refused { IfErr result (RefusesFrom (P.patterns maker.now).makes (documents_in resolver.now)
        (base_of resolver.now) (map string_bytes references.now) limit) }
{
    let matches = Matches::none(alloc);
    build_from(alloc, &*resolver, references, &matches, maker, limit)
}

/// Compiles the schemas that are reached from the roots that some references from a base lead to, all together, each once for each compile
/// key. Each root is read behind the resource that the base leads to (Core 7.1). It goes on behind causes: a keyword that has one leads nowhere, and those beside it are walked. A schema with a cause has no
/// keywords.
///
/// Which roots lead to a cause is found by one walk backwards over the edges. The maker is asked once for each text, and for none of the
/// literal forms.
///
/// # Errors
///
/// More compile keys than the limit, all roots together, or want of memory.
pub fn build_each<P: PatternMaker>(
    alloc: Global,
    registry: &Registry<'_>,
    base: &Uri,
    references: &[String],
    maker: &P,
    limit: usize,
) -> Result<CompiledEach<P::Matcher>, BuildCause>
    requires apart { are_apart (documents_of registry.now) ≡ true }
    ensures built { IfOk result (λ g. AreBuilt P.Matcher.finds (P.patterns maker.now)
        (documents_of registry.now) base.now (map string_bytes references.now) limit g.schemas.graph.nodes.items g.schemas.table g.starts.items) }
    ensures refused { IfErr result (RefusesFrom (P.patterns maker.now).makes (documents_of registry.now) base.now
        (map string_bytes references.now) limit) }
{
    let resolver = registry.resolver(base.clone()?)?;
    registry.names_rise();
    build_by(alloc, &resolver, references, maker, limit)
}
