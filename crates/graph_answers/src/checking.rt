//! Verdicts and faults by a compiled graph.
ghost use Rattle.std.specs.Prelude.{◌≡◌, ◌<◌, length, IfOk, OnOk};
ghost use Rattle.serde_json.specs.View.{view};
ghost use Rattle.graph_answers.specs.Answers.{IsAnswer, HearsAnswer, Agree, IsVerdict, IsCertified};
ghost use Rattle.graph_answers.specs.Answers.{AreFaults, HaveCertificates};
ghost use Rattle.graph_answers.specs.Linking.{KnowsTable};
ghost use Rattle.graph_answers.specs.Tables.{matches_of};

use engine_faults::tell::tell;
use schema_engine::accepts::accepts;
use schema_engine::graph::Graph;
use schema_engine::matching::Matching;
use schema_engine::validate::Validate;
use schema_patterns::{PatternMatcher, PatternTable};
use schema_reports::Observer;
use serde_json::Value;
use std::alloc::{AllocError, Global};

/// Whether a value is valid from a node of a graph on, by the matches of a table's patterns, whoever is asked for them.
///
/// Where references come back to where they were, the return is accepted.
///
/// # Errors
///
/// Where memory was refused.
pub fn is_valid<'q, 'i: 'q, K: Validate, M: PatternMatcher, T: Matching>(
    alloc: Global,
    graph: &'q Graph<K>,
    start: usize,
    table: &PatternTable<M>,
    matching: &mut T,
    value: &'i Value,
) -> Result<bool, AllocError>
    requires known { KnowsTable K.knows graph.now.nodes.items table.now }
    requires meant { T.matches matching.old ≡ matches_of M.finds table.now }
    requires there { start < length graph.now.nodes.items }
    ensures matches { OnOk result (T.matches matching.new ≡ T.matches matching.old) }
    ensures cut { IfOk result (IsAnswer K.shape M.finds graph.now.nodes.items table.now start (view value.now)) }
    ensures verdict { IfOk result (IsVerdict K.shape M.finds graph.now.nodes.items table.now start (view value.now)) }
    ensures certified { IfOk result (IsCertified K.shape M.finds graph.now.nodes.items table.now start (view value.now)) }
{
    let mut questions = Vec::new(alloc);
    accepts(graph, start, value, matching, &mut questions)
}

/// Tells an observer of the faults of a value from a node of a graph on, by the matches of a table's patterns, whoever is asked for them.
///
/// Where references come back to where they were, the return tells nothing.
///
/// # Errors
///
/// Where memory was refused or a count of owners is full. The observer may have been told of some faults then.
pub fn tell_faults<'o, K: Validate, M: PatternMatcher, T: Matching>(
    alloc: Global,
    graph: &Graph<K>,
    start: usize,
    table: &PatternTable<M>,
    matching: &mut T,
    value: &'o Value,
    observer: &mut Observer<'o>,
) -> Result<(), AllocError>
    requires known { KnowsTable K.knows graph.now.nodes.items table.now }
    requires meant { T.matches matching.old ≡ matches_of M.finds table.now }
    requires there { start < length graph.now.nodes.items }
    ensures matches { OnOk result (T.matches matching.new ≡ T.matches matching.old) }
    ensures cut { OnOk result
        (HearsAnswer K.shape M.finds graph.now.nodes.items table.now start (view value.now) observer.old observer.new) }
    ensures agree { Agree K.shape M.finds graph.now.nodes.items table.now start (view value.now) }
    ensures faults { AreFaults K.shape M.finds graph.now.nodes.items table.now start (view value.now) }
    ensures certified { HaveCertificates K.shape M.finds graph.now.nodes.items table.now start (view value.now) }
{
    let mut questions = Vec::new(alloc);
    tell(
        alloc,
        graph,
        start,
        value,
        matching,
        &mut questions,
        observer,
    )
}
