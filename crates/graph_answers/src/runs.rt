//! Verdicts that hold however the matches that stay unfinished are answered.
ghost use Rattle.std.specs.Prelude.{◌≡◌, ◌<◌, ◌&&◌, [], length, IfOk, true};
ghost use Rattle.serde_json.specs.View.{view};
ghost use Rattle.schema_engine.specs.Matches.{Answers};
ghost use Rattle.graph_answers.specs.Completions.{matches_with};
ghost use Rattle.graph_answers.specs.Linking.{KnowsTable};
ghost use Rattle.graph_answers.specs.Runs.{is_behind, is_left, IsRun, IsTurned, IsDecision, IsVerdictOf};
ghost use Rattle.graph_answers.specs.Tables.{AreForms};

use crate::assumed::{Assumed, AssumedMatch, UnfinishedMatch};
use crate::telling::judge_once;
use schema_engine::accepts::accepts;
use schema_engine::graph::Graph;
use schema_engine::validate::Validate;
use schema_patterns::{PatternMatcher, PatternTable};
use serde_json::Value;
use std::alloc::{AllocError, Global};

/// So many runs are made at most, the first counted: five matches that stay unfinished are decided by 63.
pub const RUNS: usize = 64;

/// What is decided of a value, some of whose matches may stay unfinished.
#[derive(Clone, Copy, PartialEq, Eq, Debug)]
pub enum Decision {
    /// It is accepted, however they are answered.
    Accepted,
    /// It is refused, if they are answered in some way.
    Refused,
    /// That took more runs than are made: at least six matches that the value asks for stay unfinished.
    Undecided,
}

// What a run by what is assumed gives: a verdict, or the match at which it stopped.
#[derive(Drop)]
pub(crate) enum Run {
    Answered(bool),
    Stopped(UnfinishedMatch),
}

// What a run gives by what is assumed.
pub(crate) fn run_once<K: Validate, M: PatternMatcher>(
    alloc: Global,
    graph: &Graph<K>,
    start: usize,
    table: &PatternTable<M>,
    assumed: &[AssumedMatch],
    value: &Value,
) -> Result<Run, AllocError>
    requires known { KnowsTable K.knows graph.now.nodes.items table.now }
    requires forms { AreForms M.finds table.now }
    requires there { start < length graph.now.nodes.items }
    ensures { IfOk result (IsRun K.shape graph.now.nodes.items start (view value.now)
        (matches_with M.finds table.now assumed.now)) }
{
    let mut matching = Assumed::new(alloc, graph, start, value, table, assumed);
    let mut questions = Vec::new(alloc);
    match accepts(graph, start, value, &mut matching, &mut questions) {
        Ok(verdict) => Ok(Run::Answered(verdict)),
        Err(error) => match matching.into_stopped() {
            Some(stopped) => Ok(Run::Stopped(stopped)),
            None => Err(error),
        },
    }
}

// Assumes yes of the last match of which no is assumed, and nothing of those behind it; says whether there is one.
pub(crate) fn turn_last(assumed: &mut Vec<AssumedMatch>) -> Result<bool, AllocError>
    ensures turned { IfOk result (λ turned. turned ≡ true → IsTurned assumed.old.items assumed.new.items) }
    ensures left { IfOk result (λ turned. (rest : Answers)
        → is_behind assumed.old.items rest ≡ (turned && is_left assumed.new.items rest)) }
{
    while let Some(last) = assumed.pop() {
        if !last.is_match {
            assumed.push(AssumedMatch {
                pattern: last.pattern,
                text: last.text,
                is_match: true,
            })?;
            return Ok(true);
        }
    }
    Ok(false)
}

// What is decided of a value by the runs that follow one that stopped, which was the first of those that are made. A run stops at the first
// match that is neither finished nor assumed, and is begun again with that one assumed no, then yes. As long as none refuses they ask what
// runs ask that tell all faults, so that both give up on the same values.
pub(crate) fn assume_each<K: Validate, M: PatternMatcher>(
    alloc: Global,
    graph: &Graph<K>,
    start: usize,
    table: &PatternTable<M>,
    value: &Value,
) -> Result<Decision, AllocError>
    requires known { KnowsTable K.knows graph.now.nodes.items table.now }
    requires forms { AreForms M.finds table.now }
    requires there { start < length graph.now.nodes.items }
    ensures { IfOk result (IsDecision K.shape graph.now.nodes.items start (view value.now)
        (matches_with M.finds table.now [])) }
{
    let mut assumed = Vec::new(alloc);
    for made in 1..RUNS {
        match judge_once(alloc, graph, start, table, assumed.as_slice(), value)? {
            Run::Stopped(stopped) => assumed.push(AssumedMatch {
                pattern: stopped.pattern,
                text: stopped.text,
                is_match: false,
            })?,
            Run::Answered(false) => return Ok(Decision::Refused),
            Run::Answered(true) => {
                if !turn_last(&mut assumed)? {
                    return Ok(Decision::Accepted);
                }
            }
        }
    }
    Ok(Decision::Undecided)
}

/// What is decided of a value from a node of a graph on: whether it is accepted however its unfinished matches are answered.
///
/// One run is all where each match that it asks for finishes. Else there are 64 in all at most.
///
/// # Errors
///
/// Where memory was refused.
pub fn decide<K: Validate, M: PatternMatcher>(
    alloc: Global,
    graph: &Graph<K>,
    start: usize,
    table: &PatternTable<M>,
    value: &Value,
) -> Result<Decision, AllocError>
    requires known { KnowsTable K.knows graph.now.nodes.items table.now }
    requires forms { AreForms M.finds table.now }
    requires there { start < length graph.now.nodes.items }
    ensures cut { IfOk result (IsDecision K.shape graph.now.nodes.items start (view value.now)
        (matches_with M.finds table.now [])) }
    ensures verdict { IfOk result (IsVerdictOf K.shape M.finds graph.now.nodes.items table.now start (view value.now)) }
{
    match run_once(alloc, graph, start, table, &[], value)? {
        Run::Answered(true) => Ok(Decision::Accepted),
        Run::Answered(false) => Ok(Decision::Refused),
        Run::Stopped(_stopped) => assume_each(alloc, graph, start, table, value),
    }
}
