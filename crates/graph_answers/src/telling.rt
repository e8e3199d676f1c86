//! What a run tells by what is assumed of the matches that stay unfinished.
ghost use Rattle.std.specs.Prelude.{◌<◌, length, IfOk};
ghost use Rattle.serde_json.specs.View.{view};
ghost use Rattle.graph_answers.specs.Certain.{IsTelling};
ghost use Rattle.graph_answers.specs.Completions.{matches_with};
ghost use Rattle.graph_answers.specs.Linking.{KnowsTable};
ghost use Rattle.graph_answers.specs.Runs.{IsRun};
ghost use Rattle.graph_answers.specs.Tables.{AreForms};

use crate::assumed::{Assumed, AssumedMatch, UnfinishedMatch};
use crate::runs::Run;
use engine_faults::tell::tell;
use schema_engine::graph::Graph;
use schema_engine::validate::Validate;
use schema_patterns::{PatternMatcher, PatternTable};
use schema_reports::{Observer, Verdict};
use serde_json::Value;
use std::alloc::{AllocError, Global};

// What a run by what is assumed tells: each fault, which an observer was told of, or the match at which it stopped.
#[derive(Drop)]
pub(crate) enum Telling<'i> {
    Told(Observer<'i>),
    Stopped(UnfinishedMatch),
}

// What a run tells an observer by what is assumed.
pub(crate) fn tell_once<'i, K: Validate, M: PatternMatcher>(
    alloc: Global,
    graph: &Graph<K>,
    start: usize,
    table: &PatternTable<M>,
    assumed: &[AssumedMatch],
    value: &'i Value,
    mut observer: Observer<'i>,
) -> Result<Telling<'i>, AllocError>
    requires known { KnowsTable K.knows graph.now.nodes.items table.now }
    requires forms { AreForms M.finds table.now }
    requires there { start < length graph.now.nodes.items }
    ensures { IfOk result (IsTelling K.shape graph.now.nodes.items start (view value.now)
        (matches_with M.finds table.now assumed.now) observer.entry) }
{
    let mut matching = Assumed::new(alloc, graph, start, value, table, assumed);
    let mut questions = Vec::new(alloc);
    match tell(
        alloc,
        graph,
        start,
        value,
        &mut matching,
        &mut questions,
        &mut observer,
    ) {
        Ok(()) => Ok(Telling::Told(observer)),
        Err(error) => match matching.into_stopped() {
            Some(stopped) => Ok(Telling::Stopped(stopped)),
            None => Err(error),
        },
    }
}

// The verdict of what a run tells: it asks what one asks that tells all faults, until it is told of one.
pub(crate) fn judge_once<K: Validate, M: PatternMatcher>(
    alloc: Global,
    graph: &Graph<K>,
    start: usize,
    table: &PatternTable<M>,
    assumed: &[AssumedMatch],
    value: &Value,
) -> Result<Run, AllocError>
    requires known { KnowsTable K.knows graph.now.nodes.items table.now }
    requires forms { AreForms M.finds table.now }
    requires there { start < length graph.now.nodes.items }
    ensures { IfOk result (IsRun K.shape graph.now.nodes.items start (view value.now)
        (matches_with M.finds table.now assumed.now)) }
{
    let judge = Observer::Verdict(Verdict::new());
    match tell_once(alloc, graph, start, table, assumed, value, judge)? {
        Telling::Told(Observer::Verdict(verdict)) => Ok(Run::Answered(verdict.accepts())),
        Telling::Told(Observer::First(_first)) => unreachable!(),
        Telling::Told(Observer::All(_all)) => unreachable!(),
        Telling::Told(Observer::Paths(_paths)) => unreachable!(),
        Telling::Stopped(stopped) => Ok(Run::Stopped(stopped)),
    }
}
