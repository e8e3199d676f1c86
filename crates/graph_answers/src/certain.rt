//! What a value is told however the matches that stay unfinished are answered.
ghost use Rattle.std.specs.Prelude.{◌≡◌, ◌<◌, [], length, true, false, IfOk, IfSome, string_bytes};
ghost use Rattle.serde_json.specs.View.{view};
ghost use Rattle.schema_meaning.specs.Faults.{Fault, Told};
ghost use Rattle.error_kinds.specs.Floats.{fault_has_float};
ghost use Rattle.schema_reports.specs.Stands.{is_one_of};
ghost use Rattle.schema_reports.specs.Told.{faults_of, are_proper};
ghost use Rattle.graph_answers.specs.Answers.{IsVerdict, IsCertified};
ghost use Rattle.graph_answers.specs.Certain.{IsAccepting, IsCertain, AreShared};
ghost use Rattle.graph_answers.specs.Certain.{IsUnfinished, IsUnfinishedOpen, IsFirst};
ghost use Rattle.graph_answers.specs.Certain.{AreThoseFaults, HaveThoseCertificates, IsOneOfThose};
ghost use Rattle.graph_answers.specs.Completions.{matches_with, asked_from, start_at, IsStop};
ghost use Rattle.graph_answers.specs.Linking.{KnowsTable};
ghost use Rattle.graph_answers.specs.Runs.{IsDecision};
ghost use Rattle.graph_answers.specs.Tables.{AreForms};
ghost use Rattle.graph_answers.specs.declared.runs.Decision.TheVariants as decisions;

use crate::assumed::{Assumed, AssumedMatch, UnfinishedMatch};
use crate::runs::{Decision, RUNS, Run, assume_each, run_once, turn_last};
use crate::seeking::{Stand, seek};
use crate::telling::{Telling, tell_once};
use error_kinds::keep_shared;
use schema_engine::graph::Graph;
use schema_engine::validate::Validate;
use schema_patterns::{PatternMatcher, PatternTable};
use schema_reports::heard::all_heard;
use schema_reports::{
    AllFaults, ErrorIterator, FirstFault, Observer, ValidationError, ValidationErrorKind,
};
use serde_json::Value;
use std::alloc::{AllocError, Global};

// Of the errors of one run more, those that each run before told, if there were any.
fn narrowed<'i>(
    before: Option<Vec<ValidationError<'i>>>,
    mut errors: Vec<ValidationError<'i>>,
) -> Vec<ValidationError<'i>>
    ensures told { (f : Fault) → Told f (faults_of result.items) → Told f (faults_of errors.entry.items) }
    ensures before { IfSome before.entry (λ kept. (f : Fault)
        → Told f (faults_of result.items) → Told f (faults_of kept.items)) }
    ensures all { (f : Fault) → fault_has_float f ≡ false → Told f (faults_of errors.entry.items)
        → IfSome before.entry (λ kept. Told f (faults_of kept.items)) → Told f (faults_of result.items) }
    ensures proper { are_proper errors.entry.items ≡ true → are_proper result.items ≡ true }
{
    match before {
        Some(kept) => {
            keep_shared(&mut errors, kept.as_slice());
            errors
        }
        None => errors,
    }
}

// What runs that tell give: the faults that a value has in each completion, none where that takes more runs than are made; and what is
// decided by these runs.
#[derive(Drop)]
pub(crate) struct Shared<'i> {
    errors: Vec<ValidationError<'i>>,
    decision: Decision,
}

// What is decided once a run more has told some faults, or none.
fn decided_by(before: Decision, has_none: bool) -> Decision
    ensures same { has_none ≡ true → result ≡ before }
    ensures refused { has_none ≡ false → result ≡ decisions.Refused }
{
    if has_none { before } else { Decision::Refused }
}

// What is told and decided by the runs that follow one that stopped at this match: it was the first of those that are made.
fn shared_faults<'i, K: Validate, M: PatternMatcher>(
    alloc: Global,
    graph: &Graph<K>,
    start: usize,
    table: &PatternTable<M>,
    value: &'i Value,
    stopped: UnfinishedMatch,
) -> Result<Shared<'i>, AllocError>
    requires known { KnowsTable K.knows graph.now.nodes.items table.now }
    requires forms { AreForms M.finds table.now }
    requires there { start < length graph.now.nodes.items }
    requires stop { IsStop (asked_from (start_at K.shape graph.now.nodes.items start (view value.now))
        (matches_with M.finds table.now [])) (string_bytes stopped.pattern) (string_bytes stopped.text) }
    ensures shared { IfOk result (λ s. AreShared K.shape graph.now.nodes.items start (view value.now)
        (matches_with M.finds table.now []) s.errors.items) }
    ensures decided { IfOk result (λ s. IsDecision K.shape graph.now.nodes.items start (view value.now)
        (matches_with M.finds table.now []) s.decision) }
{
    let mut assumed = vec![in alloc;
        AssumedMatch {
            pattern: stopped.pattern,
            text: stopped.text,
            is_match: false,
        },
    ]?;
    let mut shared = None;
    let mut decision = Decision::Accepted;
    for made in 1..RUNS {
        let all = Observer::All(AllFaults::new(alloc));
        match tell_once(alloc, graph, start, table, assumed.as_slice(), value, all)? {
            Telling::Stopped(stopped) => assumed.push(AssumedMatch {
                pattern: stopped.pattern,
                text: stopped.text,
                is_match: false,
            })?,
            Telling::Told(observer) => {
                let errors = all_heard(alloc, observer);
                decision = decided_by(decision, errors.is_empty());
                let kept = narrowed(shared, errors);
                if !turn_last(&mut assumed)? {
                    return Ok(Shared {
                        errors: kept,
                        decision,
                    });
                }
                shared = Some(kept);
            }
        }
    }
    Ok(Shared {
        errors: Vec::new(alloc),
        decision: Decision::Undecided,
    })
}

// The error of a match of a pattern that stays unfinished, of a keyword that stands there.
fn unfinished<'i>(
    alloc: Global,
    stand: Stand<'i>,
    pattern: String,
) -> Result<ValidationError<'i>, AllocError>
    ensures { IfOk result (IsUnfinished (string_bytes pattern)) }
{
    let kind = ValidationErrorKind::UnfinishedMatch { pattern };
    let error = ValidationError::new(
        alloc,
        kind,
        stand.value,
        stand.instance,
        stand.schema,
        stand.evaluation,
    )?;
    Ok(error.standing_in(stand.location, true))
}

// The error of the first match that stays unfinished of those that are asked for, in the order of the keywords and of what they ask, where
// a run was stopped by one. The walk asks all that a run asks, and a match that stays unfinished does so each time: so it stops as well,
// at that match or before it, and where it remembers none it was for want of memory.
fn first_unfinished<'i, K: Validate, M: PatternMatcher>(
    alloc: Global,
    graph: &Graph<K>,
    start: usize,
    table: &PatternTable<M>,
    value: &'i Value,
) -> Result<ValidationError<'i>, AllocError>
    requires known { KnowsTable K.knows graph.now.nodes.items table.now }
    requires forms { AreForms M.finds table.now }
    requires there { start < length graph.now.nodes.items }
    ensures { IfOk result (IsUnfinishedOpen K.shape graph.now.nodes.items start
        (view value.now) (matches_with M.finds table.now [])) }
{
    let mut matching = Assumed::new(alloc, graph, start, value, table, &[]);
    let mut questions = Vec::new(alloc);
    let Some(stand) = seek(alloc, graph, start, value, &mut matching, &mut questions)? else {
        return Err(AllocError);
    };
    match matching.into_stopped() {
        Some(stopped) => unfinished(alloc, stand, stopped.pattern),
        None => Err(AllocError),
    }
}

// What is told of a value of which some match that it asks for stays unfinished, as of the match that stopped the first run.
fn tell_open<'i, K: Validate, M: PatternMatcher>(
    alloc: Global,
    graph: &Graph<K>,
    start: usize,
    table: &PatternTable<M>,
    value: &'i Value,
    stopped: UnfinishedMatch,
) -> Result<Vec<ValidationError<'i>>, AllocError>
    requires known { KnowsTable K.knows graph.now.nodes.items table.now }
    requires forms { AreForms M.finds table.now }
    requires there { start < length graph.now.nodes.items }
    requires stop { IsStop (asked_from (start_at K.shape graph.now.nodes.items start (view value.now))
        (matches_with M.finds table.now [])) (string_bytes stopped.pattern) (string_bytes stopped.text) }
    ensures each { IfOk result (λ es. IsCertain K.shape graph.now.nodes.items start (view value.now)
        (matches_with M.finds table.now []) (faults_of es.items)) }
    ensures proper { IfOk result (λ es. are_proper es.items ≡ true) }
{
    let shared = shared_faults(alloc, graph, start, table, value, stopped)?;
    if !shared.errors.is_empty() {
        return Ok(shared.errors);
    }
    match shared.decision {
        Decision::Accepted => return Ok(Vec::new(alloc)),
        Decision::Refused => {}
        Decision::Undecided => {}
    }
    let error = first_unfinished(alloc, graph, start, table, value)?;
    Ok(vec![in alloc; error]?)
}

/// Whether a value is accepted from a node of a graph on, however its unfinished matches are answered.
///
/// One run is all where each match that it asks for finishes. Else there are 64 in all at most; a value that is not decided by them is
/// not accepted.
///
/// # Errors
///
/// Where memory was refused.
pub fn accepts_certain<K: Validate, M: PatternMatcher>(
    alloc: Global,
    graph: &Graph<K>,
    start: usize,
    table: &PatternTable<M>,
    value: &Value,
) -> Result<bool, AllocError>
    requires known { KnowsTable K.knows graph.now.nodes.items table.now }
    requires forms { AreForms M.finds table.now }
    requires there { start < length graph.now.nodes.items }
    ensures each { IfOk result (IsAccepting K.shape graph.now.nodes.items start (view value.now)
        (matches_with M.finds table.now [])) }
    ensures verdict { IfOk result (IsVerdict K.shape M.finds graph.now.nodes.items table.now start (view value.now)) }
    ensures certified { IfOk result (IsCertified K.shape M.finds graph.now.nodes.items table.now start (view value.now)) }
{
    match run_once(alloc, graph, start, table, &[], value)? {
        Run::Answered(verdict) => Ok(verdict),
        Run::Stopped(_stopped) => match assume_each(alloc, graph, start, table, value)? {
            Decision::Accepted => Ok(true),
            Decision::Refused => Ok(false),
            Decision::Undecided => Ok(false),
        },
    }
}

/// The faults that a value has from a node of a graph on, however its unfinished matches are answered, in the order in which they are met:
/// those that each way to answer them tells; or, where it is not accepted by each and no such fault is known, one `UnfinishedMatch`.
///
/// One run is all where each match that it asks for finishes: then they are all of its faults. Else there are 64 in all at most, and where
/// an `UnfinishedMatch` is told, the match is sought by a walk to all that questions lead to.
///
/// # Errors
///
/// Where memory was refused, as it may be for a match that only this walk asks, or a count of owners is full.
pub fn tell_certain<'i, K: Validate, M: PatternMatcher>(
    alloc: Global,
    graph: &Graph<K>,
    start: usize,
    table: &PatternTable<M>,
    value: &'i Value,
) -> Result<Vec<ValidationError<'i>>, AllocError>
    requires known { KnowsTable K.knows graph.now.nodes.items table.now }
    requires forms { AreForms M.finds table.now }
    requires there { start < length graph.now.nodes.items }
    ensures each { IfOk result (λ es. IsCertain K.shape graph.now.nodes.items start (view value.now)
        (matches_with M.finds table.now []) (faults_of es.items)) }
    ensures proper { IfOk result (λ es. are_proper es.items ≡ true) }
    ensures faults { IfOk result (λ es. AreThoseFaults K.shape M.finds graph.now.nodes.items table.now start
        (view value.now) (faults_of es.items)) }
    ensures certified { IfOk result (λ es. HaveThoseCertificates K.shape M.finds graph.now.nodes.items table.now start
        (view value.now) (faults_of es.items)) }
{
    let all = Observer::All(AllFaults::new(alloc));
    match tell_once(alloc, graph, start, table, &[], value, all)? {
        Telling::Told(observer) => Ok(all_heard(alloc, observer)),
        Telling::Stopped(stopped) => tell_open(alloc, graph, start, table, value, stopped),
    }
}

// The first of some errors, if there is any.
fn first_of<'i>(errors: Vec<ValidationError<'i>>) -> Option<ValidationError<'i>>
    ensures { are_proper errors.entry.items ≡ true → is_one_of result (faults_of errors.entry.items) }
{
    let mut errors = ErrorIterator::of(errors);
    errors.next()
}

/// The first of the faults of [`tell_certain`], if there is any. Where each match that the value asks for finishes, it stops at that one.
///
/// # Errors
///
/// Where memory was refused or a count of owners is full.
pub fn first_certain<'i, K: Validate, M: PatternMatcher>(
    alloc: Global,
    graph: &Graph<K>,
    start: usize,
    table: &PatternTable<M>,
    value: &'i Value,
) -> Result<Option<ValidationError<'i>>, AllocError>
    requires known { KnowsTable K.knows graph.now.nodes.items table.now }
    requires forms { AreForms M.finds table.now }
    requires there { start < length graph.now.nodes.items }
    ensures each { IfOk result (IsFirst K.shape graph.now.nodes.items start (view value.now)
        (matches_with M.finds table.now [])) }
    ensures fault { IfOk result (IsOneOfThose K.shape M.finds graph.now.nodes.items table.now start (view value.now)) }
{
    let first = Observer::First(FirstFault::new());
    match tell_once(alloc, graph, start, table, &[], value, first)? {
        Telling::Told(Observer::First(kept)) => Ok(kept.into_error()),
        Telling::Told(Observer::Verdict(_verdict)) => unreachable!(),
        Telling::Told(Observer::All(_all)) => unreachable!(),
        Telling::Told(Observer::Paths(_paths)) => unreachable!(),
        Telling::Stopped(stopped) => {
            Ok(first_of(tell_open(alloc, graph, start, table, value, stopped)?))
        }
    }
}
