//! The faults of a compiled schema.
ghost use Rattle.std.specs.Prelude.{◌≡◌, ◌<◌, ◌≤◌, ◌++◌, [], ◌∷◌, ℕ, suc, true, false, map, drop, length, OnOk, OnErr, IfOk};
ghost use Rattle.serde_json.specs.Data.{string};
ghost use Rattle.serde_json.specs.View.{view};
ghost use Rattle.schema_meaning.specs.Members.{In};
ghost use Rattle.schema_meaning.specs.Places.{stay, to_name};
ghost use Rattle.schema_meaning.specs.Keywords.{rule};
ghost use Rattle.location_texts.specs.Locations.{location_of};
ghost use Rattle.schema_engine.specs.Places.{value_at, step_of};
ghost use Rattle.schema_engine.specs.Questions.{call_of};
ghost use Rattle.schema_engine.specs.Refusals.{has_one_fault};
ghost use Rattle.schema_engine.specs.Rules.{combination_of};
ghost use Rattle.schema_engine.specs.Graphs.{keywords_at, path_at, rank_at, reading_of};
ghost use Rattle.schema_engine.specs.Led.{LedTo, AreReady};
ghost use Rattle.engine_faults.specs.Faults.{node_faults, keywords_faults, rule_faults, one_told, question_faults};
ghost use Rattle.engine_faults.specs.Faults.{faults_beside, faults_by_first, faults_of_object, AreAsked};
ghost use Rattle.engine_faults.specs.Faults.{AreErrorsOf, Hearing};
ghost use Rattle.schema_engine.specs.Pairs.{ArePaired};
ghost use Rattle.schema_engine.specs.Standing.{nodes_of, size_of};
ghost use Rattle.engine_faults.specs.Telling.{size_at, stand_in, stand_of, stand_of_name};
ghost use Rattle.schema_engine.specs.Standing.{LedHere, MayAskAt, EachMayAskAt};
ghost use Rattle.engine_faults.specs.Telling.{AreIn, HearsAt, HearsOf, IsThere};
ghost use Rattle.schema_engine.specs.Matches.{InEach};

use crate::refusals::{any_of, one_of};
use crate::there::There;
use schema_engine::combination::Combination;
use schema_engine::counting::count_accepted;
use schema_engine::entry::Entry;
use schema_engine::graph::Graph;
use schema_engine::here::Here;
use schema_engine::matching::Matching;
use schema_engine::node::Together;
use schema_engine::pairing::paired;
use schema_engine::place::{Asked, Place, Question};
use schema_engine::progress::{Progress, is_in_progress};
use schema_engine::situation::Situation;
use schema_engine::validate::Validate;
use schema_engine::verdict::{accepts_combined, accepts_question};
use schema_reports::heard::all_heard;
use schema_reports::{AllFaults, LazyLocation, Observer, ValidationError, ValidationErrorKind};
use serde_json::Value;
use std::alloc::AllocError;

// What a node tells of a value in its situation, where no reference is in progress.
#[cycle(telling)]
pub(crate) fn tell_value<'q, 'i: 'q, K: Validate, T: Matching>(
    graph: &'q Graph<K>,
    node: usize,
    situation: Situation<'_, 'i>,
    matching: &mut T,
    questions: &mut Vec<Question<'q, 'i>>,
    observer: &mut Observer<'i>,
) -> Result<(), AllocError>
    requires known { AreReady K.knows K.shape (T.matches matching.old) graph.now.nodes.items }
    requires there { node < length graph.now.nodes.items }
    requires path { situation.schema.now ≡ path_at graph.now.nodes.items node }
    requires led { LedTo (T.matches matching.old) node (view situation.value.now) }
    ensures matches { OnOk result (T.matches matching.new ≡ T.matches matching.old) }
    ensures stays { OnErr result (T.matches matching.new ≡ T.matches matching.old) }
    ensures questions { OnOk result (questions.new.items ≡ questions.old.items) }
    ensures heard { let nodes = graph.now.nodes.items in OnOk result (InEach (T.matches matching.old) (λ m.
        let r = reading_of K.shape m nodes in
        Hearing (stand_in situation.entry) (suc (size_at nodes (stand_in situation.entry) node))
        (node_faults r node) observer.old observer.new)) }
{
    let there = There {
        here: Here {
            graph,
            node,
            place: Place::Value(situation.value),
            progress: &Progress::Nothing,
        },
        situation,
    };
    tell_node(&there, matching, questions, observer)
}

// What a node tells there.
#[cycle(telling)]
fn tell_node<'q, 'i: 'q, K: Validate, T: Matching>(
    there: &There<'q, 'i, '_, K>,
    matching: &mut T,
    questions: &mut Vec<Question<'q, 'i>>,
    observer: &mut Observer<'i>,
) -> Result<(), AllocError>
    requires known { AreReady K.knows K.shape (T.matches matching.old) (nodes_of there.now.here) }
    requires right { IsThere there.now }
    requires there { there.now.here.node < length (nodes_of there.now.here) }
    requires led { LedHere (T.matches matching.old) there.now.here }
    ensures matches { OnOk result (T.matches matching.new ≡ T.matches matching.old) }
    ensures stays { OnErr result (T.matches matching.new ≡ T.matches matching.old) }
    ensures questions { OnOk result (questions.new.items ≡ questions.old.items) }
    ensures heard { OnOk result (InEach (T.matches matching.old) (λ m.
        let r = reading_of K.shape m (nodes_of there.now.here) in
        Hearing (stand_of there.now) (suc (size_of there.now.here))
        (node_faults r there.now.here.node) observer.old observer.new)) }
{
    let compiled = &there.here.graph.nodes[there.here.node];
    let keywords = compiled.keywords.as_slice();
    if let Some(hint) = compiled.together {
        if let Some(pair) = paired(keywords, hint) {
            return tell_paired(there, keywords, pair, matching, questions, observer);
        }
    }
    tell_keywords(there, keywords, matching, questions, observer)
}

// What some keywords of the node tell.
#[cycle(telling)]
fn tell_keywords<'q, 'i: 'q, K: Validate, T: Matching>(
    there: &There<'q, 'i, '_, K>,
    keywords: &'q [K],
    matching: &mut T,
    questions: &mut Vec<Question<'q, 'i>>,
    observer: &mut Observer<'i>,
) -> Result<(), AllocError>
    requires known { AreReady K.knows K.shape (T.matches matching.old) (nodes_of there.now.here) }
    requires right { IsThere there.now }
    requires stand { AreIn keywords.now (keywords_at (nodes_of there.now.here) there.now.here.node) }
    requires led { LedHere (T.matches matching.old) there.now.here }
    ensures matches { OnOk result (T.matches matching.new ≡ T.matches matching.old) }
    ensures stays { OnErr result (T.matches matching.new ≡ T.matches matching.old) }
    ensures questions { OnOk result (questions.new.items ≡ questions.old.items) }
    ensures heard { OnOk result (InEach (T.matches matching.old) (λ m.
        HearsAt there.now (keywords_faults K.shape m (nodes_of there.now.here) there.now.here.node
        (stand_of there.now) keywords.now) observer.old observer.new)) }
{
    for keyword in keywords {
        if observer.is_settled() {
            return Ok(());
        }
        tell_keyword(there, keyword, matching, questions, observer)?;
    }
    Ok(())
}

// What the keywords of the node tell, two of them asked together.
#[cycle(telling)]
fn tell_paired<'q, 'i: 'q, K: Validate, T: Matching>(
    there: &There<'q, 'i, '_, K>,
    keywords: &'q [K],
    pair: Together,
    matching: &mut T,
    questions: &mut Vec<Question<'q, 'i>>,
    observer: &mut Observer<'i>,
) -> Result<(), AllocError>
    requires known { AreReady K.knows K.shape (T.matches matching.old) (nodes_of there.now.here) }
    requires right { IsThere there.now }
    requires stand { AreIn keywords.now (keywords_at (nodes_of there.now.here) there.now.here.node) }
    requires led { LedHere (T.matches matching.old) there.now.here }
    requires pair { ArePaired K.pairs keywords.now pair }
    ensures matches { OnOk result (T.matches matching.new ≡ T.matches matching.old) }
    ensures stays { OnErr result (T.matches matching.new ≡ T.matches matching.old) }
    ensures questions { OnOk result (questions.new.items ≡ questions.old.items) }
    ensures heard { OnOk result (InEach (T.matches matching.old) (λ m.
        HearsAt there.now (keywords_faults K.shape m (nodes_of there.now.here) there.now.here.node
        (stand_of there.now) keywords.now) observer.old observer.new)) }
{
    tell_keywords(
        there,
        &keywords[..pair.second],
        matching,
        questions,
        observer,
    )?;
    if observer.is_settled() {
        return Ok(());
    }
    let second = &keywords[pair.second];
    let between = &keywords[pair.second + 1..pair.first];
    let first = &keywords[pair.first];
    tell_together(there, second, between, first, matching, questions, observer)?;
    tell_keywords(
        there,
        &keywords[pair.first + 1..],
        matching,
        questions,
        observer,
    )
}

// What two keywords tell that go together, with those that stand between them. No match is asked for twice.
#[cycle(telling)]
fn tell_together<'q, 'i: 'q, K: Validate, T: Matching>(
    there: &There<'q, 'i, '_, K>,
    second: &'q K,
    between: &'q [K],
    first: &'q K,
    matching: &mut T,
    questions: &mut Vec<Question<'q, 'i>>,
    observer: &mut Observer<'i>,
) -> Result<(), AllocError>
    requires known { AreReady K.knows K.shape (T.matches matching.old) (nodes_of there.now.here) }
    requires right { IsThere there.now }
    requires pairs { K.pairs first.now second.now }
    requires second { In second.now (keywords_at (nodes_of there.now.here) there.now.here.node) }
    requires between { AreIn between.now (keywords_at (nodes_of there.now.here) there.now.here.node) }
    requires first { In first.now (keywords_at (nodes_of there.now.here) there.now.here.node) }
    requires led { LedHere (T.matches matching.old) there.now.here }
    ensures matches { OnOk result (T.matches matching.new ≡ T.matches matching.old) }
    ensures stays { OnErr result (T.matches matching.new ≡ T.matches matching.old) }
    ensures questions { OnOk result (questions.new.items ≡ questions.old.items) }
    ensures heard { OnOk result (InEach (T.matches matching.old) (λ m.
        HearsAt there.now (keywords_faults K.shape m (nodes_of there.now.here) there.now.here.node
        (stand_of there.now) (second.now ∷ (between.now ++ first.now ∷ []))) observer.old observer.new)) }
{
    let start = questions.len();
    first.questions(there.here.place, matching, questions)?;
    let held = questions.len();
    second.questions_beside(first, there.here.place, start, questions)?;
    tell_by_rule(there, second, held, matching, questions, observer)?;
    questions.truncate(held);
    tell_keywords(there, between, matching, questions, observer)?;
    tell_unless_settled(there, first, start, matching, questions, observer)?;
    questions.truncate(start);
    Ok(())
}

// What a keyword tells whose questions are those from `start` on. Where the observer is settled, they need not be asked.
#[cycle(telling)]
fn tell_unless_settled<'q, 'i: 'q, K: Validate, T: Matching>(
    there: &There<'q, 'i, '_, K>,
    keyword: &'q K,
    start: usize,
    matching: &mut T,
    questions: &mut Vec<Question<'q, 'i>>,
    observer: &mut Observer<'i>,
) -> Result<(), AllocError>
    requires known { AreReady K.knows K.shape (T.matches matching.old) (nodes_of there.now.here) }
    requires right { IsThere there.now }
    requires stands { In keyword.now (keywords_at (nodes_of there.now.here) there.now.here.node) }
    requires led { LedHere (T.matches matching.old) there.now.here }
    requires start { start ≤ length questions.old.items }
    requires asked { InEach (T.matches matching.old)
        (λ m. AreAsked (K.added keyword.now) (rule m (value_at there.now.here.place) (K.shape keyword.now))
        (drop start questions.old.items)) }
    ensures matches { OnOk result (T.matches matching.new ≡ T.matches matching.old) }
    ensures stays { OnErr result (T.matches matching.new ≡ T.matches matching.old) }
    ensures questions { OnOk result (questions.new.items ≡ questions.old.items) }
    ensures heard { OnOk result (InEach (T.matches matching.old) (λ m.
        let r = reading_of K.shape m (nodes_of there.now.here) in
        HearsAt there.now (rule_faults r there.now.here.node
        (rule m (value_at there.now.here.place) (K.shape keyword.now))) observer.old observer.new)) }
{
    if observer.is_settled() {
        return Ok(());
    }
    tell_by_rule(there, keyword, start, matching, questions, observer)
}

// What a keyword of the node tells.
#[cycle(telling)]
fn tell_keyword<'q, 'i: 'q, K: Validate, T: Matching>(
    there: &There<'q, 'i, '_, K>,
    keyword: &'q K,
    matching: &mut T,
    questions: &mut Vec<Question<'q, 'i>>,
    observer: &mut Observer<'i>,
) -> Result<(), AllocError>
    requires known { AreReady K.knows K.shape (T.matches matching.old) (nodes_of there.now.here) }
    requires right { IsThere there.now }
    requires stands { In keyword.now (keywords_at (nodes_of there.now.here) there.now.here.node) }
    requires led { LedHere (T.matches matching.old) there.now.here }
    ensures matches { OnOk result (T.matches matching.new ≡ T.matches matching.old) }
    ensures stays { OnErr result (T.matches matching.new ≡ T.matches matching.old) }
    ensures questions { OnOk result (questions.new.items ≡ questions.old.items) }
    ensures heard { OnOk result (InEach (T.matches matching.old) (λ m.
        let r = reading_of K.shape m (nodes_of there.now.here) in
        HearsAt there.now (rule_faults r there.now.here.node
        (rule m (value_at there.now.here.place) (K.shape keyword.now))) observer.old observer.new)) }
{
    let start = questions.len();
    keyword.questions(there.here.place, matching, questions)?;
    tell_by_rule(there, keyword, start, matching, questions, observer)?;
    questions.truncate(start);
    Ok(())
}

// What a keyword tells whose questions are those from `start` on.
#[cycle(telling)]
fn tell_by_rule<'q, 'i: 'q, K: Validate, T: Matching>(
    there: &There<'q, 'i, '_, K>,
    keyword: &'q K,
    start: usize,
    matching: &mut T,
    questions: &mut Vec<Question<'q, 'i>>,
    observer: &mut Observer<'i>,
) -> Result<(), AllocError>
    requires known { AreReady K.knows K.shape (T.matches matching.old) (nodes_of there.now.here) }
    requires right { IsThere there.now }
    requires stands { In keyword.now (keywords_at (nodes_of there.now.here) there.now.here.node) }
    requires led { LedHere (T.matches matching.old) there.now.here }
    requires start { start ≤ length questions.old.items }
    requires asked { InEach (T.matches matching.old)
        (λ m. AreAsked (K.added keyword.now) (rule m (value_at there.now.here.place) (K.shape keyword.now))
        (drop start questions.old.items)) }
    ensures matches { OnOk result (T.matches matching.new ≡ T.matches matching.old) }
    ensures stays { OnErr result (T.matches matching.new ≡ T.matches matching.old) }
    ensures questions { OnOk result (questions.new.items ≡ questions.old.items) }
    ensures heard { OnOk result (InEach (T.matches matching.old) (λ m.
        let r = reading_of K.shape m (nodes_of there.now.here) in
        HearsAt there.now (rule_faults r there.now.here.node
        (rule m (value_at there.now.here.place) (K.shape keyword.now))) observer.old observer.new)) }
{
    let combination = keyword.combination(there.here.place);
    match combination {
        Combination::Every => {
            keyword.tell_notes(&there.situation, matching, observer)?;
            tell_each(there, keyword, true, start, matching, questions, observer)
        }
        Combination::EachNamed => {
            tell_named(there, keyword, start, matching, questions, observer)
        }
        Combination::Conditional => {
            tell_conditional(there, keyword, start, matching, questions, observer)
        }
        _ => tell_combined(
            there,
            keyword,
            combination,
            start,
            matching,
            questions,
            observer,
        ),
    }
}

// What the questions from `start` on tell that stand beside this answer to a condition.
#[cycle(telling)]
fn tell_each<'q, 'i: 'q, K: Validate, T: Matching>(
    there: &There<'q, 'i, '_, K>,
    keyword: &'q K,
    beside: bool,
    start: usize,
    matching: &mut T,
    questions: &mut Vec<Question<'q, 'i>>,
    observer: &mut Observer<'i>,
) -> Result<(), AllocError>
    requires known { AreReady K.knows K.shape (T.matches matching.old) (nodes_of there.now.here) }
    requires right { IsThere there.now }
    requires asked { EachMayAskAt (T.matches matching.old) there.now.here
        (map call_of (drop start questions.old.items)) }
    ensures matches { OnOk result (T.matches matching.new ≡ T.matches matching.old) }
    ensures stays { OnErr result (T.matches matching.new ≡ T.matches matching.old) }
    ensures questions { OnOk result (questions.new.items ≡ questions.old.items) }
    ensures heard { OnOk result (InEach (T.matches matching.old) (λ m.
        let r = reading_of K.shape m (nodes_of there.now.here) in
        HearsAt there.now (λ x. faults_beside (question_faults r (K.added keyword.now) x) beside
        (drop start questions.old.items)) observer.old observer.new)) }
{
    let end = questions.len();
    for index in start..end {
        if observer.is_settled() {
            return Ok(());
        }
        let question = questions[index];
        if question.beside != beside {
            continue;
        }
        tell_question(there, keyword, question, matching, questions, observer)?;
    }
    Ok(())
}

// What is told where the first of the questions from `start` on is a condition.
#[cycle(telling)]
fn tell_conditional<'q, 'i: 'q, K: Validate, T: Matching>(
    there: &There<'q, 'i, '_, K>,
    keyword: &'q K,
    start: usize,
    matching: &mut T,
    questions: &mut Vec<Question<'q, 'i>>,
    observer: &mut Observer<'i>,
) -> Result<(), AllocError>
    requires known { AreReady K.knows K.shape (T.matches matching.old) (nodes_of there.now.here) }
    requires right { IsThere there.now }
    requires asked { EachMayAskAt (T.matches matching.old) there.now.here
        (map call_of (drop start questions.old.items)) }
    ensures matches { OnOk result (T.matches matching.new ≡ T.matches matching.old) }
    ensures stays { OnErr result (T.matches matching.new ≡ T.matches matching.old) }
    ensures questions { OnOk result (questions.new.items ≡ questions.old.items) }
    ensures heard { OnOk result (InEach (T.matches matching.old) (λ m.
        let r = reading_of K.shape m (nodes_of there.now.here) in
        HearsAt there.now (λ x. faults_by_first (question_faults r (K.added keyword.now) x)
        (drop start questions.old.items)) observer.old observer.new)) }
{
    if start >= questions.len() {
        return Ok(());
    }
    let condition = questions[start];
    let answer = accepts_question(&there.here, condition, matching, questions)?;
    tell_each(
        there,
        keyword,
        answer,
        start + 1,
        matching,
        questions,
        observer,
    )
}

// What is told of the object, for each fault that the questions from `start` on tell of a name.
#[cycle(telling)]
fn tell_named<'q, 'i: 'q, K: Validate, T: Matching>(
    there: &There<'q, 'i, '_, K>,
    keyword: &'q K,
    start: usize,
    matching: &mut T,
    questions: &mut Vec<Question<'q, 'i>>,
    observer: &mut Observer<'i>,
) -> Result<(), AllocError>
    requires known { AreReady K.knows K.shape (T.matches matching.old) (nodes_of there.now.here) }
    requires right { IsThere there.now }
    requires asked { EachMayAskAt (T.matches matching.old) there.now.here
        (map call_of (drop start questions.old.items)) }
    ensures matches { OnOk result (T.matches matching.new ≡ T.matches matching.old) }
    ensures stays { OnErr result (T.matches matching.new ≡ T.matches matching.old) }
    ensures questions { OnOk result (questions.new.items ≡ questions.old.items) }
    ensures heard { OnOk result (InEach (T.matches matching.old) (λ m.
        let r = reading_of K.shape m (nodes_of there.now.here) in
        HearsAt there.now (λ x. faults_of_object (question_faults r (K.added keyword.now) x) x
        (drop start questions.old.items)) observer.old observer.new)) }
{
    let situation = &there.situation;
    let end = questions.len();
    for index in start..end {
        if observer.is_settled() {
            return Ok(());
        }
        let question = questions[index];
        let mut heard = observer.fresh(situation.alloc);
        tell_question(there, keyword, question, matching, questions, &mut heard)?;
        observer.absorb_names(situation.alloc, heard, situation.value, situation.instance)?;
    }
    Ok(())
}

// What a keyword tells that has one fault for all of its questions, those from `start` on.
#[cycle(telling)]
fn tell_combined<'q, 'i: 'q, K: Validate, T: Matching>(
    there: &There<'q, 'i, '_, K>,
    keyword: &'q K,
    combination: Combination,
    start: usize,
    matching: &mut T,
    questions: &mut Vec<Question<'q, 'i>>,
    observer: &mut Observer<'i>,
) -> Result<(), AllocError>
    requires known { AreReady K.knows K.shape (T.matches matching.old) (nodes_of there.now.here) }
    requires right { IsThere there.now }
    requires stands { In keyword.now (keywords_at (nodes_of there.now.here) there.now.here.node) }
    requires led { LedHere (T.matches matching.old) there.now.here }
    requires combination { InEach (T.matches matching.old)
        (λ m. combination ≡ combination_of (rule m (value_at there.now.here.place) (K.shape keyword.now))) }
    requires once { has_one_fault combination ≡ true }
    requires start { start ≤ length questions.old.items }
    requires asked { InEach (T.matches matching.old)
        (λ m. AreAsked (K.added keyword.now) (rule m (value_at there.now.here.place) (K.shape keyword.now))
        (drop start questions.old.items)) }
    ensures matches { OnOk result (T.matches matching.new ≡ T.matches matching.old) }
    ensures stays { OnErr result (T.matches matching.new ≡ T.matches matching.old) }
    ensures questions { OnOk result (questions.new.items ≡ questions.old.items) }
    ensures heard { OnOk result (InEach (T.matches matching.old) (λ m.
        let r = reading_of K.shape m (nodes_of there.now.here) in
        HearsAt there.now (rule_faults r there.now.here.node
        (rule m (value_at there.now.here.place) (K.shape keyword.now))) observer.old observer.new)) }
{
    if accepts_combined(&there.here, combination, start, matching, questions)? {
        return Ok(());
    }
    if !observer.hear() {
        return Ok(());
    }
    tell_refusal(
        there,
        keyword,
        combination,
        start,
        matching,
        questions,
        observer,
    )
}

// Tells of the one fault.
#[cycle(telling)]
fn tell_refusal<'q, 'i: 'q, K: Validate, T: Matching>(
    there: &There<'q, 'i, '_, K>,
    keyword: &'q K,
    combination: Combination,
    start: usize,
    matching: &mut T,
    questions: &mut Vec<Question<'q, 'i>>,
    observer: &mut Observer<'i>,
) -> Result<(), AllocError>
    requires known { AreReady K.knows K.shape (T.matches matching.old) (nodes_of there.now.here) }
    requires right { IsThere there.now }
    requires stands { In keyword.now (keywords_at (nodes_of there.now.here) there.now.here.node) }
    requires led { LedHere (T.matches matching.old) there.now.here }
    requires combination { InEach (T.matches matching.old)
        (λ m. combination ≡ combination_of (rule m (value_at there.now.here.place) (K.shape keyword.now))) }
    requires once { has_one_fault combination ≡ true }
    requires start { start ≤ length questions.old.items }
    requires asked { InEach (T.matches matching.old)
        (λ m. AreAsked (K.added keyword.now) (rule m (value_at there.now.here.place) (K.shape keyword.now))
        (drop start questions.old.items)) }
    ensures matches { OnOk result (T.matches matching.new ≡ T.matches matching.old) }
    ensures stays { OnErr result (T.matches matching.new ≡ T.matches matching.old) }
    ensures questions { OnOk result (questions.new.items ≡ questions.old.items) }
    ensures heard { OnOk result (InEach (T.matches matching.old) (λ m.
        let r = reading_of K.shape m (nodes_of there.now.here) in
        HearsAt there.now (one_told r there.now.here.node
        (rule m (value_at there.now.here.place) (K.shape keyword.now))) observer.old observer.new)) }
{
    let situation = &there.situation;
    if let Combination::Counted { .. } = combination {
        let accepted = count_accepted(&there.here, start, matching, questions)?;
        let name = keyword.refused_name(accepted);
        let kind = ValidationErrorKind::Contains;
        return situation.tell(name, kind, situation.value, observer);
    }
    // only a count's name depends on how many accept
    let name = keyword.refused_name(0);
    if situation.tell_paths(name, observer)? {
        return Ok(());
    }
    match combination {
        Combination::SomeBranch => {
            let context = tell_branches(there, keyword, start, matching, questions)?;
            situation.tell(name, any_of(context), situation.value, observer)
        }
        Combination::OneBranch => {
            let accepted = count_accepted(&there.here, start, matching, questions)?;
            let context = tell_branches(there, keyword, start, matching, questions)?;
            let kind = one_of(accepted, context);
            situation.tell(name, kind, situation.value, observer)
        }
        _ => {
            let reason = keyword.reason(situation, &questions[start..])?;
            situation.tell(name, reason.kind, reason.value, observer)
        }
    }
}

// The errors of each of the questions from `start` on.
#[cycle(telling)]
fn tell_branches<'q, 'i: 'q, K: Validate, T: Matching>(
    there: &There<'q, 'i, '_, K>,
    keyword: &'q K,
    start: usize,
    matching: &mut T,
    questions: &mut Vec<Question<'q, 'i>>,
) -> Result<Vec<Vec<ValidationError<'i>>>, AllocError>
    requires known { AreReady K.knows K.shape (T.matches matching.old) (nodes_of there.now.here) }
    requires right { IsThere there.now }
    requires asked { EachMayAskAt (T.matches matching.old) there.now.here
        (map call_of (drop start questions.old.items)) }
    ensures matches { OnOk result (T.matches matching.new ≡ T.matches matching.old) }
    ensures stays { OnErr result (T.matches matching.new ≡ T.matches matching.old) }
    ensures questions { OnOk result (questions.new.items ≡ questions.old.items) }
    ensures branches { IfOk result (λ context. InEach (T.matches matching.old) (λ m.
        let r = reading_of K.shape m (nodes_of there.now.here) in
        AreErrorsOf (stand_of there.now) (size_of there.now.here) (question_faults r (K.added keyword.now))
        (drop start questions.old.items) context.items)) }
{
    let alloc = there.situation.alloc;
    let mut context = Vec::new(alloc);
    let end = questions.len();
    for index in start..end {
        let question = questions[index];
        let mut heard = Observer::All(AllFaults::new(alloc));
        tell_question(there, keyword, question, matching, questions, &mut heard)?;
        context.push(all_heard(alloc, heard))?;
    }
    Ok(context)
}

// What a question of a keyword tells.
#[cycle(telling)]
fn tell_question<'q, 'i: 'q, K: Validate, T: Matching>(
    there: &There<'q, 'i, '_, K>,
    keyword: &'q K,
    question: Question<'q, 'i>,
    matching: &mut T,
    questions: &mut Vec<Question<'q, 'i>>,
    observer: &mut Observer<'i>,
) -> Result<(), AllocError>
    requires known { AreReady K.knows K.shape (T.matches matching.old) (nodes_of there.now.here) }
    requires right { IsThere there.now }
    requires asked { MayAskAt (T.matches matching.old) there.now.here (call_of question) }
    ensures matches { OnOk result (T.matches matching.new ≡ T.matches matching.old) }
    ensures stays { OnErr result (T.matches matching.new ≡ T.matches matching.old) }
    ensures questions { OnOk result (questions.new.items ≡ questions.old.items) }
    ensures heard { OnOk result (InEach (T.matches matching.old) (λ m.
        let r = reading_of K.shape m (nodes_of there.now.here) in
        HearsAt there.now (λ x. question_faults r (K.added keyword.now) x question.entry) observer.old observer.new)) }
{
    let road = there.situation.evaluation;
    match keyword.entry(question.entry) {
        Entry::Whole { keyword } => {
            let evaluation = road.push_name(keyword);
            tell_step(there, &evaluation, question, matching, questions, observer)
        }
        Entry::Name { keyword, name } => {
            let whole = road.push_name(keyword);
            let evaluation = whole.push_name(name);
            tell_step(there, &evaluation, question, matching, questions, observer)
        }
        Entry::Index { keyword, index } => {
            let whole = road.push_name(keyword);
            let evaluation = whole.push_index(index);
            tell_step(there, &evaluation, question, matching, questions, observer)
        }
    }
}

// What a question tells whose entry is reached by this road.
#[cycle(telling)]
fn tell_step<'q, 'i: 'q, 'e, K: Validate, T: Matching>(
    there: &There<'q, 'i, '_, K>,
    evaluation: &'e LazyLocation<'e, 'e>,
    question: Question<'q, 'i>,
    matching: &mut T,
    questions: &mut Vec<Question<'q, 'i>>,
    observer: &mut Observer<'i>,
) -> Result<(), AllocError>
    requires known { AreReady K.knows K.shape (T.matches matching.old) (nodes_of there.now.here) }
    requires right { IsThere there.now }
    requires asked { MayAskAt (T.matches matching.old) there.now.here (call_of question) }
    ensures matches { OnOk result (T.matches matching.new ≡ T.matches matching.old) }
    ensures stays { OnErr result (T.matches matching.new ≡ T.matches matching.old) }
    ensures questions { OnOk result (questions.new.items ≡ questions.old.items) }
    ensures heard { OnOk result (InEach (T.matches matching.old) (λ m.
        let r = reading_of K.shape m (nodes_of there.now.here) in
        HearsOf r there.now (location_of evaluation.now) question.entry.node
        (step_of question.entry.asked) question.entry.follows observer.old observer.new)) }
{
    let node = question.node;
    let graph = there.here.graph;
    let below = Situation {
        evaluation: &*evaluation,
        schema: &graph.nodes[node].schema_path,
        location: &graph.nodes[node].location,
        ..there.situation
    };
    match question.asked {
        Asked::Here => {
            if question.follows {
                tell_target(there, evaluation, node, matching, questions, observer)
            } else {
                tell_inside(there, evaluation, node, matching, questions, observer)
            }
        }
        Asked::Item { index, item } => {
            let instance = there.situation.instance.push_index(index);
            let below = Situation {
                value: item,
                instance: &instance,
                ..below
            };
            tell_value(graph, node, below, matching, questions, observer)
        }
        Asked::Member { name, member } => {
            let instance = there.situation.instance.push_name(name);
            let below = Situation {
                value: member,
                instance: &instance,
                ..below
            };
            tell_value(graph, node, below, matching, questions, observer)
        }
        Asked::Name(name) => tell_name(graph, node, name, below, matching, observer),
    }
}

// What another schema of the keyword tells there.
#[cycle(telling)]
fn tell_inside<'q, 'i: 'q, 'e, K: Validate, T: Matching>(
    there: &There<'q, 'i, '_, K>,
    evaluation: &'e LazyLocation<'e, 'e>,
    node: usize,
    matching: &mut T,
    questions: &mut Vec<Question<'q, 'i>>,
    observer: &mut Observer<'i>,
) -> Result<(), AllocError>
    requires known { AreReady K.knows K.shape (T.matches matching.old) (nodes_of there.now.here) }
    requires right { IsThere there.now }
    requires there { node < length (nodes_of there.now.here) }
    requires falls { rank_at (nodes_of there.now.here) node < rank_at (nodes_of there.now.here) there.now.here.node }
    requires led { LedTo (T.matches matching.old) node (value_at there.now.here.place) }
    ensures matches { OnOk result (T.matches matching.new ≡ T.matches matching.old) }
    ensures stays { OnErr result (T.matches matching.new ≡ T.matches matching.old) }
    ensures questions { OnOk result (questions.new.items ≡ questions.old.items) }
    ensures heard { OnOk result (InEach (T.matches matching.old) (λ m.
        let r = reading_of K.shape m (nodes_of there.now.here) in
        HearsOf r there.now (location_of evaluation.now) node stay false observer.old observer.new)) }
{
    let graph = there.here.graph;
    let inside = There {
        here: Here {
            graph,
            node,
            place: there.here.place,
            progress: there.here.progress,
        },
        situation: Situation {
            evaluation: &*evaluation,
            schema: &graph.nodes[node].schema_path,
            location: &graph.nodes[node].location,
            ..there.situation
        },
    };
    tell_node(&inside, matching, questions, observer)
}

// What the target of a reference tells, unless it is in progress at this place.
#[cycle(telling)]
fn tell_target<'q, 'i: 'q, 'e, K: Validate, T: Matching>(
    there: &There<'q, 'i, '_, K>,
    evaluation: &'e LazyLocation<'e, 'e>,
    target: usize,
    matching: &mut T,
    questions: &mut Vec<Question<'q, 'i>>,
    observer: &mut Observer<'i>,
) -> Result<(), AllocError>
    requires known { AreReady K.knows K.shape (T.matches matching.old) (nodes_of there.now.here) }
    requires right { IsThere there.now }
    requires there { target < length (nodes_of there.now.here) }
    requires led { LedTo (T.matches matching.old) target (value_at there.now.here.place) }
    ensures matches { OnOk result (T.matches matching.new ≡ T.matches matching.old) }
    ensures stays { OnErr result (T.matches matching.new ≡ T.matches matching.old) }
    ensures questions { OnOk result (questions.new.items ≡ questions.old.items) }
    ensures heard { OnOk result (InEach (T.matches matching.old) (λ m.
        let r = reading_of K.shape m (nodes_of there.now.here) in
        HearsOf r there.now (location_of evaluation.now) target stay true observer.old observer.new)) }
{
    if is_in_progress(there.here.progress, target) {
        return Ok(());
    }
    let graph = there.here.graph;
    let entered = there.here.progress.enter(target);
    let inside = There {
        here: Here {
            graph,
            node: target,
            place: there.here.place,
            progress: &entered,
        },
        situation: Situation {
            evaluation: &*evaluation,
            schema: &graph.nodes[target].schema_path,
            location: &graph.nodes[target].location,
            ..there.situation
        },
    };
    tell_node(&inside, matching, questions, observer)
}

// What a node tells of a name, as a text of its own in the situation of its object. No reference is in progress there.
#[cycle(telling)]
fn tell_name<'q, 'i: 'q, K: Validate, T: Matching>(
    graph: &'q Graph<K>,
    node: usize,
    name: &'i str,
    object: Situation<'_, 'i>,
    matching: &mut T,
    observer: &mut Observer<'i>,
) -> Result<(), AllocError>
    requires known { AreReady K.knows K.shape (T.matches matching.old) graph.now.nodes.items }
    requires there { node < length graph.now.nodes.items }
    requires path { object.schema.now ≡ path_at graph.now.nodes.items node }
    requires led { LedTo (T.matches matching.old) node (string name.now) }
    ensures matches { OnOk result (T.matches matching.new ≡ T.matches matching.old) }
    ensures stays { OnErr result (T.matches matching.new ≡ T.matches matching.old) }
    ensures heard { let nodes = graph.now.nodes.items in OnOk result (InEach (T.matches matching.old) (λ m.
        let r = reading_of K.shape m nodes in
        Hearing (stand_of_name name.entry object.entry)
        (suc (size_at nodes (stand_of_name name.entry object.entry) node))
        (node_faults r node) observer.old observer.new)) }
{
    let alloc = object.alloc;
    let text = Value::String(String::from_str(alloc, name)?);
    let mut questions = Vec::new(alloc);
    let mut heard = observer.fresh(alloc);
    let there = There {
        here: Here {
            graph,
            node,
            place: Place::Name(name),
            progress: &Progress::Nothing,
        },
        situation: Situation {
            alloc,
            value: &text,
            instance: object.instance,
            evaluation: object.evaluation,
            schema: object.schema,
            location: object.location,
        },
    };
    tell_node(&there, matching, &mut questions, &mut heard)?;
    observer.absorb(alloc, heard)
}
