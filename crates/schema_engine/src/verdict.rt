//! The verdict of a compiled schema.
ghost use Rattle.std.specs.Prelude.{◌≡◌, ◌<◌, ◌≤◌, ◌+◌, ◌&&◌, ℕ, suc, true, map, drop, length, OnOk, OnErr, IfOk};
ghost use Rattle.serde_json.specs.View.{items_view};
ghost use Rattle.schema_meaning.specs.Members.{In, all_true, count_true};
ghost use Rattle.schema_meaning.specs.Places.{stay};
ghost use Rattle.schema_meaning.specs.Keywords.{rule};
ghost use Rattle.schema_engine.specs.Places.{value_at};
ghost use Rattle.schema_engine.specs.Progress.{numbers_in};
ghost use Rattle.schema_engine.specs.Questions.{call_of};
ghost use Rattle.schema_engine.specs.Asking.{branch_call, item_calls};
ghost use Rattle.schema_engine.specs.Rules.{is_counted, is_right, all_beside, chosen_by_first, combined};
ghost use Rattle.schema_engine.specs.Graphs.{keywords_at, rank_at, reading_of};
ghost use Rattle.schema_engine.specs.Verdicts.{node_in, asked_in, rule_in, size, Tells, TellsFrom};
ghost use Rattle.schema_engine.specs.Led.{LedTo, AreReady};
ghost use Rattle.schema_engine.specs.Standing.{LedHere, MayAskAt, EachMayAskAt};
ghost use Rattle.schema_engine.specs.Matches.{InEach};
ghost use Rattle.schema_engine.specs.Pairs.{ArePaired};

use crate::asking::Asking;
use crate::combination::{Combination, is_within, settled};
use crate::graph::Graph;
use crate::here::Here;
use crate::itself::{Itself, accept_itself};
use crate::matching::Matching;
use crate::node::Together;
use crate::pairing::paired;
use crate::place::{Asked, Place, Question};
use crate::progress::{Progress, is_in_progress};
use crate::validate::Validate;
use serde_json::Value;
use std::alloc::AllocError;

/// Whether a node accepts what is at a place.
///
/// # Errors
///
/// Where memory was refused.
#[cycle(verdict)]
pub fn accepts_node<'q, 'i: 'q, K: Validate, T: Matching>(
    graph: &'q Graph<K>,
    node: usize,
    place: Place<'i>,
    progress: &Progress<'_>,
    matching: &mut T,
    questions: &mut Vec<Question<'q, 'i>>,
) -> Result<bool, AllocError>
    requires known { AreReady K.knows K.shape (T.matches matching.old) graph.now.nodes.items }
    requires there { node < length graph.now.nodes.items }
    requires led { LedTo (T.matches matching.old) node (value_at place) }
    ensures matches { OnOk result (T.matches matching.new ≡ T.matches matching.old) }
    ensures stays { OnErr result (T.matches matching.new ≡ T.matches matching.old) }
    ensures questions { OnOk result (questions.new.items ≡ questions.old.items) }
    ensures verdict { let nodes = graph.now.nodes.items in IfOk result (λ b. InEach (T.matches matching.old) (λ m.
        let r = reading_of K.shape m nodes in
        Tells place.entry (numbers_in progress.now)
        (suc (size nodes (value_at place.entry) (numbers_in progress.now) (rank_at nodes node)))
        (node_in r node) b)) }
{
    let here = Here {
        graph,
        node,
        place,
        progress,
    };
    let compiled = &graph.nodes[node];
    let keywords = compiled.keywords.as_slice();
    match accept_itself(keywords, place, matching)? {
        Itself::Wrong => return Ok(false),
        Itself::Settled => return Ok(true),
        Itself::Asks => {}
    }
    if let Some(hint) = compiled.together {
        if let Some(pair) = paired(keywords, hint) {
            return accepts_paired(&here, keywords, pair, matching, questions);
        }
    }
    for keyword in keywords {
        if !accepts_keyword(&here, keyword, matching, questions)? {
            return Ok(false);
        }
    }
    Ok(true)
}

// Whether each keyword of a node accepts what is at a place, where nothing is wrong with the value itself. Two of them are asked together,
// before the others.
#[cycle(verdict)]
fn accepts_paired<'q, 'i: 'q, K: Validate, T: Matching>(
    here: &Here<'q, 'i, '_, K>,
    keywords: &'q [K],
    pair: Together,
    matching: &mut T,
    questions: &mut Vec<Question<'q, 'i>>,
) -> Result<bool, AllocError>
    requires known { AreReady K.knows K.shape (T.matches matching.old) here.now.graph.now.nodes.items }
    requires keywords { keywords.now ≡ keywords_at here.now.graph.now.nodes.items here.now.node }
    requires led { LedHere (T.matches matching.old) here.now }
    requires right { InEach (T.matches matching.old) (λ m.
        all_true (map (λ k. is_right (rule m (value_at here.now.place) (K.shape k))) keywords.now) ≡ true) }
    requires pair { ArePaired K.pairs keywords.now pair }
    ensures matches { OnOk result (T.matches matching.new ≡ T.matches matching.old) }
    ensures stays { OnErr result (T.matches matching.new ≡ T.matches matching.old) }
    ensures questions { OnOk result (questions.new.items ≡ questions.old.items) }
    ensures verdict { let nodes = here.now.graph.now.nodes.items in IfOk result (λ b. InEach (T.matches matching.old) (λ m.
        let r = reading_of K.shape m nodes in
        TellsFrom nodes here.now.node here.now.place (numbers_in here.now.progress.now)
        (λ x. all_true (map (λ k. rule_in r (rule m (value_at here.now.place) (K.shape k)) x) keywords.now)) b)) }
{
    let first = &keywords[pair.first];
    let second = &keywords[pair.second];
    if !accepts_both(here, first, second, matching, questions)? {
        return Ok(false);
    }
    for (position, other) in keywords.iter().enumerate() {
        if position != pair.first && position != pair.second {
            if !accepts_keyword(here, other, matching, questions)? {
                return Ok(false);
            }
        }
    }
    Ok(true)
}

// Whether two keywords of a node that go together accept, with which nothing is wrong of the value itself.
#[cycle(verdict)]
fn accepts_both<'q, 'i: 'q, K: Validate, T: Matching>(
    here: &Here<'q, 'i, '_, K>,
    first: &'q K,
    second: &'q K,
    matching: &mut T,
    questions: &mut Vec<Question<'q, 'i>>,
) -> Result<bool, AllocError>
    requires known { AreReady K.knows K.shape (T.matches matching.old) here.now.graph.now.nodes.items }
    requires pairs { K.pairs first.now second.now }
    requires stands { In first.now (keywords_at here.now.graph.now.nodes.items here.now.node) }
    requires stands_beside { In second.now (keywords_at here.now.graph.now.nodes.items here.now.node) }
    requires led { LedHere (T.matches matching.old) here.now }
    requires right { InEach (T.matches matching.old)
        (λ m. is_right (rule m (value_at here.now.place) (K.shape first.now)) ≡ true) }
    requires right_beside { InEach (T.matches matching.old)
        (λ m. is_right (rule m (value_at here.now.place) (K.shape second.now)) ≡ true) }
    ensures matches { OnOk result (T.matches matching.new ≡ T.matches matching.old) }
    ensures stays { OnErr result (T.matches matching.new ≡ T.matches matching.old) }
    ensures questions { OnOk result (questions.new.items ≡ questions.old.items) }
    ensures verdict { let nodes = here.now.graph.now.nodes.items in IfOk result (λ b. InEach (T.matches matching.old) (λ m.
        let r = reading_of K.shape m nodes in
        TellsFrom nodes here.now.node here.now.place (numbers_in here.now.progress.now)
        (λ x. rule_in r (rule m (value_at here.now.place) (K.shape first.now)) x
        && rule_in r (rule m (value_at here.now.place) (K.shape second.now)) x) b)) }
{
    let start = questions.len();
    first.questions_with(second, here.place, matching, questions)?;
    let accepts = accepts_each(here, true, start, matching, questions)?;
    questions.truncate(start);
    Ok(accepts)
}

// Whether a keyword of a node, with which nothing is wrong of the value itself, accepts what is at a place.
#[cycle(verdict)]
fn accepts_keyword<'q, 'i: 'q, K: Validate, T: Matching>(
    here: &Here<'q, 'i, '_, K>,
    keyword: &'q K,
    matching: &mut T,
    questions: &mut Vec<Question<'q, 'i>>,
) -> Result<bool, AllocError>
    requires known { AreReady K.knows K.shape (T.matches matching.old) here.now.graph.now.nodes.items }
    requires stands { In keyword.now (keywords_at here.now.graph.now.nodes.items here.now.node) }
    requires led { LedHere (T.matches matching.old) here.now }
    requires right { InEach (T.matches matching.old)
        (λ m. is_right (rule m (value_at here.now.place) (K.shape keyword.now)) ≡ true) }
    ensures matches { OnOk result (T.matches matching.new ≡ T.matches matching.old) }
    ensures stays { OnErr result (T.matches matching.new ≡ T.matches matching.old) }
    ensures questions { OnOk result (questions.new.items ≡ questions.old.items) }
    ensures verdict { let nodes = here.now.graph.now.nodes.items in IfOk result (λ b. InEach (T.matches matching.old) (λ m.
        TellsFrom nodes here.now.node here.now.place (numbers_in here.now.progress.now)
        (rule_in (reading_of K.shape m nodes) (rule m (value_at here.now.place) (K.shape keyword.now))) b)) }
{
    match keyword.asking(here.place) {
        Asking::Nothing => Ok(true),
        Asking::Target(node) => accepts_target(here, node, matching, questions),
        Asking::Items { start, node, items } => accepts_items(
            here, start, node, items, matching, questions,
        ),
        Asking::Each(branches) => accepts_each_branch(here, branches, matching, questions),
        Asking::Counted {
            branches,
            least,
            most,
        } => accepts_counted_branches(here, branches, least, most, matching, questions),
        Asking::Listed => accepts_listed(here, keyword, matching, questions),
    }
}

// The same, by its questions.
#[cycle(verdict)]
fn accepts_listed<'q, 'i: 'q, K: Validate, T: Matching>(
    here: &Here<'q, 'i, '_, K>,
    keyword: &'q K,
    matching: &mut T,
    questions: &mut Vec<Question<'q, 'i>>,
) -> Result<bool, AllocError>
    requires known { AreReady K.knows K.shape (T.matches matching.old) here.now.graph.now.nodes.items }
    requires stands { In keyword.now (keywords_at here.now.graph.now.nodes.items here.now.node) }
    requires led { LedHere (T.matches matching.old) here.now }
    requires right { InEach (T.matches matching.old)
        (λ m. is_right (rule m (value_at here.now.place) (K.shape keyword.now)) ≡ true) }
    ensures matches { OnOk result (T.matches matching.new ≡ T.matches matching.old) }
    ensures stays { OnErr result (T.matches matching.new ≡ T.matches matching.old) }
    ensures questions { OnOk result (questions.new.items ≡ questions.old.items) }
    ensures verdict { let nodes = here.now.graph.now.nodes.items in IfOk result (λ b. InEach (T.matches matching.old) (λ m.
        TellsFrom nodes here.now.node here.now.place (numbers_in here.now.progress.now)
        (rule_in (reading_of K.shape m nodes) (rule m (value_at here.now.place) (K.shape keyword.now))) b)) }
{
    let start = questions.len();
    keyword.questions(here.place, matching, questions)?;
    let combination = keyword.combination(here.place);
    let accepts = accepts_combined(here, combination, start, matching, questions)?;
    questions.truncate(start);
    Ok(accepts)
}

// Whether a node accepts each of a list's items from `start` on.
#[cycle(verdict)]
fn accepts_items<'q, 'i: 'q, K: Validate, T: Matching>(
    here: &Here<'q, 'i, '_, K>,
    start: usize,
    node: usize,
    items: &'i [Value],
    matching: &mut T,
    questions: &mut Vec<Question<'q, 'i>>,
) -> Result<bool, AllocError>
    requires known { AreReady K.knows K.shape (T.matches matching.old) here.now.graph.now.nodes.items }
    requires asked { EachMayAskAt (T.matches matching.old) here.now
        (item_calls node start (items_view (drop start items.now))) }
    ensures matches { OnOk result (T.matches matching.new ≡ T.matches matching.old) }
    ensures stays { OnErr result (T.matches matching.new ≡ T.matches matching.old) }
    ensures questions { OnOk result (questions.new.items ≡ questions.old.items) }
    ensures verdict { let nodes = here.now.graph.now.nodes.items in IfOk result (λ b. InEach (T.matches matching.old) (λ m.
        let r = reading_of K.shape m nodes in
        TellsFrom nodes here.now.node here.now.place (numbers_in here.now.progress.now)
        (λ x. all_beside (asked_in r x) true
        (item_calls node start (items_view (drop start items.now)))) b)) }
{
    for index in start..items.len() {
        let question = Question {
            node,
            asked: Asked::Item {
                index,
                item: &items[index],
            },
            follows: false,
            beside: true,
            entry: 0,
        };
        if !accepts_question(here, question, matching, questions)? {
            return Ok(false);
        }
    }
    Ok(true)
}

// Whether each of some nodes accepts the place itself.
#[cycle(verdict)]
fn accepts_each_branch<'q, 'i: 'q, K: Validate, T: Matching>(
    here: &Here<'q, 'i, '_, K>,
    branches: &[usize],
    matching: &mut T,
    questions: &mut Vec<Question<'q, 'i>>,
) -> Result<bool, AllocError>
    requires known { AreReady K.knows K.shape (T.matches matching.old) here.now.graph.now.nodes.items }
    requires asked { EachMayAskAt (T.matches matching.old) here.now (map branch_call branches.now) }
    ensures matches { OnOk result (T.matches matching.new ≡ T.matches matching.old) }
    ensures stays { OnErr result (T.matches matching.new ≡ T.matches matching.old) }
    ensures questions { OnOk result (questions.new.items ≡ questions.old.items) }
    ensures verdict { let nodes = here.now.graph.now.nodes.items in IfOk result (λ b. InEach (T.matches matching.old) (λ m.
        let r = reading_of K.shape m nodes in
        TellsFrom nodes here.now.node here.now.place (numbers_in here.now.progress.now)
        (λ x. all_beside (asked_in r x) true (map branch_call branches.now)) b)) }
{
    for branch in branches {
        if !accepts_branch(here, *branch, matching, questions)? {
            return Ok(false);
        }
    }
    Ok(true)
}

// Whether the number of some nodes that accept the place itself is within bounds.
#[cycle(verdict)]
fn accepts_counted_branches<'q, 'i: 'q, K: Validate, T: Matching>(
    here: &Here<'q, 'i, '_, K>,
    branches: &[usize],
    least: usize,
    most: Option<usize>,
    matching: &mut T,
    questions: &mut Vec<Question<'q, 'i>>,
) -> Result<bool, AllocError>
    requires known { AreReady K.knows K.shape (T.matches matching.old) here.now.graph.now.nodes.items }
    requires asked { EachMayAskAt (T.matches matching.old) here.now (map branch_call branches.now) }
    ensures matches { OnOk result (T.matches matching.new ≡ T.matches matching.old) }
    ensures stays { OnErr result (T.matches matching.new ≡ T.matches matching.old) }
    ensures questions { OnOk result (questions.new.items ≡ questions.old.items) }
    ensures verdict { let nodes = here.now.graph.now.nodes.items in IfOk result (λ b. InEach (T.matches matching.old) (λ m.
        let r = reading_of K.shape m nodes in
        TellsFrom nodes here.now.node here.now.place (numbers_in here.now.progress.now)
        (λ x. is_counted least most (count_true
        (map (asked_in r x) (map branch_call branches.now)))) b)) }
{
    let mut count = 0;
    for branch in branches {
        if let Some(verdict) = settled(count, least, most) {
            return Ok(verdict);
        }
        if accepts_branch(here, *branch, matching, questions)? {
            count += 1;
        }
    }
    Ok(is_within(count, least, most))
}

// Whether a node accepts the place itself, where no reference is followed.
#[cycle(verdict)]
fn accepts_branch<'q, 'i: 'q, K: Validate, T: Matching>(
    here: &Here<'q, 'i, '_, K>,
    branch: usize,
    matching: &mut T,
    questions: &mut Vec<Question<'q, 'i>>,
) -> Result<bool, AllocError>
    requires known { AreReady K.knows K.shape (T.matches matching.old) here.now.graph.now.nodes.items }
    requires asked { MayAskAt (T.matches matching.old) here.now (branch_call branch) }
    ensures matches { OnOk result (T.matches matching.new ≡ T.matches matching.old) }
    ensures stays { OnErr result (T.matches matching.new ≡ T.matches matching.old) }
    ensures questions { OnOk result (questions.new.items ≡ questions.old.items) }
    ensures verdict { let nodes = here.now.graph.now.nodes.items in IfOk result (λ b. InEach (T.matches matching.old) (λ m.
        let r = reading_of K.shape m nodes in
        TellsFrom nodes here.now.node here.now.place (numbers_in here.now.progress.now)
        (λ x. asked_in r x (branch_call branch)) b)) }
{
    accepts_node(
        here.graph,
        branch,
        here.place,
        here.progress,
        matching,
        questions,
    )
}

/// The verdict by the answers to the questions from `start` on, each of which is asked once at most.
///
/// # Errors
///
/// Where memory was refused or a count of owners is full.
#[cycle(verdict)]
pub fn accepts_combined<'q, 'i: 'q, K: Validate, T: Matching>(
    here: &Here<'q, 'i, '_, K>,
    combination: Combination,
    start: usize,
    matching: &mut T,
    questions: &mut Vec<Question<'q, 'i>>,
) -> Result<bool, AllocError>
    requires known { AreReady K.knows K.shape (T.matches matching.old) here.now.graph.now.nodes.items }
    requires asked { EachMayAskAt (T.matches matching.old) here.now
        (map call_of (drop start questions.old.items)) }
    ensures matches { OnOk result (T.matches matching.new ≡ T.matches matching.old) }
    ensures stays { OnErr result (T.matches matching.new ≡ T.matches matching.old) }
    ensures questions { OnOk result (questions.new.items ≡ questions.old.items) }
    ensures verdict { let nodes = here.now.graph.now.nodes.items in IfOk result (λ b. InEach (T.matches matching.old) (λ m.
        let r = reading_of K.shape m nodes in
        TellsFrom nodes here.now.node here.now.place (numbers_in here.now.progress.now)
        (λ x. combined combination (asked_in r x) (map call_of (drop start questions.old.items))) b)) }
{
    match combination {
        Combination::Every => accepts_each(here, true, start, matching, questions),
        Combination::Together => accepts_each(here, true, start, matching, questions),
        Combination::EachNamed => accepts_each(here, true, start, matching, questions),
        Combination::SomeBranch => accepts_counted(here, 1, None, start, matching, questions),
        Combination::OneBranch => accepts_counted(here, 1, Some(1), start, matching, questions),
        Combination::Refusal => accepts_counted(here, 0, Some(0), start, matching, questions),
        Combination::Counted { least, most } => accepts_counted(
            here, least, most, start, matching, questions,
        ),
        Combination::Conditional => accepts_conditional(here, start, matching, questions),
    }
}

// Whether each of the questions from `start` on is answered yes that stands beside this answer to a condition.
#[cycle(verdict)]
fn accepts_each<'q, 'i: 'q, K: Validate, T: Matching>(
    here: &Here<'q, 'i, '_, K>,
    beside: bool,
    start: usize,
    matching: &mut T,
    questions: &mut Vec<Question<'q, 'i>>,
) -> Result<bool, AllocError>
    requires known { AreReady K.knows K.shape (T.matches matching.old) here.now.graph.now.nodes.items }
    requires asked { EachMayAskAt (T.matches matching.old) here.now
        (map call_of (drop start questions.old.items)) }
    ensures matches { OnOk result (T.matches matching.new ≡ T.matches matching.old) }
    ensures stays { OnErr result (T.matches matching.new ≡ T.matches matching.old) }
    ensures questions { OnOk result (questions.new.items ≡ questions.old.items) }
    ensures verdict { let nodes = here.now.graph.now.nodes.items in IfOk result (λ b. InEach (T.matches matching.old) (λ m.
        let r = reading_of K.shape m nodes in
        TellsFrom nodes here.now.node here.now.place (numbers_in here.now.progress.now)
        (λ x. all_beside (asked_in r x) beside (map call_of (drop start questions.old.items))) b)) }
{
    let end = questions.len();
    for index in start..end {
        let question = questions[index];
        if question.beside == beside {
            if !accepts_question(here, question, matching, questions)? {
                return Ok(false);
            }
        }
    }
    Ok(true)
}

// Whether the number of the questions from `start` on that are answered yes is within bounds.
#[cycle(verdict)]
fn accepts_counted<'q, 'i: 'q, K: Validate, T: Matching>(
    here: &Here<'q, 'i, '_, K>,
    least: usize,
    most: Option<usize>,
    start: usize,
    matching: &mut T,
    questions: &mut Vec<Question<'q, 'i>>,
) -> Result<bool, AllocError>
    requires known { AreReady K.knows K.shape (T.matches matching.old) here.now.graph.now.nodes.items }
    requires asked { EachMayAskAt (T.matches matching.old) here.now
        (map call_of (drop start questions.old.items)) }
    ensures matches { OnOk result (T.matches matching.new ≡ T.matches matching.old) }
    ensures stays { OnErr result (T.matches matching.new ≡ T.matches matching.old) }
    ensures questions { OnOk result (questions.new.items ≡ questions.old.items) }
    ensures verdict { let nodes = here.now.graph.now.nodes.items in IfOk result (λ b. InEach (T.matches matching.old) (λ m.
        let r = reading_of K.shape m nodes in
        TellsFrom nodes here.now.node here.now.place (numbers_in here.now.progress.now)
        (λ x. is_counted least most (count_true
        (map (asked_in r x) (map call_of (drop start questions.old.items))))) b)) }
{
    let mut count = 0;
    let end = questions.len();
    for index in start..end {
        if let Some(verdict) = settled(count, least, most) {
            return Ok(verdict);
        }
        let question = questions[index];
        if accepts_question(here, question, matching, questions)? {
            count += 1;
        }
    }
    Ok(is_within(count, least, most))
}

// The verdict where the first of the questions from `start` on is a condition.
#[cycle(verdict)]
fn accepts_conditional<'q, 'i: 'q, K: Validate, T: Matching>(
    here: &Here<'q, 'i, '_, K>,
    start: usize,
    matching: &mut T,
    questions: &mut Vec<Question<'q, 'i>>,
) -> Result<bool, AllocError>
    requires known { AreReady K.knows K.shape (T.matches matching.old) here.now.graph.now.nodes.items }
    requires asked { EachMayAskAt (T.matches matching.old) here.now
        (map call_of (drop start questions.old.items)) }
    ensures matches { OnOk result (T.matches matching.new ≡ T.matches matching.old) }
    ensures stays { OnErr result (T.matches matching.new ≡ T.matches matching.old) }
    ensures questions { OnOk result (questions.new.items ≡ questions.old.items) }
    ensures verdict { let nodes = here.now.graph.now.nodes.items in IfOk result (λ b. InEach (T.matches matching.old) (λ m.
        let r = reading_of K.shape m nodes in
        TellsFrom nodes here.now.node here.now.place (numbers_in here.now.progress.now)
        (λ x. chosen_by_first (asked_in r x) (map call_of (drop start questions.old.items))) b)) }
{
    if start >= questions.len() {
        return Ok(true);
    }
    let condition = questions[start];
    let answer = accepts_question(here, condition, matching, questions)?;
    accepts_each(here, answer, start + 1, matching, questions)
}

/// The answer to a question: whether its node accepts the value at its place.
///
/// # Errors
///
/// Where memory was refused or a count of owners is full.
#[cycle(verdict)]
pub fn accepts_question<'q, 'i: 'q, K: Validate, T: Matching>(
    here: &Here<'q, 'i, '_, K>,
    question: Question<'q, 'i>,
    matching: &mut T,
    questions: &mut Vec<Question<'q, 'i>>,
) -> Result<bool, AllocError>
    requires known { AreReady K.knows K.shape (T.matches matching.old) here.now.graph.now.nodes.items }
    requires asked { MayAskAt (T.matches matching.old) here.now (call_of question) }
    ensures matches { OnOk result (T.matches matching.new ≡ T.matches matching.old) }
    ensures stays { OnErr result (T.matches matching.new ≡ T.matches matching.old) }
    ensures questions { OnOk result (questions.new.items ≡ questions.old.items) }
    ensures verdict { let nodes = here.now.graph.now.nodes.items in IfOk result (λ b. InEach (T.matches matching.old) (λ m.
        let r = reading_of K.shape m nodes in
        TellsFrom nodes here.now.node here.now.place (numbers_in here.now.progress.now)
        (λ x. asked_in r x (call_of question.entry)) b)) }
{
    let below = Progress::Nothing;
    match question.asked {
        Asked::Here => {
            if question.follows {
                accepts_target(here, question.node, matching, questions)
            } else {
                accepts_node(
                    here.graph,
                    question.node,
                    here.place,
                    here.progress,
                    matching,
                    questions,
                )
            }
        }
        Asked::Item { item, .. } => accepts_node(
            here.graph,
            question.node,
            Place::Value(item),
            &below,
            matching,
            questions,
        ),
        Asked::Member { member, .. } => accepts_node(
            here.graph,
            question.node,
            Place::Value(member),
            &below,
            matching,
            questions,
        ),
        Asked::Name(name) => accepts_node(
            here.graph,
            question.node,
            Place::Name(name),
            &below,
            matching,
            questions,
        ),
    }
}

// Whether the target of a reference accepts. Where it is in progress at this place, it does.
#[cycle(verdict)]
fn accepts_target<'q, 'i: 'q, K: Validate, T: Matching>(
    here: &Here<'q, 'i, '_, K>,
    target: usize,
    matching: &mut T,
    questions: &mut Vec<Question<'q, 'i>>,
) -> Result<bool, AllocError>
    requires known { AreReady K.knows K.shape (T.matches matching.old) here.now.graph.now.nodes.items }
    requires there { target < length here.now.graph.now.nodes.items }
    requires led { LedTo (T.matches matching.old) target (value_at here.now.place) }
    ensures matches { OnOk result (T.matches matching.new ≡ T.matches matching.old) }
    ensures stays { OnErr result (T.matches matching.new ≡ T.matches matching.old) }
    ensures questions { OnOk result (questions.new.items ≡ questions.old.items) }
    ensures verdict { let nodes = here.now.graph.now.nodes.items in IfOk result (λ b. InEach (T.matches matching.old) (λ m.
        let r = reading_of K.shape m nodes in
        TellsFrom nodes here.now.node here.now.place (numbers_in here.now.progress.now)
        (λ x. asked_in r x (record { node = target; step = stay; follows = true; beside = true })) b)) }
{
    if is_in_progress(here.progress, target) {
        return Ok(true);
    }
    let entered = here.progress.enter(target);
    accepts_node(
        here.graph, target, here.place, &entered, matching, questions,
    )
}
