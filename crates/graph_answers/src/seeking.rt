//! Where a match is asked at which an asking stops.
ghost use Rattle.std.specs.Prelude.{◌≡◌, ◌<◌, ◌∷◌, map, drop, length, IfOk, IfNone};
ghost use Rattle.serde_json.specs.View.{view};
ghost use Rattle.json_values.specs.Parts.{name};
ghost use Rattle.location_texts.specs.Locations.{location_of};
ghost use Rattle.schema_meaning.specs.Members.{In};
ghost use Rattle.schema_meaning.specs.Places.{stay};
ghost use Rattle.schema_engine.specs.Graphs.{keywords_at, AreKnown};
ghost use Rattle.schema_engine.specs.Led.{LedTo, AreReady, BeginAt};
ghost use Rattle.schema_engine.specs.Places.{value_at, step_of};
ghost use Rattle.schema_engine.specs.Questions.{call_of};
ghost use Rattle.graph_answers.specs.Seeking.{nodes_of, LedHere, MayAskAt, EachMayAskAt};

use schema_engine::entry::Entry;
use schema_engine::graph::Graph;
use schema_engine::matching::Matching;
use schema_engine::place::{Asked, Place, Question};
use schema_engine::progress::{Progress, is_in_progress};
use schema_engine::situation::Situation;
use schema_engine::validate::Validate;
use schema_reports::{LazyLocation, SchemaLocation};
use schema_steps::Path;
use serde_json::Value;
use std::alloc::{AllocError, Global};

/// Where a match is asked: at a value, by a keyword.
#[derive(Drop)]
pub struct Stand<'i> {
    /// The value. For a member's name it is the object.
    pub value: &'i Value,
    /// The value's path from the instance's root.
    pub instance: Path,
    /// The path of the keyword from where its schema began, which the last reference says.
    pub schema: Path,
    /// The path by which evaluation came to the keyword.
    pub evaluation: Path,
    /// Where the keyword's schema stands.
    pub location: SchemaLocation,
}

// A node at a place with the references in progress there, and the roads that led there: for a member's name, those of its object.
#[derive(Drop)]
struct There<'q, 'i, 'p, K: Validate> {
    graph: &'q Graph<K>,
    node: usize,
    place: Place<'i>,
    progress: &'p Progress<'p>,
    situation: Situation<'p, 'i>,
}

/// Where a match is asked at which `matching` stops, none where it stops at none.
///
/// Each match is asked for to which the questions of the node lead at the value, in the order of the keywords and of their questions,
/// whatever the rules decide of the answers: it takes a call for each way that questions lead. Where `matching` fails for want of memory
/// the place is told as well: `matching` says which of the two it was.
///
/// # Errors
///
/// Where memory for the paths was refused or a count of owners is full.
pub fn seek<'q, 'i: 'q, K: Validate, T: Matching>(
    alloc: Global,
    graph: &'q Graph<K>,
    start: usize,
    value: &'i Value,
    matching: &mut T,
    questions: &mut Vec<Question<'q, 'i>>,
) -> Result<Option<Stand<'i>>, AllocError>
    requires known { AreKnown K.knows (T.matches matching.old).pattern graph.now.nodes.items }
    requires there { start < length graph.now.nodes.items }
    requires begin { BeginAt K.shape (T.matches matching.old) graph.now.nodes.items start
        (view value.now) }
    ensures matches { T.matches matching.new ≡ T.matches matching.old }
    ensures questions { IfOk result (λ found.
        IfNone found (questions.new.items ≡ questions.old.items)) }
{
    let root = LazyLocation::new();
    let situation = Situation {
        alloc,
        value,
        instance: &root,
        evaluation: &root,
        schema: &graph.nodes[start].schema_path,
        location: &graph.nodes[start].location,
    };
    seek_value(graph, start, situation, matching, questions)
}

// From a node at a value on, where no reference is in progress.
#[cycle(seeking)]
fn seek_value<'q, 'i: 'q, K: Validate, T: Matching>(
    graph: &'q Graph<K>,
    node: usize,
    situation: Situation<'_, 'i>,
    matching: &mut T,
    questions: &mut Vec<Question<'q, 'i>>,
) -> Result<Option<Stand<'i>>, AllocError>
    requires known { AreReady K.knows K.shape (T.matches matching.old) graph.now.nodes.items }
    requires there { node < length graph.now.nodes.items }
    requires led { LedTo (T.matches matching.old) node (view situation.value.now) }
    ensures matches { T.matches matching.new ≡ T.matches matching.old }
    ensures questions { IfOk result (λ found.
        IfNone found (questions.new.items ≡ questions.old.items)) }
{
    let place = Place::Value(situation.value);
    let begun = Progress::Nothing;
    seek_node(graph, node, place, &begun, situation, matching, questions)
}

// From a node on.
#[cycle(seeking)]
fn seek_node<'q, 'i: 'q, K: Validate, T: Matching>(
    graph: &'q Graph<K>,
    node: usize,
    place: Place<'i>,
    progress: &Progress<'_>,
    situation: Situation<'_, 'i>,
    matching: &mut T,
    questions: &mut Vec<Question<'q, 'i>>,
) -> Result<Option<Stand<'i>>, AllocError>
    requires known { AreReady K.knows K.shape (T.matches matching.old) graph.now.nodes.items }
    requires there { node < length graph.now.nodes.items }
    requires led { LedTo (T.matches matching.old) node (value_at place) }
    ensures matches { T.matches matching.new ≡ T.matches matching.old }
    ensures questions { IfOk result (λ found.
        IfNone found (questions.new.items ≡ questions.old.items)) }
{
    let there = There {
        graph,
        node,
        place,
        progress: &*progress,
        situation,
    };
    for keyword in &graph.nodes[node].keywords {
        if let Some(stand) = seek_keyword(&there, keyword, matching, questions)? {
            return Ok(Some(stand));
        }
    }
    Ok(None)
}

// From a keyword of the node on.
#[cycle(seeking)]
fn seek_keyword<'q, 'i: 'q, K: Validate, T: Matching>(
    there: &There<'q, 'i, '_, K>,
    keyword: &'q K,
    matching: &mut T,
    questions: &mut Vec<Question<'q, 'i>>,
) -> Result<Option<Stand<'i>>, AllocError>
    requires known { AreReady K.knows K.shape (T.matches matching.old) (nodes_of there.now) }
    requires stands { In keyword.now (keywords_at (nodes_of there.now) there.now.node) }
    requires led { LedHere (T.matches matching.old) there.now }
    ensures matches { T.matches matching.new ≡ T.matches matching.old }
    ensures questions { IfOk result (λ found.
        IfNone found (questions.new.items ≡ questions.old.items)) }
{
    let Ok(_accepts) = keyword.accepts_itself(there.place, matching) else {
        return Ok(Some(stand_of(&there.situation, keyword.refused_name(0))?));
    };
    let start = questions.len();
    let Ok(()) = keyword.questions(there.place, matching, questions) else {
        return Ok(Some(stand_of(&there.situation, keyword.refused_name(0))?));
    };
    if let Some(stand) = seek_each(there, keyword, start, matching, questions)? {
        return Ok(Some(stand));
    }
    questions.truncate(start);
    Ok(None)
}

// From the questions of a keyword on, those from `start` on.
#[cycle(seeking)]
fn seek_each<'q, 'i: 'q, K: Validate, T: Matching>(
    there: &There<'q, 'i, '_, K>,
    keyword: &'q K,
    start: usize,
    matching: &mut T,
    questions: &mut Vec<Question<'q, 'i>>,
) -> Result<Option<Stand<'i>>, AllocError>
    requires known { AreReady K.knows K.shape (T.matches matching.old) (nodes_of there.now) }
    requires asked { EachMayAskAt (T.matches matching.old) there.now
        (map call_of (drop start questions.old.items)) }
    ensures matches { T.matches matching.new ≡ T.matches matching.old }
    ensures questions { IfOk result (λ found.
        IfNone found (questions.new.items ≡ questions.old.items)) }
{
    let end = questions.len();
    for index in start..end {
        let question = questions[index];
        if let Some(stand) = seek_question(there, keyword, question, matching, questions)? {
            return Ok(Some(stand));
        }
    }
    Ok(None)
}

// From a question of a keyword on.
#[cycle(seeking)]
fn seek_question<'q, 'i: 'q, K: Validate, T: Matching>(
    there: &There<'q, 'i, '_, K>,
    keyword: &'q K,
    question: Question<'q, 'i>,
    matching: &mut T,
    questions: &mut Vec<Question<'q, 'i>>,
) -> Result<Option<Stand<'i>>, AllocError>
    requires known { AreReady K.knows K.shape (T.matches matching.old) (nodes_of there.now) }
    requires asked { MayAskAt (T.matches matching.old) there.now (call_of question) }
    ensures matches { T.matches matching.new ≡ T.matches matching.old }
    ensures questions { IfOk result (λ found.
        IfNone found (questions.new.items ≡ questions.old.items)) }
{
    let road = there.situation.evaluation;
    match keyword.entry(question.entry) {
        Entry::Whole { keyword } => {
            let evaluation = road.push_name(keyword);
            seek_step(there, &evaluation, question, matching, questions)
        }
        Entry::Name { keyword, name } => {
            let whole = road.push_name(keyword);
            let evaluation = whole.push_name(name);
            seek_step(there, &evaluation, question, matching, questions)
        }
        Entry::Index { keyword, index } => {
            let whole = road.push_name(keyword);
            let evaluation = whole.push_index(index);
            seek_step(there, &evaluation, question, matching, questions)
        }
    }
}

// From a question on whose entry is reached by this road.
#[cycle(seeking)]
fn seek_step<'q, 'i: 'q, 'e, K: Validate, T: Matching>(
    there: &There<'q, 'i, '_, K>,
    evaluation: &'e LazyLocation<'e, 'e>,
    question: Question<'q, 'i>,
    matching: &mut T,
    questions: &mut Vec<Question<'q, 'i>>,
) -> Result<Option<Stand<'i>>, AllocError>
    requires known { AreReady K.knows K.shape (T.matches matching.old) (nodes_of there.now) }
    requires asked { MayAskAt (T.matches matching.old) there.now (call_of question) }
    ensures matches { T.matches matching.new ≡ T.matches matching.old }
    ensures questions { IfOk result (λ found.
        IfNone found (questions.new.items ≡ questions.old.items)) }
{
    let node = question.node;
    let graph = there.graph;
    let below = Situation {
        evaluation: &*evaluation,
        schema: &graph.nodes[node].schema_path,
        location: &graph.nodes[node].location,
        ..there.situation
    };
    match question.asked {
        Asked::Here => seek_here(there, below, question, matching, questions),
        Asked::Item { index, item } => {
            let instance = there.situation.instance.push_index(index);
            let below = Situation {
                value: item,
                instance: &instance,
                ..below
            };
            seek_value(graph, node, below, matching, questions)
        }
        Asked::Member { name, member } => {
            let instance = there.situation.instance.push_name(name);
            let below = Situation {
                value: member,
                instance: &instance,
                ..below
            };
            seek_value(graph, node, below, matching, questions)
        }
        Asked::Name(name) => {
            let place = Place::Name(name);
            let begun = Progress::Nothing;
            seek_node(graph, node, place, &begun, below, matching, questions)
        }
    }
}

// From a question of the place itself on, unless it follows a reference that is in progress there.
#[cycle(seeking)]
fn seek_here<'q, 'i: 'q, K: Validate, T: Matching>(
    there: &There<'q, 'i, '_, K>,
    below: Situation<'_, 'i>,
    question: Question<'q, 'i>,
    matching: &mut T,
    questions: &mut Vec<Question<'q, 'i>>,
) -> Result<Option<Stand<'i>>, AllocError>
    requires known { AreReady K.knows K.shape (T.matches matching.old) (nodes_of there.now) }
    requires asked { MayAskAt (T.matches matching.old) there.now (call_of question) }
    requires here { step_of question.asked ≡ stay }
    ensures matches { T.matches matching.new ≡ T.matches matching.old }
    ensures questions { IfOk result (λ found.
        IfNone found (questions.new.items ≡ questions.old.items)) }
{
    let graph = there.graph;
    let node = question.node;
    let place = there.place;
    let progress = there.progress;
    if !question.follows {
        return seek_node(graph, node, place, progress, below, matching, questions);
    }
    if is_in_progress(progress, node) {
        return Ok(None);
    }
    let entered = progress.enter(node);
    seek_node(graph, node, place, &entered, below, matching, questions)
}

// Where a keyword of this name stands.
fn stand_of<'i>(situation: &Situation<'_, 'i>, keyword: &str) -> Result<Stand<'i>, AllocError>
    ensures value { IfOk result (λ stand. view stand.value.now ≡ view situation.now.value.now) }
    ensures instance { IfOk result (λ stand.
        stand.instance ≡ location_of situation.now.instance.now) }
    ensures schema { IfOk result (λ stand.
        stand.schema ≡ name keyword.now ∷ situation.now.schema.now) }
    ensures evaluation { IfOk result (λ stand.
        stand.evaluation ≡ name keyword.now ∷ location_of situation.now.evaluation.now) }
{
    let evaluation = situation.evaluation.push_name(keyword);
    Ok(Stand {
        value: situation.value,
        instance: situation.instance.to_path(situation.alloc)?,
        schema: situation.schema.push_name(situation.alloc, keyword)?,
        evaluation: evaluation.to_path(situation.alloc)?,
        location: situation.location.clone()?,
    })
}
