//! The questions of compiled keywords about a value and its items.
ghost use Rattle.std.specs.Prelude.{◌≡◌, ◌++◌, ℕ, List, [], ◌∷◌, Bool, OnOk, map, true, false, codes};
ghost use Rattle.serde_json.specs.View.{items_view};
ghost use Rattle.schema_meaning.specs.Questions.{here, each_branch, items_of, items_from, each_item, item_by_item};
ghost use Rattle.schema_meaning.specs.Keywords.{consequent, rule};
ghost use Rattle.schema_engine.specs.Asking.{AsksSo};
ghost use Rattle.schema_engine.specs.Places.{value_at};
ghost use Rattle.applicators.specs.Forms.{shape_by};
ghost use Rattle.compiled_keywords.specs.Applied.{name_of, combining_of, asks_of};
ghost use Rattle.compiled_keywords.specs.Forms.{alone, form_of, whole_at, index_at, condition_at};
ghost use Rattle.compiled_keywords.specs.Seen.{Puts};

use crate::applicator::Applicator;
use crate::asks::Asks;
use applicators::combining::Combining;
use schema_engine::asking::Asking;
use schema_engine::place::{Asked, Place, Question};
use serde_json::Value;
use std::alloc::AllocError;
use std::slice;

// The items of a list, and none of another value.
fn items_at<'i>(place: Place<'i>) -> &'i [Value]
    ensures { items_view result.now ≡ items_of (value_at place.entry) }
{
    match place {
        Place::Value(value) => match value {
            Value::Array(items) => items,
            _ => &[],
        },
        Place::Name(_) => &[],
    }
}

/// What an applicator asks: each item by one node, or the place by branches, or else what its questions say.
pub(crate) fn asking_of<'q, 'i>(applicator: &'q Applicator, place: Place<'i>) -> Asking<'q, 'i>
    ensures { (matches : List ℕ → List ℕ → Bool)
        → AsksSo result (rule matches (value_at place.entry)
        (shape_by (name_of applicator.now) (combining_of applicator.now)
        (form_of (asks_of applicator.now)))) }
{
    match &applicator.asks {
        Asks::ItemsFrom { start, node } => match applicator.combining {
            Combining::Every => Asking::Items {
                start: *start,
                node: *node,
                items: items_at(place),
            },
            _ => Asking::Listed,
        },
        Asks::Branches(branches) => match applicator.combining {
            Combining::Every => Asking::Each(branches),
            Combining::SomeBranch => Asking::Counted {
                branches,
                least: 1,
                most: None,
            },
            Combining::OneBranch => Asking::Counted {
                branches,
                least: 1,
                most: Some(1),
            },
            _ => Asking::Listed,
        },
        Asks::Value(shown) => match applicator.combining {
            Combining::Refusal => Asking::Counted {
                branches: slice::from_ref(&shown.node),
                least: 0,
                most: Some(0),
            },
            _ => Asking::Listed,
        },
        _ => Asking::Listed,
    }
}

fn push_items_from<'q, 'i: 'q>(
    start: usize,
    node: usize,
    items: &'i [Value],
    into: &mut Vec<Question<'q, 'i>>,
) -> Result<(), AllocError>
    ensures { OnOk result ((k : List ℕ) → Puts (whole_at k) into.old.items into.new.items
        (map alone (each_item k node start (items_from start (items_view items.now))))) }
{
    for index in start..items.len() {
        into.push(Question {
            node,
            asked: Asked::Item {
                index,
                item: &items[index],
            },
            follows: false,
            beside: true,
            entry: 0,
        })?;
    }
    Ok(())
}

// Each item from the start-th on by one node.
pub(crate) fn push_items<'q, 'i: 'q>(
    start: usize,
    node: usize,
    place: Place<'i>,
    into: &mut Vec<Question<'q, 'i>>,
) -> Result<(), AllocError>
    ensures { OnOk result ((k : List ℕ) → Puts (whole_at k) into.old.items into.new.items
        (map alone (each_item k node start (items_from start (items_of (value_at place.entry)))))) }
{
    push_items_from(start, node, items_at(place), into)
}

fn push_indexed<'q, 'i: 'q>(
    nodes: &[usize],
    items: &'i [Value],
    into: &mut Vec<Question<'q, 'i>>,
) -> Result<(), AllocError>
    ensures { OnOk result ((k : List ℕ) → Puts (index_at k) into.old.items into.new.items
        (map alone (item_by_item k nodes.now 0 (items_view items.now)))) }
{
    for (index, node) in nodes.iter().enumerate() {
        if index >= items.len() {
            return Ok(());
        }
        into.push(Question {
            node: *node,
            asked: Asked::Item {
                index,
                item: &items[index],
            },
            follows: false,
            beside: true,
            entry: index,
        })?;
    }
    Ok(())
}

// Each item by the node of its own index.
pub(crate) fn push_item_list<'q, 'i: 'q>(
    nodes: &[usize],
    place: Place<'i>,
    into: &mut Vec<Question<'q, 'i>>,
) -> Result<(), AllocError>
    ensures { OnOk result ((k : List ℕ) → Puts (index_at k) into.old.items into.new.items
        (map alone (item_by_item k nodes.now 0 (items_of (value_at place.entry))))) }
{
    push_indexed(nodes, items_at(place), into)
}

// The place by each of some nodes.
pub(crate) fn push_branches<'q, 'i: 'q>(
    nodes: &[usize],
    into: &mut Vec<Question<'q, 'i>>,
) -> Result<(), AllocError>
    ensures { OnOk result ((k : List ℕ) → Puts (index_at k) into.old.items into.new.items
        (map alone (each_branch k 0 nodes.now))) }
{
    for (index, node) in nodes.iter().enumerate() {
        into.push(Question {
            node: *node,
            asked: Asked::Here,
            follows: false,
            beside: true,
            entry: index,
        })?;
    }
    Ok(())
}

// The place by one node.
pub(crate) fn push_here<'q, 'i: 'q>(
    node: usize,
    into: &mut Vec<Question<'q, 'i>>,
) -> Result<(), AllocError>
    ensures whole { OnOk result ((k : List ℕ)
        → Puts (whole_at k) into.old.items into.new.items (map alone (here k node ∷ []))) }
    ensures condition { OnOk result ((k : List ℕ)
        → Puts (condition_at k) into.old.items into.new.items (alone (here k node) ∷ [])) }
{
    into.push(Question {
        node,
        asked: Asked::Here,
        follows: false,
        beside: true,
        entry: 0,
    })?;
    Ok(())
}

// The place by a node, if there is one, beside the answer yes.
fn push_then<'q, 'i: 'q>(
    node: Option<usize>,
    into: &mut Vec<Question<'q, 'i>>,
) -> Result<(), AllocError>
    ensures { OnOk result ((k : List ℕ) → Puts (condition_at k) into.old.items into.new.items
        (consequent true (codes "then") node)) }
{
    if let Some(node) = node {
        into.push(Question {
            node,
            asked: Asked::Here,
            follows: false,
            beside: true,
            entry: 1,
        })?;
    }
    Ok(())
}

// The same beside the answer no.
fn push_else<'q, 'i: 'q>(
    node: Option<usize>,
    into: &mut Vec<Question<'q, 'i>>,
) -> Result<(), AllocError>
    ensures { OnOk result ((k : List ℕ) → Puts (condition_at k) into.old.items into.new.items
        (consequent false (codes "else") node)) }
{
    if let Some(node) = node {
        into.push(Question {
            node,
            asked: Asked::Here,
            follows: false,
            beside: false,
            entry: 2,
        })?;
    }
    Ok(())
}

// The place by a condition, and by what stands beside its answers.
pub(crate) fn push_condition<'q, 'i: 'q>(
    condition: usize,
    then_node: Option<usize>,
    else_node: Option<usize>,
    into: &mut Vec<Question<'q, 'i>>,
) -> Result<(), AllocError>
    ensures { OnOk result ((k : List ℕ) → Puts (condition_at k) into.old.items into.new.items
        (alone (here k condition) ∷ (consequent true (codes "then") then_node
        ++ consequent false (codes "else") else_node))) }
{
    push_here(condition, into)?;
    push_then(then_node, into)?;
    push_else(else_node, into)
}
