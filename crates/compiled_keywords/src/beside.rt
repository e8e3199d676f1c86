//! The questions of members that are not declared, beside those of the members that patterns match.
//!
//! A name that a pattern matches is asked of already, so no match is asked for again.
ghost use Rattle.std.specs.Prelude.{◌≡◌, ◌||◌, ℕ, List, OnOk, IfOk, map, drop, string_bytes};
ghost use Rattle.schema_meaning.specs.Members.{is_listed};
ghost use Rattle.schema_meaning.specs.Questions.{each_member, other_members};
ghost use Rattle.schema_engine.specs.Matches.{Answers};
ghost use Rattle.schema_engine.specs.Places.{value_at};
ghost use Rattle.compiled_keywords.specs.Forms.{alone, whole_at};
ghost use Rattle.compiled_keywords.specs.Members.{listed};
ghost use Rattle.compiled_keywords.specs.Named.{names_asked, others_beside, is_kept, AreKept, AskWhereMatched};
ghost use Rattle.compiled_keywords.specs.Owned.{declared_by};
ghost use Rattle.compiled_keywords.specs.Seen.{Puts};

use crate::asks::Declared;
use crate::members::object_at;
use crate::names::SortedNames;
use schema_engine::place::{Asked, Place, Question};
use serde_json::{Map, Value};
use std::alloc::{AllocError, Global};
use std::collections::BTreeSet;

// The names of the members of which the questions from `start` on ask.
fn names_from<'q>(
    alloc: Global,
    questions: &[Question<'q, '_>],
    start: usize,
) -> Result<BTreeSet<&'q str>, AllocError>
    ensures { IfOk result (λ set. AreKept set (names_asked (drop start questions.now))) }
{
    let mut names = BTreeSet::new(alloc);
    for index in start..questions.len() {
        let question = questions[index];
        if let Asked::Member { name, .. } = question.asked {
            names.insert(name)?;
        }
    }
    Ok(names)
}

// Whether a name is declared, or asked of.
fn is_there(names: &SortedNames, asked: &BTreeSet<&str>, name: &str) -> bool
    ensures { result ≡ (is_listed name.now (map string_bytes names.now.list.items)
        || is_kept name.now asked.now) }
{
    names.contains(name) || asked.contains(name)
}

// Each member whose name is in neither, by one node.
fn push_others_of<'q, 'i: 'q>(
    names: &SortedNames,
    asked: &BTreeSet<&str>,
    node: usize,
    members: &'i Map<String, Value>,
    into: &mut Vec<Question<'q, 'i>>,
) -> Result<(), AllocError>
    ensures { OnOk result ((k : List ℕ) (ns : List (List ℕ)) → AreKept asked.now ns
        → Puts (whole_at k) into.old.items into.new.items (map alone (each_member k node
        (others_beside (map string_bytes names.now.list.items) ns (listed members.now))))) }
{
    for (name, member) in members.iter() {
        let name = name.as_str();
        if !is_there(names, asked, name) {
            into.push(Question {
                node,
                asked: Asked::Member { name, member },
                follows: false,
                beside: true,
                entry: 0,
            })?;
        }
    }
    Ok(())
}

/// Pushes each member that is not declared, by one node. The questions from `start` on ask of those that a declared pattern matches.
///
/// It keeps the names of which they ask while it searches them.
///
/// # Errors
///
/// Where memory was refused. Some questions may have been pushed then.
pub(crate) fn push_beside<'q, 'i: 'q>(
    declared: &Declared,
    node: usize,
    place: Place<'i>,
    start: usize,
    into: &mut Vec<Question<'q, 'i>>,
) -> Result<(), AllocError>
    ensures { OnOk result ((m : Answers) (k : List ℕ)
        → AskWhereMatched m (declared_by declared.now) (value_at place.entry)
        (drop start into.old.items)
        → Puts (whole_at k) into.old.items into.new.items (map alone (each_member k node
        (other_members m (declared_by declared.now) (value_at place.entry))))) }
{
    match object_at(place) {
        Some(members) => {
            let asked = names_from(*into.allocator(), into, start)?;
            push_others_of(&declared.names, &asked, node, members, into)
        }
        None => Ok(()),
    }
}
