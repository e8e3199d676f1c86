//! The questions of compiled keywords about members.
ghost use Rattle.std.specs.Prelude.{◌≡◌, ℕ, List, [], ◌∷◌, OnOk, OnErr, map, option_map};
ghost use Rattle.std.specs.List.{flat_map};
ghost use Rattle.json_values.specs.Parts.{Part};
ghost use Rattle.serde_json.specs.Find.{get};
ghost use Rattle.serde_json.specs.View.{view};
ghost use Rattle.schema_meaning.specs.Keywords.{each_dependency};
ghost use Rattle.schema_meaning.specs.Questions.{at, at_name, members_of, names_of, other_members};
ghost use Rattle.schema_meaning.specs.Questions.{each_declared, each_member, each_name, each_triggered};
ghost use Rattle.schema_meaning.specs.Questions.{each_matching};
ghost use Rattle.schema_engine.specs.Matches.{InEach};
ghost use Rattle.schema_engine.specs.Places.{value_at};
ghost use Rattle.compiled_keywords.specs.Asked.{patterns_of, MayMatchNames};
ghost use Rattle.compiled_keywords.specs.Forms.{alone, whole_at, name_at};
ghost use Rattle.compiled_keywords.specs.Members.{listed, members_in, matching_of, others_among, applied_node};
ghost use Rattle.compiled_keywords.specs.Owned.{named, by_pattern, depending, declared_by, IsNumbered};
ghost use Rattle.compiled_keywords.specs.Owned.{AreNumbered, AllNumbered};
ghost use Rattle.compiled_keywords.specs.Seen.{Puts};

use crate::asks::Declared;
use crate::patterns::is_declared;
use crate::subschemas::{Dependency, NamedDependency, NamedNode, PatternNode};
use crate::walk::{member_in, walk_for};
use schema_engine::matching::Matching;
use schema_engine::place::{Asked, Place, Question};
use serde_json::{Map, Value};
use std::alloc::AllocError;

// The member of a name, where there is one.
pub(crate) fn member_at<'i>(place: Place<'i>, name: &str) -> Option<&'i Value>
    ensures { option_map (λ v. view v.now) result ≡ get name.now (value_at place.entry) }
{
    match place {
        Place::Value(value) => value.get(name),
        Place::Name(_) => None,
    }
}

// The members of an object, and nothing of another value.
pub(crate) fn object_at<'i>(place: Place<'i>) -> Option<&'i Map<String, Value>>
    ensures { members_in result ≡ members_of (value_at place.entry) }
{
    match place {
        Place::Value(value) => value.as_object(),
        Place::Name(_) => None,
    }
}

// Each declared member that is there, by its node.
pub(crate) fn push_declared<'q, 'i: 'q>(
    nodes: &'q [NamedNode],
    place: Place<'i>,
    into: &mut Vec<Question<'q, 'i>>,
) -> Result<(), AllocError>
    ensures { OnOk result ((k : List ℕ) → Puts (name_at k (map named nodes.now)) into.old.items into.new.items
        (map alone (each_declared k (value_at place.entry) (map named nodes.now)))) }
{
    let mut walk = walk_for(nodes.len(), place);
    for (index, named) in nodes.iter().enumerate() {
        let name = named.name.as_str();
        if let Some(member) = member_in(&mut walk, place, name) {
            into.push(Question {
                node: named.node,
                asked: Asked::Member { name, member },
                follows: false,
                beside: true,
                entry: index,
            })?;
        }
    }
    Ok(())
}

// The place by the node of each of these names that is a member's.
pub(crate) fn push_triggered<'q, 'i: 'q>(
    nodes: &[NamedNode],
    place: Place<'i>,
    into: &mut Vec<Question<'q, 'i>>,
) -> Result<(), AllocError>
    ensures { OnOk result ((k : List ℕ) → Puts (name_at k (map named nodes.now)) into.old.items into.new.items
        (map alone (each_triggered k (value_at place.entry) (map named nodes.now)))) }
{
    for (index, named) in nodes.iter().enumerate() {
        if member_at(place, named.name.as_str()).is_some() {
            into.push(Question {
                node: named.node,
                asked: Asked::Here,
                follows: false,
                beside: true,
                entry: index,
            })?;
        }
    }
    Ok(())
}

// The node of an entry of `dependencies` whose name is a member's, if the entry is a schema.
fn applied_at(entry: &NamedDependency, place: Place<'_>) -> Option<usize>
    ensures { result ≡ applied_node (get (depending entry.now).0 (value_at place.entry)) (depending entry.now).1 }
{
    match entry.dependency {
        Dependency::Needs(_) => None,
        Dependency::Applies(node) => {
            if member_at(place, entry.name.as_str()).is_some() {
                Some(node)
            } else {
                None
            }
        }
    }
}

// The place by the node of each of these names that is a member's, if its entry is a schema.
pub(crate) fn push_dependencies<'q, 'i: 'q>(
    entries: &[NamedDependency],
    place: Place<'i>,
    into: &mut Vec<Question<'q, 'i>>,
) -> Result<(), AllocError>
    ensures { OnOk result ((k : List ℕ) → Puts (name_at k (map depending entries.now)) into.old.items into.new.items
        (map alone (each_dependency k (value_at place.entry) (map depending entries.now)))) }
{
    for (index, entry) in entries.iter().enumerate() {
        if let Some(node) = applied_at(entry, place) {
            into.push(Question {
                node,
                asked: Asked::Here,
                follows: false,
                beside: true,
                entry: index,
            })?;
        }
    }
    Ok(())
}

fn push_members_of<'q, 'i: 'q>(
    node: usize,
    members: &'i Map<String, Value>,
    into: &mut Vec<Question<'q, 'i>>,
) -> Result<(), AllocError>
    ensures { OnOk result ((k : List ℕ) → Puts (whole_at k) into.old.items into.new.items
        (map alone (each_member k node (listed members.now)))) }
{
    for (name, member) in members.iter() {
        let name = name.as_str();
        into.push(Question {
            node,
            asked: Asked::Member { name, member },
            follows: false,
            beside: true,
            entry: 0,
        })?;
    }
    Ok(())
}

// Each member by one node.
pub(crate) fn push_members<'q, 'i: 'q>(
    node: usize,
    place: Place<'i>,
    into: &mut Vec<Question<'q, 'i>>,
) -> Result<(), AllocError>
    ensures { OnOk result ((k : List ℕ) → Puts (whole_at k) into.old.items into.new.items
        (map alone (each_member k node (members_of (value_at place.entry))))) }
{
    match object_at(place) {
        Some(members) => push_members_of(node, members, into),
        None => Ok(()),
    }
}

fn push_names_of<'q, 'i: 'q>(
    node: usize,
    members: &'i Map<String, Value>,
    into: &mut Vec<Question<'q, 'i>>,
) -> Result<(), AllocError>
    ensures { OnOk result ((k : List ℕ) → Puts (whole_at k) into.old.items into.new.items
        (map alone (each_name (at k) node (map (λ m. m.0) (listed members.now))))) }
{
    for (name, _) in members.iter() {
        into.push(Question {
            node,
            asked: Asked::Name(name.as_str()),
            follows: false,
            beside: true,
            entry: 0,
        })?;
    }
    Ok(())
}

// Each member's name by one node.
pub(crate) fn push_names<'q, 'i: 'q>(
    node: usize,
    place: Place<'i>,
    into: &mut Vec<Question<'q, 'i>>,
) -> Result<(), AllocError>
    ensures { OnOk result ((k : List ℕ) → Puts (whole_at k) into.old.items into.new.items
        (map alone (each_name (at k) node (names_of (value_at place.entry))))) }
{
    match object_at(place) {
        Some(members) => push_names_of(node, members, into),
        None => Ok(()),
    }
}

// Each member whose name the pattern of an entry matches.
fn push_matched<'q, 'i: 'q, T: Matching>(
    entry: usize,
    node: &PatternNode,
    members: &'i Map<String, Value>,
    matching: &mut T,
    into: &mut Vec<Question<'q, 'i>>,
) -> Result<(), AllocError>
    requires known { IsNumbered (T.matches matching.old).pattern node.now.pattern }
    requires asked { MayMatchNames (T.matches matching.old)
        ((by_pattern node.now).0 ∷ []) (listed members.now) }
    ensures same { OnOk result (T.matches matching.new ≡ T.matches matching.old) }
    ensures stays { OnErr result (T.matches matching.new ≡ T.matches matching.old) }
    ensures put { OnOk result (InEach (T.matches matching.old)
        (λ m. (k : List ℕ) (added : ℕ → List Part) → added entry ≡ at_name k (by_pattern node.now).0
        → Puts added into.old.items into.new.items
        (map alone (matching_of m k (by_pattern node.now) (listed members.now))))) }
{
    for (name, member) in members.iter() {
        let name = name.as_str();
        if matching.is_match(node.pattern.number, name)? {
            into.push(Question {
                node: node.node,
                asked: Asked::Member { name, member },
                follows: false,
                beside: true,
                entry,
            })?;
        }
    }
    Ok(())
}

fn push_each_matched<'q, 'i: 'q, T: Matching>(
    nodes: &[PatternNode],
    members: &'i Map<String, Value>,
    matching: &mut T,
    into: &mut Vec<Question<'q, 'i>>,
) -> Result<(), AllocError>
    requires known { AreNumbered (T.matches matching.old).pattern nodes.now }
    requires asked { MayMatchNames (T.matches matching.old)
        (patterns_of nodes.now) (listed members.now) }
    ensures same { OnOk result (T.matches matching.new ≡ T.matches matching.old) }
    ensures stays { OnErr result (T.matches matching.new ≡ T.matches matching.old) }
    ensures put { OnOk result (InEach (T.matches matching.old)
        (λ m. (k : List ℕ) → Puts (name_at k (map by_pattern nodes.now)) into.old.items into.new.items
        (map alone (flat_map (λ p. matching_of m k p (listed members.now)) (map by_pattern nodes.now))))) }
{
    for (index, node) in nodes.iter().enumerate() {
        push_matched(index, node, members, matching, into)?;
    }
    Ok(())
}

// Each member by the node of each pattern that matches its name.
pub(crate) fn push_matching<'q, 'i: 'q, T: Matching>(
    nodes: &[PatternNode],
    place: Place<'i>,
    matching: &mut T,
    into: &mut Vec<Question<'q, 'i>>,
) -> Result<(), AllocError>
    requires known { AreNumbered (T.matches matching.old).pattern nodes.now }
    requires asked { MayMatchNames (T.matches matching.old)
        (patterns_of nodes.now) (members_of (value_at place)) }
    ensures same { OnOk result (T.matches matching.new ≡ T.matches matching.old) }
    ensures stays { OnErr result (T.matches matching.new ≡ T.matches matching.old) }
    ensures put { OnOk result (InEach (T.matches matching.old)
        (λ m. (k : List ℕ) → Puts (name_at k (map by_pattern nodes.now)) into.old.items into.new.items
        (map alone (each_matching m k (value_at place.entry) (map by_pattern nodes.now))))) }
{
    match object_at(place) {
        Some(members) => push_each_matched(nodes, members, matching, into),
        None => Ok(()),
    }
}

fn push_others_of<'q, 'i: 'q, T: Matching>(
    declared: &Declared,
    node: usize,
    members: &'i Map<String, Value>,
    matching: &mut T,
    into: &mut Vec<Question<'q, 'i>>,
) -> Result<(), AllocError>
    requires known { AllNumbered (T.matches matching.old).pattern declared.now.patterns.items }
    requires asked { MayMatchNames (T.matches matching.old)
        (declared_by declared.now).patterns (listed members.now) }
    ensures same { OnOk result (T.matches matching.new ≡ T.matches matching.old) }
    ensures stays { OnErr result (T.matches matching.new ≡ T.matches matching.old) }
    ensures put { OnOk result (InEach (T.matches matching.old)
        (λ m. (k : List ℕ) → Puts (whole_at k) into.old.items into.new.items
        (map alone (each_member k node (others_among m (declared_by declared.now) (listed members.now)))))) }
{
    for (name, member) in members.iter() {
        let name = name.as_str();
        if !is_declared(declared, name, matching)? {
            into.push(Question {
                node,
                asked: Asked::Member { name, member },
                follows: false,
                beside: true,
                entry: 0,
            })?;
        }
    }
    Ok(())
}

// Each member that is not declared by one node.
pub(crate) fn push_others<'q, 'i: 'q, T: Matching>(
    declared: &Declared,
    node: usize,
    place: Place<'i>,
    matching: &mut T,
    into: &mut Vec<Question<'q, 'i>>,
) -> Result<(), AllocError>
    requires known { AllNumbered (T.matches matching.old).pattern declared.now.patterns.items }
    requires asked { MayMatchNames (T.matches matching.old)
        (declared_by declared.now).patterns (members_of (value_at place)) }
    ensures same { OnOk result (T.matches matching.new ≡ T.matches matching.old) }
    ensures stays { OnErr result (T.matches matching.new ≡ T.matches matching.old) }
    ensures put { OnOk result (InEach (T.matches matching.old)
        (λ m. (k : List ℕ) → Puts (whole_at k) into.old.items into.new.items
        (map alone (each_member k node (other_members m (declared_by declared.now) (value_at place.entry)))))) }
{
    match object_at(place) {
        Some(members) => push_others_of(declared, node, members, matching, into),
        None => Ok(()),
    }
}
