//! Two keywords asked together: of members that patterns match, and of those that are not declared beside.
//!
//! Each member's name is matched with each pattern once.
ghost use Rattle.std.specs.Prelude.{◌≡◌, true, [], ◌∷◌, OnOk, OnErr, IfOk, IfSome, map};
ghost use Rattle.std.specs.List.{list_any};
ghost use Rattle.json_values.specs.Patterns.{matched};
ghost use Rattle.serde_json.specs.View.{view};
ghost use Rattle.schema_meaning.specs.Questions.{members_of};
ghost use Rattle.schema_engine.specs.Matches.{InEach};
ghost use Rattle.schema_engine.specs.Places.{value_at};
ghost use Rattle.schema_engine.specs.Questions.{Pushes};
ghost use Rattle.compiled_keywords.specs.Asked.{patterns_of, MayMatchEach, MayMatchNames, MayMatchIn};
ghost use Rattle.compiled_keywords.specs.Forms.{form_of};
ghost use Rattle.compiled_keywords.specs.Members.{listed};
ghost use Rattle.compiled_keywords.specs.Owned.{by_pattern, declared_by, text_of, AreNumbered};
ghost use Rattle.compiled_keywords.specs.Paired.{wants_all, AreBeside, GoTogether, StandTogether, matched_calls};
ghost use Rattle.compiled_keywords.specs.Paired.{calls_of_member, calls_of_members, calls_of_both};
ghost use Rattle.compiled_keywords.specs.Shapes.{KnowsAsked};

use crate::applicator::Applicator;
use crate::asks::{Asks, Declared};
use crate::keyword::Keyword;
use crate::members::object_at;
use crate::subschemas::{Pattern, PatternNode};
use applicators::combining::Combining;
use schema_engine::matching::Matching;
use schema_engine::node::Together;
use schema_engine::place::{Asked, Place, Question};
use schema_engine::validate::Validate;
use serde_json::{Map, Value};
use std::alloc::AllocError;

// Whether this is the same pattern. Its number tells most apart.
fn is_same(one: &Pattern, other: &Pattern) -> bool
    ensures { result ≡ true → text_of one.now ≡ text_of other.now }
{
    one.number == other.number && one.text == other.text
}

// Whether these are the same patterns in the same order.
fn has_patterns(nodes: &[PatternNode], patterns: &[Pattern]) -> bool
    ensures { result ≡ true → patterns_of nodes.now ≡ map text_of patterns.now }
{
    if nodes.len() != patterns.len() {
        return false;
    }
    for (index, node) in nodes.iter().enumerate() {
        if !is_same(&node.pattern, &patterns[index]) {
            return false;
        }
    }
    true
}

// Whether the patterns of the first are those that the second takes as declared.
fn are_beside(asks: &Asks, others: &Asks) -> bool
    ensures { result ≡ true → AreBeside asks.now others.now }
{
    match asks {
        Asks::MatchingMembers(nodes) => match others {
            Asks::OtherMembers { declared, .. } => has_patterns(nodes, &declared.patterns),
            _ => false,
        },
        _ => false,
    }
}

// Whether every answer has to be yes.
const fn wants_all(combining: Combining) -> bool
    ensures { result ≡ wants_all combining }
{
    matches!(combining, Combining::Every | Combining::Together)
}

/// Whether the questions of both can be pushed together.
pub(crate) fn go_together(one: &Applicator, other: &Applicator) -> bool
    ensures { result ≡ true → GoTogether one.now other.now }
{
    wants_all(one.combining) && wants_all(other.combining) && are_beside(&one.asks, &other.asks)
}

fn asks_matching(keyword: &Keyword) -> bool {
    match keyword {
        Keyword::Applicator(applicator) => matches!(applicator.asks, Asks::MatchingMembers(_)),
        _ => false,
    }
}

fn asks_others(keyword: &Keyword) -> bool {
    match keyword {
        Keyword::Applicator(applicator) => matches!(applicator.asks, Asks::OtherMembers { .. }),
        _ => false,
    }
}

/// The positions of two keywords that go together, if there are such: of the first that asks of the members that patterns match, and of
/// the first that asks of those that are not declared.
pub fn together_in(keywords: &[Keyword]) -> Option<Together>
    ensures { IfSome result (StandTogether keywords.now) }
{
    let first = keywords.iter().position(asks_matching)?;
    let second = keywords.iter().position(asks_others)?;
    if keywords.get(first)?.goes_with(keywords.get(second)?) {
        Some(Together { first, second })
    } else {
        None
    }
}

// A member by the node of each pattern that matches its name. Whether one does.
fn push_matches<'q, 'i: 'q, T: Matching>(
    nodes: &[PatternNode],
    name: &'i str,
    member: &'i Value,
    matching: &mut T,
    into: &mut Vec<Question<'q, 'i>>,
) -> Result<bool, AllocError>
    requires known { AreNumbered (T.matches matching.old).pattern nodes.now }
    requires asked { MayMatchEach (T.matches matching.old)
        (patterns_of nodes.now) (name.now ∷ []) }
    ensures same { OnOk result (T.matches matching.new ≡ T.matches matching.old) }
    ensures stays { OnErr result (T.matches matching.new ≡ T.matches matching.old) }
    ensures read { IfOk result (λ b. InEach (T.matches matching.old)
        (λ m. b ≡ list_any (λ p. matched m p name.now) (patterns_of nodes.now))) }
    ensures pushed { OnOk result (InEach (T.matches matching.old)
        (λ m. Pushes into.old.items into.new.items
        (matched_calls m (map by_pattern nodes.now) (name.now, view member.now)))) }
{
    let mut is_matched = false;
    for (index, node) in nodes.iter().enumerate() {
        if matching.is_match(node.pattern.number, name)? {
            is_matched = true;
            into.push(Question {
                node: node.node,
                asked: Asked::Member { name, member },
                follows: false,
                beside: true,
                entry: index,
            })?;
        }
    }
    Ok(is_matched)
}

// A member by the node of each pattern that matches its name, and by the other keyword's node where it is not declared.
fn push_member<'q, 'i: 'q, T: Matching>(
    nodes: &[PatternNode],
    declared: &Declared,
    node: usize,
    name: &'i str,
    member: &'i Value,
    matching: &mut T,
    into: &mut Vec<Question<'q, 'i>>,
) -> Result<(), AllocError>
    requires pairs { patterns_of nodes.now ≡ (declared_by declared.now).patterns }
    requires known { AreNumbered (T.matches matching.old).pattern nodes.now }
    requires asked { MayMatchEach (T.matches matching.old)
        (patterns_of nodes.now) (name.now ∷ []) }
    ensures same { OnOk result (T.matches matching.new ≡ T.matches matching.old) }
    ensures stays { OnErr result (T.matches matching.new ≡ T.matches matching.old) }
    ensures pushed { OnOk result (InEach (T.matches matching.old)
        (λ m. Pushes into.old.items into.new.items
        (calls_of_member m (map by_pattern nodes.now) (declared_by declared.now) node
        (name.now, view member.now)))) }
{
    let is_matched = push_matches(nodes, name, member, matching, into)?;
    if is_matched || declared.names.contains(name) {
        return Ok(());
    }
    into.push(Question {
        node,
        asked: Asked::Member { name, member },
        follows: false,
        beside: true,
        entry: 0,
    })?;
    Ok(())
}

fn push_each_member<'q, 'i: 'q, T: Matching>(
    nodes: &[PatternNode],
    declared: &Declared,
    node: usize,
    members: &'i Map<String, Value>,
    matching: &mut T,
    into: &mut Vec<Question<'q, 'i>>,
) -> Result<(), AllocError>
    requires pairs { patterns_of nodes.now ≡ (declared_by declared.now).patterns }
    requires known { AreNumbered (T.matches matching.old).pattern nodes.now }
    requires asked { MayMatchNames (T.matches matching.old)
        (patterns_of nodes.now) (listed members.now) }
    ensures same { OnOk result (T.matches matching.new ≡ T.matches matching.old) }
    ensures stays { OnErr result (T.matches matching.new ≡ T.matches matching.old) }
    ensures pushed { OnOk result (InEach (T.matches matching.old)
        (λ m. Pushes into.old.items into.new.items
        (calls_of_members m (map by_pattern nodes.now) (declared_by declared.now) node
        (listed members.now)))) }
{
    for (name, member) in members.iter() {
        push_member(nodes, declared, node, name.as_str(), member, matching, into)?;
    }
    Ok(())
}

fn push_members_of_both<'q, 'i: 'q, T: Matching>(
    nodes: &[PatternNode],
    declared: &Declared,
    node: usize,
    place: Place<'i>,
    matching: &mut T,
    into: &mut Vec<Question<'q, 'i>>,
) -> Result<(), AllocError>
    requires pairs { patterns_of nodes.now ≡ (declared_by declared.now).patterns }
    requires known { AreNumbered (T.matches matching.old).pattern nodes.now }
    requires asked { MayMatchNames (T.matches matching.old)
        (patterns_of nodes.now) (members_of (value_at place)) }
    ensures same { OnOk result (T.matches matching.new ≡ T.matches matching.old) }
    ensures stays { OnErr result (T.matches matching.new ≡ T.matches matching.old) }
    ensures pushed { OnOk result (InEach (T.matches matching.old)
        (λ m. Pushes into.old.items into.new.items
        (calls_of_members m (map by_pattern nodes.now) (declared_by declared.now) node
        (members_of (value_at place.entry))))) }
{
    match object_at(place) {
        Some(members) => push_each_member(nodes, declared, node, members, matching, into),
        None => Ok(()),
    }
}

/// Pushes what both ask, a member at a time.
///
/// # Errors
///
/// Where memory was refused. Some questions may have been pushed then.
pub(crate) fn push_both<'q, 'i: 'q, T: Matching>(
    asks: &Asks,
    others: &Asks,
    place: Place<'i>,
    matching: &mut T,
    into: &mut Vec<Question<'q, 'i>>,
) -> Result<(), AllocError>
    requires pairs { AreBeside asks.now others.now }
    requires known { KnowsAsked asks.now (T.matches matching.old).pattern }
    requires asked { MayMatchIn (T.matches matching.old) (form_of asks.now) (value_at place) }
    ensures same { OnOk result (T.matches matching.new ≡ T.matches matching.old) }
    ensures stays { OnErr result (T.matches matching.new ≡ T.matches matching.old) }
    ensures pushed { OnOk result (InEach (T.matches matching.old)
        (λ m. Pushes into.old.items into.new.items
        (calls_of_both m (form_of asks.now) (form_of others.now) (value_at place.entry)))) }
{
    match asks {
        Asks::MatchingMembers(nodes) => match others {
            Asks::OtherMembers { declared, node } => {
                push_members_of_both(nodes, declared, *node, place, matching, into)
            }
            _ => Ok(()),
        },
        _ => Ok(()),
    }
}
