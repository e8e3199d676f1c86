//! The keywords of compiled schemas.
ghost use Rattle.std.specs.Prelude.{◌≡◌, ℕ, List, [], ◌∷◌, OnOk, OnErr, map, drop, true};
ghost use Rattle.serde_json.specs.View.{view};
ghost use Rattle.schema_meaning.specs.Keywords.{rule, reference_name};
ghost use Rattle.schema_meaning.specs.Members.{is_empty};
ghost use Rattle.schema_meaning.specs.Places.{stay};
ghost use Rattle.schema_meaning.specs.Questions.{at};
ghost use Rattle.schema_engine.specs.Led.{MayAskFor};
ghost use Rattle.schema_engine.specs.Matches.{Answers, InEach};
ghost use Rattle.schema_engine.specs.Places.{value_at};
ghost use Rattle.applicators.specs.Forms.{noted};
ghost use Rattle.compiled_keywords.specs.Asked.{MayMatchIn};
ghost use Rattle.compiled_keywords.specs.Forms.{alone, form_of, whole_at, added_in, asked_beside};
ghost use Rattle.compiled_keywords.specs.Named.{LeaveOthers};
ghost use Rattle.compiled_keywords.specs.Paired.{Pairs};
ghost use Rattle.compiled_keywords.specs.Seen.{Puts, beside_in};
ghost use Rattle.compiled_keywords.specs.Shapes.{shape_of, added_by, reference_of, Knows, KnowsAsked};
ghost use Rattle.compiled_keywords.specs.Told.{TellsEach};

use crate::applicator::Applicator;
use crate::asking::{
    asking_of, push_branches, push_condition, push_here, push_item_list, push_items,
};
use crate::asks::Asks;
use crate::assertion::{Assertion, has_dependencies};
use crate::beside::push_beside;
use crate::entries::entry_of;
use crate::members::{
    push_declared, push_dependencies, push_matching, push_members, push_names, push_others,
    push_triggered,
};
use crate::notes::{tell_assertion, tell_dependencies, tell_never, tell_pattern};
use crate::patterns::is_matched;
use crate::reasons::reason_of;
use crate::rules::{combination_at, refused_under};
use crate::subschemas::Pattern;
use crate::together::{go_together, push_both};
use schema_engine::asking::Asking;
use schema_engine::combination::Combination;
use schema_engine::entry::Entry;
use schema_engine::itself::Itself;
use schema_engine::matching::Matching;
use schema_engine::place::{Asked, Place, Question};
use schema_engine::reason::Reason;
use schema_engine::situation::Situation;
use schema_engine::validate::Validate;
use schema_reports::{Observer, ValidationErrorKind};
use std::alloc::{AllocError, Global};

/// How a reference finds its target.
#[derive(Clone, Copy, PartialEq, Eq, Debug)]
pub enum ReferenceKind {
    Static,
    Dynamic,
    Recursive,
}

impl ReferenceKind {
    /// The keyword's name.
    pub const fn name(self) -> &'static str
        ensures { result.now ≡ reference_name (reference_of self) }
    {
        match self {
            ReferenceKind::Static => "$ref",
            ReferenceKind::Dynamic => "$dynamicRef",
            ReferenceKind::Recursive => "$recursiveRef",
        }
    }
}

/// A keyword with what it needs: its subschemas by the numbers of their nodes, its patterns by their numbers in a table.
#[derive(Drop)]
pub enum Keyword {
    /// The schema `false`.
    Never,
    /// One that only asserts, with where memory is taken to look at a value.
    Assertion { alloc: Global, assertion: Assertion },
    Pattern(Pattern),
    Applicator(Applicator),
    Reference { kind: ReferenceKind, node: usize },
}

// Whether nothing is wrong with the value itself by what is asked: `dependencies` wants names.
fn accepts_asked(asks: &Asks, place: Place<'_>) -> bool
    ensures { result ≡ is_empty (noted (form_of asks.now) (value_at place.entry)) }
{
    match asks {
        Asks::Dependencies(entries) => match place {
            Place::Value(value) => has_dependencies(entries, value),
            Place::Name(_) => true,
        },
        _ => true,
    }
}

fn tell_asked<'o>(
    situation: &Situation<'_, 'o>,
    keyword: &str,
    asks: &Asks,
    observer: &mut Observer<'o>,
) -> Result<(), AllocError>
    ensures { OnOk result (TellsEach situation.now keyword.now
        (noted (form_of asks.now) (view situation.now.value.now)) observer.old observer.new) }
{
    match asks {
        Asks::Dependencies(entries) => tell_dependencies(situation, keyword, entries, observer),
        _ => Ok(()),
    }
}

fn push_asked<'q, 'i: 'q, T: Matching>(
    asks: &'q Asks,
    place: Place<'i>,
    matching: &mut T,
    into: &mut Vec<Question<'q, 'i>>,
) -> Result<(), AllocError>
    requires known { KnowsAsked asks.now (T.matches matching.old).pattern }
    requires asked { MayMatchIn (T.matches matching.old) (form_of asks.now) (value_at place) }
    ensures same { OnOk result (T.matches matching.new ≡ T.matches matching.old) }
    ensures stays { OnErr result (T.matches matching.new ≡ T.matches matching.old) }
    ensures put { OnOk result (InEach (T.matches matching.old)
        (λ m. (k : List ℕ) → Puts (added_in k (form_of asks.now)) into.old.items into.new.items
        (asked_beside m k (value_at place.entry) (form_of asks.now)))) }
{
    match asks {
        Asks::ItemsFrom { start, node } => push_items(*start, *node, place, into),
        Asks::ItemByItem(nodes) => push_item_list(nodes, place, into),
        Asks::DeclaredMembers(nodes) => push_declared(nodes, place, into),
        Asks::MatchingMembers(nodes) => push_matching(nodes, place, matching, into),
        Asks::OtherMembers { declared, node } => {
            push_others(declared, *node, place, matching, into)
        }
        Asks::Members(node) => push_members(*node, place, into),
        Asks::Names(node) => push_names(*node, place, into),
        Asks::Triggered(nodes) => push_triggered(nodes, place, into),
        Asks::Dependencies(entries) => push_dependencies(entries, place, into),
        Asks::Branches(nodes) => push_branches(nodes, into),
        Asks::Value(shown) => push_here(shown.node, into),
        Asks::Condition {
            condition,
            then_node,
            else_node,
        } => push_condition(*condition, *then_node, *else_node, into),
    }
}

// Pushes the questions of members that are not declared, where those from `start` on ask of each member that a declared pattern matches.
fn push_left<'q, 'i: 'q>(
    asks: &Asks,
    place: Place<'i>,
    start: usize,
    into: &mut Vec<Question<'q, 'i>>,
) -> Result<(), AllocError>
    ensures { OnOk result ((m : Answers) (k : List ℕ)
        → LeaveOthers m (form_of asks.now) (value_at place.entry)
        (drop start into.old.items)
        → Puts (added_in k (form_of asks.now)) into.old.items into.new.items
        (asked_beside m k (value_at place.entry) (form_of asks.now))) }
{
    match asks {
        Asks::OtherMembers { declared, node } => push_beside(declared, *node, place, start, into),
        _ => Ok(()),
    }
}

fn push_target<'q, 'i: 'q>(node: usize, into: &mut Vec<Question<'q, 'i>>) -> Result<(), AllocError>
    ensures { OnOk result ((k : List ℕ) → Puts (whole_at k) into.old.items into.new.items
        (map alone (record { site = node; step = stay; added = at k; follows = true } ∷ []))) }
{
    into.push(Question {
        node,
        asked: Asked::Here,
        follows: true,
        beside: true,
        entry: 0,
    })?;
    Ok(())
}

impl Keyword {
    // Pushes its questions behind those that are there.
    fn push_questions<'q, 'i: 'q, T: Matching>(
        &'q self,
        place: Place<'i>,
        matching: &mut T,
        into: &mut Vec<Question<'q, 'i>>,
    ) -> Result<(), AllocError>
        requires known { Knows self.now (T.matches matching.old).pattern }
        requires asked { MayAskFor (T.matches matching.old) (shape_of self.now) (value_at place) }
        ensures same { OnOk result (T.matches matching.new ≡ T.matches matching.old) }
        ensures stays { OnErr result (T.matches matching.new ≡ T.matches matching.old) }
        ensures put { OnOk result (InEach (T.matches matching.old)
            (λ m. Puts (added_by self.now) into.old.items into.new.items
            (beside_in (rule m (value_at place.entry) (shape_of self.now))))) }
    {
        match self {
            Keyword::Applicator(applicator) => {
                push_asked(&applicator.asks, place, matching, into)
            }
            Keyword::Reference { node, .. } => push_target(*node, into),
            _ => Ok(()),
        }
    }
}

impl Validate for Keyword {
    ghost shape = { shape_of };

    ghost knows = { Knows };

    ghost added = { added_by };

    ghost pairs = { Pairs };

    fn combination(&self, place: Place<'_>) -> Combination {
        match self {
            Keyword::Applicator(applicator) => combination_at(applicator.combining, place),
            _ => Combination::Every,
        }
    }

    fn asking<'q, 'i>(&'q self, place: Place<'i>) -> Asking<'q, 'i> {
        match self {
            Keyword::Applicator(applicator) => asking_of(applicator, place),
            Keyword::Reference { node, .. } => Asking::Target(*node),
            _ => Asking::Nothing,
        }
    }

    fn accepts_itself<T: Matching>(
        &self,
        place: Place<'_>,
        matching: &mut T,
    ) -> Result<Itself, AllocError> {
        match self {
            Keyword::Never => Ok(Itself::Wrong),
            Keyword::Assertion { alloc, assertion } => {
                Ok(Itself::settled_if(assertion.accept_at(*alloc, place)?))
            }
            Keyword::Pattern(pattern) => {
                Ok(Itself::settled_if(is_matched(pattern, place, matching)?))
            }
            Keyword::Applicator(applicator) => {
                Ok(Itself::asks_if(accepts_asked(&applicator.asks, place)))
            }
            Keyword::Reference { .. } => Ok(Itself::Asks),
        }
    }

    fn questions<'q, 'i: 'q, T: Matching>(
        &'q self,
        place: Place<'i>,
        matching: &mut T,
        into: &mut Vec<Question<'q, 'i>>,
    ) -> Result<(), AllocError> {
        self.push_questions(place, matching, into)
    }

    fn goes_with(&self, other: &Self) -> bool {
        match self {
            Keyword::Applicator(applicator) => match other {
                Keyword::Applicator(beside) => go_together(applicator, beside),
                _ => false,
            },
            _ => false,
        }
    }

    fn questions_with<'q, 'i: 'q, T: Matching>(
        &'q self,
        other: &'q Self,
        place: Place<'i>,
        matching: &mut T,
        into: &mut Vec<Question<'q, 'i>>,
    ) -> Result<(), AllocError> {
        match self {
            Keyword::Applicator(applicator) => match other {
                Keyword::Applicator(beside) => {
                    push_both(&applicator.asks, &beside.asks, place, matching, into)
                }
                _ => Ok(()),
            },
            _ => Ok(()),
        }
    }

    fn questions_beside<'q, 'i: 'q>(
        &'q self,
        _first: &Self,
        place: Place<'i>,
        start: usize,
        into: &mut Vec<Question<'q, 'i>>,
    ) -> Result<(), AllocError> {
        match self {
            Keyword::Applicator(applicator) => push_left(&applicator.asks, place, start, into),
            _ => Ok(()),
        }
    }

    fn entry(&self, entry: usize) -> Entry<'_> {
        match self {
            Keyword::Applicator(applicator) => {
                entry_of(applicator.keyword, &applicator.asks, entry)
            }
            Keyword::Reference { kind, .. } => Entry::Whole {
                keyword: kind.name(),
            },
            _ => Entry::Whole { keyword: "" },
        }
    }

    fn refused_name(&self, accepted: usize) -> &str {
        match self {
            Keyword::Applicator(applicator) => refused_under(
                applicator.keyword,
                applicator.combining,
                accepted,
            ),
            Keyword::Pattern(_) => "pattern",
            _ => "",
        }
    }

    fn tell_notes<'o, T: Matching>(
        &self,
        situation: &Situation<'_, 'o>,
        matching: &mut T,
        observer: &mut Observer<'o>,
    ) -> Result<(), AllocError> {
        match self {
            Keyword::Never => tell_never(situation, observer),
            Keyword::Assertion { assertion, .. } => tell_assertion(situation, assertion, observer),
            Keyword::Pattern(pattern) => tell_pattern(situation, pattern, matching, observer),
            Keyword::Applicator(applicator) => {
                tell_asked(situation, applicator.keyword, &applicator.asks, observer)
            }
            Keyword::Reference { .. } => Ok(()),
        }
    }

    fn reason<'o>(
        &self,
        situation: &Situation<'_, 'o>,
        questions: &[Question<'_, 'o>],
    ) -> Result<Reason<'o>, AllocError> {
        match self {
            Keyword::Applicator(applicator) => reason_of(&applicator.asks, situation, questions),
            _ => Ok(Reason {
                kind: ValidationErrorKind::FalseSchema,
                value: situation.value,
            }),
        }
    }
}
