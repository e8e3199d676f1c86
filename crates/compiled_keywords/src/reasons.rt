//! The one fault of a compiled keyword that says nothing of the answers.
ghost use Rattle.std.specs.Prelude.{◌≡◌, IfOk, map, string_bytes};
ghost use Rattle.serde_json.specs.Data.{Data};
ghost use Rattle.serde_json.specs.View.{view};
ghost use Rattle.schema_meaning.specs.Keywords.{first_value};
ghost use Rattle.schema_meaning.specs.Questions.{members_of};
ghost use Rattle.schema_reports.specs.Kinds.{StandsFor};
ghost use Rattle.schema_engine.specs.Matches.{Answers};
ghost use Rattle.schema_engine.specs.Refusals.{IsNote};
ghost use Rattle.applicators.specs.Forms.{kind_in, value_in};
ghost use Rattle.compiled_keywords.specs.Forms.{form_of};
ghost use Rattle.compiled_keywords.specs.Members.{listed};
ghost use Rattle.compiled_keywords.specs.Named.{names_asked, AskOfOthers};

use crate::asks::Asks;
use crate::members::object_at;
use schema_engine::place::{Asked, Place, Question};
use schema_engine::reason::Reason;
use schema_engine::situation::Situation;
use schema_reports::ValidationErrorKind;
use serde_json::{Map, Value};
use std::alloc::{AllocError, Global};

fn first_of<'o>(members: &'o Map<String, Value>, value: &'o Value) -> &'o Value
    ensures { view result.now ≡ first_value (view value.now) (listed members.now) }
{
    match members.iter().next() {
        Some((_, member)) => member,
        None => value,
    }
}

// The value of the first member, or the value itself where there is none.
fn first_member<'o>(value: &'o Value) -> &'o Value
    ensures { view result.now ≡ first_value (view value.now) (members_of (view value.now)) }
{
    match object_at(Place::Value(value)) {
        Some(members) => first_of(members, value),
        None => value,
    }
}

// The names of the members that these questions ask of, in order.
fn names_of(alloc: Global, questions: &[Question<'_, '_>]) -> Result<Vec<String>, AllocError>
    ensures { IfOk result (λ names. map string_bytes names.items ≡ names_asked questions.now) }
{
    let mut names = Vec::new(alloc);
    for question in questions {
        if let Asked::Member { name, .. } = question.asked {
            names.push(String::from_str(alloc, name)?)?;
        }
    }
    Ok(names)
}

fn kind_of<'o>(
    asks: &Asks,
    alloc: Global,
    questions: &[Question<'_, 'o>],
) -> Result<ValidationErrorKind<'o>, AllocError>
    ensures { IfOk result (λ k. (m : Answers) (d : Data)
        → AskOfOthers m (form_of asks.now) d questions.now
        → StandsFor k (kind_in m (form_of asks.now) d)) }
{
    match asks {
        Asks::ItemsFrom { .. } => Ok(ValidationErrorKind::AdditionalItems),
        Asks::OtherMembers { .. } => Ok(ValidationErrorKind::AdditionalProperties {
            unexpected: names_of(alloc, questions)?,
        }),
        Asks::Value(shown) => Ok(ValidationErrorKind::Not {
            schema: shown.schema.clone()?,
        }),
        _ => Ok(ValidationErrorKind::FalseSchema),
    }
}

fn value_of<'o>(asks: &Asks, value: &'o Value) -> &'o Value
    ensures { view result.now ≡ value_in (form_of asks.now) (view value.now) }
{
    match asks {
        Asks::Members(_) => first_member(value),
        _ => value,
    }
}

/// Why a keyword that asks so refuses, if one fault speaks for all that it asks and says nothing of the answers. These are its questions.
///
/// # Errors
///
/// Where memory was refused or a count of owners is full.
pub(crate) fn reason_of<'o>(
    asks: &Asks,
    situation: &Situation<'_, 'o>,
    questions: &[Question<'_, 'o>],
) -> Result<Reason<'o>, AllocError>
    ensures { IfOk result (λ r. (m : Answers)
        → AskOfOthers m (form_of asks.now) (view situation.now.value.now) questions.now
        → IsNote r (record {
          kind = kind_in m (form_of asks.now) (view situation.now.value.now);
          value = value_in (form_of asks.now) (view situation.now.value.now);
        })) }
{
    let kind = kind_of(asks, situation.alloc, questions)?;
    let value = value_of(asks, situation.value);
    Ok(Reason { kind, value })
}
