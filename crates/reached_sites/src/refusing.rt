//! What a refused member names, and what is shown of it.

ghost use Rattle.std.specs.Prelude.{◌≡◌, [], IfOk, string_bytes};
ghost use Rattle.serde_json.specs.Data.{Data};
ghost use Rattle.serde_json.specs.View.{view};
ghost use Rattle.schema_meaning.specs.Members.{In};
ghost use Rattle.schema_definitions.specs.Rows as rows;
ghost use Rattle.schema_reports.specs.Phrases.{shortened, IsSpelled};
ghost use Rattle.schema_reports.specs.Phrases as phrase;
ghost use Rattle.schema_sites.specs.Refused.{Refuses};
ghost use Rattle.reached_sites.specs.Causes.{told_in, NamesCause, Tells};
ghost use Rattle.reached_sites.specs.Places.{place_in};

use crate::cause::BuildCause;
use crate::place::SchemaPlace;
use schema_sites::keyword::Refusal;
use serde_json::Value;
use std::alloc::{AllocError, Global};
use value_checks::texts::code_points;

/// How many code points of a value's text are shown.
const SHOWN: usize = 60;

fn cut(alloc: Global, text: String) -> Result<String, AllocError>
    ensures { IfOk result (λ short. string_bytes short ≡ shortened (string_bytes text)) }
{
    if code_points(text.as_str()) <= SHOWN {
        Ok(text)
    } else {
        format!(in alloc; "{text:.60}...")
    }
}

/// A value by its JSON text, of which the first 60 code points and `...` are shown where it has more. The text is written whole first.
///
/// # Errors
///
/// Where memory was refused.
pub fn shown(alloc: Global, value: &Value) -> Result<String, AllocError>
    ensures { IfOk result (λ text. IsSpelled (phrase.value (view value.now)) (string_bytes text)) }
{
    cut(alloc, value.to_string(alloc)?)
}

// What is told of a refused value: the text of a reference, and of another value the part that is refused.
fn told(alloc: Global, value: &Value, refusal: &Refusal<'_>) -> Result<String, AllocError>
    ensures { IfOk result (λ text. Tells (view value.now) refusal.now (string_bytes text)) }
{
    let part = match refusal {
        Refusal::Reference(_) => {
            return String::from_str(alloc, value.as_str().unwrap_or(""));
        }
        Refusal::Entry { name, .. } => value.get(*name),
        Refusal::Element { index, .. } => value.get(*index),
        Refusal::Target { target } => Some(target.contents()),
        _ => Some(value),
    };
    shown(alloc, part.unwrap_or(value))
}

/// The cause that a refused member of the schema at a place is. It costs the text of the value.
///
/// # Errors
///
/// Where the refusal is want of memory, where memory was refused, or a count of owners is full.
pub fn refused(
    alloc: Global,
    place: &SchemaPlace,
    name: &str,
    value: &Value,
    refusal: Refusal<'_>,
) -> Result<BuildCause, AllocError>
    ensures names { IfOk result (λ e. (x : rows.Context) (d : Data) (row : rows.Row)
        → rows.place_at x [] ≡ place_in place.now → Refuses x name.now d row refusal.entry
        → (cause : rows.BuildCause) × NamesCause cause e × In cause row.causes) }
    ensures tells { IfOk result (λ e. Tells (view value.now) refusal.entry (told_in e)) }
{
    let here = place.member(alloc, name)?;
    let found = told(alloc, value, &refusal)?;
    match refusal {
        Refusal::Value { expected } => Ok(BuildCause::KeywordValue {
            place: here,
            expected,
            found,
        }),
        Refusal::Entry { name, expected } => Ok(BuildCause::KeywordValue {
            place: here.member(alloc, name)?,
            expected,
            found,
        }),
        Refusal::Element { index, expected } => Ok(BuildCause::KeywordValue {
            place: here.item(alloc, index)?,
            expected,
            found,
        }),
        Refusal::Target { target } => Ok(BuildCause::KeywordValue {
            place: SchemaPlace::of_target(&target)?,
            expected: "schema",
            found,
        }),
        Refusal::Reference(error) => Ok(BuildCause::Reference {
            place: here,
            reference: found,
            error,
        }),
        Refusal::LeftOut => Ok(BuildCause::Unevaluated { place: here }),
        Refusal::Memory => Err(AllocError),
    }
}
