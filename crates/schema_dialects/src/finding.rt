//! The vocabularies that a meta-schema requires.

ghost use Rattle.std.specs.Prelude.{◌≡◌, IfOk, codes};
ghost use Rattle.serde_json.specs.Find.{get};
ghost use Rattle.serde_json.specs.View.{view, members_view};
ghost use Rattle.schema_drafts.specs.Vocabularies as spec;
ghost use Rattle.schema_definitions.specs.Bearers as bearers;
ghost use Rattle.schema_dialects.specs.Sets as sets;

use crate::set::VocabularySet;
use crate::vocabulary::Vocabulary;
use schema_drafts::draft::Draft;
use serde_json::{Map, Value};
use std::alloc::{AllocError, Global};

// The vocabularies that are named with `true`.
fn required_in(alloc: Global, members: &Map<String, Value>) -> Result<VocabularySet, AllocError>
    ensures { IfOk result (λ s. sets.AreSame (sets.vocabularies_of s) (spec.only (bearers.required_in (members_view members.now.entries)))) }
{
    let mut vocabularies = VocabularySet::new(alloc);
    for (name, is_required) in members.iter() {
        if is_required.as_bool() == Some(true) {
            vocabularies.add(Vocabulary::named(alloc, name.as_str())?)?;
        }
    }
    Ok(vocabularies)
}

/// The vocabularies that the contents of a meta-schema require: those that `$vocabulary` names with `true`, whether their names are
/// URIs or not, or all of the draft where there is no `$vocabulary` that is an object.
///
/// One search for each name, and one copy of each that is a custom one.
///
/// # Errors
///
/// Where memory was refused.
pub fn find_vocabularies(
    alloc: Global,
    draft: Draft,
    contents: &Value,
) -> Result<VocabularySet, AllocError>
    ensures same { IfOk result (λ s. sets.AreSame (sets.vocabularies_of s) (bearers.declared_by (get (codes "$vocabulary") (view contents.now)))) }
    ensures whole { IfOk result (λ s. bearers.declared_by (get (codes "$vocabulary") (view contents.now)) ≡ spec.all_of_draft → sets.listed s ≡ sets.own draft) }
{
    match contents.get("$vocabulary").and_then(Value::as_object) {
        Some(members) => required_in(alloc, members),
        None => Ok(VocabularySet::all_of(alloc, draft)),
    }
}
