//! The dialect of a schema: its draft, and the vocabularies that its meta-schema requires.

ghost use Rattle.std.specs.Prelude.{◌≡◌, Bool, false, ◌||◌, ℕ, List, codes};
ghost use Rattle.std.specs.List.{list_any};
ghost use Rattle.serde_json.specs.Find.{get};
ghost use Rattle.serde_json.specs.View.{view, members_view};
ghost use Rattle.schema_drafts.specs.Vocabularies as spec;
ghost use Rattle.schema_definitions.specs.Places as places;
ghost use Rattle.schema_definitions.specs.Bearers as bearers;
ghost use Rattle.schema_dialects.specs.Sets as sets;
ghost use Rattle.schema_dialects.specs.Dialects.{dialect_of, in_force};

use crate::known::{KnownVocabularies, NONE, mark};
use crate::vocabulary::{KNOWN_URIS, known_among};
use schema_drafts::draft::Draft;
use serde_json::{Map, Value};

/// The dialect of a schema (Core 8.1).
#[derive(Copy, Clone, Debug, PartialEq, Eq)]
pub struct Dialect {
    /// The draft.
    pub draft: Draft,
    /// The vocabularies that the meta-schema requires, or none where it does not say which and all of the draft are in force. No
    /// keyword is of a custom vocabulary, so those are left out.
    pub required: Option<KnownVocabularies>,
    /// Whether what stands beside `$ref` is read in Drafts 6 and 7.
    pub siblings: bool,
}

// Marks the vocabulary of that name where a draft knows it.
fn mark_named(known: &mut KnownVocabularies, name: &str)
    ensures { (test : spec.Vocabulary → Bool) → ((uri : List ℕ) → test (spec.custom uri) ≡ false) → list_any test (sets.required known.new) ≡ (test (spec.vocabulary_named name.now) || list_any test (sets.required known.old)) }
{
    if let Some(vocabulary) = known_among(&KNOWN_URIS, name) {
        mark(known, vocabulary);
    }
}

// Those that the drafts know of the vocabularies that are named with `true`.
fn required_among(members: &Map<String, Value>) -> KnownVocabularies
    ensures { sets.required result ≡ spec.known_among (bearers.required_in (members_view members.now.entries)) }
{
    let mut required = NONE;
    for (name, is_required) in members.iter() {
        if is_required.as_bool() == Some(true) {
            mark_named(&mut required, name.as_str());
        }
    }
    required
}

// The vocabularies that `$vocabulary` requires, where it is an object.
fn required_by(contents: &Value) -> Option<KnownVocabularies>
    ensures { in_force result ≡ bearers.required_by (get (codes "$vocabulary") (view contents.now)) }
{
    match contents.get("$vocabulary").and_then(Value::as_object) {
        Some(members) => Some(required_among(members)),
        None => None,
    }
}

impl Dialect {
    /// A draft with all its vocabularies, as its own meta-schema gives it.
    pub fn standard(siblings: bool, draft: Draft) -> Dialect
        ensures { dialect_of result ≡ places.standard siblings draft }
    {
        Dialect {
            draft,
            required: None,
            siblings,
        }
    }

    /// The dialect of the schemas that name a meta-schema of this dialect and those contents (Core 8.1.2).
    ///
    /// It allocates nothing, and compares each name in `$vocabulary` with fourteen URIs.
    pub fn by_meta_schema(self, contents: &Value) -> Dialect
        ensures { dialect_of result ≡ record { draft = self.draft; vocabularies = bearers.required_by (get (codes "$vocabulary") (view contents.now)); siblings = self.siblings } }
    {
        Dialect {
            draft: self.draft,
            required: required_by(contents),
            siblings: self.siblings,
        }
    }
}
