//! The documents of a form.

ghost use Rattle.std.specs.Prelude.{◌≡◌, [], ◌∷◌, ◌⊎◌, ℕ, List, Option, Some, None, IfOk, IfErr, OnOk, ◌&&◌};
ghost use Rattle.std.specs.Prelude.{if◌then◌else◌, bytes_eq};
ghost use Rattle.serde_json.specs.View.{view};
ghost use Rattle.uri_grammar.specs.Parts.{split};
ghost use Rattle.uri_grammar.specs.Grammar.{is_reference};
ghost use Rattle.uri_references.specs.Identity.{identity_of};
ghost use Rattle.document_sources.specs.Answers.{answer_for};
ghost use Rattle.document_sources.specs.Given.{with_given};
ghost use Rattle.schema_registries.specs.Seen.{documents_given, given_under};
ghost use Rattle.json_schema_validator.specs.Answers.{RefusesDocument, AnswersOne};

use document_sources::MapRetriever;
use schema_registries::{DocumentError, Documents};
use schema_validators::BuildError;
use serde_json::Value;
use std::alloc::{AllocError, Global};
use uri_references::error::Error;

// Adds a copy of a document.
fn add(documents: &mut Documents, uri: &str, value: &Value) -> Result<(), BuildError>
    ensures ok { OnOk result (documents_given documents.new ≡ with_given (documents_given documents.old)
        (given_under uri.now (view value.now))) }
    ensures refused { IfErr result (RefusesDocument uri.now (view value.now)) }
{
    match documents.add(uri, value.clone()?) {
        Ok(()) => Ok(()),
        Err(DocumentError::Memory) => Err(BuildError::Memory),
        Err(error) => Err(BuildError::Document(error)),
    }
}

// One document.
pub(crate) fn one_document(alloc: Global, uri: &str, value: &Value) -> Result<Documents, BuildError>
    ensures ok { IfOk result (λ d. documents_given d ≡ given_under uri.now (view value.now) ∷ []) }
    ensures refused { IfErr result (RefusesDocument uri.now (view value.now)) }
{
    let mut documents = Documents::new(alloc);
    add(&mut documents, uri, value)?;
    Ok(documents)
}

// Two documents; of one URI the second takes the place of the first.
pub(crate) fn two_documents(
    alloc: Global,
    uri: &str,
    value: &Value,
    other_uri: &str,
    other: &Value,
) -> Result<Documents, BuildError>
    ensures ok { IfOk result (λ d. documents_given d ≡ with_given (given_under uri.now (view value.now) ∷ [])
        (given_under other_uri.now (view other.now))) }
    ensures refused { IfErr result (λ e. RefusesDocument uri.now
        (view value.now) e ⊎ RefusesDocument other_uri.now (view other.now) e) }
{
    let mut documents = one_document(alloc, uri, value)?;
    add(&mut documents, other_uri, other)?;
    Ok(documents)
}

// Whoever is asked gives a copy of a document for its URI, and no other; none where the text is no URI reference.
pub(crate) fn only(alloc: Global, uri: &str, document: &Value) -> Result<MapRetriever, AllocError>
    ensures { IfOk result (AnswersOne uri.now (view document.now)) }
{
    let mut map = MapRetriever::new(alloc);
    match map.add(alloc, uri, document.clone()?) {
        Ok(()) => Ok(map),
        Err(Error::InvalidUri(_)) => Ok(map),
        Err(Error::Memory) => Err(AllocError),
    }
}
