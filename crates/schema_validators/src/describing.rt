//! Why there is no validator, in words.

ghost use Rattle.std.specs.Prelude.{◌≡◌, ◌∷◌, [], ℕ, List, IfOk, string_bytes};
ghost use Rattle.std.specs.List.{concat};
ghost use Rattle.schema_reports.specs.Phrases.{AreSpelled};
ghost use Rattle.schema_reports.specs.Sentences.{description_of};
ghost use Rattle.schema_validators.specs.Described.{quoted as quoted_text, words_of as said_of_lookup};
ghost use Rattle.schema_validators.specs.Described.{line_at as line_of, said_of_value, said_of_reference};
ghost use Rattle.schema_validators.specs.Described.{said_of_cause, said_of_retrieval};
ghost use Rattle.schema_validators.specs.Described.{said_of_documents, said_of_root, said_of_schema};
ghost use Rattle.schema_validators.specs.Described.{line_by, line_of as line_below, IsDescribed};

use crate::error::{BuildError, RefusedDocuments, RefusedRoot, RefusedSchema, RefusedText};
use document_sources::error::{RetrieveError, UriError};
use reached_sites::Error as ReferenceError;
use reached_sites::cause::BuildCause;
use reached_sites::place::SchemaPlace;
use schema_registries::error::joined;
use serde_json::Value;
use std::alloc::{AllocError, Global};

impl BuildError {
    /// Why there is no validator, as a sentence with no full stop. It says what was found, the pattern, or the reference and what was
    /// looked up; patterns and references are JSON strings. Where the cause stands at a schema, a second line with two spaces before it
    /// has its place: the document's URI, `#` and a pointer. Of documents that are refused together, that line has the first text of the
    /// documents at hand for which they are, with its place; it is left out where none is, as where a document that was retrieved asks for
    /// what is not there, or more are wanted than may be retrieved. Of a root that leads nowhere the reference is told, and the base URI
    /// that it is resolved against. What a meta-schema finds wrong is said by the `description` of that fault, with the lines that it has,
    /// behind the meta-schema's URI and the place in the root's document. There is no line end behind the last line.
    ///
    /// The error comes where memory is out.
    pub fn description(&self, alloc: Global) -> Result<String, AllocError>
        ensures { IfOk result (λ text. IsDescribed self.now (string_bytes text)) }
    {
        match self {
            BuildError::Document(error) => error.description(alloc),
            BuildError::Registry(refused) => of_documents(alloc, refused),
            BuildError::Root(refused) => of_root(alloc, refused),
            BuildError::Schema(cause) => of_cause(alloc, cause),
            BuildError::MetaSchema(refused) => of_schema(alloc, refused),
            BuildError::Memory => String::from_str(alloc, "No memory"),
        }
    }
}

fn of_documents(alloc: Global, refused: &RefusedDocuments) -> Result<String, AllocError>
    ensures { IfOk result (λ text. string_bytes text ≡ said_of_documents refused.now) }
{
    let words = words_of(alloc, &refused.error)?;
    let line = line_behind(alloc, refused)?;
    joined(
        alloc,
        &["The documents are refused: ", words.as_str(), line.as_str()],
    )
}

// The line of the text for which documents are refused, where there is one.
fn line_behind(alloc: Global, refused: &RefusedDocuments) -> Result<String, AllocError>
    ensures { IfOk result (λ text. string_bytes text ≡ line_below refused.now.at) }
{
    match &refused.at {
        Some(text) => of_text(alloc, text),
        None => Ok(String::new(alloc)),
    }
}

fn of_text(alloc: Global, text: &RefusedText) -> Result<String, AllocError>
    ensures { IfOk result (λ line. string_bytes line ≡ line_by text.now) }
{
    let reference = quoted(alloc, text.reference.as_str())?;
    let place = text.place.to_string(alloc)?;
    joined(
        alloc,
        &[
            "\n  by the reference ",
            reference.as_str(),
            " at '",
            place.as_str(),
            "'",
        ],
    )
}

fn of_root(alloc: Global, refused: &RefusedRoot) -> Result<String, AllocError>
    ensures { IfOk result (λ text. string_bytes text ≡ said_of_root refused.now) }
{
    let reference = quoted(alloc, refused.reference.as_str())?;
    let words = words_of(alloc, &refused.error)?;
    joined(
        alloc,
        &[
            "The reference ",
            reference.as_str(),
            " to the root leads nowhere from '",
            refused.base.as_str(),
            "': ",
            words.as_str(),
        ],
    )
}

fn of_cause(alloc: Global, cause: &BuildCause) -> Result<String, AllocError>
    ensures { IfOk result (λ text. string_bytes text ≡ said_of_cause cause.now) }
{
    match cause {
        BuildCause::KeywordValue {
            place,
            expected,
            found,
        } => refused_value(alloc, place, expected, found.as_str()),
        BuildCause::BadPattern { place, pattern } => {
            let pattern = quoted(alloc, pattern.as_str())?;
            let at = line_at(alloc, place)?;
            joined(
                alloc,
                &["The pattern ", pattern.as_str(), " is refused", at.as_str()],
            )
        }
        BuildCause::Unevaluated { place } => {
            let at = line_at(alloc, place)?;
            joined(
                alloc,
                &["The keyword is left out by this library", at.as_str()],
            )
        }
        BuildCause::Reference {
            place,
            reference,
            error,
        } => refused_reference(alloc, place, reference.as_str(), error),
        BuildCause::NodeLimit { limit } => {
            let limit = limit.to_string(alloc)?;
            joined(
                alloc,
                &["More than ", limit.as_str(), " schemas are reached"],
            )
        }
        BuildCause::Memory => String::from_str(alloc, "No memory"),
    }
}

fn refused_value(
    alloc: Global,
    place: &SchemaPlace,
    expected: &str,
    found: &str,
) -> Result<String, AllocError>
    ensures { IfOk result (λ text. string_bytes text ≡ said_of_value place.now expected.now found.now) }
{
    let at = line_at(alloc, place)?;
    joined(
        alloc,
        &["Expected ", expected, ", found ", found, at.as_str()],
    )
}

fn refused_reference(
    alloc: Global,
    place: &SchemaPlace,
    reference: &str,
    error: &ReferenceError,
) -> Result<String, AllocError>
    ensures { IfOk result (λ text. string_bytes text ≡ said_of_reference place.now reference.now error.now) }
{
    let reference = quoted(alloc, reference)?;
    let words = words_of(alloc, error)?;
    let at = line_at(alloc, place)?;
    joined(
        alloc,
        &[
            "The reference ",
            reference.as_str(),
            " is refused: ",
            words.as_str(),
            at.as_str(),
        ],
    )
}

fn of_schema(alloc: Global, refused: &RefusedSchema) -> Result<String, AllocError>
    ensures { IfOk result (λ text. (sentence : List ℕ)
        × AreSpelled (description_of refused.now.fault) sentence
        × (string_bytes text ≡ said_of_schema refused.now sentence)) }
{
    let root = refused.place.to_string(alloc)?;
    let place = refused.fault.instance_path().to_pointer(alloc)?;
    let road = refused.fault.evaluation_path().to_pointer(alloc)?;
    let sentence = refused.fault.description(alloc)?;
    joined(
        alloc,
        &[
            "The meta-schema '",
            refused.meta_schema.as_str(),
            "' refuses the schema at '",
            root.as_str(),
            place.as_str(),
            "', by '",
            road.as_str(),
            "': ",
            sentence.as_str(),
        ],
    )
}

// What was looked up.
fn words_of(alloc: Global, error: &ReferenceError) -> Result<String, AllocError>
    ensures { IfOk result (λ text. string_bytes text ≡ said_of_lookup error.now) }
{
    match error {
        ReferenceError::Unretrievable { uri, source } => of_retrieval(alloc, uri, source),
        ReferenceError::PointerToNowhere { pointer } => {
            around(alloc, "nothing stands at the pointer '", pointer, "'")
        }
        ReferenceError::InvalidPercentEncoding { pointer } => {
            around(alloc, "the pointer '", pointer, "' is no text decoded")
        }
        ReferenceError::InvalidArrayIndex { index, .. } => {
            around(alloc, "'", index, "' is no index of an array")
        }
        ReferenceError::NoSuchAnchor { anchor } => {
            around(alloc, "no schema there has the anchor '", anchor, "'")
        }
        ReferenceError::InvalidAnchor { anchor } => around(alloc, "'", anchor, "' is no anchor"),
        ReferenceError::InvalidUri(UriError::Parse { uri } | UriError::Resolve { uri, .. }) => {
            around(alloc, "'", uri, "' is no URI reference taken here")
        }
        ReferenceError::UnknownSpecification { specification } => {
            around(alloc, "the meta-schema '", specification, "' is not known")
        }
        ReferenceError::CircularMetaschema { uri } => {
            around(alloc, "the meta-schema '", uri, "' waits for itself")
        }
        ReferenceError::RetrievalLimit { limit } => {
            let limit = limit.to_string(alloc)?;
            around(alloc, "more than ", &limit, " documents are wanted")
        }
        ReferenceError::Memory => String::from_str(alloc, "no memory"),
    }
}

fn of_retrieval(alloc: Global, uri: &String, source: &RetrieveError) -> Result<String, AllocError>
    ensures { IfOk result (λ text. string_bytes text ≡ said_of_retrieval (string_bytes uri.now) source.now) }
{
    match source {
        RetrieveError::Failed { text } => joined(
            alloc,
            &[
                "the document '",
                uri.as_str(),
                "' is not present, and retrieving it failed: ",
                text.as_str(),
            ],
        ),
        RetrieveError::Refused | RetrieveError::Memory => {
            around(alloc, "the document '", uri, "' is not present")
        }
    }
}

fn around(alloc: Global, before: &str, name: &String, after: &str) -> Result<String, AllocError>
    ensures { IfOk result (λ text. string_bytes text ≡ concat (before.now ∷ string_bytes name.now ∷ after.now ∷ [])) }
{
    joined(alloc, &[before, name.as_str(), after])
}

// The line of a place.
fn line_at(alloc: Global, place: &SchemaPlace) -> Result<String, AllocError>
    ensures { IfOk result (λ text. string_bytes text ≡ line_of place.now) }
{
    let place = place.to_string(alloc)?;
    around(alloc, "\n  at '", &place, "'")
}

fn quoted(alloc: Global, text: &str) -> Result<String, AllocError>
    ensures { IfOk result (λ json. string_bytes json ≡ quoted_text text.now) }
{
    Value::String(String::from_str(alloc, text)?).to_string(alloc)
}
