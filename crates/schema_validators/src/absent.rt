//! References of documents to what is not among them.

ghost use Rattle.std.specs.Prelude.{◌≡◌, ◌⊎◌, ◌++◌, List, map, option_map, None, Some, IfOk, OnOk};
ghost use Rattle.std.specs.List.{AllZip};
ghost use Rattle.schema_definitions.specs.Words.{listed};
ghost use Rattle.schema_definitions.specs.Rounds as rounds;
ghost use Rattle.document_sources.specs.Causes.{IsMemory, NamesDocument};
ghost use Rattle.document_sources.specs.Given.{document_by, documents_by};
ghost use Rattle.document_sources.specs.Seen.{given_of, layer_of};
ghost use Rattle.document_index.specs.Seen.{document_of, standing_of};
ghost use Rattle.document_retrieval.specs.Known.{want_of};
ghost use Rattle.schema_validators.specs.Absent as spec;

use document_index::document::{Document, DocumentName};
use document_index::index::Index;
use document_index::standing::Standing;
use document_index::told::told_standings;
use document_retrieval::layers::layer_above;
use document_retrieval::wants::{Purpose, Want};
use document_sources::document::Document as GivenDocument;
use document_sources::error::Error;
use document_sources::layer::Layer;
use document_sources::named::{not_borne, unknown_specification};
use reached_sites::cause::BuildCause;
use reached_sites::place::SchemaPlace;
use schema_dialects::Dialect;
use schema_dialects::bases::resolved;
use schema_dialects::identifiers::text_at;
use std::alloc::{AllocError, Global};
use std::rc::Rc;
use uri_grammar::components::split_fragment;
use uri_references::uri::Uri;

// The document that a `$ref` leads into.
fn referred(alloc: Global, standing: &Standing<'_>) -> Result<Option<Uri>, AllocError>
    ensures { IfOk result (λ u. u ≡ rounds.referred (standing_of standing.now)) }
{
    let place = &standing.place;
    match text_at(place.contents, "$ref") {
        Some(reference) => resolved(alloc, &place.base, split_fragment(reference).0),
        None => Ok(None),
    }
}

// What a place wants: the meta-schema that it awaits, or else the document that its `$ref` leads into.
fn wanted_at(alloc: Global, standing: &Standing<'_>) -> Result<Option<Want>, AllocError>
    ensures { IfOk result (λ w. listed (option_map want_of w)
        ≡ rounds.wanted_at (standing_of standing.now)) }
{
    if let Some(uri) = &standing.place.awaits {
        return Ok(Some(Want {
            uri: Rc::new(alloc, uri.clone()?)?,
            purpose: Purpose::MetaSchema,
        }));
    }
    match referred(alloc, standing)? {
        Some(uri) => Ok(Some(Want {
            uri: Rc::new(alloc, uri)?,
            purpose: Purpose::Reference,
        })),
        None => Ok(None),
    }
}

// The member by which a place wants a document.
fn wanting(standing: &Standing<'_>) -> &'static str
    ensures { result.now ≡ spec.wanting (standing_of standing.now) }
{
    if standing.place.awaits.is_some() {
        "$schema"
    } else {
        "$ref"
    }
}

// What is wrong where nobody gives a document.
fn refusal(alloc: Global, want: &Want) -> Error
    ensures { IsMemory result ⊎ NamesDocument (want_of want.now).cause result }
{
    match want.purpose {
        Purpose::Reference => not_borne(alloc, want.uri.as_str()),
        Purpose::MetaSchema => unknown_specification(alloc, want.uri.as_str()),
    }
}

fn cause_at(alloc: Global, standing: &Standing<'_>, want: &Want) -> Result<BuildCause, AllocError>
    ensures { IfOk result (spec.NamesAbsent
        (spec.absence (standing_of standing.now) (want_of want.now))) }
{
    let error = refusal(alloc, want);
    if let Error::Memory = error {
        return Err(AllocError);
    }
    let member = wanting(standing);
    let text = text_at(standing.place.contents, member).unwrap_or("");
    Ok(BuildCause::Reference {
        place: SchemaPlace {
            document: standing.name.clone()?,
            path: standing.place.path.push_name(alloc, member)?,
        },
        reference: String::from_str(alloc, text)?,
        error,
    })
}

// Whether one of the documents has the URI.
fn is_added(documents: &[Document<'_>], uri: &str) -> bool
    ensures { result ≡ rounds.is_added (map document_of documents.now) uri.now }
{
    for document in documents {
        if document.name.uri.as_str() == uri {
            return true;
        }
    }
    false
}

fn is_known(index: &Index, documents: &[Document<'_>], uri: &str) -> bool
    ensures { result ≡ spec.is_known_by index.now (map document_of documents.now) uri.now }
{
    index.bearer(uri).is_some() || is_added(documents, uri)
}

// A cause is pushed where a place wants what is not known.
fn push_absent(
    alloc: Global,
    index: &Index,
    documents: &[Document<'_>],
    causes: &mut Vec<BuildCause>,
    standing: &Standing<'_>,
) -> Result<(), AllocError>
    ensures { OnOk result ((found : List spec.Absent)
        → AllZip spec.NamesAbsent found causes.old.items
        → AllZip spec.NamesAbsent (found ++ spec.absent_at (spec.is_known_by index.now
        (map document_of documents.now)) (standing_of standing.now)) causes.new.items) }
{
    if let Some(want) = wanted_at(alloc, standing)? {
        if !is_known(index, documents, want.uri.as_str()) {
            causes.push(cause_at(alloc, standing, &want)?)?;
        }
    }
    Ok(())
}

// The references of documents to what is not among them, in the order in which they are met.
fn absent_from(alloc: Global, documents: &[Document<'_>]) -> Result<Vec<BuildCause>, AllocError>
    ensures { IfOk result (λ v. AllZip spec.NamesAbsent
        (spec.absent_in (map document_of documents.now)) v.items) }
{
    let places = told_standings(alloc, documents)?;
    let index = Index::of(alloc, &places)?;
    let mut causes = Vec::new(alloc);
    for standing in &places {
        push_absent(alloc, &index, documents, &mut causes, standing)?;
    }
    Ok(causes)
}

fn with_draft(
    document: &GivenDocument<'static>,
    layer: Layer,
) -> Result<Document<'static>, AllocError>
    ensures { IfOk result (λ d. document_of d
        ≡ document_by (layer_of layer) (given_of document.now)) }
{
    Ok(Document {
        name: DocumentName {
            layer: layer.number,
            uri: document.uri.clone()?,
        },
        contents: document.contents.share()?,
        default: Dialect::standard(layer.siblings, document.draft.unwrap_or(layer.draft)),
    })
}

/// The documents of a layer. No value is copied.
///
/// # Errors
///
/// Where memory was refused, or a count of owners is full.
pub(crate) fn in_layer(
    alloc: Global,
    given: &[GivenDocument<'static>],
    layer: Layer,
) -> Result<Vec<Document<'static>>, AllocError>
    ensures { IfOk result (λ v. map document_of v.items
        ≡ documents_by (layer_of layer) (map given_of given.now)) }
{
    let mut documents = Vec::new(alloc);
    for document in given {
        documents.push(with_draft(document, layer)?)?;
    }
    Ok(documents)
}

/// The references of the documents of a layer to what is not among them.
///
/// # Errors
///
/// Where memory was refused, or a count of owners is full.
pub(crate) fn absent_alone(
    alloc: Global,
    layer: Layer,
    given: &[GivenDocument<'static>],
) -> Result<Vec<BuildCause>, AllocError>
    ensures { IfOk result (λ v. AllZip spec.NamesAbsent
        (spec.absent_given None (layer_of layer) (map given_of given.now)) v.items) }
{
    let documents = in_layer(alloc, given, layer)?;
    absent_from(alloc, documents.as_slice())
}

/// Those of the meta-schemas by themselves; where these lack nothing, those of them and of documents in a layer behind them.
///
/// # Errors
///
/// Where memory was refused, a count of owners is full, or a `usize` counts no further layer.
pub(crate) fn absent_beside(
    alloc: Global,
    layer: Layer,
    meta_schemas: &[GivenDocument<'static>],
    given: &[GivenDocument<'static>],
) -> Result<Vec<BuildCause>, AllocError>
    ensures { IfOk result (λ v. AllZip spec.NamesAbsent (spec.absent_given
        (Some (map given_of meta_schemas.now)) (layer_of layer) (map given_of given.now)) v.items) }
{
    let mut documents = in_layer(alloc, meta_schemas, layer)?;
    let causes = absent_from(alloc, documents.as_slice())?;
    if !causes.is_empty() {
        return Ok(causes);
    }
    let number = layer_above(documents.as_slice())?;
    let mut own = in_layer(alloc, given, Layer { number, ..layer })?;
    documents.append(&mut own)?;
    absent_from(alloc, documents.as_slice())
}
