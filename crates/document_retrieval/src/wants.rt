//! What documents want.

ghost use Rattle.std.specs.Prelude.{◌≡◌, ◌++◌, [], ◌∷◌, ℕ, List, map, option_map, IfOk, OnOk, bytes_eq};
ghost use Rattle.std.specs.List.{list_any};
ghost use Rattle.schema_definitions.specs.Words.{listed};
ghost use Rattle.document_index.specs.Seen.{document_of, standing_of};
ghost use Rattle.document_index.specs.Surveys.{Surveys};
ghost use Rattle.schema_definitions.specs.Rounds as rounds;
ghost use Rattle.document_retrieval.specs.Known.{want_of, has_name, is_known_by};

use crate::names::Names;
use document_index::document::Document;
use document_index::index::Index;
use document_index::standing::Standing;
use document_index::survey::Survey;
use schema_dialects::bases::resolved;
use std::alloc::{AllocError, Global};
use std::rc::Rc;
use uri_grammar::components::split_fragment;
use uri_references::uri::Uri;

/// What a document is wanted for.
#[derive(Clone, Copy, Debug, PartialEq, Eq)]
pub enum Purpose {
    /// A `$ref` leads into it.
    Reference,
    /// A `$schema` names it.
    MetaSchema,
}

/// A document that is wanted.
#[derive(Drop)]
pub struct Want {
    pub uri: Rc<Uri>,
    pub purpose: Purpose,
}

// The document that a `$ref` leads into.
fn referred(alloc: Global, standing: &Standing<'_>) -> Result<Option<Uri>, AllocError>
    ensures { IfOk result (λ u. u ≡ rounds.referred (standing_of standing.now)) }
{
    let place = &standing.place;
    match place.reference() {
        Some(reference) => resolved(alloc, &place.base, split_fragment(reference).0),
        None => Ok(None),
    }
}

fn wanted_at(alloc: Global, standing: &Standing<'_>) -> Result<Option<Want>, AllocError>
    ensures { IfOk result (λ w. listed (option_map want_of w) ≡ rounds.wanted_at (standing_of standing.now)) }
{
    if let Some(uri) = &standing.place.awaits {
        return Ok(Some(Want {
            uri: Rc::new(alloc, uri.clone()?)?,
            purpose: Purpose::MetaSchema,
        }));
    }
    match referred(alloc, standing)? {
        Some(uri) => Ok(Some(Want {
            uri: Rc::new(alloc, uri)?,
            purpose: Purpose::Reference,
        })),
        None => Ok(None),
    }
}

fn is_known(index: &Index, names: &Names, uri: &str) -> bool
    ensures { result ≡ is_known_by index.now names.now uri.now }
{
    index.bearer(uri).is_some() || names.has(uri)
}

// What a place wants is pushed where it is not known, and known from then on.
fn push_wanted(
    alloc: Global,
    index: &Index,
    names: &mut Names,
    wants: &mut Vec<Want>,
    standing: &Standing<'_>,
) -> Result<(), AllocError>
    ensures { OnOk result ((rest : List rounds.Want)
        → (map want_of wants.new.items ++ rounds.further (is_known_by index.now names.new) rest)
        ≡ (map want_of wants.old.items ++ rounds.further (is_known_by index.now names.old)
        (rounds.wanted_at (standing_of standing.now) ++ rest))) }
{
    if let Some(want) = wanted_at(alloc, standing)? {
        if !is_known(index, names, want.uri.as_str()) {
            names.put(alloc, want.uri.as_str())?;
            wants.push(want)?;
        }
    }
    Ok(())
}

// The URIs of the documents.
fn names_of(alloc: Global, documents: &[Document<'_>]) -> Result<Names, AllocError>
    ensures { IfOk result (λ names. (q : List ℕ)
        → has_name names q ≡ list_any (λ d. bytes_eq d.uri q) (map document_of documents.now)) }
{
    let mut names = Names::new(alloc);
    for document in documents {
        names.put(alloc, document.name.uri.as_str())?;
    }
    Ok(names)
}

// What documents want and is not at hand, each URI once, in the order met. They are read under all that they tell of meta-schemas. It takes
// a few look-ups in maps for each schema place that is not plain.
pub(crate) fn wants_of(
    alloc: Global,
    documents: &[Document<'_>],
    survey: &Survey<'_>,
) -> Result<Vec<Want>, AllocError>
    requires { Surveys survey.now (map document_of documents.now) }
    ensures { IfOk result (λ v. map want_of v.items ≡ rounds.wants (map document_of documents.now)) }
{
    let mut names = names_of(alloc, documents)?;
    let mut wants = Vec::new(alloc);
    for standing in &survey.places {
        push_wanted(alloc, &survey.index, &mut names, &mut wants, standing)?;
    }
    Ok(wants)
}
