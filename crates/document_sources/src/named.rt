//! Errors that name a copy of a text: want of memory where it cannot be copied.

ghost use Rattle.std.specs.Prelude.{◌⊎◌};
ghost use Rattle.schema_definitions.specs.Lookup as lookup;
ghost use Rattle.schema_definitions.specs.DocumentCauses as documents;
ghost use Rattle.document_sources.specs.Causes.{IsMemory, IsRefusal, NamesLookup, NamesDocument};

use crate::error::{Error, RetrieveError, UriError};
use std::alloc::Global;

/// A text that is no URI reference.
pub fn invalid_uri(alloc: Global, text: &str) -> Error
    ensures lookup { IsMemory result ⊎ NamesLookup (lookup.invalid_uri text.now) result }
    ensures document { IsMemory result ⊎ NamesDocument (documents.no_reference text.now) result }
{
    match String::from_str(alloc, text) {
        Ok(uri) => Error::InvalidUri(UriError::Parse { uri }),
        Err(_) => Error::Memory,
    }
}

/// A document that nobody bears, where nobody was asked for it.
pub fn not_borne(alloc: Global, uri: &str) -> Error
    ensures lookup { IsMemory result ⊎ NamesLookup (lookup.unretrievable uri.now) result }
    ensures document { IsMemory result ⊎ NamesDocument (documents.unretrieved uri.now) result }
{
    match String::from_str(alloc, uri) {
        Ok(uri) => Error::unretrievable(uri, RetrieveError::Refused),
        Err(_) => Error::Memory,
    }
}

/// A document that nobody bears, and why the retriever does not give it.
pub fn not_retrieved(alloc: Global, uri: &str, source: RetrieveError) -> Error
    requires { IsRefusal source }
    ensures { IsMemory result ⊎ NamesDocument (documents.unretrieved uri.now) result }
{
    match String::from_str(alloc, uri) {
        Ok(uri) => Error::unretrievable(uri, source),
        Err(_) => Error::Memory,
    }
}

/// A `$schema` that names no known meta-schema.
pub fn unknown_specification(alloc: Global, uri: &str) -> Error
    ensures { IsMemory result ⊎ NamesDocument (documents.unknown_specification uri.now) result }
{
    match String::from_str(alloc, uri) {
        Ok(specification) => Error::unknown_specification(specification),
        Err(_) => Error::Memory,
    }
}

/// An anchor that no schema bears.
pub fn no_such_anchor(alloc: Global, anchor: &str) -> Error
    ensures { IsMemory result ⊎ NamesLookup (lookup.no_such_anchor anchor.now) result }
{
    match String::from_str(alloc, anchor) {
        Ok(anchor) => Error::NoSuchAnchor { anchor },
        Err(_) => Error::Memory,
    }
}

/// An anchor with a `/` in it.
pub fn invalid_anchor(alloc: Global, anchor: &str) -> Error
    ensures { IsMemory result ⊎ NamesLookup (lookup.invalid_anchor anchor.now) result }
{
    match String::from_str(alloc, anchor) {
        Ok(anchor) => Error::InvalidAnchor { anchor },
        Err(_) => Error::Memory,
    }
}

/// A meta-schema that waits for itself, through others.
pub fn circular_metaschema(alloc: Global, uri: &str) -> Error
    ensures { IsMemory result ⊎ NamesDocument (documents.circular_metaschema uri.now) result }
{
    match String::from_str(alloc, uri) {
        Ok(uri) => Error::circular_metaschema(uri),
        Err(_) => Error::Memory,
    }
}
