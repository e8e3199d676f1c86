//! The texts of documents for which they are refused.

ghost use Rattle.std.specs.Prelude.{◌≡◌, true, false, None, IfOk, IfSome};
ghost use Rattle.std.specs.List.{All, Contains};
ghost use Rattle.schema_definitions.specs.DocumentCauses.{DocumentCause};
ghost use Rattle.document_sources.specs.Causes.{IsRefusal, NamesDocument};
ghost use Rattle.schema_validators.specs.RefusedTexts as spec;

use crate::error::RefusedText;
use document_sources::error::{Error, RetrieveError, UriError};
use reached_sites::cause::BuildCause;
use std::alloc::{AllocError, Global};

fn is_refusal(source: &RetrieveError) -> bool
    ensures refused { result ≡ true → IsRefusal source.now }
    ensures memory { result ≡ false → IsRefusal source.now → ⊥ }
{
    match source {
        RetrieveError::Refused | RetrieveError::Failed { .. } => true,
        RetrieveError::Memory => false,
    }
}

// Whether two errors name one cause that documents have, by a text of each. Why a retriever refused is left aside.
fn name_one(error: &Error, other: &Error) -> bool
    ensures same { result ≡ true → (cause : DocumentCause)
        → NamesDocument cause other.now → NamesDocument cause error.now }
    ensures others { result ≡ false → (cause : DocumentCause)
        → NamesDocument cause other.now → NamesDocument cause error.now → ⊥ }
{
    match (error, other) {
        (Error::Unretrievable { uri, source }, Error::Unretrievable { uri: other, .. }) => {
            uri == other && is_refusal(source)
        }
        (
            Error::InvalidUri(UriError::Parse { uri }),
            Error::InvalidUri(UriError::Parse { uri: other }),
        ) => uri == other,
        (
            Error::UnknownSpecification { specification },
            Error::UnknownSpecification {
                specification: other,
            },
        ) => specification == other,
        (Error::CircularMetaschema { uri }, Error::CircularMetaschema { uri: other }) => {
            uri == other
        }
        _ => false,
    }
}

// Whether an error names what a cause has at a text.
fn is_of(error: &Error, cause: &BuildCause) -> bool
    ensures same { result ≡ true → spec.IsOf error.now cause.now }
    ensures others { result ≡ false → spec.IsNotOf error.now cause.now }
{
    match cause {
        BuildCause::Reference { error: own, .. } => name_one(error, own),
        _ => false,
    }
}

// The first of some causes that an error is of.
fn first_of<'c>(causes: &'c [BuildCause], error: &Error) -> Option<&'c BuildCause>
    ensures among { IfSome result (λ c. Contains causes.now c.now) }
    ensures named { IfSome result (λ c. spec.IsOf error.now c.now) }
    ensures none { result ≡ None → All (spec.IsNotOf error.now) causes.now }
{
    for cause in causes {
        if is_of(error, cause) {
            return Some(cause);
        }
    }
    None
}

// The text of a cause with its place, where it has one.
fn text_in(alloc: Global, cause: &BuildCause) -> Result<Option<Box<RefusedText>>, AllocError>
    ensures { IfOk result (spec.IsTextIn cause.now) }
{
    match cause {
        BuildCause::Reference {
            place,
            reference,
            ..
        } => {
            let (place, reference) = (place.shared()?, reference.clone()?);
            Ok(Some(Box::new(alloc, RefusedText { place, reference })?))
        }
        _ => Ok(None),
    }
}

/// The text of the first of some causes that an error is of, if there is one.
///
/// # Errors
///
/// Where memory was refused, or a count of owners is full.
pub(crate) fn text_among(
    alloc: Global,
    causes: &[BuildCause],
    error: &Error,
) -> Result<Option<Box<RefusedText>>, AllocError>
    ensures { IfOk result (spec.IsFoundIn error.now causes.now) }
{
    match first_of(causes, error) {
        Some(cause) => text_in(alloc, cause),
        None => Ok(None),
    }
}
