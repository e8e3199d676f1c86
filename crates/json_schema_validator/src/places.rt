//! Why there is no room for a document inside a root.

ghost use Rattle.std.specs.Prelude.{◌≡◌, ◌⊎◌, [], ◌∷◌, codes, IfOk, IfErr};
ghost use Rattle.json_values.specs.Parts.{name};
ghost use Rattle.uri_references.specs.Identity.{identity_of};
ghost use Rattle.reached_sites.specs.Places.{place_in};
ghost use Rattle.schema_validators.specs.declared.error.BuildError.TheVariants.{Memory};
ghost use Rattle.json_schema_validator.specs.Rooms.{NamesRootUri, NamesWord};

use document_index::document::DocumentName;
use document_sources::error::Error;
use document_sources::uri::document_uri;
use reached_sites::cause::BuildCause;
use reached_sites::place::SchemaPlace;
use reached_sites::refusing::shown;
use schema_registries::{DocumentError, Path};
use schema_validators::BuildError;
use serde_json::Value;
use std::alloc::{AllocError, Global};

// The place of a root.
fn root_place(alloc: Global, root_uri: &str) -> Result<SchemaPlace, BuildError>
    ensures ok { IfOk result (λ p. place_in p ≡ record { document = 0 ∷ identity_of root_uri.now; path = [] }) }
    ensures refused { IfErr result (λ e. (e ≡ Memory) ⊎ NamesRootUri root_uri.now e) }
{
    match document_uri(alloc, root_uri) {
        Ok(uri) => Ok(SchemaPlace {
            document: DocumentName { layer: 0, uri },
            path: Path::root(),
        }),
        Err(Error::InvalidUri(error)) => {
            Err(BuildError::Document(DocumentError::InvalidUri(error)))
        }
        Err(_) => Err(BuildError::Memory),
    }
}

/// A root that is no object.
pub(crate) fn no_object(
    alloc: Global,
    root_uri: &str,
    root: &Value,
) -> Result<BuildError, AllocError>
    ensures { IfOk result (NamesWord root_uri.now [] (codes "object")) }
{
    match root_place(alloc, root_uri) {
        Ok(place) => Ok(BuildError::Schema(BuildCause::KeywordValue {
            place,
            expected: "object",
            found: shown(alloc, root)?,
        })),
        Err(BuildError::Memory) => Err(AllocError),
        Err(error) => Ok(error),
    }
}

/// A `$defs` that is none, or has the name.
pub(crate) fn not_fresh(
    alloc: Global,
    root_uri: &str,
    root: &Value,
) -> Result<BuildError, AllocError>
    ensures { IfOk result (NamesWord root_uri.now (name (codes "$defs") ∷ []) (codes "fresh name")) }
{
    match root_place(alloc, root_uri) {
        Ok(place) => Ok(BuildError::Schema(BuildCause::KeywordValue {
            place: place.member(alloc, "$defs")?,
            expected: "fresh name",
            found: shown(alloc, root.get("$defs").unwrap_or(root))?,
        })),
        Err(BuildError::Memory) => Err(AllocError),
        Err(error) => Ok(error),
    }
}
