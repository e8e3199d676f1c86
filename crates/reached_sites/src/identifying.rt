//! Identifiers where they stand.

ghost use Rattle.std.specs.Prelude.{◌≡◌, [], IfErr, OnOk};
ghost use Rattle.serde_json.specs.View.{view};
ghost use Rattle.schema_definitions.specs.Identifiers.{identifier_text as identifier_text_in};
ghost use Rattle.schema_definitions.specs.Rows.{identifier_causes};
ghost use Rattle.schema_definitions.specs.Sites as sites;
ghost use Rattle.schema_dialects.specs.Dialects.{dialect_of};
ghost use Rattle.reached_sites.specs.Causes.{RefusesIdentifier, TellsIdentifier};
ghost use Rattle.reached_sites.specs.Visits.{Met};

use crate::cause::BuildCause;
use crate::visit::Visit;
use document_sources::error::{Error, UriError};
use schema_dialects::identifiers::identifier_text;
use std::alloc::Global;
use uri_grammar::grammar::is_uri_reference;

/// Whether the identifier of a schema, if it has one that counts, is a URI reference.
///
/// # Errors
///
/// Where it is none, where memory was refused, or a count of owners is full.
pub fn check_identifier(alloc: Global, visit: &Visit<'_>) -> Result<(), BuildCause>
    ensures right { OnOk result ((s : sites.Site) → Met visit.now s → identifier_causes s ≡ []) }
    ensures refused { IfErr result (λ e. (s : sites.Site) → Met visit.now s → RefusesIdentifier s e) }
    ensures tells { IfErr result (TellsIdentifier
        (identifier_text_in (dialect_of visit.now.site.dialect) (view visit.now.site.contents.now))) }
{
    let Some(text) = identifier_text(visit.site.dialect, visit.site.contents) else {
        return Ok(());
    };
    if is_uri_reference(text) {
        return Ok(());
    }
    let uri = String::from_str(alloc, text)?;
    Err(BuildCause::Reference {
        place: visit.point.place.shared()?,
        reference: String::from_str(alloc, text)?,
        error: Error::InvalidUri(UriError::Parse { uri }),
    })
}
