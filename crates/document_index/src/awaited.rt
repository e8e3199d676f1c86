//! Why a meta-schema that is awaited is not known.

ghost use Rattle.std.specs.Prelude.{◌≡◌, ℕ, List, [], ◌∷◌, map, length, suc, IfOk, Some, Option, option_map};
ghost use Rattle.std.specs.Prelude.{option_and_then};
ghost use Rattle.std.specs.List.{filter};
ghost use Rattle.std.specs.Prelude.{is_some};
ghost use Rattle.serde_json.specs.View.{view};
ghost use Rattle.schema_drafts.specs.declared.draft.Draft.TheVariants as drafts;
ghost use Rattle.schema_definitions.specs.Words.{last_that};
ghost use Rattle.schema_definitions.specs.Identifiers as identifiers;
ghost use Rattle.schema_definitions.specs.Places.{standard};
ghost use Rattle.schema_definitions.specs.Bearers as bearers;
ghost use Rattle.schema_definitions.specs.DocumentCauses as causes;
ghost use Rattle.document_index.specs.Seen.{standing_of};
ghost use Rattle.document_index.specs.Awaited.{AwaitedIn, cause_of, awaited_among};

use crate::standing::Standing;
use schema_dialects::Dialect;
use schema_dialects::bases::resolved;
use schema_dialects::identifiers::identifier;
use schema_drafts::draft::Draft;
use std::alloc::{AllocError, Global};
use uri_references::uri::Uri;

/// Why a meta-schema that is awaited is not known.
#[derive(Debug, Drop)]
pub enum Unsettled {
    /// No document and no schema inside one bears its URI.
    Unknown(Uri),
    /// It awaits a meta-schema that awaits one in turn, and so on.
    Circular(Uri),
}

// The URI that a schema bears once its meta-schema is known, whatever that is.
fn own_uri(alloc: Global, standing: &Standing<'_>) -> Result<Option<Uri>, AllocError>
    ensures { IfOk result (λ u. u ≡ option_and_then (identifiers.resolved standing.now.place.base.value)
        (identifiers.identifier (standard standing.now.place.dialect.siblings drafts.Unknown)
        (view standing.now.place.contents.now))) }
{
    let unknown = Dialect::standard(standing.place.dialect.siblings, Draft::Unknown);
    match identifier(unknown, standing.place.contents) {
        Some(text) => resolved(alloc, &standing.place.base, text),
        None => Ok(None),
    }
}

fn would_be(alloc: Global, uri: &str, standing: &Standing<'_>) -> Result<bool, AllocError>
    ensures { IfOk result (λ b. b ≡ causes.would_bear uri.now (standing_of standing.now)) }
{
    if standing.place.awaits.is_none() {
        return Ok(false);
    }
    if standing.place.path.is_root() && standing.name.uri.as_str() == uri {
        return Ok(true);
    }
    match own_uri(alloc, standing)? {
        Some(own) => Ok(uri == own.as_str()),
        None => Ok(uri.is_empty()),
    }
}

// What the last schema place awaits that bears a URI once its meta-schema is known.
fn next_awaited(
    alloc: Global,
    standings: &[Standing<'_>],
    uri: &str,
) -> Result<Option<Uri>, AllocError>
    ensures { IfOk result (λ u. u ≡ awaited_among (map standing_of standings.now) uri.now) }
{
    let mut next: Option<&Uri> = None;
    for standing in standings {
        if would_be(alloc, uri, standing)? {
            next = standing.place.awaits.as_ref();
        }
    }
    match next {
        Some(next) => Ok(Some(next.clone()?)),
        None => Ok(None),
    }
}

fn how_many_await(standings: &[Standing<'_>]) -> usize
    ensures { result ≡ length (filter (λ s. is_some s.place.awaits) (map standing_of standings.now)) }
{
    let mut count: usize = 0;
    for standing in standings {
        if standing.place.awaits.is_some() {
            count += 1;
        }
    }
    count
}

/// Why a meta-schema is not known that a schema place awaits, from the schema places of documents under all that they tell: upward from it,
/// each awaited by the one before, to one that nobody bears, or round a circle.
///
/// For each step it goes over the places once; there are at most as many steps as places that await.
///
/// # Errors
///
/// Where memory was refused.
pub fn awaited_cause(
    alloc: Global,
    standings: &[Standing<'_>],
    uri: Uri,
) -> Result<Unsettled, AllocError>
    ensures { IfOk result (λ c. (docs : bearers.Documents) → AwaitedIn docs (map standing_of standings.now)
        → cause_of c ≡ causes.awaited_cause docs (suc (causes.how_many_await docs)) uri) }
{
    let mut awaited = uri;
    let mut left = how_many_await(standings);
    while let Some(next) = next_awaited(alloc, standings, awaited.as_str())? {
        awaited = next;
        if left == 0 {
            return Ok(Unsettled::Circular(awaited));
        }
        left -= 1;
    }
    Ok(Unsettled::Unknown(awaited))
}
