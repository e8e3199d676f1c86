//! One stage: what the schema places of documents bear, and of which meta-schemas that tells another dialect than the stage before.

ghost use Rattle.std.specs.Prelude.{◌≡◌, ℕ, List, map, IfOk, OnOk, Decides, Some, option_map, if◌then◌else◌};
ghost use Rattle.std.specs.Prelude.{bytes_eq, ◌&&◌, is_some, slice_get};
ghost use Rattle.std.specs.List.{flat_map};
ghost use Rattle.serde_json.specs.View.{view};
ghost use Rattle.schema_definitions.specs.Words.{last_that, listed};
ghost use Rattle.schema_definitions.specs.Identifiers as identifiers;
ghost use Rattle.schema_definitions.specs.Bearers as bearers;
ghost use Rattle.schema_definitions.specs.DocumentCauses as causes;
ghost use Rattle.schema_dialects.specs.Dialects.{dialect_of, dialects_in};
ghost use Rattle.document_index.specs.Seen.{standing_of};
ghost use Rattle.document_laws.specs.Stages as laws;

use crate::standing::Standing;
use schema_dialects::{Dialect, KnownVocabularies, MetaSchemas};
use std::alloc::{AllocError, Global};
use uri_references::uri::Uri;

// Puts what a schema place gives to the schemas that name it under a URI.
fn put(
    alloc: Global,
    borne: &mut MetaSchemas,
    uri: &str,
    standing: &Standing<'_>,
) -> Result<(), AllocError>
    ensures { OnOk result ((q : List ℕ) → dialects_in borne.new q
        ≡ (if bytes_eq uri.now q then Some (bearers.dialect_by
        (standing_of standing.now)) else dialects_in borne.old q)) }
{
    let place = &standing.place;
    let dialect = place.dialect.by_meta_schema(place.contents);
    borne.insert(alloc, uri, dialect)
}

// A root bears its document's URI.
fn put_given_uri(
    alloc: Global,
    borne: &mut MetaSchemas,
    standing: &Standing<'_>,
) -> Result<(), AllocError>
    ensures { OnOk result ((q : List ℕ) → dialects_in borne.new q
        ≡ (if bearers.is_root standing.now.place.path && bytes_eq standing.now.name.uri.value q then Some
        (bearers.dialect_by (standing_of standing.now)) else dialects_in borne.old q)) }
{
    if standing.place.path.is_root() {
        put(alloc, borne, standing.name.uri.as_str(), standing)?;
    }
    Ok(())
}

// A place with an identifier bears its base.
fn put_base(
    alloc: Global,
    borne: &mut MetaSchemas,
    standing: &Standing<'_>,
) -> Result<(), AllocError>
    ensures { OnOk result ((q : List ℕ) → dialects_in borne.new q
        ≡ (if is_some (identifiers.identifier (dialect_of standing.now.place.dialect)
        (view standing.now.place.contents.now)) && bytes_eq standing.now.place.base.value q then Some
        (bearers.dialect_by (standing_of standing.now)) else dialects_in borne.old q)) }
{
    if standing.place.identifier().is_some() {
        put(alloc, borne, standing.place.base.as_str(), standing)?;
    }
    Ok(())
}

fn put_uris(
    alloc: Global,
    borne: &mut MetaSchemas,
    standing: &Standing<'_>,
) -> Result<(), AllocError>
    ensures { OnOk result ((q : List ℕ) → dialects_in borne.new q
        ≡ (if bearers.bears q (standing_of standing.now) then Some
        (bearers.dialect_by (standing_of standing.now)) else dialects_in borne.old q)) }
{
    if standing.place.awaits.is_some() {
        return Ok(());
    }
    put_given_uri(alloc, borne, standing)?;
    put_base(alloc, borne, standing)
}

// What schema places give to the schemas that name them: of several bearers of a URI the last counts.
pub(crate) fn borne_by(alloc: Global, standings: &[Standing<'_>]) -> Result<MetaSchemas, AllocError>
    ensures { IfOk result (λ borne. (q : List ℕ)
        → dialects_in borne q ≡ option_map bearers.dialect_by
        (last_that (bearers.bears q) (map standing_of standings.now))) }
{
    let mut borne = MetaSchemas::none(alloc);
    for standing in standings {
        put_uris(alloc, &mut borne, standing)?;
    }
    Ok(borne)
}

fn are_same(left: Option<KnownVocabularies>, right: Option<KnownVocabularies>) -> bool
    ensures { Decides result (left ≡ right) }
{
    left == right
}

fn is_same(left: Dialect, right: Dialect) -> bool
    ensures { Decides result (left ≡ right) }
{
    left.draft == right.draft
        && are_same(left.required, right.required)
        && left.siblings == right.siblings
}

fn is_told_alike(left: Option<Dialect>, right: Option<Dialect>) -> bool
    ensures { result ≡ causes.is_told_alike (option_map dialect_of left) (option_map dialect_of right) }
{
    match (left, right) {
        (Some(left), Some(right)) => is_same(left, right),
        (None, None) => true,
        _ => false,
    }
}

fn unless_alike(told: &MetaSchemas, after: &MetaSchemas, uri: Uri) -> Option<Uri>
    ensures { listed (option_map causes.circular_metaschema result)
        ≡ laws.unless_alike (dialects_in told.now) (dialects_in after.now) uri }
{
    if is_told_alike(told.get(uri.as_str()), after.get(uri.as_str())) {
        return None;
    }
    Some(uri)
}

// The meta-schema that a schema place names, where two tell other dialects of it.
fn anew_at(
    alloc: Global,
    standing: &Standing<'_>,
    told: &MetaSchemas,
    after: &MetaSchemas,
) -> Result<Option<Uri>, AllocError>
    ensures { IfOk result (λ u. listed (option_map causes.circular_metaschema u)
        ≡ laws.anew_at (dialects_in told.now) (dialects_in after.now) (standing_of standing.now)) }
{
    match standing.place.named_meta_schema(alloc)? {
        Some(uri) => Ok(unless_alike(told, after, uri)),
        None => Ok(None),
    }
}

// The first of those of which two tell other dialects.
pub(crate) fn first_anew(
    alloc: Global,
    standings: &[Standing<'_>],
    told: &MetaSchemas,
    after: &MetaSchemas,
) -> Result<Option<Uri>, AllocError>
    ensures { IfOk result (λ u. option_map causes.circular_metaschema u
        ≡ slice_get (flat_map (laws.anew_at (dialects_in told.now) (dialects_in after.now))
        (map standing_of standings.now)) 0) }
{
    for standing in standings {
        if let Some(uri) = anew_at(alloc, standing, told, after)? {
            return Ok(Some(uri));
        }
    }
    Ok(None)
}
