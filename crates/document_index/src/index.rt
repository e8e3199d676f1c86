//! The index of the schema places that bear a URI or an anchor.

ghost use Rattle.std.specs.Prelude.{◌≡◌, ℕ, List, map, IfOk, OnOk, Some, option_map, option_and_then};
ghost use Rattle.std.specs.Prelude.{if◌then◌else◌, bytes_eq, ◌&&◌};
ghost use Rattle.std.specs.Prelude.{◌||◌, is_some, string_bytes};
ghost use Rattle.serde_json.specs.View.{view};
ghost use Rattle.schema_definitions.specs.Words as words;
ghost use Rattle.schema_definitions.specs.Identifiers as identifiers;
ghost use Rattle.schema_definitions.specs.Bearers as bearers;
ghost use Rattle.schema_dialects.specs.Dialects.{dialect_of};
ghost use Rattle.document_index.specs.Seen.{standing_of, located_of};
ghost use Rattle.document_index.specs.Located.{kept_of};
ghost use Rattle.document_index.specs.Indexes.{bearer_of, named, anchor_named};

use crate::names::dynamic_names;
use crate::standing::Standing;
use schema_dialects::Dialect;
use schema_steps::Path;
use std::alloc::{AllocError, Global};
use std::collections::BTreeMap;
use std::rc::Rc;
use uri_references::uri::Uri;

/// What is kept of a schema place that bears a URI or an anchor when the documents are no longer borrowed.
#[derive(Drop)]
pub struct Bearer {
    /// The document's position.
    pub document: usize,
    /// The path from the document's root.
    pub path: Path,
    /// The URI against which references in the schema are resolved.
    pub base: Rc<Uri>,
    /// The dialect by which the schema is read.
    pub dialect: Dialect,
}

/// The last bearer of each URI, and of each anchor and each dynamic anchor under its base, and the names of the dynamic anchors.
#[derive(Drop)]
pub struct Index {
    by_uri: BTreeMap<String, Bearer>,
    by_anchor: BTreeMap<String, BTreeMap<String, Bearer>>,
    by_dynamic_anchor: BTreeMap<String, BTreeMap<String, Bearer>>,
    dynamic_names: Vec<String>,
}

fn bearer_at(standing: &Standing<'_>) -> Result<Bearer, AllocError>
    ensures { IfOk result (λ b. bearer_of b ≡ kept_of (located_of standing.now)) }
{
    Ok(Bearer {
        document: standing.document,
        path: standing.place.path.clone()?,
        base: standing.place.base.clone()?,
        dialect: standing.place.dialect,
    })
}

// Puts what is kept of a place under a name, in the place of what stood there.
fn put(
    alloc: Global,
    names: &mut BTreeMap<String, Bearer>,
    name: &str,
    standing: &Standing<'_>,
) -> Result<(), AllocError>
    ensures { OnOk result ((q : List ℕ) → named names.new q
        ≡ (if bytes_eq name.now q then Some (kept_of (located_of standing.now)) else named names.old q)) }
{
    names.insert(String::from_str(alloc, name)?, bearer_at(standing)?)?;
    Ok(())
}

// A root bears its document's URI.
fn put_given_uri(
    alloc: Global,
    by_uri: &mut BTreeMap<String, Bearer>,
    standing: &Standing<'_>,
) -> Result<(), AllocError>
    ensures { OnOk result ((q : List ℕ) → named by_uri.new q
        ≡ (if bearers.is_root standing.now.place.path && bytes_eq standing.now.name.uri.value q then Some
        (kept_of (located_of standing.now)) else named by_uri.old q)) }
{
    if standing.place.path.is_root() {
        put(alloc, by_uri, standing.name.uri.as_str(), standing)?;
    }
    Ok(())
}

// A place with an identifier bears its base.
fn put_base(
    alloc: Global,
    by_uri: &mut BTreeMap<String, Bearer>,
    standing: &Standing<'_>,
) -> Result<(), AllocError>
    ensures { OnOk result ((q : List ℕ) → named by_uri.new q
        ≡ (if is_some (identifiers.identifier (dialect_of standing.now.place.dialect)
        (view standing.now.place.contents.now)) && bytes_eq standing.now.place.base.value q then Some
        (kept_of (located_of standing.now)) else named by_uri.old q)) }
{
    if standing.place.identifier().is_some() {
        put(alloc, by_uri, standing.place.base.as_str(), standing)?;
    }
    Ok(())
}

fn put_uris(
    alloc: Global,
    by_uri: &mut BTreeMap<String, Bearer>,
    standing: &Standing<'_>,
) -> Result<(), AllocError>
    ensures { OnOk result ((q : List ℕ) → named by_uri.new q
        ≡ (if bearers.bears q (standing_of standing.now) then Some
        (kept_of (located_of standing.now)) else named by_uri.old q)) }
{
    if standing.place.awaits.is_some() {
        return Ok(());
    }
    put_given_uri(alloc, by_uri, standing)?;
    put_base(alloc, by_uri, standing)
}

// Puts a name under the base of the place.
fn put_under_base(
    alloc: Global,
    by_anchor: &mut BTreeMap<String, BTreeMap<String, Bearer>>,
    name: &str,
    standing: &Standing<'_>,
) -> Result<(), AllocError>
    ensures { OnOk result ((b q : List ℕ) → anchor_named by_anchor.new b q
        ≡ (if bytes_eq standing.now.place.base.value b && bytes_eq name.now q then Some
        (kept_of (located_of standing.now)) else anchor_named by_anchor.old b q)) }
{
    if let Some(names) = by_anchor.get_mut(standing.place.base.as_str()) {
        return put(alloc, names, name, standing);
    }
    let mut names = BTreeMap::new(alloc);
    put(alloc, &mut names, name, standing)?;
    by_anchor.insert(
        String::from_str(alloc, standing.place.base.as_str())?,
        names,
    )?;
    Ok(())
}

fn put_anchor(
    alloc: Global,
    by_anchor: &mut BTreeMap<String, BTreeMap<String, Bearer>>,
    name: Option<&str>,
    standing: &Standing<'_>,
) -> Result<(), AllocError>
    ensures { OnOk result ((b q : List ℕ) → anchor_named by_anchor.new b q
        ≡ (if bytes_eq standing.now.place.base.value b && words.has_text q
        (words.listed (option_map (λ t. t.now) name.entry)) then Some
        (kept_of (located_of standing.now)) else anchor_named by_anchor.old b q)) }
{
    match name {
        Some(name) => put_under_base(alloc, by_anchor, name, standing),
        None => Ok(()),
    }
}

fn put_anchors(
    alloc: Global,
    by_anchor: &mut BTreeMap<String, BTreeMap<String, Bearer>>,
    standing: &Standing<'_>,
) -> Result<(), AllocError>
    ensures { OnOk result ((b q : List ℕ) → anchor_named by_anchor.new b q
        ≡ (if bearers.bears_anchor identifiers.anchors b q (standing_of standing.now) then Some
        (kept_of (located_of standing.now)) else anchor_named by_anchor.old b q)) }
{
    let place = &standing.place;
    if place.awaits.is_some() {
        return Ok(());
    }
    let name = place.anchor();
    put_anchor(alloc, by_anchor, name, standing)?;
    let dynamic_name = place.dynamic_anchor();
    put_anchor(alloc, by_anchor, dynamic_name, standing)
}

fn put_dynamic_anchor(
    alloc: Global,
    by_anchor: &mut BTreeMap<String, BTreeMap<String, Bearer>>,
    standing: &Standing<'_>,
) -> Result<(), AllocError>
    ensures { OnOk result ((b q : List ℕ) → anchor_named by_anchor.new b q
        ≡ (if bearers.bears_anchor identifiers.dynamic_anchors b q (standing_of standing.now) then Some
        (kept_of (located_of standing.now)) else anchor_named by_anchor.old b q)) }
{
    let place = &standing.place;
    if place.awaits.is_some() {
        return Ok(());
    }
    let name = place.dynamic_anchor();
    put_anchor(alloc, by_anchor, name, standing)
}

impl Index {
    ghost use Rattle.document_index.specs.Indexes.{bearer_in, anchored_in, dynamically_anchored_in};
    ghost use Rattle.document_index.specs.Indexes.{dynamic_names_in, Indexes};

    /// The index of schema places in the order in which they stand: of several bearers the last counts.
    ///
    /// It takes a look-up in a map for each URI and each anchor borne, goes over the places once more for the names of dynamic anchors, and
    /// copies these texts and nothing else.
    ///
    /// # Errors
    ///
    /// Where memory was refused, or a count of owners is full.
    pub fn of(alloc: Global, standings: &[Standing<'_>]) -> Result<Index, AllocError>
        ensures { IfOk result (λ i. Indexes i (map located_of standings.now)) }
    {
        let mut by_uri = BTreeMap::new(alloc);
        let mut by_anchor = BTreeMap::new(alloc);
        let mut by_dynamic_anchor = BTreeMap::new(alloc);
        for standing in standings {
            put_uris(alloc, &mut by_uri, standing)?;
            put_anchors(alloc, &mut by_anchor, standing)?;
            put_dynamic_anchor(alloc, &mut by_dynamic_anchor, standing)?;
        }
        Ok(Index {
            by_uri,
            by_anchor,
            by_dynamic_anchor,
            dynamic_names: dynamic_names(alloc, standings)?,
        })
    }

    /// The last bearer of a URI.
    pub fn bearer(&self, uri: &str) -> Option<&Bearer>
        ensures { option_map (λ b. bearer_of b.now) result ≡ bearer_in self.now uri.now }
    {
        self.by_uri.get(uri)
    }

    /// The last bearer of an anchor under a base.
    pub fn anchored(&self, base: &str, name: &str) -> Option<&Bearer>
        ensures { option_map (λ b. bearer_of b.now) result ≡ anchored_in self.now base.now name.now }
    {
        self.by_anchor.get(base)?.get(name)
    }

    /// The last bearer of a dynamic anchor under a base.
    pub fn dynamically_anchored(&self, base: &str, name: &str) -> Option<&Bearer>
        ensures { option_map (λ b. bearer_of b.now) result ≡ dynamically_anchored_in self.now base.now name.now }
    {
        self.by_dynamic_anchor.get(base)?.get(name)
    }

    /// The names that some schema place bears as a dynamic anchor, each once, by their first occurrence.
    pub fn dynamic_names(&self) -> &[String]
        ensures { map string_bytes result.now ≡ dynamic_names_in self.now }
    {
        self.dynamic_names.as_slice()
    }
}
