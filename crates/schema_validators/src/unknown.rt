//! Members of schemas whose names are no keywords of the drafts there.

ghost use Rattle.std.specs.Prelude.{◌≡◌, ◌++◌, ◌∷◌, [], map, None, IfOk, OnOk};
ghost use Rattle.schema_drafts.specs.Drafts.{is_listed};
ghost use Rattle.schema_definitions.specs.Bearers as bearers;
ghost use Rattle.schema_dialects.specs.Dialects.{dialects_in};
ghost use Rattle.schema_places.specs.Seen.{place_of};
ghost use Rattle.document_index.specs.Seen.{document_of, name_of};
ghost use Rattle.schema_registries.specs.Pointers as pointers;
ghost use Rattle.schema_registries.specs.Seen.{documents_in_registry};
ghost use Rattle.schema_validators.specs.Unknown as spec;

use document_index::document::{Document, DocumentName};
use reached_sites::place::SchemaPlace;
use schema_dialects::MetaSchemas;
use schema_drafts::draft::Draft;
use schema_places::document::places;
use schema_places::place::Place;
use schema_registries::SchemaRegistry;
use schema_registries::place_pointers::document_at;
use serde_json::Value;
use std::alloc::{AllocError, Global};
use uri_references::uri::Uri;

const IN_DRAFT_4: [&str; 4] = ["title", "description", "default", "format"];

const IN_DRAFT_6: [&str; 5] = ["examples", "title", "description", "default", "format"];

const IN_DRAFT_7: [&str; 9] = [
    "readOnly",
    "writeOnly",
    "contentEncoding",
    "contentMediaType",
    "examples",
    "title",
    "description",
    "default",
    "format",
];

const IN_2019: [&str; 11] = [
    "deprecated",
    "contentSchema",
    "readOnly",
    "writeOnly",
    "contentEncoding",
    "contentMediaType",
    "examples",
    "title",
    "description",
    "default",
    "format",
];

/// A member of a schema whose name is no keyword of the draft there.
#[derive(Debug, Drop)]
pub struct UnknownKeyword {
    /// Where it stands.
    pub place: SchemaPlace,
    /// Its name.
    pub name: String,
    /// The draft by which the schema is read.
    pub draft: Draft,
}

fn is_among(names: &[&str], name: &str) -> bool
    ensures { result ≡ is_listed name.now (map (λ k. k.now) names.now) }
{
    for listed in names {
        if name == *listed {
            return true;
        }
    }
    false
}

// Whether a keyword of the draft tells of a schema, or of what a text holds, and asserts nothing.
fn only_tells(draft: Draft, name: &str) -> bool
    ensures { result ≡ is_listed name.now (spec.told_in draft) }
{
    match draft {
        Draft::Draft4 => is_among(&IN_DRAFT_4, name),
        Draft::Draft6 => is_among(&IN_DRAFT_6, name),
        Draft::Draft7 => is_among(&IN_DRAFT_7, name),
        Draft::Draft201909 | Draft::Draft202012 | Draft::Unknown => is_among(&IN_2019, name),
    }
}

fn is_unknown(draft: Draft, name: &str) -> bool
    ensures { result ≡ spec.is_unknown draft name.now }
{
    !(draft.is_known_keyword(name) || only_tells(draft, name))
}

fn unknown_at(
    alloc: Global,
    document: &DocumentName,
    place: &Place<'_>,
    name: &str,
) -> Result<UnknownKeyword, AllocError>
    ensures { IfOk result (λ u. spec.unknown_from u ≡ spec.unknown_name (name_of document.now)
        (place_of place.now) name.now) }
{
    Ok(UnknownKeyword {
        place: SchemaPlace {
            document: document.clone()?,
            path: place.path.push_name(alloc, name)?,
        },
        name: String::from_str(alloc, name)?,
        draft: place.dialect.draft,
    })
}

// Puts those of a schema behind others.
fn push_unknown(
    alloc: Global,
    document: &DocumentName,
    place: &Place<'_>,
    found: &mut Vec<UnknownKeyword>,
) -> Result<(), AllocError>
    ensures { OnOk result (map spec.unknown_from found.new.items ≡ map spec.unknown_from found.old.items
        ++ spec.unknown_at (name_of document.now) (place_of place.now)) }
{
    if let Value::Object(members) = place.contents {
        for (name, _) in members.iter() {
            let name = name.as_str();
            if is_unknown(place.dialect.draft, name) {
                found.push(unknown_at(alloc, document, place, name)?)?;
            }
        }
    }
    Ok(())
}

fn unknown_under(
    alloc: Global,
    known: &MetaSchemas,
    document: &Document<'_>,
) -> Result<Vec<UnknownKeyword>, AllocError>
    ensures { IfOk result (λ v. map spec.unknown_from v.items ≡ spec.unknown_under (dialects_in known.now)
        (document_of document.now)) }
{
    let places = places(
        alloc,
        known,
        &document.name.uri,
        document.default,
        document.contents.value(),
    )?;
    let mut found = Vec::new(alloc);
    for place in &places {
        push_unknown(alloc, &document.name, place, &mut found)?;
    }
    Ok(found)
}

/// The members of the schemas of a registry's document whose names are no keywords of the draft there, schema by schema as `build_map` has
/// them: `nmae`, `additionalItems` by 2020-12, and names that begin with `x-` too. Keywords that only tell something, as `title` and
/// `format`, are known; members of what is no schema, as of `properties` or `default`, are not looked at.
///
/// Of several documents of the URI the last counts, an own one before a parent's; where there is none there are none.
///
/// # Errors
///
/// Where memory was refused, or a count of owners is full.
pub fn unknown_keywords(
    alloc: Global,
    registry: &SchemaRegistry,
    document: &Uri,
) -> Result<Vec<UnknownKeyword>, AllocError>
    ensures unknown { IfOk result (λ v. (d : bearers.Document)
        → pointers.IsDocumentAt (documents_in_registry registry.now) document.now d
        → map spec.unknown_from v.items ≡ spec.unknown_of (documents_in_registry registry.now) d) }
    ensures none { IfOk result (λ v. pointers.document_at (documents_in_registry registry.now) document.now
        ≡ None → v.items ≡ []) }
{
    let Some(found) = document_at(registry.registry().documents(), document) else {
        return Ok(Vec::new(alloc));
    };
    let resolver = registry.registry().resolver(document.clone()?)?;
    unknown_under(alloc, resolver.meta_schemas(), found)
}
