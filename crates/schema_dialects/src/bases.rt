//! The base URI and the dialect of a schema.

ghost use Rattle.std.specs.Prelude.{◌≡◌, IfOk, codes, option_map, option_and_then};
ghost use Rattle.std.specs.Prelude as std;
ghost use Rattle.serde_json.specs.View.{view};
ghost use Rattle.json_values.specs.Parts.{Part};
ghost use Rattle.uri_grammar.specs.Texts.{cut_at};
ghost use Rattle.schema_dialects.specs.Passed as documents;
ghost use Rattle.schema_drafts.specs.Drafts as drafts;
ghost use Rattle.schema_dialects.specs.Dialects.{dialect_of, dialects_in};
ghost use Rattle.schema_dialects.specs.Seen.{named_of, place_at};

use crate::identifiers::{identifier, schema_in_force};
use crate::{Dialect, MetaSchemas};
use schema_drafts::draft::draft_named;
use serde_json::Value;
use std::alloc::{AllocError, Global};
use std::rc::Rc;
use uri_grammar::components::split_fragment;
use uri_references::error::Error;
use uri_references::uri;
use uri_references::uri::Uri;

/// What a `$schema` gives: a dialect, or the URI of a meta-schema that is not known.
#[derive(Drop)]
pub enum Named {
    Known(Dialect),
    Awaited(Uri),
}

/// The base URI and the dialect of a schema, and the URI of the meta-schema that it names where that is not known. The identifier of
/// such a schema is not read.
#[derive(Drop)]
pub struct Settled {
    pub base: Rc<Uri>,
    pub dialect: Dialect,
    pub awaits: Option<Uri>,
}

/// A reference against a base, in normal form, and none where the text is no URI reference (RFC 3986, section 5.2).
///
/// It takes time in the length of both texts.
///
/// # Errors
///
/// Where memory was refused.
pub fn resolved(alloc: Global, base: &Uri, reference: &str) -> Result<Option<Uri>, AllocError>
    ensures { IfOk result (λ u. u ≡ documents.resolved base.now reference.now) }
{
    match uri::resolve_against(alloc, base, reference) {
        Ok(uri) => Ok(Some(uri)),
        Err(Error::InvalidUri(_)) => Ok(None),
        Err(Error::Memory) => Err(AllocError),
    }
}

fn own_base(
    alloc: Global,
    outer: &Rc<Uri>,
    dialect: Dialect,
    contents: &Value,
) -> Result<Rc<Uri>, AllocError>
    ensures { IfOk result (λ r. r.value ≡ documents.own_base outer.now.value (dialect_of dialect) (view contents.now)) }
{
    let Some(text) = identifier(dialect, contents) else {
        return outer.clone();
    };
    match resolved(alloc, outer, text)? {
        Some(base) => Ok(Rc::new(alloc, base)?),
        None => outer.clone(),
    }
}

fn meta_schema_uri(alloc: Global, text: &str) -> Result<Option<Uri>, AllocError>
    ensures { IfOk result (λ u. u ≡ documents.meta_schema_uri text.now) }
{
    let base = match Uri::parse(alloc, "json-schema:///") {
        Ok(base) => base,
        Err(_) => return Err(AllocError),
    };
    resolved(alloc, &base, split_fragment(text).0)
}

fn uri_named(alloc: Global, text: &str) -> Result<Option<Uri>, AllocError>
    ensures { IfOk result (λ u. u ≡ documents.uri_named text.now (drafts.draft_named text.now)) }
{
    match draft_named(text) {
        Some(_) => Ok(None),
        None => meta_schema_uri(alloc, text),
    }
}

/// The URI of the meta-schema that a schema names, where its `$schema` counts and names none of the drafts' own.
///
/// `siblings` says whether what stands beside `$ref` is read in Drafts 6 and 7. It takes time in the length of that text, and one text.
///
/// # Errors
///
/// Where memory was refused.
pub fn named_meta_schema(
    alloc: Global,
    siblings: bool,
    is_root: bool,
    contents: &Value,
) -> Result<Option<Uri>, AllocError>
    ensures { IfOk result (λ u. u ≡ documents.named_meta_schema siblings is_root (view contents.now)) }
{
    match schema_in_force(siblings, is_root, contents) {
        Some(text) => uri_named(alloc, text),
        None => Ok(None),
    }
}

// What the meta-schema of a URI gives, or the dialect around where there is no URI.
fn by_meta_schema(known: &MetaSchemas, outer: Dialect, uri: Option<Uri>) -> Named
    ensures { named_of result ≡ documents.by_meta_schema (dialects_in known.now) (dialect_of outer) uri }
{
    let Some(uri) = uri else {
        return Named::Known(outer);
    };
    match known.get(uri.as_str()) {
        Some(dialect) => Named::Known(dialect),
        None => Named::Awaited(uri),
    }
}

// What a text gives that is the URI of none of the drafts' own meta-schemas.
fn by_unknown(
    alloc: Global,
    known: &MetaSchemas,
    outer: Dialect,
    text: &str,
) -> Result<Named, AllocError>
    ensures { IfOk result (λ n. named_of n ≡ documents.by_draft (dialects_in known.now) (dialect_of outer) text.now std.None) }
{
    Ok(by_meta_schema(known, outer, meta_schema_uri(alloc, text)?))
}

fn named_by(
    alloc: Global,
    known: &MetaSchemas,
    outer: Dialect,
    text: &str,
) -> Result<Named, AllocError>
    ensures { IfOk result (λ n. named_of n ≡ documents.by_draft (dialects_in known.now) (dialect_of outer) text.now (drafts.draft_named text.now)) }
{
    match draft_named(text) {
        Some(draft) => Ok(Named::Known(Dialect::standard(outer.siblings, draft))),
        None => by_unknown(alloc, known, outer, text),
    }
}

fn by_schema(
    alloc: Global,
    known: &MetaSchemas,
    outer: Dialect,
    text: Option<&str>,
) -> Result<Named, AllocError>
    ensures { IfOk result (λ n. named_of n ≡ documents.by_schema (dialects_in known.now) (dialect_of outer) (option_map (λ t. t.now) text.entry)) }
{
    match text {
        Some(text) => named_by(alloc, known, outer, text),
        None => Ok(Named::Known(outer)),
    }
}

/// The base URI and the dialect of a schema inside one with that base and that dialect, or of a document's root under its URI.
///
/// It takes time in the length of the identifier and of the outer base, and a look-up where a `$schema` names none of the drafts' own.
///
/// # Errors
///
/// Where memory was refused.
pub fn settle(
    alloc: Global,
    known: &MetaSchemas,
    outer: &Rc<Uri>,
    dialect: Dialect,
    is_root: bool,
    contents: &Value,
) -> Result<Settled, AllocError>
    ensures { IfOk result (λ s. (path : std.List Part) → place_at path (view contents.now) s ≡ documents.placed outer.now.value (dialect_of dialect) path (view contents.now) (documents.by_schema (dialects_in known.now) (dialect_of dialect) (documents.schema_in_force dialect.siblings is_root (view contents.now)))) }
{
    let text = schema_in_force(dialect.siblings, is_root, contents);
    match by_schema(alloc, known, dialect, text)? {
        Named::Known(dialect) => Ok(Settled {
            base: own_base(alloc, outer, dialect, contents)?,
            dialect,
            awaits: None,
        }),
        Named::Awaited(uri) => Ok(Settled {
            base: outer.clone()?,
            dialect,
            awaits: Some(uri),
        }),
    }
}
