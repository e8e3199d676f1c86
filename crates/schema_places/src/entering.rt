//! Schemas entered, each under a base and in a dialect.

ghost use Rattle.std.specs.Prelude.{◌≡◌, IfOk};
ghost use Rattle.serde_json.specs.View.{view};
ghost use Rattle.schema_definitions.specs.Places as places;
ghost use Rattle.schema_dialects.specs.Dialects.{dialect_of, dialects_in};
ghost use Rattle.schema_places.specs.Seen.{place_of};

use crate::place::Place;
use crate::plain::is_plain;
use schema_dialects::bases::settle;
use schema_dialects::{Dialect, MetaSchemas};
use schema_steps::Path;
use serde_json::Value;
use std::alloc::{AllocError, Global};
use std::rc::Rc;
use uri_references::uri::Uri;

/// Whether a value is a schema: an object or a boolean (Core 4.3).
pub fn is_schema(value: &Value) -> bool
    ensures { result ≡ places.is_schema (view value.now) }
{
    match value {
        Value::Bool(_) | Value::Object(_) => true,
        _ => false,
    }
}

// The place of a schema under a base and in a dialect. A plain schema keeps both, and is not looked into again.
fn placed<'d>(
    alloc: Global,
    known: &MetaSchemas,
    outer: &Rc<Uri>,
    dialect: Dialect,
    is_root: bool,
    path: Path,
    contents: &'d Value,
) -> Result<Place<'d>, AllocError>
    ensures { IfOk result (λ p. place_of p
        ≡ places.placed outer.now.value (dialect_of dialect) path (view contents.now)
        (places.by_schema (dialects_in known.now) (dialect_of dialect)
        (places.schema_in_force dialect.siblings is_root (view contents.now)))) }
{
    if is_plain(contents) {
        return Ok(Place {
            path,
            contents,
            base: outer.clone()?,
            dialect,
            awaits: None,
            is_plain: true,
        });
    }
    let settled = settle(alloc, known, outer, dialect, is_root, contents)?;
    Ok(Place {
        path,
        contents,
        base: settled.base,
        dialect: settled.dialect,
        awaits: settled.awaits,
        is_plain: false,
    })
}

/// The place of a schema inside another, whose base and dialect are given.
///
/// It looks at the names of the schema's members up to the first that begins with `$` or is `id`. Where there is none, base and dialect are
/// those given. It shares the base where the schema has no identifier of its own, and takes time in the length of the identifier and of the
/// base.
///
/// # Errors
///
/// Where memory was refused, or the base's count of owners is full.
pub fn enter<'d>(
    alloc: Global,
    known: &MetaSchemas,
    base: &Rc<Uri>,
    dialect: Dialect,
    path: Path,
    contents: &'d Value,
) -> Result<Place<'d>, AllocError>
    ensures { IfOk result (λ p. place_of p ≡ places.entered (dialects_in known.now) base.now.value (dialect_of dialect) path (view contents.now)) }
{
    placed(alloc, known, base, dialect, false, path, contents)
}

/// The place of a document's root, under the document's URI. `default` is the dialect where the root names none.
///
/// # Errors
///
/// As [`enter`].
pub fn root<'d>(
    alloc: Global,
    known: &MetaSchemas,
    uri: &Rc<Uri>,
    default: Dialect,
    contents: &'d Value,
) -> Result<Place<'d>, AllocError>
    ensures { IfOk result (λ p. place_of p ≡ places.root_place (dialects_in known.now) uri.now.value (dialect_of default) (view contents.now)) }
{
    placed(alloc, known, uri, default, true, Path::root(), contents)
}
