//! A document put inside another.

ghost use Rattle.std.specs.Prelude.{◌≡◌, codes, IfOk, option_map};
ghost use Rattle.serde_json.specs.Data.{object, no_members, put as with_member};
ghost use Rattle.serde_json.specs.Find.{get, as_object};
ghost use Rattle.serde_json.specs.View.{view};
ghost use Rattle.schema_definitions.specs.Words.{or};
ghost use Rattle.moved_documents.specs.Joining.{IsJoined};

use serde_json::{Map, Value, put};
use std::alloc::{AllocError, Global};

/// A root with a document inside, or why there is none.
#[derive(Debug, Drop)]
pub enum Joined {
    /// The root, with the document among its `$defs`.
    Whole(Value),
    /// The root is no object.
    NoObject,
    /// The root's `$defs` is no object, or has the name.
    NotFresh,
}

/// A copy of a root with a copy of another document put under a name of its `$defs`, which is made where it is missing.
///
/// Both are copied once, and `$defs` twice. The error comes where memory was refused.
pub fn join(alloc: Global, root: &Value, moved: &Value, fresh: &str) -> Result<Joined, AllocError>
    ensures { IfOk result (IsJoined (view root.now) (view moved.now) fresh.now) }
{
    let definitions = definitions_of(alloc, root)?;
    if !root.is_object() {
        return Ok(Joined::NoObject);
    }
    if definitions.get(fresh).is_some() {
        return Ok(Joined::NotFresh);
    }
    let Some(definitions) = with_member(alloc, definitions, fresh, moved.clone()?)? else {
        return Ok(Joined::NotFresh);
    };
    match with_member(alloc, root.clone()?, "$defs", definitions)? {
        Some(whole) => Ok(Joined::Whole(whole)),
        None => Ok(Joined::NoObject),
    }
}

// A copy of a root's `$defs`, or an object with no members.
fn definitions_of(alloc: Global, root: &Value) -> Result<Value, AllocError>
    ensures { IfOk result (λ v. view v ≡ or (object no_members) (get (codes "$defs") (view root.now))) }
{
    match root.get("$defs") {
        Some(found) => Ok(found.clone()?),
        None => Ok(Value::Object(Map::new(alloc))),
    }
}

// An object with one member put into it; nothing where the value is no object.
fn with_member(
    alloc: Global,
    value: Value,
    name: &str,
    member: Value,
) -> Result<Option<Value>, AllocError>
    ensures { IfOk result (λ o. option_map (λ v. view v) o ≡ option_map (λ ms. object (with_member name.now (view member) ms)) (as_object (view value))) }
{
    let Value::Object(mut members) = value else {
        return Ok(None);
    };
    put(&mut members, alloc, name, member)?;
    Ok(Some(Value::Object(members)))
}
