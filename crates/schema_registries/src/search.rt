//! Where a number stands that is no whole number of 64 bits.

ghost use Rattle.std.specs.Prelude.{◌≡◌, false, IfOk};
ghost use Rattle.serde_json.specs.Data.{array, object};
ghost use Rattle.serde_json.specs.View.{view, items_view, members_view};
ghost use Rattle.schema_registries.specs.Whole.{only_whole, items_only_whole, members_only_whole, IsOtherNumber, IsNearer};

use crate::numbers::has_only_whole;
use schema_steps::Path;
use serde_json::{Map, Value};
use std::alloc::{AllocError, Global};

/// The path of the first number that is not whole. It walks what stands before the number once for each level above it.
///
/// # Errors
///
/// Where memory was refused.
pub fn other_number(alloc: Global, document: &Value) -> Result<Path, AllocError>
    requires { only_whole (view document.now) ≡ false }
    ensures { IfOk result (IsOtherNumber (view document.now)) }
{
    let mut path = Path::root();
    let mut value = document;
    loop {
        let (nearer, inner) = match value {
            Value::Array(items) => other_item(alloc, items, &path)?,
            Value::Object(members) => other_member(alloc, members, &path)?,
            Value::Number(_) => return Ok(path),
            Value::Null | Value::Bool(_) | Value::String(_) => unreachable!(),
        };
        path = nearer;
        value = inner;
    }
}

fn other_item<'v>(
    alloc: Global,
    items: &'v [Value],
    path: &Path,
) -> Result<(Path, &'v Value), AllocError>
    requires { items_only_whole (items_view items.now) ≡ false }
    ensures { IfOk result (λ found. IsNearer (array (items_view items.entry.now)) path.now found.0 (view found.1.now)) }
{
    for (position, item) in items.iter().enumerate() {
        if !has_only_whole(item) {
            return Ok((path.push_item(alloc, position)?, item));
        }
    }
    unreachable!()
}

fn other_member<'v>(
    alloc: Global,
    members: &'v Map<String, Value>,
    path: &Path,
) -> Result<(Path, &'v Value), AllocError>
    requires { members_only_whole (members_view members.now.entries) ≡ false }
    ensures { IfOk result (λ found. IsNearer (object (members_view members.entry.now.entries)) path.now found.0
        (view found.1.now)) }
{
    let _count = members.len();
    for (name, member) in members.iter() {
        if !has_only_whole(member) {
            return Ok((path.push_name(alloc, name.as_str())?, member));
        }
    }
    unreachable!()
}
