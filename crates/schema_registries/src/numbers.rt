//! The numbers of values.

ghost use Rattle.std.specs.Prelude.{◌≡◌};
ghost use Rattle.serde_json.specs.View.{view, items_view, members_view};
ghost use Rattle.json_values.specs.Equality.{is_tree, are_trees, are_member_trees};
ghost use Rattle.schema_registries.specs.Whole.{only_whole, items_only_whole, members_only_whole};

use serde_json::{Map, Value};

/// Whether each number of a value is a whole number of 64 bits, from -2^63 to 2^64-1.
///
/// It walks the value once, up to the first other number, with a stack frame for each level, and allocates nothing.
#[cycle(whole)]
pub fn has_only_whole(value: &Value) -> bool
    ensures whole { result ≡ only_whole (view value.now) }
    ensures tree { result ≡ is_tree (view value.now) }
{
    match value {
        Value::Number(number) => number.as_i128().is_some(),
        Value::Array(items) => have_items_whole(items),
        Value::Object(members) => have_members_whole(members),
        _ => true,
    }
}

#[cycle(whole)]
fn have_items_whole(items: &[Value]) -> bool
    ensures whole { result ≡ items_only_whole (items_view items.now) }
    ensures trees { result ≡ are_trees (items_view items.now) }
{
    for item in items {
        if !has_only_whole(item) {
            return false;
        }
    }
    true
}

#[cycle(whole)]
fn have_members_whole(members: &Map<String, Value>) -> bool
    ensures whole { result ≡ members_only_whole (members_view members.now.entries) }
    ensures trees { result ≡ are_member_trees (members_view members.now.entries) }
{
    let _count = members.len();
    for (_, member) in members.iter() {
        if !has_only_whole(member) {
            return false;
        }
    }
    true
}
