//! Values as they are kept: in each object the names stand in the order of their bytes, each once. These functions have no result.
ghost use Rattle.std.specs.Prelude.{◌≡◌, true};
ghost use Rattle.serde_json.specs.View.{view, items_view, members_view};
ghost use Rattle.json_values.specs.Rising.{rises, items_rise as do_items_rise, members_rise as do_members_rise, are_rising};

use serde_json::{Map, Value};

/// The names of a map rise. It does nothing.
pub fn entries_rise(members: &Map<String, Value>)
    ensures { are_rising (members_view members.now.entries) ≡ true }
{
    let _count = members.len();
}

/// In each object of a value the names stand in the order of their bytes, each once. It walks the value once.
#[cycle(names)]
pub fn names_rise(value: &Value)
    ensures { rises (view value.now) ≡ true }
{
    match value {
        Value::Array(items) => items_rise(items),
        Value::Object(members) => members_rise(members),
        _ => {}
    }
}

#[cycle(names)]
fn items_rise(items: &[Value])
    ensures { do_items_rise (items_view items.now) ≡ true }
{
    for item in items {
        names_rise(item);
    }
}

#[cycle(names)]
fn members_rise(members: &Map<String, Value>)
    ensures names { are_rising (members_view members.now.entries) ≡ true }
    ensures inside { do_members_rise (members_view members.now.entries) ≡ true }
{
    let _count = members.len();
    for (_, member) in members.iter() {
        names_rise(member);
    }
}
