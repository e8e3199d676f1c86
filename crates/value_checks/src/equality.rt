//! Equality of values.
ghost use Rattle.std.specs.Prelude.{◌≡◌, ◌&&◌};
ghost use Rattle.json_values.specs.Equality.{equal as are_equal, equal_items as are_items_equal, equal_members as are_members_found, names_in, same_whole as are_same_whole};
ghost use Rattle.serde_json.specs.Find.{as_integer};
ghost use Rattle.serde_json.specs.View.{view, number_view, items_view, members_view};

use serde_json::{Map, Number, Value};

/// Whether two values are equal (Core 4.2.2): numbers by value, texts byte by byte, lists in order, objects in any order.
/// A number that is not whole equals none. It walks both values once, side by side, and stops at the first difference.
#[cycle(equality)]
pub fn equal(one: &Value, other: &Value) -> bool
    ensures { result ≡ are_equal (view one.now) (view other.now) }
{
    match (one, other) {
        (Value::Null, Value::Null) => true,
        (Value::Bool(x), Value::Bool(y)) => *x == *y,
        (Value::Number(x), Value::Number(y)) => same_whole(x, y),
        (Value::String(x), Value::String(y)) => x.as_str() == y.as_str(),
        (Value::Array(xs), Value::Array(ys)) => equal_items(xs, ys),
        (Value::Object(xs), Value::Object(ys)) => equal_members(xs, ys),
        _ => false,
    }
}

fn same_whole(one: &Number, other: &Number) -> bool
    ensures { result ≡ are_same_whole (as_integer (number_view one.now)) (as_integer (number_view other.now)) }
{
    match (one.as_i128(), other.as_i128()) {
        (Some(x), Some(y)) => x == y,
        _ => false,
    }
}

#[cycle(equality)]
fn equal_items(ones: &[Value], others: &[Value]) -> bool
    ensures { result ≡ are_items_equal (items_view ones.now) (items_view others.now) }
{
    if ones.len() != others.len() {
        return false;
    }
    for (index, one) in ones.iter().enumerate() {
        if !equal(one, &others[index]) {
            return false;
        }
    }
    true
}

// Both stand in the order of their names.
#[cycle(equality)]
fn equal_members(ones: &Map<String, Value>, others: &Map<String, Value>) -> bool
    ensures { result ≡ (are_members_found (members_view ones.now.entries) (members_view others.now.entries)
        && names_in (members_view others.now.entries) (members_view ones.now.entries)) }
{
    if ones.len() != others.len() {
        return false;
    }
    let mut rest = others.iter();
    for (name, one) in ones.iter() {
        let Some((other_name, other)) = rest.next() else {
            return false;
        };
        if name.as_str() != other_name.as_str() || !equal(one, other) {
            return false;
        }
    }
    true
}
