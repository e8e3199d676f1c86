//! The order of values.
ghost use Rattle.std.specs.Prelude.{◌≡◌};
ghost use Rattle.serde_json.specs.Find.{as_integer};
ghost use Rattle.serde_json.specs.View.{view, number_view, items_view, members_view};
ghost use Rattle.value_checks.specs.Order.{order as order_of, rank as rank_of, items_order, members_order, whole_order};

use serde_json::{Map, Number, Value};
use std::cmp::Ordering;

/// Which of two values comes first: by type, numbers by value, texts by their bytes, lists by their items in turn, objects by the
/// names and values of their members in turn.
///
/// It walks both values side by side, up to the first difference, and allocates nothing.
#[cycle(order)]
pub fn compare(one: &Value, other: &Value) -> Ordering
    ensures { result ≡ order_of (view one.now) (view other.now) }
{
    match (one, other) {
        (Value::Null, Value::Null) => Ordering::Equal,
        (Value::Bool(x), Value::Bool(y)) => x.cmp(y),
        (Value::Number(x), Value::Number(y)) => compare_numbers(x, y),
        (Value::String(x), Value::String(y)) => x.as_str().cmp(y.as_str()),
        (Value::Array(xs), Value::Array(ys)) => compare_items(xs, ys),
        (Value::Object(xs), Value::Object(ys)) => compare_members(xs, ys),
        _ => rank(one).cmp(&rank(other)),
    }
}

fn rank(value: &Value) -> u8
    ensures { result ≡ rank_of (view value.now) }
{
    match value {
        Value::Null => 0,
        Value::Bool(_) => 1,
        Value::Number(_) => 2,
        Value::String(_) => 3,
        Value::Array(_) => 4,
        Value::Object(_) => 5,
    }
}

fn compare_numbers(one: &Number, other: &Number) -> Ordering
    ensures { result ≡ whole_order (as_integer (number_view one.now)) (as_integer (number_view other.now)) }
{
    match (one.as_i128(), other.as_i128()) {
        (Some(x), Some(y)) => x.cmp(&y),
        (Some(_), None) => Ordering::Greater,
        (None, Some(_)) => Ordering::Less,
        (None, None) => Ordering::Equal,
    }
}

#[cycle(order)]
fn compare_items(ones: &[Value], others: &[Value]) -> Ordering
    ensures { result ≡ items_order (items_view ones.now) (items_view others.now) }
{
    for (index, one) in ones.iter().enumerate() {
        if index == others.len() {
            return Ordering::Greater;
        }
        let found = compare(one, &others[index]);
        if found != Ordering::Equal {
            return found;
        }
    }
    if ones.len() < others.len() {
        Ordering::Less
    } else {
        Ordering::Equal
    }
}

// Both stand in the order of their names.
#[cycle(order)]
fn compare_members(ones: &Map<String, Value>, others: &Map<String, Value>) -> Ordering
    ensures { result ≡ members_order (members_view ones.now.entries) (members_view others.now.entries) }
{
    let mut rest = others.iter();
    for (name, one) in ones.iter() {
        let Some((other_name, other)) = rest.next() else {
            return Ordering::Greater;
        };
        let by_name = name.as_str().cmp(other_name.as_str());
        if by_name != Ordering::Equal {
            return by_name;
        }
        let found = compare(one, other);
        if found != Ordering::Equal {
            return found;
        }
    }
    if rest.next().is_some() {
        Ordering::Less
    } else {
        Ordering::Equal
    }
}
