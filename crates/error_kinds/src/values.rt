//! Values that are the same.
ghost use Rattle.std.specs.Prelude.{◌≡◌};
ghost use Rattle.serde_json.specs.View.{view, number_view, items_view, members_view};
ghost use Rattle.error_kinds.specs.Values.{same_data, same_number as same_num, same_items as are_items_same, same_members as are_members_same};

use serde_json::{Map, Number, Value};

/// Whether two values are one tree: texts byte by byte, lists and objects in order, whole numbers by value. A number that is not whole is
/// the same as none.
#[cycle(values)]
pub(crate) fn same_value(one: &Value, other: &Value) -> bool
    ensures { result ≡ same_data (view one.now) (view other.now) }
{
    match (one, other) {
        (Value::Null, Value::Null) => true,
        (Value::Bool(x), Value::Bool(y)) => *x == *y,
        (Value::Number(x), Value::Number(y)) => same_number(x, y),
        (Value::String(x), Value::String(y)) => x.as_str() == y.as_str(),
        (Value::Array(xs), Value::Array(ys)) => same_values(xs, ys),
        (Value::Object(xs), Value::Object(ys)) => same_members(xs, ys),
        _ => false,
    }
}

fn same_number(one: &Number, other: &Number) -> bool
    ensures { result ≡ same_num (number_view one.now) (number_view other.now) }
{
    match (one.as_u64(), other.as_u64()) {
        (Some(x), Some(y)) => x == y,
        (None, None) => match (one.as_i64(), other.as_i64()) {
            (Some(x), Some(y)) => x == y,
            _ => false,
        },
        _ => false,
    }
}

/// Whether two lists hold the same values in the same order.
#[cycle(values)]
pub(crate) fn same_values(ones: &[Value], others: &[Value]) -> bool
    ensures { result ≡ are_items_same (items_view ones.now) (items_view others.now) }
{
    if ones.len() != others.len() {
        return false;
    }
    for (index, one) in ones.iter().enumerate() {
        if !same_value(one, &others[index]) {
            return false;
        }
    }
    true
}

// Both stand in the order of their names.
#[cycle(values)]
fn same_members(ones: &Map<String, Value>, others: &Map<String, Value>) -> bool
    ensures { result ≡ are_members_same (members_view ones.now.entries)
        (members_view others.now.entries) }
{
    let mut rest = others.iter();
    for (name, one) in ones.iter() {
        let Some((other_name, other)) = rest.next() else {
            return false;
        };
        if name.as_str() != other_name.as_str() || !same_value(one, other) {
            return false;
        }
    }
    rest.next().is_none()
}
