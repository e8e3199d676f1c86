//! Whether items are distinct.
ghost use Rattle.std.specs.Prelude.{◌≡◌, IfOk, not};
ghost use Rattle.json_values.specs.Equality.{all_distinct as are_distinct};
ghost use Rattle.serde_json.specs.View.{items_view};
ghost use Rattle.value_checks.specs.Sorts.{Sorts, values_of, some_neighbours_equal};

use crate::equality::equal;
use crate::order::compare;
use crate::rising::names_rise;
use serde_json::Value;
use std::alloc::{AllocError, Global};

/// Whether no two items are equal (Validation 6.4.3). It sorts references to them and compares neighbours.
///
/// # Errors
///
/// Where memory for the references is refused.
pub fn all_distinct(alloc: Global, items: &[Value]) -> Result<bool, AllocError>
    ensures { IfOk result (λ distinct. distinct ≡ are_distinct (items_view items.now)) }
{
    let sorted = sort_references(alloc, items)?;
    Ok(are_neighbours_distinct(&sorted))
}

// References to values, in their order.
pub(crate) fn sort_references<'v>(
    alloc: Global,
    values: &'v [Value],
) -> Result<Vec<&'v Value>, AllocError>
    ensures { IfOk result (λ references. Sorts values.now references.items) }
{
    let mut references = Vec::new(alloc);
    for value in values {
        names_rise(value);
        references.push(value)?;
    }
    references.sort_by(|one, other| compare(*one, *other))?;
    Ok(references)
}

fn are_neighbours_distinct(values: &[&Value]) -> bool
    ensures { result ≡ not (some_neighbours_equal (values_of values.now)) }
{
    let Some((first, rest)) = values.split_first() else {
        return true;
    };
    let mut before = *first;
    for value in rest {
        if equal(before, *value) {
            return false;
        }
        before = *value;
    }
    true
}
