//! Values sorted once, to be searched.
ghost use Rattle.std.specs.Prelude.{◌≡◌, IfOk, true};
ghost use Rattle.json_values.specs.Equality.{is_among};
ghost use Rattle.serde_json.specs.View.{view, items_view};
ghost use Rattle.std.specs.List.{list_any};
ghost use Rattle.std.specs.List.Sorted.{IsSortedBy};
ghost use Rattle.serde_json.specs.Data.{Data};
ghost use Rattle.json_values.specs.Equality.{equal as are_equal};
ghost use Rattle.json_values.specs.Rising.{items_rise};
ghost use Rattle.value_checks.specs.Sorts.{is_before, values_of};

use crate::distinct::sort_references;
use crate::equality::equal;
use crate::order::compare;
use crate::rising::names_rise;
use serde_json::Value;
use std::alloc::{AllocError, Global};

/// Values, and references to them in their order. It copies none.
#[derive(Drop)]
pub struct SortedValues<'s> {
    values: &'s [Value],
    sorted: Vec<&'s Value>,
    ghost ordered: { IsSortedBy (λ r s. is_before r.now s.now) sorted.items },
    ghost same: { (d : Data) → list_any (λ r. are_equal d (view r.now)) sorted.items ≡ is_among d (items_view values.now) },
    ghost rise: { items_rise (items_view (values_of sorted.items)) ≡ true },
}

impl<'s> SortedValues<'s> {
    /// Sorts references to the values.
    ///
    /// # Errors
    ///
    /// Where memory for the references is refused.
    pub fn of(alloc: Global, values: &'s [Value]) -> Result<Self, AllocError>
        ensures { IfOk result (λ s. s.values.now ≡ values.now) }
    {
        let sorted = sort_references(alloc, values)?;
        Ok(SortedValues { values, sorted })
    }

    /// The values, as they were given.
    pub const fn as_slice(&self) -> &'s [Value]
        ensures { result.now ≡ self.now.values.now }
    {
        self.values
    }

    /// Whether a value equals one of them (Validation 6.1.2). It walks the value once and compares it with some of them, by halves.
    pub fn contains(&self, value: &Value) -> bool
        ensures { result ≡ is_among (view value.now) (items_view self.now.values.now) }
    {
        names_rise(value);
        match self.sorted.binary_search_by(|one| compare(*one, value)) {
            Ok(index) => equal(value, self.sorted[index]),
            Err(_) => false,
        }
    }
}
