//! Keywords that only assert, read from their values.

use crate::TypeNames;
use crate::keyword::{Count, Limit};
use crate::whole_number::WholeNumber;
use serde_json::{Map, Value};
use std::num::NonZeroU64;
use value_checks::sorted_values::SortedValues;

/// How a number stands to a limit.
#[derive(Clone, Copy, Debug, PartialEq, Eq)]
pub enum Bound {
    Maximum,
    ExclusiveMaximum,
    Minimum,
    ExclusiveMinimum,
}

/// A keyword that only asserts, with what its value says. What a schema lends is not copied.
#[derive(Drop)]
pub enum Assertion<'s> {
    Types(TypeNames),
    Enumeration(SortedValues<'s>),
    Constant(&'s Value),
    MultipleOf(NonZeroU64),
    Limit {
        bound: Bound,
        limit: WholeNumber,
    },
    /// Draft 4's limit, with the boolean beside that makes it strict.
    LimitOfDraft4 {
        side: Limit,
        limit: WholeNumber,
        strict: bool,
    },
    Count {
        count: Count,
        limit: u64,
    },
    UniqueItems,
    /// The texts of a list.
    Required(&'s [Value]),
    /// For each name, the texts of a list.
    DependentRequired(&'s Map<String, Value>),
}

/// What is wrong with a value, with what the keyword has, lent by it.
#[derive(Clone, Copy, Debug)]
pub enum Wrong<'a> {
    /// The value is of none of the types.
    Types(&'a TypeNames),
    /// It equals none of the values.
    Enumeration(&'a [Value]),
    /// It differs from the value.
    Constant(&'a Value),
    /// It is no multiple of the number.
    MultipleOf(NonZeroU64),
    /// It stands otherwise to the limit.
    Limit { bound: Bound, limit: WholeNumber },
    /// It has more or fewer than the limit.
    Count { count: Count, limit: u64 },
    /// Two items are equal.
    UniqueItems,
    /// No member has the name.
    Required(&'a str),
}
