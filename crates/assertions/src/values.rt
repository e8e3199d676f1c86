//! Assertions that keywords' values make.
ghost use Rattle.std.specs.Prelude.{◌≡◌, IfOk, option_map, option_and_then};
ghost use Rattle.serde_json.specs.Find.{as_array, as_bool};
ghost use Rattle.serde_json.specs.View.{view};
ghost use Rattle.schema_definitions.specs.Words.{or};
ghost use Rattle.schema_meaning.specs.Keywords as told;
ghost use Rattle.schema_definitions.specs.Values.{type_names, positive_of, count_of, whole_number};
ghost use Rattle.schema_definitions.specs.Rows.{is_true as is_true_beside, is_draft_4 as is_of_draft_4};
ghost use Rattle.assertions.specs.Shapes.{assertion_of, bound_assertion, count_assertion, old_assertion, plain_bound, strict_bound};

use crate::assertion::{Assertion, Bound};
use crate::keyword::{Count, Limit};
use crate::read as read_type_names;
use crate::whole_number::WholeNumber;
use schema_drafts::draft::Draft;
use serde_json::Value;
use std::alloc::{AllocError, Global};
use std::num::NonZeroU64;
use value_checks::sorted_values::SortedValues;

pub(crate) fn types<'s>(alloc: Global, value: &Value) -> Result<Option<Assertion<'s>>, AllocError>
    ensures { IfOk result (λ a. option_map assertion_of a ≡ option_map told.types (type_names (view value.now))) }
{
    match read_type_names(alloc, value)? {
        Some(names) => Ok(Some(Assertion::Types(names))),
        None => Ok(None),
    }
}

pub(crate) fn enumeration<'s>(
    alloc: Global,
    value: &'s Value,
) -> Result<Option<Assertion<'s>>, AllocError>
    ensures { IfOk result (λ a. option_map assertion_of a ≡ option_map told.enumeration (as_array (view value.now))) }
{
    match value {
        Value::Array(values) => {
            let options = SortedValues::of(alloc, values.as_slice())?;
            Ok(Some(Assertion::Enumeration(options)))
        }
        _ => Ok(None),
    }
}

pub(crate) fn multiple_of<'s>(value: &Value) -> Option<Assertion<'s>>
    ensures { option_map assertion_of result ≡ option_map told.multiple_of (positive_of (view value.now)) }
{
    let number = value.as_u64()?;
    match NonZeroU64::new(number) {
        Some(divisor) => Some(Assertion::MultipleOf(divisor)),
        None => None,
    }
}

pub(crate) fn counted<'s>(count: Count, value: &Value) -> Option<Assertion<'s>>
    ensures { option_map assertion_of result ≡ option_map (count_assertion count) (count_of (view value.now)) }
{
    match value.as_u64() {
        Some(limit) => Some(Assertion::Count { count, limit }),
        None => None,
    }
}

pub(crate) fn bounded<'s>(bound: Bound, value: &Value) -> Option<Assertion<'s>>
    ensures { option_map assertion_of result ≡ option_map (bound_assertion bound) (whole_number (view value.now)) }
{
    match WholeNumber::of(value) {
        Some(limit) => Some(Assertion::Limit { bound, limit }),
        None => None,
    }
}

pub(crate) fn bounded_in_draft_4<'s>(
    side: Limit,
    strict: bool,
    value: &Value,
) -> Option<Assertion<'s>>
    ensures { option_map assertion_of result ≡ option_map (λ z. old_assertion side z strict) (whole_number (view value.now)) }
{
    match WholeNumber::of(value) {
        Some(limit) => Some(Assertion::LimitOfDraft4 {
            side,
            limit,
            strict,
        }),
        None => None,
    }
}

/// Whether a neighbour is there and `true`.
pub(crate) fn is_true(beside: Option<&Value>) -> bool
    ensures { result ≡ is_true_beside (option_map (λ v. view v.now) beside.entry) }
{
    match beside {
        Some(value) => match value.as_bool() {
            Some(answer) => answer,
            None => false,
        },
        None => false,
    }
}

pub(crate) const fn is_draft_4(draft: Draft) -> bool
    ensures { result ≡ is_of_draft_4 draft }
{
    matches!(draft, Draft::Draft4)
}

pub(crate) const fn bound_of(side: Limit) -> Bound
    ensures { result ≡ plain_bound side }
{
    match side {
        Limit::Maximum => Bound::Maximum,
        Limit::Minimum => Bound::Minimum,
    }
}

pub(crate) const fn exclusive_bound_of(side: Limit) -> Bound
    ensures { result ≡ strict_bound side }
{
    match side {
        Limit::Maximum => Bound::ExclusiveMaximum,
        Limit::Minimum => Bound::ExclusiveMinimum,
    }
}
