//! What kinds of errors carry beside errors.
ghost use Rattle.std.specs.Prelude.{◌≡◌, map, string_bytes};
ghost use Rattle.serde_json.specs.View.{view, items_view};
ghost use Rattle.assertions.specs.Named.{names_in};
ghost use Rattle.schema_meaning.specs.Questions.{items_of};
ghost use Rattle.schema_reports.specs.Kinds.{kind_of, number_of as number_in};
ghost use Rattle.error_kinds.specs.Faults as spec;

use crate::values::{same_value, same_values};
use assertions::TypeNames;
use schema_reports::ValidationErrorKind as Kind;
use serde_json::Value;
use value_checks::numbers::whole;

/// Whether two kinds that carry no errors are one, with the same values, names and numbers.
pub(crate) fn same_plain_kind(one: &Kind<'_>, other: &Kind<'_>) -> bool
    ensures { result ≡ spec.same_plain_kind (kind_of one.now) (kind_of other.now) }
{
    match (one, other) {
        (Kind::AdditionalItems, Kind::AdditionalItems)
        | (Kind::Contains, Kind::Contains)
        | (Kind::FalseSchema, Kind::FalseSchema)
        | (Kind::UniqueItems, Kind::UniqueItems) => true,
        (
            Kind::Constant {
                expected_value: one,
            },
            Kind::Constant {
                expected_value: other,
            },
        )
        | (Kind::Not { schema: one }, Kind::Not { schema: other }) => same_value(one, other),
        (Kind::Enumeration { options: ones }, Kind::Enumeration { options: others }) => {
            same_values(options_of(ones), options_of(others))
        }
        (Kind::MultipleOf { multiple_of: one }, Kind::MultipleOf { multiple_of: other }) => {
            number_of(one).unsigned_abs() == number_of(other).unsigned_abs()
        }
        _ => same_names(one, other),
    }
}

// Whether two kinds are one that carries texts, types or a limit, with the same of them.
fn same_names(one: &Kind<'_>, other: &Kind<'_>) -> bool
    ensures { result ≡ spec.same_names (kind_of one.now) (kind_of other.now) }
{
    match (one, other) {
        (
            Kind::AdditionalProperties { unexpected: ones },
            Kind::AdditionalProperties { unexpected: others },
        ) => same_texts(ones, others),
        (Kind::Pattern { pattern: one }, Kind::Pattern { pattern: other })
        | (Kind::Required { property: one }, Kind::Required { property: other })
        | (Kind::UnfinishedMatch { pattern: one }, Kind::UnfinishedMatch { pattern: other }) => {
            one.as_str() == other.as_str()
        }
        (Kind::Types { names: ones }, Kind::Types { names: others }) => same_types(ones, others),
        _ => same_limit(one, other),
    }
}

// Whether two kinds are one that carries a limit, with the same limit. No other kinds are the same here.
fn same_limit(one: &Kind<'_>, other: &Kind<'_>) -> bool
    ensures { result ≡ spec.same_limit (kind_of one.now) (kind_of other.now) }
{
    match (one, other) {
        (Kind::ExclusiveMaximum { limit: one }, Kind::ExclusiveMaximum { limit: other })
        | (Kind::ExclusiveMinimum { limit: one }, Kind::ExclusiveMinimum { limit: other })
        | (Kind::Maximum { limit: one }, Kind::Maximum { limit: other })
        | (Kind::Minimum { limit: one }, Kind::Minimum { limit: other }) => {
            number_of(one) == number_of(other)
        }
        (Kind::MaxItems { limit: one }, Kind::MaxItems { limit: other })
        | (Kind::MaxLength { limit: one }, Kind::MaxLength { limit: other })
        | (Kind::MaxProperties { limit: one }, Kind::MaxProperties { limit: other })
        | (Kind::MinItems { limit: one }, Kind::MinItems { limit: other })
        | (Kind::MinLength { limit: one }, Kind::MinLength { limit: other })
        | (Kind::MinProperties { limit: one }, Kind::MinProperties { limit: other }) => {
            *one == *other
        }
        _ => false,
    }
}

// The whole number that a value is, and 0 for any other value.
fn number_of(value: &Value) -> i128
    ensures { result ≡ number_in (view value.now) }
{
    whole(value).unwrap_or(0)
}

// The items of a list, and none for any other value.
fn options_of(value: &Value) -> &[Value]
    ensures { items_view result.now ≡ items_of (view value.now) }
{
    match value {
        Value::Array(items) => items,
        _ => &[],
    }
}

fn same_texts(ones: &[String], others: &[String]) -> bool
    ensures { result ≡ spec.same_texts (map string_bytes ones.now) (map string_bytes others.now) }
{
    ones == others
}

fn same_types(ones: &TypeNames, others: &TypeNames) -> bool
    ensures { result ≡ spec.same_types (names_in ones.now) (names_in others.now) }
{
    ones.as_slice() == others.as_slice()
}
