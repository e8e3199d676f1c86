//! The kind of what is wrong with a value.
ghost use Rattle.std.specs.Prelude.{◌≡◌, IfOk};
ghost use Rattle.serde_json.specs.Data.{array};
ghost use Rattle.serde_json.specs.View.{view, items_view};
ghost use Rattle.schema_reports.specs.Kinds.{StandsFor};
ghost use Rattle.assertions.specs.Shapes.{integer_of};
ghost use Rattle.assertions.specs.Wrong.{bound_kind, count_kind, kind_of as kind_of_wrong};

use assertions::assertion::{Bound, Wrong};
use assertions::keyword::Count;
use assertions::whole_number::WholeNumber;
use schema_reports::ValidationErrorKind;
use serde_json::Value;
use std::alloc::{AllocError, Global};

fn list_of(alloc: Global, values: &[Value]) -> Result<Value, AllocError>
    ensures { IfOk result (λ v. view v ≡ array (items_view values.now)) }
{
    Ok(Value::Array(values.to_vec(alloc)?))
}

fn out_of_bound<'i>(bound: Bound, number: WholeNumber) -> ValidationErrorKind<'i>
    ensures { StandsFor result (bound_kind bound (integer_of number)) }
{
    let limit = number.to_value();
    match bound {
        Bound::Maximum => ValidationErrorKind::Maximum { limit },
        Bound::ExclusiveMaximum => ValidationErrorKind::ExclusiveMaximum { limit },
        Bound::Minimum => ValidationErrorKind::Minimum { limit },
        Bound::ExclusiveMinimum => ValidationErrorKind::ExclusiveMinimum { limit },
    }
}

const fn out_of_count<'i>(count: Count, limit: u64) -> ValidationErrorKind<'i>
    ensures { StandsFor result (count_kind count limit) }
{
    match count {
        Count::MaxLength => ValidationErrorKind::MaxLength { limit },
        Count::MinLength => ValidationErrorKind::MinLength { limit },
        Count::MaxItems => ValidationErrorKind::MaxItems { limit },
        Count::MinItems => ValidationErrorKind::MinItems { limit },
        Count::MaxProperties => ValidationErrorKind::MaxProperties { limit },
        Count::MinProperties => ValidationErrorKind::MinProperties { limit },
    }
}

/// The kind of what is wrong with a value, with copies of what its keyword has.
///
/// It costs what the copies cost. The error comes where memory for them is refused.
pub fn kind_of_wrong<'i>(
    alloc: Global,
    wrong: Wrong<'_>,
) -> Result<ValidationErrorKind<'i>, AllocError>
    ensures { IfOk result (λ k. StandsFor k (kind_of_wrong wrong.entry)) }
{
    Ok(match wrong {
        Wrong::Types(names) => ValidationErrorKind::Types {
            names: names.clone()?,
        },
        Wrong::Enumeration(options) => ValidationErrorKind::Enumeration {
            options: list_of(alloc, options)?,
        },
        Wrong::Constant(expected) => ValidationErrorKind::Constant {
            expected_value: expected.clone()?,
        },
        Wrong::MultipleOf(divisor) => ValidationErrorKind::MultipleOf {
            multiple_of: Value::from(divisor.get()),
        },
        Wrong::Limit { bound, limit } => out_of_bound(bound, limit),
        Wrong::Count { count, limit } => out_of_count(count, limit),
        Wrong::UniqueItems => ValidationErrorKind::UniqueItems,
        Wrong::Required(name) => ValidationErrorKind::Required {
            property: String::from_str(alloc, name)?,
        },
    })
}
