//! Keywords that only assert.
ghost use Rattle.std.specs.Prelude.{◌≡◌, IfOk};
ghost use Rattle.serde_json.specs.View.{items_view};
ghost use Rattle.assertions.specs.Shapes.{assertion_of as assertion_read};
ghost use Rattle.compiled_keywords.specs.Shapes.{assertion_of};

use crate::names::{needed, texts};
use assertions::assertion::Assertion as Read;
use compiled_keywords::assertion::Assertion;
use compiled_keywords::options::Options;
use compiled_keywords::required::RequiredNames;
use serde_json::Value;
use std::alloc::{AllocError, Global};

fn values_of(alloc: Global, values: &[Value]) -> Result<Vec<Value>, AllocError>
    ensures { IfOk result (λ v. items_view v.items ≡ items_view values.now) }
{
    values.to_vec(alloc)
}

/// An assertion with copies of what the schema lends it.
pub(crate) fn assertion(alloc: Global, read: &Read<'_>) -> Result<Assertion, AllocError>
    ensures { IfOk result (λ a. assertion_of a ≡ assertion_read read.now) }
{
    match read {
        Read::Types(names) => Ok(Assertion::Plain(Read::Types(names.clone()?))),
        Read::Enumeration(options) => {
            let list = values_of(alloc, options.as_slice())?;
            Ok(Assertion::Enumeration(Options::of(alloc, list)?))
        }
        Read::Constant(expected) => Ok(Assertion::Constant((*expected).clone()?)),
        Read::MultipleOf(divisor) => Ok(Assertion::Plain(Read::MultipleOf(*divisor))),
        Read::Limit { bound, limit } => Ok(Assertion::Plain(Read::Limit {
            bound: *bound,
            limit: *limit,
        })),
        Read::LimitOfDraft4 {
            side,
            limit,
            strict,
        } => Ok(Assertion::Plain(Read::LimitOfDraft4 {
            side: *side,
            limit: *limit,
            strict: *strict,
        })),
        Read::Count { count, limit } => Ok(Assertion::Plain(Read::Count {
            count: *count,
            limit: *limit,
        })),
        Read::UniqueItems => Ok(Assertion::Plain(Read::UniqueItems)),
        Read::Required(names) => {
            let listed = texts(alloc, names)?;
            Ok(Assertion::Required(RequiredNames::of(alloc, listed)?))
        }
        Read::DependentRequired(entries) => {
            Ok(Assertion::DependentRequired(needed(alloc, entries)?))
        }
    }
}
