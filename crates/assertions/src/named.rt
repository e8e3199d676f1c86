//! The names under which keywords refuse.
ghost use Rattle.std.specs.Prelude.{◌≡◌, ℕ, ℤ};
ghost use Rattle.schema_meaning.specs.Keywords.{named};
ghost use Rattle.assertions.specs.Shapes.{assertion_of, bound_assertion, count_assertion, old_assertion};

use crate::assertion::{Assertion, Bound};
use crate::keyword::{Count, Limit};

const fn bound_name(bound: Bound) -> &'static str
    ensures { (z : ℤ) → result.now ≡ named (bound_assertion bound z) }
{
    match bound {
        Bound::Maximum => "maximum",
        Bound::ExclusiveMaximum => "exclusiveMaximum",
        Bound::Minimum => "minimum",
        Bound::ExclusiveMinimum => "exclusiveMinimum",
    }
}

const fn old_name(side: Limit, strict: bool) -> &'static str
    ensures { (z : ℤ) → result.now ≡ named (old_assertion side z strict) }
{
    match (side, strict) {
        (Limit::Maximum, false) => "maximum",
        (Limit::Maximum, true) => "exclusiveMaximum",
        (Limit::Minimum, false) => "minimum",
        (Limit::Minimum, true) => "exclusiveMinimum",
    }
}

const fn count_name(count: Count) -> &'static str
    ensures { (n : ℕ) → result.now ≡ named (count_assertion count n) }
{
    match count {
        Count::MaxLength => "maxLength",
        Count::MinLength => "minLength",
        Count::MaxItems => "maxItems",
        Count::MinItems => "minItems",
        Count::MaxProperties => "maxProperties",
        Count::MinProperties => "minProperties",
    }
}

impl Assertion<'_> {
    /// The name under which it refuses: the keyword's, and for a strict limit of Draft 4 that of the boolean beside.
    pub const fn name(&self) -> &'static str
        ensures { result.now ≡ named (assertion_of self.now) }
    {
        match self {
            Assertion::Types(_) => "type",
            Assertion::Enumeration(_) => "enum",
            Assertion::Constant(_) => "const",
            Assertion::MultipleOf(_) => "multipleOf",
            Assertion::Limit { bound, .. } => bound_name(*bound),
            Assertion::LimitOfDraft4 { side, strict, .. } => old_name(*side, *strict),
            Assertion::Count { count, .. } => count_name(*count),
            Assertion::UniqueItems => "uniqueItems",
            Assertion::Required(_) => "required",
            Assertion::DependentRequired(_) => "dependentRequired",
        }
    }
}
