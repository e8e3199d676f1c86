//! Whether a value is accepted.
ghost use Rattle.std.specs.Prelude.{◌≡◌, List, ℕ, Bool, IfOk, option_map};
ghost use Rattle.serde_json.specs.View.{view, items_view, members_view};
ghost use Rattle.serde_json.specs.Data.{Data};
ghost use Rattle.json_values.specs.Numbers.{number_is, is_multiple as is_whole_multiple};
ghost use Rattle.json_values.specs.Equality.{all_distinct as are_distinct};
ghost use Rattle.schema_meaning.specs.Keywords.{list_is, wrong, unless as note_unless};
ghost use Rattle.schema_definitions.specs.Words.{listed as in_list};
ghost use Rattle.schema_meaning.specs.Members.{is_empty};
ghost use Rattle.json_values.specs.Texts.{count_items as items_counted, count_members as members_counted};
ghost use Rattle.assertions.specs.Shapes.{assertion_of, count_assertion, integer_of};
ghost use Rattle.assertions.specs.Wrong.{bound_test, old_bound, bound_kind, count_kind, kind_of, head, note_of, notes_of};

use crate::assertion::{Assertion, Bound, Wrong};
use crate::keyword::{Count, Limit};
use crate::missing::{all_missing, all_missing_beside, first_missing, first_missing_beside};
use crate::whole_number::WholeNumber;
use serde_json::{Map, Value};
use std::alloc::{AllocError, Global};
use std::num::NonZeroU64;
use value_checks::distinct::all_distinct;
use value_checks::equality::equal;
use value_checks::numbers::{is_multiple, whole};
use value_checks::texts::code_points;

// Whether a number stands so to a limit.
fn is_so(bound: Bound, limit: i128, number: i128) -> bool
    ensures { result ≡ bound_test bound limit number }
{
    match bound {
        Bound::Maximum => number <= limit,
        Bound::ExclusiveMaximum => number < limit,
        Bound::Minimum => limit <= number,
        Bound::ExclusiveMinimum => limit < number,
    }
}

fn is_within(bound: Bound, limit: i128, value: &Value) -> bool
    ensures { result ≡ number_is (bound_test bound limit) (view value.now) }
{
    match whole(value) {
        Some(number) => is_so(bound, limit, number),
        None => true,
    }
}

fn is_divided(divisor: NonZeroU64, value: &Value) -> bool
    ensures { result ≡ number_is (is_whole_multiple divisor.value) (view value.now) }
{
    match whole(value) {
        Some(number) => is_multiple(divisor.get(), number),
        None => true,
    }
}

fn count_items(items: &[Value]) -> u64
    ensures { result ≡ items_counted (items_view items.now) }
{
    items.len() as u64
}

fn count_members(members: &Map<String, Value>) -> u64
    ensures { result ≡ members_counted (members_view members.now.entries) }
{
    members.len() as u64
}

fn has_count(count: Count, limit: u64, value: &Value) -> bool
    ensures { (matches : List ℕ → List ℕ → Bool) → wrong matches (count_assertion count limit) (view value.now) ≡ note_unless result (count_kind count limit) (view value.now) }
{
    match (count, value) {
        (Count::MaxLength, Value::String(text)) => code_points(text.as_str()) as u64 <= limit,
        (Count::MinLength, Value::String(text)) => limit <= code_points(text.as_str()) as u64,
        (Count::MaxItems, Value::Array(items)) => count_items(items) <= limit,
        (Count::MinItems, Value::Array(items)) => limit <= count_items(items),
        (Count::MaxProperties, Value::Object(members)) => count_members(members) <= limit,
        (Count::MinProperties, Value::Object(members)) => limit <= count_members(members),
        _ => true,
    }
}

// What is wrong with a number that stands otherwise to a limit.
fn out_of_bound<'a>(bound: Bound, limit: WholeNumber, value: &Value) -> Option<Wrong<'a>>
    ensures { option_map (note_of (view value.now)) result ≡ head (note_unless (number_is (bound_test bound (integer_of limit)) (view value.now)) (bound_kind bound (integer_of limit)) (view value.now)) }
{
    unless(
        is_within(bound, limit.get(), value),
        Wrong::Limit { bound, limit },
    )
}

fn has_distinct_items(alloc: Global, value: &Value) -> Result<bool, AllocError>
    ensures { IfOk result (λ b. b ≡ list_is are_distinct (view value.now)) }
{
    match value {
        Value::Array(items) => all_distinct(alloc, items.as_slice()),
        _ => Ok(true),
    }
}

const fn old_bound_of(side: Limit, strict: bool) -> Bound
    ensures { result ≡ old_bound side strict }
{
    match (side, strict) {
        (Limit::Maximum, false) => Bound::Maximum,
        (Limit::Maximum, true) => Bound::ExclusiveMaximum,
        (Limit::Minimum, false) => Bound::Minimum,
        (Limit::Minimum, true) => Bound::ExclusiveMinimum,
    }
}

fn unless<'a>(accepted: bool, wrong: Wrong<'a>) -> Option<Wrong<'a>>
    ensures { (d : Data) → option_map (note_of d) result ≡ head (note_unless accepted (kind_of wrong.entry) d) }
{
    if accepted { None } else { Some(wrong) }
}

fn listed<'a>(alloc: Global, first: Option<Wrong<'a>>) -> Result<Vec<Wrong<'a>>, AllocError>
    ensures { IfOk result (λ ws. ws.items ≡ in_list first.entry) }
{
    let mut found = Vec::new(alloc);
    if let Some(wrong) = first {
        found.push(wrong)?;
    }
    Ok(found)
}

impl<'s> Assertion<'s> {
    /// The first thing that is wrong with a value, if any is.
    ///
    /// It walks no more of the value than the keyword asks for. `uniqueItems` sorts references to the items.
    ///
    /// # Errors
    ///
    /// Where memory for the references is refused.
    pub fn first_wrong<'a>(
        &'a self,
        alloc: Global,
        value: &Value,
    ) -> Result<Option<Wrong<'a>>, AllocError>
        ensures { IfOk result (λ w. (matches : List ℕ → List ℕ → Bool) → option_map (note_of (view value.now)) w ≡ head (wrong matches (assertion_of self.now) (view value.now))) }
    {
        Ok(match self {
            Assertion::Types(names) => unless(names.accept(value), Wrong::Types(names)),
            Assertion::Enumeration(options) => unless(
                options.contains(value),
                Wrong::Enumeration(options.as_slice()),
            ),
            Assertion::Constant(expected) => {
                unless(equal(value, *expected), Wrong::Constant(*expected))
            }
            Assertion::MultipleOf(divisor) => unless(
                is_divided(*divisor, value),
                Wrong::MultipleOf(*divisor),
            ),
            Assertion::Limit { bound, limit } => out_of_bound(*bound, *limit, value),
            Assertion::LimitOfDraft4 {
                side,
                limit,
                strict,
            } => { out_of_bound(old_bound_of(*side, *strict), *limit, value) }
            Assertion::Count { count, limit } => unless(
                has_count(*count, *limit, value),
                Wrong::Count {
                    count: *count,
                    limit: *limit,
                },
            ),
            Assertion::UniqueItems => unless(has_distinct_items(alloc, value)?, Wrong::UniqueItems),
            Assertion::Required(names) => first_missing(*names, value).map(Wrong::Required),
            Assertion::DependentRequired(entries) => {
                first_missing_beside(*entries, value).map(Wrong::Required)
            }
        })
    }

    /// Whether nothing is wrong with a value.
    ///
    /// # Errors
    ///
    /// Where memory is refused, which `uniqueItems` alone takes.
    pub fn accept(&self, alloc: Global, value: &Value) -> Result<bool, AllocError>
        ensures { IfOk result (λ b. (matches : List ℕ → List ℕ → Bool) → b ≡ is_empty (wrong matches (assertion_of self.now) (view value.now))) }
    {
        Ok(match self {
            Assertion::Types(names) => names.accept(value),
            Assertion::Enumeration(options) => options.contains(value),
            Assertion::Constant(expected) => equal(value, *expected),
            Assertion::MultipleOf(divisor) => is_divided(*divisor, value),
            Assertion::Limit { bound, limit } => is_within(*bound, limit.get(), value),
            Assertion::LimitOfDraft4 {
                side,
                limit,
                strict,
            } => is_within(old_bound_of(*side, *strict), limit.get(), value),
            Assertion::Count { count, limit } => has_count(*count, *limit, value),
            Assertion::UniqueItems => has_distinct_items(alloc, value)?,
            Assertion::Required(names) => first_missing(*names, value).is_none(),
            Assertion::DependentRequired(entries) => first_missing_beside(
                *entries, value,
            ).is_none(),
        })
    }

    /// All that is wrong with a value, in order: a name that is missing each by itself, and one thing at most for any other keyword.
    ///
    /// # Errors
    ///
    /// Where memory is refused.
    pub fn wrong<'a>(&'a self, alloc: Global, value: &Value) -> Result<Vec<Wrong<'a>>, AllocError>
        ensures { IfOk result (λ ws. (matches : List ℕ → List ℕ → Bool) → notes_of (view value.now) ws.items ≡ wrong matches (assertion_of self.now) (view value.now)) }
    {
        match self {
            Assertion::Required(names) => all_missing(alloc, *names, value),
            Assertion::DependentRequired(entries) => all_missing_beside(alloc, *entries, value),
            _ => listed(alloc, self.first_wrong(alloc, value)?),
        }
    }
}
