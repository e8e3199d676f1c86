//! Keywords that only assert, read from the members of a schema.
ghost use Rattle.std.specs.Prelude.{◌≡◌, IfOk, IfSome, IfNone, codes, option_map, false, true};
ghost use Rattle.serde_json.specs.View.{view, items_view};
ghost use Rattle.schema_meaning.specs.Members.{is_listed};
ghost use Rattle.schema_definitions.specs.Rows.{Context, read_among, readers};
ghost use Rattle.assertions.specs.Names.{name_of, limit_name, strict_name, count_name, assertion_names};
ghost use Rattle.assertions.specs.Arms.{row_of, limit_row, strict_row};
ghost use Rattle.assertions.specs.Reads.{ReadsAs, Surrounds, Makes, IsNameList, required_names_row};
ghost use Rattle.assertions.specs.declared.keyword.AssertionKeyword.TheVariants as keyword;

use crate::assertion::Assertion;
use crate::keyword::{AssertionKeyword, Count, Limit};
use crate::names::{NameList, first_refused, name_list};
use crate::values::{
    bound_of, bounded, bounded_in_draft_4, counted, enumeration, exclusive_bound_of, is_draft_4,
    is_true, multiple_of, types,
};
use schema_drafts::draft::Draft;
use serde_json::{Map, Value};
use std::alloc::{AllocError, Global};

/// What a member of a schema is, where its name is that of a keyword that only asserts.
#[derive(Drop)]
pub enum Reading<'s> {
    Read(Assertion<'s>),
    /// It asserts nothing.
    Nothing,
    /// The keyword may not have the value: what was expected in its place.
    Value {
        expected: &'static str,
    },
    /// The same of an entry of the value.
    Entry {
        name: &'s str,
        expected: &'static str,
    },
}

fn asserted<'s>(read: Option<Assertion<'s>>, expected: &'static str) -> Reading<'s>
    ensures { Makes read.entry expected.now result }
{
    match read {
        Some(assertion) => Reading::Read(assertion),
        None => Reading::Value { expected },
    }
}

fn limit<'s>(draft: Draft, side: Limit, value: &Value, strict_beside: Option<&Value>) -> Reading<'s>
    ensures { (c : Context) → Surrounds draft (option_map (λ v. view v.now) strict_beside.entry) (limit_name side) c → ReadsAs c (limit_name side) (limit_row side c (view value.now)) result }
{
    if is_draft_4(draft) {
        return asserted(
            bounded_in_draft_4(side, is_true(strict_beside), value),
            "number",
        );
    }
    asserted(bounded(bound_of(side), value), "number")
}

fn exclusive_limit<'s>(draft: Draft, side: Limit, value: &Value) -> Reading<'s>
    ensures { (c : Context) → c.site.dialect.draft ≡ draft → ReadsAs c (strict_name side) (strict_row side c (view value.now)) result }
{
    if is_draft_4(draft) {
        return Reading::Nothing;
    }
    asserted(bounded(exclusive_bound_of(side), value), "number")
}

fn unique_items<'s>(value: &Value) -> Reading<'s>
    ensures { (c : Context) → ReadsAs c (codes "uniqueItems") (row_of keyword.UniqueItems c (view value.now)) result }
{
    match value.as_bool() {
        Some(true) => Reading::Read(Assertion::UniqueItems),
        Some(false) => Reading::Nothing,
        None => asserted(None, "boolean"),
    }
}

fn listed_names<'s>(names: &'s [Value], list: NameList) -> Reading<'s>
    requires { IsNameList (items_view names.now) list }
    ensures { (c : Context) → ReadsAs c (codes "required") (required_names_row c (items_view names.now)) result }
{
    match list {
        NameList::Unique => {
            if names.is_empty() {
                Reading::Nothing
            } else {
                Reading::Read(Assertion::Required(names))
            }
        }
        _ => asserted(None, "unique names"),
    }
}

fn required<'s>(alloc: Global, value: &'s Value) -> Result<Reading<'s>, AllocError>
    ensures { IfOk result (λ r. (c : Context) → ReadsAs c (codes "required") (row_of keyword.Required c (view value.now)) r) }
{
    match value.as_array() {
        Some(names) => {
            let list = name_list(alloc, names.as_slice())?;
            Ok(listed_names(names.as_slice(), list))
        }
        None => Ok(asserted(None, "unique names")),
    }
}

fn dependent_required<'s>(alloc: Global, value: &'s Value) -> Result<Reading<'s>, AllocError>
    ensures { IfOk result (λ r. (c : Context) → ReadsAs c (codes "dependentRequired") (row_of keyword.DependentRequired c (view value.now)) r) }
{
    let Some(entries) = value.as_object() else {
        return Ok(asserted(None, "object"));
    };
    match first_refused(alloc, entries)? {
        Some(refused) => Ok(refused),
        None => Ok(Reading::Read(Assertion::DependentRequired(entries))),
    }
}

// What a keyword is, read from its value and the strict limit beside.
fn read_keyword<'s>(
    alloc: Global,
    draft: Draft,
    keyword: AssertionKeyword,
    value: &'s Value,
    strict_beside: Option<&Value>,
) -> Result<Reading<'s>, AllocError>
    ensures { IfOk result (λ r. (c : Context) → Surrounds draft (option_map (λ v. view v.now) strict_beside.entry) (name_of keyword) c → ReadsAs c (name_of keyword) (row_of keyword c (view value.now)) r) }
{
    match keyword {
        AssertionKeyword::Type => Ok(asserted(types(alloc, value)?, "type name")),
        AssertionKeyword::Enum => Ok(asserted(enumeration(alloc, value)?, "list")),
        AssertionKeyword::Const => Ok(Reading::Read(Assertion::Constant(value))),
        AssertionKeyword::MultipleOf => Ok(asserted(multiple_of(value), "positive number")),
        AssertionKeyword::Limit(side) => Ok(limit(draft, side, value, strict_beside)),
        AssertionKeyword::ExclusiveLimit(side) => Ok(exclusive_limit(draft, side, value)),
        AssertionKeyword::Count(count) => Ok(asserted(counted(count, value), "count")),
        AssertionKeyword::UniqueItems => Ok(unique_items(value)),
        AssertionKeyword::Required => required(alloc, value),
        AssertionKeyword::DependentRequired => dependent_required(alloc, value),
    }
}

/// What a member of a schema is that counts, where its name is that of a keyword that only asserts (`pattern` left aside); for any
/// other name there is none.
///
/// Beside `maximum` stands `exclusiveMaximum`, where it counts, and beside `minimum` `exclusiveMinimum`. What is read lends the value,
/// and takes memory for the types, for references to the values of `enum` and, while it looks for names that are there twice, for
/// references to these.
///
/// # Errors
///
/// Where memory is refused.
pub fn read<'s>(
    alloc: Global,
    draft: Draft,
    name: &str,
    value: &'s Value,
    strict_beside: Option<&Value>,
) -> Result<Option<Reading<'s>>, AllocError>
    ensures read { IfOk result (λ o. IfSome o (λ r. (c : Context) → Surrounds draft (option_map (λ v. view v.now) strict_beside.entry) name.now c → ReadsAs c name.now (read_among readers c name.now (view value.now)) r)) }
    ensures named { IfOk result (λ o. IfSome o (λ r. is_listed name.now assertion_names ≡ true)) }
    ensures other { IfOk result (λ o. IfNone o (is_listed name.now assertion_names ≡ false)) }
{
    match AssertionKeyword::from_name(name) {
        Some(keyword) => {
            let reading = read_keyword(alloc, draft, keyword, value, strict_beside)?;
            Ok(Some(reading))
        }
        None => Ok(None),
    }
}
