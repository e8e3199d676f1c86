//! Compiled keywords that only assert.
ghost use Rattle.std.specs.Prelude.{◌≡◌, ℕ, List, Bool, IfOk, map, string_bytes};
ghost use Rattle.std.specs.List.{filter, flat_map};
ghost use Rattle.serde_json.specs.Data.{string};
ghost use Rattle.serde_json.specs.Find.{get};
ghost use Rattle.serde_json.specs.View.{view};
ghost use Rattle.schema_meaning.specs.Members.{is_empty};
ghost use Rattle.schema_meaning.specs.Questions.{if_member};
ghost use Rattle.schema_meaning.specs.Keywords.{none_there, missing, missing_beside, needed, wrong};
ghost use Rattle.schema_engine.specs.Places.{value_at};
ghost use Rattle.compiled_keywords.specs.Owned.{needed_by, depending};
ghost use Rattle.compiled_keywords.specs.Shapes.{assertion_of};

use crate::options::Options;
use crate::required::RequiredNames;
use crate::subschemas::{Dependency, NamedDependency, NeededNames};
use assertions::assertion as plain;
use schema_engine::place::Place;
use serde_json::Value;
use std::alloc::{AllocError, Global};
use value_checks::equality::equal;

// In an object of no more members than these, the names of `required` are sought by a walk.
const MOST_WALKED: usize = 8;

/// A keyword that only asserts, `pattern` left aside, with what its value says.
#[derive(Drop)]
pub enum Assertion {
    /// One that needs no part of a schema: types, numbers, counts and items that differ.
    Plain(plain::Assertion<'static>),
    Enumeration(Options),
    Constant(Value),
    Required(RequiredNames),
    DependentRequired(Vec<NeededNames>),
}

// Whether a value has no member of a name.
pub(crate) fn lacks(value: &Value, name: &str) -> bool
    ensures { result ≡ none_there (get name.now (view value.now)) }
{
    match value.get(name) {
        Some(_) => false,
        None => true,
    }
}

#[inline(never)]
fn lacks_none(names: &[String], value: &Value) -> bool
    ensures { result ≡ is_empty (filter (λ k. none_there (get k (view value.now))) (map string_bytes names.now)) }
{
    for name in names {
        if lacks(value, name.as_str()) {
            return false;
        }
    }
    true
}

// Whether an object has members of all these names. Another value is accepted.
fn has_all(names: &[String], value: &Value) -> bool
    ensures { result ≡ is_empty (missing (map string_bytes names.now) (view value.now)) }
{
    match value {
        Value::Object(_) => lacks_none(names, value),
        _ => true,
    }
}

// The same where a name is a member's.
fn has_all_beside(name: &str, names: &[String], value: &Value) -> bool
    ensures { result ≡ is_empty (if_member (get name.now (view value.now))
        (λ e. missing (map string_bytes names.now) (view value.now))) }
{
    if lacks(value, name) {
        true
    } else {
        has_all(names, value)
    }
}

// Whether an object has members of all the names of `required`. The members of a small one are walked.
fn has_required(names: &RequiredNames, value: &Value) -> bool
    ensures { result ≡ is_empty (missing (map string_bytes names.now.listed.items) (view value.now)) }
{
    match value {
        Value::Object(members) => {
            if members.len() <= MOST_WALKED {
                names.are_in(members)
            } else {
                lacks_none(&names.listed, value)
            }
        }
        _ => true,
    }
}

#[inline(never)]
fn has_needed(entries: &[NeededNames], value: &Value) -> bool
    ensures { result ≡ is_empty (missing_beside (map needed_by entries.now) (view value.now)) }
{
    for entry in entries {
        if !has_all_beside(entry.name.as_str(), &entry.needed, value) {
            return false;
        }
    }
    true
}

fn has_named(entry: &NamedDependency, value: &Value) -> bool
    ensures { result ≡ is_empty (if_member (get (depending entry.now).0 (view value.now))
        (λ e. needed (view value.now) (depending entry.now).1)) }
{
    match &entry.dependency {
        Dependency::Needs(names) => has_all_beside(entry.name.as_str(), names, value),
        Dependency::Applies(_) => true,
    }
}

// Whether no name is missing beside the names of the entries that list some.
#[inline(never)]
pub(crate) fn has_dependencies(entries: &[NamedDependency], value: &Value) -> bool
    ensures { result ≡ is_empty (flat_map (λ p. if_member (get p.0 (view value.now))
        (λ e. needed (view value.now) p.1)) (map depending entries.now)) }
{
    for entry in entries {
        if !has_named(entry, value) {
            return false;
        }
    }
    true
}

impl Assertion {
    /// Whether nothing is wrong with a value.
    ///
    /// # Errors
    ///
    /// Where memory was refused, which `uniqueItems` alone takes.
    pub fn accept(&self, alloc: Global, value: &Value) -> Result<bool, AllocError>
        ensures { IfOk result (λ b. (matches : List ℕ → List ℕ → Bool)
            → b ≡ is_empty (wrong matches (assertion_of self.now) (view value.now))) }
    {
        match self {
            Assertion::Plain(assertion) => assertion.accept(alloc, value),
            Assertion::Enumeration(options) => Ok(options.contains(value)),
            Assertion::Constant(expected) => Ok(equal(value, expected)),
            Assertion::Required(names) => Ok(has_required(names, value)),
            Assertion::DependentRequired(entries) => Ok(has_needed(entries, value)),
        }
    }

    /// Whether nothing is wrong with what stands at a place. A member's name is copied to be looked at as a text.
    ///
    /// # Errors
    ///
    /// Where memory was refused.
    pub(crate) fn accept_at(&self, alloc: Global, place: Place<'_>) -> Result<bool, AllocError>
        ensures { IfOk result (λ b. (matches : List ℕ → List ℕ → Bool)
            → b ≡ is_empty (wrong matches (assertion_of self.now) (value_at place.entry))) }
    {
        match place {
            Place::Value(value) => self.accept(alloc, value),
            Place::Name(name) => self.accept_name(alloc, name),
        }
    }

    // The same of a name. It stands apart, so that no value waits for what a name needs.
    #[inline(never)]
    fn accept_name(&self, alloc: Global, name: &str) -> Result<bool, AllocError>
        ensures { IfOk result (λ b. (matches : List ℕ → List ℕ → Bool)
            → b ≡ is_empty (wrong matches (assertion_of self.now) (string name.now))) }
    {
        let text = Value::String(String::from_str(alloc, name)?);
        self.accept(alloc, &text)
    }
}
