//! The members of an object that `properties` and `patternProperties` beside do not declare.
ghost use Rattle.std.specs.Prelude.{◌≡◌, IfOk, map, string_bytes};
ghost use Rattle.std.specs.List.{list_any, filter};
ghost use Rattle.serde_json.specs.View.{view, members_view};
ghost use Rattle.json_values.specs.Patterns.{matched};
ghost use Rattle.schema_meaning.specs.Members.{is_listed};
ghost use Rattle.schema_meaning.specs.Questions.{is_declared as is_among, listed_members, other_members};
ghost use Rattle.schema_definitions.specs.Rows.{member_names};
ghost use Rattle.schema_patterns.specs.Read.{reads};
ghost use Rattle.applicators.specs.Shapes.{names_declared, declared_by, others_among};

use schema_patterns::matches::Matches;
use serde_json::{Map, Value};
use std::alloc::{AllocError, Global};

/// What stands at `properties` and at `patternProperties` beside `additionalProperties`, where there is any.
#[derive(Clone, Copy, Debug)]
pub struct DeclaredOf<N, P> {
    pub names: Option<N>,
    pub patterns: Option<P>,
}

/// The objects there, of a schema that is read.
pub type Declared<'r> = DeclaredOf<&'r Map<String, Value>, &'r Map<String, Value>>;

fn is_named(names: Option<&Map<String, Value>>, name: &str) -> bool
    ensures { result ≡ is_listed name.now (names_declared names.entry) }
{
    match names {
        Some(schemas) => schemas.contains_key(name),
        None => false,
    }
}

fn is_matched_by_some(
    alloc: Global,
    matches: &Matches,
    patterns: &Map<String, Value>,
    name: &str,
) -> Result<bool, AllocError>
    ensures { IfOk result (λ b. b ≡ list_any (λ p. matched (reads matches.now) p name.now) (member_names (members_view patterns.now.entries))) }
{
    for (pattern, _) in patterns.iter() {
        if matches.is_match(alloc, pattern.as_str(), name)? {
            return Ok(true);
        }
    }
    Ok(false)
}

fn is_matched(
    alloc: Global,
    matches: &Matches,
    patterns: Option<&Map<String, Value>>,
    name: &str,
) -> Result<bool, AllocError>
    ensures { IfOk result (λ b. b ≡ list_any (λ p. matched (reads matches.now) p name.now) (names_declared patterns.entry)) }
{
    match patterns {
        Some(patterns) => is_matched_by_some(alloc, matches, patterns, name),
        None => Ok(false),
    }
}

// By its name, or by a pattern that matches its name.
pub(crate) fn is_declared(
    alloc: Global,
    matches: &Matches,
    declared: Declared<'_>,
    name: &str,
) -> Result<bool, AllocError>
    ensures { IfOk result (λ b. b ≡ is_among (reads matches.now) (declared_by declared.entry) name.now) }
{
    if is_named(declared.names, name) {
        Ok(true)
    } else {
        is_matched(alloc, matches, declared.patterns, name)
    }
}

fn names_of_object(
    alloc: Global,
    matches: &Matches,
    declared: Declared<'_>,
    members: &Map<String, Value>,
) -> Result<Vec<String>, AllocError>
    ensures { IfOk result (λ names. map string_bytes names.items ≡ map (λ m. m.0) (others_among (reads matches.now) (declared_by declared.entry) (listed_members (members_view members.now.entries)))) }
{
    let mut names = Vec::new(alloc);
    for (name, _) in members.iter() {
        if !is_declared(alloc, matches, declared, name.as_str())? {
            names.push(name.clone()?)?;
        }
    }
    Ok(names)
}

/// The names of a value's members that are not declared, in order.
///
/// It looks at each pair of a pattern and a member's name at most once, and copies these names.
///
/// # Errors
///
/// Where memory is refused.
pub fn undeclared_names(
    alloc: Global,
    matches: &Matches,
    declared: Declared<'_>,
    value: &Value,
) -> Result<Vec<String>, AllocError>
    ensures { IfOk result (λ names. map string_bytes names.items ≡ map (λ m. m.0) (other_members (reads matches.now) (declared_by declared.entry) (view value.now))) }
{
    match value {
        Value::Object(members) => names_of_object(alloc, matches, declared, members),
        _ => Ok(Vec::new(alloc)),
    }
}
