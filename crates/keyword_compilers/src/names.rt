//! Copies of names and texts.
ghost use Rattle.std.specs.Prelude.{◌≡◌, ◌++◌, IfOk, OnOk, map, string_bytes};
ghost use Rattle.serde_json.specs.Find.{as_str};
ghost use Rattle.serde_json.specs.View.{view, items_view, members_view};
ghost use Rattle.schema_definitions.specs.Rows.{member_names};
ghost use Rattle.schema_definitions.specs.Words.{listed};
ghost use Rattle.assertions.specs.Texts.{texts_of, texts_in as texts_among, entries_of};
ghost use Rattle.applicators.specs.Sites.{names_declared};
ghost use Rattle.compiled_keywords.specs.Owned.{named, needed_by};
ghost use Rattle.keyword_compilers.specs.Numbers.{beside};

use crate::nodes::{first, rest};
use compiled_keywords::names::SortedNames;
use compiled_keywords::subschemas::{NamedNode, NeededNames};
use serde_json::{Map, Value};
use std::alloc::{AllocError, Global};
use value_checks::rising::entries_rise;

fn push_text(value: &Value, into: &mut Vec<String>) -> Result<(), AllocError>
    ensures { OnOk result (map string_bytes into.new.items ≡ map string_bytes into.old.items
        ++ listed (as_str (view value.now))) }
{
    if let Value::String(text) = value {
        into.push(text.clone()?)?;
    }
    Ok(())
}

/// The texts of a list.
pub(crate) fn texts(alloc: Global, values: &[Value]) -> Result<Vec<String>, AllocError>
    ensures { IfOk result (λ v. map string_bytes v.items ≡ texts_of (items_view values.now)) }
{
    let mut found = Vec::new(alloc);
    for value in values {
        push_text(value, &mut found)?;
    }
    Ok(found)
}

fn texts_in(alloc: Global, value: &Value) -> Result<Vec<String>, AllocError>
    ensures { IfOk result (λ v. map string_bytes v.items ≡ texts_among (view value.now)) }
{
    match value {
        Value::Array(values) => texts(alloc, values),
        _ => Ok(Vec::new(alloc)),
    }
}

/// Each name of an object with the texts of its list.
pub(crate) fn needed(
    alloc: Global,
    entries: &Map<String, Value>,
) -> Result<Vec<NeededNames>, AllocError>
    ensures { IfOk result (λ v. map needed_by v.items ≡ entries_of (members_view entries.now.entries)) }
{
    let mut found = Vec::new(alloc);
    for (name, entry) in entries.iter() {
        let needed = texts_in(alloc, entry)?;
        found.push(NeededNames {
            name: name.clone()?,
            needed,
        })?;
    }
    Ok(found)
}

fn names_of(alloc: Global, schemas: &Map<String, Value>) -> Result<Vec<String>, AllocError>
    ensures { IfOk result (λ v. map string_bytes v.items ≡ member_names (members_view schemas.now.entries)) }
{
    let mut names = Vec::with_capacity(alloc, schemas.len())?;
    for (name, _) in schemas.iter() {
        names.push(name.clone()?)?;
    }
    Ok(names)
}

/// The names that an object declares, where there is one.
pub(crate) fn names_in(
    alloc: Global,
    schemas: Option<&Map<String, Value>>,
) -> Result<SortedNames, AllocError>
    ensures { IfOk result (λ names. map string_bytes names.list.items ≡ names_declared schemas.entry) }
{
    match schemas {
        Some(schemas) => {
            entries_rise(schemas);
            let list = names_of(alloc, schemas)?;
            Ok(SortedNames { list })
        }
        None => Ok(SortedNames {
            list: Vec::new(alloc),
        }),
    }
}

/// Each name of an object of schemas, with the node of its schema.
pub(crate) fn named_nodes(
    alloc: Global,
    schemas: &Map<String, Value>,
    nodes: &[usize],
) -> Result<Vec<NamedNode>, AllocError>
    ensures { IfOk result (λ v. map named v.items ≡ beside (member_names (members_view schemas.now.entries)) nodes.now) }
{
    let mut found = Vec::with_capacity(alloc, schemas.len())?;
    let mut left = nodes;
    for (name, _) in schemas.iter() {
        found.push(NamedNode {
            name: name.clone()?,
            node: first(left),
        })?;
        left = rest(left);
    }
    Ok(found)
}
