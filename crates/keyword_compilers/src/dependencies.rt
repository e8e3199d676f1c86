//! The entries of `dependencies`.
ghost use Rattle.std.specs.Prelude.{◌≡◌, IfOk, map};
ghost use Rattle.serde_json.specs.View.{view, members_view};
ghost use Rattle.compiled_keywords.specs.Owned.{depending, dependency_of};
ghost use Rattle.keyword_compilers.specs.Numbers.{dependency_by, dependencies_by, rest_behind};

use crate::names::texts;
use crate::nodes::{first, rest};
use compiled_keywords::subschemas::{Dependency, NamedDependency};
use serde_json::{Map, Value};
use std::alloc::{AllocError, Global};

fn dependency(alloc: Global, entry: &Value, node: usize) -> Result<Dependency, AllocError>
    ensures { IfOk result (λ d. dependency_of d ≡ dependency_by node (view entry.now)) }
{
    match entry {
        Value::Array(names) => Ok(Dependency::Needs(texts(alloc, names)?)),
        _ => Ok(Dependency::Applies(node)),
    }
}

// The nodes behind those of an entry.
fn left_behind<'n>(nodes: &'n [usize], entry: &Value) -> &'n [usize]
    ensures { result.now ≡ rest_behind nodes.now (view entry.now) }
{
    match entry {
        Value::Array(_) => nodes,
        _ => rest(nodes),
    }
}

/// Each name with its entry: the texts of a list, or the node of a schema.
pub(crate) fn dependencies(
    alloc: Global,
    entries: &Map<String, Value>,
    nodes: &[usize],
) -> Result<Vec<NamedDependency>, AllocError>
    ensures { IfOk result (λ v. map depending v.items ≡ dependencies_by nodes.now (members_view entries.now.entries)) }
{
    let mut found = Vec::new(alloc);
    let mut left = nodes;
    for (name, entry) in entries.iter() {
        let dependency = dependency(alloc, entry, first(left))?;
        found.push(NamedDependency {
            name: name.clone()?,
            dependency,
        })?;
        left = left_behind(left, entry);
    }
    Ok(found)
}
