//! The subschemas in the values of applicators.
ghost use Rattle.std.specs.Prelude.{◌≡◌, ◌++◌, List, [], ◌∷◌, IfOk, OnOk, map};
ghost use Rattle.serde_json.specs.Data.{Data};
ghost use Rattle.serde_json.specs.View.{view, items_view, members_view};
ghost use Rattle.json_values.specs.Parts.{Part};
ghost use Rattle.schema_definitions.specs.Sites.{Site};
ghost use Rattle.schema_definitions.specs.Rows.{sites_named, sites_applied};
ghost use Rattle.applicators.specs.Asks.{leads_by};
ghost use Rattle.applicators.specs.Shapes.{place_of, site_of, sites_of_list, sites_of_map, dependency_at, dependencies_in, leads_of};

use crate::applicator::Applicator;
use crate::asks::Asks;
use crate::subschema::{Entry, Subschema};
use serde_json::{Map, Value};
use std::alloc::{AllocError, Global};

fn push_whole<'r>(
    found: &mut Vec<Subschema<'r>>,
    keyword: &'static str,
    schema: &'r Value,
) -> Result<(), AllocError>
    ensures { OnOk result ((site : List Part → Data → Site) → map (place_of site) found.new.items
        ≡ map (place_of site) found.old.items ++ site_of site keyword.now (view schema.now) ∷ []) }
{
    found.push(Subschema {
        keyword,
        entry: Entry::Whole,
        schema,
    })?;
    Ok(())
}

fn push_list<'r>(
    found: &mut Vec<Subschema<'r>>,
    keyword: &'static str,
    schemas: &'r [Value],
) -> Result<(), AllocError>
    ensures { OnOk result ((site : List Part → Data → Site) → map (place_of site) found.new.items
        ≡ map (place_of site) found.old.items ++ sites_of_list site keyword.now 0 (items_view schemas.now)) }
{
    for (index, schema) in schemas.iter().enumerate() {
        found.push(Subschema {
            keyword,
            entry: Entry::Index(index),
            schema,
        })?;
    }
    Ok(())
}

fn push_map<'r>(
    found: &mut Vec<Subschema<'r>>,
    keyword: &'static str,
    schemas: &'r Map<String, Value>,
) -> Result<(), AllocError>
    ensures { OnOk result ((site : List Part → Data → Site) → map (place_of site) found.new.items
        ≡ map (place_of site) found.old.items ++ sites_named (sites_of_map site keyword.now (members_view schemas.now.entries))) }
{
    for (name, schema) in schemas.iter() {
        found.push(Subschema {
            keyword,
            entry: Entry::Name(name.as_str()),
            schema,
        })?;
    }
    Ok(())
}

// An entry of `dependencies` that is a schema.
fn push_dependency<'r>(
    found: &mut Vec<Subschema<'r>>,
    keyword: &'static str,
    name: &'r str,
    entry: &'r Value,
) -> Result<(), AllocError>
    ensures { OnOk result ((site : List Part → Data → Site) → map (place_of site) found.new.items
        ≡ map (place_of site) found.old.items ++ sites_applied ((name.now, dependency_at site keyword.now name.now (view entry.now)) ∷ [])) }
{
    match entry {
        Value::Array(_) => Ok(()),
        _ => {
            found.push(Subschema {
                keyword,
                entry: Entry::Name(name),
                schema: entry,
            })?;
            Ok(())
        }
    }
}

fn push_dependencies<'r>(
    found: &mut Vec<Subschema<'r>>,
    keyword: &'static str,
    entries: &'r Map<String, Value>,
) -> Result<(), AllocError>
    ensures { OnOk result ((site : List Part → Data → Site) → map (place_of site) found.new.items
        ≡ map (place_of site) found.old.items ++ sites_applied (dependencies_in site keyword.now (members_view entries.now.entries))) }
{
    for (name, entry) in entries.iter() {
        push_dependency(found, keyword, name.as_str(), entry)?;
    }
    Ok(())
}

fn push_subschemas<'r>(
    found: &mut Vec<Subschema<'r>>,
    keyword: &'static str,
    asks: Asks<'r>,
) -> Result<(), AllocError>
    ensures { OnOk result ((site : List Part → Data → Site) → map (place_of site) found.new.items
        ≡ map (place_of site) found.old.items ++ leads_by site keyword.now asks.entry) }
{
    match asks {
        Asks::ItemsFrom { schema, .. } => push_whole(found, keyword, schema),
        Asks::ItemByItem(schemas) => push_list(found, keyword, schemas),
        Asks::DeclaredMembers(schemas) => push_map(found, keyword, schemas),
        Asks::MatchingMembers(schemas) => push_map(found, keyword, schemas),
        Asks::OtherMembers { schema, .. } => push_whole(found, keyword, schema),
        Asks::Members(schema) => push_whole(found, keyword, schema),
        Asks::Names(schema) => push_whole(found, keyword, schema),
        Asks::Triggered(schemas) => push_map(found, keyword, schemas),
        Asks::Dependencies(entries) => push_dependencies(found, keyword, entries),
        Asks::Branches(schemas) => push_list(found, keyword, schemas),
        Asks::Value(schema) => push_whole(found, keyword, schema),
        Asks::Condition { condition, .. } => push_whole(found, keyword, condition),
    }
}

/// The subschemas in an applicator's own value, in order: those of `then` and `else` are theirs.
///
/// It takes memory for the list alone.
///
/// # Errors
///
/// Where memory is refused.
pub fn subschemas<'r>(
    alloc: Global,
    applicator: &Applicator<'r>,
) -> Result<Vec<Subschema<'r>>, AllocError>
    ensures { IfOk result (λ bs. (site : List Part → Data → Site) → map (place_of site) bs.items ≡ leads_of site applicator.now) }
{
    let mut found = Vec::new(alloc);
    push_subschemas(&mut found, applicator.name(), applicator.asks())?;
    Ok(found)
}
