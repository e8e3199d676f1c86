//! The keyword `dependencies`: for each name a list of names, or a schema.
ghost use Rattle.std.specs.Prelude.{◌≡◌, ◌∷◌, [], IfOk, IfSome, IfNone, Ok, codes};
ghost use Rattle.serde_json.specs.View.{view, items_view, members_view};
ghost use Rattle.json_values.specs.Parts.{name as named};
ghost use Rattle.schema_definitions.specs.Rows as rows;
ghost use Rattle.schema_definitions.specs.Values.{names_in};
ghost use Rattle.assertions.specs.Texts.{texts_of};
ghost use Rattle.applicators.specs.Shapes.{dependency_at, dependencies_in};
ghost use Rattle.applicator_reading.specs.Dependencies.{IsWrong};
ghost use Rattle.applicator_reading.specs.Reads.{ReadsAs, IsByAnswers, site_in};

use crate::reading::Reading;
use applicators::applicator::Applicator;
use applicators::asks::Asks;
use applicators::combining::Combining;
use assertions::names::{NameList, name_list};
use schema_places::place::is_schema;
use serde_json::{Map, Value};
use std::alloc::{AllocError, Global};

// What is wrong with the names of an entry.
fn refused_names<'s>(
    alloc: Global,
    name: &'s str,
    names: &[Value],
) -> Result<Option<Reading<'s>>, AllocError>
    ensures right { IfOk result (λ o. IfNone o
        ((x : rows.Context) → rows.entry_names x (codes "dependencies") name.now (names_in (items_view names.now))
        ≡ Ok (texts_of (items_view names.now)))) }
    ensures wrong { IfOk result (λ o. IfSome o
        (λ r. (x : rows.Context) → IsWrong x r
        (rows.entry_names x (codes "dependencies") name.now (names_in (items_view names.now))))) }
    ensures answers { IfOk result (λ o. IfSome o (λ r. IsByAnswers r)) }
{
    let expected = "unique names";
    match name_list(alloc, names)? {
        NameList::Unique => Ok(None),
        NameList::Repeated => Ok(Some(Reading::Entry { name, expected })),
        NameList::Other => Ok(Some(Reading::Value { expected })),
    }
}

// What is wrong with an entry that is no list.
fn refused_schema<'s>(name: &'s str, entry: &Value) -> Option<Reading<'s>>
    ensures right { IfNone result ((x : rows.Context)
        → rows.subschema x (named name.now ∷ named (codes "dependencies") ∷ []) (view entry.now)
        ≡ Ok (site_in x (named name.now ∷ named (codes "dependencies") ∷ []) (view entry.now))) }
    ensures wrong { IfSome result (λ r. (x : rows.Context)
        → IsWrong x r (rows.subschema x (named name.now ∷ named (codes "dependencies") ∷ []) (view entry.now))) }
    ensures answers { IfSome result (λ r. IsByAnswers r) }
{
    if is_schema(entry) {
        None
    } else {
        Some(Reading::Entry {
            name,
            expected: "schema",
        })
    }
}

// What is wrong with an entry.
fn refused_entry<'s>(
    alloc: Global,
    name: &'s str,
    entry: &Value,
) -> Result<Option<Reading<'s>>, AllocError>
    ensures right { IfOk result (λ o. IfNone o
        ((x : rows.Context) → rows.dependency_entry x (codes "dependencies") name.now (view entry.now)
        ≡ Ok (name.now, dependency_at (site_in x) (codes "dependencies") name.now (view entry.now)))) }
    ensures wrong { IfOk result (λ o. IfSome o
        (λ r. (x : rows.Context) → IsWrong x r
        (rows.dependency_entry x (codes "dependencies") name.now (view entry.now)))) }
    ensures answers { IfOk result (λ o. IfSome o (λ r. IsByAnswers r)) }
{
    match entry.as_array() {
        Some(names) => refused_names(alloc, name, names.as_slice()),
        None => Ok(refused_schema(name, entry)),
    }
}

// What is wrong with the first entry that is refused.
fn first_refused<'s>(
    alloc: Global,
    entries: &'s Map<String, Value>,
) -> Result<Option<Reading<'s>>, AllocError>
    ensures right { IfOk result (λ o. IfNone o
        ((x : rows.Context) → rows.dependency_entries x (codes "dependencies") (members_view entries.now.entries)
        ≡ Ok (dependencies_in (site_in x) (codes "dependencies") (members_view entries.now.entries)))) }
    ensures wrong { IfOk result (λ o. IfSome o
        (λ r. (x : rows.Context) → IsWrong x r
        (rows.dependency_entries x (codes "dependencies") (members_view entries.now.entries)))) }
    ensures answers { IfOk result (λ o. IfSome o (λ r. IsByAnswers r)) }
{
    for (name, entry) in entries.iter() {
        if let Some(refused) = refused_entry(alloc, name.as_str(), entry)? {
            return Ok(Some(refused));
        }
    }
    Ok(None)
}

/// What the member `dependencies` of a schema is, where it counts.
///
/// Of the entries that are refused it names the first. What is read lends the value.
///
/// # Errors
///
/// Where memory is refused, which it takes while it looks for names that are there twice.
pub fn dependencies<'r>(alloc: Global, value: &'r Value) -> Result<Reading<'r>, AllocError>
    ensures read { IfOk result (λ r. (x : rows.Context)
        → ReadsAs x (codes "dependencies") (rows.read_among rows.readers x (codes "dependencies")
        (view value.now)) r) }
    ensures answers { IfOk result (λ r. IsByAnswers r) }
{
    let Some(entries) = value.as_object() else {
        return Ok(Reading::Value { expected: "object" });
    };
    match first_refused(alloc, entries)? {
        Some(refused) => Ok(refused),
        None => Ok(Reading::Applied(Applicator {
            keyword: "dependencies",
            asks: Asks::Dependencies(entries),
            combining: Combining::Every,
        })),
    }
}
