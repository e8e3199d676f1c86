//! The neighbours of a member of a schema.
ghost use Rattle.std.specs.Prelude.{◌≡◌, ◌&&◌, ◌||◌, not, codes, Some, is_some, option_map, option_and_then};
ghost use Rattle.serde_json.specs.Find.{get_member, as_array};
ghost use Rattle.serde_json.specs.View.{view, members_view};
ghost use Rattle.json_values.specs.Texts.{count_items};
ghost use Rattle.schema_definitions.specs.Values.{count_of};
ghost use Rattle.schema_definitions.specs.Rows as rows;
ghost use Rattle.applicators.specs.Shapes.{names_declared, declared_by};
ghost use Rattle.applicator_reading.specs.Beside.{beside_in, declared_in, schema_in, list_in};

use applicators::declared::Declared;
use schema_dialects::Dialect;
use schema_places::place::is_schema;
use serde_json::{Map, Value};

/// What a member of a schema is read beside: the dialect, by which keywords count, and the members of its schema.
#[derive(Clone, Copy)]
pub struct Neighbours<'r> {
    pub dialect: Dialect,
    pub members: &'r Map<String, Value>,
}

fn member_at<'m>(members: &'m Map<String, Value>, name: &str) -> Option<&'m Value>
    ensures { option_map (λ v. view v.now) result ≡ get_member name.now (members_view members.now.entries) }
{
    members.get(name)
}

fn list_length(value: &Value) -> usize
    ensures { result ≡ rows.length_of_list (Some (view value.now)) }
{
    match value.as_array() {
        Some(items) => items.len(),
        None => 0,
    }
}

/// Whether a reference stands among the members.
pub fn has_reference(members: &Map<String, Value>) -> bool
    ensures { result ≡ rows.has_reference (members_view members.now.entries) }
{
    member_at(members, "$ref").is_some()
}

/// The member of a name, where it counts.
pub fn beside<'r>(neighbours: Neighbours<'r>, name: &str) -> Option<&'r Value>
    ensures { option_map (λ v. view v.now) result ≡ beside_in neighbours.entry name.now }
{
    if neighbours
        .dialect
        .counts(has_reference(neighbours.members), name)
    {
        member_at(neighbours.members, name)
    } else {
        None
    }
}

// The length of the list at `prefixItems`, where it counts.
pub(crate) fn prefix_length(neighbours: Neighbours<'_>) -> usize
    ensures { result ≡ rows.length_of_list (beside_in neighbours.entry (codes "prefixItems")) }
{
    match beside(neighbours, "prefixItems") {
        Some(value) => list_length(value),
        None => 0,
    }
}

fn length_of(value: &Value) -> Option<usize>
    ensures { result ≡ option_map count_items (as_array (view value.now)) }
{
    match value.as_array() {
        Some(items) => Some(items.len()),
        None => None,
    }
}

// The length of `items` as a list, where it counts.
pub(crate) fn items_length(neighbours: Neighbours<'_>) -> Option<usize>
    ensures { result ≡ option_map count_items (list_in (beside_in neighbours.entry (codes "items"))) }
{
    match beside(neighbours, "items") {
        Some(value) => length_of(value),
        None => None,
    }
}

// The number of a name, where it counts and is a whole one from 0.
pub(crate) fn count_beside(neighbours: Neighbours<'_>, name: &str) -> Option<u64>
    ensures { result ≡ option_and_then count_of (beside_in neighbours.entry name.now) }
{
    match beside(neighbours, name) {
        Some(value) => value.as_u64(),
        None => None,
    }
}

// The schema of a name, where it counts and is one.
pub(crate) fn schema_beside<'r>(neighbours: Neighbours<'r>, name: &str) -> Option<&'r Value>
    ensures { option_map (λ v. view v.now) result ≡ schema_in (beside_in neighbours.entry name.now) }
{
    match beside(neighbours, name) {
        Some(schema) => {
            if is_schema(schema) {
                Some(schema)
            } else {
                None
            }
        }
        None => None,
    }
}

pub(crate) fn is_beside(neighbours: Neighbours<'_>, name: &str) -> bool
    ensures { result ≡ is_some (beside_in neighbours.entry name.now) }
{
    beside(neighbours, name).is_some()
}

// Whether `then` or `else` stands there.
pub(crate) fn has_consequent(neighbours: Neighbours<'_>) -> bool
    ensures { result ≡ (is_some (beside_in neighbours.entry (codes "then")) || is_some
        (beside_in neighbours.entry (codes "else"))) }
{
    is_beside(neighbours, "then") || is_beside(neighbours, "else")
}

// The members of a name, where it counts and is an object.
fn object_beside<'r>(neighbours: Neighbours<'r>, name: &str) -> Option<&'r Map<String, Value>>
    ensures { names_declared result ≡ rows.names_of_object (beside_in neighbours.entry name.now) }
{
    match beside(neighbours, name) {
        Some(value) => value.as_object(),
        None => None,
    }
}

// What `properties` and `patternProperties` declare, where they count and are objects.
pub(crate) fn declared_beside<'r>(neighbours: Neighbours<'r>) -> Declared<'r>
    ensures { declared_by result ≡ declared_in neighbours.entry }
{
    Declared {
        names: object_beside(neighbours, "properties"),
        patterns: object_beside(neighbours, "patternProperties"),
    }
}

// Whether neither of them stands there.
pub(crate) fn is_alone(neighbours: Neighbours<'_>) -> bool
    ensures { result ≡ (not (is_some (beside_in neighbours.entry (codes "properties"))) && not
        (is_some (beside_in neighbours.entry (codes "patternProperties")))) }
{
    !is_beside(neighbours, "properties") && !is_beside(neighbours, "patternProperties")
}
