//! Which members of a schema hold schemas.

ghost use Rattle.std.specs.Prelude.{◌≡◌, map};
ghost use Rattle.schema_drafts.specs.Drafts.{is_listed};
ghost use Rattle.schema_drafts.specs.Subschemas as tables;

use crate::draft::Draft;
use crate::keywords::is_among;

/// What a member of a schema holds.
#[derive(Copy, Clone, Debug, PartialEq, Eq)]
pub enum Subschemas {
    /// No schema.
    None,
    /// One schema.
    One,
    /// A list of schemas.
    Several,
    /// One schema or a list of them.
    OneOrSeveral,
    /// An object of schemas.
    ByName,
}

const ONES_OF_DRAFT_7: [&str; 8] = [
    "additionalItems",
    "additionalProperties",
    "not",
    "contains",
    "propertyNames",
    "if",
    "then",
    "else",
];

const ONES_OF_DRAFT_6: [&str; 5] = [
    "additionalItems",
    "additionalProperties",
    "not",
    "contains",
    "propertyNames",
];

const ONES_OF_DRAFT_4: [&str; 3] = ["additionalItems", "additionalProperties", "not"];

const NEW_ONES: [&str; 3] = ["unevaluatedItems", "unevaluatedProperties", "contentSchema"];

const ONES_OF_2020: [&str; 8] = [
    "items",
    "additionalProperties",
    "not",
    "contains",
    "propertyNames",
    "if",
    "then",
    "else",
];

const BRANCHES: [&str; 3] = ["allOf", "anyOf", "oneOf"];

const MAPS_OF_DRAFT_4: [&str; 4] = [
    "definitions",
    "properties",
    "patternProperties",
    "dependencies",
];

const NEW_MAPS: [&str; 2] = ["$defs", "dependentSchemas"];

fn is_one(draft: Draft, name: &str) -> bool
    ensures { result ≡ is_listed name.now (tables.ones draft) }
{
    match draft {
        Draft::Draft4 => is_among(&ONES_OF_DRAFT_4, name),
        Draft::Draft6 => is_among(&ONES_OF_DRAFT_6, name),
        Draft::Draft7 => is_among(&ONES_OF_DRAFT_7, name),
        Draft::Draft201909 => is_among(&ONES_OF_DRAFT_7, name) || is_among(&NEW_ONES, name),
        Draft::Draft202012 => is_among(&ONES_OF_2020, name) || is_among(&NEW_ONES, name),
        Draft::Unknown => is_among(&ONES_OF_2020, name) || is_among(&NEW_ONES, name),
    }
}

fn is_several(draft: Draft, name: &str) -> bool
    ensures { result ≡ is_listed name.now (tables.lists draft) }
{
    match draft {
        Draft::Draft202012 => name == "prefixItems" || is_among(&BRANCHES, name),
        Draft::Unknown => name == "prefixItems" || is_among(&BRANCHES, name),
        _ => is_among(&BRANCHES, name),
    }
}

fn is_either(draft: Draft, name: &str) -> bool
    ensures { result ≡ is_listed name.now (tables.either draft) }
{
    match draft {
        Draft::Draft202012 => false,
        Draft::Unknown => false,
        _ => name == "items",
    }
}

fn is_map(draft: Draft, name: &str) -> bool
    ensures { result ≡ is_listed name.now (tables.maps draft) }
{
    match draft {
        Draft::Draft4 | Draft::Draft6 | Draft::Draft7 => is_among(&MAPS_OF_DRAFT_4, name),
        _ => is_among(&MAPS_OF_DRAFT_4, name) || is_among(&NEW_MAPS, name),
    }
}

/// What the member of that name holds. `hidden` says that a `$ref` stands beside which hides all but `definitions`.
pub fn held_by(draft: Draft, hidden: bool, name: &str) -> Subschemas
    ensures { tables.holds_of result ≡ tables.held_by draft hidden name.now }
{
    if hidden {
        return if name == "definitions" {
            Subschemas::ByName
        } else {
            Subschemas::None
        };
    }
    if is_one(draft, name) {
        return Subschemas::One;
    }
    if is_several(draft, name) {
        return Subschemas::Several;
    }
    if is_either(draft, name) {
        return Subschemas::OneOrSeveral;
    }
    if is_map(draft, name) {
        Subschemas::ByName
    } else {
        Subschemas::None
    }
}
