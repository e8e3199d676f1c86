//! Which names are keywords of a draft.

ghost use Rattle.std.specs.Prelude.{◌≡◌, map};
ghost use Rattle.schema_drafts.specs.Drafts.{is_listed};
ghost use Rattle.schema_drafts.specs.Counts as tables;

use crate::draft::Draft;

const OF_DRAFT_4: [&str; 27] = [
    "$ref",
    "type",
    "enum",
    "multipleOf",
    "maximum",
    "exclusiveMaximum",
    "minimum",
    "exclusiveMinimum",
    "maxLength",
    "minLength",
    "pattern",
    "items",
    "additionalItems",
    "maxItems",
    "minItems",
    "uniqueItems",
    "maxProperties",
    "minProperties",
    "required",
    "properties",
    "patternProperties",
    "additionalProperties",
    "dependencies",
    "allOf",
    "anyOf",
    "oneOf",
    "not",
];

const NEW_IN_DRAFT_6: [&str; 3] = ["const", "contains", "propertyNames"];

const NEW_IN_DRAFT_7: [&str; 3] = ["if", "then", "else"];

const NEW_IN_2019: [&str; 7] = [
    "dependentRequired",
    "dependentSchemas",
    "minContains",
    "maxContains",
    "$recursiveRef",
    "unevaluatedItems",
    "unevaluatedProperties",
];

const NEW_IN_2020: [&str; 2] = ["prefixItems", "$dynamicRef"];

const GONE_IN_2020: [&str; 2] = ["additionalItems", "$recursiveRef"];

const OTHER_KNOWN: [&str; 10] = [
    "$schema",
    "$id",
    "id",
    "$anchor",
    "$dynamicAnchor",
    "$recursiveAnchor",
    "$vocabulary",
    "$comment",
    "$defs",
    "definitions",
];

// Whether a name is listed, the name compared first.
pub(crate) fn is_among(names: &[&str], name: &str) -> bool
    ensures { result ≡ is_listed name.now (map (λ k. k.now) names.now) }
{
    for listed in names {
        if name == *listed {
            return true;
        }
    }
    false
}

fn in_draft_6(name: &str) -> bool
    ensures { result ≡ tables.in_draft_6 name.now }
{
    is_among(&OF_DRAFT_4, name) || is_among(&NEW_IN_DRAFT_6, name)
}

fn in_draft_7(name: &str) -> bool
    ensures { result ≡ tables.in_draft_7 name.now }
{
    in_draft_6(name) || is_among(&NEW_IN_DRAFT_7, name)
}

fn in_2019(name: &str) -> bool
    ensures { result ≡ tables.in_2019 name.now }
{
    in_draft_7(name) || is_among(&NEW_IN_2019, name)
}

fn in_2020(name: &str) -> bool
    ensures { result ≡ tables.in_2020 name.now }
{
    (in_2019(name) && !is_among(&GONE_IN_2020, name)) || is_among(&NEW_IN_2020, name)
}

impl Draft {
    /// Whether the draft has a keyword of that name. It compares the name with a table of some forty.
    pub fn has_keyword(self, name: &str) -> bool
        ensures { result ≡ tables.is_keyword self name.now }
    {
        match self {
            Draft::Draft4 => is_among(&OF_DRAFT_4, name),
            Draft::Draft6 => in_draft_6(name),
            Draft::Draft7 => in_draft_7(name),
            Draft::Draft201909 => in_2019(name),
            Draft::Draft202012 => in_2020(name),
            Draft::Unknown => in_2020(name),
        }
    }

    /// Whether the draft knows the name: one of its keywords, or a name of the core that asserts nothing.
    pub fn is_known_keyword(self, name: &str) -> bool
        ensures { result ≡ tables.is_known self name.now }
    {
        self.has_keyword(name) || is_among(&OTHER_KNOWN, name)
    }
}
