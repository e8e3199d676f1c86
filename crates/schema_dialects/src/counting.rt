//! Which keywords count, by draft and vocabularies.

ghost use Rattle.std.specs.Prelude.{◌≡◌, ◌&&◌, map};
ghost use Rattle.schema_drafts.specs.Drafts.{is_listed};
ghost use Rattle.schema_drafts.specs.Counts as tables;
ghost use Rattle.schema_drafts.specs.Vocabularies.{has_some, is_applicator, is_unevaluated, is_validation};
ghost use Rattle.schema_dialects.specs.Sets as spec;
ghost use Rattle.schema_dialects.specs.Sets.{vocabularies_of, without_siblings};
ghost use Rattle.schema_dialects.specs.Dialects.{in_force, dialect_of};

use crate::dialect::Dialect;
use crate::known::KnownVocabularies;
use crate::set::VocabularySet;
use schema_drafts::draft::Draft;

const APPLICATORS: [&str; 17] = [
    "items",
    "prefixItems",
    "additionalItems",
    "contains",
    "properties",
    "patternProperties",
    "additionalProperties",
    "propertyNames",
    "dependencies",
    "dependentSchemas",
    "allOf",
    "anyOf",
    "oneOf",
    "not",
    "if",
    "then",
    "else",
];

const VALIDATIONS: [&str; 20] = [
    "type",
    "enum",
    "const",
    "multipleOf",
    "maximum",
    "exclusiveMaximum",
    "minimum",
    "exclusiveMinimum",
    "maxLength",
    "minLength",
    "pattern",
    "maxItems",
    "minItems",
    "uniqueItems",
    "maxProperties",
    "minProperties",
    "required",
    "dependentRequired",
    "minContains",
    "maxContains",
];

const UNEVALUATED: [&str; 2] = ["unevaluatedItems", "unevaluatedProperties"];

const REFERENCES: [&str; 3] = ["$ref", "$dynamicRef", "$recursiveRef"];

// Whether a name is listed, the name compared first.
fn is_among(names: &[&str], name: &str) -> bool
    ensures { result ≡ is_listed name.now (map (λ k. k.now) names.now) }
{
    for listed in names {
        if name == *listed {
            return true;
        }
    }
    false
}

fn is_reference(name: &str) -> bool
    ensures { result ≡ is_listed name.now tables.references }
{
    is_among(&REFERENCES, name)
}

fn has_applicator(required: Option<KnownVocabularies>) -> bool
    ensures { result ≡ has_some is_applicator (in_force required) }
{
    match required {
        Some(known) => known.applicator,
        None => true,
    }
}

fn has_unevaluated(required: Option<KnownVocabularies>) -> bool
    ensures { result ≡ has_some is_unevaluated (in_force required) }
{
    match required {
        Some(known) => known.unevaluated,
        None => true,
    }
}

fn has_validation(required: Option<KnownVocabularies>) -> bool
    ensures { result ≡ has_some is_validation (in_force required) }
{
    match required {
        Some(known) => known.validation,
        None => true,
    }
}

fn is_applied(required: Option<KnownVocabularies>, name: &str) -> bool
    ensures { result ≡ (is_listed name.now tables.applicators && has_some is_applicator (in_force required)) }
{
    is_among(&APPLICATORS, name) && has_applicator(required)
}

fn is_validated(required: Option<KnownVocabularies>, name: &str) -> bool
    ensures { result ≡ (is_listed name.now tables.validations && has_some is_validation (in_force required)) }
{
    is_among(&VALIDATIONS, name) && has_validation(required)
}

// In 2019-09 the applicators' vocabulary has `unevaluatedItems` and `unevaluatedProperties`.
fn evaluates_rest(draft: Draft, required: Option<KnownVocabularies>) -> bool
    ensures { result ≡ spec.has_unevaluated draft (in_force required) }
{
    match draft {
        Draft::Draft201909 => has_applicator(required),
        _ => has_unevaluated(required),
    }
}

fn is_unevaluated(draft: Draft, required: Option<KnownVocabularies>, name: &str) -> bool
    ensures { result ≡ (is_listed name.now tables.unevaluated_ones && spec.has_unevaluated draft (in_force required)) }
{
    is_among(&UNEVALUATED, name) && evaluates_rest(draft, required)
}

// Whether a vocabulary in force has the keyword. Before 2019-09 there are no vocabularies, and each keyword is in force.
fn is_in_force(dialect: Dialect, name: &str) -> bool
    ensures { result ≡ tables.in_vocabularies dialect.draft (in_force dialect.required) name.now }
{
    match dialect.draft {
        Draft::Draft4 | Draft::Draft6 | Draft::Draft7 => true,
        _ => {
            is_reference(name)
                || is_applied(dialect.required, name)
                || is_unevaluated(dialect.draft, dialect.required, name)
                || is_validated(dialect.required, name)
        }
    }
}

impl Dialect {
    /// Whether a keyword counts in a schema of the dialect: it is one of the draft's, a vocabulary in force has it, and no `$ref` beside
    /// it hides it. It compares the name with a table of some ninety.
    pub fn counts(self, beside_ref: bool, name: &str) -> bool
        ensures { result ≡ tables.counts (dialect_of self) beside_ref name.now }
    {
        self.draft.has_keyword(name)
            && is_in_force(self, name)
            && (!(self.draft.ignores_siblings(self.siblings) && beside_ref) || name == "$ref")
    }
}

/// Whether a keyword counts in a schema of that draft and those vocabularies: it is one of the draft's, a vocabulary in force has
/// it, and no `$ref` beside it hides it. It compares the name with a table of some ninety.
pub fn counts(draft: Draft, vocabularies: &VocabularySet, beside_ref: bool, name: &str) -> bool
    ensures { result ≡ tables.counts (without_siblings draft (vocabularies_of vocabularies.now)) beside_ref name.now }
{
    let required = vocabularies.required();
    let siblings = false;
    Dialect {
        draft,
        required,
        siblings,
    }
    .counts(beside_ref, name)
}
