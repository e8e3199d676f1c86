//! Which of the vocabularies that the drafts know are in force.

ghost use Rattle.std.specs.Prelude.{◌≡◌, Bool, ◌||◌};
ghost use Rattle.std.specs.List.{list_any};
ghost use Rattle.schema_drafts.specs.Vocabularies as spec;
ghost use Rattle.schema_dialects.specs.Named.{known_of};
ghost use Rattle.schema_dialects.specs.Sets as sets;

use crate::vocabulary::Known;
use schema_drafts::draft::Draft;

/// Which of the vocabularies that Draft 2019-09 or 2020-12 knows a meta-schema requires. Each has one field, under its URI in either
/// draft.
#[derive(Copy, Clone, Debug, PartialEq, Eq)]
pub struct KnownVocabularies {
    pub core: bool,
    pub applicator: bool,
    pub unevaluated: bool,
    pub validation: bool,
    pub metadata: bool,
    pub format: bool,
    pub format_annotation: bool,
    pub format_assertion: bool,
    pub content: bool,
}

pub(crate) const NONE: KnownVocabularies = KnownVocabularies {
    core: false,
    applicator: false,
    unevaluated: false,
    validation: false,
    metadata: false,
    format: false,
    format_annotation: false,
    format_assertion: false,
    content: false,
};

// What the draft's own meta-schema names.
pub(crate) fn known_to(draft: Draft) -> KnownVocabularies
    ensures { sets.marked (sets.flags result) spec.the_known ≡ sets.own draft }
{
    let both = KnownVocabularies {
        core: true,
        applicator: true,
        validation: true,
        metadata: true,
        content: true,
        ..NONE
    };
    match draft {
        Draft::Draft4 | Draft::Draft6 | Draft::Draft7 => NONE,
        Draft::Draft201909 => KnownVocabularies {
            format: true,
            ..both
        },
        Draft::Draft202012 | Draft::Unknown => KnownVocabularies {
            unevaluated: true,
            format_annotation: true,
            ..both
        },
    }
}

// One more.
pub(crate) fn mark(known: &mut KnownVocabularies, vocabulary: Known)
    ensures { (test : spec.Vocabulary → Bool) → list_any test (sets.required known.new) ≡ (test (known_of vocabulary) || list_any test (sets.required known.old)) }
{
    match vocabulary {
        Known::Core => known.core = true,
        Known::Applicator => known.applicator = true,
        Known::Unevaluated => known.unevaluated = true,
        Known::Validation => known.validation = true,
        Known::Metadata => known.metadata = true,
        Known::Format => known.format = true,
        Known::FormatAnnotation => known.format_annotation = true,
        Known::FormatAssertion => known.format_assertion = true,
        Known::Content => known.content = true,
    }
}
