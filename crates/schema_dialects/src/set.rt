//! Sets of vocabularies.

ghost use Rattle.std.specs.Prelude.{◌≡◌, ℕ, List, [], true, false, Bool, ◌||◌, OnOk, OnErr, map, string_bytes};
ghost use Rattle.std.specs.List.{list_any};
ghost use Rattle.std.specs.List.Sorted.{IsStrictlySortedBy};
ghost use Rattle.std.specs.String.{string_cmp};
ghost use Rattle.schema_drafts.specs.Counts as tables;
ghost use Rattle.schema_drafts.specs.Vocabularies as spec;
ghost use Rattle.schema_dialects.specs.Named.{vocabulary_of};
ghost use Rattle.schema_dialects.specs.Sets as sets;
ghost use Rattle.schema_dialects.specs.Dialects.{in_force};

use crate::known::{KnownVocabularies, NONE, known_to};
use crate::vocabulary::Vocabulary;
use schema_drafts::draft::Draft;
use std::alloc::{AllocError, Global};
use std::collections::BTreeSet;
use std::collections::btree_set::Iter;

/// A set of vocabularies: all that a draft has, or those that were added.
#[derive(Debug, Drop)]
pub struct VocabularySet {
    is_whole: bool,
    known: KnownVocabularies,
    custom: BTreeSet<String>,
}

impl VocabularySet {
    /// No vocabularies.
    pub fn new(alloc: Global) -> VocabularySet
        ensures { sets.vocabularies_of result ≡ spec.only [] }
    {
        VocabularySet {
            is_whole: false,
            known: NONE,
            custom: BTreeSet::new(alloc),
        }
    }

    /// All that a draft has, as where no `$vocabulary` says which. It contains what the draft's own meta-schema names.
    pub fn all_of(alloc: Global, draft: Draft) -> VocabularySet
        ensures whole { sets.vocabularies_of result ≡ spec.all_of_draft }
        ensures listed { sets.listed result ≡ sets.own draft }
    {
        VocabularySet {
            is_whole: true,
            known: known_to(draft),
            custom: BTreeSet::new(alloc),
        }
    }

    /// Adds a vocabulary. Where it is a custom one, that is a search among the custom ones.
    ///
    /// # Errors
    ///
    /// Where memory for a custom one was refused; the set then stays as it was.
    pub fn add(&mut self, vocabulary: Vocabulary) -> Result<(), AllocError>
        ensures ok { OnOk result ((test : spec.Vocabulary → Bool) → list_any test (sets.listed self.new) ≡ (test (vocabulary_of vocabulary) || list_any test (sets.listed self.old))) }
        ensures whole { self.new.is_whole ≡ self.old.is_whole }
        ensures unchanged { OnErr result (sets.listed self.new ≡ sets.listed self.old) }
    {
        match vocabulary {
            Vocabulary::Core => self.known.core = true,
            Vocabulary::Applicator => self.known.applicator = true,
            Vocabulary::Unevaluated => self.known.unevaluated = true,
            Vocabulary::Validation => self.known.validation = true,
            Vocabulary::Metadata => self.known.metadata = true,
            Vocabulary::Format => self.known.format = true,
            Vocabulary::FormatAnnotation => self.known.format_annotation = true,
            Vocabulary::FormatAssertion => self.known.format_assertion = true,
            Vocabulary::Content => self.known.content = true,
            Vocabulary::Custom(uri) => {
                self.custom.insert(uri)?;
            }
        }
        Ok(())
    }

    /// Whether the set has a vocabulary. It allocates nothing; for a custom one it searches among the custom ones.
    pub fn contains(&self, vocabulary: &Vocabulary) -> bool
        ensures { result ≡ list_any (spec.is_same (vocabulary_of vocabulary.now)) (sets.listed self.now) }
    {
        match vocabulary {
            Vocabulary::Core => self.known.core,
            Vocabulary::Applicator => self.known.applicator,
            Vocabulary::Unevaluated => self.known.unevaluated,
            Vocabulary::Validation => self.known.validation,
            Vocabulary::Metadata => self.known.metadata,
            Vocabulary::Format => self.known.format,
            Vocabulary::FormatAnnotation => self.known.format_annotation,
            Vocabulary::FormatAssertion => self.known.format_assertion,
            Vocabulary::Content => self.known.content,
            Vocabulary::Custom(uri) => self.custom.contains(uri.as_str()),
        }
    }

    /// The URIs of the custom vocabularies, in the order of their texts.
    pub fn custom(&self) -> Iter<'_, String>
        ensures texts { map string_bytes result ≡ sets.custom_uris self.now }
        ensures ordered { IsStrictlySortedBy string_cmp result }
    {
        self.custom.iter()
    }

    // Those of its vocabularies that the drafts know, or none where it stands for all of a draft.
    pub(crate) fn required(&self) -> Option<KnownVocabularies>
        ensures { (draft : Draft) (beside_ref : Bool) (name : List ℕ) → tables.counts (sets.without_siblings draft (in_force result)) beside_ref name ≡ tables.counts (sets.without_siblings draft (sets.vocabularies_of self.now)) beside_ref name }
    {
        if self.is_whole {
            None
        } else {
            Some(self.known)
        }
    }
}
