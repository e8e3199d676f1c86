//! Validators for the schemas of a document.

ghost use Rattle.std.specs.Prelude.{◌≡◌, ◌↔◌, [], map, length, is_some, string_bytes, true};
ghost use Rattle.std.specs.Option.{option_copied};
ghost use Rattle.schema_validators.specs.Hashes as hashes;

use crate::validator::Validator;
use indexmap::IndexMap;
use indexmap::map::Keys;
use regex_patterns::RegexMatcher;
use schema_patterns::PatternMatcher;
use std::alloc::Global;

/// A validator for each schema of a document that may be read, by its JSON Pointer: all share one graph, with its patterns.
#[derive(Drop)]
pub struct ValidatorMap<M: PatternMatcher = RegexMatcher> {
    pub(crate) validators: IndexMap<String, Validator<M>>,
}

// A text without the `#` before it, if there is one.
fn pointer_in(text: &str) -> &str
    ensures { result.now ≡ hashes.without_hash text.now }
{
    if text.starts_with('#') {
        &text[1..]
    } else {
        text
    }
}

impl<M: PatternMatcher> ValidatorMap<M> {
    ghost use Rattle.schema_validators.specs.Maps.{keys_of, entries_in, entry_at};

    // A map of none.
    pub(crate) fn new(alloc: Global) -> ValidatorMap<M>
        ensures { entries_in result ≡ [] }
    {
        ValidatorMap {
            validators: IndexMap::new(alloc),
        }
    }

    /// The validator of the schema at a JSON Pointer, which may have `#` before it. It is one look-up, and takes no memory.
    pub fn get(&self, pointer: &str) -> Option<&Validator<M>>
        ensures value { option_copied result ≡ entry_at self.now (hashes.without_hash pointer.now) }
    {
        self.validators.get(pointer_in(pointer))
    }

    /// Whether there is one.
    pub fn contains_key(&self, pointer: &str) -> bool
        ensures { result ≡ is_some (entry_at self.now (hashes.without_hash pointer.now)) }
    {
        self.get(pointer).is_some()
    }

    /// The JSON Pointers, in the order of the schemas: by levels from the root, and of one schema by its members in their order.
    pub fn keys(&self) -> Keys<'_, String, Validator<M>>
        ensures { map string_bytes result ≡ keys_of self.now }
    {
        self.validators.keys()
    }

    /// How many there are.
    pub fn len(&self) -> usize
        ensures { result ≡ length (keys_of self.now) }
    {
        self.validators.len()
    }

    /// Whether there are none.
    pub fn is_empty(&self) -> bool
        ensures { result ≡ true ↔ (keys_of self.now ≡ []) }
    {
        self.validators.is_empty()
    }
}
