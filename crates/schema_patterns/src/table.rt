//! The patterns of a build, each text made once.

ghost use Rattle.std.specs.Prelude.{◌≡◌, ℕ, List, [], Bool, Option, Ok, Err, IsOk, IsSome, IfSome, IfOk, IfErr, OnOk, OnErr, Some, None, false, slice_get, option_map, option_copied, length, bytes_eq};
ghost use Rattle.std.specs.List.{position};
ghost use Rattle.json_values.specs.Patterns.{literal_of};
ghost use Rattle.schema_patterns.specs.Tables.{pattern_for, entries_of, texts_of_table, AreMadeBy, GrowsBy};
ghost use Rattle.schema_patterns.specs.declared.matcher.PatternError.TheVariants.{BadPattern};

use crate::compiled::CompiledPattern;
use crate::matcher::{PatternError, PatternMaker, PatternMatcher};
use indexmap::IndexMap;
use std::alloc::Global;

/// The patterns of a build by their texts and by numbers, in the order in which they were added.
#[derive(Drop)]
pub struct PatternTable<M> {
    patterns: IndexMap<String, CompiledPattern<M>>,
}

impl<M: PatternMatcher> PatternTable<M> {
    /// No patterns.
    pub fn new(alloc: Global) -> PatternTable<M>
        ensures { entries_of result ≡ [] }
    {
        PatternTable {
            patterns: IndexMap::new(alloc),
        }
    }

    /// The number of the pattern of a text, which is made where the table lacks it: a maker is asked for a text once.
    /// The numbers of others stay.
    ///
    /// # Errors
    ///
    /// Where the maker refuses the text, or where memory was refused. The table is then as it was.
    pub fn add<P: PatternMaker<Matcher = M>>(
        &mut self,
        alloc: Global,
        maker: &P,
        pattern: &str,
    ) -> Result<usize, PatternError>
        ensures numbered { IfOk result (λ n. option_map (λ e. e.0) (slice_get (entries_of self.new) n) ≡ Some pattern.now) }
        ensures made { AreMadeBy M.finds (P.patterns maker.now).finished self.old → AreMadeBy M.finds (P.patterns maker.now).finished self.new }
        ensures kept { IsSome (pattern_for self.old pattern.now) → IsOk result × (entries_of self.new ≡ entries_of self.old) }
        ensures grown { pattern_for self.old pattern.now ≡ None → OnOk result (GrowsBy pattern.now (entries_of self.old) (entries_of self.new)) }
        ensures unchanged { OnErr result (entries_of self.new ≡ entries_of self.old) }
        ensures refused { IfErr result (λ e. e ≡ BadPattern → (literal_of pattern.now ≡ None) × ((P.patterns maker.now).makes pattern.now ≡ false)) }
    {
        self.add_with(alloc, pattern, || maker.make(alloc, pattern))
    }

    /// The same with the matcher from a call, which may be made only where the table lacks the text and this is none of the literal forms.
    ///
    /// # Errors
    ///
    /// That of the call, or where memory was refused. The table is then as it was.
    pub fn add_with<F: FnOnce() -> Result<M, PatternError> + Drop>(
        &mut self,
        alloc: Global,
        pattern: &str,
        make: F,
    ) -> Result<usize, PatternError>
        requires { pattern_for self.old pattern.now ≡ None → literal_of pattern.now ≡ None → F.pre make }
        ensures numbered { IfOk result (λ n. option_map (λ e. e.0) (slice_get (entries_of self.new) n) ≡ Some pattern.now) }
        ensures made { (finished : List ℕ → List ℕ → Option Bool) → ((m : M) → F.post make (Ok m) → (text : List ℕ) → M.finds m text ≡ finished pattern.now text)
            → AreMadeBy M.finds finished self.old → AreMadeBy M.finds finished self.new }
        ensures kept { IsSome (pattern_for self.old pattern.now) → IsOk result × (entries_of self.new ≡ entries_of self.old) }
        ensures grown { pattern_for self.old pattern.now ≡ None → OnOk result (GrowsBy pattern.now (entries_of self.old) (entries_of self.new)) }
        ensures unchanged { OnErr result (entries_of self.new ≡ entries_of self.old) }
        ensures refused { IfErr result (λ e. e ≡ BadPattern → (literal_of pattern.now ≡ None) × F.post make (Err BadPattern)) }
    {
        if let Some(number) = self.patterns.get_index_of(pattern) {
            return Ok(number);
        }
        let compiled = CompiledPattern::new_with(alloc, pattern, make)?;
        let Ok(text) = String::from_str(alloc, pattern) else {
            return Err(PatternError::Memory);
        };
        let number = self.patterns.len();
        match self.patterns.insert(text, compiled) {
            Ok(_) => Ok(number),
            Err(_) => Err(PatternError::Memory),
        }
    }

    /// How many patterns there are.
    pub fn len(&self) -> usize
        ensures { result ≡ length (entries_of self.now) }
    {
        self.patterns.len()
    }

    /// The number of the pattern of a text, where it was added.
    pub fn number(&self, pattern: &str) -> Option<usize>
        ensures { result ≡ position (bytes_eq pattern.now) (texts_of_table self.now) }
    {
        self.patterns.get_index_of(pattern)
    }

    /// The pattern of a text that was added.
    pub fn get(&self, pattern: &str) -> Option<&CompiledPattern<M>>
        ensures { option_copied result ≡ pattern_for self.now pattern.now }
    {
        self.patterns.get(pattern)
    }

    /// The text and the pattern of a number.
    pub fn at(&self, number: usize) -> Option<(&str, &CompiledPattern<M>)>
        ensures entry { option_map (λ e. (e.0.now, e.1.now)) result ≡ slice_get (entries_of self.now) number }
        ensures found { IfSome result (λ e. pattern_for self.now e.0.now ≡ Some e.1.now) }
    {
        let (text, compiled) = self.patterns.get_index(number)?;
        Some((text.as_str(), compiled))
    }
}
