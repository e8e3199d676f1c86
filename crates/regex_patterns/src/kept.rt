//! Matches asked of searches that are kept.
ghost use Rattle.std.specs.Prelude.{◌≡◌, Some, IfOk};
ghost use Rattle.graph_answers.specs.Tables.{AreForms, matches_of};
ghost use Rattle.regex_patterns.specs.Kept.{IsKept, AreKept};
ghost use Rattle.regex_patterns.specs.Matchers.{finds_by_regex};

use crate::RegexMatcher;
use graph_answers::lookup::pattern_at;
use regex::Matcher;
use schema_engine::matching::Matching;
use schema_patterns::{CompiledPattern, PatternTable};
use std::alloc::{AllocError, Global};

/// Asks each match of the table's pattern of that number, by a search that is made at its first match and kept from then on. A literal form
/// needs none. Every match is finished, unless memory is refused for a search.
#[derive(Drop)]
pub struct Kept<'v> {
    pub table: &'v PatternTable<RegexMatcher>,
    searches: Vec<Option<Matcher<'v>>>,
    pub ghost forms: { AreForms finds_by_regex table.now },
    ghost kept: { AreKept table.now searches.items },
}

impl<'v> Kept<'v> {
    /// Matches of a table's patterns, with room for a search for each.
    ///
    /// # Errors
    ///
    /// Where memory was refused.
    pub fn new(alloc: Global, table: &'v PatternTable<RegexMatcher>) -> Result<Kept<'v>, AllocError>
        requires { AreForms finds_by_regex table.now }
        ensures { IfOk result (λ kept. kept.table.now ≡ table.now) }
    {
        let mut searches = Vec::new(alloc);
        for _ in 0..table.len() {
            searches.push(None)?;
        }
        Ok(Kept { table, searches })
    }

    /// Matches of a table's patterns, with room for no search, so that each match makes its own. It takes no memory.
    pub fn nothing(alloc: Global, table: &'v PatternTable<RegexMatcher>) -> Kept<'v>
        requires { AreForms finds_by_regex table.now }
        ensures { result.table.now ≡ table.now }
    {
        let searches = Vec::new(alloc);
        Kept { table, searches }
    }
}

// Whether a pattern is found in a text, by its search that is kept, or is made and kept from now on.
fn is_found<'v>(
    slot: &mut Option<Matcher<'v>>,
    made: &'v RegexMatcher,
    text: &str,
) -> Result<bool, AllocError>
    requires { IsKept made.now slot.old }
    ensures kept { IsKept made.now slot.new }
    ensures found { IfOk result (λ b. Some b ≡ finds_by_regex made.now text.now) }
{
    if let Some(search) = slot {
        return Ok(search.is_match(text));
    }
    is_found_first(slot, made, text)
}

// The same where none is kept yet. It is a function of its own, since a call costs what its locals take, and a search takes much.
fn is_found_first<'v>(
    slot: &mut Option<Matcher<'v>>,
    made: &'v RegexMatcher,
    text: &str,
) -> Result<bool, AllocError>
    requires { IsKept made.now slot.old }
    ensures kept { IsKept made.now slot.new }
    ensures found { IfOk result (λ b. Some b ≡ finds_by_regex made.now text.now) }
{
    let mut search = made.matcher()?;
    let found = search.is_match(text);
    *slot = Some(search);
    Ok(found)
}

// The same where none is to be kept.
fn is_found_once(made: &RegexMatcher, text: &str) -> Result<bool, AllocError>
    ensures { IfOk result (λ b. Some b ≡ finds_by_regex made.now text.now) }
{
    let mut search = made.matcher()?;
    Ok(search.is_match(text))
}

impl<'v> Matching for Kept<'v> {
    ghost matches = { λ kept. matches_of finds_by_regex kept.table.now };

    fn is_match(&mut self, pattern: usize, text: &str) -> Result<bool, AllocError> {
        let Some(compiled) = pattern_at(self.table, pattern) else {
            return Ok(false);
        };
        match compiled {
            CompiledPattern::Optimized(form) => Ok(form.is_match(text)),
            CompiledPattern::Made(made) => match self.searches.get_mut(pattern) {
                Some(slot) => is_found(slot, made, text),
                None => is_found_once(made, text),
            },
        }
    }
}
