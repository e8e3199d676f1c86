//! Matches read of an instance.

ghost use Rattle.std.specs.Prelude.{◌≡◌, ◌||◌, ℕ, List, Bool, Option, IfOk, OnOk, false, bytes_eq, is_some};
ghost use Rattle.std.specs.HashSet.{contains_text};
ghost use Rattle.serde_json.specs.View.{view};
ghost use Rattle.json_values.specs.Patterns.{matched, literal_of};
ghost use Rattle.schema_patterns.specs.Answers.{Tells};
ghost use Rattle.schema_patterns.specs.Compiled.{found_by};
ghost use Rattle.schema_patterns.specs.Tables.{AreMadeBy, texts_of_table};
ghost use Rattle.schema_patterns.specs.Texts.{texts_in};
ghost use Rattle.schema_patterns.specs.Read.{reads, leaves, IsReadBy, TellsTexts, Notes, Adds};

use crate::texts::texts_of;
use crate::{CompiledPattern, MatchAnswer, PatternMatcher, PatternTable, analyze_pattern};
use serde_json::Value;
use std::alloc::{AllocError, Global};
use std::collections::{HashMap, HashSet};

// The texts that a pattern matches, and those that its matcher gave up on.
#[derive(Drop)]
struct PatternMatches {
    yes: HashSet<String>,
    unfinished: HashSet<String>,
}

/// The matches of patterns in the texts of an instance. A match that was not read, or that stayed unfinished, counts as none.
#[derive(Drop)]
pub struct Matches {
    by_pattern: HashMap<String, PatternMatches>,
}

fn insert(alloc: Global, texts: &mut HashSet<String>, text: &str) -> Result<(), AllocError>
    ensures { OnOk result ((t : List ℕ) → contains_text texts.new t ≡ (contains_text texts.old t || bytes_eq t text.now)) }
{
    texts.insert(String::from_str(alloc, text)?)?;
    Ok(())
}

// Notes what a matcher answers of a text.
fn note(
    alloc: Global,
    found: &mut PatternMatches,
    text: &str,
    answer: MatchAnswer,
) -> Result<(), AllocError>
    ensures { OnOk result ((known : Option Bool) → Tells known answer → Notes known text.now found.old found.new) }
{
    match answer {
        MatchAnswer::Yes => insert(alloc, &mut found.yes, text),
        MatchAnswer::No => Ok(()),
        MatchAnswer::Unfinished => insert(alloc, &mut found.unfinished, text),
        MatchAnswer::NoMemory => Err(AllocError),
    }
}

// The matches of a pattern in these texts. The matcher is asked once of each.
fn ask<M: PatternMatcher>(
    alloc: Global,
    pattern: &CompiledPattern<M>,
    texts: &[&str],
) -> Result<PatternMatches, AllocError>
    ensures { IfOk result (TellsTexts (found_by M.finds pattern.now) texts.now) }
{
    let mut found = PatternMatches {
        yes: HashSet::new(alloc),
        unfinished: HashSet::new(alloc),
    };
    for text in texts {
        let answer = pattern.is_match(*text);
        note(alloc, &mut found, *text, answer)?;
    }
    Ok(found)
}

// Adds the matches of one more pattern.
fn add<M: PatternMatcher>(
    alloc: Global,
    by_pattern: &mut HashMap<String, PatternMatches>,
    pattern: &str,
    compiled: &CompiledPattern<M>,
    texts: &[&str],
) -> Result<(), AllocError>
    ensures { OnOk result (Adds (found_by M.finds compiled.now) pattern.now texts.now by_pattern.old by_pattern.new) }
{
    let found = ask(alloc, compiled, texts)?;
    by_pattern.insert(String::from_str(alloc, pattern)?, found)?;
    Ok(())
}

fn is_literal(alloc: Global, pattern: &str) -> Result<bool, AllocError>
    ensures { IfOk result (λ b. b ≡ is_some (literal_of pattern.now)) }
{
    Ok(analyze_pattern(alloc, pattern)?.is_some())
}

impl Matches {
    /// No matches but those of the literal forms.
    pub fn none(alloc: Global) -> Matches
        ensures reads { (pattern text : List ℕ) → reads result pattern text ≡ false }
        ensures leaves { (pattern text : List ℕ) → leaves result pattern text ≡ false }
    {
        Matches {
            by_pattern: HashMap::new(alloc),
        }
    }

    /// The matches of a table's patterns in the texts of a value and the names of its members.
    ///
    /// Each matcher is asked once of each text. Without patterns the value is not looked at.
    ///
    /// # Errors
    ///
    /// Where memory was refused.
    pub fn read<M: PatternMatcher>(
        alloc: Global,
        table: &PatternTable<M>,
        value: &Value,
    ) -> Result<Matches, AllocError>
        ensures { IfOk result (λ m. (finished : List ℕ → List ℕ → Option Bool) → AreMadeBy M.finds finished table.now → IsReadBy finished (texts_of_table table.now) (texts_in (view value.now)) m) }
    {
        if table.len() == 0 {
            return Ok(Matches::none(alloc));
        }
        let texts = texts_of(alloc, value)?;
        let mut by_pattern = HashMap::new(alloc);
        for number in 0..table.len() {
            if let Some((pattern, compiled)) = table.at(number) {
                add(alloc, &mut by_pattern, pattern, compiled, texts.as_slice())?;
            }
        }
        Ok(Matches { by_pattern })
    }

    /// Whether a pattern matches somewhere in a text: a literal form by its meaning, another where it was read so.
    ///
    /// It reads the pattern a few times, and searches for both texts once.
    ///
    /// # Errors
    ///
    /// Where memory was refused for the texts of a literal form.
    pub fn is_match(&self, alloc: Global, pattern: &str, text: &str) -> Result<bool, AllocError>
        ensures { IfOk result (λ b. b ≡ matched (reads self.now) pattern.now text.now) }
    {
        if let Some(form) = analyze_pattern(alloc, pattern)? {
            return Ok(form.is_match(text));
        }
        Ok(match self.by_pattern.get(pattern) {
            Some(found) => found.yes.contains(text),
            None => false,
        })
    }

    /// Whether the matcher of a pattern gave up on a text.
    ///
    /// # Errors
    ///
    /// Where memory was refused for the texts of a literal form.
    pub fn is_unfinished(
        &self,
        alloc: Global,
        pattern: &str,
        text: &str,
    ) -> Result<bool, AllocError>
        ensures { IfOk result (λ b. b ≡ leaves self.now pattern.now text.now) }
    {
        if is_literal(alloc, pattern)? {
            return Ok(false);
        }
        Ok(match self.by_pattern.get(pattern) {
            Some(found) => found.unfinished.contains(text),
            None => false,
        })
    }
}
