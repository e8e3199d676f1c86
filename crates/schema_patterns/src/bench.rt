//! A maker that answers by a script, for tests.

ghost use Rattle.std.specs.Prelude.{◌≡◌, ◌++◌, ◌∷◌, [], OnOk, OnErr, IfOk, bytes_eq, string_bytes};
ghost use Rattle.std.specs.List.{list_any};
ghost use Rattle.json_values.specs.Patterns.{reads_as};
ghost use Rattle.schema_patterns.specs.Scripts.{refused_by, unfinished_by, matches_of, scripted_patterns, finds_by_script};

use crate::matcher::{MatchAnswer, PatternError, PatternMaker, PatternMatcher};
use std::alloc::{AllocError, Global};

/// Refuses some patterns, gives up on some whatever the text, and matches some in some texts. It matches nothing else.
#[derive(Debug, Drop)]
pub struct ScriptedMaker {
    refused: Vec<String>,
    unfinished: Vec<String>,
    matches: Vec<(String, String)>,
}

/// A matcher of a script.
#[derive(Debug, Drop)]
pub struct ScriptedMatcher {
    is_unfinished: bool,
    texts: Vec<String>,
}

impl ScriptedMaker {
    /// Makes every pattern, and matches nothing.
    pub fn new(alloc: Global) -> ScriptedMaker
        ensures refused { refused_by result ≡ [] }
        ensures unfinished { unfinished_by result ≡ [] }
        ensures matches { matches_of result ≡ [] }
    {
        ScriptedMaker {
            refused: Vec::new(alloc),
            unfinished: Vec::new(alloc),
            matches: Vec::new(alloc),
        }
    }

    /// Refuses a pattern from now on.
    ///
    /// # Errors
    ///
    /// Where memory was refused. The script is then as it was, here and in the next two.
    pub fn refuse(&mut self, alloc: Global, pattern: &str) -> Result<(), AllocError>
        ensures refused { OnOk result (refused_by self.new ≡ refused_by self.old ++ pattern.now ∷ []) }
        ensures unfinished { unfinished_by self.new ≡ unfinished_by self.old }
        ensures matches { matches_of self.new ≡ matches_of self.old }
        ensures unchanged { OnErr result (refused_by self.new ≡ refused_by self.old) }
    {
        self.refused.push(String::from_str(alloc, pattern)?)?;
        Ok(())
    }

    /// Gives up on a pattern from now on.
    ///
    /// # Errors
    ///
    /// Where memory was refused.
    pub fn leave_unfinished(&mut self, alloc: Global, pattern: &str) -> Result<(), AllocError>
        ensures unfinished { OnOk result (unfinished_by self.new ≡ unfinished_by self.old ++ pattern.now ∷ []) }
        ensures refused { refused_by self.new ≡ refused_by self.old }
        ensures matches { matches_of self.new ≡ matches_of self.old }
        ensures unchanged { OnErr result (unfinished_by self.new ≡ unfinished_by self.old) }
    {
        self.unfinished.push(String::from_str(alloc, pattern)?)?;
        Ok(())
    }

    /// Matches a pattern in a text from now on.
    ///
    /// # Errors
    ///
    /// Where memory was refused.
    pub fn add_match(&mut self, alloc: Global, pattern: &str, text: &str) -> Result<(), AllocError>
        ensures matches { OnOk result (matches_of self.new ≡ matches_of self.old ++ (pattern.now, text.now) ∷ []) }
        ensures refused { refused_by self.new ≡ refused_by self.old }
        ensures unfinished { unfinished_by self.new ≡ unfinished_by self.old }
        ensures unchanged { OnErr result (matches_of self.new ≡ matches_of self.old) }
    {
        let pattern = String::from_str(alloc, pattern)?;
        let text = String::from_str(alloc, text)?;
        self.matches.push((pattern, text))?;
        Ok(())
    }

    // The texts in which a pattern is matched.
    fn texts_of(&self, alloc: Global, pattern: &str) -> Result<Vec<String>, AllocError>
        ensures { IfOk result (λ ts. (text : _) → list_any (λ t. bytes_eq (string_bytes t) text) ts.items ≡ reads_as (matches_of self.now) pattern.now text) }
    {
        let mut texts = Vec::new(alloc);
        for (matched, text) in &self.matches {
            if matched.as_str() == pattern {
                texts.push(text.clone()?)?;
            }
        }
        Ok(texts)
    }
}

fn is_among(texts: &[String], text: &str) -> bool
    ensures { result ≡ list_any (λ t. bytes_eq (string_bytes t) text.now) texts.now }
{
    texts.iter().any(|one| one.as_str() == text)
}

impl PatternMaker for ScriptedMaker {
    type Matcher = ScriptedMatcher;

    ghost patterns = { scripted_patterns };

    fn make(&self, alloc: Global, pattern: &str) -> Result<ScriptedMatcher, PatternError> {
        if is_among(&self.refused, pattern) {
            return Err(PatternError::BadPattern);
        }
        let is_unfinished = is_among(&self.unfinished, pattern);
        match self.texts_of(alloc, pattern) {
            Ok(texts) => Ok(ScriptedMatcher {
                is_unfinished,
                texts,
            }),
            Err(_) => Err(PatternError::Memory),
        }
    }
}

impl PatternMatcher for ScriptedMatcher {
    ghost finds = { finds_by_script };

    fn is_match(&self, text: &str) -> MatchAnswer {
        if self.is_unfinished {
            MatchAnswer::Unfinished
        } else if is_among(&self.texts, text) {
            MatchAnswer::Yes
        } else {
            MatchAnswer::No
        }
    }
}
