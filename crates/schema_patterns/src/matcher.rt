//! Matchers of patterns, and what makes them.

ghost use Rattle.std.specs.Prelude.{◌≡◌, ℕ, List, Bool, true, false, Option, IfOk, IfErr};
ghost use Rattle.schema_patterns.specs.Answers.{Tells};
ghost use Rattle.schema_patterns.specs.Makers.{Patterns};
ghost use Rattle.schema_patterns.specs.declared.matcher.PatternError.TheVariants.{BadPattern};

use std::alloc::Global;

/// What a matcher answers of a text.
#[derive(Clone, Copy, Debug, PartialEq, Eq)]
pub enum MatchAnswer {
    /// The pattern matches somewhere in the text.
    Yes,
    /// It matches nowhere in the text.
    No,
    /// The matcher gave up. It gives up on this text each time.
    Unfinished,
    /// Memory was refused. This says nothing of the match.
    NoMemory,
}

/// Why no matcher was made.
#[derive(Clone, Copy, Debug, PartialEq, Eq)]
pub enum PatternError {
    /// The text is no pattern of the maker's.
    BadPattern,
    /// Memory was refused. This says nothing of the text.
    Memory,
}

/// A pattern that is searched for in texts: it may match anywhere in them (Validation 6.3.3).
pub trait PatternMatcher: Drop {
    // Whether the pattern matches a text, or nothing where the matcher gives up on it.
    ghost finds: { Self → List ℕ → Option Bool };

    /// Whether the pattern matches somewhere in the text.
    fn is_match(&self, text: &str) -> MatchAnswer
        ensures { Tells (finds self.now text.now) result };
}

/// Makes the matchers of patterns.
pub trait PatternMaker {
    /// What it makes.
    type Matcher: PatternMatcher;

    // Which texts it makes matchers of, and what these find, as one relation of pattern and text.
    ghost patterns: { Self → Patterns };

    /// The matcher of a pattern.
    ///
    /// # Errors
    ///
    /// Where the text is refused, each time that it is asked for, or where memory was.
    fn make(&self, alloc: Global, pattern: &str) -> Result<Self::Matcher, PatternError>
        ensures finds { IfOk result (λ m. (text : List ℕ) → Self.Matcher.finds m text ≡ (patterns self.now).finished pattern.now text) }
        ensures made { IfOk result (λ m. (patterns self.now).makes pattern.now ≡ true) }
        ensures refused { IfErr result (λ e. e ≡ BadPattern → (patterns self.now).makes pattern.now ≡ false) };
}
