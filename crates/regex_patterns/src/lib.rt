//! The patterns of schemas over `regex`, and matches whose searches are kept from text to text.
#![tactic(auto)]

pub mod kept;

ghost use Rattle.regex_patterns.specs.Searches.{is_regex, searched, MeansItsText};

use regex::{Error, Matcher, Regex};
use schema_patterns::{MatchAnswer, PatternError, PatternMaker, PatternMatcher};
use std::alloc::{AllocError, Global};

/// Makes the patterns that the crate `regex` reads.
///
/// A pattern whose compiled form would take more than 10 MiB counts as want of memory.
#[derive(Clone, Copy, Debug, Default, PartialEq, Eq)]
pub struct RegexMaker;

/// A pattern that `regex` reads. It finishes each match that memory is there for.
#[derive(Drop)]
pub struct RegexMatcher {
    alloc: Global,
    regex: Regex,
    ghost means: { MeansItsText regex },
}

impl RegexMatcher {
    ghost use Rattle.std.specs.Prelude.{IfOk};
    ghost use Rattle.regex_patterns.specs.Matchers.{Searches};

    /// What searches for the pattern, to be kept beside it: it costs much more to make than to ask.
    ///
    /// # Errors
    ///
    /// Where memory was refused.
    pub fn matcher(&self) -> Result<Matcher<'_>, AllocError>
        ensures { IfOk result (Searches self.now) }
    {
        self.regex.matcher(self.alloc)
    }
}

impl PatternMaker for RegexMaker {
    type Matcher = RegexMatcher;

    ghost patterns = { λ _. record { makes = λ pattern. is_regex pattern; finished = λ pattern text. searched pattern text } };

    fn make(&self, alloc: Global, pattern: &str) -> Result<RegexMatcher, PatternError> {
        match Regex::new(alloc, pattern) {
            Ok(regex) => Ok(RegexMatcher { alloc, regex }),
            Err(Error::Syntax(_)) => Err(PatternError::BadPattern),
            Err(_) => Err(PatternError::Memory),
        }
    }
}

impl PatternMatcher for RegexMatcher {
    ghost use Rattle.regex_patterns.specs.Matchers.{finds_by_regex};

    ghost finds = { finds_by_regex };

    // What a search writes to is made anew each time, since a matcher is only lent.
    fn is_match(&self, text: &str) -> MatchAnswer {
        let Ok(mut matcher) = self.regex.matcher(self.alloc) else {
            return MatchAnswer::NoMemory;
        };
        if matcher.is_match(text) {
            MatchAnswer::Yes
        } else {
            MatchAnswer::No
        }
    }
}
