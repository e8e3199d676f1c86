//! Patterns that are ready to be matched.

ghost use Rattle.std.specs.Prelude.{◌≡◌, ◌≢◌, ℕ, List, IsTrue, IfOk, IfErr, Ok, Err, false, is_some, None, option_map};
ghost use Rattle.value_checks.specs.CodePatterns.{form_of};
ghost use Rattle.json_values.specs.Patterns.{literal_of, known};
ghost use Rattle.schema_patterns.specs.Answers.{Tells};
ghost use Rattle.schema_patterns.specs.Compiled.{found_by, is_optimized, optimized};
ghost use Rattle.schema_patterns.specs.declared.compiled.CompiledPattern.TheVariants.{Made};
ghost use Rattle.schema_patterns.specs.declared.matcher.MatchAnswer.TheVariants.{NoMemory};
ghost use Rattle.schema_patterns.specs.declared.matcher.PatternError.TheVariants.{BadPattern};

use crate::matcher::{MatchAnswer, PatternError, PatternMaker, PatternMatcher};
use std::alloc::Global;
use value_checks::patterns::{PatternOptimization, analyze_pattern};

/// A pattern that is ready to be matched.
#[derive(Drop)]
pub enum CompiledPattern<M> {
    /// One of the literal forms, which needs no matcher.
    Optimized(PatternOptimization),
    /// Any other, with its matcher.
    Made(M),
}

impl<M: PatternMatcher> CompiledPattern<M> {
    /// The pattern of a text. The maker is asked only where the text is none of the literal forms.
    ///
    /// It reads the text a few times, and then asks the maker.
    ///
    /// # Errors
    ///
    /// Where the maker refuses the text, or where memory was refused.
    pub fn new<P: PatternMaker<Matcher = M>>(
        alloc: Global,
        maker: &P,
        pattern: &str,
    ) -> Result<CompiledPattern<M>, PatternError>
        ensures finds { IfOk result (λ c. (text : List ℕ) → found_by M.finds c text ≡ known (P.patterns maker.now).finished pattern.now text) }
        ensures optimized { IfOk result (λ c. is_optimized c ≡ is_some (literal_of pattern.now)) }
        ensures refused { IfErr result (λ e. e ≡ BadPattern → (literal_of pattern.now ≡ None) × ((P.patterns maker.now).makes pattern.now ≡ false)) }
    {
        CompiledPattern::new_with(alloc, pattern, || maker.make(alloc, pattern))
    }

    /// The same with the matcher from a call, which may be made only where the text is none of the literal forms.
    ///
    /// # Errors
    ///
    /// That of the call, or where memory was refused.
    pub fn new_with<F: FnOnce() -> Result<M, PatternError> + Drop>(
        alloc: Global,
        pattern: &str,
        make: F,
    ) -> Result<CompiledPattern<M>, PatternError>
        requires { literal_of pattern.now ≡ None → F.pre make }
        ensures optimized { IfOk result (λ c. option_map form_of (optimized c) ≡ literal_of pattern.now) }
        ensures made { IfOk result (λ c. (m : M) → c ≡ Made m → F.post make (Ok m)) }
        ensures refused { IfErr result (λ e. e ≡ BadPattern → (literal_of pattern.now ≡ None) × F.post make (Err BadPattern)) }
    {
        match analyze_pattern(alloc, pattern) {
            Ok(Some(optimization)) => Ok(CompiledPattern::Optimized(optimization)),
            Ok(None) => Ok(CompiledPattern::Made(make()?)),
            Err(_) => Err(PatternError::Memory),
        }
    }
}

impl<M: PatternMatcher> PatternMatcher for CompiledPattern<M> {
    ghost finds = { found_by M.finds };

    // A literal form takes no memory.
    fn is_match(&self, text: &str) -> MatchAnswer
        ensures told { Tells (found_by M.finds self.now text.now) result }
        ensures optimized { IsTrue (is_optimized self.now) → result ≢ NoMemory }
    {
        match self {
            CompiledPattern::Optimized(optimization) if optimization.is_match(text) => {
                MatchAnswer::Yes
            }
            CompiledPattern::Optimized(_) => MatchAnswer::No,
            CompiledPattern::Made(matcher) => matcher.is_match(text),
        }
    }
}
