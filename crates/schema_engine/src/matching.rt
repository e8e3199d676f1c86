//! Matches of patterns.
ghost use Rattle.std.specs.Prelude.{◌≡◌, OnOk, OnErr, IfOk};
ghost use Rattle.json_values.specs.Patterns.{matched};
ghost use Rattle.schema_engine.specs.Led.{MayMatch};
ghost use Rattle.schema_engine.specs.Matches.{Matches, InEach};

use std::alloc::AllocError;

/// Reads matches of numbered patterns, and may keep what it made for them.
///
/// What is known of matches stays as it is while it lasts. It may stop at a match of which nothing is known: that is an error as well, and
/// which of the two it was it remembers by itself.
pub trait Matching {
    // Each number's pattern, what is known of matches, and where the questions begin that may ask for them.
    ghost matches: { Self → Matches };

    /// Whether a text matches a pattern. A literal form is read by its own meaning.
    ///
    /// # Errors
    ///
    /// Where memory was refused, or nothing is known of the match.
    fn is_match(&mut self, pattern: usize, text: &str) -> Result<bool, AllocError>
        requires { MayMatch (matches self.old) ((matches self.old).pattern pattern) text.now }
        ensures same { OnOk result (matches self.new ≡ matches self.old) }
        ensures stays { OnErr result (matches self.new ≡ matches self.old) }
        ensures read { IfOk result (λ b. InEach (matches self.old)
            (λ m. b ≡ matched m ((matches self.old).pattern pattern) text.now)) };
}
