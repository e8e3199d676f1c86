//! What answers lines.
ghost use Rattle.std.specs.Prelude.{◌≡◌, ◌++◌, ℕ, List, Bool, OnOk, string_bytes};

use std::alloc::AllocError;

/// What answers a line.
pub trait LineAnswers {
    /// What it keeps from line to line.
    type Kept;

    // What is written for a line, its line end with it.
    ghost answers: { Self → List ℕ → List ℕ → Type 0 };
    // Whether what is written tells that the line's value is refused, or that it has none.
    ghost refuses: { Self → List ℕ → Bool };

    // Whether it is kept for these answers.
    ghost keeps: { Self → Self.Kept → Type 0 };

    /// Appends what is written for a line, its line end with it.
    ///
    /// # Errors
    ///
    /// Where memory was refused. Part of the answer can then stand behind the text.
    fn answer(
        &self,
        kept: &mut Self::Kept,
        line: &[u8],
        text: &mut String,
    ) -> Result<(), AllocError>
        requires { keeps self.now kept.old }
        ensures kept { OnOk result (keeps self.now kept.new) }
        ensures answered { OnOk result ((written : List ℕ) × answers self.now line.now written × (string_bytes text.new ≡ string_bytes text.old ++ written)) };

    /// Whether what was written for a line tells that its value is refused, or that it has none.
    fn is_refused(&self, written: &[u8]) -> bool
        ensures { result ≡ refuses self.now written.now };
}
