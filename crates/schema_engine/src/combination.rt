//! How a verdict comes from answers.
ghost use Rattle.std.specs.Prelude.{◌≡◌, ◌+◌, ℕ, IfSome};
ghost use Rattle.schema_engine.specs.Rules.{is_counted};

/// The rule that a keyword follows at a value.
#[derive(Clone, Copy)]
pub enum Combination {
    /// Nothing is wrong with the value itself, and every answer is yes.
    Every,
    /// Every answer is yes. One fault speaks for all that are not.
    Together,
    /// Every name is accepted.
    EachNamed,
    /// At least one answer is yes.
    SomeBranch,
    /// Exactly one answer is yes.
    OneBranch,
    /// The one answer is no.
    Refusal,
    /// The number of answers that are yes is within bounds.
    Counted { least: usize, most: Option<usize> },
    /// The first answer chooses which of the others count: those that stand beside it.
    Conditional,
}

/// Whether a count is within bounds.
pub(crate) fn is_within(count: usize, least: usize, most: Option<usize>) -> bool
    ensures { result ≡ is_counted least most count }
{
    match most {
        Some(most) => count >= least && count <= most,
        None => count >= least,
    }
}

/// The verdict by a count, if no further yes can change it.
pub(crate) fn settled(count: usize, least: usize, most: Option<usize>) -> Option<bool>
    ensures { IfSome result (λ b. (more : ℕ) → is_counted least most (more + count) ≡ b) }
{
    match most {
        Some(most) => if count > most { Some(false) } else { None },
        None => if count >= least { Some(true) } else { None },
    }
}
