//! Whether anything is wrong.
ghost use Rattle.std.specs.Prelude.{◌≡◌, true};
ghost use Rattle.schema_meaning.specs.Faults.{Fault, Faults, none, also, is_none, joined};

/// Hears whether there is any fault, and keeps none.
#[derive(Drop)]
pub struct Verdict {
    accepts: bool,
}

impl Verdict {
    ghost use Rattle.schema_reports.specs.Stands.{verdict_stands};

    /// No fault was told.
    pub const fn new() -> Self
        ensures { verdict_stands result none }
    {
        Verdict { accepts: true }
    }

    /// Whether no fault was told.
    pub const fn accepts(&self) -> bool
        ensures { (fs : Faults) → verdict_stands self.now fs → result ≡ is_none fs }
    {
        self.accepts
    }

    pub(crate) fn is_settled(&self) -> bool
        ensures { result ≡ true → (fs gs : Faults) → verdict_stands self.now fs → verdict_stands self.now (joined fs gs) }
    {
        !self.accepts
    }

    /// Tells it that there is a fault.
    pub(crate) fn refuse(&mut self)
        ensures { (fs : Faults) (f : Fault) → verdict_stands self.old fs → verdict_stands self.new (joined fs (also f none)) }
    {
        self.accepts = false;
    }

    /// Hears what another one heard, which accepts or does not.
    pub(crate) fn absorb(&mut self, accepts: bool)
        ensures { (fs gs : Faults) → verdict_stands self.old fs → accepts ≡ is_none gs → verdict_stands self.new (joined fs gs) }
    {
        self.accepts = self.accepts && accepts;
    }
}
