//! Reports and errors of runs.
ghost use Rattle.std.specs.Prelude.{◌≡◌, if◌then◌else◌};

use std::alloc::AllocError;
use thiserror::Error;

/// What a run answered.
#[derive(Debug, Clone, Copy, PartialEq, Eq)]
pub struct RunReport {
    /// How many lines were answered. It stays at `u64::MAX`.
    pub lines: u64,
    /// Whether the answer to any line told of a refusal.
    pub any_refused: bool,
}

impl RunReport {
    /// The exit status of a run that came to its end: 0 where no answer told of a refusal, and 1 where one did.
    pub fn status(self) -> u8
        ensures { result ≡ (if self.any_refused then 1 else 0) }
    {
        u8::from(self.any_refused)
    }
}

/// Why a run ended early.
#[derive(Debug, Clone, Copy, PartialEq, Eq, Error)]
pub enum RunError {
    /// A read failed.
    #[error("Reading failed")]
    Read,
    /// A write failed, or took nothing.
    #[error("Writing failed")]
    Write,
    /// Memory was refused.
    #[error("No memory")]
    Memory,
}

impl From<AllocError> for RunError {
    ghost use Rattle.line_cuts.specs.declared.report.RunError.TheVariants.{Memory};

    ghost from_gives = { λ _ e. e ≡ Memory };

    fn from(_error: AllocError) -> RunError {
        RunError::Memory
    }
}
