//! Why a reading stops without a verdict.
ghost use Rattle.std.specs.Prelude.{◌≡◌};

use std::alloc::AllocError;

/// Why there is no verdict.
#[derive(Clone, Copy, Debug, PartialEq, Eq, Drop)]
pub enum Stop {
    /// Memory was refused, or a count of owners is full.
    Memory,
    /// A reference came back to its target at one place of the value.
    Circular,
}

impl From<AllocError> for Stop {
    ghost use Rattle.plain_reader.specs.declared.stop.Stop.TheVariants.{Memory};

    ghost from_gives = { λ _ e. e ≡ Memory };

    fn from(_error: AllocError) -> Stop {
        Stop::Memory
    }
}
