//! Causes.

use crate::place::SchemaPlace;
use referencing::Error as ReferenceError;
use std::alloc::AllocError;
use thiserror::Error;

/// Why a schema is refused before any instance is seen, and where.
#[derive(Debug, Drop, Error)]
pub enum BuildCause {
    /// A value that its keyword may not have, or what is no schema where one has to stand. What was found is shown as `shown` shows it.
    #[error("Keyword value at '{place}': expected {expected}")]
    KeywordValue {
        place: SchemaPlace,
        expected: &'static str,
        found: String,
    },
    /// A pattern that the maker of patterns refuses.
    #[error("Pattern at '{place}' is refused")]
    BadPattern {
        place: SchemaPlace,
        pattern: String,
    },
    /// A keyword that is left out.
    #[error("Keyword at '{place}' is left out")]
    Unevaluated {
        place: SchemaPlace,
    },
    /// A reference that leads nowhere, or an identifier that is no URI reference: its text and what is wrong with it.
    #[error("{error}")]
    Reference {
        place: SchemaPlace,
        reference: String,
        error: ReferenceError,
    },
    /// More schemas are reached than are allowed, each counted once for each base, dialect, scope key and schema path.
    #[error("More than {limit} schema nodes")]
    NodeLimit {
        limit: usize,
    },
    /// Memory was refused.
    #[error("No memory")]
    Memory,
}

impl From<AllocError> for BuildCause {
    ghost use Rattle.reached_sites.specs.declared.cause.BuildCause.TheVariants.{Memory};

    ghost from_gives = { λ _ e. e ≡ Memory };

    ghost use Rattle.std.specs.Prelude.{◌≡◌};

    fn from(_error: AllocError) -> BuildCause {
        BuildCause::Memory
    }
}
