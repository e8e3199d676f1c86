//! What the calls of this crate refuse.

ghost use Rattle.std.specs.Prelude.{◌≡◌};
ghost use Rattle.uri_references.specs.declared.error.Error.TheVariants.{Memory};

use std::alloc::AllocError;
use thiserror::Error;

/// Why a text is refused as a URI.
#[derive(Debug, Drop, Error)]
pub enum UriError {
    /// The text is no URI reference, or no URI or fragment where one is wanted.
    #[error("Invalid URI '{uri}'")]
    Parse { uri: String },
    /// The reference has no target against the base. Against a URI each reference has one, so no call answers this.
    #[error("Invalid URI '{uri}'")]
    Resolve { uri: String, base: String },
}

/// What a call refuses.
#[derive(Debug, Drop, Error)]
pub enum Error {
    #[error(transparent)]
    InvalidUri(UriError),
    /// Memory was refused.
    #[error("No memory")]
    Memory,
}

impl From<AllocError> for Error {
    ghost from_gives = { λ _ e. e ≡ Memory };

    fn from(_error: AllocError) -> Error {
        Error::Memory
    }
}
