//! Why a pointer leads nowhere.

ghost use Rattle.std.specs.Prelude.{◌≡◌, IfSome};
ghost use Rattle.schema_definitions.specs.Lookup.{pointer_to_nowhere, invalid_percent_encoding, invalid_array_index};
ghost use Rattle.schema_places.specs.Causes.{cause_of};
ghost use Rattle.schema_places.specs.declared.error.WalkError.TheVariants.{Memory};

use std::alloc::{AllocError, Global};
use thiserror::Error;

/// Why a pointer leads nowhere. Each text is as it is written in the reference.
#[derive(Debug, Drop, Error)]
pub enum WalkError {
    /// A member or an item is not there, or a part stands below a scalar.
    #[error("Pointer '{pointer}' does not exist")]
    Nowhere { pointer: String },
    /// The decoded pointer is no text.
    #[error("Invalid percent encoding in pointer '{pointer}': the decoded bytes do not represent valid UTF-8")]
    PercentEncoding { pointer: String },
    /// A list stands where this part is no index.
    #[error("Invalid array index '{index}' in pointer '{pointer}'")]
    ArrayIndex { index: String, pointer: String },
    /// Memory was refused.
    #[error("No memory")]
    Memory,
}

impl From<AllocError> for WalkError {
    ghost from_gives = { λ _ e. e ≡ Memory };

    fn from(_error: AllocError) -> WalkError {
        WalkError::Memory
    }
}

pub(crate) fn nowhere(alloc: Global, written: &str) -> WalkError
    ensures { IfSome (cause_of result) (λ cause. cause ≡ pointer_to_nowhere written.now) }
{
    match String::from_str(alloc, written) {
        Ok(pointer) => WalkError::Nowhere { pointer },
        Err(_) => WalkError::Memory,
    }
}

pub(crate) fn percent_encoding(alloc: Global, written: &str) -> WalkError
    ensures { IfSome (cause_of result) (λ cause. cause ≡ invalid_percent_encoding written.now) }
{
    match String::from_str(alloc, written) {
        Ok(pointer) => WalkError::PercentEncoding { pointer },
        Err(_) => WalkError::Memory,
    }
}

pub(crate) fn array_index(alloc: Global, token: &str, written: &str) -> WalkError
    ensures { IfSome (cause_of result) (λ cause. cause ≡ invalid_array_index token.now written.now) }
{
    match (
        String::from_str(alloc, token),
        String::from_str(alloc, written),
    ) {
        (Ok(index), Ok(pointer)) => WalkError::ArrayIndex { index, pointer },
        _ => WalkError::Memory,
    }
}
