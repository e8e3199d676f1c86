//! Naming a text that is refused.

ghost use Rattle.std.specs.Prelude.{false};
ghost use Rattle.uri_references.specs.Refusals.{Refuses};

use crate::error::{Error, UriError};
use std::alloc::Global;

/// The error that names a text.
pub fn refusal(alloc: Global, text: &str) -> Error
    ensures { Refuses false text.now result }
{
    match String::from_str(alloc, text) {
        Ok(uri) => Error::InvalidUri(UriError::Parse { uri }),
        Err(_) => Error::Memory,
    }
}
