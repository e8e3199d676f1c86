//! The value of a line.
ghost use Rattle.std.specs.Prelude.{◌≡◌, true, IfOk, IfSome, option_map};
ghost use Rattle.serde_json.specs.View.{view};
ghost use Rattle.schema_definitions.specs.Lines as lines;
ghost use Rattle.schema_registries.specs.Whole.{only_whole};

use crate::numbers::has_only_whole;
use serde_json::Value;
use serde_json::error::Category;
use std::alloc::{AllocError, Global};

/// The value of a line: none where the bytes are no UTF-8 or no JSON text, or a number is no whole number of 64 bits.
///
/// It takes time in the length of the line. The error comes where memory was refused.
pub fn line_value(alloc: Global, line: &[u8]) -> Result<Option<Value>, AllocError>
    ensures value { IfOk result (λ o. option_map (λ v. view v) o ≡ lines.line_value line.now) }
    ensures whole { IfOk result (λ o. IfSome o (λ v. only_whole (view v) ≡ true)) }
{
    match Value::from_slice(alloc, line) {
        Ok(value) => {
            if has_only_whole(&value) {
                Ok(Some(value))
            } else {
                Ok(None)
            }
        }
        Err(error) => match error.classify() {
            Category::Memory => Err(AllocError),
            _ => Ok(None),
        },
    }
}
