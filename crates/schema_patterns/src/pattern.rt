//! The keyword `pattern`.

ghost use Rattle.std.specs.Prelude.{◌≡◌, IfOk};
ghost use Rattle.serde_json.specs.View.{view};
ghost use Rattle.schema_meaning.specs.Faults.{Pattern};
ghost use Rattle.schema_meaning.specs.Keywords.{wrong, unless, pattern as by_pattern};
ghost use Rattle.schema_patterns.specs.Read.{reads};

use crate::matches::Matches;
use serde_json::Value;
use std::alloc::{AllocError, Global};

/// Whether a value is no text, or a text that the pattern matches (Validation 6.3.3).
///
/// # Errors
///
/// Where memory was refused for the texts of a literal form.
pub fn accepts_text(
    alloc: Global,
    matches: &Matches,
    pattern: &str,
    value: &Value,
) -> Result<bool, AllocError>
    ensures { IfOk result (λ b. wrong (reads matches.now) (by_pattern pattern.now) (view value.now) ≡ unless b (Pattern pattern.now) (view value.now)) }
{
    match value {
        Value::String(text) => matches.is_match(alloc, pattern, text.as_str()),
        _ => Ok(true),
    }
}
