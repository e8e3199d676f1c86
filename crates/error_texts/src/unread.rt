//! What is said of a text that is no value.
ghost use Rattle.std.specs.Prelude.{◌≡◌, ◌++◌, string_bytes, IfOk, OnOk, OnErr};
ghost use Rattle.serde_json.specs.View.{view};
ghost use Rattle.serde_json.specs.Written.{compact_text};
ghost use Rattle.error_texts.specs.Unread.{placed_data, unread_data};

use serde_json::{Value, json};
use std::alloc::{AllocError, Global};

/// Where a text is no longer JSON, or a number begins that is not whole: the number of its line, and of a byte in that line, each from 1 on.
/// Where the text ends too early the byte is the last one, or 0 where the last line is empty, or the quotation mark that has no other.
#[derive(Clone, Copy, Debug, PartialEq, Eq)]
pub struct TextPlace {
    pub line: usize,
    pub column: usize,
}

/// Appends what is said of a text that is no value: `null`, the reason, and the place as `line` and `column` where there is one. The text is
/// as it was where memory is out.
pub fn write_unread(
    alloc: Global,
    reason: &str,
    place: Option<TextPlace>,
    text: &mut String,
) -> Result<(), AllocError>
    ensures written { OnOk result (string_bytes text.new ≡ string_bytes text.old
        ++ compact_text (unread_data reason.now place)) }
    ensures unchanged { OnErr result (string_bytes text.new ≡ string_bytes text.old) }
{
    let written = unread_value(alloc, reason, place)?.to_string(alloc)?;
    text.push_str(written.as_str())
}

fn unread_value(alloc: Global, reason: &str, place: Option<TextPlace>) -> Result<Value, AllocError>
    ensures { IfOk result (λ v. view v ≡ unread_data reason.now place) }
{
    match place {
        Some(place) => placed_value(alloc, reason, place),
        None => json!(in alloc; {"reason": reason, "valid": null}),
    }
}

fn placed_value(alloc: Global, reason: &str, place: TextPlace) -> Result<Value, AllocError>
    ensures { IfOk result (λ v. view v ≡ placed_data reason.now place) }
{
    let column = Value::from(place.column);
    let line = Value::from(place.line);
    json!(in alloc; {"column": column, "line": line, "reason": reason, "valid": null})
}
