//! Texts as JSON strings.
ghost use Rattle.std.specs.Prelude.{◌≡◌, ◌++◌, string_bytes, OnOk};
ghost use Rattle.std.specs.List.{list_all};
ghost use Rattle.json.specs.Print.{quoted};
ghost use Rattle.json.specs.Run as spec;
ghost use Rattle.json_pointers.specs.Buffers.{Grows};

use serde_json::Value;
use std::alloc::{AllocError, Global};

/// Appends a text as a JSON string (RFC 8259, section 7).
///
/// It is linear in the text, and allocates only where the buffer has to grow, or where a character has to be escaped.
pub(crate) fn write_quoted(alloc: Global, string: &str, text: &mut String) -> Result<(), AllocError>
    ensures ok { OnOk result (string_bytes text.new ≡ string_bytes text.old ++ quoted string.now) }
    ensures grows { Grows text.old text.new }
{
    if are_plain(string) {
        text.push_str("\"")?;
        text.push_str(string)?;
        return text.push_str("\"");
    }
    let written = Value::String(String::from_str(alloc, string)?).to_string(alloc)?;
    text.push_str(written.as_str())
}

// Whether each byte stands for itself in a JSON string.
fn are_plain(string: &str) -> bool
    ensures { result ≡ list_all spec.is_plain string.now }
{
    string.bytes().all(is_plain)
}

fn is_plain(byte: u8) -> bool
    ensures { result ≡ spec.is_plain byte }
{
    byte >= b' ' && byte != b'"' && byte != b'\\'
}
