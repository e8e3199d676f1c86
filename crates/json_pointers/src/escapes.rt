//! How a part of a pointer is written and read: `~` as `~0`, `/` as `~1`.
ghost use Rattle.std.specs.Prelude.{◌≡◌, ◌≢◌, ◌≤◌, ◌<◌, ◌+◌, ℕ, List, ◌++◌, ◌∷◌, length, take, drop, All, OnOk, OnErr, IfOk, IsOkAnd, decimal, string_bytes, string_len};
ghost use Rattle.std.specs.String.{string_capacity};
ghost use Rattle.std.specs.Cow.{cow_str_bytes, IsBorrowedStr};
ghost use Rattle.serde_json.specs.Find.{unescape};
ghost use Rattle.json_values.specs.Pointers.{escape, escape_slashes, unescape_in_turn};
ghost use Rattle.json_pointers.specs.Buffers.{Grows};

use itoa::Buffer;
use std::alloc::{AllocError, Global};
use std::borrow::CowStr;

/// The text that a part of a pointer stands for: `~1` is `/`, and `~0` is `~` (RFC 6901, section 4).
///
/// `~` before any other character, or at the end, stands for itself. It is linear in the segment, and one allocation
/// as long as the segment holds the text; a segment without `~` is lent, and nothing is allocated.
pub fn unescape_segment(alloc: Global, segment: &str) -> Result<CowStr<'_>, AllocError>
    ensures value { IfOk result (λ text. cow_str_bytes text ≡ unescape segment.now) }
    ensures in_turn { IfOk result (λ text. cow_str_bytes text ≡ unescape_in_turn segment.now) }
    ensures undoes { (t : List ℕ) → segment.now ≡ escape t → IfOk result (λ text. cow_str_bytes text ≡ t) }
    ensures borrows { All (λ b. b ≢ 126) segment.now → IsOkAnd result IsBorrowedStr }
{
    if !segment.contains('~') {
        return Ok(CowStr::Borrowed(segment));
    }
    let mut text = String::with_capacity(alloc, segment.len())?;
    push_unescaped(&mut text, segment)?;
    Ok(CowStr::Owned(text))
}

fn push_unescaped(buffer: &mut String, segment: &str) -> Result<(), AllocError>
    ensures { OnOk result (string_bytes buffer.new ≡ string_bytes buffer.old ++ unescape segment.now) }
{
    let mut rest = segment;
    while let Some((plain, after)) = rest.split_once('~') {
        buffer.push_str(plain)?;
        let (character, after_escape) = escaped_character(after);
        buffer.push_str(character)?;
        rest = after_escape;
    }
    buffer.push_str(rest)
}

// The character that a `~` with this text after it stands for, and what comes after it.
fn escaped_character(after: &str) -> (&'static str, &str)
    ensures value { unescape (126 ∷ after.now) ≡ result.0.now ++ unescape result.1.now }
    ensures shorter { length result.1.now ≤ length after.now }
{
    if let Some(rest) = after.strip_prefix('1') {
        return ("/", rest);
    }
    if let Some(rest) = after.strip_prefix('0') {
        return ("~", rest);
    }
    ("~", after)
}

/// Appends a text as a part of a pointer: `~` is written `~0`, and `/` is written `~1` (RFC 6901, section 3).
///
/// The `/` before the part is the caller's to write. It is linear in the text, and allocates only where the buffer
/// has to grow.
pub fn write_escaped_str(buffer: &mut String, text: &str) -> Result<(), AllocError>
    ensures ok { OnOk result (string_bytes buffer.new ≡ string_bytes buffer.old ++ escape text.now) }
    ensures undone { OnOk result
        (unescape (drop (string_len buffer.old) (string_bytes buffer.new)) ≡ text.now) }
    ensures err { OnErr result (string_bytes buffer.new ≡ string_bytes buffer.old) }
    ensures full { OnErr result
        (string_capacity buffer.old < string_len buffer.old + length (escape text.now)) }
    ensures capacity { string_capacity buffer.old ≤ string_capacity buffer.new }
{
    let start = buffer.len();
    if let Err(error) = push_escaped(buffer, text) {
        buffer.truncate(start);
        return Err(error);
    }
    Ok(())
}

fn push_escaped(buffer: &mut String, text: &str) -> Result<(), AllocError>
    ensures ok { OnOk result (string_bytes buffer.new ≡ string_bytes buffer.old ++ escape text.now) }
    ensures grows { Grows buffer.old buffer.new }
    ensures full { OnErr result
        (string_capacity buffer.old < string_len buffer.old + length (escape text.now)) }
{
    let mut rest = text;
    while let Some((before, after)) = rest.split_once('~') {
        push_slashes(buffer, before)?;
        buffer.push_str("~0")?;
        rest = after;
    }
    push_slashes(buffer, rest)
}

// Appends a text with each `/` written `~1`.
fn push_slashes(buffer: &mut String, text: &str) -> Result<(), AllocError>
    ensures ok { OnOk result (string_bytes buffer.new ≡ string_bytes buffer.old ++ escape_slashes text.now) }
    ensures grows { Grows buffer.old buffer.new }
    ensures full { OnErr result
        (string_capacity buffer.old < string_len buffer.old + length (escape_slashes text.now)) }
{
    let mut rest = text;
    while let Some((before, after)) = rest.split_once('/') {
        buffer.push_str(before)?;
        buffer.push_str("~1")?;
        rest = after;
    }
    buffer.push_str(rest)
}

/// Appends an index as a part of a pointer, in decimal digits (RFC 6901, section 4).
///
/// The `/` before the part is the caller's to write. It takes a constant time beside the buffer's growth.
pub fn write_index(buffer: &mut String, index: usize) -> Result<(), AllocError>
    ensures ok { OnOk result (string_bytes buffer.new ≡ string_bytes buffer.old ++ decimal index) }
    ensures err { OnErr result (string_bytes buffer.new ≡ string_bytes buffer.old) }
    ensures full { OnErr result
        (string_capacity buffer.old < string_len buffer.old + length (decimal index)) }
    ensures capacity { string_capacity buffer.old ≤ string_capacity buffer.new }
{
    let mut digits = Buffer::new();
    buffer.push_str(digits.format(index))
}
