//! Places in the texts of lines that are no values.

use error_texts::TextPlace;
use schema_registries::numbers::has_only_whole;
use serde_json::Value;
use serde_json::error::Category;
use std::alloc::{AllocError, Global};
use std::str;

/// How many levels of lists and objects are read.
pub(crate) const DEEPEST: usize = 127;

/// Where the first byte stands that is no UTF-8.
pub(crate) fn no_utf8_at(text: &[u8]) -> Option<TextPlace> {
    let Err(error) = str::from_utf8(text) else {
        return None;
    };
    let mut place = TextPlace { line: 1, column: 1 };
    for byte in text.iter().take(error.valid_up_to()) {
        place = behind(place, *byte);
    }
    Some(place)
}

// The place behind a byte.
fn behind(place: TextPlace, byte: u8) -> TextPlace {
    if byte == b'\n' {
        TextPlace {
            line: place.line.saturating_add(1),
            column: 1,
        }
    } else {
        TextPlace {
            line: place.line,
            column: place.column.saturating_add(1),
        }
    }
}

// Where a byte of a JSON text stands.
#[derive(Clone, Copy, PartialEq, Eq)]
enum Within {
    Values,
    Text,
    Escape,
}

// Where the next byte stands.
fn next_within(within: Within, byte: u8) -> Within {
    match (within, byte) {
        (Within::Escape, _) => Within::Text,
        (Within::Text, b'\\') => Within::Escape,
        (Within::Text, b'"') => Within::Values,
        (Within::Values, b'"') => Within::Text,
        (within, _) => within,
    }
}

/// Where the first bracket stands that nests a text deeper than is read.
pub(crate) fn too_deep_at(text: &[u8]) -> Option<TextPlace> {
    let mut place = TextPlace { line: 1, column: 1 };
    let mut within = Within::Values;
    let mut depth: usize = 0;
    for byte in text {
        match (within, *byte) {
            (Within::Values, b'[' | b'{') => {
                if depth == DEEPEST {
                    return Some(place);
                }
                depth = depth.saturating_add(1);
            }
            (Within::Values, b']' | b'}') => depth = depth.saturating_sub(1),
            _ => {}
        }
        within = next_within(within, *byte);
        place = behind(place, *byte);
    }
    None
}

/// Where the first number stands in a JSON text that is no whole number of 64 bits and is this one, as it is written anew.
pub(crate) fn number_at(
    alloc: Global,
    text: &[u8],
    number: &str,
) -> Result<Option<TextPlace>, AllocError> {
    let mut place = TextPlace { line: 1, column: 1 };
    let mut within = Within::Values;
    let mut is_counted = false;
    for (position, byte) in text.iter().enumerate() {
        let is_part = within == Within::Values && is_of_number(*byte);
        let begins = is_part && !is_counted && is_first_of_number(*byte);
        if begins && is_number(alloc, number_from(text, position), number)? {
            return Ok(Some(place));
        }
        is_counted = is_part && (is_counted || begins);
        within = next_within(within, *byte);
        place = behind(place, *byte);
    }
    Ok(None)
}

fn is_first_of_number(byte: u8) -> bool {
    matches!(byte, b'-' | b'0'..=b'9')
}

fn is_of_number(byte: u8) -> bool {
    matches!(byte, b'-' | b'0'..=b'9' | b'+' | b'.' | b'e' | b'E')
}

// The text of the number that begins at a byte.
fn number_from(text: &[u8], position: usize) -> &[u8] {
    let rest = text.get(position..).unwrap_or(text);
    let end = rest.iter().position(|byte| !is_of_number(*byte));
    match end {
        Some(end) => rest.get(..end).unwrap_or(rest),
        None => rest,
    }
}

// Whether the text of a number is this one, which is no whole number of 64 bits.
fn is_number(alloc: Global, text: &[u8], number: &str) -> Result<bool, AllocError> {
    match Value::from_slice(alloc, text) {
        Ok(value) => {
            let is_whole = has_only_whole(&value);
            Ok(!is_whole && value.to_string(alloc)?.as_str() == number)
        }
        Err(error) if error.classify() == Category::Memory => Err(AllocError),
        Err(_) => Ok(false),
    }
}
