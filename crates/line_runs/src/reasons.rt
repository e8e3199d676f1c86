//! Why a text is no value.

use crate::text_places::{DEEPEST, no_utf8_at, number_at, too_deep_at};
use error_texts::TextPlace;
use schema_registries::numbers::has_only_whole;
use schema_registries::other_number;
use serde_json::error::Category;
use serde_json::{Error, Value};
use std::alloc::{AllocError, Global};

/// What is said of a JSON text with another number.
const OTHER_NUMBER: &str = "a number is no whole number of 64 bits";

/// Why a text is no value, and where it is no longer JSON, or has another number.
#[derive(Debug, Drop)]
pub(crate) struct Reason {
    pub(crate) text: String,
    pub(crate) place: Option<TextPlace>,
}

/// What is wrong with a text that is no value: its first fault as JSON with its place, or its first number that is not whole.
pub(crate) fn reason_of(alloc: Global, text: &[u8]) -> Result<Reason, AllocError> {
    match Value::from_slice(alloc, text) {
        Ok(value) => of_number(alloc, text, &value),
        Err(error) => of_error(alloc, text, &error),
    }
}

// The first number that is no whole number of 64 bits, and where it stands in the value and in the text.
fn of_number(alloc: Global, text: &[u8], value: &Value) -> Result<Reason, AllocError> {
    let is_whole = has_only_whole(value);
    if is_whole {
        return Ok(Reason {
            text: String::from_str(alloc, OTHER_NUMBER)?,
            place: None,
        });
    }
    let path = other_number(alloc, value)?;
    let number = path.find_in(value).unwrap_or(value).to_string(alloc)?;
    let place = number_at(alloc, text, number.as_str())?;
    let text = if path.is_root() {
        format!(in alloc; "{OTHER_NUMBER}: {number}")?
    } else {
        format!(in alloc; "{OTHER_NUMBER}: {number} at '{path}'")?
    };
    Ok(Reason { text, place })
}

fn of_error(alloc: Global, text: &[u8], error: &Error) -> Result<Reason, AllocError> {
    if error.classify() == Category::Memory {
        return Err(AllocError);
    }
    let place = place_of(error);
    let text = match place {
        Some(place) => at_place(alloc, text, error, place)?,
        None => error.to_string(alloc)?,
    };
    Ok(Reason { text, place })
}

// What is wrong at the place where the reader stopped: it says no more than that the text is no JSON where a text is nested too deep or is no
// text at all.
fn at_place(
    alloc: Global,
    text: &[u8],
    error: &Error,
    place: TextPlace,
) -> Result<String, AllocError> {
    let (line, column) = (place.line, place.column);
    if too_deep_at(text) == Some(place) {
        return format!(in alloc; "nested deeper than {DEEPEST} at line {line} column {column}");
    }
    if no_utf8_at(text) == Some(place) {
        return format!(in alloc; "no UTF-8 at line {line} column {column}");
    }
    error.to_string(alloc)
}

// Where the reader stopped. It counts lines from 1 on, and says 0 where it knows of no place.
fn place_of(error: &Error) -> Option<TextPlace> {
    match error.line() {
        0 => None,
        line => Some(TextPlace {
            line,
            column: error.column(),
        }),
    }
}
