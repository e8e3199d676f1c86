//! What a pointer's text leads to in a document.
ghost use Rattle.std.specs.Prelude.{◌≡◌, ◌↔◌, ◌^◌, ◌∷◌, ◌<◌, ◌≤◌, IsTrue, length, drop, option_map};
ghost use Rattle.std.specs.Result.{result_map_both, result_ok};
ghost use Rattle.std.specs.List.{list_all};
ghost use Rattle.std.specs.Char.{is_ascii_digit};
ghost use Rattle.serde_json.specs.Find.{unescape, get_member};
ghost use Rattle.serde_json.specs.View.{view, items_view, members_view};
ghost use Rattle.json_values.specs.Pointers as spec;
ghost use Rattle.json_pointers.specs.Lent.{stop_of};

use serde_json::{Map, Value};
use thiserror::Error;

/// Why a pointer leads to no value (RFC 6901, section 7).
#[derive(Debug, Clone, Copy, PartialEq, Eq, Error)]
pub enum PointerError<'t> {
    /// The text is not empty, and begins with no `/`.
    #[error("not a JSON pointer")]
    NotAPointer,
    /// A member or an item is not there, or a part stands below a scalar.
    #[error("no value there")]
    Nowhere,
    /// An array stands where this part, as the pointer writes it, is no index.
    #[error("`{0}` is no array index")]
    InvalidArrayIndex(&'t str),
}

/// The value that a pointer's text leads to, lent from the document.
///
/// It costs what [`locate`] costs.
pub fn pointer<'v>(document: &'v Value, text: &str) -> Option<&'v Value>
    ensures { option_map (λ v. view v.now) result
        ≡ result_ok (spec.locate text.now (view document.now)) }
{
    locate(document, text).ok()
}

/// The value that a pointer's text leads to, lent from the document, or the first cause why it leads to none.
///
/// It is linear in the text, beside the look-ups, and allocates nothing.
pub fn locate<'v, 't>(document: &'v Value, text: &'t str) -> Result<&'v Value, PointerError<'t>>
    ensures { result_map_both (λ v. view v.now) stop_of result
        ≡ spec.locate text.now (view document.now) }
{
    if text.is_empty() {
        return Ok(document);
    }
    let Some(tokens) = text.strip_prefix('/') else {
        return Err(PointerError::NotAPointer);
    };
    let mut rest = tokens;
    let mut value = document;
    while let Some((token, after)) = rest.split_once('/') {
        value = step(value, token)?;
        rest = after;
    }
    step(value, rest)
}

/// The value that one part of a pointer, as the pointer writes it, leads to from another value.
///
/// An item is found in constant time and a name as in a map, with no allocation. A name that is written with a `~` is
/// compared with the object's names in turn. The error is never [`PointerError::NotAPointer`].
pub fn step<'v, 't>(value: &'v Value, token: &'t str) -> Result<&'v Value, PointerError<'t>>
    ensures { result_map_both (λ v. view v.now) stop_of result
        ≡ spec.step_from (view value.now) token.now }
{
    match value {
        Value::Object(members) => member(members, token).ok_or(PointerError::Nowhere),
        Value::Array(items) => item(items, token),
        _ => Err(PointerError::Nowhere),
    }
}

fn item<'v, 't>(items: &'v Vec<Value>, token: &'t str) -> Result<&'v Value, PointerError<'t>>
    ensures { result_map_both (λ v. view v.now) stop_of result
        ≡ spec.item_at token.now (spec.index_of token.now) (items_view items.now.items) }
{
    if !is_index(token) {
        return Err(PointerError::InvalidArrayIndex(token));
    }
    match parse_index(token) {
        Some(index) if index < items.len() => Ok(&items[index]),
        _ => Err(PointerError::Nowhere),
    }
}

// A name with an escape is compared with each key.
fn member<'v>(members: &'v Map<String, Value>, token: &str) -> Option<&'v Value>
    ensures { option_map (λ v. view v.now) result
        ≡ get_member (unescape token.now) (members_view members.now.entries) }
{
    if !token.contains('~') {
        return members.get(token);
    }
    for (name, value) in members.iter() {
        if unescapes_to(token.as_bytes(), name.as_bytes()) {
            return Some(value);
        }
    }
    None
}

fn unescapes_to(token: &[u8], name: &[u8]) -> bool
    ensures { IsTrue result ↔ (unescape token.now ≡ name.now) }
{
    let mut at = 0;
    let mut matched = 0;
    while at < token.len() {
        let (byte, next) = unescaped_at(token, at);
        if matched >= name.len() || name[matched] != byte {
            return false;
        }
        at = next;
        matched += 1;
    }
    matched == name.len()
}

fn unescaped_at(token: &[u8], at: usize) -> (u8, usize)
    requires { at < length token.now }
    ensures value { unescape (drop at token.now) ≡ result.0 ∷ unescape (drop result.1 token.now) }
    ensures next { (at < result.1) × (result.1 ≤ length token.now) }
{
    let byte = token[at];
    if at + 1 == token.len() {
        return (byte, at + 1);
    }
    let after = token[at + 1];
    if byte == b'~' && after == b'1' {
        (b'/', at + 2)
    } else if byte == b'~' && after == b'0' {
        (b'~', at + 2)
    } else {
        (byte, at + 1)
    }
}

/// The index that a part of a pointer is: `0`, or digits of which the first is not `0` (RFC 6901, section 4).
///
/// Any other text is none, `-`, `+1` and the empty text among them, and so is an index of 2^64 or more. It is linear
/// in the text.
pub fn parse_index(text: &str) -> Option<usize>
    ensures { result ≡ spec.index_below (2 ^ 64) text.now }
{
    if is_index(text) {
        text.parse().ok()
    } else {
        None
    }
}

// Whether a text is `0`, or digits of which the first is not `0`.
fn is_index(text: &str) -> bool
    ensures { result ≡ spec.is_index text.now }
{
    match text.as_bytes() {
        [] => false,
        [b'0', rest @ ..] => rest.is_empty(),
        digits => is_all_digits(digits),
    }
}

fn is_all_digits(bytes: &[u8]) -> bool
    ensures { result ≡ list_all is_ascii_digit bytes.now }
{
    bytes.iter().all(|byte| byte.is_ascii_digit())
}
