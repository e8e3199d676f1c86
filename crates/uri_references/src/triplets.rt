//! Percent triplets in their normal form (RFC 3986, sections 6.2.2.1 and 6.2.2.2).

ghost use Rattle.std.specs.Prelude.{◌≡◌, ◌++◌, ◌∷◌, [], ◌<◌, IfOk, OnOk, IsTrue, option_map, string_bytes};
ghost use Rattle.uri_grammar.specs.Texts.{is_hex as is_hex_byte};
ghost use Rattle.uri_references.specs.NormalForm as spec;
ghost use Rattle.uri_references.specs.NormalForm.{triplet, with_triplets, first_digit};

use std::alloc::{AllocError, Global};
use uri_grammar::characters::{is_digit, is_hex, is_unreserved};

/// The value of a hexadecimal digit.
fn hex_value(digit: u8) -> u8
    requires { IsTrue (is_hex_byte digit) }
    ensures value { result ≡ spec.hex_value digit }
    ensures small { result < 16 }
{
    if is_digit(digit) {
        digit - b'0'
    } else if b'A' <= digit && digit <= b'Z' {
        digit - 55
    } else {
        digit - 87
    }
}

/// Writes a character of ASCII.
fn push_ascii(output: &mut String, byte: u8) -> Result<(), AllocError>
    requires { byte < 128 }
    ensures { OnOk result (string_bytes output.new ≡ string_bytes output.old ++ byte ∷ []) }
{
    output.push(char::from(byte))
}

/// Writes the triplet of two digits in its normal form.
fn push_triplet(output: &mut String, high: u8, low: u8) -> Result<(), AllocError>
    requires high { IsTrue (is_hex_byte high) }
    requires low { IsTrue (is_hex_byte low) }
    ensures { OnOk result (string_bytes output.new ≡ string_bytes output.old ++ triplet high low) }
{
    let octet = 16 * hex_value(high) + hex_value(low);
    if is_unreserved(octet) {
        return push_ascii(output, octet);
    }
    output.push('%')?;
    push_ascii(output, high.to_ascii_uppercase())?;
    push_ascii(output, low.to_ascii_uppercase())
}

/// The hexadecimal digit at the front of a text, and the rest.
fn take_digit(text: &str) -> Option<(u8, &str)>
    ensures { option_map (λ d. (d.0, d.1.now)) result ≡ first_digit text.now }
{
    match text.as_bytes() {
        [first, ..] => {
            if !is_hex(*first) {
                return None;
            }
            match text.strip_prefix(char::from(*first)) {
                Some(rest) => Some((*first, rest)),
                None => None,
            }
        }
        [] => None,
    }
}

/// The two hexadecimal digits behind a percent sign, and the rest.
fn take_digits(text: &str) -> Option<(u8, u8, &str)>
    ensures { option_map (λ d. (d.0, d.1, d.2.now)) result ≡ spec.two_digits text.now }
{
    let (high, text) = take_digit(text)?;
    let (low, rest) = take_digit(text)?;
    Some((high, low, rest))
}

/// Writes a text with its triplets in normal form.
pub(crate) fn push_with_triplets(output: &mut String, text: &str) -> Result<(), AllocError>
    ensures { OnOk result (string_bytes output.new ≡ string_bytes output.old ++ with_triplets text.now) }
{
    let mut rest = text;
    while let Some((before, after)) = rest.split_once('%') {
        output.push_str(before)?;
        match take_digits(after) {
            Some((high, low, behind)) => {
                push_triplet(output, high, low)?;
                rest = behind;
            }
            None => {
                output.push('%')?;
                rest = after;
            }
        }
    }
    output.push_str(rest)
}

/// A text with its percent triplets in normal form: one of an unreserved character is that character, any other has digits of
/// upper case.
///
/// It takes time in the length of the text, and one text of at most that length.
///
/// # Errors
///
/// Where memory for the text was refused.
pub fn normalize_triplets(alloc: Global, text: &str) -> Result<String, AllocError>
    ensures { IfOk result (λ s. string_bytes s ≡ with_triplets text.now) }
{
    let mut output = String::new(alloc);
    push_with_triplets(&mut output, text)?;
    Ok(output)
}
