//! Addresses in the place of a host's name (RFC 3986, section 3.2.2).
//!
//! Each call reads the text a few times at most, and allocates nothing.

ghost use Rattle.std.specs.Prelude.{◌≡◌, ◌≤◌, ◌∷◌, [], length, option_map, IfSome};
ghost use Rattle.std.specs.List.{list_all};
ghost use Rattle.uri_grammar.specs.Texts as texts;
ghost use Rattle.uri_grammar.specs.Texts.{pieces};
ghost use Rattle.uri_grammar.specs.Addresses as spec;
ghost use Rattle.uri_grammar.specs.Groups as counted;

use crate::character_classes::{is_digit, is_hex, is_sub_delim, is_unreserved};

/// Whether a text is a number from 0 to 255 without a leading zero (`dec-octet`).
pub fn is_dec_octet(text: &str) -> bool
    ensures { result ≡ spec.is_dec_octet text.now }
{
    match text.as_bytes() {
        [ones] => is_digit(*ones),
        [tens, ones] => b'1' <= *tens && *tens <= b'9' && is_digit(*ones),
        [b'1', tens, ones] => is_digit(*tens) && is_digit(*ones),
        [b'2', b'5', ones] => b'0' <= *ones && *ones <= b'5',
        [b'2', tens, ones] => b'0' <= *tens && *tens <= b'4' && is_digit(*ones),
        _ => false,
    }
}

/// Whether each part between dots is such a number.
fn are_dec_octets(text: &str) -> bool
    ensures { result ≡ list_all spec.is_dec_octet (pieces 46 text.now) }
{
    text.split('.').all(is_dec_octet)
}

/// How many parts stand between dots.
fn count_parts(text: &str) -> usize
    ensures { result ≡ length (pieces 46 text.now) }
{
    text.split('.').count()
}

/// Whether a text is an IPv4 address: four such numbers with dots between them (`IPv4address`).
pub fn is_ipv4_address(text: &str) -> bool
    ensures { result ≡ spec.is_ipv4_address text.now }
{
    are_dec_octets(text) && count_parts(text) == 4
}

/// Whether there are hexadecimal digits alone.
fn are_hex(bytes: &[u8]) -> bool
    ensures { result ≡ list_all texts.is_hex bytes.now }
{
    bytes.iter().all(|byte| is_hex(*byte))
}

/// Whether a text has one to four hexadecimal digits and nothing else (`h16`).
fn is_h16(text: &str) -> bool
    ensures { result ≡ spec.is_h16 text.now }
{
    !text.is_empty() && text.len() <= 4 && are_hex(text.as_bytes())
}

/// How many groups of 16 bits the last part stands for.
fn count_last(ends: bool, text: &str) -> Option<usize>
    ensures value { result ≡ counted.groups ends (text.now ∷ []) }
    ensures bound { IfSome result (λ n. n ≤ 2) }
{
    if is_h16(text) {
        return Some(1);
    }
    if ends && is_ipv4_address(text) {
        return Some(2);
    }
    None
}

/// How many groups of 16 bits stand between colons, where the last part may be an IPv4 address.
fn count_groups(ends: bool, text: &str) -> Option<usize>
    ensures { result ≡ counted.groups ends (pieces 58 text.now) }
{
    let mut count: usize = 0;
    let mut rest = text;
    while let Some((group, after)) = rest.split_once(':') {
        if !is_h16(group) {
            return None;
        }
        count += 1;
        rest = after;
    }
    match count_last(ends, rest) {
        Some(last) => Some(count + last),
        None => None,
    }
}

/// The same beside `::`, where there may be none.
fn count_groups_beside(ends: bool, text: &str) -> Option<usize>
    ensures { result ≡ counted.groups_beside ends text.now }
{
    if text.is_empty() {
        return Some(0);
    }
    count_groups(ends, text)
}

/// What stands before the first `::`, and after it.
fn split_colons(text: &str) -> (&str, Option<&str>)
    ensures before { result.0.now ≡ (spec.cut_at_colons text.now).0 }
    ensures after { option_map (λ t. t.now) result.1 ≡ (spec.cut_at_colons text.now).1 }
{
    match text.split_once("::") {
        Some((before, after)) => (before, Some(after)),
        None => (text, None),
    }
}

/// Whether there are eight groups, or at most seven round one `::`.
fn counts(text: &str) -> bool
    ensures { result ≡ counted.counts (spec.cut_at_colons text.now) }
{
    match split_colons(text) {
        (left, Some(right)) => match (
            count_groups_beside(false, left),
            count_groups_beside(true, right),
        ) {
            (Some(before), Some(after)) => before <= 7 && after <= 7 - before,
            _ => false,
        },
        (all, None) => matches!(count_groups(true, all), Some(8)),
    }
}

/// Whether a text is an IPv6 address (`IPv6address`): eight groups of one to four hexadecimal digits with colons between them, or
/// at most seven round one `::`. An IPv4 address may stand for the last two groups.
///
/// Its definition lists the nine forms of the grammar; the code counts the groups.
pub fn is_ipv6_address(text: &str) -> bool
    ensures { result ≡ spec.is_ipv6_address text.now }
{
    counts(text)
}

/// The version of a later kind of address: `v` and hexadecimal digits.
fn is_version(text: &str) -> bool
    ensures { result ≡ spec.is_version text.now }
{
    match text.as_bytes() {
        [b'v' | b'V', digits @ ..] => !digits.is_empty() && are_hex(digits),
        _ => false,
    }
}

/// A character of a later kind of address.
fn is_future_byte(byte: u8) -> bool
    ensures { result ≡ spec.is_future_byte byte }
{
    is_unreserved(byte) || is_sub_delim(byte) || byte == b':'
}

/// Whether a text has such characters alone.
fn are_future_bytes(text: &str) -> bool
    ensures { result ≡ list_all spec.is_future_byte text.now }
{
    text.bytes().all(is_future_byte)
}

/// Whether a text is an address of a later kind (`IPvFuture`): its version, a dot and what that version wants.
pub fn is_ip_future(text: &str) -> bool
    ensures { result ≡ spec.is_ip_future text.now }
{
    match text.split_once('.') {
        Some((version, address)) => is_version(version)
            && !address.is_empty()
            && are_future_bytes(address),
        None => false,
    }
}

/// Whether a text is an address in brackets, IPv6 or of a later kind (`IP-literal`).
pub fn is_ip_literal(text: &str) -> bool
    ensures { result ≡ spec.is_ip_literal text.now }
{
    match text.strip_prefix('[') {
        Some(rest) => match rest.split_once(']') {
            Some((address, after)) => after.is_empty()
                && (is_ipv6_address(address) || is_ip_future(address)),
            None => false,
        },
        None => false,
    }
}
