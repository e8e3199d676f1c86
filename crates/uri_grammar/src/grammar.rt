//! Which texts are URI references, and which components (appendix A).

ghost use Rattle.std.specs.Prelude.{◌≡◌, ◌||◌, option_map};
ghost use Rattle.std.specs.List.{list_all};
ghost use Rattle.uri_grammar.specs.Texts.{cut_at, cut_at_last, has};
ghost use Rattle.uri_grammar.specs.Grammar as spec;
ghost use Rattle.uri_grammar.specs.Parts.{split};
ghost use Rattle.uri_grammar.specs.Lent.{parts_of, authority_parts_of};

use crate::addresses::{is_ip_literal, is_ipv4_address};
use crate::characters::{Class, is_digit, is_encoded, is_letter};
use crate::components::{Components, after_slashes, split_at_slash, split_reference};

/// A character of a scheme behind the first.
fn is_scheme_byte(byte: u8) -> bool
    ensures { result ≡ spec.is_scheme_byte byte }
{
    is_letter(byte) || is_digit(byte) || matches!(byte, b'+' | b'-' | b'.')
}

/// Whether there are such characters alone.
fn are_scheme_bytes(bytes: &[u8]) -> bool
    ensures { result ≡ list_all spec.is_scheme_byte bytes.now }
{
    bytes.iter().all(|byte| is_scheme_byte(*byte))
}

/// Whether a text is a scheme: a letter, then letters, digits, `+`, `-` and `.` (section 3.1).
pub fn is_scheme(text: &str) -> bool
    ensures { result ≡ spec.is_scheme text.now }
{
    match text.as_bytes() {
        [first, rest @ ..] => is_letter(*first) && are_scheme_bytes(rest),
        [] => false,
    }
}

/// Whether a text is the userinfo of an authority (section 3.2.1).
pub fn is_userinfo(text: &str) -> bool
    ensures { result ≡ spec.is_userinfo text.now }
{
    is_encoded(text, Class::Userinfo)
}

/// Whether a text is a host: an address in brackets, an IPv4 address or a name (section 3.2.2).
pub fn is_host(text: &str) -> bool
    ensures { result ≡ spec.is_host text.now }
{
    is_ip_literal(text) || is_ipv4_address(text) || is_encoded(text, Class::RegName)
}

/// Whether a text is a port: digits, or nothing (section 3.2.3).
pub fn is_port(text: &str) -> bool
    ensures { result ≡ spec.is_port text.now }
{
    text.bytes().all(is_digit)
}

/// The parts of an authority, as parts of its text, without the marks between them (section 3.2).
#[derive(Clone, Copy)]
pub struct Authority<'a> {
    pub userinfo: Option<&'a str>,
    /// A name, or an address; of an address in brackets, with them.
    pub host: &'a str,
    pub port: Option<&'a str>,
}

/// The userinfo, before the first `@`, and the rest.
fn split_userinfo(text: &str) -> (Option<&str>, &str)
    ensures userinfo { option_map (λ t. t.now) result.0 ≡ (spec.userinfo_of (cut_at 64 text.now)).0 }
    ensures rest { result.1.now ≡ (spec.userinfo_of (cut_at 64 text.now)).1 }
{
    match text.split_once('@') {
        Some((userinfo, rest)) => (Some(userinfo), rest),
        None => (None, text),
    }
}

/// What stands before the last colon, and after it.
fn split_at_last_colon(text: &str) -> (&str, Option<&str>)
    ensures before { result.0.now ≡ (cut_at_last 58 text.now).0 }
    ensures after { option_map (λ t. t.now) result.1 ≡ (cut_at_last 58 text.now).1 }
{
    match text.rsplit_once(':') {
        Some((before, after)) => (before, Some(after)),
        None => (text, None),
    }
}

/// Whether a text has a closing bracket.
fn has_bracket(text: &str) -> bool
    ensures { result ≡ has 93 text.now }
{
    text.contains(']')
}

/// The host, and the port behind the last colon, where that colon is not in brackets.
fn split_port(text: &str) -> (&str, Option<&str>)
    ensures host { result.0.now ≡ (spec.port_of text.now).0 }
    ensures port { option_map (λ t. t.now) result.1 ≡ (spec.port_of text.now).1 }
{
    match split_at_last_colon(text) {
        (host, Some(port)) => {
            if has_bracket(port) {
                return (text, None);
            }
            (host, Some(port))
        }
        (_, None) => (text, None),
    }
}

/// The parts of an authority. Every text has them; whether it is an authority, `is_authority` tells.
///
/// It reads the text a few times, and allocates nothing.
pub fn split_authority_parts(text: &str) -> Authority<'_>
    ensures parts { authority_parts_of result ≡ spec.authority_parts text.now }
    ensures whole { spec.written_authority (authority_parts_of result) ≡ text.now }
{
    let (userinfo, text) = split_userinfo(text);
    let (host, port) = split_port(text);
    Authority {
        userinfo,
        host,
        port,
    }
}

/// Whether a text is an authority: `[ userinfo "@" ] host [ ":" port ]` (section 3.2).
pub fn is_authority(text: &str) -> bool
    ensures { result ≡ spec.is_authority text.now }
{
    let authority = split_authority_parts(text);
    authority.userinfo.is_none_or(is_userinfo)
        && is_host(authority.host)
        && authority.port.is_none_or(is_port)
}

/// Whether a text is made of segments and the slashes between them (section 3.3).
pub fn is_path(text: &str) -> bool
    ensures { result ≡ spec.is_path text.now }
{
    is_encoded(text, Class::Path)
}

/// Whether a text is a query (section 3.4).
pub fn is_query(text: &str) -> bool
    ensures { result ≡ spec.is_query text.now }
{
    is_encoded(text, Class::Query)
}

/// Whether a text is a fragment (section 3.5).
pub fn is_fragment(text: &str) -> bool
    ensures { result ≡ spec.is_fragment text.now }
{
    is_query(text)
}

/// Whether a text has a colon.
fn has_colon(text: &str) -> bool
    ensures { result ≡ has 58 text.now }
{
    text.contains(':')
}

/// Whether a path has no colon before its first slash.
fn is_free_of_colons(path: &str) -> bool
    ensures { result ≡ spec.lacks_colon path.now }
{
    let (segment, _) = split_at_slash(path);
    !has_colon(segment)
}

/// Whether the path of components may stand where it does (section 3.3).
fn is_placed(parts: &Components<'_>) -> bool
    ensures { result ≡ spec.is_placed (parts_of parts.now) }
{
    let fits = match parts.authority {
        Some(_) => parts.path.is_empty() || parts.path.starts_with('/'),
        None => after_slashes(parts.path).is_none(),
    };
    fits && (parts.scheme.is_some() || parts.authority.is_some() || is_free_of_colons(parts.path))
}

/// Whether components are those of a URI reference (section 4.1). Where they are, `write_components` writes it, and
/// `split_reference` gives them back.
#[tactic(auto, unfolding(crate::specs::Grammar::is_reference))]
pub fn are_reference(parts: &Components<'_>) -> bool
    ensures { result ≡ spec.is_reference (parts_of parts.now) }
{
    parts.scheme.is_none_or(is_scheme)
        && parts.authority.is_none_or(is_authority)
        && is_path(parts.path)
        && parts.query.is_none_or(is_query)
        && parts.fragment.is_none_or(is_fragment)
        && is_placed(parts)
}

/// Whether a text is a URI reference, with a scheme or relative (section 4.1).
///
/// It reads the text a few times, and allocates nothing.
pub fn is_uri_reference(text: &str) -> bool
    ensures { result ≡ spec.is_reference (split text.now) }
{
    are_reference(&split_reference(text))
}

/// Whether a text is a URI: a reference with a scheme (section 3).
pub fn is_uri(text: &str) -> bool
    ensures { result ≡ spec.is_uri (split text.now) }
{
    let parts = split_reference(text);
    are_reference(&parts) && parts.scheme.is_some()
}

/// The components of a text that is a URI reference.
#[tactic(auto, unfolding(crate::specs::Grammar::parse))]
pub fn parse(text: &str) -> Option<Components<'_>>
    ensures { option_map parts_of result ≡ spec.parse text.now }
{
    let parts = split_reference(text);
    if are_reference(&parts) {
        return Some(parts);
    }
    None
}
