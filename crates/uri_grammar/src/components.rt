//! The five components of a URI reference (RFC 3986, section 3).

ghost use Rattle.std.specs.Prelude.{◌≡◌, ◌++◌, option_map, IfOk, OnOk, string_bytes, true};
ghost use Rattle.uri_grammar.specs.Texts.{cut_at};
ghost use Rattle.uri_grammar.specs.Parts as spec;
ghost use Rattle.uri_grammar.specs.Parts.{split, recompose, scheme_of, authority_of};
ghost use Rattle.uri_grammar.specs.Grammar.{is_reference, stands_behind};
ghost use Rattle.uri_grammar.specs.Lent.{parts_of};

use std::alloc::{AllocError, Global};

/// The components of a URI reference, as parts of its text, without the marks between them (section 3).
#[derive(Clone, Copy)]
pub struct Components<'a> {
    pub scheme: Option<&'a str>,
    pub authority: Option<&'a str>,
    pub path: &'a str,
    pub query: Option<&'a str>,
    pub fragment: Option<&'a str>,
}

/// What stands before the first `#` of a text, and after it.
pub fn split_fragment(text: &str) -> (&str, Option<&str>)
    ensures before { result.0.now ≡ (cut_at 35 text.now).0 }
    ensures after { option_map (λ t. t.now) result.1 ≡ (cut_at 35 text.now).1 }
{
    match text.split_once('#') {
        Some((before, after)) => (before, Some(after)),
        None => (text, None),
    }
}

/// What stands before the first `?` of a text, and after it.
pub fn split_query(text: &str) -> (&str, Option<&str>)
    ensures before { result.0.now ≡ (cut_at 63 text.now).0 }
    ensures after { option_map (λ t. t.now) result.1 ≡ (cut_at 63 text.now).1 }
{
    match text.split_once('?') {
        Some((before, after)) => (before, Some(after)),
        None => (text, None),
    }
}

/// The scheme of a text, where a colon stands before its first slash and not at its front, and the rest.
pub fn split_scheme(text: &str) -> (Option<&str>, &str)
    ensures scheme { option_map (λ t. t.now) result.0 ≡ (scheme_of (cut_at 58 text.now) text.now).0 }
    ensures rest { result.1.now ≡ (scheme_of (cut_at 58 text.now) text.now).1 }
{
    match text.split_once(':') {
        Some((before, after)) => {
            if before.is_empty() {
                return (None, text);
            }
            if before.contains('/') {
                return (None, text);
            }
            (Some(before), after)
        }
        None => (None, text),
    }
}

/// What stands after two slashes at the front.
pub fn after_slashes(text: &str) -> Option<&str>
    ensures { option_map (λ t. t.now) result ≡ spec.after_slashes text.now }
{
    match text.strip_prefix('/') {
        Some(rest) => rest.strip_prefix('/'),
        None => None,
    }
}

/// What stands before the first slash, and from it on.
pub(crate) fn split_at_slash(text: &str) -> (&str, &str)
    ensures before { result.0.now ≡ (cut_at 47 text.now).0 }
    ensures rest { result.1.now ≡ spec.from_slash (cut_at 47 text.now) }
{
    match text.find('/') {
        Some(at) => text.split_at(at),
        None => (text, ""),
    }
}

/// The authority of a text without a scheme, where it begins with two slashes, and the path.
pub fn split_authority(text: &str) -> (Option<&str>, &str)
    ensures authority { option_map (λ t. t.now) result.0 ≡ (authority_of text.now).0 }
    ensures path { result.1.now ≡ (authority_of text.now).1 }
{
    match after_slashes(text) {
        Some(rest) => {
            let (authority, path) = split_at_slash(rest);
            (Some(authority), path)
        }
        None => (None, text),
    }
}

/// The components of a text (appendix B). Every text has them; whether it is a URI reference, `is_uri_reference` tells.
///
/// It reads the text a few times, and allocates nothing. Written back, the components give the text.
pub fn split_reference(text: &str) -> Components<'_>
    ensures parts { parts_of result ≡ split text.now }
    ensures whole { recompose (parts_of result) ≡ text.now }
    ensures placed { stands_behind (parts_of result).authority (parts_of result).path ≡ true }
{
    let (text, fragment) = split_fragment(text);
    let (text, query) = split_query(text);
    let (scheme, text) = split_scheme(text);
    let (authority, path) = split_authority(text);
    Components {
        scheme,
        authority,
        path,
        query,
        fragment,
    }
}

/// Writes a component after its mark.
fn push_behind(out: &mut String, mark: &str, part: Option<&str>) -> Result<(), AllocError>
    ensures { OnOk result (string_bytes out.new ≡ string_bytes out.old ++ spec.behind mark.now (option_map (λ t. t.now) part.entry)) }
{
    if let Some(part) = part {
        out.push_str(mark)?;
        out.push_str(part)?;
    }
    Ok(())
}

/// The text of components (section 5.3), in one pass over them. Where they are those of a URI reference, splitting it gives them back.
///
/// # Errors
///
/// Where memory for the text was refused.
pub fn write_components(alloc: Global, parts: &Components<'_>) -> Result<String, AllocError>
    ensures text { IfOk result (λ s. string_bytes s ≡ recompose (parts_of parts.now)) }
    ensures back { IfOk result (λ s. is_reference (parts_of parts.now) ≡ true → split (string_bytes s) ≡ parts_of parts.now) }
{
    let mut out = String::new(alloc);
    if let Some(scheme) = parts.scheme {
        out.push_str(scheme)?;
        out.push(':')?;
    }
    push_behind(&mut out, "//", parts.authority)?;
    out.push_str(parts.path)?;
    push_behind(&mut out, "?", parts.query)?;
    push_behind(&mut out, "#", parts.fragment)?;
    Ok(out)
}
