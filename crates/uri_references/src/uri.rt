//! URIs and URI references, and the URIs by which documents are known: in normal form, where an empty fragment equals none.

ghost use Rattle.std.specs.Prelude.{◌≡◌, IsTrue, IfOk, IfErr, OnOk, option_map, string_bytes};
ghost use Rattle.uri_references.specs.Passed.{split, recompose};
ghost use Rattle.uri_references.specs.Passed.{is_reference, is_uri};
ghost use Rattle.uri_references.specs.Passed.{parts_of};
ghost use Rattle.uri_references.specs.NormalForm.{normal_text};
ghost use Rattle.uri_references.specs.Identity as spec;
ghost use Rattle.uri_references.specs.Refusals.{Refuses};

pub use crate::borrowed::UriRef;
use crate::error::Error;
use crate::normal::normalize;
pub use crate::owned::Uri;
use crate::refusal::refusal;
use crate::resolution::resolve;
use crate::{Components, is_uri_reference, split_reference};
use std::alloc::{AllocError, Global};

/// The base of a text without a scheme.
const DEFAULT_BASE: &str = "json-schema:///";

/// A fragment, or none in the place of an empty one.
fn without_empty(fragment: Option<&str>) -> Option<&str>
    ensures { option_map (λ t. t.now) result ≡ spec.without_empty (option_map (λ t. t.now) fragment.entry) }
{
    match fragment {
        Some(fragment) => {
            if fragment.is_empty() {
                return None;
            }
            Some(fragment)
        }
        None => None,
    }
}

/// The text under which components are known.
fn identity(alloc: Global, parts: &Components<'_>) -> Result<String, AllocError>
    ensures { IfOk result (λ s. string_bytes s ≡ recompose (spec.identity (parts_of parts.now))) }
{
    let known = Components {
        fragment: without_empty(parts.fragment),
        ..*parts
    };
    normalize(alloc, &known)
}

/// The text under which the target of a reference against a base is known.
fn identity_against(alloc: Global, base: &str, reference: &str) -> Result<String, AllocError>
    requires base { IsTrue (is_uri (split base.now)) }
    requires reference { IsTrue (is_reference (split reference.now)) }
    ensures { IfOk result (λ s. string_bytes s ≡ spec.identity_against base.now reference.now) }
{
    let target = resolve(alloc, &split_reference(base), &split_reference(reference))?;
    identity(alloc, &split_reference(target.as_str()))
}

/// The text under which a reference is known, against the default base where it has no scheme.
fn identity_of(alloc: Global, text: &str) -> Result<String, AllocError>
    requires { IsTrue (is_reference (split text.now)) }
    ensures { IfOk result (λ s. string_bytes s ≡ spec.identity_of text.now) }
{
    let parts = split_reference(text);
    if parts.scheme.is_some() {
        return identity(alloc, &parts);
    }
    identity_against(alloc, DEFAULT_BASE, text)
}

/// Reads a text as the URI under which a document is known: in normal form, where an empty fragment equals none. A text without a
/// scheme is resolved against `json-schema:///`.
///
/// It takes time in the length of the text, and at most eight texts.
///
/// # Errors
///
/// Where the text is no URI reference, which is then named, or where memory was refused.
pub fn from_str(alloc: Global, text: &str) -> Result<Uri, Error>
    ensures ok { IfOk result (λ u. u ≡ spec.identity_of text.now) }
    ensures once { IfOk result (λ u. normal_text u ≡ u) }
    ensures accepted { OnOk result (IsTrue (is_reference (split text.now))) }
    ensures refused { IfErr result (Refuses (is_reference (split text.now)) text.now) }
{
    if !is_uri_reference(text) {
        return Err(refusal(alloc, text));
    }
    let known = identity_of(alloc, text)?;
    Ok(Uri::of_valid(known))
}

/// Reads a text as a reference against a base: the URI under which its target is known, in normal form, where an empty fragment
/// equals none.
///
/// It takes time in the length of both texts, and at most eight texts.
///
/// # Errors
///
/// Where the text is no URI reference, which is then named, or where memory was refused.
pub fn resolve_against(alloc: Global, base: &Uri, text: &str) -> Result<Uri, Error>
    ensures ok { IfOk result (λ u. u ≡ spec.identity_against base.now text.now) }
    ensures once { IfOk result (λ u. normal_text u ≡ u) }
    ensures accepted { OnOk result (IsTrue (is_reference (split text.now))) }
    ensures refused { IfErr result (Refuses (is_reference (split text.now)) text.now) }
{
    if !is_uri_reference(text) {
        return Err(refusal(alloc, text));
    }
    let known = identity_against(alloc, base.as_str(), text)?;
    Ok(Uri::of_valid(known))
}
