//! Reference resolution (RFC 3986, section 5.2).

ghost use Rattle.std.specs.Prelude.{◌≡◌, IfOk, option_map, string_bytes};
ghost use Rattle.uri_grammar.specs.Texts.{has};
ghost use Rattle.uri_grammar.specs.Parts.{recompose};
ghost use Rattle.uri_grammar.specs.Lent.{parts_of};
ghost use Rattle.uri_references.specs.Resolution as spec;
ghost use Rattle.uri_references.specs.Resolution.{merge, resolve as target_of};

use crate::dots::{go_up, remove_dot_segments};
use crate::writing::write_guarded;
use std::alloc::{AllocError, Global};
use uri_grammar::components::Components;

/// Whether a text has a slash.
fn has_slash(text: &str) -> bool
    ensures { result ≡ has 47 text.now }
{
    text.contains('/')
}

/// A path up to its last slash, with it.
fn directory(alloc: Global, path: &str) -> Result<String, AllocError>
    ensures { IfOk result (λ s. string_bytes s ≡ spec.directory path.now) }
{
    let mut directory = String::new(alloc);
    if !has_slash(path) {
        return Ok(directory);
    }
    directory.push_str(path)?;
    go_up(&mut directory);
    directory.push('/')?;
    Ok(directory)
}

/// Whether a base has an authority and no path.
fn is_bare(base: &Components<'_>) -> bool
    ensures { result ≡ spec.is_bare (parts_of base.now) }
{
    base.authority.is_some() && base.path.is_empty()
}

/// A reference's path in the place of the last segment of a base path.
fn merge_paths(alloc: Global, base: &Components<'_>, path: &str) -> Result<String, AllocError>
    ensures { IfOk result (λ s. string_bytes s ≡ merge (parts_of base.now) path.now) }
{
    if is_bare(base) {
        let mut merged = String::new(alloc);
        merged.push('/')?;
        merged.push_str(path)?;
        return Ok(merged);
    }
    let mut merged = directory(alloc, base.path)?;
    merged.push_str(path)?;
    Ok(merged)
}

/// The path of a reference without scheme and authority, against a base.
fn resolve_path(
    alloc: Global,
    base: &Components<'_>,
    reference: &Components<'_>,
) -> Result<String, AllocError>
    ensures { IfOk result (λ s. string_bytes s ≡ spec.target_path (parts_of base.now) (parts_of reference.now)) }
{
    if reference.path.is_empty() {
        let mut path = String::new(alloc);
        path.push_str(base.path)?;
        return Ok(path);
    }
    if reference.path.starts_with('/') {
        return remove_dot_segments(alloc, reference.path);
    }
    let merged = merge_paths(alloc, base, reference.path)?;
    remove_dot_segments(alloc, merged.as_str())
}

/// The query of a reference without scheme and authority, against a base.
fn query_of<'a>(base: &Components<'a>, reference: &Components<'a>) -> Option<&'a str>
    ensures { option_map (λ t. t.now) result ≡ spec.target_query (parts_of base.now) (parts_of reference.now) }
{
    if !reference.path.is_empty() {
        return reference.query;
    }
    match reference.query {
        Some(query) => Some(query),
        None => base.query,
    }
}

/// The target of a reference against a base, as text.
///
/// It takes time in the length of both, and a text each for the merged path, the path without dot segments and the result.
///
/// # Errors
///
/// Where memory for a text was refused.
pub fn resolve<'a>(
    alloc: Global,
    base: &Components<'a>,
    reference: &Components<'a>,
) -> Result<String, AllocError>
    ensures { IfOk result (λ s. string_bytes s ≡ recompose (target_of (parts_of base.now) (parts_of reference.now))) }
{
    if reference.scheme.is_some() {
        let path = remove_dot_segments(alloc, reference.path)?;
        let target = Components {
            path: path.as_str(),
            ..*reference
        };
        return write_guarded(alloc, &target);
    }
    if reference.authority.is_some() {
        let path = remove_dot_segments(alloc, reference.path)?;
        let target = Components {
            scheme: base.scheme,
            path: path.as_str(),
            ..*reference
        };
        return write_guarded(alloc, &target);
    }
    let path = resolve_path(alloc, base, reference)?;
    let target = Components {
        path: path.as_str(),
        query: query_of(base, reference),
        fragment: reference.fragment,
        ..*base
    };
    write_guarded(alloc, &target)
}
