//! The normal form of a URI reference (RFC 3986, section 6.2.2).

ghost use Rattle.std.specs.Prelude.{◌≡◌, ◌++◌, IfOk, OnOk, option_map, string_bytes, codes};
ghost use Rattle.uri_grammar.specs.Parts.{before, behind, recompose};
ghost use Rattle.uri_grammar.specs.Lent.{parts_of};
ghost use Rattle.uri_references.specs.Resolution.{guarded_path};
ghost use Rattle.uri_references.specs.NormalForm as spec;
ghost use Rattle.uri_references.specs.NormalForm.{normal, normal_host, normal_authority, with_triplets, lowered};

use crate::dots::remove_dot_segments;
use crate::triplets::{normalize_triplets, push_with_triplets};
use crate::writing::push_guarded;
use std::alloc::{AllocError, Global};
use uri_grammar::components::Components;
use uri_grammar::grammar::split_authority_parts;

/// A scheme in lower case.
fn normalize_scheme(alloc: Global, scheme: &str) -> Result<String, AllocError>
    ensures { IfOk result (λ s. string_bytes s ≡ lowered scheme.now) }
{
    let mut text = String::from_str(alloc, scheme)?;
    text.make_ascii_lowercase();
    Ok(text)
}

/// Writes a scheme in lower case, and its colon.
fn push_scheme(alloc: Global, output: &mut String, scheme: Option<&str>) -> Result<(), AllocError>
    ensures { OnOk result (string_bytes output.new ≡ string_bytes output.old ++ before (option_map lowered (option_map (λ t. t.now) scheme.entry)) (codes ":")) }
{
    if let Some(scheme) = scheme {
        let text = normalize_scheme(alloc, scheme)?;
        output.push_str(text.as_str())?;
        output.push(':')?;
    }
    Ok(())
}

/// A host in lower case, with its triplets in normal form.
fn normalize_host(alloc: Global, host: &str) -> Result<String, AllocError>
    ensures { IfOk result (λ s. string_bytes s ≡ normal_host host.now) }
{
    let mut text = normalize_triplets(alloc, host)?;
    text.make_ascii_lowercase();
    normalize_triplets(alloc, text.as_str())
}

/// Writes userinfo with its triplets in normal form, and its mark.
fn push_userinfo(output: &mut String, userinfo: Option<&str>) -> Result<(), AllocError>
    ensures { OnOk result (string_bytes output.new ≡ string_bytes output.old ++ before (option_map with_triplets (option_map (λ t. t.now) userinfo.entry)) (codes "@")) }
{
    if let Some(userinfo) = userinfo {
        push_with_triplets(output, userinfo)?;
        output.push('@')?;
    }
    Ok(())
}

/// Writes a port behind its mark.
fn push_port(output: &mut String, port: Option<&str>) -> Result<(), AllocError>
    ensures { OnOk result (string_bytes output.new ≡ string_bytes output.old ++ behind (codes ":") (option_map (λ t. t.now) port.entry)) }
{
    if let Some(port) = port {
        output.push(':')?;
        output.push_str(port)?;
    }
    Ok(())
}

/// Writes an authority in normal form.
fn push_normal_authority(alloc: Global, output: &mut String, text: &str) -> Result<(), AllocError>
    ensures { OnOk result (string_bytes output.new ≡ string_bytes output.old ++ normal_authority text.now) }
{
    let authority = split_authority_parts(text);
    push_userinfo(output, authority.userinfo)?;
    let host = normalize_host(alloc, authority.host)?;
    output.push_str(host.as_str())?;
    push_port(output, authority.port)
}

/// Writes an authority in normal form behind its slashes.
fn push_authority(
    alloc: Global,
    output: &mut String,
    authority: Option<&str>,
) -> Result<(), AllocError>
    ensures { OnOk result (string_bytes output.new ≡ string_bytes output.old ++ behind (codes "//") (option_map normal_authority (option_map (λ t. t.now) authority.entry))) }
{
    if let Some(authority) = authority {
        output.push_str("//")?;
        push_normal_authority(alloc, output, authority)?;
    }
    Ok(())
}

/// The path of a URI or of a relative reference in normal form.
fn normalize_path(alloc: Global, scheme: Option<&str>, path: &str) -> Result<String, AllocError>
    ensures { IfOk result (λ s. string_bytes s ≡ spec.normal_path (option_map (λ t. t.now) scheme.entry) path.now) }
{
    let text = normalize_triplets(alloc, path)?;
    if scheme.is_none() {
        return Ok(text);
    }
    remove_dot_segments(alloc, text.as_str())
}

/// Writes a component with its triplets in normal form, behind its mark.
fn push_with_triplets_behind(
    output: &mut String,
    mark: &str,
    part: Option<&str>,
) -> Result<(), AllocError>
    ensures { OnOk result (string_bytes output.new ≡ string_bytes output.old ++ behind mark.now (option_map with_triplets (option_map (λ t. t.now) part.entry))) }
{
    if let Some(part) = part {
        output.push_str(mark)?;
        push_with_triplets(output, part)?;
    }
    Ok(())
}

/// The normal form of components, as text.
///
/// It takes time in the length of the components, and a text each for the scheme, the host, the path and the result.
///
/// # Errors
///
/// Where memory for a text was refused.
pub fn normalize(alloc: Global, parts: &Components<'_>) -> Result<String, AllocError>
    ensures { IfOk result (λ s. string_bytes s ≡ recompose (normal (parts_of parts.now))) }
{
    let path = normalize_path(alloc, parts.scheme, parts.path)?;
    let mut output = String::new(alloc);
    push_scheme(alloc, &mut output, parts.scheme)?;
    push_authority(alloc, &mut output, parts.authority)?;
    push_guarded(&mut output, parts.authority, path.as_str())?;
    push_with_triplets_behind(&mut output, "?", parts.query)?;
    push_with_triplets_behind(&mut output, "#", parts.fragment)?;
    Ok(output)
}
