//! Writing components, with the guard before a path that would be read as an authority.

ghost use Rattle.std.specs.Prelude.{◌≡◌, ◌++◌, IfOk, OnOk, option_map, string_bytes};
ghost use Rattle.uri_grammar.specs.Parts.{before, behind, recompose};
ghost use Rattle.uri_grammar.specs.Grammar as grammar;
ghost use Rattle.uri_grammar.specs.Lent.{parts_of};
ghost use Rattle.uri_references.specs.Resolution.{guarded, guarded_path};

use std::alloc::{AllocError, Global};
use uri_grammar::components::{Components, after_slashes};

/// Writes a component and the mark after it.
fn push_before(output: &mut String, part: Option<&str>, mark: &str) -> Result<(), AllocError>
    ensures { OnOk result (string_bytes output.new ≡ string_bytes output.old ++ before (option_map (λ t. t.now) part.entry) mark.now) }
{
    if let Some(part) = part {
        output.push_str(part)?;
        output.push_str(mark)?;
    }
    Ok(())
}

/// Writes a component behind its mark.
fn push_behind(output: &mut String, mark: &str, part: Option<&str>) -> Result<(), AllocError>
    ensures { OnOk result (string_bytes output.new ≡ string_bytes output.old ++ behind mark.now (option_map (λ t. t.now) part.entry)) }
{
    if let Some(part) = part {
        output.push_str(mark)?;
        output.push_str(part)?;
    }
    Ok(())
}

/// Whether a path begins with two slashes.
fn begins_doubly(path: &str) -> bool
    ensures { result ≡ grammar.begins_doubly path.now }
{
    after_slashes(path).is_some()
}

/// Writes a path, behind `/.` where it stands behind no authority and begins with two slashes.
pub(crate) fn push_guarded(
    output: &mut String,
    authority: Option<&str>,
    path: &str,
) -> Result<(), AllocError>
    ensures { OnOk result (string_bytes output.new ≡ string_bytes output.old ++ guarded_path (option_map (λ t. t.now) authority.entry) path.now) }
{
    if authority.is_none() {
        if begins_doubly(path) {
            output.push_str("/.")?;
        }
    }
    output.push_str(path)
}

/// The text of components, with `/.` before a path that would be read as an authority.
///
/// It takes time in the length of the text, and one text.
///
/// # Errors
///
/// Where memory for the text was refused.
pub fn write_guarded(alloc: Global, parts: &Components<'_>) -> Result<String, AllocError>
    ensures { IfOk result (λ s. string_bytes s ≡ recompose (guarded (parts_of parts.now))) }
{
    let mut output = String::new(alloc);
    push_before(&mut output, parts.scheme, ":")?;
    push_behind(&mut output, "//", parts.authority)?;
    push_guarded(&mut output, parts.authority, parts.path)?;
    push_behind(&mut output, "?", parts.query)?;
    push_behind(&mut output, "#", parts.fragment)?;
    Ok(output)
}
