//! Removal of dot segments (RFC 3986, section 5.2.4).

ghost use Rattle.std.specs.Prelude.{◌≡◌, IfOk, OnOk, string_bytes};
ghost use Rattle.uri_grammar.specs.Texts.{pieces};
ghost use Rattle.uri_references.specs.Dots as spec;
ghost use Rattle.uri_references.specs.Dots.{remove_dots, after_segment, after_segments, up};

use std::alloc::{AllocError, Global};

/// Takes the last segment of a path away, with the slash before it.
pub(crate) fn go_up(path: &mut String)
    ensures { string_bytes path.new ≡ up (string_bytes path.old) }
{
    match path.rfind('/') {
        Some(at) => path.truncate(at),
        None => path.clear(),
    }
}

/// Adds a segment to the output.
fn push_segment(output: &mut String, segment: &str, last: bool) -> Result<(), AllocError>
    ensures { OnOk result (string_bytes output.new ≡ after_segment (string_bytes output.old) segment.now last) }
{
    if segment == "." {
        if last {
            output.push('/')?;
        }
        return Ok(());
    }
    if segment == ".." {
        go_up(output);
        if last {
            output.push('/')?;
        }
        return Ok(());
    }
    output.push('/')?;
    output.push_str(segment)
}

/// Adds the segments of a path to the output.
fn push_segments(output: &mut String, path: &str) -> Result<(), AllocError>
    ensures { OnOk result (string_bytes output.new ≡ after_segments (string_bytes output.old) (pieces 47 path.now)) }
{
    let mut rest = path;
    while let Some((segment, after)) = rest.split_once('/') {
        push_segment(output, segment, false)?;
        rest = after;
    }
    push_segment(output, rest, true)
}

/// Whether a segment is `.` or `..`.
fn is_dot_segment(segment: &str) -> bool
    ensures { result ≡ spec.is_dot_segment segment.now }
{
    segment == "." || segment == ".."
}

/// A path without its dot segments.
///
/// It takes time in the length of the path, and one text, which grows to at most that length.
///
/// # Errors
///
/// Where memory for the text was refused.
pub fn remove_dot_segments(alloc: Global, path: &str) -> Result<String, AllocError>
    ensures { IfOk result (λ s. string_bytes s ≡ remove_dots path.now) }
{
    let mut output = String::new(alloc);
    let mut rest = path;
    while let Some((segment, after)) = rest.split_once('/') {
        if !is_dot_segment(segment) {
            output.push_str(segment)?;
            push_segments(&mut output, after)?;
            return Ok(output);
        }
        rest = after;
    }
    if is_dot_segment(rest) {
        return Ok(output);
    }
    output.push_str(rest)?;
    Ok(output)
}
