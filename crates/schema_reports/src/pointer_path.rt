//! Paths that fragments name.
ghost use Rattle.std.specs.Prelude.{◌≡◌, [], true, IfOk};
ghost use Rattle.std.specs.Cow.{cow_str_bytes};
ghost use Rattle.std.specs.Str.{is_utf8};
ghost use Rattle.percent_encoding.specs.Percent.{percent_decode};
ghost use Rattle.uri_grammar.specs.Texts.{pieces};
ghost use Rattle.uri_grammar.specs.Grammar.{begins_slashed};
ghost use Rattle.schema_definitions.specs.Sites as spec;
ghost use Rattle.schema_reports.specs.Readable.{reads_as_pointer};

use json_pointers::unescape_segment;
use percent_encoding::{DecodeError, percent_decode_str};
use schema_steps::Path;
use std::alloc::{AllocError, Global};
use std::borrow::CowStr;

/// The path that a fragment names as a pointer; the root where it is none.
pub fn pointer_path(alloc: Global, fragment: &str) -> Result<Path, AllocError>
    requires { reads_as_pointer fragment.now ≡ true }
    ensures { IfOk result (λ path. path ≡ spec.pointer_path fragment.now) }
{
    if begins_with_slash(fragment) {
        decoded_path(alloc, fragment)
    } else {
        Ok(Path::root())
    }
}

fn begins_with_slash(text: &str) -> bool
    ensures { result ≡ begins_slashed text.now }
{
    text.starts_with('/')
}

fn decoded_path(alloc: Global, fragment: &str) -> Result<Path, AllocError>
    requires { is_utf8 (percent_decode fragment.now) ≡ true }
    ensures { IfOk result (λ path. path ≡ spec.pushed (spec.behind_first (pieces 47 (percent_decode fragment.now))) []) }
{
    let pointer = decode(alloc, fragment)?;
    path_behind(alloc, pointer.as_str())
}

fn decode<'t>(alloc: Global, fragment: &'t str) -> Result<CowStr<'t>, AllocError>
    requires { is_utf8 (percent_decode fragment.now) ≡ true }
    ensures { IfOk result (λ text. cow_str_bytes text ≡ percent_decode fragment.now) }
{
    match percent_decode_str(fragment).decode_utf8(alloc) {
        Ok(text) => Ok(text),
        Err(DecodeError::Utf8(_)) => unreachable!(),
        Err(DecodeError::OutOfMemory) => Err(AllocError),
    }
}

// The path by the parts behind a pointer's slashes.
fn path_behind(alloc: Global, pointer: &str) -> Result<Path, AllocError>
    ensures { IfOk result (λ path. path ≡ spec.pushed (spec.behind_first (pieces 47 pointer.now)) []) }
{
    match pointer.split_once('/') {
        Some((_, parts)) => path_of_parts(alloc, parts),
        None => Ok(Path::root()),
    }
}

fn path_of_parts(alloc: Global, parts: &str) -> Result<Path, AllocError>
    ensures { IfOk result (λ path. path ≡ spec.pushed (pieces 47 parts.now) []) }
{
    let mut path = Path::root();
    for part in parts.split('/') {
        let name = unescape_segment(alloc, part)?;
        path = path.push_name(alloc, name.as_str())?;
    }
    Ok(path)
}
