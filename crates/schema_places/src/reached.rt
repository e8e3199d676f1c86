//! What a pointer reaches.

ghost use Rattle.std.specs.Prelude.{◌≡◌, ℕ, List, IfOk, IfErr, IfSome, OnOk, true, false};
ghost use Rattle.std.specs.Cow.{cow_str_bytes};
ghost use Rattle.std.specs.Str.{is_utf8};
ghost use Rattle.percent_encoding.specs.Percent.{percent_decode};
ghost use Rattle.schema_definitions.specs.Bearers.{Standing};
ghost use Rattle.schema_definitions.specs.Lookup as spec;
ghost use Rattle.schema_dialects.specs.Dialects.{dialects_in};
ghost use Rattle.schema_places.specs.Causes.{cause_of, Refuses};
ghost use Rattle.schema_places.specs.Walks.{walk_of};
ghost use Rattle.schema_places.specs.Reached.{target_of, pointed};

use crate::error::{WalkError, percent_encoding};
use crate::place::Place;
use crate::walk::Walk;
use crate::within::Within;
use percent_encoding::{DecodeError, percent_decode_str};
use schema_dialects::{Dialect, MetaSchemas};
use schema_steps::Path;
use serde_json::Value;
use std::alloc::Global;
use std::borrow::CowStr;
use std::rc::Rc;
use uri_references::uri::Uri;

/// A value that a reference leads to inside a document, with the base URI and the dialect there.
#[derive(Drop)]
pub struct Reached<'d> {
    pub path: Path,
    pub contents: &'d Value,
    pub base: Rc<Uri>,
    pub dialect: Dialect,
    /// Whether a schema place stands there.
    pub is_place: bool,
}

/// Follows a fragment that begins with `/` from a schema place (RFC 6901, section 6): it is percent-decoded whole, and then
/// read as a pointer, what stands before its first `/` left out.
///
/// The base URI and the dialect are those of the last schema place that the walk comes to, of which the first is the one it
/// begins at. It takes one look-up for each part of the pointer, and shares the path of the place.
///
/// # Errors
///
/// Where the decoded fragment is no text, where a part leads to no value, and where memory was refused or a count of owners
/// is full.
pub fn follow_pointer<'d>(
    alloc: Global,
    known: &MetaSchemas,
    from: &Place<'d>,
    fragment: &str,
) -> Result<Reached<'d>, WalkError>
    ensures reached { IfOk result (λ r. (document : List ℕ) → pointed (dialects_in known.now) document from.now fragment.now ≡ Ok (target_of document r)) }
    ensures refused { IfErr result (λ e. (document : List ℕ) → Refuses (pointed (dialects_in known.now) document from.now fragment.now) e) }
{
    let pointer = decode(alloc, fragment)?;
    let end = Walk::begin(from)?.by_pointer(alloc, known, pointer.as_str(), fragment)?;
    Ok(ended(end))
}

fn decode<'t>(alloc: Global, fragment: &'t str) -> Result<CowStr<'t>, WalkError>
    ensures value { IfOk result (λ text. cow_str_bytes text ≡ percent_decode fragment.now) }
    ensures valid { OnOk result (is_utf8 (percent_decode fragment.now) ≡ true) }
    ensures refused { IfErr result (λ e. IfSome (cause_of e) (λ cause. (cause ≡ spec.invalid_percent_encoding fragment.now) × (is_utf8 (percent_decode fragment.now) ≡ false))) }
{
    match percent_decode_str(fragment).decode_utf8(alloc) {
        Ok(text) => Ok(text),
        Err(DecodeError::Utf8(_)) => Err(percent_encoding(alloc, fragment)),
        Err(DecodeError::OutOfMemory) => Err(WalkError::Memory),
    }
}

fn ended<'d>(walk: Walk<'d>) -> Reached<'d>
    ensures { (s : Standing) → target_of s.document result ≡ spec.ended s (walk_of walk.entry) }
{
    let is_place = matches!(walk.within, Within::AtPlace);
    let last = walk.last;
    Reached {
        path: walk.path,
        contents: walk.contents,
        base: last.base,
        dialect: last.dialect,
        is_place,
    }
}
