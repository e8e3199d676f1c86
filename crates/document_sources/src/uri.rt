//! The URIs under which documents are added.

ghost use Rattle.std.specs.Prelude.{◌≡◌, IfOk, IfErr, OnOk, IsTrue};
ghost use Rattle.uri_grammar.specs.Texts.{is_empty, all_or_none};
ghost use Rattle.uri_grammar.specs.Parts.{split};
ghost use Rattle.uri_references.specs.Identity.{identity_of};
ghost use Rattle.document_sources.specs.Uris.{is_document_uri, RefusesUri};

use crate::error::Error;
use crate::named::invalid_uri;
use std::alloc::Global;
use std::rc::Rc;
use uri_grammar::components::split_reference;
use uri_references::uri::{Uri, from_str};

// Whether a text has no fragment, or an empty one.
fn lacks_fragment(text: &str) -> bool
    ensures { result ≡ all_or_none is_empty (split text.now).fragment }
{
    match split_reference(text).fragment {
        Some(fragment) => fragment.is_empty(),
        None => true,
    }
}

/// Reads a text as the URI of a document, as `uri_references::uri::from_str` does.
///
/// It takes time in the length of the text, and at most nine texts.
///
/// # Errors
///
/// Where the text is no URI reference, or has a fragment that is not empty, which is then named, or where memory was refused.
pub fn document_uri(alloc: Global, text: &str) -> Result<Rc<Uri>, Error>
    ensures ok { IfOk result (λ u. u.value ≡ identity_of text.now) }
    ensures accepted { OnOk result (IsTrue (is_document_uri text.now)) }
    ensures refused { IfErr result (RefusesUri text.now) }
{
    if !lacks_fragment(text) {
        return Err(invalid_uri(alloc, text));
    }
    let known = from_str(alloc, text)?;
    match Rc::new(alloc, known) {
        Ok(known) => Ok(known),
        Err(_) => Err(Error::Memory),
    }
}
