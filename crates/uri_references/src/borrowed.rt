//! URI references that borrow their text.

ghost use Rattle.std.specs.Prelude.{◌≡◌, IsTrue};
ghost use Rattle.uri_references.specs.Passed.{split};
ghost use Rattle.uri_references.specs.Passed.{is_reference};

use crate::error::Error;
use crate::fragment::{has_fragment, is_fragment_or_none, with_fragment};
use crate::normal::normalize;
use crate::owned::Uri;
use crate::refusal::refusal;
use crate::resolution::resolve;
use crate::{Components, is_uri_reference, split_fragment, split_reference};
use std::alloc::{AllocError, Global};

/// A URI or a relative reference (RFC 3986, section 4.1), as part of a text.
#[derive(Clone, Copy)]
pub struct UriRef<'a> {
    text: &'a str,
    ghost valid: { IsTrue (is_reference (split text.now)) },
}

impl<'a> UriRef<'a> {
    ghost use Rattle.std.specs.Prelude.{IfOk, IfErr, OnOk, option_map, unwrap_or, is_some, not, [], string_bytes};
    ghost use Rattle.uri_references.specs.Passed.{is_none, all_or_none};
    ghost use Rattle.uri_references.specs.Passed.{is_fragment};
    ghost use Rattle.uri_references.specs.Passed.{parts_of};
    ghost use Rattle.uri_references.specs.Resolution.{resolved_text};
    ghost use Rattle.uri_references.specs.NormalForm.{normal_text};
    ghost use Rattle.uri_references.specs.Lent.{text_of};
    ghost use Rattle.uri_references.specs.Fragments as fragments;
    ghost use Rattle.uri_references.specs.Fragments.{fragment_of, without_fragment};
    ghost use Rattle.uri_references.specs.Refusals.{Refuses};

    /// A text that is a URI reference.
    pub(crate) fn of_valid(text: &'a str) -> UriRef<'a>
        requires { IsTrue (is_reference (split text.now)) }
        ensures { text_of result ≡ text.now }
    {
        UriRef { text }
    }

    /// Reads a text as a URI reference, which borrows it.
    ///
    /// It takes time in the length of the text, and memory only to name a text that is refused.
    ///
    /// # Errors
    ///
    /// Where the text does not meet the grammar, or where memory to name it was refused.
    pub fn parse(alloc: Global, text: &'a str) -> Result<UriRef<'a>, Error>
        ensures ok { IfOk result (λ r. text_of r ≡ text.now) }
        ensures accepted { OnOk result (IsTrue (is_reference (split text.now))) }
        ensures refused { IfErr result (Refuses (is_reference (split text.now)) text.now) }
    {
        if is_uri_reference(text) {
            return Ok(UriRef { text });
        }
        Err(refusal(alloc, text))
    }

    /// The text.
    pub fn as_str(&self) -> &'a str
        ensures value { result.now ≡ text_of self.now }
        ensures valid { IsTrue (is_reference (split (text_of self.now))) }
    {
        self.text
    }

    /// The components.
    fn components(&self) -> Components<'a>
        ensures { parts_of result ≡ split (text_of self.now) }
    {
        split_reference(self.text)
    }

    /// Whether the reference is a URI.
    pub fn has_scheme(&self) -> bool
        ensures { result ≡ not (is_none (split (text_of self.now)).scheme) }
    {
        self.components().scheme.is_some()
    }

    /// Whether the reference has a fragment, be it empty.
    pub fn has_fragment(&self) -> bool
        ensures { result ≡ is_some (fragment_of (text_of self.now)) }
    {
        has_fragment(self.text)
    }

    /// The reference without its fragment. It allocates nothing.
    pub fn strip_fragment(&self) -> UriRef<'a>
        ensures { text_of result ≡ without_fragment (text_of self.now) }
    {
        let (text, _) = split_fragment(self.text);
        UriRef { text }
    }

    /// The text of the reference with this fragment in the place of its own.
    ///
    /// It takes time in the length of the text, and one text.
    ///
    /// # Errors
    ///
    /// Where the fragment does not meet its grammar, which is then named, or where memory was refused.
    pub fn set_fragment(&self, alloc: Global, fragment: Option<&str>) -> Result<String, Error>
        ensures ok { IfOk result (λ s. string_bytes s ≡ fragments.with_fragment (text_of self.now) (option_map (λ t. t.now) fragment.entry)) }
        ensures accepted { OnOk result (IsTrue (all_or_none (λ t. is_fragment t) (option_map (λ t. t.now) fragment.entry))) }
        ensures refused { IfErr result (Refuses (all_or_none (λ t. is_fragment t) (option_map (λ t. t.now) fragment.entry)) (unwrap_or (option_map (λ t. t.now) fragment.entry) [])) }
    {
        if !is_fragment_or_none(fragment) {
            return Err(refusal(alloc, fragment.unwrap_or("")));
        }
        let text = with_fragment(alloc, self.text, fragment)?;
        Ok(text)
    }

    /// The target of the reference against a base (section 5.2).
    ///
    /// It takes time in the length of both texts, and at most three texts.
    ///
    /// # Errors
    ///
    /// Where memory for a text was refused.
    pub fn resolve_against(&self, alloc: Global, base: &Uri) -> Result<Uri, AllocError>
        ensures text { IfOk result (λ u. u ≡ resolved_text base.now (text_of self.now)) }
        ensures fragment { IfOk result (λ u. fragment_of u ≡ fragment_of (text_of self.now)) }
    {
        let base_components = split_reference(base.as_str());
        let text = resolve(alloc, &base_components, &self.components())?;
        Ok(Uri::of_valid(text))
    }

    /// The text of the normal form (section 6.2.2): of a relative reference with its dot segments, which are part of its meaning.
    ///
    /// It takes time in the length of the text, and at most five texts.
    ///
    /// # Errors
    ///
    /// Where memory for a text was refused.
    pub fn normalize(&self, alloc: Global) -> Result<String, AllocError>
        ensures { IfOk result (λ s. string_bytes s ≡ normal_text (text_of self.now)) }
    {
        normalize(alloc, &self.components())
    }
}
