//! URIs that own their text.

use crate::borrowed::UriRef;
use crate::error::Error;
use crate::fragment::{has_fragment, is_fragment_or_none, with_fragment};
use crate::normal::normalize;
use crate::refusal::refusal;
use crate::{is_uri, split_reference};
use std::alloc::{AllocError, Global};
use std::marker::Model;

/// A URI (RFC 3986, section 3).
#[derive(Drop)]
pub struct Uri {
    text: String,
}

// Contracts see the text.
impl Model for Uri {
    ghost use Rattle.std.specs.Prelude.{ℕ, List, IsTrue, string_bytes};
    ghost use Rattle.std.specs.Coded.{codes};
    ghost use Rattle.uri_references.specs.Passed.{split};
    ghost use Rattle.uri_references.specs.Passed.{is_uri};

    ghost Value = { List ℕ };

    ghost coded = { Prim.hlevel codes };

    ghost view = { λ u. string_bytes u.text };

    ghost invariant = { λ u. IsTrue (is_uri (split (string_bytes u.text))) };
}

impl Uri {
    ghost use Rattle.std.specs.Prelude.{◌≡◌, IsTrue, IfOk, IfErr, OnOk, OnErr, option_map, unwrap_or, is_some, [], string_bytes};
    ghost use Rattle.uri_references.specs.Passed.{all_or_none};
    ghost use Rattle.uri_references.specs.Passed.{split};
    ghost use Rattle.uri_references.specs.Passed as grammar;
    ghost use Rattle.uri_references.specs.Passed.{is_fragment};
    ghost use Rattle.uri_references.specs.Resolution.{resolved_text};
    ghost use Rattle.uri_references.specs.NormalForm.{normal_text};
    ghost use Rattle.uri_references.specs.Lent.{text_of};
    ghost use Rattle.uri_references.specs.Fragments as fragments;
    ghost use Rattle.uri_references.specs.Fragments.{fragment_of, without_fragment};
    ghost use Rattle.uri_references.specs.Refusals.{Refuses};

    /// A text that is a URI.
    pub(crate) fn of_valid(text: String) -> Uri
        requires { IsTrue (grammar.is_uri (split (string_bytes text))) }
        ensures { result ≡ string_bytes text }
    {
        Uri { text }
    }

    /// Reads a text as a URI.
    ///
    /// It takes time in the length of the text, and one text.
    ///
    /// # Errors
    ///
    /// Where the text does not meet the grammar or has no scheme, which is then named, or where memory was refused.
    pub fn parse(alloc: Global, text: &str) -> Result<Uri, Error>
        ensures ok { IfOk result (λ u. u ≡ text.now) }
        ensures accepted { OnOk result (IsTrue (grammar.is_uri (split text.now))) }
        ensures refused { IfErr result (Refuses (grammar.is_uri (split text.now)) text.now) }
    {
        if !is_uri(text) {
            return Err(refusal(alloc, text));
        }
        let text = String::from_str(alloc, text)?;
        Ok(Uri { text })
    }

    /// The text.
    pub fn as_str(&self) -> &str
        ensures value { result.now ≡ self.now }
        ensures valid { IsTrue (grammar.is_uri (split self.now)) }
    {
        self.text.as_str()
    }

    /// A copy of the URI.
    pub(crate) fn copied(&self) -> Result<Uri, AllocError>
        ensures { IfOk result (λ u. u ≡ self.now) }
    {
        Ok(Uri {
            text: self.text.clone()?,
        })
    }

    /// The URI as a reference, which borrows its text.
    pub fn as_uri_ref(&self) -> UriRef<'_>
        ensures { text_of result ≡ self.now }
    {
        UriRef::of_valid(self.text.as_str())
    }

    /// Whether the URI has a fragment, be it empty.
    pub fn has_fragment(&self) -> bool
        ensures { result ≡ is_some (fragment_of self.now) }
    {
        has_fragment(self.text.as_str())
    }

    /// The URI without its fragment, which borrows its text. It allocates nothing.
    pub fn strip_fragment(&self) -> UriRef<'_>
        ensures { text_of result ≡ without_fragment self.now }
    {
        self.as_uri_ref().strip_fragment()
    }

    /// Puts this fragment in the place of the URI's own; with `None` the URI has none.
    ///
    /// It takes time in the length of the text, and one text where there is a fragment to set.
    ///
    /// # Errors
    ///
    /// Where the fragment does not meet its grammar, which is then named, or where memory was refused; the URI then stays as it was.
    pub fn set_fragment(&mut self, fragment: Option<&str>) -> Result<(), Error>
        ensures ok { OnOk result (self.new ≡ fragments.with_fragment self.old (option_map (λ t. t.now) fragment.entry)) }
        ensures accepted { OnOk result (IsTrue (all_or_none (λ t. is_fragment t) (option_map (λ t. t.now) fragment.entry))) }
        ensures refused { IfErr result (Refuses (all_or_none (λ t. is_fragment t) (option_map (λ t. t.now) fragment.entry)) (unwrap_or (option_map (λ t. t.now) fragment.entry) [])) }
        ensures unchanged { OnErr result (self.new ≡ self.old) }
    {
        if !is_fragment_or_none(fragment) {
            return Err(refusal(*self.text.allocator(), fragment.unwrap_or("")));
        }
        let text = with_fragment(*self.text.allocator(), self.text.as_str(), fragment)?;
        self.text = text;
        Ok(())
    }

    /// The target of this URI as a reference against a base (section 5.2): this URI without dot segments.
    ///
    /// It takes time in the length of both texts, and at most three texts.
    ///
    /// # Errors
    ///
    /// Where memory for a text was refused.
    pub fn resolve_against(&self, alloc: Global, base: &Uri) -> Result<Uri, AllocError>
        ensures text { IfOk result (λ u. u ≡ resolved_text base.now self.now) }
        ensures fragment { IfOk result (λ u. fragment_of u ≡ fragment_of self.now) }
    {
        self.as_uri_ref().resolve_against(alloc, base)
    }

    /// The normal form (section 6.2.2), with `/.` before a path that would be read as an authority.
    ///
    /// It takes time in the length of the text, and at most five texts.
    ///
    /// # Errors
    ///
    /// Where memory for a text was refused.
    pub fn normalize(&self, alloc: Global) -> Result<Uri, AllocError>
        ensures text { IfOk result (λ u. u ≡ normal_text self.now) }
        ensures once { IfOk result (λ u. normal_text u ≡ u) }
    {
        let text = normalize(alloc, &split_reference(self.text.as_str()))?;
        Ok(Uri { text })
    }
}
