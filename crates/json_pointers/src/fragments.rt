//! Percent-encoded URI fragments (RFC 3986, section 3.5).
//!
//! A byte stands for itself where it is an unreserved character, a sub-delimiter or one of `:`, `@`, `/` and `?`.
//! Each other byte is written as a percent triplet with upper-case digits.

ghost use Rattle.std.specs.Prelude.{◌≡◌, ◌++◌, ◌<◌, [], ℕ, List, true, length, OnOk, OnErr, string_bytes};
ghost use Rattle.percent_encoding.specs.Percent.{percent_decode};
ghost use Rattle.json_pointers.specs.Fragments.{fragment_text, is_fragment};

use percent_encoding::{AsciiSet, NON_ALPHANUMERIC, ascii_set, utf8_percent_encode};
use std::alloc::{AllocError, Global};
use std::marker::Model;

// The ASCII bytes that may not stand for themselves in a fragment.
const ENCODED: AsciiSet = ascii_set!(
    NON_ALPHANUMERIC
        .remove(b'-')
        .remove(b'.')
        .remove(b'_')
        .remove(b'~')
        .remove(b'!')
        .remove(b'$')
        .remove(b'&')
        .remove(b'\'')
        .remove(b'(')
        .remove(b')')
        .remove(b'*')
        .remove(b'+')
        .remove(b',')
        .remove(b';')
        .remove(b'=')
        .remove(b':')
        .remove(b'@')
        .remove(b'/')
        .remove(b'?')
);

/// A URI fragment that is written piece by piece. A contract sees the text that was pushed, joined.
#[derive(Drop)]
pub struct FragmentBuffer {
    text: String,
}

impl Model for FragmentBuffer {
    ghost Value = { List ℕ };

    ghost view = { λ buffer. percent_decode (string_bytes buffer.text) };

    ghost invariant = { λ buffer. string_bytes buffer.text
        ≡ fragment_text (percent_decode (string_bytes buffer.text)) };
}

impl FragmentBuffer {
    /// An empty fragment. Nothing is allocated.
    pub fn new(alloc: Global) -> Self
        ensures { result ≡ [] }
    {
        FragmentBuffer {
            text: String::new(alloc),
        }
    }

    /// Appends a text, percent-encoded: a `%` of the text is encoded too, so no piece is read as a triplet.
    ///
    /// It is linear in the text, and allocates only where the buffer has to grow. Want of memory leaves the fragment as
    /// it was.
    pub fn push(&mut self, text: &str) -> Result<(), AllocError>
        ensures ok { OnOk result (self.new ≡ self.old ++ text.now) }
        ensures err { OnErr result (self.new ≡ self.old) }
        ensures memory { OnErr result (0 < length text.now) }
    {
        utf8_percent_encode(text, ENCODED).append_to(&mut self.text)
    }

    /// The fragment's text, without the `#` before it, lent in constant time.
    pub fn as_str(&self) -> &str
        ensures text { result.now ≡ fragment_text self.now }
        ensures decoded { percent_decode result.now ≡ self.now }
        ensures fragment { is_fragment result.now ≡ true }
    {
        self.text.as_str()
    }
}
