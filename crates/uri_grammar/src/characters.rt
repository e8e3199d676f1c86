//! Classes of characters, by bytes, and texts in which percent triplets may stand.

ghost use Rattle.std.specs.Prelude.{◌≡◌};
ghost use Rattle.uri_grammar.specs.Grammar as spec;
ghost use Rattle.uri_grammar.specs.Classes.{allows};

pub use crate::character_classes::{is_digit, is_hex, is_letter, is_sub_delim, is_unreserved};

/// A character of a path's segment (section 3.3), a percent triplet apart.
pub fn is_pchar(byte: u8) -> bool
    ensures { result ≡ spec.is_pchar byte }
{
    is_unreserved(byte) || is_sub_delim(byte) || matches!(byte, b':' | b'@')
}

/// The kinds of text in which percent triplets may stand.
#[derive(Clone, Copy)]
pub enum Class {
    RegName,
    Userinfo,
    Path,
    /// A query or a fragment.
    Query,
}

impl Class {
    /// Whether a byte may stand for itself.
    pub fn allows(self, byte: u8) -> bool
        ensures { result ≡ allows self byte }
    {
        match self {
            Class::RegName => is_unreserved(byte) || is_sub_delim(byte),
            Class::Userinfo => is_unreserved(byte) || is_sub_delim(byte) || byte == b':',
            Class::Path => is_pchar(byte) || byte == b'/',
            Class::Query => is_pchar(byte) || matches!(byte, b'/' | b'?'),
        }
    }
}

/// Whether each byte of a text is allowed or belongs to a percent triplet (section 2.1).
pub fn is_encoded(text: &str, class: Class) -> bool
    ensures { result ≡ spec.is_encoded (allows class) 0 text.now }
{
    let mut due = 0u8;
    for byte in text.as_bytes() {
        if due > 0 {
            if !is_hex(*byte) {
                return false;
            }
            due -= 1;
        } else if *byte == b'%' {
            due = 2;
        } else if !class.allows(*byte) {
            return false;
        }
    }
    due == 0
}
