//! Classes of characters (RFC 3986, appendix A), by bytes.

ghost use Rattle.std.specs.Prelude.{◌≡◌};
ghost use Rattle.uri_grammar.specs.Texts as texts;
ghost use Rattle.uri_grammar.specs.Addresses as addresses;

/// Whether a byte is a digit (`DIGIT`).
pub fn is_digit(byte: u8) -> bool
    ensures { result ≡ texts.is_digit byte }
{
    b'0' <= byte && byte <= b'9'
}

/// Whether a byte is a letter of ASCII (`ALPHA`).
pub fn is_letter(byte: u8) -> bool
    ensures { result ≡ texts.is_letter byte }
{
    b'A' <= byte && byte <= b'Z' || b'a' <= byte && byte <= b'z'
}

/// Whether a byte is a hexadecimal digit of either case (`HEXDIG`).
pub fn is_hex(byte: u8) -> bool
    ensures { result ≡ texts.is_hex byte }
{
    is_digit(byte) || b'A' <= byte && byte <= b'F' || b'a' <= byte && byte <= b'f'
}

/// Whether a byte is an unreserved character (section 2.3).
pub fn is_unreserved(byte: u8) -> bool
    ensures { result ≡ addresses.is_unreserved byte }
{
    is_letter(byte) || is_digit(byte) || matches!(byte, b'-' | b'.' | b'_' | b'~')
}

/// Whether a byte is a delimiter inside components (`sub-delims`, section 2.2).
pub fn is_sub_delim(byte: u8) -> bool
    ensures { result ≡ addresses.is_sub_delim byte }
{
    matches!(
        byte,
        b'!' | b'$' | b'&' | b'\'' | b'(' | b')' | b'*' | b'+' | b',' | b';' | b'='
    )
}
