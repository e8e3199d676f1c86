//! Texts by their code points.
ghost use Rattle.std.specs.Prelude.{◌≡◌};
ghost use Rattle.json_values.specs.Texts.{code_points as count_of, is_ecma_space as is_space, has_no_space as lacks_space};

/// The length of a text in Unicode code points (Validation 6.3.1). It reads the whole text.
pub fn code_points(text: &str) -> usize
    ensures { result ≡ count_of text.now }
{
    text.chars().count()
}

/// Whether `\s` of ECMA-262 matches a character: its white space and line ends.
/// Rust's `char::is_whitespace` has U+0085 in place of U+FEFF.
pub fn is_ecma_space(character: char) -> bool
    ensures { result ≡ is_space character }
{
    matches!(
        character,
        '\u{9}'..='\u{d}'
            | ' '
            | '\u{a0}'
            | '\u{1680}'
            | '\u{2000}'..='\u{200a}'
            | '\u{2028}'..='\u{2029}'
            | '\u{202f}'
            | '\u{205f}'
            | '\u{3000}'
            | '\u{feff}'
    )
}

/// Whether a text has no white space of ECMA-262, as the pattern `^\S*$` wants it.
pub fn has_no_space(text: &str) -> bool
    ensures { result ≡ lacks_space text.now }
{
    !text.chars().any(|c| is_ecma_space(c))
}
