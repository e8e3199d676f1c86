//! Patterns with a plain meaning.
ghost use Rattle.std.specs.Prelude.{◌≡◌, IfOk, option_map, string_bytes, bytes_eq, map};
ghost use Rattle.json_values.specs.Patterns.{means, literal_of, closed_of, before, behind, word, words, if_several, is_plain as is_plain_character, is_escapable as is_escapable_character};
ghost use Rattle.std.specs.List.{slice_split, list_any};
ghost use Rattle.std.specs.Prelude.{◌==◌, option_and_then};
ghost use Rattle.value_checks.specs.CodePatterns.{form_of};

use crate::texts::has_no_space;
use std::alloc::{AllocError, Global};

/// A pattern that needs no matcher, by the texts that it speaks of.
#[derive(Debug, Drop)]
pub enum PatternOptimization {
    /// `^L`: a text that begins with this.
    Prefix(String),
    /// `^L$`: this text alone.
    Exact(String),
    /// `^(A|B|..)$`: one of two or more texts.
    Alternation(Vec<String>),
    /// `^\S*$`: a text without white space of ECMA-262.
    NoWhitespace,
}

impl PatternOptimization {
    /// Whether the pattern matches a text. It takes no memory.
    pub fn is_match(&self, text: &str) -> bool
        ensures { result ≡ means (form_of self.now) text.now }
    {
        match self {
            PatternOptimization::Prefix(prefix) => text.starts_with(prefix.as_str()),
            PatternOptimization::Exact(exact) => text == exact.as_str(),
            PatternOptimization::Alternation(texts) => is_one_of(text, texts),
            PatternOptimization::NoWhitespace => has_no_space(text),
        }
    }
}

fn is_one_of(text: &str, texts: &[String]) -> bool
    ensures { result ≡ list_any (λ s. bytes_eq text.now (string_bytes s)) texts.now }
{
    texts.iter().any(|one| text == one.as_str())
}

/// The plain meaning of a pattern, where it is one of the four literal forms.
/// It reads the pattern a few times and takes memory for the texts alone; the error is want of memory.
pub fn analyze_pattern(
    alloc: Global,
    pattern: &str,
) -> Result<Option<PatternOptimization>, AllocError>
    ensures { IfOk result (λ o. option_map form_of o ≡ literal_of pattern.now) }
{
    let Some(opened) = pattern.strip_prefix('^') else {
        return Ok(None);
    };
    if let Some(text) = unescape_word(alloc, opened)? {
        return Ok(Some(PatternOptimization::Prefix(text)));
    }
    match opened.strip_suffix('$') {
        Some(closed) => analyze_closed(alloc, closed),
        None => Ok(None),
    }
}

// The same of what stands between `^` and `$`.
fn analyze_closed(alloc: Global, closed: &str) -> Result<Option<PatternOptimization>, AllocError>
    ensures { IfOk result (λ o. option_map form_of o ≡ closed_of closed.now) }
{
    if let Some(text) = unescape_word(alloc, closed)? {
        return Ok(Some(PatternOptimization::Exact(text)));
    }
    if closed == r"\S*" {
        return Ok(Some(PatternOptimization::NoWhitespace));
    }
    match in_parentheses(closed) {
        Some(choice) => Ok(alternatives(alloc, choice)?.map(PatternOptimization::Alternation)),
        None => Ok(None),
    }
}

fn in_parentheses(text: &str) -> Option<&str>
    ensures { option_map (λ t. t.now) result ≡ option_and_then (before 41) (behind 40 text.now) }
{
    text.strip_prefix('(')?.strip_suffix(')')
}

// The text that one or more plain characters and escapes stand for.
fn unescape_word(alloc: Global, text: &str) -> Result<Option<String>, AllocError>
    ensures { IfOk result (λ o. option_map string_bytes o ≡ word text.now) }
{
    let mut unescaped = String::new(alloc);
    let mut is_escape = false;
    for byte in text.as_bytes() {
        let stands = if is_escape {
            is_escapable(*byte)
        } else {
            is_plain(*byte)
        };
        if stands {
            unescaped.push(*byte as char)?;
            is_escape = false;
        } else if !is_escape && *byte == b'\\' {
            is_escape = true;
        } else {
            return Ok(None);
        }
    }
    Ok(if is_escape || unescaped.is_empty() {
        None
    } else {
        Some(unescaped)
    })
}

fn is_plain(byte: u8) -> bool
    ensures { result ≡ is_plain_character byte }
{
    byte.is_ascii_alphanumeric() || matches!(byte, b'_' | b'-' | b'/')
}

fn is_escapable(byte: u8) -> bool
    ensures { result ≡ is_escapable_character byte }
{
    matches!(byte, b'/' | b'$' | b'.' | b'-')
}

// Two or more words between bars.
fn alternatives(alloc: Global, text: &str) -> Result<Option<Vec<String>>, AllocError>
    ensures { IfOk result (λ o. option_map (λ v. map string_bytes v.items) o
        ≡ option_and_then if_several (words (slice_split (λ b. b == 124) text.now))) }
{
    let mut texts = Vec::new(alloc);
    for part in text.split('|') {
        let Some(word) = unescape_word(alloc, part)? else {
            return Ok(None);
        };
        texts.push(word)?;
    }
    Ok(if texts.len() < 2 { None } else { Some(texts) })
}
