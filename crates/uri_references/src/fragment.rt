//! Fragments of texts (RFC 3986, section 3.5).

ghost use Rattle.std.specs.Prelude.{◌≡◌, ◌++◌, IfOk, OnOk, option_map, is_some, string_bytes, codes};
ghost use Rattle.uri_references.specs.Passed.{behind};
ghost use Rattle.uri_references.specs.Passed.{all_or_none};
ghost use Rattle.uri_references.specs.Passed as grammar;
ghost use Rattle.uri_references.specs.Fragments as spec;
ghost use Rattle.uri_references.specs.Fragments.{fragment_of};

use crate::{is_fragment, split_fragment};
use std::alloc::{AllocError, Global};

/// Whether a text has a fragment.
pub fn has_fragment(text: &str) -> bool
    ensures { result ≡ is_some (fragment_of text.now) }
{
    let (_, fragment) = split_fragment(text);
    fragment.is_some()
}

/// Whether what is to be a fragment may be one.
pub fn is_fragment_or_none(fragment: Option<&str>) -> bool
    ensures { result ≡ all_or_none (λ t. grammar.is_fragment t) (option_map (λ t. t.now) fragment.entry) }
{
    match fragment {
        Some(fragment) => is_fragment(fragment),
        None => true,
    }
}

/// Writes a fragment behind its mark.
fn push_fragment(output: &mut String, fragment: Option<&str>) -> Result<(), AllocError>
    ensures { OnOk result (string_bytes output.new ≡ string_bytes output.old ++ behind (codes "#") (option_map (λ t. t.now) fragment.entry)) }
{
    if let Some(fragment) = fragment {
        output.push('#')?;
        output.push_str(fragment)?;
    }
    Ok(())
}

/// A text with this fragment in the place of its own.
pub fn with_fragment(
    alloc: Global,
    text: &str,
    fragment: Option<&str>,
) -> Result<String, AllocError>
    ensures { IfOk result (λ s. string_bytes s ≡ spec.with_fragment text.now (option_map (λ t. t.now) fragment.entry)) }
{
    let (stripped, _) = split_fragment(text);
    let mut output = String::from_str(alloc, stripped)?;
    push_fragment(&mut output, fragment)?;
    Ok(output)
}
