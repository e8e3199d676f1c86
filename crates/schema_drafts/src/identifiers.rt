//! Identifiers of schemas (Core 8.2.1; Draft 7, Core 8.2; Draft 4, Core 7.2).

ghost use Rattle.std.specs.Prelude.{◌≡◌, option_map};
ghost use Rattle.serde_json.specs.View.{view};
ghost use Rattle.uri_grammar.specs.Texts.{cut_at};
ghost use Rattle.schema_drafts.specs.Vocabularies.{standard};
ghost use Rattle.schema_drafts.specs.Identifiers as spec;

use crate::draft::Draft;
use serde_json::Value;

/// The text of a member. A member that is no text is as if absent.
pub fn text_at<'d>(contents: &'d Value, name: &str) -> Option<&'d str>
    ensures { option_map (λ t. t.now) result ≡ spec.text_at name.now (view contents.now) }
{
    contents.get(name).and_then(Value::as_str)
}

/// Whether a `$ref` hides what stands beside it, as in Drafts 4 to 7; in Drafts 6 and 7 it does not where siblings are read.
pub fn is_hidden(siblings: bool, draft: Draft, contents: &Value) -> bool
    ensures { result ≡ spec.is_hidden (standard siblings draft) (view contents.now) }
{
    draft.ignores_siblings(siblings) && contents.get("$ref").is_some()
}

/// The text of the identifier's keyword, where it counts.
pub fn identifier_text(siblings: bool, draft: Draft, contents: &Value) -> Option<&str>
    ensures { option_map (λ t. t.now) result ≡ spec.identifier_text (standard siblings draft) (view contents.now) }
{
    if is_hidden(siblings, draft, contents) {
        return None;
    }
    text_at(contents, draft.id_keyword())
}

fn begins_with_hash(text: &str) -> bool
    ensures { result ≡ spec.begins_with_hash text.now }
{
    match text.as_bytes() {
        [] => false,
        [first, ..] => *first == b'#',
    }
}

fn before_hash(text: &str) -> &str
    ensures { result.now ≡ (cut_at 35 text.now).0 }
{
    match text.split_once('#') {
        Some((before, _)) => before,
        None => text,
    }
}

// A text without its fragment, where it is no fragment alone.
fn without_fragment(text: &str) -> Option<&str>
    ensures { option_map (λ t. t.now) result ≡ spec.without_fragment text.now }
{
    if begins_with_hash(text) {
        return None;
    }
    Some(before_hash(text))
}

/// The identifier of a schema, without its fragment: a reference that gives the base URI. A fragment alone is none.
pub fn identifier(siblings: bool, draft: Draft, contents: &Value) -> Option<&str>
    ensures { option_map (λ t. t.now) result ≡ spec.identifier (standard siblings draft) (view contents.now) }
{
    without_fragment(identifier_text(siblings, draft, contents)?)
}
