//! Identifiers, anchors and the `$schema` that counts (Core 8.2; Draft 7, Core 8.2; Draft 4, Core 7.2).

ghost use Rattle.std.specs.Prelude.{◌≡◌, codes, option_map};
ghost use Rattle.serde_json.specs.View.{view};
ghost use Rattle.schema_dialects.specs.Dialects.{dialect_of};
ghost use Rattle.schema_dialects.specs.Passed as documents;

use crate::dialect::Dialect;
use schema_drafts::draft::Draft;
use schema_drafts::identifiers;
pub use schema_drafts::identifiers::text_at;
use serde_json::Value;

/// Whether a `$ref` hides what stands beside it.
pub fn is_hidden(dialect: Dialect, contents: &Value) -> bool
    ensures { result ≡ documents.is_hidden (dialect_of dialect) (view contents.now) }
{
    identifiers::is_hidden(dialect.siblings, dialect.draft, contents)
}

/// The text of the identifier's keyword, where it counts.
pub fn identifier_text(dialect: Dialect, contents: &Value) -> Option<&str>
    ensures { option_map (λ t. t.now) result ≡ documents.identifier_text (dialect_of dialect) (view contents.now) }
{
    identifiers::identifier_text(dialect.siblings, dialect.draft, contents)
}

/// The identifier of a schema, without its fragment: a reference that gives the base URI. A fragment alone is none.
pub fn identifier(dialect: Dialect, contents: &Value) -> Option<&str>
    ensures { option_map (λ t. t.now) result ≡ documents.identifier (dialect_of dialect) (view contents.now) }
{
    identifiers::identifier(dialect.siblings, dialect.draft, contents)
}

// The name that an identifier is which is a fragment alone.
fn after_hash(text: &str) -> Option<&str>
    ensures { documents.listed (option_map (λ t. t.now) result) ≡ documents.after_hash text.now }
{
    text.strip_prefix('#')
}

fn fragment_anchor(dialect: Dialect, contents: &Value) -> Option<&str>
    ensures { documents.listed (option_map (λ t. t.now) result) ≡ documents.fragment_anchor (dialect_of dialect) (view contents.now) }
{
    after_hash(identifier_text(dialect, contents)?)
}

/// The anchor that a schema bears by `$dynamicAnchor`.
pub fn dynamic_anchor(dialect: Dialect, contents: &Value) -> Option<&str>
    ensures { documents.listed (option_map (λ t. t.now) result) ≡ documents.dynamic_anchors (dialect_of dialect) (view contents.now) }
{
    match dialect.draft {
        Draft::Draft202012 | Draft::Unknown => text_at(contents, "$dynamicAnchor"),
        _ => None,
    }
}

/// The anchor that a schema bears by `$anchor`, or by its identifier before 2019-09.
pub fn anchor(dialect: Dialect, contents: &Value) -> Option<&str>
    ensures { documents.listed (option_map (λ t. t.now) result) ≡ documents.anchors_by dialect.draft (dialect_of dialect) (view contents.now) }
{
    match dialect.draft {
        Draft::Draft4 | Draft::Draft6 | Draft::Draft7 => fragment_anchor(dialect, contents),
        _ => text_at(contents, "$anchor"),
    }
}

/// The `$schema` that counts: a root's, or one beside an identifier, which is read by the draft that it names (Core 8.1.1).
/// `siblings` says whether what stands beside `$ref` is read in Drafts 6 and 7.
pub fn schema_in_force(siblings: bool, is_root: bool, contents: &Value) -> Option<&str>
    ensures { option_map (λ t. t.now) result ≡ documents.schema_in_force siblings is_root (view contents.now) }
{
    let text = text_at(contents, "$schema")?;
    let named = Draft::from_schema_uri(text);
    if is_root || identifiers::identifier(siblings, named, contents).is_some() {
        Some(text)
    } else {
        None
    }
}
