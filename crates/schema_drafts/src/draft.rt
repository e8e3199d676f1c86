//! Drafts and the URIs of their meta-schemas.

ghost use Rattle.std.specs.Prelude.{◌≡◌, map, codes, option_map, option_and_then};
ghost use Rattle.serde_json.specs.Find.{get, as_str};
ghost use Rattle.serde_json.specs.View.{view};
ghost use Rattle.schema_drafts.specs.Drafts as drafts;

use serde_json::Value;

/// A draft of JSON Schema. `Unknown` stands for a meta-schema of one's own; it answers as 2020-12.
#[derive(Copy, Clone, Debug, PartialEq, Eq, PartialOrd, Ord, Hash)]
pub enum Draft {
    Draft4,
    Draft6,
    Draft7,
    Draft201909,
    Draft202012,
    Unknown,
}

impl Default for Draft {
    fn default() -> Self
        ensures { result ≡ drafts.newest }
    {
        Self::Draft202012
    }
}

const KNOWN_SCHEMAS: [(&str, Draft); 10] = [
    ("http://json-schema.org/draft-04/schema", Draft::Draft4),
    ("http://json-schema.org/draft-04/schema#", Draft::Draft4),
    ("http://json-schema.org/draft-06/schema", Draft::Draft6),
    ("http://json-schema.org/draft-06/schema#", Draft::Draft6),
    ("http://json-schema.org/draft-07/schema", Draft::Draft7),
    ("http://json-schema.org/draft-07/schema#", Draft::Draft7),
    (
        "https://json-schema.org/draft/2019-09/schema",
        Draft::Draft201909,
    ),
    (
        "https://json-schema.org/draft/2019-09/schema#",
        Draft::Draft201909,
    ),
    (
        "https://json-schema.org/draft/2020-12/schema",
        Draft::Draft202012,
    ),
    (
        "https://json-schema.org/draft/2020-12/schema#",
        Draft::Draft202012,
    ),
];

fn draft_among(rows: &[(&str, Draft)], uri: &str) -> Option<Draft>
    ensures { result ≡ drafts.draft_among (map (λ r. (r.0.now, r.1)) rows.now) uri.now }
{
    for row in rows {
        if row.0 == uri {
            return Some(row.1);
        }
    }
    None
}

/// The draft whose own meta-schema has that URI, an empty fragment aside (Core 8.1.1).
pub fn draft_named(uri: &str) -> Option<Draft>
    ensures { result ≡ drafts.draft_named uri.now }
{
    draft_among(&KNOWN_SCHEMAS, uri)
}

// The text of a value's `$schema`.
fn schema_text(contents: &Value) -> Option<&str>
    ensures { option_map (λ t. t.now) result ≡ option_and_then as_str (get (codes "$schema") (view contents.now)) }
{
    contents.get("$schema").and_then(Value::as_str)
}

impl Draft {
    /// The draft whose own meta-schema has that URI, an empty fragment aside, and `Unknown` for any other. It compares texts.
    pub fn from_schema_uri(uri: &str) -> Draft
        ensures { result ≡ drafts.or_unknown (drafts.draft_named uri.now) }
    {
        match draft_named(uri) {
            Some(draft) => draft,
            None => Draft::Unknown,
        }
    }

    /// The draft that the `$schema` of a value names, and this one where it has none that is a text.
    pub fn detect(self, contents: &Value) -> Draft
        ensures { result ≡ drafts.detected self (option_and_then as_str (get (codes "$schema") (view contents.now))) }
    {
        match schema_text(contents) {
            Some(uri) => Draft::from_schema_uri(uri),
            None => self,
        }
    }

    /// The keyword of identifiers: `id` in Draft 4, `$id` later.
    pub fn id_keyword(self) -> &'static str
        ensures { result.now ≡ drafts.identifier_name self }
    {
        match self {
            Draft::Draft4 => "id",
            _ => "$id",
        }
    }

    /// Whether what stands beside `$ref` is ignored, as in Drafts 4 to 7; in Drafts 6 and 7 it is not where siblings are read.
    pub fn ignores_siblings(self, siblings: bool) -> bool
        ensures { result ≡ drafts.ignores_siblings siblings self }
    {
        match self {
            Draft::Draft4 => true,
            Draft::Draft6 | Draft::Draft7 => !siblings,
            _ => false,
        }
    }
}
