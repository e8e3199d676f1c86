//! How many schemas of documents name a meta-schema.

ghost use Rattle.std.specs.Prelude.{◌≡◌, ◌<◌, ◌^◌, ◌∷◌, [], map, SomeIff};
ghost use Rattle.serde_json.specs.View.{view, items_view, members_view};
ghost use Rattle.schema_definitions.specs.Bearers as bearers;
ghost use Rattle.document_index.specs.Seen.{document_of};

use crate::document::Document;
use serde_json::{Map, Value};

#[cycle(named)]
fn schemas_named(value: &Value) -> Option<usize>
    ensures { SomeIff result (bearers.schemas_named (view value.now) < 2 ^ 64) (bearers.schemas_named (view value.now)) }
{
    match value {
        Value::Array(items) => schemas_named_in(items),
        Value::Object(members) => schemas_named_among(members),
        _ => Some(0),
    }
}

#[cycle(named)]
fn schemas_named_in(items: &[Value]) -> Option<usize>
    ensures { SomeIff result (bearers.schemas_named_in (items_view items.now) < 2 ^ 64)
        (bearers.schemas_named_in (items_view items.now)) }
{
    let mut count: usize = 0;
    for item in items {
        count = count.checked_add(schemas_named(item)?)?;
    }
    Some(count)
}

#[cycle(named)]
fn schemas_named_among(members: &Map<String, Value>) -> Option<usize>
    ensures { SomeIff result (bearers.schemas_named_among (members_view members.now.entries) < 2 ^ 64)
        (bearers.schemas_named_among (members_view members.now.entries)) }
{
    let mut count: usize = 0;
    for (name, member) in members.iter() {
        let own: usize = if name.as_str() == "$schema" { 1 } else { 0 };
        count = count.checked_add(own)?.checked_add(schemas_named(member)?)?;
    }
    Some(count)
}

/// How many members named `$schema` there are in documents, at schema places or not, and none where a `usize` does not count them. It
/// walks each document once.
pub fn how_many(documents: &[Document<'_>]) -> Option<usize>
    ensures { SomeIff result (bearers.how_many (map document_of documents.now) < 2 ^ 64)
        (bearers.how_many (map document_of documents.now)) }
{
    let mut count: usize = 0;
    for document in documents {
        count = count.checked_add(schemas_named(document.contents.value())?)?;
    }
    Some(count)
}
