//! The schemas directly inside a schema.

ghost use Rattle.std.specs.Prelude.{◌≡◌, [], false};
ghost use Rattle.std.specs.Iterator.{YieldsFirstBy, item_count};
ghost use Rattle.std.specs.Slice.Iter.{iter_rest};
ghost use Rattle.serde_json.specs.View.{view, items_view};
ghost use Rattle.schema_drafts.specs.Vocabularies.{standard};
ghost use Rattle.schema_drafts.specs.Subschemas.{holds_of};
ghost use Rattle.schema_drafts.specs.Children as spec;
ghost use Rattle.schema_drafts.specs.Left.{held_left, members_left, left};

use crate::draft::Draft;
use crate::identifiers::is_hidden;
use crate::subschemas::{Subschemas, held_by};
use serde_json::Value;
use std::collections::btree_map;
use std::iter::FusedIterator;
use std::slice;

// The values that a member holds, as far as they are left: those of a list or those of an object.
#[derive(Drop)]
enum Held<'a> {
    Listed(slice::Iter<'a, Value>),
    Named(btree_map::Values<'a, String, Value>),
}

/// The schemas directly inside a schema, in the order of its members and their items. It allocates nothing,
/// and to its end looks at each member once, and at each item or value of those that may hold schemas.
#[derive(Drop)]
pub struct ChildIter<'a> {
    draft: Draft,
    hidden: bool,
    members: Option<btree_map::Iter<'a, String, Value>>,
    held: Held<'a>,
}

// Objects and booleans are schemas (Core 4.3).
fn is_schema(value: &Value) -> bool
    ensures { result ≡ spec.is_schema (view value.now) }
{
    match value {
        Value::Bool(_) | Value::Object(_) => true,
        _ => false,
    }
}

fn next_listed<'a>(values: &mut slice::Iter<'a, Value>) -> Option<&'a Value>
    ensures { YieldsFirstBy (λ x. view x.now) (λ rest. spec.among_items (items_view (iter_rest rest))) values.old result values.new }
{
    while let Some(value) = values.next() {
        if is_schema(value) {
            return Some(value);
        }
    }
    None
}

fn next_named<'a>(values: &mut btree_map::Values<'a, String, Value>) -> Option<&'a Value>
    ensures { YieldsFirstBy (λ x. view x.now) (λ rest. spec.among_items (items_view rest)) values.old result values.new }
{
    while let Some(value) = values.next() {
        if is_schema(value) {
            return Some(value);
        }
    }
    None
}

impl<'a> Held<'a> {
    fn nothing() -> Held<'a>
        ensures { held_left result ≡ [] }
    {
        let none: &[Value] = &[];
        Held::Listed(none.iter())
    }

    // The values of a member where its schemas stand, by what it holds.
    fn of_member(holds: Subschemas, value: &'a Value) -> Held<'a>
        ensures { held_left result ≡ spec.schemas_held (holds_of holds) (view value.now) }
    {
        match (holds, value) {
            (Subschemas::Several | Subschemas::OneOrSeveral, Value::Array(items)) => {
                Held::Listed(items.iter())
            }
            (Subschemas::One | Subschemas::OneOrSeveral, _) => {
                Held::Listed(slice::from_ref(value).iter())
            }
            (Subschemas::ByName, Value::Object(members)) => Held::Named(members.values()),
            _ => Held::nothing(),
        }
    }

    fn next_schema(&mut self) -> Option<&'a Value>
        ensures { YieldsFirstBy (λ x. view x.now) held_left self.old result self.new }
    {
        match self {
            Held::Listed(values) => next_listed(values),
            Held::Named(values) => next_named(values),
        }
    }
}

fn next_member<'a>(
    members: &mut Option<btree_map::Iter<'a, String, Value>>,
) -> Option<(&'a String, &'a Value)>
    ensures { YieldsFirstBy (λ x. (x.0.now, x.1.now)) members_left members.old result members.new }
{
    match members {
        Some(rest) => rest.next(),
        None => None,
    }
}

impl<'a> Iterator for ChildIter<'a> {
    type Item = &'a Value;

    ghost next_gives = { YieldsFirstBy (λ x. view x.now) left };

    ghost remaining = { item_count left };

    fn next(&mut self) -> Option<&'a Value> {
        loop {
            if let Some(schema) = self.held.next_schema() {
                return Some(schema);
            }
            let (name, value) = next_member(&mut self.members)?;
            self.held = Held::of_member(held_by(self.draft, self.hidden, name), value);
        }
    }
}

impl<'a> FusedIterator for ChildIter<'a> {}

impl Draft {
    /// The schemas directly inside a schema: where its keywords, by this draft, hold schemas (the applicators of Core 10,
    /// and `$defs` and its like of Core 8.2.4). Anything but an object has none. A `$ref` in Drafts 4 to 7 leaves `definitions` alone.
    pub fn subresources_of<'a>(self, contents: &'a Value) -> ChildIter<'a>
        ensures { left result ≡ spec.subschemas (standard false self) (view contents.now) }
    {
        self.subresources_with(contents, false)
    }

    /// The schemas directly inside a schema as [`Draft::subresources_of`] has them. Where siblings of `$ref` are read, a `$ref` in
    /// Drafts 6 and 7 leaves all of them; Draft 4 is unchanged.
    pub fn subresources_with<'a>(self, contents: &'a Value, siblings: bool) -> ChildIter<'a>
        ensures { left result ≡ spec.subschemas (standard siblings self) (view contents.now) }
    {
        let members = match contents {
            Value::Object(members) => Some(members.iter()),
            _ => None,
        };
        ChildIter {
            draft: self,
            hidden: is_hidden(siblings, self, contents),
            members,
            held: Held::nothing(),
        }
    }
}
