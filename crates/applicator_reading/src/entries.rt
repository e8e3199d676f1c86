//! Lists and objects of schemas.
ghost use Rattle.std.specs.Prelude.{◌≡◌, option_map};
ghost use Rattle.serde_json.specs.View.{items_view, members_view};
ghost use Rattle.applicator_reading.specs.Others.{first_other_item, first_other_member};

use schema_places::place::is_schema;
use serde_json::{Map, Value};

/// The index of the first item that is no schema.
pub(crate) fn other_item(items: &[Value]) -> Option<usize>
    ensures { result ≡ first_other_item 0 (items_view items.now) }
{
    for (index, item) in items.iter().enumerate() {
        if !is_schema(item) {
            return Some(index);
        }
    }
    None
}

/// The name of the first member that is no schema.
pub(crate) fn other_member<'m>(members: &'m Map<String, Value>) -> Option<&'m str>
    ensures { option_map (λ n. n.now) result ≡ first_other_member (members_view members.now.entries) }
{
    for (name, member) in members.iter() {
        if !is_schema(member) {
            return Some(name.as_str());
        }
    }
    None
}
