//! Schemas that bear no name, name no meta-schema and refer to nothing.

ghost use Rattle.std.specs.Prelude.{◌≡◌};
ghost use Rattle.serde_json.specs.View.{view, members_view};
ghost use Rattle.schema_places.specs.Plain as spec;

use serde_json::{Map, Value};

fn is_core_name(name: &str) -> bool
    ensures { result ≡ spec.is_core_name name.now }
{
    match name.as_bytes() {
        [] => false,
        [first, ..] => *first == b'$' || name == "id",
    }
}

fn has_core_name(members: &Map<String, Value>) -> bool
    ensures { result ≡ spec.has_core_name (members_view members.now.entries) }
{
    for (name, _) in members.iter() {
        if is_core_name(name.as_str()) {
            return true;
        }
    }
    false
}

// Whether no member of a schema begins with `$` or is named `id`. It looks at the names up to the first of these.
pub(crate) fn is_plain(contents: &Value) -> bool
    ensures { result ≡ spec.is_plain_schema (view contents.now) }
{
    match contents {
        Value::Object(members) => !has_core_name(members),
        _ => true,
    }
}
