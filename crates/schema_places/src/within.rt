//! What a value is to the schema place that was passed last.

ghost use Rattle.std.specs.Prelude.{◌≡◌};
ghost use Rattle.serde_json.specs.View.{view};
ghost use Rattle.schema_drafts.specs.Subschemas.{holds_of};
ghost use Rattle.schema_definitions.specs.Lookup as spec;
ghost use Rattle.schema_places.specs.Seen.{place_of};
ghost use Rattle.schema_places.specs.Held.{within_of};

use crate::place::{Place, is_schema};
use schema_drafts::subschemas::{Subschemas, held_by};
use serde_json::Value;

/// What a value is to the schema place that was passed last: that place, or a part of it that holds schemas or none.
#[derive(Copy, Clone)]
pub enum Within {
    AtPlace,
    PartOf(Subschemas),
}

impl Within {
    /// What an item of the value holds.
    pub fn in_element(self) -> Subschemas
        ensures { holds_of result ≡ spec.in_element (within_of self) }
    {
        match self {
            Within::PartOf(Subschemas::Several | Subschemas::OneOrSeveral) => Subschemas::One,
            _ => Subschemas::None,
        }
    }

    /// What a member of the value holds, where the place is the one that was passed last.
    pub fn in_member(self, last: &Place<'_>, name: &str) -> Subschemas
        ensures { holds_of result ≡ spec.in_member (place_of last.now) (within_of self) name.now }
    {
        match self {
            Within::AtPlace => { held_by(last.dialect.draft, last.is_hidden(), name) }
            Within::PartOf(Subschemas::ByName) => Subschemas::One,
            Within::PartOf(_) => Subschemas::None,
        }
    }
}

/// Whether a value that stands where schemas are held is one itself.
pub fn holds_schema(held: Subschemas, value: &Value) -> bool
    ensures { result ≡ spec.holds_schema (holds_of held) (view value.now) }
{
    match held {
        Subschemas::One | Subschemas::OneOrSeveral => is_schema(value),
        _ => false,
    }
}
