//! Where the schema places of a document lie.
ghost use Rattle.serde_json.specs.View.{view};
ghost use Rattle.document_laws.specs.ListedLaws.{PlacesAreOne};
ghost use Rattle.document_laws.specs.PlaceLaws.{PlacesLead};

use serde_json::Value;
use value_checks::rising::names_rise;

/// The schema places of a document lie where their paths say, whatever is told of meta-schemas. It walks the document once.
pub fn places_lead(contents: &Value)
    ensures { PlacesLead (view contents.now) }
{
    names_rise(contents);
}

/// Among documents whose names are apart, where members' names rise, a place of a document is one schema place at most, so it determines base
/// and dialect there; and no schema place stands below one that awaits its meta-schema. It costs nothing to call.
pub fn places_are_one()
    ensures { PlacesAreOne }
{}
