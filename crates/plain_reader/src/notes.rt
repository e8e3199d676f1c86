//! What a keyword that applies subschemas notes of the value itself.
ghost use Rattle.std.specs.Prelude.{◌≡◌, not};
ghost use Rattle.serde_json.specs.View.{view};
ghost use Rattle.schema_meaning.specs.Members.{is_empty};
ghost use Rattle.applicators.specs.Combined.{notes_by};

use applicators::applicator::Applicator;
use applicators::asks::Asks;
use assertions::missing::first_missing_beside;
use serde_json::Value;

/// Whether it notes something, so that it refuses whatever its subschemas answer.
pub fn is_noted(applicator: &Applicator<'_>, value: &Value) -> bool
    ensures { result ≡ not (is_empty (notes_by applicator.now (view value.now))) }
{
    match applicator.asks() {
        Asks::Dependencies(entries) => first_missing_beside(entries, value).is_some(),
        _ => false,
    }
}
