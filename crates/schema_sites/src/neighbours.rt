//! The neighbours of a limit in a schema.

ghost use Rattle.std.specs.Prelude.{◌≡◌, codes, option_map};
ghost use Rattle.serde_json.specs.View.{view};
ghost use Rattle.applicator_reading.specs.Beside.{beside_in};

use applicator_reading::neighbours::{Neighbours, beside};
use serde_json::Value;

// The strict limit beside a limit, where it counts; in Draft 4 the boolean that makes the limit strict.
pub(crate) fn strict_limit<'r>(neighbours: Neighbours<'r>, limit: &str) -> Option<&'r Value>
    ensures maximum { limit.now ≡ codes "maximum"
        → option_map (λ v. view v.now) result ≡ beside_in neighbours.entry (codes "exclusiveMaximum") }
    ensures minimum { limit.now ≡ codes "minimum"
        → option_map (λ v. view v.now) result ≡ beside_in neighbours.entry (codes "exclusiveMinimum") }
{
    match limit {
        "maximum" => beside(neighbours, "exclusiveMaximum"),
        "minimum" => beside(neighbours, "exclusiveMinimum"),
        _ => None,
    }
}
