//! What is read, and the reading of a value that stands alone.
ghost use Rattle.std.specs.Prelude.{◌≤◌, [], IfOk, IfErr};
ghost use Rattle.serde_json.specs.Data.{depth};
ghost use Rattle.serde_json.specs.View.{view};
ghost use Rattle.schema_definitions.specs.AllKeys.{spots_in};
ghost use Rattle.schema_definitions.specs.Plain.{deepest};
ghost use Rattle.schema_sites.specs.Seen.{documents_at};
ghost use Rattle.location_texts.specs.Locations.{location_of};
ghost use Rattle.plain_reader.specs.Verdicts.{Accepts};
ghost use Rattle.plain_reader.specs.Returns.{Stops, Returns};

use crate::progress::Progress;
use crate::read::accepts_schema;
use crate::standing::Reading;
use crate::stop::Stop;
use schema_reports::LazyLocation;
use schema_sites::site::Site;
use serde_json::Value;
use std::alloc::Global;

/// What is read: a whole value, and the place where it stands.
#[derive(Clone, Copy)]
pub struct Whole<'w, 'i> {
    pub value: &'i Value,
    pub at: &'w LazyLocation<'w, 'w>,
}

/// Whether a schema accepts a value that stands alone, at its place: no reference is in progress.
#[cycle(read)]
pub(crate) fn accepts_alone<'r, 'a>(
    alloc: Global,
    site: &Site<'r>,
    value: &Value,
    at: &'a LazyLocation<'a, 'a>,
) -> Result<bool, Stop>
    requires shallow { depth (view site.now.contents.now) ≤ deepest (documents_at site.now) }
    ensures accepts { IfOk result (Accepts site.now (spots_in (location_of at.now) (view value.now))
        (view value.now) (location_of at.now) []) }
    ensures stops { IfErr result (Stops (Returns site.now (view value.now) (location_of at.now) [])) }
{
    let nothing = Progress::Nothing;
    let alone = Reading {
        alloc,
        whole: Whole { value, at: &*at },
        site,
        value,
        at: &*at,
        progress: &nothing,
    };
    accepts_schema(&alone)
}
