//! Where a reading stands.
ghost use Rattle.std.specs.Prelude.{◌≤◌};
ghost use Rattle.serde_json.specs.Data.{depth};
ghost use Rattle.serde_json.specs.View.{view};
ghost use Rattle.schema_definitions.specs.Plain.{deepest};
ghost use Rattle.schema_sites.specs.Seen.{documents_at};
ghost use Rattle.location_texts.specs.Locations.{location_of};
ghost use Rattle.plain_reader.specs.Spots.{spots_of, Within};

use crate::progress::Progress;
use crate::whole::Whole;
use schema_reports::LazyLocation;
use schema_sites::site::Site;
use serde_json::Value;
use std::alloc::Global;

/// A schema that is read of a value: what the value is a part of, the schema, the value with its place, and the references in progress.
#[derive(Clone, Copy)]
pub struct Reading<'a, 'r, 'i> {
    pub alloc: Global,
    pub whole: Whole<'a, 'i>,
    pub site: &'a Site<'r>,
    pub value: &'i Value,
    pub at: &'a LazyLocation<'a, 'a>,
    pub progress: &'a Progress<'a>,
    ghost shallow: { depth (view site.now.contents.now) ≤ deepest (documents_at site.now) },
    ghost within: { ∥ Within (view value.now) (location_of at.now) (spots_of whole) ∥₁ },
}
