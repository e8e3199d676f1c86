//! Schemas that are tried on values.
ghost use Rattle.std.specs.Prelude.{◌≤◌};
ghost use Rattle.serde_json.specs.Data.{depth};
ghost use Rattle.serde_json.specs.View.{view};
ghost use Rattle.schema_definitions.specs.Plain.{deepest};
ghost use Rattle.fault_checks.specs.Passed.{documents_at};

use crate::Site;
use serde_json::Value;
use std::alloc::Global;

/// A schema, and the value that it is tried on.
#[derive(Clone, Copy)]
pub struct Trial<'a, 'r, 'i> {
    pub alloc: Global,
    pub site: &'a Site<'r>,
    pub value: &'i Value,
    ghost shallow: { depth (view site.now.contents.now) ≤ deepest (documents_at site.now) },
}
