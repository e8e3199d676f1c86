//! Where a walk by the two paths of a fault has come to.
ghost use Rattle.std.specs.Prelude.{◌≤◌, ◌<◌};
ghost use Rattle.serde_json.specs.Data.{depth};
ghost use Rattle.serde_json.specs.View.{view};
ghost use Rattle.schema_definitions.specs.Plain.{deepest};
ghost use Rattle.fault_checks.specs.Passed.{documents_at};

use crate::Site;
use serde_json::Value;

/// A schema on the way, a value, and what is left of the two paths: the text behind the next `/`, and none where nothing is left.
#[derive(Drop)]
pub struct Walk<'r, 'i, 'p> {
    pub site: Site<'r>,
    pub value: &'i Value,
    pub instance: Option<&'p str>,
    pub evaluation: Option<&'p str>,
    ghost shallow: { depth (view site.contents.now) ≤ deepest (documents_at site) },
}

/// A walk that goes on at the names of an object, by the subschema of a keyword such as `propertyNames`.
#[derive(Drop)]
pub struct AtNames<'r, 'i, 'p> {
    /// The walk to the keyword, at the object.
    pub walk: Walk<'r, 'i, 'p>,
    pub keyword: &'static str,
    pub schema: &'r Value,
    /// What is left of the path of the evaluation behind the keyword.
    pub evaluation: Option<&'p str>,
    ghost inside: { depth (view schema.now) < depth (view walk.site.contents.now) },
}

/// What a step comes to: an answer, the walk from where it leads, or one at each of several names.
#[derive(Drop)]
pub enum Step<'r, 'i, 'p> {
    Answered(bool),
    On(Walk<'r, 'i, 'p>),
    Named(AtNames<'r, 'i, 'p>),
}
