//! Paths that are written out.
use crate::keyword_location::KeywordLocation;
use schema_steps::Path;

/// The paths of a value, of its schema and of the evaluation that came there, and where the keyword stands.
#[derive(Drop)]
pub(crate) struct Paths {
    pub(crate) instance: Path,
    pub(crate) schema: Path,
    pub(crate) evaluation: Path,
    pub(crate) standing: Option<KeywordLocation>,
}
