//! Subschemas, and where they stand in the keyword that applies them.

use serde_json::Value;

/// What of a keyword's value a subschema is.
#[derive(Clone, Copy, Debug)]
pub enum Entry<'r> {
    Whole,
    Name(&'r str),
    Index(usize),
}

/// A schema that stands at a keyword.
#[derive(Clone, Copy, Debug)]
pub struct Subschema<'r> {
    pub keyword: &'static str,
    pub entry: Entry<'r>,
    pub schema: &'r Value,
}
