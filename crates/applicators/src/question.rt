//! What applicators ask.

use crate::subschema::Subschema;
use serde_json::Value;

/// Of what a question is asked.
#[derive(Clone, Copy, Debug)]
pub enum Asked<'i> {
    /// The value itself.
    Value,
    Item { index: usize, item: &'i Value },
    Member { name: &'i str, member: &'i Value },
    /// A member's name.
    Name(&'i str),
}

/// Whether a subschema accepts what is asked of.
#[derive(Clone, Copy, Debug)]
pub struct Question<'r, 'i> {
    pub subschema: Subschema<'r>,
    pub asked: Asked<'i>,
}
