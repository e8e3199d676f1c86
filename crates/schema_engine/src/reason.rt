//! Why a value is refused.

use schema_reports::ValidationErrorKind;
use serde_json::Value;

/// Why a value is refused: the kind of the error, and the value at fault.
#[derive(Drop)]
pub struct Reason<'o> {
    pub kind: ValidationErrorKind<'o>,
    pub value: &'o Value,
}
