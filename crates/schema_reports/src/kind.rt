//! Why a value is refused.
ghost use Rattle.std.specs.Prelude.{◌≡◌, Some};

use crate::context::ErrorContext;
use crate::error::ValidationError;
use assertions::TypeNames;
use serde_json::Value;
use std::fmt;

/// Why a value is refused, with what the keyword has, and with the errors of the schemas below it where they are told.
#[derive(Debug, Drop)]
#[cycle(errors)]
pub enum ValidationErrorKind<'i> {
    /// The list has an item that is none of those that are named.
    AdditionalItems,
    /// The object has members of these names, which are none of those that are named.
    AdditionalProperties { unexpected: Vec<String> },
    /// The value is refused by each of the schemas: the errors of each in turn.
    AnyOf { context: ErrorContext<'i> },
    /// The value differs from the one that is expected.
    Constant { expected_value: Value },
    /// No item of the list, or not as many as are asked for, is accepted.
    Contains,
    /// The value equals none of the list.
    Enumeration { options: Value },
    /// The number is not below the limit.
    ExclusiveMaximum { limit: Value },
    /// The number is not above the limit.
    ExclusiveMinimum { limit: Value },
    /// The schema is `false`.
    FalseSchema,
    /// The list has more items than the limit.
    MaxItems { limit: u64 },
    /// The number is above the limit.
    Maximum { limit: Value },
    /// The text has more code points than the limit.
    MaxLength { limit: u64 },
    /// The object has more members than the limit.
    MaxProperties { limit: u64 },
    /// The list has fewer items than the limit.
    MinItems { limit: u64 },
    /// The number is below the limit.
    Minimum { limit: Value },
    /// The text has fewer code points than the limit.
    MinLength { limit: u64 },
    /// The object has fewer members than the limit.
    MinProperties { limit: u64 },
    /// The number is no multiple of that one.
    MultipleOf { multiple_of: Value },
    /// The value is accepted by the schema.
    Not { schema: Value },
    /// The value is accepted by several of the schemas: the errors of each in turn.
    OneOfMultipleValid { context: ErrorContext<'i> },
    /// The value is refused by each of the schemas: the errors of each in turn.
    OneOfNotValid { context: ErrorContext<'i> },
    /// The text matches the pattern nowhere.
    Pattern { pattern: String },
    /// The name of a member is refused: its first error.
    PropertyNames { error: Box<ValidationError<'i>> },
    /// The object has no member of the name.
    Required { property: String },
    /// The value is of none of the types.
    Types { names: TypeNames },
    /// Two items of the list are equal.
    UniqueItems,
    /// A match of the pattern stays unfinished, and whether the value is refused goes by it.
    UnfinishedMatch { pattern: String },
}

impl ValidationErrorKind<'_> {
    ghost use Rattle.schema_reports.specs.Kinds.{kind_name};

    /// The kind's name, without what it carries.
    pub fn as_str(&self) -> &'static str
        ensures { result.now ≡ kind_name self.now }
    {
        match self {
            ValidationErrorKind::AdditionalItems => "AdditionalItems",
            ValidationErrorKind::AdditionalProperties { .. } => "AdditionalProperties",
            ValidationErrorKind::AnyOf { .. } => "AnyOf",
            ValidationErrorKind::Constant { .. } => "Constant",
            ValidationErrorKind::Contains => "Contains",
            ValidationErrorKind::Enumeration { .. } => "Enumeration",
            ValidationErrorKind::ExclusiveMaximum { .. } => "ExclusiveMaximum",
            ValidationErrorKind::ExclusiveMinimum { .. } => "ExclusiveMinimum",
            ValidationErrorKind::FalseSchema => "FalseSchema",
            ValidationErrorKind::MaxItems { .. } => "MaxItems",
            ValidationErrorKind::Maximum { .. } => "Maximum",
            ValidationErrorKind::MaxLength { .. } => "MaxLength",
            ValidationErrorKind::MaxProperties { .. } => "MaxProperties",
            ValidationErrorKind::MinItems { .. } => "MinItems",
            ValidationErrorKind::Minimum { .. } => "Minimum",
            ValidationErrorKind::MinLength { .. } => "MinLength",
            ValidationErrorKind::MinProperties { .. } => "MinProperties",
            ValidationErrorKind::MultipleOf { .. } => "MultipleOf",
            ValidationErrorKind::Not { .. } => "Not",
            ValidationErrorKind::OneOfMultipleValid { .. } => "OneOfMultipleValid",
            ValidationErrorKind::OneOfNotValid { .. } => "OneOfNotValid",
            ValidationErrorKind::Pattern { .. } => "Pattern",
            ValidationErrorKind::PropertyNames { .. } => "PropertyNames",
            ValidationErrorKind::Required { .. } => "Required",
            ValidationErrorKind::Types { .. } => "Types",
            ValidationErrorKind::UniqueItems => "UniqueItems",
            ValidationErrorKind::UnfinishedMatch { .. } => "UnfinishedMatch",
        }
    }
}

/// The kind's name.
impl fmt::Display for ValidationErrorKind<'_> {
    ghost use Rattle.schema_reports.specs.Kinds.{kind_name};

    ghost output = { λ kind. Some (kind_name kind) };

    fn fmt<W: fmt::Write>(&self, f: &mut fmt::Formatter<W>) -> fmt::Result {
        f.write_str(self.as_str())
    }
}
