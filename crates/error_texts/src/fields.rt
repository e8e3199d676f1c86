//! What a kind of error carries, as members of an object.
ghost use Rattle.std.specs.Prelude.{◌≡◌, map, string_bytes, IfOk};
ghost use Rattle.serde_json.specs.Data.{string};
ghost use Rattle.serde_json.specs.View.{view};
ghost use Rattle.assertions.specs.Named.{names_in};
ghost use Rattle.error_texts.specs.Fields as spec;

use assertions::TypeNames;
use schema_reports::{ValidationError, ValidationErrorKind as Kind};
use serde_json::{Value, json};
use std::alloc::{AllocError, Global};

/// The name of a member, and its value.
pub(crate) type Field = (&'static str, Value);

/// A member for each field of a kind, under the field's name. In place of errors there are objects with the names of their kinds and their
/// paths: for the error of a name that object, and the name as `property`; for branches a list of each one's, and how many accept.
pub(crate) fn fields_of(alloc: Global, kind: &Kind<'_>) -> Result<Vec<Field>, AllocError>
    ensures { IfOk result (λ fs. map spec.field_data fs.items ≡ spec.fields kind.now) }
{
    match kind {
        Kind::AdditionalItems | Kind::Contains | Kind::FalseSchema | Kind::UniqueItems => {
            Ok(Vec::new(alloc))
        }
        Kind::AdditionalProperties { unexpected } => {
            only(alloc, "unexpected", Value::Array(texts(alloc, unexpected)?))
        }
        Kind::AnyOf { context }
        | Kind::OneOfMultipleValid { context }
        | Kind::OneOfNotValid { context } => branch_fields(alloc, context.branches()),
        Kind::Constant { expected_value } => only(alloc, "expected_value", expected_value.clone()?),
        Kind::Enumeration { options } => only(alloc, "options", options.clone()?),
        Kind::ExclusiveMaximum { limit }
        | Kind::ExclusiveMinimum { limit }
        | Kind::Maximum { limit }
        | Kind::Minimum { limit } => only(alloc, "limit", limit.clone()?),
        Kind::MaxItems { limit }
        | Kind::MaxLength { limit }
        | Kind::MaxProperties { limit }
        | Kind::MinItems { limit }
        | Kind::MinLength { limit }
        | Kind::MinProperties { limit } => only(alloc, "limit", Value::from(*limit)),
        Kind::MultipleOf { multiple_of } => only(alloc, "multiple_of", multiple_of.clone()?),
        Kind::Not { schema } => only(alloc, "schema", schema.clone()?),
        Kind::Pattern { pattern } | Kind::UnfinishedMatch { pattern } => {
            only(alloc, "pattern", Value::String(pattern.clone()?))
        }
        Kind::PropertyNames { error } => name_fields(alloc, error),
        Kind::Required { property } => only(alloc, "property", Value::String(property.clone()?)),
        Kind::Types { names } => only(alloc, "names", Value::Array(types(alloc, names)?)),
    }
}

fn only(alloc: Global, name: &'static str, value: Value) -> Result<Vec<Field>, AllocError>
    ensures { IfOk result (λ fs. map spec.field_data fs.items ≡ spec.only name.now (view value)) }
{
    Ok(vec![in alloc; (name, value)]?)
}

fn texts(alloc: Global, names: &[String]) -> Result<Vec<Value>, AllocError>
    ensures { IfOk result (λ vs. map view vs.items ≡ map string (map string_bytes names.now)) }
{
    let mut values = Vec::new(alloc);
    for name in names {
        values.push(Value::String(name.clone()?))?;
    }
    Ok(values)
}

fn types(alloc: Global, names: &TypeNames) -> Result<Vec<Value>, AllocError>
    ensures { IfOk result (λ vs. map view vs.items ≡ map spec.type_data (names_in names.now)) }
{
    let listed = names.as_slice();
    let mut values = Vec::new(alloc);
    for json_type in listed {
        values.push(Value::String(String::from_str(alloc, json_type.as_str())?))?;
    }
    Ok(values)
}

fn name_fields(alloc: Global, error: &ValidationError<'_>) -> Result<Vec<Field>, AllocError>
    ensures { IfOk result (λ fs. map spec.field_data fs.items ≡ spec.name_fields error.now) }
{
    let told = carried(alloc, error)?;
    let name = error.instance().clone()?;
    Ok(vec![in alloc; ("error", told), ("property", name)]?)
}

fn branch_fields(
    alloc: Global,
    branches: &[Vec<ValidationError<'_>>],
) -> Result<Vec<Field>, AllocError>
    ensures { IfOk result (λ fs. map spec.field_data fs.items ≡ spec.branch_fields branches.now) }
{
    let accepting = branches.iter().filter(|errors| errors.is_empty()).count();
    let context = Value::Array(branch_values(alloc, branches)?);
    Ok(vec![in alloc; ("accepting", Value::from(accepting)), ("context", context)]?)
}

fn branch_values(
    alloc: Global,
    branches: &[Vec<ValidationError<'_>>],
) -> Result<Vec<Value>, AllocError>
    ensures { IfOk result (λ vs. map view vs.items ≡ map spec.branch_data branches.now) }
{
    let mut values = Vec::new(alloc);
    for errors in branches {
        values.push(Value::Array(carried_values(alloc, errors)?))?;
    }
    Ok(values)
}

fn carried_values(alloc: Global, errors: &[ValidationError<'_>]) -> Result<Vec<Value>, AllocError>
    ensures { IfOk result (λ vs. map view vs.items ≡ map spec.carried errors.now) }
{
    let mut values = Vec::new(alloc);
    for error in errors {
        values.push(carried(alloc, error)?)?;
    }
    Ok(values)
}

fn carried(alloc: Global, error: &ValidationError<'_>) -> Result<Value, AllocError>
    ensures { IfOk result (λ v. view v ≡ spec.carried error.now) }
{
    let evaluation_path = error.evaluation_path().to_pointer(alloc)?;
    let instance_path = error.instance_path().to_pointer(alloc)?;
    let schema_path = error.schema_path().to_pointer(alloc)?;
    json!(in alloc; {
        "evaluation_path": evaluation_path,
        "instance_path": instance_path,
        "kind": error.message(),
        "schema_path": schema_path
    })
}
