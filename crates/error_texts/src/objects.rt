//! What is said of a value, as the text of a JSON object.
ghost use Rattle.std.specs.Prelude.{◌≡◌, ◌++◌, ◌∷◌, [], ℕ, List, map, bytes_eq, string_bytes, IfOk, OnOk, OnErr};
ghost use Rattle.std.specs.List.{AllZip};
ghost use Rattle.serde_json.specs.Data.{Data};
ghost use Rattle.serde_json.specs.View.{view, items_of, members_view};
ghost use Rattle.schema_reports.specs.Left.{errors_left};
ghost use Rattle.error_texts.specs.Fields.{field_data, with_fields};
ghost use Rattle.error_texts.specs.Objects.{HasObjects, IsObject, accepted_text, location_data, own_members, refused_data};

use crate::fields::{Field, fields_of};
use schema_reports::{ErrorIterator, ValidationError};
use serde_json::{Map, Value, json, put};
use std::alloc::{AllocError, Global};

/// What is written of a value that is accepted.
const ACCEPTED: &str = r#"{"errors":[],"valid":true}"#;

/// The same with a line end.
const ACCEPTED_LINE: &[u8] = b"{\"errors\":[],\"valid\":true}\n";

/// Appends what is said of a value that is accepted. The text is as it was where memory is out.
pub fn write_accepted(text: &mut String) -> Result<(), AllocError>
    ensures written { OnOk result (string_bytes text.new ≡ string_bytes text.old ++ accepted_text) }
    ensures unchanged { OnErr result (string_bytes text.new ≡ string_bytes text.old) }
{
    text.push_str(ACCEPTED)
}

/// Whether a line with its end is what is said of a value that is accepted.
pub fn is_accepted_line(written: &[u8]) -> bool
    ensures { result ≡ bytes_eq written.now (accepted_text ++ 10 ∷ []) }
{
    written == ACCEPTED_LINE
}

/// Appends what is said of a value that is refused: that it is not valid, and an object for each error, with the name of its kind, its
/// three paths as pointers' texts, the absolute location of its keyword, its description and the fields of its kind. The members are in the
/// order of their names.
///
/// It costs what the descriptions cost, and a copy of what the kinds carry. The text is as it was where memory is out.
pub fn write_refused(
    alloc: Global,
    errors: ErrorIterator<'_>,
    text: &mut String,
) -> Result<(), AllocError>
    ensures written { OnOk result ((written : List ℕ) × HasObjects (errors_left errors.entry) written
        × (string_bytes text.new ≡ string_bytes text.old ++ written)) }
    ensures unchanged { OnErr result (string_bytes text.new ≡ string_bytes text.old) }
{
    let written = refused_value(alloc, errors)?.to_string(alloc)?;
    text.push_str(written.as_str())
}

fn refused_value(alloc: Global, errors: ErrorIterator<'_>) -> Result<Value, AllocError>
    ensures { IfOk result (λ v. (ds : List Data) × AllZip IsObject (errors_left errors.entry) ds
        × (view v ≡ refused_data (items_of ds))) }
{
    let errors = Value::Array(error_values(alloc, errors)?);
    json!(in alloc; {"errors": errors, "valid": false})
}

fn error_values(alloc: Global, errors: ErrorIterator<'_>) -> Result<Vec<Value>, AllocError>
    ensures { IfOk result (λ vs. AllZip IsObject (errors_left errors.entry) (map view vs.items)) }
{
    let mut values = Vec::new(alloc);
    for error in errors {
        push_value(alloc, error, &mut values)?;
    }
    Ok(values)
}

// Appends the object of an error, and lets the error go.
fn push_value(
    alloc: Global,
    error: ValidationError<'_>,
    values: &mut Vec<Value>,
) -> Result<(), AllocError>
    ensures { OnOk result ((d : Data) × IsObject error.entry d
        × (map view values.new.items ≡ map view values.old.items ++ d ∷ [])) }
{
    push_value_of(alloc, &error, values)
}

fn push_value_of(
    alloc: Global,
    error: &ValidationError<'_>,
    values: &mut Vec<Value>,
) -> Result<(), AllocError>
    ensures { OnOk result ((d : Data) × IsObject error.now d
        × (map view values.new.items ≡ map view values.old.items ++ d ∷ [])) }
{
    values.push(error_value(alloc, error)?)?;
    Ok(())
}

fn error_value(alloc: Global, error: &ValidationError<'_>) -> Result<Value, AllocError>
    ensures { IfOk result (λ v. IsObject error.now (view v)) }
{
    let description = error.description(alloc)?;
    let members = common_members(alloc, error, description)?;
    let fields = fields_of(alloc, error.kind())?;
    Ok(Value::Object(insert_all(alloc, members, fields)?))
}

// Members with further ones.
fn insert_all(
    alloc: Global,
    mut members: Map<String, Value>,
    fields: Vec<Field>,
) -> Result<Map<String, Value>, AllocError>
    ensures { IfOk result (λ ms. members_view ms.entries
        ≡ with_fields (map field_data fields.entry.items) (members_view members.entries)) }
{
    for (name, value) in fields {
        put(&mut members, alloc, name, value)?;
    }
    Ok(members)
}

// Where the keyword of an error stands, and `null` where no validator told it.
fn keyword_location(alloc: Global, error: &ValidationError<'_>) -> Result<Value, AllocError>
    ensures { IfOk result (λ v. view v ≡ location_data error.now) }
{
    Ok(match error.absolute_keyword_location(alloc)? {
        Some(location) => Value::String(location),
        None => Value::Null,
    })
}

// What each error has, whatever its kind carries.
fn common_members(
    alloc: Global,
    error: &ValidationError<'_>,
    description: String,
) -> Result<Map<String, Value>, AllocError>
    ensures { IfOk result (λ ms. members_view ms.entries ≡ own_members error.now (string_bytes description)) }
{
    let evaluation_path = error.evaluation_path().to_pointer(alloc)?;
    let instance_path = error.instance_path().to_pointer(alloc)?;
    let keyword_location = keyword_location(alloc, error)?;
    let schema_path = error.schema_path().to_pointer(alloc)?;
    let kind = String::from_str(alloc, error.message())?;
    let fields = vec![in alloc;
        ("description", Value::String(description)),
        ("evaluation_path", Value::String(evaluation_path)),
        ("instance_path", Value::String(instance_path)),
        ("keyword_location", keyword_location),
        ("kind", Value::String(kind)),
        ("schema_path", Value::String(schema_path)),
    ]?;
    insert_all(alloc, Map::new(alloc), fields)
}
