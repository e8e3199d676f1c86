//! One name of a type, or a list of them.
ghost use Rattle.std.specs.Prelude.{◌≡◌, map, IfOk, option_map};
ghost use Rattle.std.specs.List.{list_any};
ghost use Rattle.json_values.specs.Kinds.{has_some_type, has_type as is_of_type};
ghost use Rattle.schema_definitions.specs.Values.{type_names, type_of as spec_type_of, types_in, type_among, all_types};
ghost use Rattle.value_checks.specs.Code.{primitive_of};
ghost use Rattle.serde_json.specs.View.{view, items_view};
ghost use Rattle.assertions.specs.Named.{names_in};

use serde_json::Value;
use std::alloc::{AllocError, Global};
use std::slice;
use value_checks::json_types::{JsonType, has_type};

/// What the keyword `type` names (Validation 6.1.1).
#[derive(Debug, Drop)]
pub enum TypeNames {
    One(JsonType),
    Several(Vec<JsonType>),
}

/// The types that a value of the keyword `type` names: one text, or a list of them, which may be empty. There is none where a
/// text names no type, or the value is neither.
///
/// The error comes where memory for the list is refused.
pub fn read(alloc: Global, value: &Value) -> Result<Option<TypeNames>, AllocError>
    ensures { IfOk result (λ names. option_map names_in names ≡ type_names (view value.now)) }
{
    match value {
        Value::String(name) => Ok(named(name.as_str()).map(TypeNames::One)),
        Value::Array(values) => Ok(read_list(alloc, values)?.map(TypeNames::Several)),
        _ => Ok(None),
    }
}

fn read_list(alloc: Global, values: &[Value]) -> Result<Option<Vec<JsonType>>, AllocError>
    ensures { IfOk result (λ types. option_map (λ v. map primitive_of v.items) types ≡ types_in (items_view values.now)) }
{
    let mut types = Vec::new(alloc);
    for value in values {
        let Some(json_type) = type_of(value) else {
            return Ok(None);
        };
        types.push(json_type)?;
    }
    Ok(Some(types))
}

fn type_of(value: &Value) -> Option<JsonType>
    ensures { option_map primitive_of result ≡ spec_type_of (view value.now) }
{
    match value {
        Value::String(name) => named(name.as_str()),
        _ => None,
    }
}

fn named(name: &str) -> Option<JsonType>
    ensures { option_map primitive_of result ≡ type_among all_types name.now }
{
    JsonType::from_name(name)
}

impl TypeNames {
    /// The types, in order.
    pub fn as_slice(&self) -> &[JsonType]
        ensures { map primitive_of result.now ≡ names_in self.now }
    {
        match self {
            TypeNames::One(json_type) => slice::from_ref(json_type),
            TypeNames::Several(types) => types.as_slice(),
        }
    }

    /// Whether a value is of one of the types. It takes a test for each type, up to the first that fits.
    pub fn accept(&self, value: &Value) -> bool
        ensures { result ≡ has_some_type (names_in self.now) (view value.now) }
    {
        is_of_some(self.as_slice(), value)
    }
}

fn is_of_some(types: &[JsonType], value: &Value) -> bool
    ensures { result ≡ list_any (λ t. is_of_type (primitive_of t) (view value.now)) types.now }
{
    types.iter().any(|json_type| has_type(*json_type, value))
}

/// The error comes where memory for a list is refused.
impl Clone for TypeNames {
    ghost use Rattle.assertions.specs.Named.{names_in};

    ghost is_clone = { λ names copy. names_in copy ≡ names_in names };

    fn clone(&self) -> Result<TypeNames, AllocError> {
        match self {
            TypeNames::One(json_type) => Ok(TypeNames::One(*json_type)),
            TypeNames::Several(types) => Ok(TypeNames::Several(types.clone()?)),
        }
    }
}
