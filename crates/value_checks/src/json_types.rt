//! The types of JSON values.
ghost use Rattle.std.specs.Prelude.{◌≡◌, ◌≢◌, IfSome, IfNone};
ghost use Rattle.json_values.specs.Kinds.{type_name, has_type as is_of_type};
ghost use Rattle.value_checks.specs.Code.{primitive_of};
ghost use Rattle.serde_json.specs.View.{view};

use serde_json::Value;

/// A type, as the keyword `type` names it (Validation 6.1.1).
#[derive(Clone, Copy, Debug, PartialEq, Eq)]
pub enum JsonType {
    Null,
    Boolean,
    Object,
    Array,
    Number,
    String,
    Integer,
}

impl JsonType {
    /// The name of the type.
    pub fn as_str(self) -> &'static str
        ensures { result.now ≡ type_name (primitive_of self) }
    {
        match self {
            JsonType::Null => "null",
            JsonType::Boolean => "boolean",
            JsonType::Object => "object",
            JsonType::Array => "array",
            JsonType::Number => "number",
            JsonType::String => "string",
            JsonType::Integer => "integer",
        }
    }

    /// The type of a name, if it is one of the seven.
    pub fn from_name(name: &str) -> Option<JsonType>
        ensures some { IfSome result (λ t. name.now ≡ type_name (primitive_of t)) }
        ensures none { IfNone result ((t : JsonType) → name.now ≢ type_name (primitive_of t)) }
    {
        match name {
            "null" => Some(JsonType::Null),
            "boolean" => Some(JsonType::Boolean),
            "object" => Some(JsonType::Object),
            "array" => Some(JsonType::Array),
            "number" => Some(JsonType::Number),
            "string" => Some(JsonType::String),
            "integer" => Some(JsonType::Integer),
            _ => None,
        }
    }
}

/// Whether a value is of a type. Every number is an integer: numbers are read as whole numbers of 64 bits alone.
pub fn has_type(json_type: JsonType, value: &Value) -> bool
    ensures { result ≡ is_of_type (primitive_of json_type) (view value.now) }
{
    match json_type {
        JsonType::Null => value.is_null(),
        JsonType::Boolean => value.is_boolean(),
        JsonType::Object => value.is_object(),
        JsonType::Array => value.is_array(),
        JsonType::Number | JsonType::Integer => value.is_number(),
        JsonType::String => value.is_string(),
    }
}
