// What errors are as JSON objects: the fields of their kinds, and the order of the members.
use crate::rows::assert_text;
use crate::sentences::{at_root, branches, kind_of};
use error_texts::write_refused;
use schema_reports::{ErrorContext, ErrorIterator, ValidationError, ValidationErrorKind as Kind};
use serde_json::Value;
use std::alloc::Global;
use std::process::Abort;

// What every object has.
const COMMON: [&str; 6] = [
    "description",
    "evaluation_path",
    "instance_path",
    "keyword_location",
    "kind",
    "schema_path",
];

// A kind, what it carries, and what its object has beside what every object has.
const FIELDS: [(&str, &str, &str); 26] = [
    ("AdditionalItems", "null", ""),
    (
        "AdditionalProperties",
        r#"["b", "c\""]"#,
        r#" unexpected=["b","c\""]"#,
    ),
    ("Constant", r#"{"a": [2]}"#, r#" expected_value={"a":[2]}"#),
    ("Contains", "null", ""),
    ("Enumeration", r#"["a", null]"#, r#" options=["a",null]"#),
    ("ExclusiveMaximum", "5", " limit=5"),
    ("ExclusiveMinimum", "-5", " limit=-5"),
    ("FalseSchema", "null", ""),
    ("MaxItems", "2", " limit=2"),
    ("Maximum", "6", " limit=6"),
    ("Maximum", "0.5", " limit=0.5"),
    ("MaxLength", "3", " limit=3"),
    ("MaxProperties", "0", " limit=0"),
    ("MinItems", "1", " limit=1"),
    ("Minimum", "-7", " limit=-7"),
    ("MinLength", "4", " limit=4"),
    (
        "MinProperties",
        "18446744073709551615",
        " limit=18446744073709551615",
    ),
    ("MultipleOf", "12", " multiple_of=12"),
    ("Not", r#"{"type": "null"}"#, r#" schema={"type":"null"}"#),
    ("Pattern", r#""^\\S*$""#, r#" pattern="^\\S*$""#),
    (
        "PropertyNames",
        r#""ab""#,
        r#" error={"evaluation_path":"","instance_path":"","kind":"MaxLength","schema_path":""} property="ab""#,
    ),
    ("Required", r#""a/b""#, r#" property="a/b""#),
    ("Types", r#""string""#, r#" names=["string"]"#),
    (
        "Types",
        r#"["string", "null", "array"]"#,
        r#" names=["string","null","array"]"#,
    ),
    ("UniqueItems", "null", ""),
    ("UnfinishedMatch", r#""(?<=ab)c""#, r#" pattern="(?<=ab)c""#),
];

fn written(rt: &impl Abort, alloc: Global, errors: Vec<ValidationError<'_>>) -> String {
    let mut text = String::new(alloc);
    write_refused(alloc, ErrorIterator::of(errors), &mut text).expect(rt, "memory");
    text
}

fn written_of(rt: &impl Abort, alloc: Global, error: ValidationError<'_>) -> String {
    let errors = vec![in alloc; error];
    written(rt, alloc, errors.expect(rt, "memory"))
}

// The members of the one object of a text, but for those that every object has.
fn fields_in(rt: &impl Abort, alloc: Global, text: &str) -> String {
    let value = Value::from_str(alloc, text).expect(rt, "JSON");
    let object = value.pointer("/errors/0").and_then(Value::as_object);
    let mut output = String::new(alloc);
    for (name, field) in object.expect(rt, "an object") {
        if !COMMON.contains(&name.as_str()) {
            write!(output, " {name}={field}").expect(rt, "memory");
        }
    }
    output
}

#[test]
fn kinds_have_fields(rt: HostRuntime) {
    let value = Value::Null;
    for (name, carried, want) in &FIELDS {
        let carried = Value::from_str(rt.alloc(), carried).expect(&rt, "JSON");
        let kind = kind_of(&rt, rt.alloc(), name, &carried);
        let error = at_root(&rt, rt.alloc(), kind, &value);
        let text = written_of(&rt, rt.alloc(), error);
        let found = fields_in(&rt, rt.alloc(), text.as_str());
        assert_text(&rt, name, found, want);
    }
}

// Of branches how many accept, and the errors of each, with nothing of what those carry.
#[test]
fn branches_have_objects(rt: HostRuntime) {
    let value = Value::from_str(rt.alloc(), r#"{"a/b": 1}"#).expect(&rt, "JSON");
    let member = value.get("a/b").expect(&rt, "a member");
    let want =
        r#" accepting=1 context=[[{"evaluation_path":"","instance_path":"/a~1b","kind":"Minimum","schema_path":""},{"evaluation_path":"","instance_path":"","kind":"AnyOf","schema_path":""}],[],[{"evaluation_path":"","instance_path":"","kind":"MaxProperties","schema_path":""}]]"#;
    for name in &["AnyOf", "OneOfMultipleValid", "OneOfNotValid"] {
        let context = ErrorContext::new(branches(&rt, rt.alloc(), &value, member));
        let kind = match *name {
            "AnyOf" => Kind::AnyOf { context },
            "OneOfNotValid" => Kind::OneOfNotValid { context },
            _ => Kind::OneOfMultipleValid { context },
        };
        let text = written_of(&rt, rt.alloc(), at_root(&rt, rt.alloc(), kind, &value));
        let found = fields_in(&rt, rt.alloc(), text.as_str());
        assert_text(&rt, name, found, want);
    }
}

// A kind, what it carries, and the object of its error at `null`: the fields stand among the other members, by their names.
const WHOLE: [(&str, &str, &str); 6] = [
    (
        "AdditionalProperties",
        r#"["b"]"#,
        r#"{"description":"null has members that are not allowed: \"b\"","evaluation_path":"","instance_path":"","keyword_location":null,"kind":"AdditionalProperties","schema_path":"","unexpected":["b"]}"#,
    ),
    (
        "Constant",
        "1",
        r#"{"description":"null differs from the constant 1","evaluation_path":"","expected_value":1,"instance_path":"","keyword_location":null,"kind":"Constant","schema_path":""}"#,
    ),
    (
        "FalseSchema",
        "null",
        r#"{"description":"null is refused by the schema false","evaluation_path":"","instance_path":"","keyword_location":null,"kind":"FalseSchema","schema_path":""}"#,
    ),
    (
        "Maximum",
        "6",
        r#"{"description":"null is above the maximum 6","evaluation_path":"","instance_path":"","keyword_location":null,"kind":"Maximum","limit":6,"schema_path":""}"#,
    ),
    (
        "Not",
        "true",
        r#"{"description":"null is accepted by the schema of not: true","evaluation_path":"","instance_path":"","keyword_location":null,"kind":"Not","schema":true,"schema_path":""}"#,
    ),
    (
        "PropertyNames",
        r#""ab""#,
        r#"{"description":"null has a name that is refused: \"ab\" has more characters than the maximum 1","error":{"evaluation_path":"","instance_path":"","kind":"MaxLength","schema_path":""},"evaluation_path":"","instance_path":"","keyword_location":null,"kind":"PropertyNames","property":"ab","schema_path":""}"#,
    ),
];

#[test]
fn members_are_in_order(rt: HostRuntime) {
    let value = Value::Null;
    for (name, carried, object) in &WHOLE {
        let carried = Value::from_str(rt.alloc(), carried).expect(&rt, "JSON");
        let kind = kind_of(&rt, rt.alloc(), name, &carried);
        let error = at_root(&rt, rt.alloc(), kind, &value);
        let want = format!(in rt.alloc(); "{{\"errors\":[{object}],\"valid\":false}}");
        let found = written_of(&rt, rt.alloc(), error);
        assert_text(&rt, name, found, want.expect(&rt, "memory").as_str());
    }
}

// Each error has its object, in order.
#[test]
fn errors_have_objects(rt: HostRuntime) {
    let value = Value::Null;
    let first = at_root(&rt, rt.alloc(), Kind::MinItems { limit: 1 }, &value);
    let errors = vec![in rt.alloc(); first, at_root(&rt, rt.alloc(), Kind::Contains, &value)];
    let found = written(&rt, rt.alloc(), errors.expect(&rt, "memory"));
    let want =
        r#"{"errors":[{"description":"null has fewer items than the minimum 1","evaluation_path":"","instance_path":"","keyword_location":null,"kind":"MinItems","limit":1,"schema_path":""},{"description":"null has too few or too many items that contains accepts","evaluation_path":"","instance_path":"","keyword_location":null,"kind":"Contains","schema_path":""}],"valid":false}"#;
    assert_text(&rt, "two", found, want);
}
