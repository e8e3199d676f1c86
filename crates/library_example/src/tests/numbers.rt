// `check_json` answers a value of whole numbers of 64 bits as `validate` does, and names the place of the first other number.
use crate::tests::answers::described;
use crate::tests::given::json;
use json_schema_validator::{NumberError, RegexMaker, ValidationError, Validator};
use serde_json::Value;
use std::alloc::Global;
use std::process::Abort;

const SCHEMA: &str = r#"{"properties":{"a":{"items":{"type":"integer"}}}}"#;

fn validator_of(rt: &impl Abort, alloc: Global, schema: &str) -> Validator {
    let schema = Value::from_str(alloc, schema).expect(rt, "JSON");
    Validator::new(alloc, schema, RegexMaker).expect(rt, "a validator")
}

// The fault that is told, or that there is none.
fn told(rt: &impl Abort, alloc: Global, answer: &Result<(), ValidationError<'_>>) -> String {
    match answer {
        Ok(()) => String::from_str(alloc, "valid").expect(rt, "memory"),
        Err(error) => described(rt, alloc, error),
    }
}

// What is told of a value of whole numbers, of which both calls say the same.
fn assert_told(rt: &impl Abort, alloc: Global, validator: &Validator, input: &str, want: &str) {
    let value = json(rt, alloc, input);
    let checked = validator
        .check_json(alloc, &value)
        .expect(rt, "whole numbers");
    assert_eq!(rt; told(rt, alloc, &checked).as_str(), want);
    let first = validator.validate(&value).expect(rt, "memory");
    assert_eq!(rt; told(rt, alloc, &first).as_str(), want);
}

fn refusal(rt: &impl Abort, alloc: Global, validator: &Validator, input: &str) -> NumberError {
    let value = Value::from_str(alloc, input).expect(rt, "JSON");
    match validator.check_json(alloc, &value) {
        Err(error) => error,
        Ok(_answer) => panic!(rt; "no other number in {value}"),
    }
}

fn assert_at(rt: &impl Abort, alloc: Global, validator: &Validator, input: &str, want: &str) {
    match refusal(rt, alloc, validator, input) {
        NumberError::Other { path } => {
            let pointer = path.to_pointer(alloc).expect(rt, "memory");
            assert_eq!(rt; pointer.as_str(), want);
        }
        NumberError::Memory => panic!(rt; "no memory for {input}"),
    }
}

// A value, and what is told of it.
const WHOLE: [(&str, &str); 4] = [
    (r#"{"a":[1,-2]}"#, "valid"),
    (
        r#"{"a":[1,"b"]}"#,
        r#"#/properties/a/items/type #/properties/a/items/type "b" Types"#,
    ),
    ("[18446744073709551615,-9223372036854775808]", "valid"),
    (r#""1.5""#, "valid"),
];

#[test]
fn whole_numbers_are_answered(rt: HostRuntime) {
    let validator = validator_of(&rt, rt.alloc(), SCHEMA);
    for (input, want) in &WHOLE {
        assert_told(&rt, rt.alloc(), &validator, input, want);
    }
}

// A value, and where its first other number stands.
const OTHER: [(&str, &str); 6] = [
    (r#"{"a":[1,1.5,"b",0.5]}"#, "/a/1"),
    (r#"{"a":["b",{"c/d":[-0.5]}]}"#, "/a/1/c~1d/0"),
    ("2.5", ""),
    ("[18446744073709551616]", "/0"),
    ("[[1],[2,-9223372036854775809]]", "/1/1"),
    ("[1,1.5]", "/1"),
];

#[test]
fn other_numbers_are_named(rt: HostRuntime) {
    let validator = validator_of(&rt, rt.alloc(), SCHEMA);
    for (input, want) in &OTHER {
        assert_at(&rt, rt.alloc(), &validator, input, want);
    }
}

#[test]
fn other_numbers_in_words(rt: HostRuntime) {
    let validator = validator_of(&rt, rt.alloc(), SCHEMA);
    let error = refusal(&rt, rt.alloc(), &validator, r#"{"a":[1,1.5]}"#);
    let text = error.to_string(rt.alloc()).expect(&rt, "memory");
    assert_eq!(rt;
        text.as_str(),
        "Number at '/a/1' is no whole number of 64 bits"
    );
}
