// A checker answers one value after the other as its validator does, by searches that it keeps (Validation 6.3.3; Core 10.3.2.2).

ghost use Rattle.std.specs.Prelude.{◌≡◌, true};
ghost use Rattle.serde_json.specs.View.{view};
ghost use Rattle.json_schema_validator.specs.Numbers.{only_whole};

use crate::tests::answers::faults;
use crate::tests::given::json;
use json_schema_validator::{Checker, RegexMaker, Validator};
use serde_json::Value;
use std::alloc::Global;
use std::process::Abort;

// Holds what a checker says of a value against the faults that are wanted.
fn assert_kept(
    rt: &impl Abort,
    alloc: Global,
    checker: &mut Checker<'_>,
    value: &Value,
    wanted: &str,
)
    requires whole { only_whole (view value.now) ≡ true }
{
    let is_valid = checker.is_valid(value).expect(rt, "memory");
    assert!(rt; is_valid == (wanted == "valid"), "the verdict on {value}");
    let errors = checker.iter_errors(value).expect(rt, "memory");
    let told = faults(rt, alloc, errors);
    assert_eq!(rt; told.as_str(), wanted, "the faults of {value}");
}

fn assert_answers(rt: &impl Abort, alloc: Global, schema: &str, rows: &[(&str, &str)]) {
    let schema = Value::from_str(alloc, schema).expect(rt, "JSON");
    let validator = Validator::new(alloc, schema, RegexMaker).expect(rt, "a validator");
    let mut checker = validator.checker(alloc).expect(rt, "memory");
    for (input, wanted) in rows {
        let value = json(rt, alloc, input);
        assert_kept(rt, alloc, &mut checker, &value, wanted);
    }
}

const RECORD: &str =
    r#"{"properties":{"code":{"pattern":"^[A-Z]{3}-[0-9]{4,6}$"},"mail":{"pattern":"^[a-z]+@[a-z]+[.]org$"},"kind":{"pattern":"^k"}},"patternProperties":{"^x-[a-z]$":{"type":"integer"}}}"#;

const RECORDS: [(&str, &str); 8] = [
    (r#"{"code":"ABC-1234"}"#, "valid"),
    (r#"{"code":"abc-1234"}"#, "#/code #/properties/code/pattern"),
    (r#"{"code":"ABC-123456","mail":"a@b.org"}"#, "valid"),
    (
        r#"{"code":"ABC-123","mail":"a@b.com","x-a":"t"}"#,
        "#/x-a #/patternProperties/^x-[a-z]$/type, #/code #/properties/code/pattern, #/mail #/properties/mail/pattern",
    ),
    (r#"{"x-a":1,"x-ab":"t","kind":"k1"}"#, "valid"),
    (r#"{"kind":"1k"}"#, "#/kind #/properties/kind/pattern"),
    (r#"{"code":7,"mail":null}"#, "valid"),
    (r#"{"code":"ABC-1234","mail":"a@b.org"}"#, "valid"),
];

#[test]
fn values_are_answered_in_turn(rt: HostRuntime) {
    assert_answers(&rt, rt.alloc(), RECORD, &RECORDS);
}
