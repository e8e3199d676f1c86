// What is asked of a value, and no more: a matcher counts its texts; and values at which references come back.

ghost use Rattle.std.specs.Prelude.{Some, true};

use crate::tests::answers::{assert_agreed, faults};
use crate::tests::given::json;
use json_schema_validator::{MatchAnswer, PatternError, PatternMaker, RegexMaker, Validator};
use schema_patterns::PatternMatcher;
use serde_json::Value;
use std::alloc::Global;
use std::cell::Cell;
use std::process::Abort;

// Matches every text, or none, and counts how often it is asked.
#[derive(Drop)]
struct Counting<'c> {
    asked: &'c Cell<u32>,
    matches: bool,
}

impl PatternMatcher for Counting<'_> {
    ghost finds = { λ m _. Some m.matches };

    fn is_match(&self, _text: &str) -> MatchAnswer {
        self.asked.set(self.asked.get().wrapping_add(1));
        if self.matches {
            MatchAnswer::Yes
        } else {
            MatchAnswer::No
        }
    }
}

impl<'c> PatternMaker for Counting<'c> {
    type Matcher = Counting<'c>;

    ghost patterns = { λ m. record { makes = λ _. true; finished = λ _ _. Some m.matches } };

    fn make(&self, _alloc: Global, _pattern: &str) -> Result<Counting<'c>, PatternError> {
        Ok(Counting {
            asked: self.asked,
            matches: self.matches,
        })
    }
}

// How many matches a verdict asks.
fn asked_by(rt: &impl Abort, alloc: Global, schema: &str, input: &str) -> u32 {
    let asked = Cell::new(0);
    let schema = Value::from_str(alloc, schema).expect(rt, "JSON");
    let maker = Counting {
        asked: &asked,
        matches: true,
    };
    let validator = Validator::new(alloc, schema, maker).expect(rt, "a validator");
    let value = json(rt, alloc, input);
    validator.is_valid(&value).expect(rt, "memory");
    asked.get()
}

// A schema, a value, and how many matches its verdict asks.
const ASKED: [(&str, &str, u32); 11] = [
    (
        r#"{"anyOf":[{"pattern":"a+"},{"pattern":"b+"}]}"#,
        r#""x""#,
        1,
    ),
    (
        r#"{"allOf":[{"pattern":"a+"},{"pattern":"b+"}]}"#,
        r#""x""#,
        2,
    ),
    (
        r#"{"oneOf":[{"pattern":"a+"},{"pattern":"b+"},{"pattern":"c+"}]}"#,
        r#""x""#,
        2,
    ),
    (r#"{"contains":{"pattern":"a+"}}"#, r#"["x","y","z"]"#, 1),
    (
        r#"{"contains":{"pattern":"a+"},"maxContains":2}"#,
        r#"["x","y","z","w"]"#,
        3,
    ),
    (
        r#"{"if":{"pattern":"a+"},"then":{"pattern":"b+"},"else":{"pattern":"c+"}}"#,
        r#""x""#,
        2,
    ),
    (r#"{"items":{"pattern":"a+"}}"#, "[1,2]", 0),
    (
        r#"{"not":{"pattern":"a+"},"items":{"pattern":"b+"}}"#,
        r#""x""#,
        1,
    ),
    (
        r#"{"patternProperties":{"a+":{},"b+":{}},"additionalProperties":false}"#,
        r#"{"x":1,"y":2,"z":3}"#,
        6,
    ),
    (
        r#"{"additionalProperties":{"type":"string"},"properties":{"y":{}},"patternProperties":{"a+":{"minimum":0}}}"#,
        r#"{"x":1,"y":2,"z":3}"#,
        3,
    ),
    (
        r#"{"properties":{"y":{}},"additionalProperties":false}"#,
        r#"{"y":2}"#,
        0,
    ),
];

#[test]
fn no_more_than_decides(rt: HostRuntime) {
    let alloc = rt.alloc();
    for (schema, input, want) in &ASKED {
        let asked = asked_by(&rt, alloc, schema, input);
        assert_eq!(rt; asked, *want, "{schema}");
    }
}

// The faults of a value, where all texts match or none, and how many matches were asked for them.
fn told_by(
    rt: &impl Abort,
    alloc: Global,
    matches: bool,
    schema: &str,
    input: &str,
) -> (String, u32) {
    let asked = Cell::new(0);
    let schema = Value::from_str(alloc, schema).expect(rt, "JSON");
    let maker = Counting {
        asked: &asked,
        matches,
    };
    let validator = Validator::new(alloc, schema, maker).expect(rt, "a validator");
    let value = json(rt, alloc, input);
    let errors = validator.iter_errors(&value).expect(rt, "memory");
    (faults(rt, alloc, errors), asked.get())
}

// Whether each text matches, a schema, a value, its faults, and how many matches are asked for them.
const TOLD: [(bool, &str, &str, &str, u32); 3] = [
    (
        true,
        r#"{"patternProperties":{"a+":{"type":"string"},"b+":{}},"additionalProperties":false}"#,
        r#"{"x":1,"y":"2","z":3}"#,
        "#/x #/patternProperties/a+/type, #/z #/patternProperties/a+/type",
        6,
    ),
    (
        false,
        r#"{"patternProperties":{"a+":{"type":"string"},"b+":{}},"additionalProperties":false}"#,
        r#"{"x":1,"y":"2","z":3}"#,
        "# #/additionalProperties",
        6,
    ),
    (
        false,
        r#"{"additionalProperties":{"type":"string"},"maxProperties":2,"patternProperties":{"a+":{}}}"#,
        r#"{"x":1,"y":"2","z":3}"#,
        "#/x #/additionalProperties/type, #/z #/additionalProperties/type, # #/maxProperties",
        3,
    ),
];

#[test]
fn faults_ask_each_match_once(rt: HostRuntime) {
    let alloc = rt.alloc();
    for (matches, schema, input, want, count) in &TOLD {
        let (found, asked) = told_by(&rt, alloc, *matches, schema, input);
        assert_eq!(rt; found.as_str(), *want, "{schema}");
        assert_eq!(rt; asked, *count, "{schema}");
    }
}

// The faults of a value, on which all observers have to agree.
fn observed(rt: &impl Abort, alloc: Global, schema: &str, input: &str) -> String {
    let schema = Value::from_str(alloc, schema).expect(rt, "JSON");
    let validator = Validator::new(alloc, schema, RegexMaker).expect(rt, "a validator");
    let value = json(rt, alloc, input);
    let text = faults(
        rt,
        alloc,
        validator.iter_errors(&value).expect(rt, "memory"),
    );
    assert_agreed(rt, &validator, &value, text.as_str() == "valid");
    text
}

// Where references come back, the return is accepted.
const CIRCLES: [(&str, &str); 4] = [
    (r##"{"$ref":"#"}"##, "valid"),
    (r##"{"not":{"$ref":"#"}}"##, "valid"),
    (r##"{"anyOf":[{"$ref":"#"},false]}"##, "valid"),
    (
        r##"{"$ref":"#/$defs/a","$defs":{"a":{"$ref":"#/$defs/b","minimum":2},"b":{"$ref":"#/$defs/a","maximum":0}}}"##,
        "# #/$ref/$ref/maximum, # #/$ref/minimum",
    ),
];

#[test]
fn returns_are_accepted(rt: HostRuntime) {
    let alloc = rt.alloc();
    for (schema, want) in &CIRCLES {
        let found = observed(&rt, alloc, schema, "1");
        assert_eq!(rt; found.as_str(), *want, "{schema}");
    }
}
