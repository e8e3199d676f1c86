// Values compared, types, whole numbers, texts, and patterns that have a literal form.
use crate::rows::assert_answer;
use serde_json::Value;
use std::alloc::Global;
use std::process::Abort;
use value_checks::equality::equal;
use value_checks::json_types::{JsonType, has_type};
use value_checks::numbers::{is_multiple, whole};
use value_checks::patterns::analyze_pattern;
use value_checks::texts::{code_points, has_no_space, is_ecma_space};

// Two values, and whether they are equal.
const COMPARED: &str = r#"[
    [{"a": 1, "b": 2}, {"b": 2, "a": 1}, true],
    [{"a": 1, "b": 2}, {"a": 1, "b": 3}, false],
    [{"a": 1}, {"a": 1, "b": 2}, false],
    [{"a": 1}, {"b": 1}, false],
    [[1, 2], [2, 1], false],
    [[1, [2, {}]], [1, [2, {}]], true],
    [1, true, false],
    [-1, -1, true],
    ["\u00e9", "é", true],
    [18446744073709551615, 18446744073709551614, false],
    [null, false, false]
]"#;

fn read(rt: &impl Abort, alloc: Global, text: &str) -> Value {
    Value::from_str(alloc, text).expect(rt, "a JSON text")
}

fn assert_compared(rt: &impl Abort, rows: &Value) {
    for row in rows.as_array().expect(rt, "rows") {
        let [one, other, want] = row.as_array().expect(rt, "a row").as_slice() else {
            panic!(rt; "{row}")
        };
        assert!(rt; want.as_bool() == Some(equal(one, other)), "{row}");
    }
}

#[test]
fn compares_values(rt: HostRuntime) {
    assert_compared(&rt, &read(&rt, rt.alloc(), COMPARED));
}

// Whether a value is of each type, and the whole number that it is.
fn assert_number(rt: &impl Abort, value: &Value, types: &[(&str, bool)], number: Option<i128>) {
    for (name, want) in types {
        let json_type = JsonType::from_name(name).expect(rt, "a type");
        assert_answer(rt, name, json_type.as_str() == *name, true);
        assert_answer(rt, name, has_type(json_type, value), *want);
    }
    assert!(rt; whole(value) == number, "{value}");
}

#[test]
fn reads_numbers(rt: HostRuntime) {
    let types = [("integer", true), ("number", true), ("string", false)];
    let three = read(&rt, rt.alloc(), "3");
    assert_number(&rt, &three, &types, Some(3));
    let least = read(&rt, rt.alloc(), "-9223372036854775808");
    assert_number(&rt, &least, &types, Some(-9223372036854775808));
    let half = read(&rt, rt.alloc(), "1.5");
    assert_number(&rt, &half, &[], None);
}

#[test]
fn answers_without_values(rt: HostRuntime) {
    assert!(rt; JsonType::from_name("float").is_none());
    assert!(rt; is_multiple(3, -9));
    assert!(rt; !is_multiple(3, 4));
    assert!(rt; is_multiple(7, 0));
    assert_eq!(rt; code_points("\u{e9}\u{1f600}"), 2);
    assert!(rt; !has_no_space("a\u{feff}b"));
    assert!(rt; has_no_space("a\u{85}b"));
    assert!(rt; is_ecma_space('\u{2003}'));
    assert!(rt; !is_ecma_space('\u{200b}'));
}

// Whether a text matches a pattern that has a literal form.
const MATCHED: [(&str, &str, Option<bool>); 12] = [
    ("^x-", "x-id", Some(true)),
    ("^x-", "ax-", Some(false)),
    (r"^\$ref$", "$ref", Some(true)),
    (r"^\$ref$", "$refs", Some(false)),
    ("^(a|b)$", "b", Some(true)),
    ("^(a|b)$", "ab", Some(false)),
    (r"^\S*$", "a\u{feff}b", Some(false)),
    (r"^\S*$", "", Some(true)),
    ("^foo|bar", "foo", None),
    ("^(a)$", "a", None),
    ("^$", "", None),
    ("^a.c$", "abc", None),
];

fn matched(rt: &impl Abort, alloc: Global, pattern: &str, text: &str) -> Option<bool> {
    let form = analyze_pattern(alloc, pattern).expect(rt, "memory")?;
    Some(form.is_match(text))
}

#[test]
fn reads_patterns(rt: HostRuntime) {
    for (pattern, text, want) in &MATCHED {
        let found = matched(&rt, rt.alloc(), pattern, text);
        assert!(rt; found == *want, "{pattern} at {text}");
    }
}
