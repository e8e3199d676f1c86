// How keywords that only assert are read, and what is wrong with values that they are asked of.
use crate::asserted_rows::{cut, json};
use assertions::assertion::Assertion;
use assertions::reading::{Reading, read};
use schema_drafts::draft::Draft;
use schema_patterns::matches::Matches;
use schema_patterns::pattern::accepts_text;
use serde_json::Value;
use std::alloc::Global;
use std::process::Abort;

// How many things are wrong with a value, or what was expected of the keyword.
const READ: &str = r#"
wrong :: type :: "integer" :: 3 :: 0
wrong :: type :: ["string","null"] :: 3 :: 1
wrong :: enum :: [] :: 1 :: 1
wrong :: enum :: [6,"foo",[],true,{"foo":12}] :: {"foo":12} :: 0
wrong :: enum :: [6,"foo",[],true,{"foo":12}] :: {"foo":false} :: 1
wrong :: const :: {"foo":"bar","baz":"bax"} :: {"baz":"bax","foo":"bar"} :: 0
wrong :: const :: false :: 0 :: 1
wrong :: multipleOf :: 2 :: -10 :: 0
wrong :: multipleOf :: 2 :: -7 :: 1
wrong :: multipleOf :: 2 :: "x" :: 0
wrong :: maximum :: 3 :: 3 :: 0
wrong :: exclusiveMaximum :: 3 :: 3 :: 1
wrong :: minimum :: -9223372036854775808 :: -9223372036854775808 :: 0
wrong :: exclusiveMinimum :: 18446744073709551614 :: 18446744073709551615 :: 0
wrong :: maxLength :: 2 :: "😀😀" :: 0
wrong :: minLength :: 2 :: "😀" :: 1
wrong :: maxItems :: 2 :: [1,2,3] :: 1
wrong :: minItems :: 1 :: {} :: 0
wrong :: uniqueItems :: true :: [{"a":1,"b":2},{"b":2,"a":1}] :: 1
wrong :: uniqueItems :: true :: [1,true] :: 0
read :: uniqueItems :: false :: nothing
wrong :: minProperties :: 1 :: {} :: 1
wrong :: maxProperties :: 1 :: {"a":1,"b":2} :: 1
wrong :: required :: ["a","b","c"] :: {"b":1} :: 2
wrong :: required :: ["a"] :: [] :: 0
read :: required :: [] :: nothing
wrong :: dependentRequired :: {"a":["b","c"],"d":["e"]} :: {"a":1,"c":2} :: 1
wrong :: dependentRequired :: {"a":["b"]} :: {"b":1} :: 0
read :: type :: "float" :: type name
read :: enum :: 1 :: list
read :: multipleOf :: 0 :: positive number
read :: maximum :: true :: number
read :: minLength :: -1 :: count
read :: uniqueItems :: 1 :: boolean
read :: required :: ["a","a"] :: unique names
read :: required :: ["a",1] :: unique names
read :: dependentRequired :: [] :: object
read :: dependentRequired :: {"a":["b"],"c":{}} :: list at c
read :: dependentRequired :: {"a":["b","b"]} :: unique names at a
read :: dependentRequired :: {"a":["b",2]} :: unique names
read :: properties :: {} :: left
"#;

const READ_IN_DRAFT_4: &str = r#"
wrong :: maximum :: 3 :: 3 :: 0
read :: exclusiveMaximum :: true :: nothing
"#;

// The same where `true` stands beside, which makes a limit strict in Draft 4 alone.
const READ_BESIDE: &str = r#"
wrong :: type :: "null" :: 3 :: 1
wrong :: enum :: [1,"a"] :: 3 :: 1
wrong :: const :: {"a":1} :: {} :: 1
wrong :: multipleOf :: 2 :: -3 :: 1
wrong :: maximum :: -3 :: -2 :: 1
wrong :: maximum :: 3 :: 3 :: 0
wrong :: exclusiveMaximum :: 3 :: 3 :: 1
wrong :: minimum :: 18446744073709551615 :: 0 :: 1
wrong :: exclusiveMinimum :: 3 :: 3 :: 1
wrong :: maxLength :: 1 :: "ab" :: 1
wrong :: minLength :: 1 :: "" :: 1
wrong :: maxItems :: 0 :: [1] :: 1
wrong :: minItems :: 2 :: [1] :: 1
wrong :: uniqueItems :: true :: [1,1] :: 1
wrong :: maxProperties :: 0 :: {"a":1} :: 1
wrong :: minProperties :: 1 :: {} :: 1
wrong :: required :: ["a"] :: {} :: 1
wrong :: dependentRequired :: {"a":["b"]} :: {"a":1} :: 1
wrong :: required :: ["a","b","c"] :: [] :: 0
"#;

const READ_BESIDE_IN_DRAFT_4: &str = r#"
wrong :: maximum :: 3 :: 3 :: 1
wrong :: maximum :: 3 :: 2 :: 0
"#;

// A pattern, a value, and whether it is accepted where no matches were read: those of literal forms need none.
const TEXTS: &str = r#"
"^a" :: "ba" :: false
"^a" :: "ab" :: true
"^a" :: 12 :: true
"^a" :: ["b"] :: true
"^\\S*$" :: "a b" :: false
"a.c" :: "abc" :: false
"#;

fn is_at(want: &str, expected: &str, name: &str) -> bool {
    match want.split_once(" at ") {
        Some((what, at)) => what == expected && at == name,
        None => false,
    }
}

fn is_read_as(reading: Option<&Reading<'_>>, want: &str) -> bool {
    match reading {
        Some(Reading::Value { expected }) => *expected == want,
        Some(Reading::Entry { name, expected }) => is_at(want, *expected, *name),
        Some(Reading::Nothing) => want == "nothing",
        Some(Reading::Read(_)) => false,
        None => want == "left",
    }
}

fn are_wrong(
    rt: &impl Abort,
    alloc: Global,
    assertion: &Assertion<'_>,
    value: &Value,
    want: usize,
) -> bool {
    let accepts = assertion.accept(alloc, value).expect(rt, "memory");
    let wrong = assertion.wrong(alloc, value).expect(rt, "memory");
    accepts == (want == 0) && wrong.len() == want
}

// Whether the rest of a row, which is a value and the answer or the answer alone, is what is found for it.
fn is_answer(
    rt: &impl Abort,
    alloc: Global,
    question: &str,
    reading: Option<&Reading<'_>>,
    rest: &str,
) -> bool {
    if question == "read" {
        return is_read_as(reading, rest);
    }
    let assertion = match reading {
        Some(Reading::Read(assertion)) => Some(assertion),
        _ => None,
    };
    let (value, want) = cut(rt, rest);
    let value = json(rt, alloc, value);
    let assertion = assertion.expect(rt, "an assertion");
    are_wrong(rt, alloc, assertion, &value, want.parse().expect(rt, want))
}

fn reading<'s>(
    rt: &impl Abort,
    alloc: Global,
    draft: Draft,
    name: &str,
    keyword: &'s Value,
    beside: Option<&Value>,
) -> Option<Reading<'s>> {
    read(alloc, draft, name, keyword, beside).expect(rt, "memory")
}

fn assert_row(rt: &impl Abort, alloc: Global, draft: Draft, beside: Option<&Value>, row: &str) {
    let (question, rest) = cut(rt, row);
    let (name, rest) = cut(rt, rest);
    let (keyword, rest) = cut(rt, rest);
    let keyword = json(rt, alloc, keyword);
    let reading = reading(rt, alloc, draft, name, &keyword, beside);
    let is_found = is_answer(rt, alloc, question, reading.as_ref(), rest);
    assert!(rt; is_found, "{row}");
}

fn assert_rows(rt: &impl Abort, alloc: Global, draft: Draft, beside: Option<&Value>, rows: &str) {
    for row in rows.trim().lines() {
        assert_row(rt, alloc, draft, beside, row);
    }
}

#[test]
fn keywords_alone(rt: HostRuntime) {
    assert_rows(&rt, rt.alloc(), Draft::Draft202012, None, READ);
    assert_rows(&rt, rt.alloc(), Draft::Draft4, None, READ_IN_DRAFT_4);
}

#[test]
fn keywords_beside_a_strict_limit(rt: HostRuntime) {
    let strict = Some(&Value::Bool(true));
    assert_rows(&rt, rt.alloc(), Draft::Draft202012, strict, READ_BESIDE);
    assert_rows(
        &rt,
        rt.alloc(),
        Draft::Draft4,
        strict,
        READ_BESIDE_IN_DRAFT_4,
    );
}

fn assert_text(rt: &impl Abort, alloc: Global, row: &str) {
    let (pattern, rest) = cut(rt, row);
    let (value, want) = cut(rt, rest);
    let pattern = json(rt, alloc, pattern);
    let pattern = pattern.as_str().expect(rt, "a pattern");
    let value = json(rt, alloc, value);
    let matches = Matches::none(alloc);
    let accepts = accepts_text(alloc, &matches, pattern, &value).expect(rt, "memory");
    assert!(rt; accepts == (want == "true"), "{row}");
}

#[test]
fn patterns_without_matches(rt: HostRuntime) {
    for row in TEXTS.trim().lines() {
        assert_text(&rt, rt.alloc(), row);
    }
}
