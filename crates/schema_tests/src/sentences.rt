// What errors say in a sentence.
use crate::rows::assert_text;
use assertions::read;
use schema_reports::{ErrorContext, ValidationError, ValidationErrorKind as Kind};
use schema_steps::Path;
use serde_json::Value;
use std::alloc::Global;
use std::process::Abort;

// A kind, the value that is refused, what the kind carries, and the sentence.
const SENTENCES: [(&str, &str, &str, &str); 25] = [
    (
        "AdditionalItems",
        "[1,2]",
        "null",
        "[1,2] has an item that is not allowed",
    ),
    (
        "AdditionalProperties",
        r#"{"a":1,"b":2,"c\"":3}"#,
        r#"["b", "c\""]"#,
        r#"{"a":1,"b":2,"c\"":3} has members that are not allowed: "b", "c\"""#,
    ),
    (
        "Constant",
        "1",
        r#"{"a": [2]}"#,
        r#"1 differs from the constant {"a":[2]}"#,
    ),
    (
        "Contains",
        "[]",
        "null",
        "[] has too few or too many items that contains accepts",
    ),
    (
        "Enumeration",
        r#""x""#,
        r#"["a", null]"#,
        r#""x" is none of the values ["a",null]"#,
    ),
    (
        "ExclusiveMaximum",
        "5",
        "5",
        "5 is not below the exclusive maximum 5",
    ),
    (
        "ExclusiveMinimum",
        "-5",
        "-5",
        "-5 is not above the exclusive minimum -5",
    ),
    (
        "FalseSchema",
        "true",
        "null",
        "true is refused by the schema false",
    ),
    (
        "MaxItems",
        "[1,2,3]",
        "2",
        "[1,2,3] has more items than the maximum 2",
    ),
    ("Maximum", "7", "6", "7 is above the maximum 6"),
    (
        "MaxLength",
        r#""abc""#,
        "2",
        r#""abc" has more characters than the maximum 2"#,
    ),
    (
        "MaxProperties",
        r#"{"a":1}"#,
        "0",
        r#"{"a":1} has more members than the maximum 0"#,
    ),
    (
        "MinItems",
        "[]",
        "1",
        "[] has fewer items than the minimum 1",
    ),
    ("Minimum", "-3", "0", "-3 is below the minimum 0"),
    (
        "MinLength",
        r#""""#,
        "1",
        r#""" has fewer characters than the minimum 1"#,
    ),
    (
        "MinProperties",
        "{}",
        "18446744073709551615",
        "{} has fewer members than the minimum 18446744073709551615",
    ),
    ("MultipleOf", "7", "2", "7 is not a multiple of 2"),
    (
        "Not",
        "null",
        r#"{"type": "null"}"#,
        r#"null is accepted by the schema of not: {"type":"null"}"#,
    ),
    (
        "Pattern",
        r#""a b""#,
        r#""^\\S*$""#,
        r#""a b" does not match the pattern "^\\S*$""#,
    ),
    (
        "PropertyNames",
        r#"{"ab":1}"#,
        r#""ab""#,
        r#"{"ab":1} has a name that is refused: "ab" has more characters than the maximum 1"#,
    ),
    (
        "Required",
        "{}",
        r#""a/b""#,
        r#"{} has no member of the required name "a/b""#,
    ),
    ("Types", "1", r#""string""#, "1 is not of type string"),
    (
        "Types",
        "1",
        r#"["string", "null", "array"]"#,
        "1 is not of type string or null or array",
    ),
    (
        "UniqueItems",
        "[1,1]",
        "null",
        "[1,1] has items that are equal",
    ),
    (
        "UnfinishedMatch",
        r#""abc""#,
        r#""(?<=ab)c""#,
        r#""abc" goes by a match that stays unfinished, of the pattern "(?<=ab)c""#,
    ),
];

fn text_of(rt: &impl Abort, alloc: Global, value: &Value) -> String {
    let text = value.as_str().expect(rt, "a text");
    String::from_str(alloc, text).expect(rt, "memory")
}

fn texts_of(rt: &impl Abort, alloc: Global, value: &Value) -> Vec<String> {
    let mut texts = Vec::new(alloc);
    for text in value.as_array().expect(rt, "a list") {
        texts.push(text_of(rt, alloc, text)).expect(rt, "memory");
    }
    texts
}

pub(crate) fn at_root<'v>(
    rt: &impl Abort,
    alloc: Global,
    kind: Kind<'v>,
    value: &'v Value,
) -> ValidationError<'v> {
    ValidationError::new(alloc, kind, value, Path::root(), Path::root(), Path::root()).expect(
        rt, "memory",
    )
}

// A kind that carries a value, or nothing.
fn kind_of_value<'v>(name: &str, limit: Value) -> Kind<'v> {
    match name {
        "AdditionalItems" => Kind::AdditionalItems,
        "Constant" => Kind::Constant {
            expected_value: limit,
        },
        "Contains" => Kind::Contains,
        "Enumeration" => Kind::Enumeration { options: limit },
        "ExclusiveMaximum" => Kind::ExclusiveMaximum { limit },
        "ExclusiveMinimum" => Kind::ExclusiveMinimum { limit },
        "Maximum" => Kind::Maximum { limit },
        "Minimum" => Kind::Minimum { limit },
        "MultipleOf" => Kind::MultipleOf { multiple_of: limit },
        "Not" => Kind::Not { schema: limit },
        "UniqueItems" => Kind::UniqueItems,
        _ => Kind::FalseSchema,
    }
}

pub(crate) fn kind_of<'v>(
    rt: &impl Abort,
    alloc: Global,
    name: &str,
    carried: &'v Value,
) -> Kind<'v> {
    let limit = carried.as_u64().unwrap_or(0);
    match name {
        "AdditionalProperties" => Kind::AdditionalProperties {
            unexpected: texts_of(rt, alloc, carried),
        },
        "MaxItems" => Kind::MaxItems { limit },
        "MaxLength" => Kind::MaxLength { limit },
        "MaxProperties" => Kind::MaxProperties { limit },
        "MinItems" => Kind::MinItems { limit },
        "MinLength" => Kind::MinLength { limit },
        "MinProperties" => Kind::MinProperties { limit },
        "Pattern" => Kind::Pattern {
            pattern: text_of(rt, alloc, carried),
        },
        "PropertyNames" => {
            let error = at_root(rt, alloc, Kind::MaxLength { limit: 1 }, carried);
            Kind::PropertyNames {
                error: Box::new(alloc, error).expect(rt, "memory"),
            }
        }
        "Required" => Kind::Required {
            property: text_of(rt, alloc, carried),
        },
        "UnfinishedMatch" => Kind::UnfinishedMatch {
            pattern: text_of(rt, alloc, carried),
        },
        "Types" => Kind::Types {
            names: read(alloc, carried)
                .expect(rt, "memory")
                .expect(rt, "names"),
        },
        _ => kind_of_value(name, carried.clone().expect(rt, "memory")),
    }
}

#[test]
fn kinds_have_sentences(rt: HostRuntime) {
    for (name, value, carried, want) in &SENTENCES {
        let value = Value::from_str(rt.alloc(), value).expect(&rt, "JSON");
        let carried = Value::from_str(rt.alloc(), carried).expect(&rt, "JSON");
        let kind = kind_of(&rt, rt.alloc(), name, &carried);
        assert_text(
            &rt,
            "the kind",
            kind.to_string(rt.alloc()).expect(&rt, "memory"),
            name,
        );
        let error = at_root(&rt, rt.alloc(), kind, &value);
        let found = error.description(rt.alloc()).expect(&rt, "memory");
        assert_text(&rt, name, found, want);
    }
}

// The errors of three branches, of which the second accepts: two in the first, of a member and of a branch of its own, and one in the last.
pub(crate) fn branches<'v>(
    rt: &impl Abort,
    alloc: Global,
    value: &'v Value,
    member: &'v Value,
) -> Vec<Vec<ValidationError<'v>>> {
    let at = Path::root().push_name(alloc, "a/b").expect(rt, "memory");
    let kind = Kind::Minimum {
        limit: Value::from(2u64),
    };
    let low = ValidationError::new(alloc, kind, member, at, Path::root(), Path::root());
    let mut inner = Vec::new(alloc);
    let none = vec![in alloc; at_root(rt, alloc, Kind::FalseSchema, value)];
    inner.push(none.expect(rt, "memory")).expect(rt, "memory");
    let context = ErrorContext::new(inner);
    let nested = at_root(rt, alloc, Kind::AnyOf { context }, value);
    let first = vec![in alloc; low.expect(rt, "memory"), nested];
    let last = vec![in alloc; at_root(rt, alloc, Kind::MaxProperties { limit: 0 }, value)];
    let mut all = Vec::new(alloc);
    all.push(first.expect(rt, "memory")).expect(rt, "memory");
    all.push(Vec::new(alloc)).expect(rt, "memory");
    all.push(last.expect(rt, "memory")).expect(rt, "memory");
    all
}

const BRANCHES: [(&str, &str); 3] = [
    (
        "AnyOf",
        r#"{"a/b":1} is to be accepted by a schema of anyOf, and is by 1 of 3
  anyOf/0: /a~1b: 1 is below the minimum 2
  anyOf/0: {"a/b":1} is to be accepted by a schema of anyOf, and is by 0 of 1
  anyOf/1: it is accepted
  anyOf/2: {"a/b":1} has more members than the maximum 0"#,
    ),
    (
        "OneOfMultipleValid",
        r#"{"a/b":1} is to be accepted by exactly one schema of oneOf, and is by 1 of 3
  oneOf/0: /a~1b: 1 is below the minimum 2
  oneOf/0: {"a/b":1} is to be accepted by a schema of anyOf, and is by 0 of 1
  oneOf/1: it is accepted
  oneOf/2: {"a/b":1} has more members than the maximum 0"#,
    ),
    (
        "OneOfNotValid",
        r#"{"a/b":1} is to be accepted by exactly one schema of oneOf, and is by 1 of 3
  oneOf/0: /a~1b: 1 is below the minimum 2
  oneOf/0: {"a/b":1} is to be accepted by a schema of anyOf, and is by 0 of 1
  oneOf/1: it is accepted
  oneOf/2: {"a/b":1} has more members than the maximum 0"#,
    ),
];

// A line for each error of a branch, and one for a branch that accepts. A branch of a branch has its sentence alone.
#[test]
fn branches_have_lines(rt: HostRuntime) {
    let value = Value::from_str(rt.alloc(), r#"{"a/b": 1}"#).expect(&rt, "JSON");
    let member = value.get("a/b").expect(&rt, "a member");
    for (name, want) in &BRANCHES {
        let context = ErrorContext::new(branches(&rt, rt.alloc(), &value, member));
        let kind = match *name {
            "AnyOf" => Kind::AnyOf { context },
            "OneOfNotValid" => Kind::OneOfNotValid { context },
            _ => Kind::OneOfMultipleValid { context },
        };
        let error = at_root(&rt, rt.alloc(), kind, &value);
        let found = error.description(rt.alloc()).expect(&rt, "memory");
        assert_text(&rt, name, found, want);
    }
}

// Sixty code points of a text are shown, however many bytes they are, and all of it where there are no more.
#[test]
fn long_values_are_cut(rt: HostRuntime) {
    let fits = "\u{e9}".repeat(rt.alloc(), 58).expect(&rt, "memory");
    let value = Value::String(fits.clone().expect(&rt, "memory"));
    let error = at_root(&rt, rt.alloc(), Kind::FalseSchema, &value);
    let found = error.description(rt.alloc()).expect(&rt, "memory");
    let want = format!(in rt.alloc(); "\"{fits}\" is refused by the schema false");
    assert_text(&rt, "60", found, want.expect(&rt, "memory").as_str());
    let long = "\u{e9}".repeat(rt.alloc(), 59).expect(&rt, "memory");
    let value = Value::String(long.clone().expect(&rt, "memory"));
    let error = at_root(&rt, rt.alloc(), Kind::FalseSchema, &value);
    let found = error.description(rt.alloc()).expect(&rt, "memory");
    let want = format!(in rt.alloc(); "\"{long}... is refused by the schema false");
    assert_text(&rt, "61", found, want.expect(&rt, "memory").as_str());
}

// A number with a fraction is shown as it is written.
#[test]
fn fractions_are_shown(rt: HostRuntime) {
    let value = Value::from_str(rt.alloc(), "1.5").expect(&rt, "JSON");
    let error = at_root(&rt, rt.alloc(), Kind::UniqueItems, &value);
    let found = error.description(rt.alloc()).expect(&rt, "memory");
    assert_text(&rt, "1.5", found, "1.5 has items that are equal");
}
