// The tables of RFC 6901.
use json_pointers::{
    JsonPointerNode, JsonPointerSegment, locate, parse_index, pointer, step, unescape_segment,
    write_escaped_str, write_index,
};
use serde_json::Value;
use std::alloc::Global;
use std::borrow::CowStr;
use std::process::Abort;

// Section 5, the document.
const DOCUMENT: &str =
    r#"{"foo": ["bar", "baz"], "": 0, "a/b": 1, "c%d": 2, "e^f": 3, "g|h": 4, "i\\j": 5, "k\"l": 6, " ": 7, "m~n": 8}"#;

// Section 5: each pointer, and the compact text of its value, or why there is none.
const LEADS: [(&str, &str); 23] = [
    (
        "",
        r#"{"":0," ":7,"a/b":1,"c%d":2,"e^f":3,"foo":["bar","baz"],"g|h":4,"i\\j":5,"k\"l":6,"m~n":8}"#,
    ),
    ("/foo", r#"["bar","baz"]"#),
    ("/foo/0", r#""bar""#),
    ("/", "0"),
    ("/a~1b", "1"),
    ("/c%d", "2"),
    ("/e^f", "3"),
    ("/g|h", "4"),
    (r#"/i\j"#, "5"),
    (r#"/k"l"#, "6"),
    ("/ ", "7"),
    ("/m~0n", "8"),
    ("/bar", "no value there"),
    ("/foo/2", "no value there"),
    ("/foo/0/x", "no value there"),
    ("//", "no value there"),
    ("/m~n/0", "no value there"),
    ("/foo/18446744073709551616", "no value there"),
    ("/foo/01", "`01` is no array index"),
    ("/foo/-", "`-` is no array index"),
    ("/foo/", "`` is no array index"),
    ("/foo/~00/x", "`~00` is no array index"),
    ("foo", "not a JSON pointer"),
];

// Each text, and the index that it is, if any.
const INDEXES: [(&str, Option<usize>); 12] = [
    ("0", Some(0)),
    ("1", Some(1)),
    ("18446744073709551615", Some(18446744073709551615)),
    ("", None),
    ("01", None),
    ("00", None),
    ("-", None),
    ("-1", None),
    ("+1", None),
    (" 1", None),
    ("1a", None),
    ("18446744073709551616", None),
];

// A text, and how it is written as a part.
const ESCAPES: [(&str, &str); 6] = [
    ("", ""),
    ("plain", "plain"),
    ("a/b", "a~1b"),
    ("m~n", "m~0n"),
    ("~1", "~01"),
    ("/~/", "~1~0~1"),
];

// A text that a part stands for, and the part.
const UNESCAPES: [(&str, &str); 4] = [("~/", "~~1"), ("~2", "~2"), ("a~", "a~"), ("/0", "~10")];

// What a pointer leads to, or why it leads nowhere.
fn told(rt: &impl Abort, alloc: Global, document: &Value, text: &str) -> String {
    match (pointer(document, text), locate(document, text)) {
        (Some(value), Ok(_)) => value.to_string(alloc).expect(rt, "memory"),
        (None, Err(error)) => format!(in alloc; "{error}").expect(rt, "memory"),
        _ => String::new(alloc),
    }
}

pub(crate) fn assert_text(rt: &impl Abort, row: &str, found: String, want: &str) {
    assert!(rt; found.as_str() == want, "{row}: {found}");
}

#[test]
fn pointers_lead(rt: HostRuntime) {
    let document = Value::from_str(rt.alloc(), DOCUMENT).expect(&rt, "JSON");
    for (text, want) in &LEADS {
        let found = told(&rt, rt.alloc(), &document, text);
        assert_text(&rt, text, found, want);
    }
}

#[test]
fn indexes(rt: HostRuntime) {
    for (text, want) in &INDEXES {
        assert!(rt; parse_index(text) == *want, "{text}");
    }
}

#[test]
fn digits(rt: HostRuntime) {
    let mut digits = String::new(rt.alloc());
    write_index(&mut digits, 0).expect(&rt, "memory");
    write_index(&mut digits, 18446744073709551615).expect(&rt, "memory");
    assert_text(&rt, "digits", digits, "018446744073709551615");
}

// A part behind a slash that is there.
fn assert_escaped(rt: &impl Abort, alloc: Global, text: &str, want: &str) {
    let mut buffer = String::from_str(alloc, "/").expect(rt, "memory");
    write_escaped_str(&mut buffer, text).expect(rt, "memory");
    assert!(rt; buffer.as_str().strip_prefix('/') == Some(want), "{text}");
}

fn unescaped<'t>(rt: &impl Abort, alloc: Global, part: &'t str) -> CowStr<'t> {
    unescape_segment(alloc, part).expect(rt, "memory")
}

// A part without a `~` is lent.
fn assert_unescaped(rt: &impl Abort, part: &str, found: CowStr<'_>, want: &str) {
    assert!(rt; found.as_str() == want, "{part}");
    assert!(rt;
        matches!(found, CowStr::Borrowed(_)) != part.contains('~'),
        "{part}"
    );
}

#[test]
fn escapes(rt: HostRuntime) {
    for (text, part) in &ESCAPES {
        assert_escaped(&rt, rt.alloc(), text, part);
        assert_unescaped(&rt, part, unescaped(&rt, rt.alloc(), part), text);
    }
    for (text, part) in &UNESCAPES {
        assert_unescaped(&rt, part, unescaped(&rt, rt.alloc(), part), text);
    }
}

fn assert_item(rt: &impl Abort, alloc: Global, item: &JsonPointerNode<'_, '_>) {
    let mut text = String::from_str(alloc, "#").expect(rt, "memory");
    item.write_to(&mut text).expect(rt, "memory");
    assert_text(rt, "item", text, "#/a~1b/0");
    assert!(rt; matches!(item.segment(), JsonPointerSegment::Index(0)));
    assert!(rt; item.parent().is_some());
}

fn assert_pointer(rt: &impl Abort, alloc: Global, member: &JsonPointerNode<'_, '_>) {
    let text = member.to_pointer(alloc).expect(rt, "memory");
    assert_text(rt, "member", text, "/a~1b/0/m~0n");
}

fn assert_found(
    rt: &impl Abort,
    alloc: Global,
    document: &Value,
    member: &JsonPointerNode<'_, '_>,
) {
    let found = member.find_in(document).expect(rt, "a value");
    assert!(rt; found.as_bool() == Some(true));
    let found = member.find_by_text(alloc, document).expect(rt, "memory");
    assert!(rt; found.expect(rt, "a value").as_bool() == Some(true));
}

fn owned<'t>(rt: &impl Abort, alloc: Global, text: &str) -> CowStr<'t> {
    CowStr::Owned(String::from_str(alloc, text).expect(rt, "memory"))
}

fn assert_member(rt: &impl Abort, alloc: Global, document: &Value, item: &JsonPointerNode<'_, '_>) {
    let member = item.push("m~n");
    assert_found(rt, alloc, document, &member);
    assert_none_below(rt, alloc, document, &member);
}

fn assert_none_below(
    rt: &impl Abort,
    alloc: Global,
    document: &Value,
    member: &JsonPointerNode<'_, '_>,
) {
    let below = member.push(owned(rt, alloc, "x"));
    assert!(rt; below.find_in(document).is_none());
}

fn assert_named<'a>(
    rt: &impl Abort,
    alloc: Global,
    item: &JsonPointerNode<'a, '_>,
    name: &'a String,
) {
    let named = item.push(name);
    assert_pointer(rt, alloc, &named);
}

fn assert_below<'a>(
    rt: &impl Abort,
    alloc: Global,
    document: &Value,
    object: &JsonPointerNode<'a, '_>,
    name: &'a String,
) {
    let item = object.push(0);
    assert_item(rt, alloc, &item);
    assert_member(rt, alloc, document, &item);
    assert_named(rt, alloc, &item, name);
}

fn assert_paths(rt: &impl Abort, alloc: Global, document: &Value, name: &String) {
    let root = JsonPointerNode::new();
    let object = root.push("a/b");
    assert_below(rt, alloc, document, &object, name);
}

#[test]
fn paths(rt: HostRuntime) {
    let document = Value::from_str(rt.alloc(), r#"{"a/b": [{"m~n": true}]}"#).expect(&rt, "JSON");
    let name = String::from_str(rt.alloc(), "m~n").expect(&rt, "memory");
    assert_paths(&rt, rt.alloc(), &document, &name);
    assert!(rt; matches!(step(&document, "a~1b"), Ok(Value::Array(_))));
    assert!(rt; JsonPointerNode::default().parent().is_none());
}
