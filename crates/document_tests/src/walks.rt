// What pointers lead to from the root of a document: the pointer of the value, its base, its draft, and whether it is a schema place.
use crate::places::{entered, uri_of};
use crate::rows::assert_text;
use schema_dialects::{Dialect, MetaSchemas};
use schema_drafts::draft::Draft;
use schema_places::place::{Place, root};
use schema_places::reached::{Reached, follow_pointer};
use serde_json::Value;
use std::alloc::Global;
use std::process::Abort;
use std::rc::Rc;

// JSON Schema 2020-12, Core, appendix A.
const EMBEDDED: &str = r#"{"$id": "https://example.com/root.json", "$defs": {
    "A": {"$anchor": "foo"},
    "B": {"$id": "other.json", "$defs": {
        "X": {"$anchor": "bar"},
        "Y": {"$id": "t/inner.json", "$anchor": "bar"}}},
    "C": {"$id": "urn:uuid:ee564b8a-7a87-4125-8c96-e9f123d6766f"}}}"#;

// Embedded resources change the base.
const FROM_EMBEDDED: &str = r#"
/$defs/A -> place #/$defs/A https://example.com/root.json Draft202012
/$defs/B -> place #/$defs/B https://example.com/other.json Draft202012
/$defs/B/$defs -> part #/$defs/B/$defs https://example.com/other.json Draft202012
/$defs/B/$defs/X -> place #/$defs/B/$defs/X https://example.com/other.json Draft202012
/$defs/B/$defs/Y -> place #/$defs/B/$defs/Y https://example.com/t/inner.json Draft202012
/%24defs/C -> place #/$defs/C urn:uuid:ee564b8a-7a87-4125-8c96-e9f123d6766f Draft202012
/$defs/C/$id -> part #/$defs/C/$id urn:uuid:ee564b8a-7a87-4125-8c96-e9f123d6766f Draft202012
"#;

const OF_ODD_NAMES: &str =
    r#"{"foo": ["bar", "baz"], "": 0, "a/b": 1, "c%d": 2, "k\"l": 6, " ": 7, "m~n": 8,
    "oneOf": [{}, {"$id": "one"}]}"#;

// Pointers are decoded and then split. The percent-coded ones are of RFC 6901, section 6.
const FROM_ODD_NAMES: &str = r#"
/foo/0 -> part #/foo/0 http://a.test/root.json Draft202012
/ -> part #/ http://a.test/root.json Draft202012
/a~1b -> part #/a~1b http://a.test/root.json Draft202012
/c%25d -> part #/c%d http://a.test/root.json Draft202012
/k%22l -> part #/k"l http://a.test/root.json Draft202012
/%20 -> part #/  http://a.test/root.json Draft202012
/m~0n -> part #/m~0n http://a.test/root.json Draft202012
/foo%2F1 -> part #/foo/1 http://a.test/root.json Draft202012
/oneOf/1 -> place #/oneOf/1 http://a.test/one Draft202012
/a%2Fb -> Pointer '/a%2Fb' does not exist
/foo/2 -> Pointer '/foo/2' does not exist
/foo/0/x -> Pointer '/foo/0/x' does not exist
/foo/18446744073709551616 -> Pointer '/foo/18446744073709551616' does not exist
/foo/01 -> Invalid array index '01' in pointer '/foo/01'
/f%6Fo/-/x -> Invalid array index '-' in pointer '/f%6Fo/-/x'
/%FF -> Invalid percent encoding in pointer '/%FF': the decoded bytes do not represent valid UTF-8
"#;

const OF_DRAFT_7: &str =
    r##"{"$schema": "http://json-schema.org/draft-07/schema#", "$ref": "#/definitions/a",
    "not": {"$id": "hidden"}, "definitions": {"a": {"$id": "a", "items": [{"$id": "i"}]}},
    "const": {"$id": "value"}}"##;

// A reference of draft 7 hides what stands beside it.
const FROM_DRAFT_7: &str = r#"
/not -> part #/not http://a.test/root.json Draft7
/definitions/a -> place #/definitions/a http://a.test/a Draft7
/definitions/a/items/0 -> place #/definitions/a/items/0 http://a.test/i Draft7
/const/$id -> part #/const/$id http://a.test/root.json Draft7
"#;

const OF_OTHER_DRAFTS: &str = r#"{"$defs": {
    "old": {"$schema": "http://json-schema.org/draft-07/schema#", "$id": "old", "items": [{}]},
    "own": {"$schema": "http://m.test/own#", "$id": "own", "not": {}}}}"#;

const FROM_OTHER_DRAFTS: &str = r#"
/$defs/old/items/0 -> place #/$defs/old/items/0 http://a.test/old Draft7
/$defs/own/not -> place #/$defs/own/not http://a.test/root.json Draft202012
"#;

fn shown(rt: &impl Abort, alloc: Global, reached: &Reached<'_>) -> String {
    let pointer = reached.path.to_pointer(alloc).expect(rt, "memory");
    let what = if reached.is_place { "place" } else { "part" };
    let draft = reached.dialect.draft;
    format!(in alloc; "{what} #{pointer} {} {draft:?}", reached.base.as_str()).expect(rt, "memory")
}

fn written(rt: &impl Abort, alloc: Global, from: &Place<'_>, fragment: &str) -> String {
    let known = MetaSchemas::none(alloc);
    match follow_pointer(alloc, &known, from, fragment) {
        Ok(reached) => shown(rt, alloc, &reached),
        Err(error) => format!(in alloc; "{error}").expect(rt, "memory"),
    }
}

// By 2020-12 where the document names no draft.
fn root_of<'d>(rt: &impl Abort, alloc: Global, contents: &'d Value) -> Place<'d> {
    let uri = uri_of(rt, alloc, "http://a.test/root.json");
    let known = MetaSchemas::none(alloc);
    let default = Dialect::standard(false, Draft::Draft202012);
    root(alloc, &known, &uri, default, contents).expect(rt, "memory")
}

fn assert_leads(rt: &impl Abort, alloc: Global, contents: &Value, rows: &str) {
    let from = root_of(rt, alloc, contents);
    for row in rows.trim().lines() {
        let (fragment, want) = row.split_once(" -> ").expect(rt, "a row");
        assert_text(rt, &row, written(rt, alloc, &from, fragment), want);
    }
}

#[test]
fn pointers_lead_from_roots(rt: HostRuntime) {
    for (text, rows) in [
        (EMBEDDED, FROM_EMBEDDED),
        (OF_ODD_NAMES, FROM_ODD_NAMES),
        (OF_DRAFT_7, FROM_DRAFT_7),
        (OF_OTHER_DRAFTS, FROM_OTHER_DRAFTS),
    ] {
        let contents = Value::from_str(rt.alloc(), text).expect(&rt, "JSON");
        assert_leads(&rt, rt.alloc(), &contents, rows);
    }
}

fn assert_goes_on(rt: &impl Abort, alloc: Global, from: &Place<'_>) {
    let known = MetaSchemas::none(alloc);
    let reached = follow_pointer(alloc, &known, from, "/not").expect(rt, "a value");
    assert!(rt; Rc::ptr_eq(&from.base, &reached.base));
    let want = "place #/$defs/s/not http://a.test/sub/ Draft6";
    assert_text(rt, &"the place", shown(rt, alloc, &reached), want);
    let found = reached.contents.to_string(alloc).expect(rt, "memory");
    assert_text(rt, &"the value", found, r#"{"type":"null"}"#);
}

#[test]
fn paths_go_on_from_the_place(rt: HostRuntime) {
    let text = r#"{"$id": "sub/", "not": {"type": "null"}}"#;
    let contents = Value::from_str(rt.alloc(), text).expect(&rt, "JSON");
    let from = entered(&rt, rt.alloc(), &["$defs", "s"], &contents);
    assert_goes_on(&rt, rt.alloc(), &from);
}
