// The schema places of documents: the pointer of each, its base, its draft, and what it awaits.
use crate::rows::assert_text;
use schema_dialects::{Dialect, MetaSchemas};
use schema_drafts::draft::Draft;
use schema_places::document::places;
use schema_places::place::{Place, enter, is_schema, root};
use schema_steps::Path;
use serde_json::Value;
use std::alloc::Global;
use std::process::Abort;
use std::rc::Rc;
use uri_references::uri::Uri;

const BY_LEVELS: &str = r#"{
    "$defs": {"a/b": {"$id": "http://B.test/x/../y#", "not": {"$id": "z"}}, "n": 1},
    "items": {"$id": "sub/", "prefixItems": [true, 5, {}]}, "allOf": {}, "const": {"not": {}}}"#;

const HIDDEN: &str = r##"{
    "$schema": "http://json-schema.org/draft-07/schema#", "$ref": "#", "$id": "http://c.test/", "not": {},
    "definitions": {
        "a": {"$id": "a", "items": [{}, false]},
        "b": {"$ref": "a", "$id": "b", "not": {}}}}"##;

const BESIDE_REFERENCE: &str = r##"{"$ref": "#", "$id": "http://c.test/", "not": {}}"##;

const OF_OTHER_DRAFTS: &str = r#"{"properties": {
    "new": {"$schema": "http://json-schema.org/draft-07/schema#", "items": [{}]},
    "old": {"$schema": "http://json-schema.org/draft-07/schema#", "$id": "old", "items": [{}]},
    "own": {"$schema": "http://m.test/own#", "$id": "own", "items": {}}}}"#;

// Documents under `http://a.test/root.json`, by 2020-12 where they name no draft, and their places, a line each.
const PLACES: [(&str, &str); 4] = [
    (
        BY_LEVELS,
        "# http://a.test/root.json Draft202012
#/$defs/a~1b http://b.test/y Draft202012
#/items http://a.test/sub/ Draft202012
#/$defs/a~1b/not http://b.test/z Draft202012
#/items/prefixItems/0 http://a.test/sub/ Draft202012
#/items/prefixItems/2 http://a.test/sub/ Draft202012
",
    ),
    (
        HIDDEN,
        "# http://a.test/root.json Draft7
#/definitions/a http://a.test/a Draft7
#/definitions/b http://a.test/root.json Draft7
#/definitions/a/items/0 http://a.test/a Draft7
#/definitions/a/items/1 http://a.test/a Draft7
",
    ),
    (
        BESIDE_REFERENCE,
        "# http://c.test/ Draft202012
#/not http://c.test/ Draft202012
",
    ),
    (
        OF_OTHER_DRAFTS,
        "# http://a.test/root.json Draft202012
#/properties/new http://a.test/root.json Draft202012
#/properties/old http://a.test/old Draft7
#/properties/own http://a.test/root.json Draft202012
  awaits http://m.test/own
#/properties/old/items/0 http://a.test/old Draft7
",
    ),
];

pub(crate) fn uri_of(rt: &impl Abort, alloc: Global, text: &str) -> Rc<Uri> {
    let uri = Uri::parse(alloc, text).expect(rt, "a URI");
    Rc::new(alloc, uri).expect(rt, "memory")
}

fn write_place(rt: &impl Abort, lines: &mut String, place: &Place<'_>) {
    lines.push('#').expect(rt, "memory");
    place.path.write_to(lines).expect(rt, "memory");
    let base = place.base.as_str();
    let draft = place.dialect.draft;
    writeln!(lines, " {base} {draft:?}").expect(rt, "memory");
    if let Some(uri) = &place.awaits {
        writeln!(lines, "  awaits {}", uri.as_str()).expect(rt, "memory");
    }
}

fn write_places(rt: &impl Abort, alloc: Global, lines: &mut String, uri: &Rc<Uri>, text: &str) {
    let contents = Value::from_str(alloc, text).expect(rt, "JSON");
    let known = MetaSchemas::none(alloc);
    let default = Dialect::standard(false, Draft::Draft202012);
    let found = places(alloc, &known, uri, default, &contents);
    for place in &found.expect(rt, "memory") {
        write_place(rt, lines, place);
    }
}

#[test]
fn documents_have_places(rt: HostRuntime) {
    let uri = uri_of(&rt, rt.alloc(), "http://a.test/root.json");
    for (text, want) in &PLACES {
        let mut lines = String::new(rt.alloc());
        write_places(&rt, rt.alloc(), &mut lines, &uri, text);
        assert_text(&rt, text, lines, want);
    }
}

const NESTED: &str = r#"{"$id": "http://c.test/d", "not": {"$id": "e"}}"#;

#[test]
fn roots_share_bases(rt: HostRuntime) {
    let alloc = rt.alloc();
    let contents = Value::from_str(alloc, NESTED).expect(&rt, "JSON");
    let uri = uri_of(&rt, alloc, "http://a.test/");
    let known = MetaSchemas::none(alloc);
    let default = Dialect::standard(false, Draft::Draft4);
    let whole = root(alloc, &known, &uri, default, &contents).expect(&rt, "memory");
    assert!(rt; Rc::ptr_eq(&uri, &whole.base));
    assert!(rt; whole.dialect.draft == Draft::Draft4);
}

fn path_of(rt: &impl Abort, alloc: Global, names: &[&str]) -> Path {
    let mut path = Path::root();
    for name in names {
        path = path.push_name(alloc, name).expect(rt, "memory");
    }
    path
}

// By draft 6, a subschema under `http://a.test/`, at the path of these names.
pub(crate) fn entered<'d>(
    rt: &impl Abort,
    alloc: Global,
    names: &[&str],
    contents: &'d Value,
) -> Place<'d> {
    let uri = uri_of(rt, alloc, "http://a.test/");
    let path = path_of(rt, alloc, names);
    let known = MetaSchemas::none(alloc);
    let dialect = Dialect::standard(false, Draft::Draft6);
    enter(alloc, &known, &uri, dialect, path, contents).expect(rt, "memory")
}

fn assert_copied(rt: &impl Abort, place: &Place<'_>) {
    let copy = place.clone().expect(rt, "memory");
    assert!(rt; copy.base.as_str() == "http://a.test/e");
    assert!(rt; Rc::ptr_eq(&place.base, &copy.base));
    assert!(rt; copy.path == place.path);
}

#[test]
fn copies_share_bases(rt: HostRuntime) {
    let alloc = rt.alloc();
    let contents = Value::from_str(alloc, NESTED).expect(&rt, "JSON");
    let inner = contents.get("not").expect(&rt, "a member");
    assert!(rt; is_schema(inner));
    assert!(rt; !is_schema(inner.get("$id").expect(&rt, "a member")));
    assert_copied(&rt, &entered(&rt, alloc, &["not"], inner));
}
