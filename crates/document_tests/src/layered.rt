// Documents handed in, refused and prepared. Normal forms of URIs are those of RFC 3986, section 6.2.2.
use crate::rows::assert_text;
use document_sources::{DefaultRetriever, MapRetriever, Retrieve};
use schema_drafts::draft::Draft;
use schema_registries::documents::Documents;
use schema_registries::numbers::has_only_whole;
use schema_registries::registry::{SchemaRegistry, SharedRegistry};
use schema_registries::whole_numbers::WholeNumbers;
use serde_json::Value;
use std::alloc::Global;
use std::process::Abort;
use uri_references::uri::from_str;

// A URI, a text that is added under it, and what comes of that.
const TEXTS: [(&str, &[u8], &str); 9] = [
    (
        "http://a.test/x#",
        b"{\"a\":1}",
        "http://a.test/x {\"a\":1};",
    ),
    ("x", b"[1]", "json-schema:///x [1];"),
    (
        "http://a.test/x#y",
        b"1.5",
        "Invalid URI 'http://a.test/x#y'",
    ),
    ("a b", b"1", "Invalid URI 'a b'"),
    (
        "HTTP://A.test/x",
        b"{\"a\":",
        "Document 'http://a.test/x' is no JSON text",
    ),
    (
        "http://a.test/x",
        b"{\"a\":1.5}",
        "Number at 'http://a.test/x#/a' is no whole number of 64 bits",
    ),
    (
        "http://a.test/",
        b"[1, {\"b\": 1, \"x/y~z\": [2, 1e2]}, 1.5]",
        "Number at 'http://a.test/#/1/x~1y~0z/1' is no whole number of 64 bits",
    ),
    (
        "http://a.test/",
        b"-0.5",
        "Number at 'http://a.test/#' is no whole number of 64 bits",
    ),
    (
        "u",
        b"\"\xff\"",
        "Document 'json-schema:///u' is no JSON text",
    ),
];

// Each document's URI and contents.
fn shown(rt: &impl Abort, alloc: Global, documents: &Documents) -> String {
    let mut output = String::new(alloc);
    for document in documents.list().documents() {
        let contents = document.contents.value();
        write!(output, "{} {contents};", document.uri.as_str()).expect(rt, "memory");
    }
    output
}

fn outcome(rt: &impl Abort, alloc: Global, uri: &str, text: &[u8]) -> String {
    let mut documents = Documents::new(alloc);
    match documents.add_text(uri, text) {
        Ok(()) => shown(rt, alloc, &documents),
        Err(error) => format!(in alloc; "{error}").expect(rt, "memory"),
    }
}

#[test]
fn texts_are_added(rt: HostRuntime) {
    for (uri, text, want) in &TEXTS {
        assert_text(&rt, uri, outcome(&rt, rt.alloc(), uri, text), want);
    }
}

fn json(rt: &impl Abort, alloc: Global, text: &str) -> Value {
    Value::from_str(alloc, text).expect(rt, "JSON")
}

// Whether each value has only whole numbers of 64 bits.
const WHOLE: [(&str, bool); 7] = [
    ("18446744073709551615", true),
    ("18446744073709551616", false),
    ("-9223372036854775808", true),
    ("-9223372036854775809", false),
    ("1.0", false),
    ("[{\"a\":[1, \"1.5\", null]}]", true),
    ("[{\"a\":[1, 1.5, null]}]", false),
];

#[test]
fn whole_numbers(rt: HostRuntime) {
    for (text, want) in &WHOLE {
        let value = json(&rt, rt.alloc(), text);
        assert!(rt; has_only_whole(&value) == *want, "{text}");
    }
}

// A URI, a document for it, and what is said where it is refused.
const ADDED_AGAIN: [(&str, &str, &str); 4] = [
    ("http://a.test/1", "1", ""),
    ("http://a.test/2", "2", ""),
    ("http://a.test/1#", "3", ""),
    (
        "http://a.test/2",
        "[0.25]",
        "Number at 'http://a.test/2#/0' is no whole number of 64 bits",
    ),
];

fn added(
    rt: &impl Abort,
    alloc: Global,
    documents: &mut Documents,
    uri: &str,
    text: &str,
) -> String {
    match documents.add(uri, json(rt, alloc, text)) {
        Ok(()) => String::new(alloc),
        Err(error) => format!(in alloc; "{error}").expect(rt, "memory"),
    }
}

fn give(rt: &impl Abort, alloc: Global, documents: &mut Documents, rows: &[(&str, &str, &str)]) {
    for (uri, text, refusal) in rows {
        assert_text(rt, uri, added(rt, alloc, documents, uri, text), refusal);
    }
}

#[test]
fn added_again_in_place(rt: HostRuntime) {
    let mut documents = Documents::new(rt.alloc());
    give(&rt, rt.alloc(), &mut documents, &ADDED_AGAIN);
    let want = "http://a.test/1 3;http://a.test/2 2;";
    assert_text(&rt, &"all", shown(&rt, rt.alloc(), &documents), want);
}

fn assert_holds(rt: &impl Abort, registry: &SchemaRegistry) {
    let other = registry.own().share().expect(rt, "memory");
    assert!(rt; other.contains_resource("http://a.test/main"));
    assert!(rt; registry.registry().contains_resource("http://a.test/part"));
    assert!(rt; !registry.registry().contains_resource("http://a.test/other"));
    assert!(rt; registry.parent().is_none() && registry.draft() == Draft::Draft7);
    assert!(rt; !registry.reads_ref_siblings());
}

// The base of a registry of documents, with what they want.
fn prepared<R: Retrieve>(
    rt: &impl Abort,
    alloc: Global,
    documents: &Documents,
    retriever: &R,
) -> String {
    match SharedRegistry::prepare(alloc, documents, Draft::Draft7, false, retriever, 1) {
        Ok(own) => {
            let base = from_str(alloc, "http://a.test/main").expect(rt, "a URI");
            let registry = SchemaRegistry::new(own, Draft::Draft7, base, None);
            assert_holds(rt, &registry);
            String::from_str(alloc, registry.base().as_str()).expect(rt, "memory")
        }
        Err(error) => format!(in alloc; "{error}").expect(rt, "memory"),
    }
}

const MAIN: [(&str, &str, &str); 1] = [("http://a.test/main", r#"{"items":{"$ref":"part"}}"#, "")];

const PART: [(&str, &str, &str); 1] = [("http://a.test/part", "true", "")];

// What comes of a document whose reference leads to one that a retriever has.
const RETRIEVED: [(&str, &str); 3] = [
    (r#"{"minItems":1}"#, "http://a.test/main"),
    (
        r#"{"minItems":1.5}"#,
        "Resource 'http://a.test/part' is not present and retrieving it failed",
    ),
    (r#"{"$ref":"more"}"#, "More than 1 documents wanted"),
];

fn retrieved(rt: &impl Abort, alloc: Global, documents: &Documents, text: &str) -> String {
    let mut retriever = MapRetriever::new(alloc);
    retriever
        .add(alloc, "http://a.test/part", json(rt, alloc, text))
        .expect(rt, "a document");
    prepared(rt, alloc, documents, &WholeNumbers::new(retriever))
}

fn assert_retrieved(rt: &impl Abort, alloc: Global, documents: &Documents) {
    for (text, want) in &RETRIEVED {
        assert_text(rt, text, retrieved(rt, alloc, documents, text), want);
    }
}

#[test]
fn registries(rt: HostRuntime) {
    let mut documents = Documents::new(rt.alloc());
    give(&rt, rt.alloc(), &mut documents, &MAIN);
    assert_retrieved(&rt, rt.alloc(), &documents);
    let found = prepared(&rt, rt.alloc(), &documents, &DefaultRetriever);
    let want = "Resource 'http://a.test/part' is not present and retrieving it failed";
    assert_text(&rt, &"without the part", found, want);
    give(&rt, rt.alloc(), &mut documents, &PART);
    let found = prepared(&rt, rt.alloc(), &documents, &DefaultRetriever);
    assert_text(&rt, &"with the part", found, "http://a.test/main");
    assert!(rt; documents.list().documents().len() == 2);
}

fn shown_prepared(rt: &impl Abort, alloc: Global, shared: &SharedRegistry) -> String {
    let mut output = String::new(alloc);
    for document in shared.registry().documents() {
        let (name, contents) = (&document.name, document.contents.value());
        write!(output, "{} {} {contents};", name.layer, name.uri.as_str()).expect(rt, "memory");
    }
    output
}

const FIRST: [(&str, &str, &str); 2] = [
    ("http://a.test/part", "1", ""),
    ("http://a.test/old", "2", ""),
];

const SECOND: [(&str, &str, &str); 2] = [
    ("http://a.test/main", r#"{"$ref":"old"}"#, ""),
    ("http://a.test/part", "3", ""),
];

fn of_first(rt: &impl Abort, alloc: Global) -> SharedRegistry {
    let mut documents = Documents::new(alloc);
    give(rt, alloc, &mut documents, &FIRST);
    SharedRegistry::prepare(alloc, &documents, Draft::Draft7, true, &DefaultRetriever, 0).expect(
        rt,
        "a registry",
    )
}

fn beside_first(rt: &impl Abort, alloc: Global, first: &SharedRegistry) -> SharedRegistry {
    let mut documents = Documents::new(alloc);
    give(rt, alloc, &mut documents, &SECOND);
    first
        .prepare_beside(alloc, &documents, Draft::Draft7, &DefaultRetriever, 0)
        .expect(rt, "a registry")
}

#[test]
fn documents_beside_others(rt: HostRuntime) {
    let first = of_first(&rt, rt.alloc());
    let both = beside_first(&rt, rt.alloc(), &first);
    let want =
        r#"0 http://a.test/part 1;0 http://a.test/old 2;1 http://a.test/main {"$ref":"old"};1 http://a.test/part 3;"#;
    assert_text(&rt, &"both", shown_prepared(&rt, rt.alloc(), &both), want);
    assert!(rt; first.registry().documents().len() == 2);
    assert!(rt; first.reads_ref_siblings() && both.reads_ref_siblings());
}
