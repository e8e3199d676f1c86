// Documents that are given, and others, which are refused.
use crate::rows::assert_text;
use document_sources::{DefaultRetriever, MapRetriever, Retrieve};
use serde_json::Value;
use std::alloc::Global;
use std::process::Abort;
use uri_references::uri::from_str;

// A URI, a document for it, and what is said where it is refused.
const GIVEN: [(&str, &str, &str); 4] = [
    ("HTTP://a.test/x#", "1", ""),
    ("other.json", "2", ""),
    ("http://a.test/%78", "3", ""),
    ("http://a b", "null", "Invalid URI 'http://a b'"),
];

fn added(
    rt: &impl Abort,
    alloc: Global,
    retriever: &mut MapRetriever,
    uri: &str,
    document: &str,
) -> String {
    let document = Value::from_str(alloc, document).expect(rt, "JSON");
    match retriever.add(alloc, uri, document) {
        Ok(()) => String::new(alloc),
        Err(error) => format!(in alloc; "{error}").expect(rt, "memory"),
    }
}

fn give(rt: &impl Abort, alloc: Global, retriever: &mut MapRetriever) {
    for (uri, document, refusal) in &GIVEN {
        assert_text(rt, uri, added(rt, alloc, retriever, uri, document), refusal);
    }
}

fn answer<R: Retrieve>(rt: &impl Abort, alloc: Global, retriever: &R, uri: &str) -> String {
    match retriever.retrieve(alloc, &from_str(alloc, uri).expect(rt, "a URI")) {
        Ok(document) => document.to_string(alloc).expect(rt, "memory"),
        Err(error) => format!(in alloc; "{error}").expect(rt, "memory"),
    }
}

fn assert_answers<R: Retrieve>(
    rt: &impl Abort,
    alloc: Global,
    retriever: &R,
    rows: &[(&str, &str)],
) {
    for (uri, want) in rows {
        assert_text(rt, uri, answer(rt, alloc, retriever, uri), want);
    }
}

#[test]
fn documents_are_answered(rt: HostRuntime) {
    let mut retriever = MapRetriever::new(rt.alloc());
    give(&rt, rt.alloc(), &mut retriever);
    assert_answers(
        &rt,
        rt.alloc(),
        &retriever,
        &[
            ("http://a.test/x", "3"),
            ("json-schema:///other.json", "2"),
            ("http://a.test/y", "Retrieving was refused"),
        ],
    );
    assert_answers(
        &rt,
        rt.alloc(),
        &DefaultRetriever,
        &[("http://a.test", "Retrieving was refused")],
    );
}
