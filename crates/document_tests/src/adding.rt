// Documents added under their URIs. The normal forms are those of RFC 3986, sections 5.2.4 and 6.2.2.
use crate::scripts::{assert_told, json};
use referencing::builder::{Refused, RegistryBuilder};
use schema_drafts::draft::Draft;
use schema_drafts::resource::{Resource, ResourceRef};
use serde_json::Value;
use std::alloc::Global;
use std::process::Abort;
use std::rc::Rc;

type Added<'a> = Result<RegistryBuilder<'a>, Refused<'a>>;

// The draft by default, and each document's URI, draft and contents.
fn shown(rt: &impl Abort, builder: RegistryBuilder<'_>) -> String {
    let alloc = builder.allocator();
    let (documents, draft) = builder.into_parts();
    let mut line = format!(in alloc; "{draft:?}").expect(rt, "memory");
    for document in &documents {
        let (uri, contents) = (document.uri.as_str(), document.contents.value());
        write!(line, "; {uri} {:?} {contents}", document.draft).expect(rt, "memory");
    }
    line
}

// What a call gave back, behind the error where it was refused.
fn outcome(rt: &impl Abort, alloc: Global, answer: Added<'_>) -> String {
    match answer {
        Ok(builder) => shown(rt, builder),
        Err(Refused { builder, error }) => {
            let kept = shown(rt, builder);
            format!(in alloc; "{error}: {kept}").expect(rt, "memory")
        }
    }
}

// Adds a document: its URI, perhaps `Draft4`, and its text.
fn added<'a>(rt: &impl Abort, builder: RegistryBuilder<'a>, pair: &str) -> Added<'a> {
    let alloc = builder.allocator();
    let (uri, text) = pair.rsplit_once(' ').expect(rt, pair);
    let contents = json(rt, alloc, text);
    match uri.strip_suffix(" Draft4") {
        Some(uri) => builder.add(uri, Resource::new(contents, Draft::Draft4)),
        None => builder.add(uri, contents),
    }
}

fn all_added<'a>(rt: &impl Abort, alloc: Global, pairs: &str) -> Added<'a> {
    let mut builder = RegistryBuilder::new(alloc);
    for pair in pairs.split(", ") {
        builder = added(rt, builder, pair)?;
    }
    Ok(builder)
}

const ADDED: &str = r##"
http://a.test/ true, HTTP://A.test/x/../y null :: Draft202012; http://a.test/ None true; http://a.test/y None null
http://a.test/ true, http://a.test/y# null :: Draft202012; http://a.test/ None true; http://a.test/y None null
http://a.test/ true, schema.json null :: Draft202012; http://a.test/ None true; json-schema:///schema.json None null
http://a.test/ true, urn:x:%7ea null :: Draft202012; http://a.test/ None true; urn:x:~a None null
http://a.test/ true, http://A.TEST/. null :: Draft202012; http://a.test/ None null
http://a.test/ true, http://a.test/y#part null :: Invalid URI 'http://a.test/y#part': Draft202012; http://a.test/ None true
http://a.test/ true, #/part null :: Invalid URI '#/part': Draft202012; http://a.test/ None true
http://a.test/ true, http://a.test/a b null :: Invalid URI 'http://a.test/a b': Draft202012; http://a.test/ None true
http://a.test/ true, http://a.test/#a b null :: Invalid URI 'http://a.test/#a b': Draft202012; http://a.test/ None true
http://a.test/1 true, http://a.test/2 null, http://a.test/3 false, http://a.test/2# Draft4 4 :: Draft202012; http://a.test/1 None true; http://a.test/2 Some(Draft4) 4; http://a.test/3 None false
"##;

fn assert_added(rt: &impl Abort, alloc: Global, line: &str) {
    let (pairs, want) = line.split_once(" :: ").expect(rt, line);
    let told = outcome(rt, alloc, all_added(rt, alloc, pairs));
    assert_told(rt, &told, want, line);
}

#[test]
fn documents_under_uris(rt: HostRuntime) {
    for line in ADDED.trim().lines() {
        assert_added(&rt, rt.alloc(), line);
    }
}

fn with_values<'a>(rt: &impl Abort, alloc: Global, lent: &'a Value) -> Added<'a> {
    let shared = Rc::new(alloc, json(rt, alloc, "[3]")).expect(rt, "memory");
    RegistryBuilder::new(alloc)
        .draft(Draft::Draft6)
        .add("http://a.test/1", json(rt, alloc, "[1]"))?
        .add("http://a.test/2", lent)?
        .add("http://a.test/3", shared)
}

fn with_resources<'a>(
    builder: RegistryBuilder<'a>,
    resource: &'a Resource,
    lent: &'a Value,
) -> Added<'a> {
    let lent = ResourceRef::new(lent, Draft::Draft201909);
    builder
        .add("http://a.test/4", Resource::new(Value::Null, Draft::Draft4))?
        .add("http://a.test/5", resource)?
        .add("http://a.test/6", lent)
}

fn assert_each_kind(rt: &impl Abort, alloc: Global, resource: &Resource, lent: &Value) {
    let builder = with_values(rt, alloc, lent).expect(rt, "a builder");
    let told = outcome(rt, alloc, with_resources(builder, resource, lent));
    let want =
        r##"Draft6; http://a.test/1 None [1]; http://a.test/2 None [2]; http://a.test/3 None [3]; http://a.test/4 Some(Draft4) null; http://a.test/5 Some(Draft7) {"$schema":"http://json-schema.org/draft-07/schema#"}; http://a.test/6 Some(Draft201909) [2]"##;
    assert_told(rt, &told, want, "each kind");
}

#[test]
fn each_kind_of_resource(rt: HostRuntime) {
    let text = r##"{"$schema": "http://json-schema.org/draft-07/schema#"}"##;
    let resource = Resource::from_contents(json(&rt, rt.alloc(), text));
    assert_each_kind(&rt, rt.alloc(), &resource, &json(&rt, rt.alloc(), "[2]"));
}

fn with_lent_pairs<'a>(alloc: Global, lent: &'a Value) -> Added<'a> {
    RegistryBuilder::new(alloc).extend([
        ("http://a.test/1", lent),
        ("http://a.test/2#x", lent),
        ("http://a.test/3", lent),
    ])
}

fn with_pairs<'a>(rt: &impl Abort, alloc: Global) -> Added<'a> {
    all_added(rt, alloc, "http://a.test/1 true")?.extend([
        ("http://a.test/2", Value::Null),
        ("http://a.test/1", Value::Bool(false)),
    ])
}

#[test]
fn pairs_in_their_order_up_to_a_refused_one(rt: HostRuntime) {
    let told = outcome(&rt, rt.alloc(), with_pairs(&rt, rt.alloc()));
    let want = "Draft202012; http://a.test/1 None false; http://a.test/2 None null";
    assert_told(&rt, &told, want, "pairs");
    let lent = json(&rt, rt.alloc(), "4");
    let told = outcome(&rt, rt.alloc(), with_lent_pairs(rt.alloc(), &lent));
    let want = "Invalid URI 'http://a.test/2#x': Draft202012; http://a.test/1 None 4";
    assert_told(&rt, &told, want, "lent pairs");
}
