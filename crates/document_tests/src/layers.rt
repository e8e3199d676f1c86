// Documents of a parent and a registry's own, which are two also where their URIs are equal, and what stands beside `$ref`.
use crate::lookups::reached;
use crate::registries::{Prepared, assert_rows, prepared_alone};
use crate::scripts::{assert_told, json, set_by, text_of};
use referencing::registry::Registry;
use schema_drafts::draft::Draft;
use schema_drafts::resource::ResourceRef;
use serde_json::Value;
use std::alloc::Global;
use std::process::Abort;
use uri_references::uri::from_str;

// The documents of a parent, and a topic of its child.
const LAYERS: [(&str, &str); 3] = [
    (
        r##"document http://m/a {"$defs":{"x":{"$id":"http://m/x"}}}"##,
        r##"document http://m/a true
documents :: 2
lookup http://m/a :: http://m/a# http://m/a true
lookup http://m/x :: http://m/a#/$defs/x http://m/x {"$id":"http://m/x"}"##,
    ),
    (
        r##"document http://m/p {"$id":"http://m/u","title":"parent"}"##,
        r##"document http://m/o {"$defs":{"u":{"$id":"http://m/u","title":"own"}}}
lookup http://m/u :: http://m/o#/$defs/u http://m/u {"$id":"http://m/u","title":"own"}
lookup http://m/p :: http://m/p# http://m/u {"$id":"http://m/u","title":"parent"}"##,
    ),
    (
        r##"document http://m/p {"$defs":{"u":{"$id":"http://m/u","title":"parent"}}}"##,
        r##"document http://m/u {"title":"own"}
lookup http://m/u :: http://m/u# http://m/u {"title":"own"}
lookup http://m/p #/$defs/u :: http://m/p#/$defs/u http://m/u {"$id":"http://m/u","title":"parent"}"##,
    ),
];

fn child_of<'a>(rt: &impl Abort, parent: &Registry<'a>, topic: &'static str) -> Prepared<'a> {
    let documents = set_by(rt, parent.allocator(), topic, "document");
    parent.extend(documents)?.prepare()
}

fn assert_layers(rt: &impl Abort, alloc: Global, below: &'static str, topic: &'static str) {
    let parent = prepared_alone(rt, alloc, below).expect(rt, below);
    let child = child_of(rt, &parent, topic).expect(rt, topic);
    assert_rows(rt, &child, topic);
}

#[test]
fn documents_of_one_uri(rt: HostRuntime) {
    for (below, topic) in LAYERS {
        assert_layers(&rt, rt.alloc(), below, topic);
    }
}

// The layer of what is found at a URI.
fn layer_at(rt: &impl Abort, registry: &Registry<'_>, uri: &str) -> usize {
    let found = reached(registry, uri, "").expect(rt, uri);
    assert_eq!(rt; found.document().as_str(), "http://m/a");
    found.document_name().layer
}

fn assert_numbers(rt: &impl Abort, parent: &Registry<'_>) {
    let (_, topic) = LAYERS[0];
    let child = child_of(rt, parent, topic).expect(rt, topic);
    let grandchild = child_of(rt, &child, topic).expect(rt, topic);
    assert_eq!(rt; layer_at(rt, parent, "http://m/a"), 0);
    assert_eq!(rt; layer_at(rt, &child, "http://m/a"), 1);
    assert_eq!(rt; layer_at(rt, &grandchild, "http://m/a"), 2);
    assert_eq!(rt; layer_at(rt, &grandchild, "http://m/x"), 0);
}

#[test]
fn numbers_of_layers(rt: HostRuntime) {
    let (below, _) = LAYERS[0];
    let parent = prepared_alone(&rt, rt.alloc(), below).expect(&rt, below);
    assert_numbers(&rt, &parent);
}

// A registry of one document, with what stands beside `$ref` read or not.
fn reading<'a>(alloc: Global, siblings: bool) -> Prepared<'a> {
    let builder = Registry::new(alloc).ref_siblings(siblings);
    builder.add("http://a.test/x", Value::Null)?.prepare()
}

fn with_one_more<'a>(rt: &impl Abort, parent: &Registry<'a>) -> Prepared<'a> {
    let builder = parent.add("http://a.test/y", Value::Null)?;
    assert!(rt; builder.has_parent());
    builder.prepare()
}

// The base inside of a subschema of Draft 7 that stands at `http://a.test/x`.
fn base_inside(rt: &impl Abort, registry: &Registry<'_>, subschema: &Value) -> String {
    let base = from_str(registry.allocator(), "http://a.test/x").expect(rt, "a URI");
    let resolver = registry.resolver(base).expect(rt, "memory");
    let below = ResourceRef::new(subschema, Draft::Draft7);
    let inside = resolver.in_subresource(below).expect(rt, "a resolver");
    let base = inside.base_uri().expect(rt, "memory");
    text_of(rt, registry.allocator(), &base.as_str())
}

fn assert_reads(rt: &impl Abort, registry: &Registry<'_>, siblings: bool, want: &str) {
    let text = r##"{"$id":"http://b.test/y/","$ref":"z"}"##;
    let subschema = json(rt, registry.allocator(), text);
    assert_eq!(rt; registry.reads_ref_siblings(), siblings);
    assert_told(rt, &base_inside(rt, registry, &subschema), want, text);
}

#[test]
fn what_stands_beside_a_reference(rt: HostRuntime) {
    assert!(rt; !Registry::new(rt.alloc()).has_parent());
    for (siblings, want) in [(true, "http://b.test/y/"), (false, "http://a.test/x")] {
        let parent = reading(rt.alloc(), siblings).expect(&rt, "a registry");
        assert_reads(&rt, &parent, siblings, want);
        let child = with_one_more(&rt, &parent).expect(&rt, "a registry");
        assert_reads(&rt, &child, siblings, want);
    }
}
