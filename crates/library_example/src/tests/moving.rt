// Rows of documents, and what each form says.
ghost use Rattle.std.specs.Prelude.{◌≡◌, true};
ghost use Rattle.serde_json.specs.View.{view};
ghost use Rattle.json_schema_validator.specs.Numbers.{only_whole};

use json_schema_validator::{BuildError, Moving, RegexMaker, has_only_whole, same_on_three_roads};
use serde_json::Value;
use std::alloc::Global;
use std::process::Abort;

struct Row {
    root: &'static str,
    moved: &'static str,
    fresh: &'static str,
    instance: &'static str,
    added: &'static str,
    retrieved: &'static str,
    inside: &'static str,
}

fn json(rt: &impl Abort, alloc: Global, text: &str) -> Value
    ensures whole { only_whole (view result) ≡ true }
{
    let value = Value::from_str(alloc, text).expect(rt, "JSON");
    let is_whole = has_only_whole(&value);
    assert!(rt; is_whole, "{text}");
    value
}

fn assert_said(rt: &impl Abort, alloc: Global, said: Result<String, BuildError>, want: &str) {
    match said {
        Ok(text) => {
            let line = format!(in alloc; "{want}\n").expect(rt, "memory");
            assert_eq!(rt; text.as_str(), line.as_str());
        }
        Err(error) => {
            let text = format!(in alloc; "{error}").expect(rt, "memory");
            assert_eq!(rt; text.as_str(), want);
        }
    }
}

fn assert_row(rt: &impl Abort, alloc: Global, row: &Row) {
    assert_under(
        rt,
        alloc,
        "http://a.test/root.json",
        "http://a.test/leaf.json",
        row,
    );
}

fn assert_under(rt: &impl Abort, alloc: Global, root_uri: &str, moved_uri: &str, row: &Row) {
    let root = json(rt, alloc, row.root);
    let moved = json(rt, alloc, row.moved);
    let instance = json(rt, alloc, row.instance);
    let moving = Moving {
        root_uri,
        root: &root,
        moved_uri,
        moved: &moved,
        fresh: row.fresh,
    };
    let roads = same_on_three_roads(alloc, RegexMaker, &moving, &instance).expect(rt, "memory");
    assert_said(rt, alloc, roads.added, row.added);
    assert_said(rt, alloc, roads.retrieved, row.retrieved);
    assert_said(rt, alloc, roads.inside, row.inside);
}

const ROOT: &str =
    r##"{"$id":"http://a.test/root.json","$schema":"https://json-schema.org/draft/2020-12/schema","type":"array","minItems":2,"items":{"$ref":"leaf.json"}}"##;

const LEAF: &str =
    r##"{"$id":"http://a.test/leaf.json","$schema":"https://json-schema.org/draft/2020-12/schema","type":"string"}"##;

const POINTED: &str =
    r##"{"$id":"http://a.test/leaf.json","$schema":"https://json-schema.org/draft/2020-12/schema","$ref":"#/$defs/s","$defs":{"s":{"type":"string"}}}"##;

const DYNAMIC_ROOT: &str =
    r##"{"$id":"http://a.test/root.json","$schema":"https://json-schema.org/draft/2020-12/schema","$dynamicAnchor":"node","type":"array","items":{"$ref":"leaf.json"}}"##;

const DYNAMIC_LEAF: &str =
    r##"{"$id":"http://a.test/leaf.json","$schema":"https://json-schema.org/draft/2020-12/schema","$defs":{"any":{"$dynamicAnchor":"node"}},"properties":{"next":{"$dynamicRef":"#node"}}}"##;

const ENTERING_ROOT: &str =
    r##"{"$id":"http://a.test/root.json","$schema":"https://json-schema.org/draft/2020-12/schema","$ref":"#/x","x":{"allOf":[{"$id":"leaf.json","$dynamicRef":"c#n"}]},"$defs":{"c":{"$id":"c","$dynamicAnchor":"n","type":"string"}}}"##;

const STRINGS: &str =
    r##"{"$id":"http://a.test/strings","$schema":"https://json-schema.org/draft/2020-12/schema","$ref":"list","$defs":{"s":{"$dynamicAnchor":"item","type":"string"}}}"##;

const LIST: &str =
    r##"{"$id":"http://a.test/list","$schema":"https://json-schema.org/draft/2020-12/schema","type":"array","items":{"$dynamicRef":"#item"},"$defs":{"d":{"$dynamicAnchor":"item"}}}"##;

const STRINGS_FAULTS: &str = r##"[["/1","/$ref/items/$dynamicRef/type"]]"##;

const DYNAMIC_FAULTS: &str = r##"[["/0/next","/items/$ref/properties/next/$dynamicRef/type"]]"##;

const FAULTS: &str = r##"[["","/minItems"],["/0","/items/$ref/type"]]"##;

#[test]
fn moved_documents_say_the_same(rt: HostRuntime) {
    let alloc = rt.alloc();
    assert_row(
        &rt,
        alloc,
        &Row {
            root: ROOT,
            moved: LEAF,
            fresh: "leaf",
            instance: "[1]",
            added: FAULTS,
            retrieved: FAULTS,
            inside: FAULTS,
        },
    );
    assert_row(
        &rt,
        alloc,
        &Row {
            root: ROOT,
            moved: LEAF,
            fresh: "leaf",
            instance: r##"["a","b"]"##,
            added: "[]",
            retrieved: "[]",
            inside: "[]",
        },
    );
    assert_row(
        &rt,
        alloc,
        &Row {
            root: ROOT,
            moved: POINTED,
            fresh: "leaf",
            instance: "[1]",
            added: r##"[["","/minItems"],["/0","/items/$ref/$ref/type"]]"##,
            retrieved: r##"[["","/minItems"],["/0","/items/$ref/$ref/type"]]"##,
            inside: r##"[["","/minItems"],["/0","/items/$ref/$ref/type"]]"##,
        },
    );
}

// The outermost anchor is the root's, wherever the reference stands.
#[test]
fn dynamic_references_go_out(rt: HostRuntime) {
    let alloc = rt.alloc();
    assert_row(
        &rt,
        alloc,
        &Row {
            root: DYNAMIC_ROOT,
            moved: DYNAMIC_LEAF,
            fresh: "leaf",
            instance: r##"[{"next":5}]"##,
            added: DYNAMIC_FAULTS,
            retrieved: DYNAMIC_FAULTS,
            inside: DYNAMIC_FAULTS,
        },
    );
    assert_under(
        &rt,
        alloc,
        "http://a.test/strings",
        "http://a.test/list",
        &Row {
            root: STRINGS,
            moved: LIST,
            fresh: "l",
            instance: r##"["a",1]"##,
            added: STRINGS_FAULTS,
            retrieved: STRINGS_FAULTS,
            inside: STRINGS_FAULTS,
        },
    );
}

// A schema at no schema place, to which a pointer leads, wants no document: by itself it is read without the one that it names, as its own URI
// or as its meta-schema.
#[test]
fn nothing_is_wanted_at_no_schema_place(rt: HostRuntime) {
    let alloc = rt.alloc();
    assert_row(
        &rt,
        alloc,
        &Row {
            root: ENTERING_ROOT,
            moved: r##"{"$id":"http://a.test/leaf.json","$schema":"https://json-schema.org/draft/2020-12/schema","$dynamicAnchor":"n"}"##,
            fresh: "leaf",
            instance: "2",
            added: "[]",
            retrieved: r##"[["","/$ref/allOf/0/$dynamicRef/type"]]"##,
            inside: "[]",
        },
    );
    assert_row(
        &rt,
        alloc,
        &Row {
            root: r##"{"$id":"http://a.test/root.json","$schema":"https://json-schema.org/draft/2020-12/schema","$ref":"#/x","x":{"allOf":[{"$id":"q","$schema":"http://a.test/leaf.json","const":1}]}}"##,
            moved: r##"{"$id":"http://a.test/leaf.json","$schema":"https://json-schema.org/draft/2020-12/schema","$vocabulary":{"https://json-schema.org/draft/2020-12/vocab/core":true}}"##,
            fresh: "leaf",
            instance: "2",
            added: "[]",
            retrieved: r##"[["","/$ref/allOf/0/const"]]"##,
            inside: "[]",
        },
    );
}

#[test]
fn no_room_inside(rt: HostRuntime) {
    let alloc = rt.alloc();
    assert_row(
        &rt,
        alloc,
        &Row {
            root: r##"{"$id":"http://a.test/root.json","type":"array","minItems":2,"items":{"$ref":"leaf.json"},"$defs":{"leaf":true}}"##,
            moved: LEAF,
            fresh: "leaf",
            instance: "[1]",
            added: FAULTS,
            retrieved: FAULTS,
            inside: "Keyword value at 'http://a.test/root.json#/$defs': expected fresh name",
        },
    );
    assert_row(
        &rt,
        alloc,
        &Row {
            root: r##"{"$id":"http://a.test/root.json","type":"array","minItems":2,"items":{"$ref":"leaf.json"},"$defs":5}"##,
            moved: LEAF,
            fresh: "leaf",
            instance: "[1]",
            added: FAULTS,
            retrieved: FAULTS,
            inside: "Keyword value at 'http://a.test/root.json#/$defs': expected fresh name",
        },
    );
    assert_row(
        &rt,
        alloc,
        &Row {
            root: "true",
            moved: LEAF,
            fresh: "leaf",
            instance: "[1]",
            added: "[]",
            retrieved: "[]",
            inside: "Keyword value at 'http://a.test/root.json#': expected object",
        },
    );
}
