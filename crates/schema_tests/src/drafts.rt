// Tables by draft: drafts by their meta-schemas, keywords, and the members that hold schemas.
use crate::rows::assert_text;
use schema_drafts::draft::Draft;
use schema_drafts::subschemas::{Subschemas, held_by};
use serde_json::Value;
use std::alloc::Global;
use std::process::Abort;

// A draft, what is asked of it, the name that it is asked about, and the answer.
const ASKED: [(Draft, &str, &str, bool); 13] = [
    (
        Draft::Draft7,
        "is named by",
        "http://json-schema.org/draft-07/schema#",
        true,
    ),
    (
        Draft::Draft202012,
        "is named by",
        "https://json-schema.org/draft/2020-12/schema",
        true,
    ),
    (Draft::Unknown, "is named by", "http://a.test/meta", true),
    (Draft::Draft4, "has", "dependencies", true),
    (Draft::Draft4, "has", "const", false),
    (Draft::Draft201909, "has", "additionalItems", true),
    (Draft::Draft202012, "has", "additionalItems", false),
    (Draft::Draft7, "knows", "$comment", true),
    (Draft::Draft7, "knows", "prefixItems", false),
    (Draft::Draft7, "holds one or several", "items", true),
    (Draft::Draft202012, "holds one", "items", true),
    (
        Draft::Draft7,
        "holds none beside a reference",
        "properties",
        true,
    ),
    (
        Draft::Draft7,
        "holds them by name beside a reference",
        "definitions",
        true,
    ),
];

fn answer(draft: Draft, question: &str, name: &str) -> bool {
    match question {
        "is named by" => Draft::from_schema_uri(name) == draft,
        "has" => draft.has_keyword(name),
        "knows" => draft.is_known_keyword(name),
        "holds one or several" => held_by(draft, false, name) == Subschemas::OneOrSeveral,
        "holds one" => held_by(draft, false, name) == Subschemas::One,
        "holds none beside a reference" => held_by(draft, true, name) == Subschemas::None,
        _ => held_by(draft, true, name) == Subschemas::ByName,
    }
}

#[test]
fn tables_go_by_draft(rt: HostRuntime) {
    for (draft, question, name, want) in &ASKED {
        let found = answer(*draft, question, name);
        assert!(rt; found == *want, "{draft:?} {question} {name}");
    }
}

// A schema with members of several drafts, each with some values that are no schemas.
const WITH_MANY: &str = r#"{"type": "object", "not": false, "items": [{"a": 1}, true, 3, {"b": 2}],
    "properties": {"x": {"c": 3}, "y": [], "z": true}, "allOf": [{"d": 4}, "s"], "$defs": {"e": {"f": 5}},
    "definitions": {"g": {"h": 6}}, "prefixItems": [{"i": 7}], "if": {"j": 8}, "contains": {"k": 9},
    "unevaluatedItems": {"l": 10}, "const": {"m": 11}, "additionalProperties": null}"#;

const WITH_REFERENCE: &str =
    r##"{"$ref": "#/definitions/g", "definitions": {"g": {"h": 6}}, "items": {"a": 1}}"##;

// A draft, a schema, and its children.
const CHILDREN: [(Draft, &str, &str); 9] = [
    (
        Draft::Draft4,
        WITH_MANY,
        r#"{"d":4} {"h":6} {"a":1} true {"b":2} false {"c":3} true "#,
    ),
    (
        Draft::Draft6,
        WITH_MANY,
        r#"{"d":4} {"k":9} {"h":6} {"a":1} true {"b":2} false {"c":3} true "#,
    ),
    (
        Draft::Draft7,
        WITH_MANY,
        r#"{"d":4} {"k":9} {"h":6} {"j":8} {"a":1} true {"b":2} false {"c":3} true "#,
    ),
    (
        Draft::Draft201909,
        WITH_MANY,
        r#"{"f":5} {"d":4} {"k":9} {"h":6} {"j":8} {"a":1} true {"b":2} false {"c":3} true {"l":10} "#,
    ),
    (
        Draft::Draft202012,
        WITH_MANY,
        r#"{"f":5} {"d":4} {"k":9} {"h":6} {"j":8} false {"i":7} {"c":3} true {"l":10} "#,
    ),
    (Draft::Draft7, WITH_REFERENCE, r#"{"h":6} "#),
    (Draft::Draft201909, WITH_REFERENCE, r#"{"h":6} {"a":1} "#),
    (Draft::Draft7, r#"[{"a": 1}]"#, ""),
    (Draft::Draft7, "true", ""),
];

fn children(rt: &impl Abort, alloc: Global, draft: Draft, text: &str) -> String {
    let schema = Value::from_str(alloc, text).expect(rt, "JSON");
    let mut found = String::new(alloc);
    for child in draft.subresources_of(&schema) {
        write!(found, "{child} ").expect(rt, "memory");
    }
    found
}

#[test]
fn children_go_by_draft(rt: HostRuntime) {
    for (draft, text, want) in &CHILDREN {
        let found = children(&rt, rt.alloc(), *draft, text);
        assert_text(&rt, text, found, want);
    }
}

#[test]
fn no_child_is_behind_the_last(rt: HostRuntime) {
    let schema = Value::from_str(rt.alloc(), r#"{"not": {"a": 1}}"#).expect(&rt, "JSON");
    let mut children = Draft::Draft7.subresources_of(&schema);
    assert!(rt; children.next().is_some());
    assert!(rt; children.next().is_none());
    assert!(rt; children.next().is_none());
}

// The schemas beside a reference, ignored and read.
const BESIDE: &str = r##"{"$ref":"#/definitions/s","not":{"a":1},"definitions":{"s":{"b":2}}}"##;

const READ: [(Draft, bool, usize); 6] = [
    (Draft::Draft4, true, 1),
    (Draft::Draft6, false, 1),
    (Draft::Draft6, true, 2),
    (Draft::Draft7, false, 1),
    (Draft::Draft7, true, 2),
    (Draft::Draft202012, false, 2),
];

#[test]
fn siblings_of_references(rt: HostRuntime) {
    let schema = Value::from_str(rt.alloc(), BESIDE).expect(&rt, "JSON");
    for (draft, siblings, want) in READ {
        let mut count: usize = 0;
        for _child in draft.subresources_with(&schema, siblings) {
            count = count.saturating_add(1);
        }
        assert_eq!(rt; count, want);
    }
}
