// Validators built with a retriever, with a limit, and with meta-schemas handed in (Core 8.1.1, 9.1.2).
use crate::tests::cases::{assert_case, assert_cases};
use std::alloc::Global;
use std::process::Abort;

const RETRIEVER: &str = r##"retrievals 2
retrieved <http://a.test/x> {"$ref":"y"}
retrieved <http://a.test/y> {"type":"string"}
retrieved <http://a.test/half> {"minimum":1.5}
"##;

const RETRIEVED: &str = r##"
document <> {"$ref":"http://a.test/x"}
build "a" => true
build 1 => false

document <> {"$ref":"http://a.test/half"}
build 1 => Resource 'http://a.test/half' is not present and retrieving it failed

document <> {"$ref":"http://a.test/z"}
build 1 => Resource 'http://a.test/z' is not present and retrieving it failed

document <> {"items":{"$ref":"http://a.test/x"},"properties":{"a":{"$ref":"http://a.test/half"},"b":{"$ref":"http://a.test/z"}}}
build 1 => More than 2 documents wanted
"##;

const LEAF: &str = r##"
base http://a.test/root.json
retrieved <http://a.test/leaf.json> {"$schema":"https://json-schema.org/draft/2020-12/schema","$id":"http://a.test/leaf.json","type":"string"}
document <http://a.test/root.json> {"$schema":"https://json-schema.org/draft/2020-12/schema","$id":"http://a.test/root.json","type":"array","minItems":2,"items":{"$ref":"leaf.json"}}
told [1] => #/0 #/items/$ref/type, # #/minItems
"##;

#[test]
fn retrieved(rt: HostRuntime) {
    assert_cases(&rt, rt.alloc(), RETRIEVER, RETRIEVED);
    assert_cases(&rt, rt.alloc(), "", LEAF);
}

// Documents of which each refers to the next one, 300 of them.
fn endless(rt: &impl Abort, alloc: Global) -> String {
    let mut text = String::new(alloc);
    for number in 0..300u32 {
        let next = number.wrapping_add(1);
        write!(
            text,
            "retrieved <http://a.test/{number}> {{\"$ref\":\"{next}\"}}\n"
        )
        .expect(rt, "memory");
    }
    text.push_str(
        "document <> {\"$ref\":\"http://a.test/0\"}\nbuild 1 => More than 256 documents wanted",
    ).expect(rt, "memory");
    text
}

#[test]
fn retrieved_without_an_end(rt: HostRuntime) {
    assert_case(&rt, rt.alloc(), endless(&rt, rt.alloc()).as_str());
}

const META_SCHEMAS: &str =
    r##"meta <http://a.test/m2> {"$schema":"https://json-schema.org/draft/2020-12/schema","$id":"http://a.test/m2","properties":{"type":{"type":"string"}}}
meta <http://a.test/bad> {"properties":{"type":{"type":5}}}
meta <https://json-schema.org/draft/2020-12/schema> {"properties":{"minItems":{"maximum":9}}}
"##;

const ASKED: &str = r##"
document <> {"$schema":"http://a.test/m2","type":["integer"]}
build 1 => Schema refused by its meta-schema at '/type', '/properties/type/type': #/properties/type/type #/properties/type/type ["integer"] Types

document <> {"$schema":"http://a.test/m2#","type":"integer"}
build 1 => true

document <> {"$schema":"http://a.test/bad"}
build 1 => Keyword value at 'http://a.test/bad#/properties/type/type': expected type name

document <> {"minItems":10}
build 1 => Schema refused by its meta-schema at '/minItems', '/properties/minItems/maximum': #/properties/minItems/maximum #/properties/minItems/maximum 10 Maximum

document <> {"items":{"minItems":10}}
build 1 => true

document <> {"$schema":"http://json-schema.org/draft-07/schema#","minItems":10}
build 1 => true
"##;

const NOT_ASKED: &str = r##"
# one that is retrieved
meta <http://a.test/m> {"$schema":"http://a.test/m2"}
retrieved <http://a.test/m2> {"$schema":"https://json-schema.org/draft/2020-12/schema","$id":"http://a.test/m2","properties":{"type":{"type":"string"}}}
document <> {"$schema":"http://a.test/m2","type":["integer"]}
build 1 => true
"##;

#[test]
fn by_meta_schemas(rt: HostRuntime) {
    assert_cases(&rt, rt.alloc(), META_SCHEMAS, ASKED);
    assert_cases(&rt, rt.alloc(), "", NOT_ASKED);
}
