// What validators tell: the faults by instance path and evaluation path, and that the observers agree.
use crate::tests::cases::{assert_case, assert_cases};
use std::alloc::Global;
use std::process::Abort;

const TOLD: &str = r##"
# between two documents
base http://a.test/root.json
document <http://a.test/root.json> {"$id":"http://a.test/root.json","type":"array","minItems":2,"items":{"$ref":"leaf.json"}}
document <http://a.test/leaf.json> {"$id":"http://a.test/leaf.json","type":"string"}
told [1] => #/0 #/items/$ref/type, # #/minItems
told ["a","b"] => valid
told {} => # #/type

# by boolean schemas
document <> true
told {} => valid

document <> false
told {} => # #

document <> {"properties":{"a":false}}
told {"a":1} => #/a #/properties/a

document <> {"items":false}
told [] => valid

# of a linked list
document <> {"$ref":"#/$defs/node","$defs":{"node":{"type":"object","properties":{"next":{"$ref":"#/$defs/node"},"v":{"type":"integer"}}}}}
told {"v":1,"next":{"v":"x"}} => #/next/v #/$ref/properties/next/$ref/properties/v/type
told {"next":{"next":{"next":1}}} => #/next/next/next #/$ref/properties/next/$ref/properties/next/$ref/properties/next/$ref/type
told {"next":{"v":2}} => valid

# under a name with a slash
document <> {"properties":{"a/b":{"type":"string"}}}
told {"a/b":1} => #/a~1b #/properties/a~1b/type

# of a schema that is its own target
document <> {"$ref":"#"}
told [1] => valid

document <> {"$ref":"#","type":"null","items":{"$ref":"#"}}
told [null] => # #/$ref/type, # #/type

# schema paths begin anew
document <> {"items":{"$ref":"#/$defs/a~1b"},"$defs":{"a/b":{"minItems":1}}}
first [[]] => #/$defs/a~1b/minItems #/items/$ref/minItems [] MinItems
"##;

#[test]
fn of_values(rt: HostRuntime) {
    assert_cases(&rt, rt.alloc(), "", TOLD);
}

// A schema that refers to itself, and lists in lists: 127 of them, and 126 round a number.
const DEEP: [(usize, &str); 13] = [
    (1, r##"document <> {"type":"array","items":{"$ref":"#"}}"##),
    (1, "\ntold "),
    (127, "["),
    (127, "]"),
    (1, " => valid\ntold "),
    (126, "["),
    (1, "1"),
    (126, "]"),
    (1, " => #"),
    (126, "/0"),
    (1, " #"),
    (126, "/items/$ref"),
    (1, "/type"),
];

// Each piece as often as is said.
fn repeated(rt: &impl Abort, alloc: Global, pieces: &[(usize, &str)]) -> String {
    let mut text = String::new(alloc);
    for (count, piece) in pieces {
        for _ in 0..*count {
            text.push_str(piece).expect(rt, "memory");
        }
    }
    text
}

// Schemas of which each refers to the next one, 300 of them, and the last is of integers.
fn linked(rt: &impl Abort, alloc: Global) -> String {
    let mut text = String::from_str(
        alloc,
        "document <> {\"$ref\":\"#/$defs/d0\",\"$defs\":{",
    ).expect(rt, "memory");
    for number in 1..300u32 {
        let last = number.wrapping_sub(1);
        write!(text, "\"d{last}\":{{\"$ref\":\"#/$defs/d{number}\"}},").expect(rt, "memory");
    }
    let references = "/$ref".repeat(alloc, 300).expect(rt, "memory");
    write!(
        text,
        "\"d299\":{{\"type\":\"integer\"}}}}}}\ntold \"x\" => # #{references}/type"
    )
    .expect(rt, "memory");
    text
}

#[test]
fn of_deep_ones(rt: HostRuntime) {
    assert_case(&rt, rt.alloc(), repeated(&rt, rt.alloc(), &DEEP).as_str());
    assert_case(&rt, rt.alloc(), linked(&rt, rt.alloc()).as_str());
}

const STANDING: &str = r##"
# in another document, under a name with a slash and a space
base http://a.test/r
document <http://a.test/r> {"properties":{"a":{"$ref":"leaf#/$defs/x~1%20y"},"n":{"$ref":"#/$defs/no"}},"$defs":{"no":false}}
document <http://a.test/leaf> {"$defs":{"x/ y":{"type":"string"}}}
stands {"a":1} => http://a.test/leaf#/$defs/x~1%20y/type
stands {"n":1} => http://a.test/r#/$defs/no

# in a document, whatever the resource
base http://a.test/e
document <http://a.test/e> {"$ref":"http://b.test/i","$defs":{"i":{"$id":"http://b.test/i","minimum":3}}}
stands 1 => http://a.test/e#/$defs/i/minimum

# of a name
base http://a.test/p
document <http://a.test/p> {"propertyNames":{"maxLength":1}}
stands {"ab":1} => http://a.test/p#/propertyNames/maxLength

# of members that are not allowed
base http://a.test/p
document <http://a.test/p> {"additionalProperties":false}
stands {"a":1} => http://a.test/p#/additionalProperties

# behind a condition
base http://a.test/p
document <http://a.test/p> {"if":true,"then":{"required":["b"]}}
stands {} => http://a.test/p#/then/required

# of branches
base http://a.test/p
document <http://a.test/p> {"anyOf":[{"type":"string"},false]}
stands 1 => http://a.test/p#/anyOf
"##;

// The location of a keyword names its document (Core 12.3.3).
#[test]
fn standing_somewhere(rt: HostRuntime) {
    assert_cases(&rt, rt.alloc(), "", STANDING);
}
