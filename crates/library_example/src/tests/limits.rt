// How many compile keys schemas lead to: as many are allowed, and one fewer refuses the build.
use crate::tests::cases::assert_cases;
use crate::tests::given::built;
use json_schema_validator::{BuildCause, BuildError, Validator};

const FROM_R: &str = r##"base http://a.test/
root r
"##;

const BESIDE_TRUE: &str = r##"base http://a.test/
root r
document <http://a.test/s> true
document <http://a.test/t> true
"##;

const IN_ONE: &str = r##"
document <http://a.test/r> true
within 1 => built
within 0 => More than 0 schema nodes

document <http://a.test/r> {"$defs":{"a":true,"b":true}}
within 1 => built
within 0 => More than 0 schema nodes

document <http://a.test/r> {"properties":{"a":true,"b":true}}
within 3 => built
within 2 => More than 2 schema nodes

document <http://a.test/r> {"anyOf":[true,true],"not":true,"prefixItems":[true],"items":true}
within 6 => built
within 5 => More than 5 schema nodes

# the target is the root again
document <http://a.test/r> {"items":{"$ref":"#"}}
within 2 => built
within 1 => More than 1 schema nodes

# two references to one place count it, and what is below it, once
document <http://a.test/r> {"properties":{"a":{"$ref":"#/$defs/x"},"b":{"$ref":"#/$defs/x"}},"$defs":{"x":{"items":true}}}
within 5 => built
within 4 => More than 4 schema nodes

# by a pointer and by an anchor it has two schema paths
document <http://a.test/r> {"properties":{"a":{"$ref":"#/$defs/x"},"b":{"$ref":"#x"}},"$defs":{"x":{"$anchor":"x"}}}
within 5 => built
within 4 => More than 4 schema nodes

# a reference to a place that a keyword leads to, with its schema path
document <http://a.test/r> {"properties":{"a":true,"b":{"$ref":"#/properties/a"}}}
within 3 => built
within 2 => More than 2 schema nodes

document <http://a.test/r> {"allOf":[true,{"$ref":"#/allOf/0"}]}
within 3 => built
within 2 => More than 2 schema nodes

document <http://a.test/r> {"allOf":[true,{"$ref":"#/%61llOf/0"}],"items":{"$ref":"http://a.test/r#/allOf/1"}}
within 4 => built
within 3 => More than 3 schema nodes

# a resource inside: once below its parent, and once below its own reference
document <http://a.test/r> {"properties":{"a":{"$id":"e","properties":{"b":true}},"c":{"$ref":"e"}}}
within 6 => built
within 5 => More than 5 schema nodes

# `$ref` hides its neighbours
document <http://a.test/r> {"$schema":"http://json-schema.org/draft-07/schema#","$ref":"#/definitions/x","properties":{"a":true},"definitions":{"x":true}}
within 2 => built
within 1 => More than 1 schema nodes

# the meta-schema has three, the root one
meta <http://a.test/m> {"properties":{"a":true,"b":true}}
document <http://a.test/r> {"$schema":"http://a.test/m"}
within 3 => built
within 2 => More than 2 schema nodes
"##;

const IN_SEVERAL: &str = r##"
document <http://a.test/r> {"properties":{"a":{"$ref":"s"}}}
document <http://a.test/s> {"type":"integer"}
document <http://a.test/t> true
within 3 => built
within 2 => More than 2 schema nodes

# without dynamic anchors it makes no difference from where a document is entered
document <http://a.test/r> {"properties":{"s":{"$ref":"s"}}}
document <http://a.test/s> {"properties":{"r":{"$ref":"r"}}}
document <http://a.test/t> true
within 4 => built
within 3 => More than 3 schema nodes

# the list under two dynamic scopes, with a target for each
document <http://a.test/r> {"properties":{"l":{"$ref":"s"},"t":{"$ref":"t"}}}
document <http://a.test/s> {"items":{"$dynamicRef":"#item"},"$defs":{"d":{"$dynamicAnchor":"item"}}}
document <http://a.test/t> {"$ref":"s","$defs":{"s":{"$dynamicAnchor":"item"}}}
within 10 => built
within 9 => More than 9 schema nodes
"##;

const OF_TWO: &str = r##"
base http://a.test/a
limit 16
document <http://a.test/a> {"$id":"http://a.test/a","properties":{"b":{"$ref":"b"}}}
document <http://a.test/b> {"$id":"http://a.test/b","type":"object","properties":{"a":{"$ref":"a"}}}
told {"b":{"a":{"b":1}}} => #/b/a/b #/properties/b/$ref/properties/a/$ref/properties/b/$ref/type
"##;

#[test]
fn of_schema_nodes(rt: HostRuntime) {
    assert_cases(&rt, rt.alloc(), BESIDE_TRUE, IN_ONE);
    assert_cases(&rt, rt.alloc(), FROM_R, IN_SEVERAL);
    assert_cases(&rt, rt.alloc(), "", OF_TWO);
}

const OF_ONE: &str = r##"limit 1
document <> {"items":true}
"##;

// The limit that was met.
fn limit_of(built: &Result<Validator, BuildError>) -> Option<usize> {
    match built {
        Err(BuildError::Schema(BuildCause::NodeLimit { limit })) => Some(*limit),
        _ => None,
    }
}

#[test]
fn by_name(rt: HostRuntime) {
    let built = built(&rt, rt.alloc(), OF_ONE);
    let limit = limit_of(&built);
    drop(built);
    assert_eq!(rt; limit, Some(1));
}
