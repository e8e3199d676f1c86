// Meta-schemas of one's own: the draft and the vocabularies that they give (Core 8.1.1, 8.1.2).
use crate::tests::cases::assert_cases;
use crate::tests::given::subject_of;
use json_schema_validator::Draft;

const BESIDE: &str = r##"base http://a.test/r
# it requires what schemas hold, and nothing that asserts
document <http://a.test/meta> {"$schema":"https://json-schema.org/draft/2020-12/schema","$id":"http://a.test/meta","$vocabulary":{"https://json-schema.org/draft/2020-12/vocab/core":true,"https://json-schema.org/draft/2020-12/vocab/applicator":true}}
# it stands above another
document <http://a.test/above> {"$schema":"http://a.test/meta","$id":"http://a.test/above","$vocabulary":{"https://json-schema.org/draft/2020-12/vocab/core":true,"https://json-schema.org/draft/2020-12/vocab/validation":true,"https://json-schema.org/draft/2020-12/vocab/applicator":false}}
# it knows nothing of subschemas
document <http://a.test/bare> {"$schema":"https://json-schema.org/draft/2020-12/schema","$id":"http://a.test/bare","$vocabulary":{"https://json-schema.org/draft/2020-12/vocab/core":true}}
# it is of Draft 7
document <http://a.test/old> {"$schema":"http://json-schema.org/draft-07/schema#","$id":"http://a.test/old"}
"##;

const REQUIRED: &str = r##"
document <http://a.test/r> {"$schema":"http://a.test/meta","properties":{"a":false},"minItems":3,"type":"object"}
told {} => valid
told [] => valid
told {"a":1} => #/a #/properties/a

document <http://a.test/r> {"$schema":"http://a.test/meta","properties":{"a":false},"required":["b","c"]}
told {} => valid
told {"a":1} => #/a #/properties/a

# where members are not declared, none is refused for that
document <http://a.test/r> {"$schema":"http://a.test/bare","properties":{"a":false},"additionalProperties":false}
told {"a":1,"b":1} => valid

document <http://a.test/r> {"$schema":"http://a.test/above","properties":{"a":false},"minItems":3,"type":"array"}
told {"a":1} => # #/type
told [] => # #/minItems
told [1,2,3] => valid
"##;

const OLD: &str = r##"
document <http://a.test/r> {"$schema":"http://a.test/old","properties":{"x":{"$ref":"#/definitions/s","minItems":3}},"definitions":{"s":{"type":"array"}}}
told {"x":[]} => valid
told {"x":1} => #/x #/properties/x/$ref/type
"##;

const INSIDE: &str = r##"
# a subschema with an identifier has its own, and what is below it has that too
document <http://a.test/r> {"properties":{"x":{"$id":"x","$schema":"http://a.test/meta","type":"string","properties":{"y":{"type":"string"},"z":false}}},"type":"object"}
told {"x":{"y":1,"z":1}} => #/x/z #/properties/x/properties/z

document <http://a.test/r> {"properties":{"x":{"$id":"x","$schema":"http://a.test/meta","type":"string"}},"type":"object"}
told 1 => # #/type

# without one it has that of the schema around it
document <http://a.test/r> {"properties":{"x":{"$schema":"http://a.test/meta","type":"string"}}}
told {"x":1} => #/x #/properties/x/type

# a reference leads into another dialect and out of it again
document <http://a.test/r> {"$schema":"http://a.test/meta","type":"string","properties":{"x":{"$ref":"#/$defs/d"}},"$defs":{"d":{"$id":"d","$schema":"https://json-schema.org/draft/2020-12/schema","type":"array","items":{"$ref":"r"}}}}
told {"x":[{"x":1}]} => #/x/0/x #/properties/x/$ref/items/$ref/properties/x/$ref/type

document <http://a.test/r> {"properties":{"x":{"$id":"x","$schema":"http://a.test/old","properties":{"y":{"$ref":"#/definitions/s","type":"null"}},"definitions":{"s":{"type":"string"}}}}}
told {"x":{"y":1}} => #/x/y #/properties/x/properties/y/$ref/type
"##;

#[test]
fn vocabularies_and_drafts(rt: HostRuntime) {
    assert_cases(&rt, rt.alloc(), BESIDE, REQUIRED);
    assert_cases(&rt, rt.alloc(), BESIDE, OLD);
}

#[test]
fn of_schemas_inside_others(rt: HostRuntime) {
    assert_cases(&rt, rt.alloc(), BESIDE, INSIDE);
}

const OF_DRAFT_7: &str = r##"base http://a.test/r
document <http://a.test/old> {"$schema":"http://json-schema.org/draft-07/schema#","$id":"http://a.test/old"}
document <http://a.test/r> {"$schema":"http://a.test/old","properties":{"x":{"$ref":"#/definitions/s","minItems":3}},"definitions":{"s":{"type":"array"}}}
"##;

#[test]
fn the_draft_of_the_root(rt: HostRuntime) {
    let subject = subject_of(&rt, rt.alloc(), OF_DRAFT_7);
    assert!(rt; subject.validator.draft() == Draft::Draft7);
}
