// The same keywords in five drafts: which of them count (Core 8.1.2), and what stands beside `$ref`.
use crate::tests::cases::assert_cases;

const COUNTED: &str = r##"
document <> {"$schema":"http://json-schema.org/draft-07/schema#","properties":{"x":{"$ref":"#/definitions/s","minItems":3}},"definitions":{"s":{"type":"array"}}}
told {"x":[]} => valid
told {"x":1} => #/x #/properties/x/$ref/type

document <> {"$schema":"https://json-schema.org/draft/2020-12/schema","properties":{"x":{"$ref":"#/$defs/s","minItems":3}},"$defs":{"s":{"type":"array"}}}
told {"x":[]} => #/x #/properties/x/minItems

document <> {"$schema":"https://json-schema.org/draft/2019-09/schema","properties":{"x":{"$ref":"#/$defs/s","minItems":3}},"$defs":{"s":{"type":"array"}}}
told {"x":[]} => #/x #/properties/x/minItems

document <> {"$schema":"http://json-schema.org/draft-04/schema#","items":{"type":"string"},"minItems":1}
told [1] => #/0 #/items/type

document <> {"$schema":"http://json-schema.org/draft-06/schema#","items":false}
told [1] => #/0 #/items

document <> {"$schema":"https://json-schema.org/draft/2019-09/schema","prefixItems":[true],"items":{"type":"string"}}
told [1] => #/0 #/items/type

document <> {"$schema":"http://json-schema.org/draft-07/schema#","$dynamicRef":5,"$recursiveRef":5,"unevaluatedItems":false}
told [1] => valid
"##;

#[test]
fn keywords_that_count(rt: HostRuntime) {
    assert_cases(&rt, rt.alloc(), "", COUNTED);
}
