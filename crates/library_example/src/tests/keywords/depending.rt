// Names and schemas that depend on a member (Validation 6.5.7 of Draft 7).
use crate::tests::keywords::subject::assert_told;

const DEPENDING: &str = r##"
- {"dependencies":{"a":["b","c"],"x":{"required":["y"]}}}
    {"a":1} :: # #/dependencies; # #/dependencies;
    {"a":1,"c":1} :: # #/dependencies;
    {"x":1} :: # #/dependencies/x/required;
    {"a":1,"b":1,"x":1} :: # #/dependencies; # #/dependencies/x/required;
    {"a":1,"b":1,"c":1,"x":1,"y":1} :: valid
    {} :: valid
    5 :: valid
    ["a"] :: valid
- {"dependencies":{"a":[]}}
    {"a":1} :: valid
- {"dependencies":{"a":false}}
    {"a":1} :: # #/dependencies/a;
    {"b":1} :: valid
- {"$schema":"http://json-schema.org/draft-04/schema#","dependencies":{"a":["b"]}}
    {"a":1} :: # #/dependencies;
- {"properties":{"p":{"dependencies":{"a":["b"],"c":{"properties":{"d":{"$ref":"#"}}}}}}}
    {"p":{"a":1,"c":1,"d":{"p":{"a":1}}}} :: #/p #/properties/p/dependencies; #/p/d/p #/properties/p/dependencies/c/properties/d/$ref/properties/p/dependencies;
"##;

#[test]
fn names_and_schemas_beside_members(rt: HostRuntime) {
    assert_told(&rt, rt.alloc(), DEPENDING);
}
