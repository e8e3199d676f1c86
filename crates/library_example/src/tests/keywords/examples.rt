// Small schemas whose faults were written out by hand.
use crate::tests::keywords::subject::assert_told;

// Schemas that refer to others. Of two that bear one URI the last counts.
const REFERENCES: &str = r##"
- {"$schema":"http://json-schema.org/draft-07/schema#","properties":{"x":{"$ref":"#/definitions/s","minimum":10}},"definitions":{"s":{"type":"integer"}}}
    {"x":3} :: valid
- {"properties":{"x":{"$ref":"#/$defs/s","minimum":10}},"$defs":{"s":{"type":"integer"}}}
    {"x":3} :: #/x #/properties/x/minimum;
- {"$schema":"https://json-schema.org/draft/2020-12/schema","$id":"http://a.test/root.json","type":"array","minItems":2,"items":{"$ref":"leaf.json"},"$defs":{"leaf":{"$schema":"https://json-schema.org/draft/2020-12/schema","$id":"http://a.test/leaf.json","type":"string"}}}
    [1] :: #/0 #/items/$ref/type; # #/minItems;
- {"$ref":"http://a.test/x","$defs":{"a":{"$id":"http://a.test/x","type":"string"},"b":{"$id":"http://a.test/x","type":"integer"}}}
    "s" :: # #/$ref/type;
    1 :: valid
- {"allOf":[{"$ref":"#"}],"type":"integer"}
    1 :: valid
"##;

// Several keywords beside each other.
const KEYWORDS: &str = r##"
- {"if":{"minimum":0},"then":{"multipleOf":2},"else":{"multipleOf":2}}
    -1 :: # #/else/multipleOf;
    3 :: # #/then/multipleOf;
- {"properties":{"a":{"type":"string"}},"required":["a","b"]}
    {"a":1} :: #/a #/properties/a/type; # #/required;
- {"dependentRequired":{"a":["b","c"]}}
    {"a":1} :: # #/dependentRequired; # #/dependentRequired;
- {"prefixItems":[{"type":"string"}],"items":false}
    ["a",1] :: #/1 #/items;
- {"type":"array","minItems":2,"items":{"type":"integer"}}
    {} :: # #/type;
    ["a"] :: #/0 #/items/type; # #/minItems;
- {"maximum":18446744073709551614}
    -9223372036854775808 :: valid
"##;

// Few names and many, and long ones that differ in the middle.
const NAMES: &str = r##"
- {"properties":{"n00":{"const":0},"n01":{"const":0},"n02":{"const":0},"n03":{"const":0},"n04":{"const":0},"n05":{"const":0},"n06":{"const":0},"n07":{"const":0},"n08":{"const":0},"n09":{"const":0},"n10":{"const":0},"n11":{"const":0},"n12":{"const":0},"n13":{"const":0}}}
    {"n03":1} :: #/n03 #/properties/n03/const;
- {"properties":{"n00":{"const":0},"n01":{"const":0},"n02":{"const":0},"n03":{"const":0},"n04":{"const":0},"n05":{"const":0},"n06":{"const":0},"n07":{"const":0},"n08":{"const":0},"n09":{"const":0},"n10":{"const":0},"n11":{"const":0},"n12":{"const":0},"n13":{"const":0},"n14":{"const":0}}}
    {"n03":1} :: #/n03 #/properties/n03/const;
- {"properties":{"prefix0003suffix00":{"const":3},"prefix0004suffix00":{"const":4}}}
    {"prefix0003suffix00":3} :: valid
    {"prefix0003suffix00":4} :: #/prefix0003suffix00 #/properties/prefix0003suffix00/const;
"##;

// An object that is closed.
const MEMBERS: &str = r##"
- {"additionalProperties":false,"required":["id"],"properties":{"id":{"type":"integer"},"a":{"type":"array"},"b":{"type":"array"},"c":{"type":"array"},"d":{"type":"array"},"e":{"type":"array"}}}
    {"a":[],"b":[],"c":[],"d":[],"e":[],"id":1} :: valid
    {"a":[],"id":1} :: valid
    {"id":1} :: valid
    {"a":[],"b":[],"c":[],"d":[],"e":{},"id":1} :: #/e #/properties/e/type;
    {"a":{},"id":1} :: #/a #/properties/a/type;
    {"a":[],"id":"x"} :: #/id #/properties/id/type;
    {"a":[],"id":1,"zzz":1} :: # #/additionalProperties;
    {"a":[]} :: # #/required;
"##;

#[test]
fn small_schemas(rt: HostRuntime) {
    assert_told(&rt, rt.alloc(), REFERENCES);
    assert_told(&rt, rt.alloc(), KEYWORDS);
    assert_told(&rt, rt.alloc(), NAMES);
    assert_told(&rt, rt.alloc(), MEMBERS);
}
