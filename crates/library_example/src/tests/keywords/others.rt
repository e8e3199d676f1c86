// Members that are not declared beside (Core 10.3.2.3).
use crate::tests::keywords::subject::assert_told;

const OTHERS: &str = r##"
- {"properties":{"a":{"type":"integer"}},"additionalProperties":false,"required":["a"]}
    {"b":1} :: # #/additionalProperties; # #/required;
- {"properties":{"a":{"type":"integer"}},"additionalProperties":false}
    {"a":1} :: valid
    {"a":"x","b":1} :: # #/additionalProperties; #/a #/properties/a/type;
- {"additionalProperties":false}
    {"a":1,"b":2} :: # #/additionalProperties;
    {} :: valid
    [1] :: valid
- {"additionalProperties":true}
    {"a":1} :: valid
- {"properties":{},"additionalProperties":false}
    {"a":1} :: # #/additionalProperties;
- {"properties":{"a":{"type":"string"}},"additionalProperties":{"type":"integer"}}
    {"a":"x","b":"y"} :: #/b #/additionalProperties/type;
- {"additionalProperties":{"type":"integer"}}
    {"a":"x","b":1,"c/d":null} :: #/a #/additionalProperties/type; #/c~1d #/additionalProperties/type;
- {"additionalProperties":{}}
    {"a":1} :: valid
- {"additionalProperties":{"type":"integer"}}
    "a" :: valid
- {"additionalProperties":{"not":{}},"properties":{"b":false}}
    {"a":1} :: #/a #/additionalProperties/not;
- {"$schema":"http://json-schema.org/draft-04/schema#","properties":{"a":{}},"additionalProperties":false}
    {"b":1} :: # #/additionalProperties;
- {"properties":{"a":true,"ab":true,"b":true,"c":true,"e":true,"f":true,"é":true},"additionalProperties":{"type":"null"}}
    {"a":1,"ab":1,"b":1,"c":1,"e":1,"f":1,"é":1} :: valid
    {"":1,"a":1,"aa":1,"abc":1,"d":1,"f":1,"g":1,"è":1,"é":1,"ê":1,"éa":1} :: #/ #/additionalProperties/type; #/aa #/additionalProperties/type; #/abc #/additionalProperties/type; #/d #/additionalProperties/type; #/g #/additionalProperties/type; #/è #/additionalProperties/type; #/éa #/additionalProperties/type; #/ê #/additionalProperties/type;
- {"allOf":[{"properties":{"a":{}}}],"additionalProperties":false}
    {"a":1} :: # #/additionalProperties;
- {"properties":{"a":{"$ref":"#"}},"additionalProperties":false}
    {"a":{"a":{"b":1}}} :: #/a/a #/properties/a/$ref/properties/a/$ref/additionalProperties;
"##;

#[test]
fn members_that_are_not_declared(rt: HostRuntime) {
    assert_told(&rt, rt.alloc(), OTHERS);
}
