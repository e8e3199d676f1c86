// Names of members that a schema applies to (Core 10.3.2.4).
use crate::tests::keywords::subject::assert_told;

const NAMES: &str = r##"
- {"propertyNames":{"$ref":"#/$defs/s"},"$defs":{"s":{"minLength":2}}}
    {"a":1} :: # #/propertyNames/$ref/minLength;
- {"propertyNames":{"$ref":"#/$defs/s"},"$defs":{"s":{"enum":["ab"]}}}
    {"a":1,"ab":2} :: # #/propertyNames/$ref/enum;
- {"propertyNames":{"maxLength":1,"pattern":"^a"}}
    {"a":1,"bb":2} :: # #/propertyNames/maxLength; # #/propertyNames/pattern;
- {"propertyNames":{"maxLength":1}}
    {"aa":1,"b":2,"cc":3} :: # #/propertyNames/maxLength; # #/propertyNames/maxLength;
- {"properties":{"x":{"propertyNames":{"not":{"const":"b"}}}}}
    {"x":{"a":1,"b":1}} :: #/x #/properties/x/propertyNames/not;
- {"propertyNames":{"type":"integer"}}
    {"a":1} :: # #/propertyNames/type;
    ["a"] :: valid
- {"propertyNames":{"required":["a"],"items":false,"properties":{"a":false},"patternProperties":{"a":false},"additionalProperties":false}}
    {"a":1} :: valid
- {"allOf":[{"propertyNames":{"const":"k"}}]}
    {"k":1,"l":1} :: # #/allOf/0/propertyNames/const;
- {"not":{"propertyNames":{"const":"k"}}}
    {"k":1} :: # #/not;
- {"propertyNames":{"if":{"minLength":2},"then":false}}
    {"a":1,"bc":1} :: # #/propertyNames/then;
- {"$ref":"#/$defs/n","$defs":{"n":{"propertyNames":{"$ref":"#/$defs/n"},"maxLength":1}}}
    {"aa":{"bb":1}} :: # #/$ref/propertyNames/$ref/maxLength;
"##;

const FOR_NO_NAME: &str = r##"
- {"propertyNames":false}
    {"a":1,"b":2} :: # #/propertyNames;
    {} :: valid
    "a" :: valid
- {"propertyNames":true}
    {"a":1} :: valid
- {"propertyNames":{}}
    {"a":1} :: valid
- {"propertyNames":5}
    {"a":1} :: valid
- {"$schema":"http://json-schema.org/draft-04/schema#","propertyNames":{"maxLength":0}}
    {"a":1} :: valid
"##;

#[test]
fn names_that_are_refused(rt: HostRuntime) {
    assert_told(&rt, rt.alloc(), NAMES);
    assert_told(&rt, rt.alloc(), FOR_NO_NAME);
}
