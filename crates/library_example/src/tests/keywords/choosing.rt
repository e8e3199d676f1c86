// Schemas that a condition chooses (Core 10.2.2).
use crate::tests::keywords::subject::assert_told;

const CHOSEN: &str = r##"
- {"if":{"type":"integer"},"then":{"minimum":3},"else":{"minLength":2}}
    5 :: valid
    2 :: # #/then/minimum;
    "a" :: # #/else/minLength;
    "ab" :: valid
    null :: valid
- {"if":{"type":"integer"},"then":{"minimum":3}}
    5 :: valid
    2 :: # #/then/minimum;
    "a" :: valid
- {"if":{"type":"integer"},"else":{"minLength":2}}
    2 :: valid
    "a" :: # #/else/minLength;
    "ab" :: valid
- {"if":true,"then":false,"else":true}
    1 :: # #/then;
- {"if":false,"then":true,"else":false}
    1 :: # #/else;
- {"if":false,"then":false}
    1 :: valid
- {"if":true,"else":false}
    1 :: valid
- {"if":{"minProperties":1},"then":{"required":["x"],"properties":{"a":{"type":"integer"}}}}
    {"a":"s"} :: #/a #/then/properties/a/type; # #/then/required;
- {"else":{"type":"string"},"if":{"minimum":1,"type":"integer"},"maximum":-1,"not":{"type":"number"}}
    0 :: # #/else/type; # #/maximum; # #/not;
"##;

// None of them does anything alone, and what is not read may be no schema.
const ALONE: &str = r##"
- {"if":{"type":"integer"}}
    "a" :: valid
- {"if":false}
    1 :: valid
- {"if":5}
    1 :: valid
- {"then":{"type":"integer"}}
    "a" :: valid
- {"else":false}
    1 :: valid
- {"then":false,"else":false}
    1 :: valid
- {"then":5}
    1 :: valid
- {"then":5,"else":[]}
    1 :: valid
- {"$schema":"http://json-schema.org/draft-06/schema#","if":true,"then":false}
    1 :: valid
- {"$schema":"http://json-schema.org/draft-06/schema#","if":5,"then":6}
    1 :: valid
- {"$schema":"http://json-schema.org/draft-07/schema#","if":true,"then":false}
    1 :: # #/then;
- {"$schema":"http://json-schema.org/draft-07/schema#","$ref":"#/definitions/a","if":true,"then":false,"definitions":{"a":{}}}
    1 :: valid
"##;

// Conditions within others.
const NESTED: &str = r##"
- {"properties":{"p":{"if":{"required":["a"]},"then":{"if":{"required":["b"]},"then":false,"else":{"required":["c"]}}}}}
    {"p":{"a":1,"b":1}} :: #/p #/properties/p/then/then;
    {"p":{"a":1}} :: #/p #/properties/p/then/else/required;
- {"if":{"if":{"type":"integer"},"then":{"minimum":5}},"then":{"type":"string"},"else":false}
    3 :: # #/else;
- {"if":{"$ref":"#/$defs/n"},"then":{"$ref":"#/$defs/small"},"$defs":{"n":{"type":"integer"},"small":{"maximum":9}}}
    10 :: # #/then/$ref/maximum;
- {"if":true,"then":{"$id":"http://b.test/s","$ref":"#/$defs/x","$defs":{"x":{"type":"integer"}}}}
    "a" :: # #/then/$ref/type;
- {"if":{"required":["next"]},"then":{"properties":{"next":{"$ref":"#"}}},"else":{"required":["end"]}}
    {"next":{"next":{}}} :: #/next/next #/then/properties/next/$ref/then/properties/next/$ref/else/required;
- {"anyOf":[{"if":{"type":"integer"},"then":false},{"if":{"type":"string"},"else":false}]}
    1 :: # #/anyOf;
"##;

#[test]
fn schemas_that_are_chosen(rt: HostRuntime) {
    assert_told(&rt, rt.alloc(), CHOSEN);
    assert_told(&rt, rt.alloc(), ALONE);
    assert_told(&rt, rt.alloc(), NESTED);
}
