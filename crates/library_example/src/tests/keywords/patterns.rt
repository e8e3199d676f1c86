// Texts and names of members by patterns (Validation 6.3.3; Core 10.3.2.2, 10.3.2.3).
use crate::tests::keywords::subject::assert_told;

const TEXTS: &str = r##"
- {"pattern":"a.c"}
    "xabcx" :: valid
    "ac" :: # #/pattern;
    12 :: valid
- {"pattern":"^a"}
    "ba" :: # #/pattern;
- {"pattern":"^a$"}
    "a" :: valid
    "a\n" :: # #/pattern;
- {"pattern":"^(a|b)$"}
    "ab" :: # #/pattern;
- {"pattern":"^\\S*$"}
    "a\ufeffb" :: # #/pattern;
    "a\u0085b" :: valid
- {"items":{"pattern":"[0-9]+"}}
    ["1","x",2] :: #/1 #/items/pattern;
- {"not":{"pattern":"x.y"}}
    "x-y" :: # #/not;
- {"$defs":{"s":{"pattern":"a.c"}},"properties":{"x":{"$ref":"#/$defs/s"},"y":{"$ref":"#/$defs/s"}}}
    {"x":"abc","y":"b"} :: #/y #/properties/y/$ref/pattern;
"##;

const MEMBERS: &str = r##"
- {"additionalProperties":false,"properties":{"foo":{"type":"string"}},"patternProperties":{"^bar":{"minimum":5},"spam$":{"maximum":10}}}
    {"bar":4,"spam":11,"foo":3,"faz":1} :: # #/additionalProperties; #/bar #/patternProperties/^bar/minimum; #/spam #/patternProperties/spam$/maximum; #/foo #/properties/foo/type;
    {"bar":5,"spam":10,"foo":"x"} :: valid
    [1] :: valid
- {"patternProperties":{"a.c":{"type":"integer"}}}
    {"xabcx":"1","ac":"1"} :: #/xabcx #/patternProperties/a.c/type;
- {"patternProperties":{"^a":{"minimum":2},"b$":{"maximum":0}}}
    {"ab":1} :: #/ab #/patternProperties/^a/minimum; #/ab #/patternProperties/b$/maximum;
- {"patternProperties":{"^a/b$":{"minimum":2},"x~y":false}}
    {"a/b":1,"x~y":1} :: #/a~1b #/patternProperties/^a~1b$/minimum; #/x~0y #/patternProperties/x~0y;
- {"patternProperties":{"^x":true},"additionalProperties":{"type":"integer"}}
    {"x":"a","y":"a"} :: #/y #/additionalProperties/type;
- {"properties":{"a":true},"patternProperties":{"a":{"minimum":2}},"additionalProperties":false}
    {"a":1,"ba":2} :: #/a #/patternProperties/a/minimum;
- {"patternProperties":{},"additionalProperties":false}
    {"a":1} :: # #/additionalProperties;
- {"allOf":[{"patternProperties":{"^a":true}}],"additionalProperties":false}
    {"a":1} :: # #/additionalProperties;
- {"patternProperties":{"^(a|b)$":{"minimum":2}}}
    {"a":1,"b":2,"c":1,"ab":1} :: #/a #/patternProperties/^(a|b)$/minimum;
- {"$schema":"http://json-schema.org/draft-04/schema#","patternProperties":{"[0-9]":{"minimum":2}},"additionalProperties":false}
    {"a1":1,"b":3} :: # #/additionalProperties; #/a1 #/patternProperties/[0-9]/minimum;
"##;

#[test]
fn texts_that_are_matched(rt: HostRuntime) {
    assert_told(&rt, rt.alloc(), TEXTS);
}

#[test]
fn members_whose_names_are_matched(rt: HostRuntime) {
    assert_told(&rt, rt.alloc(), MEMBERS);
}
