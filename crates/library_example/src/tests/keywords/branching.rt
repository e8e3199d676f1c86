// Keywords that ask several schemas, or one of which the answer is turned (Core 10.2.1), and the items behind a list (Core 9.3.1.2 of 2019-09).
use crate::tests::keywords::subject::assert_told;

const BRANCHES: &str = r##"
- {"anyOf":[{"type":"integer"},{"minimum":2}]}
    1 :: valid
- {"anyOf":[{"type":"integer"},{"type":"null"}]}
    "a" :: # #/anyOf;
- {"anyOf":[]}
    1 :: # #/anyOf;
- {"anyOf":[false,true]}
    1 :: valid
- {"oneOf":[]}
    1 :: # #/oneOf;
- {"oneOf":[{"type":"integer"},{"minimum":2}]}
    1 :: valid
    3 :: # #/oneOf;
- {"oneOf":[{"type":"integer"},{"type":"null"}]}
    "a" :: # #/oneOf;
- {"not":{"type":"integer"}}
    1 :: # #/not;
    "a" :: valid
- {"not":{}}
    [] :: # #/not;
- {"not":false}
    [] :: valid
- {"not":{"not":{"minimum":2}}}
    1 :: # #/not;
- {"allOf":[{"anyOf":[{"minimum":2}]},{"oneOf":[{"minimum":3}]}]}
    1 :: # #/allOf/0/anyOf; # #/allOf/1/oneOf;
- {"items":{"anyOf":[{"minimum":2},{"type":"null"}]}}
    [1,null,2,0] :: #/0 #/items/anyOf; #/3 #/items/anyOf;
- {"properties":{"a":{"not":{"required":["b"]}}}}
    {"a":{"b":1}} :: #/a #/properties/a/not;
- {"not":{"$ref":"#/$defs/a"},"$defs":{"a":{"minimum":2}}}
    2 :: # #/not;
"##;

const BEHIND: &str = r##"
- {"$schema":"http://json-schema.org/draft-07/schema#","items":[{}],"additionalItems":{"minimum":2}}
    [1,1,2,0] :: #/1 #/additionalItems/minimum; #/3 #/additionalItems/minimum;
- {"$schema":"http://json-schema.org/draft-07/schema#","items":[{}],"additionalItems":false}
    [1,1,2] :: # #/additionalItems;
    [1] :: valid
- {"$schema":"http://json-schema.org/draft-07/schema#","items":{},"additionalItems":false}
    [1,1] :: valid
- {"$schema":"http://json-schema.org/draft-07/schema#","additionalItems":false}
    [1,1] :: valid
- {"prefixItems":[{}],"additionalItems":false}
    [1,1] :: valid
- {"$schema":"http://json-schema.org/draft-04/schema#","items":[{}],"additionalItems":false}
    {"a":1} :: valid
"##;

#[test]
fn schemas_of_which_some_accept(rt: HostRuntime) {
    assert_told(&rt, rt.alloc(), BRANCHES);
}

#[test]
fn items_behind_the_list(rt: HostRuntime) {
    assert_told(&rt, rt.alloc(), BEHIND);
}
