// Keywords that only assert (Validation 6).
use crate::tests::keywords::subject::assert_told;

// What asserts nothing.
const NOTHING: &str = r##"
- {"required":[]}
    [1,1] :: valid
    {} :: valid
    9 :: valid
- {"uniqueItems":false}
    [1,1] :: valid
    {} :: valid
    9 :: valid
- {"dependentRequired":{}}
    [1,1] :: valid
    {} :: valid
    9 :: valid
- {"$schema":"http://json-schema.org/draft-04/schema#","const":1,"exclusiveMaximum":5,"dependentRequired":1}
    [1,1] :: valid
    {} :: valid
    9 :: valid
- {"$schema":"http://json-schema.org/draft-07/schema#","dependentRequired":1}
    [1,1] :: valid
    {} :: valid
    9 :: valid
"##;

// Each keyword.
const FAULTS: &str = r##"
- {"uniqueItems":true}
    [1,{"a":1,"b":2},{"b":2,"a":1}] :: # #/uniqueItems;
    [[1],[2],1,true,"1",null,0,false] :: valid
- {"multipleOf":3}
    -9 :: valid
    4 :: # #/multipleOf;
- {"enum":[]}
    null :: # #/enum;
- {"enum":[{"a":[1,2]}]}
    {"a":[2,1]} :: # #/enum;
- {"const":{"a":1,"b":[]}}
    {"b":[],"a":1} :: valid
- {"required":["a","b","c"]}
    {"b":1} :: # #/required; # #/required;
- {"dependentRequired":{"a":["b","c"],"d":["a"]}}
    {"a":1} :: # #/dependentRequired; # #/dependentRequired;
- {"minProperties":1,"maxProperties":1}
    {} :: # #/minProperties;
- {"minItems":1,"maxItems":1}
    [1,2] :: # #/maxItems;
- {"maximum":3,"exclusiveMaximum":3,"minimum":9}
    3 :: # #/exclusiveMaximum; # #/minimum;
"##;

// Strict limits of draft 4.
const DRAFT_4: &str = r##"
- {"$schema":"http://json-schema.org/draft-04/schema#","minimum":5,"exclusiveMinimum":true}
    5 :: # #/exclusiveMinimum;
    6 :: valid
- {"$schema":"http://json-schema.org/draft-04/schema#","minimum":5,"exclusiveMinimum":false}
    5 :: valid
- {"$schema":"http://json-schema.org/draft-04/schema#","minimum":5,"exclusiveMinimum":"x"}
    4 :: # #/minimum;
- {"$schema":"http://json-schema.org/draft-04/schema#","maximum":5,"exclusiveMaximum":true}
    5 :: # #/exclusiveMaximum;
- {"$schema":"http://json-schema.org/draft-04/schema#","exclusiveMaximum":true}
    5 :: valid
"##;

const NUMBERS_AND_TEXTS: &str = r##"
- {"minimum":-9223372036854775808}
    -9223372036854775808 :: valid
- {"maximum":18446744073709551614}
    18446744073709551615 :: # #/maximum;
- {"exclusiveMinimum":18446744073709551614}
    18446744073709551615 :: valid
- {"multipleOf":18446744073709551615}
    18446744073709551615 :: valid
- {"maxLength":1}
    "\u00e9" :: valid
    "\ud83d\ude00" :: valid
- {"minLength":2}
    "\ud83d\ude00" :: # #/minLength;
- {"maxLength":1}
    "e\u0301" :: # #/maxLength;
"##;

#[test]
fn values_that_are_asserted_of(rt: HostRuntime) {
    assert_told(&rt, rt.alloc(), NOTHING);
    assert_told(&rt, rt.alloc(), FAULTS);
    assert_told(&rt, rt.alloc(), DRAFT_4);
    assert_told(&rt, rt.alloc(), NUMBERS_AND_TEXTS);
}
