// What faults carry.
use crate::tests::keywords::subject::assert_detailed;

const CARRIED: &str = r##"
- {"enum":[1,"a"],"required":["k"],"minProperties":2}
    {} :: Enumeration of {} # #/enum #/enum; Enumeration { options: Array [Number(1), String("a")] } MinProperties of {} # #/minProperties #/minProperties; MinProperties { limit: 2 } Required of {} # #/required #/required; Required { property: "k" }
- {"required":["a","b"]}
    {} :: Required of {} # #/required #/required; Required { property: "a" } Required of {} # #/required #/required; Required { property: "b" }
- {"type":["null","array"],"maximum":-1,"const":0}
    7 :: Constant of 7 # #/const #/const; Constant { expected_value: Number(0) } Maximum of 7 # #/maximum #/maximum; Maximum { limit: Number(-1) } Types of 7 # #/type #/type; Types { names: Several([Null, Array]) }
- {"enum":[],"exclusiveMinimum":0}
    0 :: Enumeration of 0 # #/enum #/enum; Enumeration { options: Array [] } ExclusiveMinimum of 0 # #/exclusiveMinimum #/exclusiveMinimum; ExclusiveMinimum { limit: Number(0) }
- {"exclusiveMaximum":0,"minimum":18446744073709551615,"multipleOf":3}
    7 :: ExclusiveMaximum of 7 # #/exclusiveMaximum #/exclusiveMaximum; ExclusiveMaximum { limit: Number(0) } Minimum of 7 # #/minimum #/minimum; Minimum { limit: Number(18446744073709551615) } MultipleOf of 7 # #/multipleOf #/multipleOf; MultipleOf { multiple_of: Number(3) }
- {"$schema":"http://json-schema.org/draft-04/schema#","maximum":-9223372036854775808,"exclusiveMaximum":true}
    0 :: ExclusiveMaximum of 0 # #/exclusiveMaximum #/exclusiveMaximum; ExclusiveMaximum { limit: Number(-9223372036854775808) }
- {"type":"null","const":{"a":1}}
    {} :: Constant of {} # #/const #/const; Constant { expected_value: Object {"a": Number(1)} } Types of {} # #/type #/type; Types { names: One(Null) }
- {"exclusiveMinimum":3,"multipleOf":2}
    3 :: ExclusiveMinimum of 3 # #/exclusiveMinimum #/exclusiveMinimum; ExclusiveMinimum { limit: Number(3) } MultipleOf of 3 # #/multipleOf #/multipleOf; MultipleOf { multiple_of: Number(2) }
- {"maxLength":1,"pattern":"^\\S*$"}
    "a b" :: MaxLength of "a b" # #/maxLength #/maxLength; MaxLength { limit: 1 } Pattern of "a b" # #/pattern #/pattern; Pattern { pattern: "^\\S*$" }
- {"minLength":1,"pattern":"^a"}
    "" :: MinLength of "" # #/minLength #/minLength; MinLength { limit: 1 } Pattern of "" # #/pattern #/pattern; Pattern { pattern: "^a" }
- {"maxItems":0,"minItems":3,"uniqueItems":true}
    [1,1] :: MaxItems of [1,1] # #/maxItems #/maxItems; MaxItems { limit: 0 } MinItems of [1,1] # #/minItems #/minItems; MinItems { limit: 3 } UniqueItems of [1,1] # #/uniqueItems #/uniqueItems; UniqueItems
- {"dependentRequired":{"a":["b"]},"maxProperties":0}
    {"a":1} :: Required of {"a":1} # #/dependentRequired #/dependentRequired; Required { property: "b" } MaxProperties of {"a":1} # #/maxProperties #/maxProperties; MaxProperties { limit: 0 }
- {"anyOf":[{"minimum":0},{"enum":[]}]}
    -1 :: AnyOf of -1 # #/anyOf #/anyOf; [ Minimum of -1 # #/anyOf/0/minimum #/anyOf/0/minimum; ] [ Enumeration of -1 # #/anyOf/1/enum #/anyOf/1/enum; ]
- {"anyOf":[{"minimum":2,"type":"null"},{"items":{}},false]}
    [] :: valid
- {"anyOf":[{"minimum":2,"type":"null"},false]}
    1 :: AnyOf of 1 # #/anyOf #/anyOf; [ Minimum of 1 # #/anyOf/0/minimum #/anyOf/0/minimum; Types of 1 # #/anyOf/0/type #/anyOf/0/type; ] [ FalseSchema of 1 # #/anyOf/1 #/anyOf/1; ]
- {"oneOf":[{"minimum":2},{"type":"null"}]}
    1 :: OneOfNotValid of 1 # #/oneOf #/oneOf; [ Minimum of 1 # #/oneOf/0/minimum #/oneOf/0/minimum; ] [ Types of 1 # #/oneOf/1/type #/oneOf/1/type; ]
- {"oneOf":[{"minimum":2},{},true]}
    1 :: OneOfMultipleValid of 1 # #/oneOf #/oneOf; [ Minimum of 1 # #/oneOf/0/minimum #/oneOf/0/minimum; ] [ ] [ ]
- {"not":{"type":"integer"}}
    1 :: Not of 1 # #/not #/not; {"type":"integer"}
- {"anyOf":[{"anyOf":[{"minimum":2}]}]}
    1 :: AnyOf of 1 # #/anyOf #/anyOf; [ AnyOf of 1 # #/anyOf/0/anyOf #/anyOf/0/anyOf; ]
- {"$schema":"http://json-schema.org/draft-07/schema#","items":[],"additionalItems":false}
    [1,2] :: AdditionalItems of [1,2] # #/additionalItems #/additionalItems; AdditionalItems
- {"contains":{"type":"integer"},"maxContains":1}
    ["a"] :: Contains of ["a"] # #/maxContains #/maxContains; Contains
- {"properties":{"a":true},"additionalProperties":false}
    {"a":1,"b":1,"c":1} :: AdditionalProperties of {"a":1,"b":1,"c":1} # #/additionalProperties #/additionalProperties; b c
- {"additionalProperties":false}
    {"a":1,"b":2} :: FalseSchema of 1 # #/additionalProperties #/additionalProperties; FalseSchema
- {"items":{"propertyNames":{"$ref":"#/$defs/s"}},"$defs":{"s":{"minLength":2}}}
    [{"a":1}] :: PropertyNames of {"a":1} #/0 #/$defs/s/minLength #/items/propertyNames/$ref/minLength; MinLength of "a" #/0 #/$defs/s/minLength #/items/propertyNames/$ref/minLength; MinLength { limit: 2 }
- {"propertyNames":{"anyOf":[{"maxLength":1},{"const":"abc"}]}}
    {"ab":1} :: PropertyNames of {"ab":1} # #/propertyNames/anyOf #/propertyNames/anyOf; AnyOf of "ab" # #/propertyNames/anyOf #/propertyNames/anyOf; [ MaxLength of "ab" # #/propertyNames/anyOf/0/maxLength #/propertyNames/anyOf/0/maxLength; ] [ Constant of "ab" # #/propertyNames/anyOf/1/const #/propertyNames/anyOf/1/const; ]
- {"propertyNames":false}
    {"a":1} :: FalseSchema of {"a":1} # #/propertyNames #/propertyNames; FalseSchema
"##;

#[test]
fn faults_with_what_they_carry(rt: HostRuntime) {
    assert_detailed(&rt, rt.alloc(), CARRIED);
}
