// Keywords whose subschemas all have to accept: what validators tell, and what is no such keyword.
use crate::tests::cases::assert_cases;

const TOLD: &str = r##"
document <> {"allOf":[{"type":"integer"},{"minimum":3}]}
told 3 => valid
told 2 => # #/allOf/1/minimum
told "a" => # #/allOf/0/type

document <> {"allOf":[{"type":"integer"},{"minLength":3}]}
told "a" => # #/allOf/0/type, # #/allOf/1/minLength

document <> {"prefixItems":[{"type":"integer"},{"type":"string"}],"items":{"type":"null"}}
told ["a",1,2,null] => #/2 #/items/type, #/0 #/prefixItems/0/type, #/1 #/prefixItems/1/type
told [1] => valid
told {} => valid

document <> {"$schema":"http://json-schema.org/draft-07/schema#","items":[{"type":"integer"},{"type":"string"}]}
told [1,2,3] => #/1 #/items/1/type
told [] => valid

document <> {"dependentSchemas":{"a":{"required":["b"]}}}
told {"a":1} => # #/dependentSchemas/a/required
told {"a":1,"b":2} => valid
told {"c":1} => valid

document <> {"allOf":[{"$ref":"#/$defs/n"}],"$defs":{"n":{"type":"object","properties":{"x":{"$ref":"#"}}}}}
told {"x":{"x":1}} => #/x/x #/allOf/0/$ref/properties/x/$ref/allOf/0/$ref/properties/x/$ref/allOf/0/$ref/type

# more names than are looked up one by one
document <> {"properties":{"":false,"b":false,"d":false,"e":false,"o":false,"p":false,"z":false}}
told {} => valid
told [0] => valid
told {"":1,"a":1,"b":1,"e":1,"f":1,"zz":1} => #/ #/properties/, #/b #/properties/b, #/e #/properties/e
told {"e":1,"f":1,"g":1,"h":1,"i":1,"j":1,"k":1,"l":1,"m":1,"n":1,"o":1,"q":1,"z":1} => #/e #/properties/e, #/o #/properties/o, #/z #/properties/z
told {"f":1,"g":1,"h":1,"i":1,"j":1,"k":1,"l":1,"m":1,"n":1,"nn":1,"y":1} => valid
told {"a":1,"c":1,"d":1} => #/d #/properties/d
"##;

#[test]
fn tells_by_each_subschema(rt: HostRuntime) {
    assert_cases(&rt, rt.alloc(), "", TOLD);
}

const AT_R: &str = r##"base http://a.test/r
document <http://a.test/s> true
"##;

const REFUSED: &str = r##"
document <http://a.test/r> {"allOf":[]}
build => built

document <http://a.test/r> {"allOf":[true,5]}
build => Keyword value at 'http://a.test/r#/allOf/1': expected schema

document <http://a.test/r> {"allOf":{}}
build => Keyword value at 'http://a.test/r#/allOf': expected list

document <http://a.test/r> {"prefixItems":[{"allOf":[{"type":5}]}]}
build => Keyword value at 'http://a.test/r#/prefixItems/0/allOf/0/type': expected type name

document <http://a.test/r> {"dependentSchemas":{"a":5}}
build => Keyword value at 'http://a.test/r#/dependentSchemas/a': expected schema

document <http://a.test/r> {"$schema":"http://json-schema.org/draft-07/schema#","items":[true,[]]}
build => Keyword value at 'http://a.test/r#/items/1': expected schema
"##;

#[test]
fn refuses_values(rt: HostRuntime) {
    assert_cases(&rt, rt.alloc(), AT_R, REFUSED);
}
