// References by the dynamic scope (2020-12, Core 8.2.3.2; 2019-09, Core 8.2.4.2).
use crate::tests::cases::assert_cases;

const DYNAMIC: &str =
    r##"document <http://a.test/list> {"$id":"http://a.test/list","type":"array","items":{"$dynamicRef":"#item"},"$defs":{"d":{"$dynamicAnchor":"item"}}}
document <http://a.test/strings> {"$id":"http://a.test/strings","$ref":"list","$defs":{"s":{"$dynamicAnchor":"item","type":"string"}}}
document <http://a.test/both> {"properties":{"l":{"$ref":"list"},"s":{"$ref":"strings"}}}
"##;

const BY_DYNAMIC_SCOPE: &str = r##"
base http://a.test/strings
told ["a",1] => #/1 #/$ref/items/$dynamicRef/type

base http://a.test/list
told ["a",1] => valid
told 1 => # #/type

base http://a.test/both
told {"l":[1],"s":[1]} => #/s/0 #/properties/s/$ref/$ref/items/$dynamicRef/type
"##;

#[test]
fn dynamic_ones(rt: HostRuntime) {
    assert_cases(&rt, rt.alloc(), DYNAMIC, BY_DYNAMIC_SCOPE);
}

const RECURSIVE: &str =
    r##"document <http://a.test/tree> {"$schema":"https://json-schema.org/draft/2019-09/schema","$id":"http://a.test/tree","$recursiveAnchor":true,"properties":{"c":{"items":{"$recursiveRef":"#"}}}}
document <http://a.test/strict> {"$schema":"https://json-schema.org/draft/2019-09/schema","$id":"http://a.test/strict","$recursiveAnchor":true,"$ref":"tree","type":"object"}
document <http://a.test/open> {"$schema":"https://json-schema.org/draft/2019-09/schema","$id":"http://a.test/open","$ref":"tree","type":"object"}
document <http://a.test/needing> {"$schema":"https://json-schema.org/draft/2019-09/schema","$id":"http://a.test/needing","$recursiveAnchor":true,"$ref":"tree","required":["v"]}
"##;

const BY_RECURSIVE_SCOPE: &str = r##"
base http://a.test/strict
told {"c":[1]} => #/c/0 #/$ref/properties/c/items/$recursiveRef/type

base http://a.test/needing
told {"v":1,"c":[{}]} => #/c/0 #/$ref/properties/c/items/$recursiveRef/required

base http://a.test/tree
told {"v":1,"c":[{}]} => valid
told {"c":[1]} => valid

base http://a.test/open
told {"c":[1]} => valid

base http://a.test/strict
told {"c":[{"c":[1]}]} => #/c/0/c/0 #/$ref/properties/c/items/$recursiveRef/$ref/properties/c/items/$recursiveRef/type
"##;

#[test]
fn recursive_ones(rt: HostRuntime) {
    assert_cases(&rt, rt.alloc(), RECURSIVE, BY_RECURSIVE_SCOPE);
}
