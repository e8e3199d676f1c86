// What is reached from a root before any value is seen: the text of the first cause, next to the root first.
use crate::tests::cases::assert_cases;

const FROM_R: &str = "base http://a.test/r\n";

const CAUSES: &str = r##"
document <http://a.test/r> true
build => built

document <http://a.test/r> {"type":["array","null"],"minItems":2,"x":1}
build => built

document <http://a.test/r> {"items":{"$ref":"#"},"properties":{"a":{"$ref":"#/properties/b"},"b":{"$ref":"#/properties/a"}}}
build => built

document <http://a.test/r> 5
build => Keyword value at 'http://a.test/r#': expected schema

document <http://a.test/r> {"items":{"type":"x"}}
build => Keyword value at 'http://a.test/r#/items/type': expected type name

document <http://a.test/r> {"properties":{"a/b~":5}}
build => Keyword value at 'http://a.test/r#/properties/a~1b~0': expected schema

document <http://a.test/r> {"properties":{"a":{"minItems":-1}}}
build => Keyword value at 'http://a.test/r#/properties/a/minItems': expected count

document <http://a.test/r> {"x":[0],"items":{"$ref":"#/x/0"}}
build => Keyword value at 'http://a.test/r#/x/0': expected schema

document <http://a.test/r> {"x":[{"items":5}],"$ref":"#/x/0"}
build => Keyword value at 'http://a.test/r#/x/0/items': expected schema

document <http://a.test/r> {"items":{"unevaluatedItems":true}}
build => Keyword at 'http://a.test/r#/items/unevaluatedItems' is left out

document <http://a.test/r> {"$ref":"#/x"}
build => Pointer '/x' does not exist

document <http://a.test/r> {"items":{"propertyNames":{"items":5}}}
build => Keyword value at 'http://a.test/r#/items/propertyNames/items': expected schema

document <http://a.test/r> {"additionalProperties":{"items":5},"properties":{}}
build => Keyword value at 'http://a.test/r#/additionalProperties/items': expected schema

document <http://a.test/r> {"$schema":"http://json-schema.org/draft-07/schema#"}
build => built

document <http://a.test/r> {"$schema":"http://json-schema.org/draft-07/schema#","items":[true,{"anyOf":[{"propertyNames":{"not":5}}]}]}
build => Keyword value at 'http://a.test/r#/items/1/anyOf/0/propertyNames/not': expected schema

document <http://a.test/r> {"$schema":"http://json-schema.org/draft-07/schema#","$ref":"#/x","type":5,"x":true}
build => built

document <http://a.test/r> {"if":{"items":5},"then":true}
build => Keyword value at 'http://a.test/r#/if/items': expected schema

document <http://a.test/r> {"if":true,"then":{"unevaluatedItems":true}}
build => Keyword at 'http://a.test/r#/then/unevaluatedItems' is left out

document <http://a.test/r> {"if":true,"else":{"$ref":"#/x"}}
build => Pointer '/x' does not exist

document <http://a.test/r> {"if":{"type":5}}
build => built

document <http://a.test/r> {"then":{"type":5},"else":6}
build => built

document <http://a.test/r> {"$dynamicRef":5}
build => Keyword value at 'http://a.test/r#/$dynamicRef': expected text

document <http://a.test/r> {"$dynamicRef":"#/x"}
build => Pointer '/x' does not exist

document <http://a.test/r> {"$schema":"https://json-schema.org/draft/2019-09/schema","items":{"$recursiveRef":"#/x"}}
build => Keyword value at 'http://a.test/r#/items/$recursiveRef': expected text #
"##;

#[test]
fn causes(rt: HostRuntime) {
    assert_cases(&rt, rt.alloc(), FROM_R, CAUSES);
}

// Where there are several causes, the first of the walk: next to the root first, then by the order of the keywords and of what they
// ask. Behind an `if` stands the `then` that it asks.
const FIRST: &str = r##"
document <http://a.test/r> {"not":{"type":5},"type":6}
build => Keyword value at 'http://a.test/r#/type': expected type name

document <http://a.test/r> {"allOf":[{"items":{"type":5}}],"not":{"type":6}}
build => Keyword value at 'http://a.test/r#/not/type': expected type name

document <http://a.test/r> {"properties":{"b":{"type":5},"a":{"type":6}}}
build => Keyword value at 'http://a.test/r#/properties/a/type': expected type name

document <http://a.test/r> {"$ref":"#/$defs/x","$defs":{"x":{"type":5}},"items":{"type":6}}
build => Keyword value at 'http://a.test/r#/$defs/x/type': expected type name

document <http://a.test/r> {"else":{"type":5},"if":{"type":6},"then":{"type":7}}
build => Keyword value at 'http://a.test/r#/else/type': expected type name

document <http://a.test/r> {"if":{"type":5},"then":{"type":6}}
build => Keyword value at 'http://a.test/r#/if/type': expected type name

document <http://a.test/r> {"if":true,"not":{"type":5},"then":{"type":6}}
build => Keyword value at 'http://a.test/r#/then/type': expected type name

document <http://a.test/r> {"contains":{"type":5},"else":{"type":6},"if":true}
build => Keyword value at 'http://a.test/r#/contains/type': expected type name

document <http://a.test/r> {"if":{"items":{"type":5}},"then":{"type":6}}
build => Keyword value at 'http://a.test/r#/then/type': expected type name
"##;

#[test]
fn first_of_several(rt: HostRuntime) {
    assert_cases(&rt, rt.alloc(), FROM_R, FIRST);
}

// Patterns: their values, and those that are refused.
const PATTERNS: &str = r##"
document <http://a.test/r> {"items":{"pattern":"a"}}
build => built

document <http://a.test/r> {"items":{"pattern":5}}
build => Keyword value at 'http://a.test/r#/items/pattern': expected text

document <http://a.test/r> {"items":{"pattern":"a("}}
build => Pattern at 'http://a.test/r#/items/pattern' is refused

document <http://a.test/r> {"pattern":"^a"}
build => built

document <http://a.test/r> {"additionalProperties":false,"patternProperties":{}}
build => built

document <http://a.test/r> {"additionalProperties":false,"patternProperties":{"a/b~(":{}}}
build => Pattern at 'http://a.test/r#/patternProperties/a~1b~0(' is refused

document <http://a.test/r> {"patternProperties":{"a":5}}
build => Keyword value at 'http://a.test/r#/patternProperties/a': expected schema

document <http://a.test/r> {"patternProperties":{"b":{"type":5}}}
build => Keyword value at 'http://a.test/r#/patternProperties/b/type': expected type name

document <http://a.test/r> {"patternProperties":{"a(":{"type":5}}}
build => Pattern at 'http://a.test/r#/patternProperties/a(' is refused

document <http://a.test/r> {"$schema":"http://json-schema.org/draft-07/schema#","$ref":"#/x","pattern":"a(","x":true}
build => built
"##;

#[test]
fn patterns(rt: HostRuntime) {
    assert_cases(&rt, rt.alloc(), FROM_R, PATTERNS);
}

const BESIDE_IN_ANOTHER_DOCUMENT: &str = r##"base http://a.test/r
document <http://a.test/s> {"properties":{"a":{"$ref":"r"},"b":{"minItems":true}}}
"##;

const IN_ANOTHER_DOCUMENT: &str = r##"
document <http://a.test/r> {"items":{"$ref":"s"},"$ref":"s"}
build => Keyword value at 'http://a.test/s#/properties/b/minItems': expected count
"##;

#[test]
fn in_another_document(rt: HostRuntime) {
    assert_cases(
        &rt,
        rt.alloc(),
        BESIDE_IN_ANOTHER_DOCUMENT,
        IN_ANOTHER_DOCUMENT,
    );
}

// The items of `list` are those of the outermost resource: `strings` is one of the scope only where `list` is reached
// through it.
const BESIDE_BY_DYNAMIC_SCOPE: &str = r##"base http://a.test/r
document <http://a.test/list> {"$id":"http://a.test/list","type":"array","items":{"$dynamicRef":"#item"},"$defs":{"d":{"$dynamicAnchor":"item"}}}
document <http://a.test/strings> {"$id":"http://a.test/strings","$ref":"list","$defs":{"s":{"$dynamicAnchor":"item","type":5}}}
"##;

const BY_DYNAMIC_SCOPE: &str = r##"
document <http://a.test/r> {"properties":{"l":{"$ref":"list"}}}
build => built

document <http://a.test/r> {"properties":{"l":{"$ref":"list"},"s":{"$ref":"strings"}}}
build => Keyword value at 'http://a.test/strings#/$defs/s/type': expected type name

document <http://a.test/r> {"properties":{"l":{"$ref":"strings"},"s":{"$ref":"list"}}}
build => Keyword value at 'http://a.test/strings#/$defs/s/type': expected type name
"##;

#[test]
fn by_dynamic_scope(rt: HostRuntime) {
    assert_cases(&rt, rt.alloc(), BESIDE_BY_DYNAMIC_SCOPE, BY_DYNAMIC_SCOPE);
}

// The root of `strict` is reached by a recursive reference alone, from inside `tree`.
const BESIDE_BY_RECURSIVE_ANCHORS: &str = r##"base http://a.test/r
document <http://a.test/tree> {"$schema":"https://json-schema.org/draft/2019-09/schema","$id":"http://a.test/tree","$recursiveAnchor":true,"properties":{"c":{"items":{"$recursiveRef":"#"}}}}
document <http://a.test/strict> {"$schema":"https://json-schema.org/draft/2019-09/schema","$id":"http://a.test/strict","$recursiveAnchor":true,"minItems":-1,"$defs":{"x":{"$ref":"tree"}}}
"##;

const BY_RECURSIVE_ANCHORS: &str = r##"
document <http://a.test/r> {"properties":{"t":{"$ref":"tree"}}}
build => built

document <http://a.test/r> {"properties":{"t":{"$ref":"tree"},"u":{"$ref":"strict#/$defs/x"}}}
build => Keyword value at 'http://a.test/strict#/minItems': expected count
"##;

#[test]
fn by_recursive_anchors(rt: HostRuntime) {
    assert_cases(
        &rt,
        rt.alloc(),
        BESIDE_BY_RECURSIVE_ANCHORS,
        BY_RECURSIVE_ANCHORS,
    );
}

// Dynamic references that come back end.
const BESIDE_DYNAMIC_CIRCLES: &str = r##"base http://a.test/r
document <http://a.test/tree> {"$id":"http://a.test/tree","$dynamicAnchor":"node","properties":{"a":{"$dynamicRef":"#node"},"b":{"$ref":"r"}}}
"##;

const DYNAMIC_CIRCLES: &str = r##"
document <http://a.test/r> {"$id":"http://a.test/r","$dynamicAnchor":"node","$ref":"tree","items":{"$dynamicRef":"tree#node"}}
build => built
"##;

#[test]
fn dynamic_circles(rt: HostRuntime) {
    assert_cases(&rt, rt.alloc(), BESIDE_DYNAMIC_CIRCLES, DYNAMIC_CIRCLES);
}

// Identifiers behind references, where no schema place of the document is.
const IDENTIFIERS: &str = r##"
root #/x
document <http://a.test/r> {"x":{"$id":"%%"}}
build => Invalid URI '%%'

document <http://a.test/r> {"$ref":"#/x","x":{"$id":"%%"}}
build => Invalid URI '%%'

document <http://a.test/r> {"$ref":"#/x","x":{"properties":{"a":{"$id":"%%"}}}}
build => Invalid URI '%%'

document <http://a.test/r> {"$ref":"#/x","x":{"items":{"not":{"$id":"%%","type":5}}}}
build => Invalid URI '%%'

document <http://a.test/r> {"$ref":"#/x","x":{"type":5,"not":{"$id":"%%"}}}
build => Keyword value at 'http://a.test/r#/x/type': expected type name

document <http://a.test/r> {"$ref":"#/x","x":{"properties":{"a":{"$id":"y"},"b":{"$id":5}}}}
build => built

document <http://a.test/r> {"$ref":"#/x","x":true,"y":{"properties":{"a":{"$id":"%%"}}}}
build => built

document <http://a.test/r> {"$schema":"http://json-schema.org/draft-07/schema#","items":{"$ref":"#/x"},"x":{"items":{"$ref":"#/y","$id":"%%"}},"y":true}
build => built

document <http://a.test/r> {"$schema":"http://json-schema.org/draft-04/schema#","items":{"$ref":"#/x"},"x":{"items":{"id":"%%"}}}
build => Invalid URI '%%'
"##;

#[test]
fn identifiers(rt: HostRuntime) {
    assert_cases(&rt, rt.alloc(), FROM_R, IDENTIFIERS);
}

// A literal form is not asked of the maker.
const LITERAL: &str = r##"
refuse ^a
document <> {"pattern":"^a"}
scripted "ab" => valid
scripted "b" => # #/pattern

refuse a(
document <> {"items":{"pattern":"a("}}
scripted [] => Pattern at 'json-schema:///#/items/pattern' is refused
"##;

#[test]
fn literal_forms(rt: HostRuntime) {
    assert_cases(&rt, rt.alloc(), "", LITERAL);
}
