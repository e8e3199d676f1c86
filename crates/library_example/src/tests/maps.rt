// Validators for each schema of a document, by their JSON Pointers.
use crate::tests::answers::{faults, why};
use crate::tests::cases::assert_cases;
use crate::tests::given::{documents_of, json, named, options_of, setting};
use json_schema_validator::{BuildError, ValidatorMap};
use std::alloc::Global;
use std::process::Abort;

fn map_of(rt: &impl Abort, alloc: Global, case: &str) -> Result<ValidatorMap, BuildError> {
    let documents = documents_of(rt, alloc, case, "document <");
    let root = setting(case, "root ").unwrap_or("");
    options_of(rt, alloc, case).build_map(&documents, root)
}

// The pointers, which are as many as the map says.
fn pointers(rt: &impl Abort, alloc: Global, map: &ValidatorMap) -> String {
    let mut text = String::new(alloc);
    let mut count = 0usize;
    for key in map.keys() {
        let between = if text.is_empty() { "" } else { " " };
        write!(text, "{between}<{key}>").expect(rt, "memory");
        count = count.wrapping_add(1);
    }
    assert!(rt;
        map.len() == count && map.is_empty() == (count == 0),
        "{text}"
    );
    text
}

fn has(rt: &impl Abort, alloc: Global, map: &ValidatorMap, input: &str) -> String {
    let pointer = input.trim_start_matches('<').trim_end_matches('>');
    let has = map.contains_key(pointer);
    assert!(rt; map.get(pointer).is_some() == has, "{pointer}");
    format!(in alloc; "{has}").expect(rt, "memory")
}

fn at(rt: &impl Abort, alloc: Global, map: &ValidatorMap, input: &str) -> String {
    let (pointer, text) = named(input, "<").expect(rt, "a pointer");
    let value = json(rt, alloc, text);
    let validator = map.get(pointer).expect(rt, "a validator");
    let errors = validator.iter_errors(&value).expect(rt, "memory");
    faults(rt, alloc, errors)
}

fn answer_by(
    rt: &impl Abort,
    alloc: Global,
    map: &ValidatorMap,
    word: &str,
    input: &str,
) -> String {
    match word {
        "keys" => pointers(rt, alloc, map),
        "has" => has(rt, alloc, map, input),
        "at" => at(rt, alloc, map, input),
        _ => panic!(rt; "no question is {word}"),
    }
}

// The answer of the map of a case, or why there is none.
pub(crate) fn map_answer(
    rt: &impl Abort,
    alloc: Global,
    case: &str,
    word: &str,
    input: &str,
) -> String {
    match map_of(rt, alloc, case) {
        Ok(map) => answer_by(rt, alloc, &map, word, input),
        Err(error) => why(rt, alloc, error),
    }
}

const BESIDE: &str = r##"base http://a.test/r
document <http://a.test/s> {"$defs":{"bad":{"type":5},"text":{"type":"string"}}}
"##;

const KEYS: &str = r##"
document <http://a.test/r> {"$ref":"#/$defs/node","$defs":{"node":{"type":"object","properties":{"next":{"$ref":"#/$defs/node"},"v":{"type":"integer"}}}}}
keys => <> </$defs/node> </$defs/node/properties/next> </$defs/node/properties/v>

document <http://a.test/r> {"properties":{"a":{"type":5},"b":{"type":"integer"}}}
keys => </properties/b>

document <http://a.test/r> {"$defs":{"bad":{"pattern":"a("},"good":{"pattern":"a."},"uses":{"items":{"$ref":"#/$defs/bad"}}}}
keys => <> </$defs/good>

document <http://a.test/r> {"$defs":{"a":{"not":{"$ref":"#/$defs/b"}},"b":{"not":{"$ref":"#/$defs/a"},"minItems":"1"},"c":{"$ref":"s#/$defs/bad"},"d":{"$ref":"s#/$defs/text"}}}
keys => <> </$defs/d>

# the schema of `a` leads to an identifier that is no URI reference
document <http://a.test/r> {"$defs":{"a":{"$ref":"#/x"},"b":true},"x":{"properties":{"y":{"$id":"%%"}}}}
keys => <> </$defs/b>

document <http://a.test/r> {"properties":{"a/b%":true}}
keys => <> </properties/a~1b%>

document <http://a.test/r> false
keys => <>

document <http://a.test/r> {"unevaluatedItems":false}
keys => </unevaluatedItems>

# of the places `` and `/properties/a` and `/properties/b`, the root leads to two more keys, since these have schema paths
limit 5
document <http://a.test/r> {"properties":{"a":true,"b":{"type":"null"}}}
keys => <> </properties/a> </properties/b>

limit 4
document <http://a.test/r> {"properties":{"a":true,"b":{"type":"null"}}}
keys => More than 4 schema nodes

# no meta-schema is asked
meta <http://a.test/m> {"$schema":"https://json-schema.org/draft/2020-12/schema","$id":"http://a.test/m","not":{}}
document <http://a.test/r> {"$schema":"http://a.test/m","not":{}}
keys => <> </not>
"##;

const ROOTS: &str = r##"
# of the document of the root
document <http://a.test/r> {"$defs":{"x":true}}
root #/$defs/x
keys => <> </$defs/x>

document <http://a.test/r> {"$defs":{"x":true}}
root s#/$defs/text
keys => <> </$defs/text>

document <http://a.test/r> {"$defs":{"x":true}}
root #/$defs/none
keys => Pointer '/$defs/none' does not exist

document <http://a.test/r> {"$defs":{"x":true}}
root http://b.test/
keys => Resource 'http://b.test/' is not present and retrieving it failed
"##;

const READ: &str = r##"
document <http://a.test/r> {"$ref":"#/$defs/node","$defs":{"node":{"type":"object","properties":{"next":{"$ref":"#/$defs/node"},"v":{"type":"integer"}}}}}
has <> => true
has <#> => true
has <#/$defs/node> => true
has </$defs/node> => true
has <##/$defs/node> => false
has </$defs> => false
has </$defs/node/> => false
at <> {"v":1,"next":{"v":"x"}} => #/next/v #/$ref/properties/next/$ref/properties/v/type
at <#/$defs/node> {"v":1,"next":{"v":"x"}} => #/next/v #/properties/next/$ref/properties/v/type
at </$defs/node/properties/v> {"v":1,"next":{"v":"x"}} => # #/type
"##;

// Each is read behind its document's own resource (2020-12, Core 8.2.3.2; 2019-09, Core 8.2.4.2).
const SCOPES: &str = r##"
document <http://a.test/r> {"$id":"http://a.test/r","$defs":{"e":{"$id":"http://a.test/e","$dynamicAnchor":"n","properties":{"x":{"$dynamicRef":"#n"}}},"s":{"$dynamicAnchor":"n","type":"string"}}}
at </$defs/e> {"x":1} => #/x #/properties/x/$dynamicRef/type
at </$defs/e> {"x":"a"} => valid

# as a root by itself it is alone in its scope
document <http://a.test/r> {"$id":"http://a.test/r","$defs":{"e":{"$id":"http://a.test/e","$dynamicAnchor":"n","properties":{"x":{"$dynamicRef":"#n"}}},"s":{"$dynamicAnchor":"n","type":"string"}}}
root #/$defs/e
build {"x":1} => true
build {"x":{"x":1}} => true

# the own resource goes by its identifier, under whatever URI the document was added
document <http://a.test/given> {"$id":"http://a.test/r","$defs":{"e":{"$id":"http://a.test/e","$dynamicAnchor":"n","properties":{"x":{"$dynamicRef":"#n"}}},"s":{"$dynamicAnchor":"n","type":"string"}}}
root given
at </$defs/e> {"x":1} => #/x #/properties/x/$dynamicRef/type

# whatever root the map was asked for
document <http://a.test/r> {"$id":"http://a.test/r","$defs":{"e":{"$id":"http://a.test/e","$dynamicAnchor":"n","properties":{"x":{"$dynamicRef":"#n"}}},"s":{"$dynamicAnchor":"n","type":"string"}}}
root #/$defs/e
at </$defs/e> {"x":1} => #/x #/properties/x/$dynamicRef/type

# a resource that the pointer passes on its way is not entered
document <http://a.test/r> {"$id":"http://a.test/r","$defs":{"m":{"$id":"http://a.test/m","$defs":{"e":{"$id":"http://a.test/e","$dynamicAnchor":"n","properties":{"x":{"$dynamicRef":"#n"}}},"s":{"$dynamicAnchor":"n","type":"string"}}}}}
at </$defs/m/$defs/e> {"x":1} => valid
at </$defs/m> {"x":1} => valid

document <http://a.test/r> {"$schema":"https://json-schema.org/draft/2019-09/schema","$id":"http://a.test/r","$recursiveAnchor":true,"required":["v"],"$defs":{"e":{"$id":"http://a.test/e","$recursiveAnchor":true,"properties":{"x":{"$recursiveRef":"#"}}}}}
at </$defs/e> {"x":{}} => #/x #/properties/x/$recursiveRef/required
at </$defs/e> {"x":{"v":1}} => valid

document <http://a.test/r> {"$schema":"https://json-schema.org/draft/2019-09/schema","$id":"http://a.test/r","$recursiveAnchor":true,"required":["v"],"$defs":{"e":{"$id":"http://a.test/e","$recursiveAnchor":true,"properties":{"x":{"$recursiveRef":"#"}}}}}
root #/$defs/e
build {"x":{}} => true
"##;

#[test]
fn have_each_schema_that_may_be_read(rt: HostRuntime) {
    assert_cases(&rt, rt.alloc(), BESIDE, KEYS);
    assert_cases(&rt, rt.alloc(), BESIDE, ROOTS);
    assert_cases(&rt, rt.alloc(), BESIDE, READ);
}

#[test]
fn are_read_behind_their_document(rt: HostRuntime) {
    assert_cases(&rt, rt.alloc(), BESIDE, SCOPES);
}
