// What stands beside `$ref` in Drafts 6 and 7, ignored and read by the option; Draft 4 and the later drafts are the same with it.
use crate::tests::cases::assert_cases;
use crate::tests::given::{documents_of, json, options_of};
use json_schema_validator::{CheckAnswer, FaultPath, RegexMaker, check_fault};
use std::alloc::Global;
use std::process::Abort;

const IGNORED: &str = r##"base http://a.test/r
dialect http://json-schema.org/draft-07/schema#
"##;

const READ: &str = r##"base http://a.test/r
dialect http://json-schema.org/draft-07/schema#
siblings read
"##;

const OFF: &str = r##"
document <http://a.test/r> {"properties":{"x":{"$ref":"#/definitions/s","minimum":10}},"definitions":{"s":{"type":"integer"}}}
told {"x":3} => valid
told {"x":"a"} => #/x #/properties/x/$ref/type

# the identifier beside a reference is not read
document <http://a.test/r> {"properties":{"x":{"$id":"http://b.test/y/","$ref":"z"}}}
document <http://a.test/z> {"type":"integer"}
document <http://b.test/y/z> {"type":"string"}
told {"x":1} => valid

document <http://a.test/r> {"properties":{"x":{"$ref":"#/definitions/s","pattern":5}},"definitions":{"s":true}}
build => built

# nothing below a sibling is a schema place but below definitions
document <http://a.test/r> {"$ref":"#/definitions/s","properties":{"x":{"$id":"http://a.test/x"}},"definitions":{"s":true}}
build => built

# nor is the identifier of a schema behind a reference, even if it is no URI reference
document <http://a.test/r> {"items":{"$ref":"#/x"},"x":{"properties":{"a":{"$id":"%%","$ref":"#/definitions/s"}}},"definitions":{"s":true}}
build => built

document <http://a.test/r> {"allOf":[{"$ref":"http://a.test/x"},{"$ref":"#/definitions/s","properties":{"x":{"$id":"http://a.test/x","type":"string"}}}],"definitions":{"s":true}}
build => Resource 'http://a.test/x' is not present and retrieving it failed

# the `$schema` beside a reference does not count, and the schema is of the dialect around it
document <http://a.test/r> {"$schema":"https://json-schema.org/draft/2019-09/schema","properties":{"x":{"$id":"x","$schema":"http://json-schema.org/draft-07/schema#","$ref":"#/definitions/s","dependentRequired":{"a":["b"]},"definitions":{"s":{"maxProperties":1}}}}}
told {"x":{"a":1}} => #/x #/properties/x/dependentRequired

document <http://a.test/r> {"$schema":"http://json-schema.org/draft-06/schema#","properties":{"x":{"$ref":"#/definitions/s","minimum":10}},"definitions":{"s":{"type":"integer"}}}
told {"x":3} => valid
"##;

const ON: &str = r##"
document <http://a.test/r> {"properties":{"x":{"$ref":"#/definitions/s","minimum":10}},"definitions":{"s":{"type":"integer"}}}
told {"x":3} => #/x #/properties/x/minimum
told {"x":10} => valid
told {"x":"a"} => #/x #/properties/x/$ref/type

# a reference is resolved against the base that the identifier beside it gives
document <http://a.test/r> {"properties":{"x":{"$id":"http://b.test/y/","$ref":"z"}}}
document <http://a.test/z> {"type":"integer"}
document <http://b.test/y/z> {"type":"string"}
told {"x":1} => #/x #/properties/x/$ref/type

document <http://a.test/r> {"properties":{"x":{"$ref":"#/definitions/s","pattern":5}},"definitions":{"s":true}}
build => Keyword value at 'http://a.test/r#/properties/x/pattern': expected text

document <http://a.test/r> {"items":{"$ref":"#/x"},"x":{"properties":{"a":{"$id":"%%","$ref":"#/definitions/s"}}},"definitions":{"s":true}}
build => Invalid URI '%%'

# each schema place beside a reference is one
document <http://a.test/r> {"allOf":[{"$ref":"http://a.test/x"},{"$ref":"#/definitions/s","properties":{"x":{"$id":"http://a.test/x","type":"string"}}}],"definitions":{"s":true}}
told {"x":1} => # #/allOf/0/$ref/type, #/x #/allOf/1/properties/x/type
told "a" => valid

# the `$schema` beside a reference counts, since the identifier beside it does
document <http://a.test/r> {"$schema":"https://json-schema.org/draft/2019-09/schema","properties":{"x":{"$id":"x","$schema":"http://json-schema.org/draft-07/schema#","$ref":"#/definitions/s","dependentRequired":{"a":["b"]},"definitions":{"s":{"maxProperties":1}}}}}
told {"x":{"a":1}} => valid
told {"x":{"a":1,"c":1}} => #/x #/properties/x/$ref/maxProperties

document <http://a.test/r> {"$schema":"http://json-schema.org/draft-06/schema#","properties":{"x":{"$ref":"#/definitions/s","minimum":10}},"definitions":{"s":{"type":"integer"}}}
told {"x":3} => #/x #/properties/x/minimum

document <http://a.test/r> {"$schema":"https://json-schema.org/draft/2019-09/schema","properties":{"x":{"$ref":"#/$defs/s","minimum":10}},"$defs":{"s":{"type":"integer"}}}
told {"x":3} => #/x #/properties/x/minimum
"##;

// Draft 4 ignores what stands beside a reference, whatever is asked for.
const DRAFT_4: &str = r##"
document <http://a.test/r> {"$schema":"http://json-schema.org/draft-04/schema#","properties":{"x":{"$ref":"#/definitions/s","minimum":10}},"definitions":{"s":{"type":"integer"}}}
told {"x":3} => valid
told {"x":"a"} => #/x #/properties/x/$ref/type
"##;

// A meta-schema of Draft 7 that is read by the option too.
const META: &str =
    r##"meta <http://a.test/m> {"$schema":"http://json-schema.org/draft-07/schema#","$id":"http://a.test/m","properties":{"title":{"$ref":"#/definitions/s","minLength":2}},"definitions":{"s":{"type":"string"}}}
"##;

const BY_META: &str = r##"document <http://a.test/r> {"$schema":"http://a.test/m","title":"a"}
"##;

#[test]
fn ignored(rt: HostRuntime) {
    assert_cases(&rt, rt.alloc(), IGNORED, OFF);
    assert_cases(&rt, rt.alloc(), IGNORED, DRAFT_4);
}

#[test]
fn read(rt: HostRuntime) {
    assert_cases(&rt, rt.alloc(), READ, ON);
    assert_cases(&rt, rt.alloc(), READ, DRAFT_4);
}

fn assert_by_meta_schema(rt: &impl Abort, alloc: Global, given: &str, want: &str) {
    let case = format!(in alloc; "{BY_META}build => {want}\n").expect(rt, "memory");
    let given = format!(in alloc; "{given}{META}").expect(rt, "memory");
    assert_cases(rt, alloc, given.as_str(), case.as_str());
}

#[test]
fn meta_schemas_are_read_by_it(rt: HostRuntime) {
    assert_by_meta_schema(&rt, rt.alloc(), IGNORED, "built");
    assert_by_meta_schema(
        &rt,
        rt.alloc(),
        READ,
        "Schema refused by its meta-schema at '/title', '/properties/title/minLength': #/properties/title/minLength #/properties/title/minLength \"a\" MinLength",
    );
}

// What is said of the path through a sibling.
fn assert_checked(rt: &impl Abort, alloc: Global, given: &str, want: CheckAnswer) {
    let case = format!(in alloc;
        "{given}document <http://a.test/r> {{\"properties\":{{\"x\":{{\"$ref\":\"#/definitions/s\",\"minimum\":10}}}},\"definitions\":{{\"s\":{{\"type\":\"integer\"}}}}}}\n"
    ).expect(rt, "memory");
    let documents = documents_of(rt, alloc, case.as_str(), "document <");
    let registry = options_of(rt, alloc, case.as_str())
        .prepare(&documents)
        .expect(rt, "a registry");
    let value = json(rt, alloc, r##"{"x":3}"##);
    let path = FaultPath {
        instance_path: "/x",
        evaluation_path: "/properties/x/minimum",
    };
    let answer = check_fault(alloc, &registry, "", &RegexMaker, &value, path);
    assert!(rt; answer.expect(rt, "memory") == want, "{given}");
}

#[test]
fn checked(rt: HostRuntime) {
    assert_checked(&rt, rt.alloc(), IGNORED, CheckAnswer::Refused);
    assert_checked(&rt, rt.alloc(), READ, CheckAnswer::Accepted);
}
