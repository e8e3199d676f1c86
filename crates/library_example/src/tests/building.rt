// What refuses a build, by the texts of the errors.
use crate::tests::answers::outcome;
use crate::tests::cases::assert_cases;
use crate::tests::given::{documents_of, options_of};
use json_schema_validator::{BuildError, Draft, Validator};
use std::alloc::Global;
use std::process::Abort;

const BESIDE_A_NUMBER: &str = r##"base http://a.test/r
document <http://a.test/s> {"a":5}
"##;

const REACHED: &str = r##"
document <http://a.test/r> {"$ref":"#/$defs/none"}
build => Pointer '/$defs/none' does not exist

document <http://a.test/r> {"$defs":{"u":{"type":5}}}
build => built

document <http://a.test/r> {"$ref":"#/$defs/u","$defs":{"u":{"type":5}}}
build => Keyword value at 'http://a.test/r#/$defs/u/type': expected type name

document <http://a.test/r> {"$ref":"s#/a"}
build => Keyword value at 'http://a.test/s#/a': expected schema

document <http://a.test/r> {"properties":{"x":{"minItems":"1"}}}
build => Keyword value at 'http://a.test/r#/properties/x/minItems': expected count

document <http://a.test/r> {"properties":{"x":5}}
build => Keyword value at 'http://a.test/r#/properties/x': expected schema

document <http://a.test/r> {"unevaluatedItems":false}
build => Keyword at 'http://a.test/r#/unevaluatedItems' is left out

document <http://a.test/r> {"not":{"unevaluatedProperties":false}}
build => Keyword at 'http://a.test/r#/not/unevaluatedProperties' is left out

document <http://a.test/r> {"items":{"propertyNames":{"items":5}}}
build => Keyword value at 'http://a.test/r#/items/propertyNames/items': expected schema

document <http://a.test/r> {"$dynamicRef":5}
build => Keyword value at 'http://a.test/r#/$dynamicRef': expected text

document <http://a.test/r> {"$dynamicRef":"#none"}
build => Anchor 'none' does not exist

document <http://a.test/r> 5
build => Keyword value at 'http://a.test/r#': expected schema
"##;

#[test]
fn by_what_is_reached(rt: HostRuntime) {
    assert_cases(&rt, rt.alloc(), BESIDE_A_NUMBER, REACHED);
}

const BESIDE_TRUE: &str = r##"base http://a.test/r
document <http://a.test/s> true
"##;

const IN_DOCUMENTS: &str = r##"
document <http://a.test/r> {"$defs":{"u":{"$ref":"http://b.test/"}}}
build => Resource 'http://b.test/' is not present and retrieving it failed

document <http://a.test/r> {"$defs":{"u":{"$id":"http://a.test/%zz"}}}
build => Invalid URI 'http://a.test/%zz'

document <http://a.test/r> {"$schema":"http://a.test/m"}
build => Unknown meta-schema 'http://a.test/m'
"##;

const BY_IDENTIFIERS: &str = r##"
document <http://a.test/r> {"$ref":"#/x","x":{"$id":"%%"}}
build => Invalid URI '%%'

document <http://a.test/r> {"$ref":"#/x","x":{"properties":{"a":{"$id":"%%"}}}}
build => Invalid URI '%%'

document <http://a.test/r> {"$ref":"#/x","x":{"items":{"not":{"$id":"%%"}}}}
build => Invalid URI '%%'

# nothing leads there
document <http://a.test/r> {"$ref":"#/y","x":{"properties":{"a":{"$id":"%%"}}},"y":true}
build => built
"##;

const BY_OLDER_DRAFTS: &str = r##"
document <http://a.test/r> {"$schema":"https://json-schema.org/draft/2019-09/schema","$recursiveRef":"#/x"}
build => Keyword value at 'http://a.test/r#/$recursiveRef': expected text #

document <http://a.test/r> {"$schema":"http://json-schema.org/draft-07/schema#","$recursiveRef":"#/x"}
build => built

document <http://a.test/r> {"$schema":"http://json-schema.org/draft-07/schema#","items":[true]}
build => built

document <http://a.test/r> {"$schema":"http://json-schema.org/draft-04/schema#","items":5}
build => Keyword value at 'http://a.test/r#/items': expected schema or list

document <http://a.test/r> {"items":[true]}
build => Keyword value at 'http://a.test/r#/items': expected schema

document <http://a.test/r> {"$schema":"http://json-schema.org/draft-06/schema#","$ref":"s","type":5}
build => built
"##;

#[test]
fn by_what_documents_have(rt: HostRuntime) {
    assert_cases(&rt, rt.alloc(), BESIDE_TRUE, IN_DOCUMENTS);
    assert_cases(&rt, rt.alloc(), BESIDE_TRUE, BY_IDENTIFIERS);
    assert_cases(&rt, rt.alloc(), BESIDE_TRUE, BY_OLDER_DRAFTS);
}

const AT_R: &str = r##"base http://a.test/r
"##;

const BY_META_SCHEMAS: &str = r##"
document <http://a.test/r> {"$schema":"http://a.test/s"}
document <http://a.test/s> {"$schema":"http://a.test/r"}
build => Circular meta-schema 'http://a.test/r'

document <http://a.test/r> {"$schema":"http://a.test/s"}
document <http://a.test/s> {"$schema":"http://a.test/none"}
build => Unknown meta-schema 'http://a.test/none'

document <http://a.test/r> {"$defs":{"u":{"$id":"u","$schema":"s"}}}
document <http://a.test/s> true
build => Unknown meta-schema 'json-schema:///s'

document <http://a.test/r> {"$schema":"http://a.test/s","minimum":1,"type":5}
document <http://a.test/s> {"$vocabulary":{"https://json-schema.org/draft/2020-12/vocab/core":true}}
build => built

document <http://a.test/r> {"$schema":"http://a.test/s","unevaluatedItems":false}
document <http://a.test/s> {"$vocabulary":{"https://json-schema.org/draft/2020-12/vocab/unevaluated":true}}
build => Keyword at 'http://a.test/r#/unevaluatedItems' is left out
"##;

#[test]
fn by_meta_schemas(rt: HostRuntime) {
    assert_cases(&rt, rt.alloc(), AT_R, BY_META_SCHEMAS);
}

const BY_OPTIONS: &str = r##"
document <> {"$dynamicRef":5}
build => Keyword value at 'json-schema:///#/$dynamicRef': expected text

document <> {"$dynamicRef":5}
dialect http://json-schema.org/draft-07/schema#
build => built
"##;

const BY_ONE_SCHEMA: &str = r##"
document <> {"type":"integer"}
alone 1 => true
alone "a" => false

document <> {"$ref":"#/$defs/a","$defs":{"a":{"minimum":2}}}
alone 2 => true

document <> {"type":5}
alone 1 => Keyword value at 'json-schema:///#/type': expected type name

document <> {"pattern":"a("}
alone 1 => Pattern at 'json-schema:///#/pattern' is refused

document <> {"pattern":"a.c"}
alone "ac" => false

document <> {"minimum":1.5}
alone 1 => Number at 'json-schema:///#/minimum' is no whole number of 64 bits
"##;

#[test]
fn by_options(rt: HostRuntime) {
    assert_cases(&rt, rt.alloc(), "", BY_OPTIONS);
    assert_cases(&rt, rt.alloc(), "", BY_ONE_SCHEMA);
}

const ON_ONE: &str = r##"dialect https://json-schema.org/draft/2020-12/schema
document <http://a.test/r> {"$defs":{"a":{"type":"null"}}}
"##;

const ROOTS: [(&str, &str); 3] = [
    ("http://a.test/r", "true"),
    ("http://a.test/r#/$defs/a", "false"),
    (
        "",
        "Resource 'json-schema:///' is not present and retrieving it failed",
    ),
];

// That a validator has the newest draft, and whether 1 is valid by it, or why there is none.
fn assert_outcome(
    rt: &impl Abort,
    alloc: Global,
    built: Result<Validator, BuildError>,
    want: &str,
) {
    if let Ok(validator) = &built {
        assert!(rt; validator.draft() == Draft::Draft202012);
    }
    assert!(rt; outcome(rt, alloc, built, "1").as_str() == want, "{want}");
}

#[test]
fn on_one_registry(rt: HostRuntime) {
    let alloc = rt.alloc();
    let options = options_of(&rt, alloc, ON_ONE);
    let documents = documents_of(&rt, alloc, ON_ONE, "document <");
    let registry = options.prepare(&documents).expect(&rt, "a registry");
    for (root, want) in ROOTS {
        assert_outcome(&rt, alloc, options.build_on(&registry, root), want);
    }
}
