// All that is wrong with a root, and names that are no keywords.
use crate::tests::answers::why;
use crate::tests::cases::assert_cases;
use crate::tests::given::{documents_of, options_of, setting};
use json_schema_validator::{BuildCause, UnknownKeyword, unknown_keywords};
use std::alloc::Global;
use std::process::Abort;
use uri_references::uri::from_str;

fn or_none(rt: &impl Abort, alloc: Global, text: String) -> String {
    if text.is_empty() {
        return String::from_str(alloc, "none").expect(rt, "memory");
    }
    text
}

// The causes of a root, or why they are not listed.
pub(crate) fn causes(rt: &impl Abort, alloc: Global, case: &str) -> String {
    let options = options_of(rt, alloc, case);
    let documents = documents_of(rt, alloc, case, "document <");
    let registry = options.prepare(&documents).expect(rt, "a registry");
    let causes = match options.causes_on(&registry, setting(case, "root ").unwrap_or("")) {
        Ok(causes) => causes,
        Err(error) => return why(rt, alloc, error),
    };
    let mut text = String::new(alloc);
    for cause in causes.as_slice() {
        let between = if text.is_empty() { "" } else { "; " };
        write!(text, "{between}{cause}").expect(rt, "memory");
    }
    or_none(rt, alloc, text)
}

fn write_reference(rt: &impl Abort, text: &mut String, cause: &BuildCause) {
    let between = if text.is_empty() { "" } else { "; " };
    match cause {
        BuildCause::Reference {
            place,
            reference,
            error,
        } => write!(text, "{between}{reference} at {place}: {error}").expect(rt, "memory"),
        _ => write!(text, "{between}{cause}").expect(rt, "memory"),
    }
}

fn references(rt: &impl Abort, alloc: Global, causes: &[BuildCause]) -> String {
    let mut text = String::new(alloc);
    for cause in causes {
        write_reference(rt, &mut text, cause);
    }
    or_none(rt, alloc, text)
}

// The references of the documents to what is not at hand.
pub(crate) fn absent(rt: &impl Abort, alloc: Global, case: &str) -> String {
    let documents = documents_of(rt, alloc, case, "document <");
    let causes = options_of(rt, alloc, case)
        .absent_in(&documents)
        .expect(rt, "memory");
    references(rt, alloc, causes.as_slice())
}

// The texts of the documents that name nothing.
pub(crate) fn misnamed(rt: &impl Abort, alloc: Global, case: &str) -> String {
    let documents = documents_of(rt, alloc, case, "document <");
    let causes = options_of(rt, alloc, case)
        .misnamed_in(&documents)
        .expect(rt, "memory");
    references(rt, alloc, causes.as_slice())
}

// Where each fault that the meta-schema of a root tells stands in the root, and the road to it.
pub(crate) fn refusals(rt: &impl Abort, alloc: Global, case: &str) -> String {
    let options = options_of(rt, alloc, case);
    let documents = documents_of(rt, alloc, case, "document <");
    let registry = options.prepare(&documents).expect(rt, "a registry");
    let root = setting(case, "root ").unwrap_or("");
    let faults = match options.meta_schema_faults_on(&registry, root) {
        Ok(faults) => faults,
        Err(error) => return why(rt, alloc, error),
    };
    let mut text = String::new(alloc);
    for fault in faults.as_slice() {
        let between = if text.is_empty() { "" } else { "; " };
        let (place, road) = (fault.instance_path(), fault.evaluation_path());
        write!(text, "{between}'{place}' by '{road}'").expect(rt, "memory");
    }
    or_none(rt, alloc, text)
}

fn write_unknown(rt: &impl Abort, text: &mut String, keyword: &UnknownKeyword) {
    let between = if text.is_empty() { "" } else { "; " };
    let (name, place, draft) = (keyword.name.as_str(), &keyword.place, keyword.draft);
    write!(text, "{between}{name} at {place} by {draft:?}").expect(rt, "memory");
}

// The names that are no keywords in a document.
pub(crate) fn unknown(rt: &impl Abort, alloc: Global, case: &str, uri: &str) -> String {
    let documents = documents_of(rt, alloc, case, "document <");
    let registry = options_of(rt, alloc, case)
        .prepare(&documents)
        .expect(rt, "a registry");
    let uri = from_str(alloc, uri).expect(rt, "a URI");
    let keywords = unknown_keywords(alloc, &registry, &uri).expect(rt, "memory");
    let mut text = String::new(alloc);
    for keyword in keywords.as_slice() {
        write_unknown(rt, &mut text, keyword);
    }
    or_none(rt, alloc, text)
}

const AT_R: &str = "base http://a.test/r\n";

// The root's own first, in the order of its members, and then those of what it leads to; nothing of what is not reached.
const CAUSES: &str = r##"
document <http://a.test/r> {"type":"object","$defs":{"u":{"type":5}}}
causes => none

document <http://a.test/r> {"minItems":"1","items":{"$ref":"#/$defs/u"},"pattern":"(","$defs":{"u":{"type":5,"not":7},"v":{"type":5}}}
causes => Keyword value at 'http://a.test/r#/minItems': expected count; Pattern at 'http://a.test/r#/pattern' is refused; Keyword value at 'http://a.test/r#/$defs/u/not': expected schema; Keyword value at 'http://a.test/r#/$defs/u/type': expected type name

document <http://a.test/r> {"properties":{"a":{"$ref":"#"},"b":{"$ref":"#none"}},"unevaluatedItems":false}
causes => Keyword at 'http://a.test/r#/unevaluatedItems' is left out; Anchor 'none' does not exist

document <http://a.test/r> 5
causes => Keyword value at 'http://a.test/r#': expected schema

root #/$defs/u
document <http://a.test/r> {"minItems":"1","$defs":{"u":{"type":5}}}
causes => Keyword value at 'http://a.test/r#/$defs/u/type': expected type name

root #/none
document <http://a.test/r> true
causes => Pointer '/none' does not exist

limit 1
document <http://a.test/r> {"minItems":"1","items":true}
causes => More than 1 schema nodes
"##;

// By the meta-schema that counts at the root and was handed in; of it the value of the root alone.
const REFUSALS: &str = r##"
meta <http://a.test/m> {"properties":{"a":{"type":"string"},"minItems":{"maximum":1},"items":{"required":["title"]}},"required":["b"]}
document <http://a.test/r> {"$schema":"http://a.test/m","a":1,"minItems":2,"items":{}}
refusals => '/a' by '/properties/a/type'; '/items' by '/properties/items/required'; '/minItems' by '/properties/minItems/maximum'; '' by '/required'
causes => none

meta <http://a.test/m> {"required":["b"]}
document <http://a.test/r> {"$schema":"http://a.test/m","b":1}
refusals => none

document <http://a.test/r> {"type":5}
refusals => none

meta <http://a.test/m> {"type":5}
document <http://a.test/r> {"$schema":"http://a.test/m"}
refusals => Keyword value at 'http://a.test/m#/type': expected type name

root #/none
meta <http://a.test/m> true
document <http://a.test/r> true
refusals => Pointer '/none' does not exist
"##;

// Each place by itself, of what nobody is asked for. Meta-schemas are looked at by themselves first, since they are prepared so.
const ABSENT: &str = r##"
document <http://a.test/r> {"$ref":"#/$defs/a","$defs":{"a":{"$ref":"s#/x"},"b":{"$id":"b","$schema":"http://a.test/m"},"c":{"$ref":"t"},"d":{"$ref":"s"}}}
document <http://a.test/t> {"$ref":"b"}
absent => s#/x at http://a.test/r#/$defs/a/$ref: Resource 'http://a.test/s' is not present and retrieving it failed; http://a.test/m at http://a.test/r#/$defs/b/$schema: Unknown meta-schema 'http://a.test/m'; s at http://a.test/r#/$defs/d/$ref: Resource 'http://a.test/s' is not present and retrieving it failed; b at http://a.test/t#/$ref: Resource 'http://a.test/b' is not present and retrieving it failed

document <http://a.test/r> {"$ref":"t","$dynamicRef":"s"}
document <http://a.test/t> {"$id":"u","$ref":"u"}
absent => none

retrieved <http://a.test/s> true
document <http://a.test/r> {"$ref":"s"}
absent => s at http://a.test/r#/$ref: Resource 'http://a.test/s' is not present and retrieving it failed

meta <http://a.test/m> {"$ref":"n"}
document <http://a.test/n> true
document <http://a.test/r> {"$ref":"s"}
absent => n at http://a.test/m#/$ref: Resource 'http://a.test/n' is not present and retrieving it failed

meta <http://a.test/m> {"required":["b"]}
document <http://a.test/r> {"$schema":"http://a.test/m","$ref":"s","items":{"$ref":"m"}}
absent => s at http://a.test/r#/$ref: Resource 'http://a.test/s' is not present and retrieving it failed
"##;

// Each text at its own place, level by level: a `$schema` where it counts, the identifier by the draft there, a `$ref` up to its `#`. What
// stands beside a `$schema` that is awaited is not looked at. Meta-schemas are looked at by themselves first.
const MISNAMED: &str = r##"
document <http://a.test/r> {"$id":"%","$ref":"a b#/x","items":{"$ref":"#%"},"$defs":{"a":{"$id":"^"},"b":{"$id":"b","$schema":"%zz"},"c":{"$schema":"%","$ref":"r"}}}
misnamed => % at http://a.test/r#/$id: Invalid URI '%'; a b#/x at http://a.test/r#/$ref: Invalid URI 'a b'; ^ at http://a.test/r#/$defs/a/$id: Invalid URI '^'; %zz at http://a.test/r#/$defs/b/$schema: Invalid URI '%zz'
build => Invalid URI '%'

document <http://a.test/r> {"$schema":"http://json-schema.org/draft-04/schema#","id":"%","$id":"^","definitions":{"a":{"$ref":"%","id":"^"}}}
misnamed => % at http://a.test/r#/id: Invalid URI '%'; % at http://a.test/r#/definitions/a/$ref: Invalid URI '%'
build => Invalid URI '%'

document <http://a.test/r> {"$schema":"%","$id":"r","properties":{"$id":{"const":"%"}}}
misnamed => % at http://a.test/r#/$schema: Invalid URI '%'
build => Invalid URI '%'

document <http://a.test/r> {"$id":"r","$ref":"s","properties":{"$id":{"const":"%"}},"const":{"$ref":"%"}}
misnamed => none

document <http://a.test/c> {"$schema":"http://a.test/c"}
document <http://a.test/r> {"$id":"%","items":{"$id":"http://a.test/i","$schema":"http://a.test/c#","$ref":"%"}}
misnamed => http://a.test/c at http://a.test/c#/$schema: Circular meta-schema 'http://a.test/c'; % at http://a.test/r#/$id: Invalid URI '%'; http://a.test/c# at http://a.test/r#/items/$schema: Circular meta-schema 'http://a.test/c'
absent => none
build => Circular meta-schema 'http://a.test/c'

document <http://a.test/r> {"$schema":"http://a.test/s"}
document <http://a.test/s> {"$schema":"http://a.test/r"}
misnamed => http://a.test/s at http://a.test/r#/$schema: Circular meta-schema 'http://a.test/r'; http://a.test/r at http://a.test/s#/$schema: Circular meta-schema 'http://a.test/s'
build => Circular meta-schema 'http://a.test/r'

document <http://a.test/r> {"$schema":"http://a.test/s","$id":"%"}
document <http://a.test/s> {"$schema":"http://a.test/none"}
misnamed => none
absent => http://a.test/none at http://a.test/s#/$schema: Unknown meta-schema 'http://a.test/none'

document <http://a.test/r> {"$defs":{"c":{"$id":"c","$schema":"http://a.test/c"}}}
misnamed => http://a.test/c at http://a.test/r#/$defs/c/$schema: Circular meta-schema 'http://a.test/c'
absent => http://a.test/c at http://a.test/r#/$defs/c/$schema: Unknown meta-schema 'http://a.test/c'

meta <http://a.test/m> {"$id":"m","$ref":"%"}
document <http://a.test/r> {"$id":"%"}
misnamed => % at http://a.test/m#/$ref: Invalid URI '%'
build => Invalid URI '%'

meta <http://a.test/m> true
document <http://a.test/r> {"$schema":"http://a.test/m","$ref":"%"}
misnamed => % at http://a.test/r#/$ref: Invalid URI '%'
build => Invalid URI '%'

meta <http://a.test/m> {"$schema":"http://a.test/m"}
document <http://a.test/r> {"$schema":"http://a.test/m"}
misnamed => http://a.test/m at http://a.test/m#/$schema: Circular meta-schema 'http://a.test/m'
build => Circular meta-schema 'http://a.test/m'

document <http://a.test/m> {"$schema":"https://json-schema.org/draft/2020-12/schema"}
document <http://a.test/r> {"$schema":"http://a.test/m","$defs":{"x":{"$schema":"http://json-schema.org/draft-04/schema#","id":"http://a.test/m"}}}
misnamed => none
build => Circular meta-schema 'http://a.test/m'
"##;

// By the draft of each schema, whatever a name begins with; nothing of what is no schema, nor of names that only tell something.
const UNKNOWN: &str = r##"
document <http://a.test/r> {"nmae":1,"x-a":1,"title":"t","default":{"nmae":1},"enum":[{"nmae":1}],"properties":{"nmae":{"additionalItems":false}}}
unknown http://a.test/r => nmae at http://a.test/r#/nmae by Draft202012; x-a at http://a.test/r#/x-a by Draft202012; additionalItems at http://a.test/r#/properties/nmae/additionalItems by Draft202012
unknown http://a.test/s => none

document <http://a.test/r> {"$schema":"http://json-schema.org/draft-04/schema#","const":1,"description":"d","examples":[1],"format":"f"}
unknown http://a.test/r => const at http://a.test/r#/const by Draft4; examples at http://a.test/r#/examples by Draft4

document <http://a.test/r> {"$schema":"http://json-schema.org/draft-06/schema#","const":1,"examples":[1],"readOnly":true}
unknown http://a.test/r => readOnly at http://a.test/r#/readOnly by Draft6

document <http://a.test/r> {"$schema":"http://json-schema.org/draft-07/schema#","readOnly":true,"contentMediaType":"m","deprecated":true}
unknown http://a.test/r => deprecated at http://a.test/r#/deprecated by Draft7

document <http://a.test/r> {"$schema":"https://json-schema.org/draft/2019-09/schema","deprecated":true,"contentSchema":{},"$comment":"c","prefixItems":[]}
unknown http://a.test/r => prefixItems at http://a.test/r#/prefixItems by Draft201909
"##;

#[test]
fn all_causes(rt: HostRuntime) {
    assert_cases(&rt, rt.alloc(), AT_R, CAUSES);
}

#[test]
fn all_refusals(rt: HostRuntime) {
    assert_cases(&rt, rt.alloc(), AT_R, REFUSALS);
}

#[test]
fn unknown_names(rt: HostRuntime) {
    assert_cases(&rt, rt.alloc(), AT_R, UNKNOWN);
}

#[test]
fn all_absent(rt: HostRuntime) {
    assert_cases(&rt, rt.alloc(), AT_R, ABSENT);
}

#[test]
fn all_misnamed(rt: HostRuntime) {
    assert_cases(&rt, rt.alloc(), AT_R, MISNAMED);
}
