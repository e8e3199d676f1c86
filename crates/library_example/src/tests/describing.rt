// Why there is no validator, in words: each cause with the sentence that is wanted, a line each behind `says`.
use crate::tests::given::{built, documents_of};
use json_schema_validator::{
    BuildCause, BuildError, DocumentError, Documents, Error, RefusedDocuments, RefusedRoot,
    RegexMaker, Retrieve, RetrieveError, Validator,
};
use serde_json::Value;
use std::alloc::Global;
use std::process::Abort;
use uri_references::uri::Uri;

const AT_R: &str = r##"base http://a.test/r
document <http://a.test/s> {"a":5,"b":[true]}
"##;

const VALUES: &str = r##"
document <http://a.test/r> {"properties":{"x":{"minItems":"1"}}}
says Expected count, found "1"
says   at 'http://a.test/r#/properties/x/minItems'

document <http://a.test/r> {"type":["integer",null]}
says Expected type name, found ["integer",null]
says   at 'http://a.test/r#/type'

# a member of the keyword's value, an item of it, and what a reference leads to
document <http://a.test/r> {"dependentRequired":{"a":["b","c"],"d":["e","e"]}}
says Expected unique names, found ["e","e"]
says   at 'http://a.test/r#/dependentRequired/d'

document <http://a.test/r> {"properties":{"x":5}}
says Expected schema, found 5
says   at 'http://a.test/r#/properties/x'

document <http://a.test/r> {"anyOf":[true,{"a/b":[]},"c"]}
says Expected schema, found "c"
says   at 'http://a.test/r#/anyOf/2'

document <http://a.test/r> {"$ref":"s#/b"}
says Expected schema, found [true]
says   at 'http://a.test/s#/b'

# the root itself
document <http://a.test/r> 5
says Expected schema, found 5
says   at 'http://a.test/r#'

# of 60 code points all are shown, of 61 the first 60
document <http://a.test/r> {"pattern":[123456789,123456789,123456789,123456789,123456789,12345678]}
says Expected text, found [123456789,123456789,123456789,123456789,123456789,12345678]
says   at 'http://a.test/r#/pattern'

document <http://a.test/r> {"pattern":[123456789,123456789,123456789,123456789,123456789,123456789]}
says Expected text, found [123456789,123456789,123456789,123456789,123456789,123456789...
says   at 'http://a.test/r#/pattern'

document <http://a.test/r> {"$ref":5}
says Expected text, found 5
says   at 'http://a.test/r#/$ref'
"##;

const PATTERNS: &str = r##"
document <http://a.test/r> {"items":{"pattern":"a("}}
says The pattern "a(" is refused
says   at 'http://a.test/r#/items/pattern'

document <http://a.test/r> {"patternProperties":{"^a":true,"\n[":true}}
says The pattern "\n[" is refused
says   at 'http://a.test/r#/patternProperties/
says ['

document <http://a.test/r> {"unevaluatedItems":false}
says The keyword is left out by this library
says   at 'http://a.test/r#/unevaluatedItems'
"##;

const REFERENCES: &str = r##"
document <http://a.test/r> {"properties":{"x":{"$ref":"s#/none"}}}
says The reference "s#/none" is refused: nothing stands at the pointer '/none'
says   at 'http://a.test/r#/properties/x/$ref'

document <http://a.test/r> {"$ref":"s#/b/x"}
says The reference "s#/b/x" is refused: 'x' is no index of an array
says   at 'http://a.test/r#/$ref'

document <http://a.test/r> {"$ref":"#a/b"}
says The reference "#a/b" is refused: 'a/b' is no anchor
says   at 'http://a.test/r#/$ref'

document <http://a.test/r> {"$ref":"#none"}
says The reference "#none" is refused: no schema there has the anchor 'none'
says   at 'http://a.test/r#/$ref'

document <http://a.test/r> {"$ref":"#/%ff"}
says The reference "#/%ff" is refused: the pointer '/%ff' is no text decoded
says   at 'http://a.test/r#/$ref'

document <http://a.test/r> {"$ref":"#/x","x":{"items":{"$id":"%%"}}}
says The reference "%%" is refused: '%%' is no URI reference taken here
says   at 'http://a.test/r#/x/items'
"##;

const DOCUMENTS: &str = r##"
document <http://a.test/r> {"$defs":{"u":{"$ref":"http://b.test/"}}}
says The documents are refused: the document 'http://b.test/' is not present
says   by the reference "http://b.test/" at 'http://a.test/r#/$defs/u/$ref'

document <http://a.test/r> {"$schema":"http://a.test/m"}
says The documents are refused: the meta-schema 'http://a.test/m' is not known
says   by the reference "http://a.test/m" at 'http://a.test/r#/$schema'

document <http://a.test/r> {"$schema":"http://a.test/t"}
document <http://a.test/t> {"$schema":"http://a.test/r"}
says The documents are refused: the meta-schema 'http://a.test/r' waits for itself
says   by the reference "http://a.test/t" at 'http://a.test/r#/$schema'

document <http://a.test/r> {"$defs":{"u":{"$id":"http://a.test/%zz"}}}
says The documents are refused: 'http://a.test/%zz' is no URI reference taken here
says   by the reference "http://a.test/%zz" at 'http://a.test/r#/$defs/u/$id'

# the part before the fragment is none
document <http://a.test/r> {"not":{"$ref":"%\"#/x"}}
says The documents are refused: '%"' is no URI reference taken here
says   by the reference "%\"#/x" at 'http://a.test/r#/not/$ref'

# of the meta-schemas
meta <http://a.test/m> {"$defs":{"a/b":{"$ref":"http://b.test/"}}}
document <http://a.test/r> {"$ref":"http://c.test/"}
says The documents are refused: the document 'http://b.test/' is not present
says   by the reference "http://b.test/" at 'http://a.test/m#/$defs/a~1b/$ref'

# what is given for another reference is not what they are refused for
document <http://a.test/r> {"items":{"$ref":"http://b.test/one"},"not":{"$ref":"http://b.test/two#/x"}}
retrieved <http://b.test/one> true
says The documents are refused: the document 'http://b.test/two' is not present
says   by the reference "http://b.test/two#/x" at 'http://a.test/r#/not/$ref'

# the first of two
document <http://a.test/r> {"items":{"$ref":"http://b.test/#a"},"not":{"$ref":"http://b.test/"}}
says The documents are refused: the document 'http://b.test/' is not present
says   by the reference "http://b.test/#a" at 'http://a.test/r#/items/$ref'

# a document that was retrieved asks for it
document <http://a.test/r> {"items":{"$ref":"http://b.test/one"}}
retrieved <http://b.test/one> {"items":{"$ref":"http://b.test/two"}}
says The documents are refused: the document 'http://b.test/two' is not present

# more documents than may be retrieved
document <http://a.test/r> {"items":{"$ref":"http://b.test/one"},"not":{"$ref":"http://b.test/two"}}
retrieved <http://b.test/one> true
retrieved <http://b.test/two> true
retrievals 1
says The documents are refused: more than 1 documents are wanted
"##;

const ROOTS: &str = r##"
root http://a.test/r#/items
document <http://a.test/r> true
says The reference "http://a.test/r#/items" to the root leads nowhere from 'http://a.test/r': nothing stands at the pointer '/items'

root s#/b/1
document <http://a.test/r> true
says The reference "s#/b/1" to the root leads nowhere from 'http://a.test/r': nothing stands at the pointer '/b/1'

root t
document <http://a.test/r> true
says The reference "t" to the root leads nowhere from 'http://a.test/r': the document 'http://a.test/t' is not present

limit 1
document <http://a.test/r> {"items":true}
says More than 1 schemas are reached

meta <http://a.test/m> {"properties":{"type":{"anyOf":[{"type":"string"},{"minItems":2}]}}}
document <http://a.test/r> {"$schema":"http://a.test/m","type":["integer"]}
says The meta-schema 'http://a.test/m' refuses the schema at 'http://a.test/r#/type', by '/properties/type/anyOf': ["integer"] is to be accepted by a schema of anyOf, and is by 0 of 2
says   anyOf/0: /type: ["integer"] is not of type string
says   anyOf/1: /type: ["integer"] has fewer items than the minimum 2

# a root that is not that of its document
root #/items
meta <http://a.test/m> {"properties":{"type":{"type":"string"}}}
document <http://a.test/r> {"items":{"$id":"i","$schema":"http://a.test/m","type":["integer"]}}
says The meta-schema 'http://a.test/m' refuses the schema at 'http://a.test/r#/items/type', by '/properties/type/type': ["integer"] is not of type string
"##;

// What is wanted of a case.
fn wanted(rt: &impl Abort, alloc: Global, case: &str) -> String {
    let mut text = String::new(alloc);
    for line in case.lines() {
        if let Some(words) = line.strip_prefix("says ") {
            let between = if text.is_empty() { "" } else { "\n" };
            text.push_str(between).expect(rt, "memory");
            text.push_str(words).expect(rt, "memory");
        }
    }
    assert!(rt; !text.is_empty(), "nothing is wanted of\n{case}");
    text
}

fn described(rt: &impl Abort, alloc: Global, built: &Result<Validator, BuildError>) -> String {
    let text = match built {
        Ok(_) => String::from_str(alloc, "built"),
        Err(error) => error.description(alloc),
    };
    text.expect(rt, "memory")
}

fn assert_described(rt: &impl Abort, alloc: Global, cases: &str) {
    for case in cases.trim().split("\n\n") {
        let case = format!(in alloc; "{AT_R}{case}").expect(rt, "memory");
        let found = described(rt, alloc, &built(rt, alloc, case.as_str()));
        let wanted = wanted(rt, alloc, case.as_str());
        assert!(rt;
            found.as_str() == wanted.as_str(),
            "{found}\nand not\n{wanted}\nin\n{case}"
        );
    }
}

#[test]
fn causes(rt: HostRuntime) {
    assert_described(&rt, rt.alloc(), VALUES);
    assert_described(&rt, rt.alloc(), PATTERNS);
    assert_described(&rt, rt.alloc(), REFERENCES);
    assert_described(&rt, rt.alloc(), DOCUMENTS);
    assert_described(&rt, rt.alloc(), ROOTS);
}

// A document added, and a validator of it: the error of the first becomes one of the second.
fn added(alloc: Global, uri: &str, text: &str) -> Result<Validator, BuildError> {
    let mut documents = Documents::new(alloc);
    documents.add_text(uri, text.as_bytes())?;
    Validator::options(alloc)?.build(&documents, uri)
}

const TEXTS: [(&str, &str, &str); 8] = [
    ("", "{\"type\":\"string\"}", "built"),
    (
        "",
        "{\"minItems\":\"1\"}",
        "Expected count, found \"1\"\n  at 'json-schema:///#/minItems'",
    ),
    (
        "",
        "{\"$ref\":\"#/$defs/none\"}",
        "The reference \"#/$defs/none\" is refused: nothing stands at the pointer '/$defs/none'\n  at 'json-schema:///#/$ref'",
    ),
    (
        "",
        "{\"a\":\n 1,}",
        "The document 'json-schema:///' is no JSON text, from line 2, column 4 on",
    ),
    (
        "http://a.test/r",
        "[1]\n2",
        "The document 'http://a.test/r' is no JSON text, from line 2, column 1 on",
    ),
    (
        "http://a.test/r",
        "{\"a\":[0,1.5]}",
        "The number 1.5 at 'http://a.test/r#/a/1' is no whole number from -2^63 to 2^64-1",
    ),
    (
        "http://a.test/%",
        "true",
        "The text 'http://a.test/%' is no URI of a document",
    ),
    (
        "http://a.test/r#x",
        "true",
        "The text 'http://a.test/r#x' is no URI of a document",
    ),
];

fn assert_says(rt: &impl Abort, alloc: Global, error: BuildError, words: &str) {
    let found = error.description(alloc).expect(rt, "memory");
    assert!(rt; found.as_str() == words, "{found}\nand not\n{words}");
}

#[test]
fn documents(rt: HostRuntime) {
    let alloc = rt.alloc();
    for (uri, text, words) in &TEXTS {
        let found = described(&rt, alloc, &added(alloc, uri, text));
        assert!(rt; found.as_str() == *words, "{found}\nand not\n{words}");
    }
    let found = DocumentError::Memory.description(alloc);
    assert!(rt; found.expect(&rt, "memory").as_str() == "No memory");
    assert_says(
        &rt,
        alloc,
        BuildError::from(DocumentError::Memory),
        "No memory",
    );
}

fn refused_together(error: Error) -> BuildError {
    BuildError::Registry(RefusedDocuments { error, at: None })
}

fn refused_root(rt: &impl Abort, alloc: Global, base: &str, reference: &str) -> BuildError {
    BuildError::Root(RefusedRoot {
        base: Uri::parse(alloc, base).expect(rt, "a URI"),
        reference: String::from_str(alloc, reference).expect(rt, "memory"),
        error: Error::Memory,
    })
}

fn unretrieved(rt: &impl Abort, alloc: Global, uri: &str) -> BuildError {
    let uri = String::from_str(alloc, uri).expect(rt, "memory");
    let source = RetrieveError::Memory;
    refused_together(Error::Unretrievable { uri, source })
}

// Memory that is out where documents are prepared, where the root is looked up, and at a schema; of a retriever that lacks it, the document
// is not present.
#[test]
fn memory(rt: HostRuntime) {
    let alloc = rt.alloc();
    let words = "The documents are refused: no memory";
    assert_says(&rt, alloc, refused_together(Error::Memory), words);
    let words = "The reference \"#\\n\" to the root leads nowhere from 'u:b': no memory";
    assert_says(&rt, alloc, refused_root(&rt, alloc, "u:b", "#\n"), words);
    assert_says(
        &rt,
        alloc,
        BuildError::Schema(BuildCause::Memory),
        "No memory",
    );
    let words = "The documents are refused: the document 'u:a' is not present";
    assert_says(&rt, alloc, unretrieved(&rt, alloc, "u:a"), words);
}

// Whoever is asked and says why nothing comes.
#[derive(Drop)]
struct Offline;

impl Retrieve for Offline {
    fn retrieve(&self, alloc: Global, _uri: &Uri) -> Result<Value, RetrieveError> {
        match String::from_str(alloc, "no network") {
            Ok(text) => Err(RetrieveError::Failed { text }),
            Err(_) => Err(RetrieveError::Memory),
        }
    }
}

#[test]
fn retrievers(rt: HostRuntime) {
    let alloc = rt.alloc();
    let case = "document <http://a.test/r> {\"items\":{\"$ref\":\"s\"}}";
    let documents = documents_of(&rt, alloc, case, "document <");
    let options = Validator::options(alloc)
        .expect(&rt, "memory")
        .with_pattern_maker(RegexMaker)
        .with_retriever(Offline);
    let found = described(&rt, alloc, &options.build(&documents, "http://a.test/r"));
    let words =
        "The documents are refused: the document 'http://a.test/s' is not present, and retrieving it failed: no network\n  by the reference \"s\" at 'http://a.test/r#/items/$ref'";
    assert!(rt; found.as_str() == words, "{found}\nand not\n{words}");
}
