// Documents that are retrieved, and registries that begin with the documents of another.
use crate::registries::{Prepared, assert_asked, assert_retrieved, assert_rows, prepared_with};
use crate::scripts::{assert_last_row, documents_of, limit, set_by, text_of, topics};
use document_retrieval::rounds::prepare_wanted;
use document_sources::error::{Error, RetrieveError};
use document_sources::layer::Layer;
use document_sources::{DefaultRetriever, MapRetriever, Retrieve};
use referencing::registry::Registry;
use schema_drafts::draft::Draft;
use serde_json::Value;
use std::alloc::Global;
use std::cell::Cell;
use std::process::Abort;
use std::rc::Rc;
use uri_references::uri::Uri;

// The retriever of the answers of a topic.
pub(crate) fn retriever_of(rt: &impl Abort, alloc: Global, topic: &str) -> MapRetriever {
    let mut retriever = MapRetriever::new(alloc);
    for (uri, document) in set_by(rt, alloc, topic, "answer") {
        retriever.add(alloc, uri, document).expect(rt, uri);
    }
    retriever
}

// URIs in their order.
pub(crate) fn uris(rt: &impl Abort, alloc: Global, uris: &[Rc<Uri>]) -> String {
    let mut line = String::new(alloc);
    for uri in uris {
        write!(line, "{} ", uri.as_str()).expect(rt, "memory");
    }
    line
}

// That the answer of the last row of a topic is told of what is gathered for its documents: the URIs that were answered, or the error.
pub(crate) fn assert_gathered<R: Retrieve>(
    rt: &impl Abort,
    alloc: Global,
    topic: &str,
    retriever: &R,
) {
    let documents = documents_of(rt, alloc, topic);
    let limit = limit(rt, topic);
    let layer = Layer {
        number: 0,
        draft: Draft::Draft202012,
        siblings: false,
    };
    let told = match prepare_wanted(alloc, documents, layer, retriever, limit) {
        Ok(gathered) => uris(rt, alloc, &gathered.retrieved.uris),
        Err(error) => text_of(rt, alloc, &error),
    };
    assert_last_row(rt, topic, &told);
}

const RETRIEVED: &str = r##"
document http://a.test/r {"properties":{"x":{"$ref":"http://a.test/x"},"y":{"$ref":"http://a.test/y"}}}
answer http://a.test/x true
answer http://a.test/y true
limit 1
refused :: More than 1 documents wanted

document http://a.test/r {"properties":{"x":{"$ref":"http://a.test/x"},"y":{"$ref":"http://a.test/y"}}}
answer http://a.test/x true
answer http://a.test/y true
limit 2
retrieved :: http://a.test/x http://a.test/y

document http://a.test/r {"properties":{"x":{"$ref":"http://a.test/x"},"y":{"$ref":"http://a.test/y"},"z":{"$ref":"HTTP://a.test/x#/a"}}}
answer http://a.test/x true
answer http://a.test/y true
limit 1
refused :: More than 1 documents wanted

document http://a.test/r {"properties":{"x":{"$ref":"http://a.test/x"},"y":{"$ref":"http://a.test/y"},"z":{"$ref":"HTTP://a.test/x#/a"}}}
answer http://a.test/x true
answer http://a.test/y true
limit 2
retrieved :: http://a.test/x http://a.test/y

document http://a.test/r {"$ref":"#/a"}
answer http://a.test/x true
answer http://a.test/y true
limit 0
retrieved ::

document http://a.test/r {"properties":{"x":{"$ref":"http://a.test/x"},"y":{"$ref":"http://a.test/y"}}}
answer http://a.test/x {"$defs":{"y":{"$id":"http://a.test/y"}}}
refused :: Resource 'http://a.test/y' is not present and retrieving it failed

document http://a.test/r {"properties":{"x":{"$ref":"http://a.test/x"},"y":{"$ref":"http://a.test/y"},"z":{"$ref":"HTTP://a.test/x#/a"}}}
answer http://a.test/x {"$defs":{"y":{"$id":"http://a.test/y"}}}
refused :: Resource 'http://a.test/y' is not present and retrieving it failed

document http://a.test/r {"$ref":"b"}
answer http://a.test/b {"$ref":"c"}
answer http://a.test/c {"items":{"$ref":"b"},"not":{"$ref":"r"}}
retrieved :: http://a.test/b http://a.test/c

document http://a.test/r {"$schema":"http://a.test/m"}
answer http://a.test/m {"$schema":"http://json-schema.org/draft-07/schema#"}
dialect http://a.test/r :: Draft7 items type
retrieved :: http://a.test/m

document http://a.test/r {"$schema":"http://a.test/m","definitions":{"a":{"$ref":"http://a.test/x"}},"$defs":{"b":{"$ref":"http://a.test/y"}}}
answer http://a.test/m {"$schema":"http://json-schema.org/draft-07/schema#"}
answer http://a.test/x true
retrieved :: http://a.test/m http://a.test/x

document http://a.test/r {"$schema":"http://a.test/m","$ref":"x"}
answer http://a.test/m {"$schema":"http://a.test/n"}
refused :: Unknown meta-schema 'http://a.test/n'
"##;

const CAUSES_OF_ANSWERS: &str = r##"document http://a.test/r {"$ref":"x"}
answer http://a.test/x {"$id":"a b"}
refused :: Invalid URI 'a b'"##;

const NOT_RETRIEVED: &str = r##"
document http://a.test/r {"$ref":"#/a"}
limit 0
retrieved ::

document http://a.test/r {"$schema":"http://a.test/m"}
refused :: Unknown meta-schema 'http://a.test/m'
"##;

#[test]
fn documents_retrieved(rt: HostRuntime) {
    for topic in topics(RETRIEVED) {
        assert_retrieved(&rt, rt.alloc(), topic);
        assert_gathered(
            &rt,
            rt.alloc(),
            topic,
            &retriever_of(&rt, rt.alloc(), topic),
        );
    }
    assert_retrieved(&rt, rt.alloc(), CAUSES_OF_ANSWERS);
    for topic in topics(NOT_RETRIEVED) {
        assert_gathered(&rt, rt.alloc(), topic, &DefaultRetriever);
    }
}

// Answers each URI with a document that refers to a further one.
#[derive(Drop)]
struct Web;

impl Retrieve for Web {
    fn retrieve(&self, alloc: Global, uri: &Uri) -> Result<Value, RetrieveError> {
        let Ok(text) = format!(in alloc; "{{\"$ref\":\"{}x\"}}", uri.as_str()) else {
            return Err(RetrieveError::Memory);
        };
        match Value::from_str(alloc, text.as_str()) {
            Ok(document) => Ok(document),
            Err(_) => Err(RetrieveError::Refused),
        }
    }
}

const WEB: &str = r##"document http://a.test/r {"$ref":"x"}
limit 3
refused :: More than 3 documents wanted"##;

// Gives nothing, and says why.
#[derive(Drop)]
struct Closed;

impl Retrieve for Closed {
    fn retrieve(&self, alloc: Global, _uri: &Uri) -> Result<Value, RetrieveError> {
        match String::from_str(alloc, "closed on Sundays") {
            Ok(text) => Err(RetrieveError::Failed { text }),
            Err(_) => Err(RetrieveError::Memory),
        }
    }
}

const CLOSED: &str = r##"document http://a.test/r {"$ref":"x"}
refused :: Resource 'http://a.test/x' is not present and retrieving it failed"##;

#[test]
fn a_retriever_says_why(rt: HostRuntime) {
    let alloc = rt.alloc();
    assert_gathered(&rt, alloc, CLOSED, &Closed);
    match prepared_with(&rt, alloc, CLOSED, Closed) {
        Err(Error::Unretrievable { uri, source }) => {
            let closed = String::from_str(alloc, "closed on Sundays").expect(&rt, "memory");
            assert_eq!(rt; uri.as_str(), "http://a.test/x");
            assert!(rt; source == RetrieveError::Failed { text: closed });
        }
        _ => panic!(rt; "another answer"),
    }
}

// Answers `true` once and `false` from then on, and counts how often it is asked.
#[derive(Drop)]
struct Counting<'c> {
    asked: &'c Cell<u32>,
}

impl Retrieve for Counting<'_> {
    fn retrieve(&self, _alloc: Global, _uri: &Uri) -> Result<Value, RetrieveError> {
        let before = self.asked.get();
        self.asked.set(before.wrapping_add(1));
        Ok(Value::Bool(before == 0))
    }
}

// Topics, each with how often the retriever is asked for it.
const COUNTED: [(u32, &str); 4] = [
    (
        1,
        r##"document http://a.test/r {"properties":{"x":{"$ref":"x"},"y":{"$ref":"http://A.test/x#"}}}
retrieved :: http://a.test/x
lookup http://a.test/x :: http://a.test/x# http://a.test/x true"##,
    ),
    (
        2,
        r##"document http://a.test/r {"properties":{"x":{"$ref":"x"},"y":{"$ref":"y"},"z":{"$ref":"x#/a"}}}
retrieved :: http://a.test/x http://a.test/y
lookup http://a.test/y :: http://a.test/y# http://a.test/y false"##,
    ),
    (
        0,
        r##"document http://a.test/r {"$ref":"#/a"}
retrieved ::"##,
    ),
    (
        0,
        r##"document http://a.test/r {"properties":{"x":{"$ref":"x"},"y":{"$ref":"y"}}}
limit 1
refused :: More than 1 documents wanted"##,
    ),
];

fn assert_counted(rt: &impl Abort, alloc: Global, topic: &str, want: u32) {
    let asked = Cell::new(0);
    let retriever = Counting { asked: &asked };
    let prepared = prepared_with(rt, alloc, topic, retriever);
    assert_asked(rt, alloc, &prepared, topic);
    assert_eq!(rt; asked.get(), want, "{topic}");
}

#[test]
fn a_web_and_how_often_it_is_asked(rt: HostRuntime) {
    let alloc = rt.alloc();
    assert_asked(&rt, alloc, &prepared_with(&rt, alloc, WEB, Web), WEB);
    for (want, topic) in COUNTED {
        assert_counted(&rt, alloc, topic, want);
    }
}

const PARENT: &str = r##"document http://a.test/r {"$ref":"x"}
answer http://a.test/x [1]"##;

const CHILD: &str = r##"retrieved ::
lookup http://a.test/r :: http://a.test/r# http://a.test/r {"$ref":"x"}
lookup http://a.test/x :: http://a.test/x# http://a.test/x [1]
lookup http://a.test/z :: http://a.test/z# http://a.test/z null"##;

// One document of the child's again, and one more.
const GRANDCHILD: &str = r##"document http://a.test/x true
document http://a.test/w false
lookup http://a.test/x :: http://a.test/x# http://a.test/x true
lookup http://a.test/w :: http://a.test/w# http://a.test/w false
lookup http://a.test/z :: http://a.test/z# http://a.test/z null"##;

const AFTERWARDS: &str = r##"lookup http://a.test/x :: http://a.test/x# http://a.test/x [1]"##;

fn with_null<'a>(parent: &Registry<'a>) -> Prepared<'a> {
    parent.add("http://a.test/z", Value::Null)?.prepare()
}

fn with_pairs<'a>(rt: &impl Abort, parent: &Registry<'a>) -> Prepared<'a> {
    let pairs = set_by(rt, parent.allocator(), GRANDCHILD, "document");
    parent.extend(pairs)?.prepare()
}

fn assert_children(rt: &impl Abort, parent: &Registry<'_>) {
    let child = with_null(parent).expect(rt, "a registry");
    assert_rows(rt, &child, CHILD);
    let grandchild = with_pairs(rt, &child).expect(rt, "a registry");
    assert_rows(rt, &grandchild, GRANDCHILD);
    assert_rows(rt, parent, AFTERWARDS);
}

#[test]
fn children_of_registries(rt: HostRuntime) {
    let retriever = retriever_of(&rt, rt.alloc(), PARENT);
    let parent = prepared_with(&rt, rt.alloc(), PARENT, retriever).expect(&rt, "a registry");
    assert_children(&rt, &parent);
}
