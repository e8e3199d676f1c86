// Documents, and which of their schema places bears a URI or an anchor: the document's position, the place's pointer, base and draft.
use crate::scripts::{assert_told, cut_word, document, documents_of, row, set_by, text_of};
use document_index::answers::{anchored, bearer, dynamically_anchored, index_of};
use document_index::document::{Contents, Document};
use document_index::index::{Bearer, Index};
use document_index::standing::standings;
use schema_dialects::MetaSchemas;
use serde_json::Value;
use std::alloc::Global;
use std::process::Abort;
use std::rc::Rc;

fn shown(rt: &impl Abort, alloc: Global, found: Option<&Bearer>) -> String {
    match found {
        Some(place) => {
            let pointer = place.path.to_pointer(alloc).expect(rt, "memory");
            let (base, draft) = (place.base.as_str(), place.dialect.draft);
            format!(in alloc; "{}#{pointer} {base} {draft:?}", place.document).expect(rt, "memory")
        }
        None => text_of(rt, alloc, &"none"),
    }
}

fn found<'i>(rt: &impl Abort, index: &'i Index, question: &str) -> Option<&'i Bearer> {
    let (word, rest) = cut_word(question);
    let (base, name) = cut_word(rest);
    match word {
        "bearer" => index.bearer(base),
        "anchored" => index.anchored(base, name),
        "dynamic" => index.dynamically_anchored(base, name),
        _ => panic!(rt; "no question: {question}"),
    }
}

// What the index of the places of documents answers.
fn by_index(rt: &impl Abort, alloc: Global, documents: &[Document<'_>], question: &str) -> String {
    let places = standings(alloc, &MetaSchemas::none(alloc), documents).expect(rt, "memory");
    let index = Index::of(alloc, &places).expect(rt, "memory");
    shown(rt, alloc, found(rt, &index, question))
}

// A place of an answer, which is one of the document that comes with it.
fn held<'i>(
    rt: &impl Abort,
    documents: &[Document<'_>],
    answer: Option<(&Document<'_>, &'i Bearer)>,
) -> Option<&'i Bearer> {
    let (holder, place) = answer?;
    let document = documents.get(place.document).expect(rt, "a document");
    assert!(rt; holder.contents.value() == document.contents.value());
    Some(place)
}

// What documents answer by their index.
fn by_documents(
    rt: &impl Abort,
    alloc: Global,
    documents: &[Document<'_>],
    question: &str,
) -> String {
    let (word, rest) = cut_word(question);
    let (base, name) = cut_word(rest);
    let index = index_of(alloc, &MetaSchemas::none(alloc), documents).expect(rt, "memory");
    let answer = match word {
        "bearer" => bearer(documents, &index, base),
        "anchored" => anchored(documents, &index, base, name),
        _ => dynamically_anchored(documents, &index, base, name),
    };
    shown(rt, alloc, held(rt, documents, answer))
}

fn assert_indexed(rt: &impl Abort, alloc: Global, documents: &[Document<'_>], topic: &str) {
    for line in topic.lines() {
        if let Some((question, want)) = row(rt, line) {
            assert_told(rt, &by_index(rt, alloc, documents, question), want, line);
            assert_told(
                rt,
                &by_documents(rt, alloc, documents, question),
                want,
                line,
            );
        }
    }
}

const TWO: &str =
    r##"document http://a.test/first {"$id":"http://a.test/own/","$anchor":"top","$defs":{"a":{"$id":"part","$anchor":"twice","$dynamicAnchor":"meta","not":{"$anchor":"twice"}},"b":{"$anchor":"twice"},"c":{"$schema":"http://m.test/unknown","$id":"http://c.test/","$anchor":"c"}}}
document http://a.test/second {"$schema":"http://json-schema.org/draft-07/schema#","$anchor":"none","definitions":{"a":{"$id":"#name"},"b":{"$id":"http://a.test/own/part"},"c":{"$id":"#name","$ref":"#"}}}
bearer http://a.test/first :: 0# http://a.test/own/ Draft202012
bearer http://a.test/own/ :: 0# http://a.test/own/ Draft202012
bearer http://a.test/second :: 1# http://a.test/second Draft7
bearer http://a.test/own/part :: 1#/definitions/b http://a.test/own/part Draft7
bearer http://c.test/ :: none
bearer http://a.test/own :: none
anchored http://a.test/own/ top :: 0# http://a.test/own/ Draft202012
anchored http://a.test/own/ twice :: 0#/$defs/b http://a.test/own/ Draft202012
anchored http://a.test/own/part twice :: 0#/$defs/a/not http://a.test/own/part Draft202012
anchored http://a.test/own/part meta :: 0#/$defs/a http://a.test/own/part Draft202012
anchored http://a.test/own/ meta :: none
anchored http://a.test/first top :: none
anchored http://a.test/own/ c :: none
anchored http://a.test/second name :: 1#/definitions/a http://a.test/second Draft7
anchored http://a.test/second none :: none"##;

const DYNAMIC: &str =
    r##"document http://a.test/d {"$dynamicAnchor":"n","$anchor":"plain","$defs":{"a":{"$dynamicAnchor":"n"},"b":{"$id":"part","$dynamicAnchor":"n"},"c":{"$anchor":"n"},"d":{"$schema":"https://json-schema.org/draft/2019-09/schema","$id":"old","$dynamicAnchor":"n"}}}
dynamic http://a.test/d n :: 0#/$defs/a http://a.test/d Draft202012
dynamic http://a.test/part n :: 0#/$defs/b http://a.test/part Draft202012
dynamic http://a.test/d plain :: none
dynamic http://a.test/old n :: none"##;

const ONE_URI: &str = r##"document http://a.test/ {"$anchor":"x"}
document http://a.test/ {"$dynamicAnchor":"y"}
bearer http://a.test/ :: 1# http://a.test/ Draft202012
anchored http://a.test/ x :: 0# http://a.test/ Draft202012
bearer http://b.test/ :: none"##;

#[test]
fn places_of_documents(rt: HostRuntime) {
    for topic in [TWO, DYNAMIC, ONE_URI] {
        assert_indexed(
            &rt,
            rt.alloc(),
            &documents_of(&rt, rt.alloc(), topic),
            topic,
        );
    }
}

// The same two documents, one lent and one shared.
fn lent_and_shared<'a>(
    rt: &impl Abort,
    alloc: Global,
    lent: &'a Value,
    shared: Value,
) -> Vec<Document<'a>> {
    let shared = Contents::Shared(Rc::new(alloc, shared).expect(rt, "memory"));
    let first = document(rt, alloc, "http://a.test/first", Contents::Lent(lent));
    let second = document(rt, alloc, "http://a.test/second", shared);
    vec![in alloc; first, second].expect(rt, "memory")
}

#[test]
fn places_of_lent_and_shared_documents(rt: HostRuntime) {
    let alloc = rt.alloc();
    let mut pairs = set_by(&rt, alloc, TWO, "document");
    let (_, shared) = pairs.pop().expect(&rt, "a document");
    let (_, lent) = pairs.pop().expect(&rt, "a document");
    assert_indexed(&rt, alloc, &lent_and_shared(&rt, alloc, &lent, shared), TWO);
}
