// Scripts: topics with an empty line between two. A row of a topic is a question and, behind `::`, the answer that is wanted; its other
// lines set what is asked, each by a word, a URI and a text.
use document_index::document::{Contents, Document, DocumentName};
use schema_dialects::Dialect;
use schema_drafts::draft::Draft;
use serde_json::Value;
use std::alloc::Global;
use std::fmt::Display;
use std::process::Abort;
use std::rc::Rc;
use std::str::Split;
use uri_references::uri::from_str;

pub(crate) fn topics(script: &'static str) -> Split<'static, &'static str> {
    script.trim().split("\n\n")
}

// The question and the answer of a line that is a row; any other sets something.
pub(crate) fn row<'t>(rt: &impl Abort, line: &'t str) -> Option<(&'t str, &'t str)> {
    match line.split_once(" ::") {
        Some((question, want)) => Some((question, want.trim())),
        None => {
            assert!(rt;
                ["document", "answer", "limit"].contains(&cut_word(line).0),
                "{line}"
            );
            None
        }
    }
}

// The first word of a text, and what is behind it.
pub(crate) fn cut_word(text: &str) -> (&str, &str) {
    text.split_once(' ').unwrap_or((text, ""))
}

pub(crate) fn json(rt: &impl Abort, alloc: Global, text: &str) -> Value {
    Value::from_str(alloc, text).expect(rt, text)
}

// Each URI and document that a topic sets by a word.
pub(crate) fn set_by<'t>(
    rt: &impl Abort,
    alloc: Global,
    topic: &'t str,
    word: &str,
) -> Vec<(&'t str, Value)> {
    let mut pairs = Vec::new(alloc);
    for line in topic.lines() {
        let (first, rest) = cut_word(line);
        if first == word {
            let (uri, text) = cut_word(rest);
            let document = json(rt, alloc, text);
            pairs.push((uri, document)).expect(rt, "memory");
        }
    }
    pairs
}

// How many documents may be retrieved: as many as a builder allows where a topic sets no limit.
pub(crate) fn limit(rt: &impl Abort, topic: &str) -> u64 {
    match topic.split_once("\nlimit ") {
        Some((_, rest)) => {
            let (text, _) = rest.split_once('\n').expect(rt, rest);
            text.parse().expect(rt, text)
        }
        None => 256,
    }
}

// That a text is the answer that is wanted, the space at its ends aside.
pub(crate) fn assert_told(rt: &impl Abort, told: &str, want: &str, asked: &str) {
    assert_eq!(rt; told.trim(), want.trim(), "{asked}");
}

// That a text is the answer of the last row of a topic.
pub(crate) fn assert_last_row(rt: &impl Abort, topic: &str, told: &str) {
    let (_, want) = topic.rsplit_once(" ::").expect(rt, topic);
    assert_told(rt, told, want, topic);
}

pub(crate) fn text_of<T: Display>(rt: &impl Abort, alloc: Global, value: &T) -> String {
    value.to_string(alloc).expect(rt, "memory")
}

pub(crate) fn document<'a>(
    rt: &impl Abort,
    alloc: Global,
    uri: &str,
    contents: Contents<'a>,
) -> Document<'a> {
    let uri = from_str(alloc, uri).expect(rt, uri);
    let uri = Rc::new(alloc, uri).expect(rt, "memory");
    Document {
        name: DocumentName { layer: 0, uri },
        contents,
        default: Dialect::standard(false, Draft::Draft202012),
    }
}

// The documents of a topic.
pub(crate) fn documents_of(rt: &impl Abort, alloc: Global, topic: &str) -> Vec<Document<'static>> {
    let mut documents = Vec::new(alloc);
    for (uri, contents) in set_by(rt, alloc, topic, "document") {
        let document = document(rt, alloc, uri, Contents::Owned(contents));
        documents.push(document).expect(rt, "memory");
    }
    documents
}
