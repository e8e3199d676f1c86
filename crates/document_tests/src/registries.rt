// Registries of topics, and what they answer.
use crate::asking::answer_beside;
use crate::chains::{chain, keys};
use crate::lookups::{dialect, dialect_of_child, lookup, scope};
use crate::retrieving::retriever_of;
use crate::scripts::{assert_last_row, assert_told, cut_word, limit, row, set_by, text_of, topics};
use document_sources::Retrieve;
use document_sources::error::Error;
use referencing::registry::Registry;
use serde_json::Value;
use std::alloc::Global;
use std::process::Abort;

pub(crate) type Prepared<'a> = Result<Registry<'a>, Error>;

pub(crate) fn prepared_with<'a, R: Retrieve + Drop>(
    rt: &impl Abort,
    alloc: Global,
    topic: &str,
    retriever: R,
) -> Prepared<'a> {
    let documents = set_by(rt, alloc, topic, "document");
    let builder = Registry::new(alloc).retriever(retriever);
    let builder = builder.retrieval_limit(limit(rt, topic));
    builder.extend(documents)?.prepare()
}

pub(crate) fn prepared_alone<'a>(rt: &impl Abort, alloc: Global, topic: &str) -> Prepared<'a> {
    let documents = set_by(rt, alloc, topic, "document");
    Registry::new(alloc).extend(documents)?.prepare()
}

fn prepared_of<'a>(alloc: Global, documents: &'a [(&'static str, Value)]) -> Prepared<'a> {
    let mut builder = Registry::new(alloc);
    for (uri, document) in documents {
        builder = builder.add(*uri, document)?;
    }
    builder.prepare()
}

fn answer(rt: &impl Abort, registry: &Registry<'_>, question: &str) -> String {
    let (word, rest) = cut_word(question);
    match word {
        "lookup" => lookup(rt, registry, rest),
        "chain" => chain(rt, registry, rest),
        "keys" => keys(rt, registry, rest),
        "scope" => scope(rt, registry, rest),
        "dialect" => dialect(rt, registry, rest),
        "child" => dialect_of_child(rt, registry, rest),
        _ => answer_beside(rt, registry, question),
    }
}

// What is asked of a registry in the rows of a topic.
pub(crate) fn assert_rows(rt: &impl Abort, registry: &Registry<'_>, topic: &str) {
    for line in topic.lines() {
        if let Some((question, want)) = row(rt, line) {
            assert_told(rt, &answer(rt, registry, question), want, line);
        }
    }
}

// What is asked of the registry of a topic, or why it is none.
pub(crate) fn assert_asked(rt: &impl Abort, alloc: Global, prepared: &Prepared<'_>, topic: &str) {
    match prepared {
        Ok(registry) => assert_rows(rt, registry, topic),
        Err(error) => assert_last_row(rt, topic, &text_of(rt, alloc, error)),
    }
}

// What is asked of the registry of a topic that sets answers.
pub(crate) fn assert_retrieved(rt: &impl Abort, alloc: Global, topic: &str) {
    let prepared = prepared_with(rt, alloc, topic, retriever_of(rt, alloc, topic));
    assert_asked(rt, alloc, &prepared, topic);
}

// What is asked of the registry of the documents of each topic where they are owned, and where they are lent.
pub(crate) fn assert_topics(rt: &impl Abort, alloc: Global, script: &'static str) {
    for topic in topics(script) {
        assert_asked(rt, alloc, &prepared_alone(rt, alloc, topic), topic);
        let documents = set_by(rt, alloc, topic, "document");
        assert_asked(rt, alloc, &prepared_of(alloc, &documents), topic);
    }
}
