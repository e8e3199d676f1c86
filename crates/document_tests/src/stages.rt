// Documents whose schemas name meta-schemas that other documents bear.
use crate::scripts::{assert_told, cut_word, documents_of, row, text_of, topics};
use document_index::awaited::awaited_cause;
use document_index::counting::how_many;
use document_index::document::Document;
use document_index::standing::{Standing, standings};
use document_index::told::{Told, meta_schemas, told_after};
use schema_dialects::Dialect;
use std::alloc::Global;
use std::process::Abort;
use uri_references::uri::Uri;

fn shown_dialect(rt: &impl Abort, alloc: Global, dialect: Dialect) -> String {
    let mut line = format!(in alloc; "{:?}", dialect.draft).expect(rt, "memory");
    if let Some(required) = dialect.required {
        for (is_required, name) in [
            (required.core, " core"),
            (required.applicator, " applicator"),
            (required.validation, " validation"),
        ] {
            if is_required {
                line.push_str(name).expect(rt, "memory");
            }
        }
    }
    line
}

// What is told of a URI, and what is told anew.
fn shown(rt: &impl Abort, alloc: Global, told: &Told, uri: &str) -> String {
    let mut line = match told.meta_schemas.get(uri) {
        Some(dialect) => shown_dialect(rt, alloc, dialect),
        None => text_of(rt, alloc, &"none"),
    };
    let anew = match &told.anew {
        Some(uri) => uri.as_str(),
        None => "at rest",
    };
    write!(line, "; {anew}").expect(rt, "memory");
    line
}

fn shown_cause(rt: &impl Abort, alloc: Global, places: &[Standing<'_>], uri: &Uri) -> String {
    let awaited = uri.clone().expect(rt, "memory");
    let cause = awaited_cause(alloc, places, awaited).expect(rt, "memory");
    format!(in alloc; "{cause:?} ").expect(rt, "memory")
}

// Why places await what they await.
fn shown_causes(rt: &impl Abort, alloc: Global, places: &[Standing<'_>]) -> String {
    let mut line = String::new(alloc);
    for standing in places {
        if let Some(uri) = &standing.place.awaits {
            let cause = shown_cause(rt, alloc, places, uri);
            line.push_str(&cause).expect(rt, "memory");
        }
    }
    line
}

// What the places await under all that documents tell.
fn causes(rt: &impl Abort, alloc: Global, documents: &[Document<'_>]) -> String {
    let told = meta_schemas(alloc, documents).expect(rt, "memory");
    let places = standings(alloc, &told.meta_schemas, documents).expect(rt, "memory");
    shown_causes(rt, alloc, &places)
}

fn told_by(rt: &impl Abort, alloc: Global, documents: &[Document<'_>], uri: &str) -> String {
    let told = meta_schemas(alloc, documents).expect(rt, "memory");
    shown(rt, alloc, &told, uri)
}

fn told_at(rt: &impl Abort, alloc: Global, documents: &[Document<'_>], text: &str) -> String {
    let (stages, uri) = cut_word(text);
    let count = stages.parse().expect(rt, stages);
    let told = told_after(alloc, documents, count).expect(rt, "memory");
    shown(rt, alloc, &told, uri)
}

fn answer(rt: &impl Abort, alloc: Global, documents: &[Document<'_>], question: &str) -> String {
    let (word, rest) = cut_word(question);
    match word {
        "told" => told_by(rt, alloc, documents, rest),
        "after" => told_at(rt, alloc, documents, rest),
        "causes" => causes(rt, alloc, documents),
        "count" => format!(in alloc; "{:?}", how_many(documents)).expect(rt, "memory"),
        _ => panic!(rt; "no question: {question}"),
    }
}

fn assert_staged(rt: &impl Abort, alloc: Global, documents: &[Document<'_>], topic: &str) {
    for line in topic.lines() {
        if let Some((question, want)) = row(rt, line) {
            assert_told(rt, &answer(rt, alloc, documents, question), want, line);
        }
    }
}

const STAGES: &str = r##"
document http://a.test/s {"$schema":"http://a.test/m","$defs":{"a":{"$id":"inner"}}}
document http://a.test/m {"$schema":"https://json-schema.org/draft/2020-12/schema","$vocabulary":{"https://json-schema.org/draft/2020-12/vocab/core":true,"https://json-schema.org/draft/2020-12/vocab/validation":true,"https://json-schema.org/draft/2020-12/vocab/applicator":false,"http://v.test/own":true,"http://v.test/other":false}}
count :: Some(2)
causes ::
told http://a.test/m :: Draft202012 core validation; at rest
told http://a.test/s :: Draft202012; at rest
told http://a.test/inner :: Draft202012; at rest
told http://a.test/t :: none; at rest

document http://a.test/m {"$schema":"https://json-schema.org/draft/2020-12/schema","$vocabulary":{"https://json-schema.org/draft/2020-12/vocab/core":true,"https://json-schema.org/draft/2020-12/vocab/validation":true,"https://json-schema.org/draft/2020-12/vocab/applicator":false,"http://v.test/own":true,"http://v.test/other":false}}
after 0 http://a.test/m :: Draft202012 core validation; at rest

document http://a.test/s {"$schema":"http://a.test/m"}
document http://a.test/m {"$schema":"http://a.test/n#","id":"http://b.test/m"}
document http://a.test/n {"$schema":"http://json-schema.org/draft-04/schema#"}
told http://a.test/m :: Draft4; at rest
told http://b.test/m :: Draft4; at rest
told http://a.test/s :: Draft4; at rest
after 0 http://a.test/m :: none; http://a.test/n
after 9 http://a.test/s :: Draft4; at rest

document http://a.test/s {"$defs":{"a":{"$id":"inner","$schema":"http://m.test/m"}}}
document http://a.test/d {"$defs":{"m":{"$id":"http://m.test/m","$schema":"https://json-schema.org/draft/2019-09/schema","$vocabulary":{"https://json-schema.org/draft/2019-09/vocab/applicator":true}}}}
told http://m.test/m :: Draft201909 applicator; at rest
told http://a.test/inner :: Draft201909; at rest

document http://a.test/m {"$schema":"https://json-schema.org/draft/2020-12/schema"}
document http://a.test/b {"$schema":"http://a.test/m","$defs":{"x":{"$schema":"http://json-schema.org/draft-04/schema#","id":"http://a.test/m"}}}
after 0 http://a.test/m :: Draft202012; http://a.test/m
after 1 http://a.test/m :: Draft4; http://a.test/m
after 2 http://a.test/m :: Draft202012; http://a.test/m
after 7 http://a.test/m :: Draft4; http://a.test/m
told http://a.test/none :: none; http://a.test/m

document http://a.test/s {"$schema":"http://a.test/m"}
causes :: Unknown("http://a.test/m")

document http://a.test/a {"$schema":"http://a.test/b"}
document http://a.test/b {"$schema":"http://a.test/a"}
causes :: Circular("http://a.test/a") Circular("http://a.test/b")

document http://a.test/s {"$schema":"http://a.test/own"}
document http://a.test/m {"$schema":"http://a.test/n","$id":"own"}
causes :: Unknown("http://a.test/n") Unknown("http://a.test/n")
"##;

#[test]
fn stages(rt: HostRuntime) {
    for topic in topics(STAGES) {
        let documents = documents_of(&rt, rt.alloc(), topic);
        assert_staged(&rt, rt.alloc(), &documents, topic);
    }
}
