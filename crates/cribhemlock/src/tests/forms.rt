// A document that another refers to: added beside it, answered by a retriever, and moved whole into it. What is written is the same.
use line_cuts::{MemorySink, MemorySource};
use schema_registries::MapRetriever;
use serde_json::Value;
use std::alloc::Global;
use std::process::Abort;
use std::str;
use uri_references::uri::from_str;
use validator_program::{Documents, Validator, run};

const ROOT_URI: &str = "http://a.test/root.json";

const LEAF_URI: &str = "http://a.test/leaf.json";

const ROOT: &str =
    r##"{"$schema":"https://json-schema.org/draft/2020-12/schema","$id":"http://a.test/root.json","type":"array","minItems":2,"items":{"$ref":"leaf.json"}}"##;

const LEAF: &str =
    r##"{"$schema":"https://json-schema.org/draft/2020-12/schema","$id":"http://a.test/leaf.json","type":"string"}"##;

const WHOLE: &str =
    r##"{"$schema":"https://json-schema.org/draft/2020-12/schema","$id":"http://a.test/root.json","type":"array","minItems":2,"items":{"$ref":"leaf.json"},"$defs":{"leaf":{"$schema":"https://json-schema.org/draft/2020-12/schema","$id":"http://a.test/leaf.json","type":"string"}}}"##;

const LINES: &str = "[1]\n[\"a\",\"b\"]\n";

const WRITTEN: &str = "[[\"\",\"/minItems\"],[\"/0\",\"/items/$ref/type\"]]\n[]\n";

// The root's text, and that of the leaf where it is added and where it is retrieved.
type Form = (&'static str, Option<&'static str>, Option<&'static str>);

const FORMS: [Form; 3] = [
    (ROOT, Some(LEAF), None),
    (ROOT, None, Some(LEAF)),
    (WHOLE, None, None),
];

fn documents_of(rt: &impl Abort, alloc: Global, root: &str, leaf: Option<&str>) -> Documents {
    let mut documents = Documents::new(alloc);
    documents
        .add_text(ROOT_URI, root.as_bytes())
        .expect(rt, "a document");
    if let Some(text) = leaf {
        documents
            .add_text(LEAF_URI, text.as_bytes())
            .expect(rt, "a document");
    }
    documents
}

fn retriever_of(rt: &impl Abort, alloc: Global, leaf: Option<&str>) -> MapRetriever {
    let mut retriever = MapRetriever::new(alloc);
    if let Some(text) = leaf {
        let document = Value::from_str(alloc, text).expect(rt, "JSON");
        retriever
            .add(alloc, LEAF_URI, document)
            .expect(rt, "a document");
    }
    retriever
}

fn built(rt: &impl Abort, alloc: Global, form: &Form) -> Validator {
    let (root, added, retrieved) = *form;
    let base = from_str(alloc, ROOT_URI).expect(rt, "a URI");
    let options = Validator::options(alloc)
        .expect(rt, "memory")
        .with_base(base)
        .with_retriever(retriever_of(rt, alloc, retrieved));
    let documents = documents_of(rt, alloc, root, added);
    options.build(&documents, "").expect(rt, "a validator")
}

#[test]
fn of_two_documents(rt: HostRuntime) {
    let alloc = rt.alloc();
    for form in FORMS {
        let validator = built(&rt, alloc, &form);
        let mut source = MemorySource::new(LINES.as_bytes(), 100, None);
        let mut sink = MemorySink::new(alloc, 100, None);
        let report = run(alloc, &mut source, &mut sink, &validator).expect(&rt, "memory");
        let written = str::from_utf8(sink.as_slice()).expect(&rt, "UTF-8");
        assert_eq!(rt; written, WRITTEN);
        assert!(rt; report.lines == 2 && report.any_refused);
    }
}
