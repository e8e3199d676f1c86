// What a case gives, and what is built of it.
ghost use Rattle.std.specs.Prelude.{◌≡◌, true};
ghost use Rattle.serde_json.specs.View.{view};
ghost use Rattle.json_schema_validator.specs.Numbers.{only_whole};

use json_schema_validator::{
    BuildError, Documents, Draft, MapRetriever, RegexMaker, Retrieve, SchemaRegistry,
    ValidationOptions, Validator, has_only_whole,
};
use serde_json::Value;
use std::alloc::Global;
use std::process::Abort;
use uri_references::uri::from_str;

// A validator with the registry that it was built on.
#[derive(Drop)]
pub(crate) struct Subject {
    pub registry: SchemaRegistry,
    pub validator: Validator,
}

// A value of whole numbers.
pub(crate) fn json(rt: &impl Abort, alloc: Global, text: &str) -> Value
    ensures whole { only_whole (view result) ≡ true }
{
    let value = Value::from_str(alloc, text).expect(rt, "JSON");
    let is_whole = has_only_whole(&value);
    assert!(rt; is_whole, "{text}");
    value
}

// What stands behind a word in the first line that begins with it.
pub(crate) fn setting<'a>(case: &'a str, word: &str) -> Option<&'a str> {
    for line in case.lines() {
        if let Some(rest) = line.strip_prefix(word) {
            return Some(rest);
        }
    }
    None
}

// The name in angle brackets and the text of a line that begins with a word.
pub(crate) fn named<'a>(line: &'a str, word: &str) -> Option<(&'a str, &'a str)> {
    match line.strip_prefix(word) {
        Some(rest) => rest.split_once("> "),
        None => None,
    }
}

pub(crate) fn documents_of(rt: &impl Abort, alloc: Global, case: &str, word: &str) -> Documents {
    let mut documents = Documents::new(alloc);
    for line in case.lines() {
        if let Some((uri, text)) = named(line, word) {
            documents
                .add_text(uri, text.as_bytes())
                .expect(rt, "a document");
        }
    }
    documents
}

fn retriever_of(rt: &impl Abort, alloc: Global, case: &str) -> MapRetriever {
    let mut retriever = MapRetriever::new(alloc);
    for line in case.lines() {
        if let Some((uri, text)) = named(line, "retrieved <") {
            let document = Value::from_str(alloc, text).expect(rt, "JSON");
            retriever.add(alloc, uri, document).expect(rt, "a document");
        }
    }
    retriever
}

pub(crate) fn options_of(rt: &impl Abort, alloc: Global, case: &str) -> ValidationOptions {
    let mut options = Validator::options(alloc).expect(rt, "memory");
    if let Some(base) = setting(case, "base ") {
        options = options.with_base(from_str(alloc, base).expect(rt, "a URI"));
    }
    if let Some(uri) = setting(case, "dialect ") {
        options = options.with_draft(Draft::from_schema_uri(uri));
    }
    if setting(case, "siblings ").is_some() {
        options = options.with_ref_siblings(true);
    }
    if let Some(limit) = setting(case, "limit ") {
        options = options.with_node_limit(limit.parse().expect(rt, "a number"));
    }
    if setting(case, "meta ").is_some() {
        options = options.with_meta_schemas(documents_of(rt, alloc, case, "meta <"));
    }
    options
}

// The options of a case with its retriever.
fn retrieving(
    rt: &impl Abort,
    alloc: Global,
    case: &str,
) -> ValidationOptions<RegexMaker, MapRetriever> {
    let options = options_of(rt, alloc, case).with_retriever(retriever_of(rt, alloc, case));
    match setting(case, "retrievals ") {
        Some(limit) => options.with_retrieval_limit(limit.parse().expect(rt, "a number")),
        None => options,
    }
}

// The validator of a case, or why there is none.
pub(crate) fn built(rt: &impl Abort, alloc: Global, case: &str) -> Result<Validator, BuildError> {
    let documents = documents_of(rt, alloc, case, "document <");
    let root = setting(case, "root ").unwrap_or("");
    match setting(case, "retrieved ") {
        Some(_) => retrieving(rt, alloc, case).build(&documents, root),
        None => options_of(rt, alloc, case).build(&documents, root),
    }
}

fn subject_by<R: Retrieve + Drop>(
    rt: &impl Abort,
    options: &ValidationOptions<RegexMaker, R>,
    documents: &Documents,
) -> Subject {
    let registry = options.prepare(documents).expect(rt, "a registry");
    let validator = options.build_on(&registry, "").expect(rt, "a validator");
    Subject {
        registry,
        validator,
    }
}

// The validator of a case from its base, with its registry.
pub(crate) fn subject_of(rt: &impl Abort, alloc: Global, case: &str) -> Subject {
    let documents = documents_of(rt, alloc, case, "document <");
    match setting(case, "retrieved ") {
        Some(_) => subject_by(rt, &retrieving(rt, alloc, case), &documents),
        None => subject_by(rt, &options_of(rt, alloc, case), &documents),
    }
}
