//! What is said before anything is answered, where the words ask for sentences or objects.

use crate::documents::{Further, documents_at_hand, given_documents, known_uri, last_under};
use crate::entry::write_text;
use crate::preparing::word_for;
use crate::refusal::says_more;
use line_cuts::ByteSink;
use line_runs::{UnknownKeyword, unknown_keywords};
use program_inputs::ProgramWords;
use schema_registries::SchemaRegistry;
use serde_json::Value;
use std::alloc::{AllocError, Global};

/// A line for each document that replaces another, given before it under the same URI; nothing where the words ask for no more than pairs.
pub(crate) fn warnings(alloc: Global, words: &ProgramWords<'_>) -> Result<String, AllocError> {
    if says_more(words) {
        of_documents(alloc, words)
    } else {
        Ok(String::new(alloc))
    }
}

/// Tells of each member of the schemas of the documents that were given, and then of the meta-schemas, whose name is no keyword of the draft
/// there; nothing where the words ask for no more than pairs.
pub(crate) fn warn_of_keywords<T: ByteSink>(
    alloc: Global,
    words: &ProgramWords<'_>,
    registry: &SchemaRegistry,
    faults: &mut T,
) {
    if says_more(words) {
        if let Ok(text) = of_keywords(alloc, words, registry) {
            write_text(faults, text.as_str());
        }
    }
}

// A line for each member that is no keyword, document by document.
fn of_keywords(
    alloc: Global,
    words: &ProgramWords<'_>,
    registry: &SchemaRegistry,
) -> Result<String, AllocError> {
    let given = documents_at_hand(alloc, words)?;
    let mut text = String::new(alloc);
    for document in given.as_slice() {
        let lines = of_document_keywords(alloc, registry, document)?;
        text.push_str(lines.as_str())?;
    }
    if let Some(file) = words.meta {
        let lines = of_meta_schemas(alloc, registry, given.as_slice(), file)?;
        text.push_str(lines.as_str())?;
    }
    Ok(text)
}

fn of_document_keywords(
    alloc: Global,
    registry: &SchemaRegistry,
    document: &Further<'_>,
) -> Result<String, AllocError> {
    let mut text = String::new(alloc);
    let Some(uri) = known_uri(alloc, document.uri)? else {
        return Ok(text);
    };
    for keyword in unknown_keywords(alloc, registry, &uri)? {
        let path = keyword.place.path.to_pointer(alloc)?;
        let line = of_keyword(alloc, document.file, path.as_str(), &keyword)?;
        text.push_str(line.as_str())?;
    }
    Ok(text)
}

// Those of the meta-schemas, each of which is named by its URI, as one file has them all. One whose URI a document was given has none.
fn of_meta_schemas(
    alloc: Global,
    registry: &SchemaRegistry,
    given: &[Further<'_>],
    file: &str,
) -> Result<String, AllocError> {
    let mut text = String::new(alloc);
    let Some(parent) = registry.parent() else {
        return Ok(text);
    };
    for document in parent.registry().documents() {
        let uri = &document.name.uri;
        if last_under(alloc, given, uri.as_str())?.is_none() {
            for keyword in unknown_keywords(alloc, registry, uri)? {
                let place = keyword.place.to_string(alloc)?;
                let line = of_keyword(alloc, file, place.as_str(), &keyword)?;
                text.push_str(line.as_str())?;
            }
        }
    }
    Ok(text)
}

fn of_keyword(
    alloc: Global,
    file: &str,
    place: &str,
    keyword: &UnknownKeyword,
) -> Result<String, AllocError> {
    let name = Value::String(String::from_str(alloc, keyword.name.as_str())?).to_string(alloc)?;
    let draft = word_for(keyword.draft);
    format!(in alloc;
        "warning: keyword {name} in the file '{file}' at '{place}' is unknown to draft {draft}\n"
    )
}

fn of_documents(alloc: Global, words: &ProgramWords<'_>) -> Result<String, AllocError> {
    let mut text = String::new(alloc);
    let mut earlier = Vec::new(alloc);
    for document in given_documents(alloc, words)? {
        let line = of_document(alloc, earlier.as_slice(), &document)?;
        text.push_str(line.as_str())?;
        earlier.push(document)?;
    }
    Ok(text)
}

// What is said of a document behind those that were given before it.
fn of_document(
    alloc: Global,
    earlier: &[Further<'_>],
    document: &Further<'_>,
) -> Result<String, AllocError> {
    let (uri, file) = (document.uri, document.file);
    match last_under(alloc, earlier, uri)? {
        Some(other) => format!(in alloc;
            "warning: document '{uri}' in the file '{file}' replaces the one in the file '{other}'\n"
        ),
        None => Ok(String::new(alloc)),
    }
}
