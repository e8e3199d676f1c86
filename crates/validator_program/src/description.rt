//! What is said of a refusal behind its text: the file and the place, and what could be given in place of what was.

use crate::documents::{documents_at_hand, given_documents, last_under};
use crate::fault::ProgramFault;
use crate::preparing::DEFAULT_BASE;
use line_runs::{
    BuildCause, BuildError, DocumentError, Error as ReferenceError, RefusedDocuments, SchemaPlace,
};
use program_inputs::ProgramWords;
use schema_reports::ValidationError;
use std::alloc::{AllocError, Global};
use uri_references::error::UriError;

/// How many lines the file of `--check` has to have.
const COUNT: &str = "  the file has a line for each instance, in their order\n";

/// What a further document looks like.
const FURTHER: &str = "  a further document is given as URI=FILE\n";

/// The drafts that there are.
const DRAFTS: &str = "  the drafts are 4, 6, 7, 2019-09 and 2020-12\n";

/// What a file may lack.
const FILE: &str = "  it is not there, is not read, or holds something else than is asked of it\n";

/// What the file of meta-schemas may lack.
const META_FILE: &str =
    "  it is not there, is not read, or is no JSON list of schemas with an identifier each\n";

/// What the base is.
const BASE: &str = "  the URI of the schema's own file is given by --base\n";

/// How meta-schemas are given.
const META_SCHEMAS: &str = "  a file with a list of meta-schemas is given by --meta\n";

/// What is said of a fault behind its text: lines of two spaces and more, or nothing. A document that was given is named by its file.
pub(crate) fn description(
    alloc: Global,
    words: &ProgramWords<'_>,
    fault: &ProgramFault<'_>,
) -> Result<String, AllocError> {
    match fault {
        ProgramFault::Word { .. } => String::from_str(alloc, FURTHER),
        ProgramFault::Draft { .. } => String::from_str(alloc, DRAFTS),
        ProgramFault::File { name } => String::from_str(alloc, of_file(words, name)),
        ProgramFault::Base(_) => String::from_str(alloc, BASE),
        ProgramFault::Document(error) => of_document(alloc, words, error),
        ProgramFault::Build(error) => of_error(alloc, words, error),
        ProgramFault::Schema {
            error,
            causes,
            faults,
        } => of_schema(alloc, words, error, causes, faults),
        ProgramFault::Count { .. } => String::from_str(alloc, COUNT),
        _ => Ok(String::new(alloc)),
    }
}

fn of_file(words: &ProgramWords<'_>, name: &str) -> &'static str {
    if words.meta == Some(name) {
        META_FILE
    } else {
        FILE
    }
}

// All that is wrong with a schema, or with documents together, and then what may help. Where it is none of the schema's own, as where its
// meta-schema is not read, the error that is known.
fn of_schema(
    alloc: Global,
    words: &ProgramWords<'_>,
    error: &BuildError,
    causes: &[BuildError],
    faults: &[ValidationError<'_>],
) -> Result<String, AllocError> {
    if causes.is_empty() && faults.is_empty() {
        return of_error(alloc, words, error);
    }
    let mut text = String::new(alloc);
    let mut lacking = Lacking::default();
    for cause in causes {
        let lines = of_build(alloc, words, cause)?;
        text.push_str(lines.as_str())?;
        lacking = lacking.or(lacking_by(cause));
    }
    for fault in faults {
        let lines = of_fault(alloc, words, fault)?;
        text.push_str(lines.as_str())?;
    }
    let more = help(alloc, words, lacking)?;
    text.push_str(more.as_str())?;
    Ok(text)
}

fn of_error(
    alloc: Global,
    words: &ProgramWords<'_>,
    error: &BuildError,
) -> Result<String, AllocError> {
    let mut text = of_build(alloc, words, error)?;
    let more = help(alloc, words, lacking_by(error))?;
    text.push_str(more.as_str())?;
    Ok(text)
}

fn of_document(
    alloc: Global,
    words: &ProgramWords<'_>,
    error: &DocumentError,
) -> Result<String, AllocError> {
    match error {
        DocumentError::JsonText { uri, line, column } => {
            let said = format!(in alloc;
                "it is no JSON text, from line {line}, column {column} on"
            )?;
            in_file(alloc, words, uri.as_str(), "", said.as_str())
        }
        DocumentError::OtherNumber {
            document,
            path,
            found,
        } => {
            let said = format!(in alloc; "{found} is no whole number from -2^63 to 2^64-1")?;
            let path = path.to_pointer(alloc)?;
            in_file(
                alloc,
                words,
                document.as_str(),
                path.as_str(),
                said.as_str(),
            )
        }
        DocumentError::InvalidUri(UriError::Parse { uri } | UriError::Resolve { uri, .. }) => {
            let said = error.description(alloc)?;
            of_uri(alloc, words, uri.as_str(), said.as_str())
        }
        DocumentError::Memory => Ok(String::new(alloc)),
    }
}

// The file of a text that is no URI of a document: the one that was given under it, or that of the meta-schemas, one of which has it.
fn of_uri(
    alloc: Global,
    words: &ProgramWords<'_>,
    uri: &str,
    said: &str,
) -> Result<String, AllocError> {
    for document in given_documents(alloc, words)? {
        if document.uri == uri {
            return at_path(alloc, document.file, "", said);
        }
    }
    match words.meta {
        Some(file) => at_path(alloc, file, "", said),
        None => line_of(alloc, said),
    }
}

fn of_build(
    alloc: Global,
    words: &ProgramWords<'_>,
    error: &BuildError,
) -> Result<String, AllocError> {
    match error {
        BuildError::Document(error) => of_document(alloc, words, error),
        BuildError::Registry(refused) => {
            let said = error.description(alloc)?;
            of_documents(alloc, words, refused, said.as_str())
        }
        BuildError::Root(_) => line_of(alloc, error.description(alloc)?.as_str()),
        BuildError::Schema(cause) => {
            let said = error.description(alloc)?;
            of_cause(alloc, words, cause, said.as_str())
        }
        BuildError::MetaSchema(refused) => of_fault(alloc, words, &refused.fault),
        BuildError::Memory => Ok(String::new(alloc)),
    }
}

// Of documents that are refused, and of a meta-schema that waits for itself the file, where it was given.
fn of_documents(
    alloc: Global,
    words: &ProgramWords<'_>,
    refused: &RefusedDocuments,
    description: &str,
) -> Result<String, AllocError> {
    let mut text = line_of(alloc, description)?;
    if let ReferenceError::CircularMetaschema { uri } = &refused.error {
        let line = where_given(alloc, words, uri.as_str())?;
        text.push_str(line.as_str())?;
    }
    Ok(text)
}

fn of_cause(
    alloc: Global,
    words: &ProgramWords<'_>,
    cause: &BuildCause,
    description: &str,
) -> Result<String, AllocError> {
    match cause {
        BuildCause::KeywordValue { place, .. }
        | BuildCause::BadPattern { place, .. }
        | BuildCause::Unevaluated { place }
        | BuildCause::Reference { place, .. } => at_place(alloc, words, place, description),
        BuildCause::NodeLimit { .. } => line_of(alloc, description),
        BuildCause::Memory => Ok(String::new(alloc)),
    }
}

// A line for a sentence.
fn line_of(alloc: Global, sentence: &str) -> Result<String, AllocError> {
    format!(in alloc; "  {sentence}\n")
}

// Whether documents, and whether meta-schemas, are referred to that are not at hand.
#[derive(Clone, Copy, Default)]
struct Lacking {
    documents: bool,
    meta_schemas: bool,
}

impl Lacking {
    fn or(self, other: Lacking) -> Lacking {
        Lacking {
            documents: self.documents || other.documents,
            meta_schemas: self.meta_schemas || other.meta_schemas,
        }
    }
}

fn lacking_by(error: &BuildError) -> Lacking {
    match error {
        BuildError::Registry(refused) => lacking_of(&refused.error),
        BuildError::Root(refused) => lacking_of(&refused.error),
        BuildError::Schema(BuildCause::Reference { error, .. }) => lacking_of(error),
        _ => Lacking::default(),
    }
}

fn lacking_of(error: &ReferenceError) -> Lacking {
    Lacking {
        documents: matches!(error, ReferenceError::Unretrievable { .. }),
        meta_schemas: matches!(error, ReferenceError::UnknownSpecification { .. }),
    }
}

// What may help: which documents are at hand, and how meta-schemas are given.
fn help(alloc: Global, words: &ProgramWords<'_>, lacking: Lacking) -> Result<String, AllocError> {
    let mut text = String::new(alloc);
    if lacking.documents {
        let lines = at_hand(alloc, words)?;
        text.push_str(lines.as_str())?;
    }
    if lacking.meta_schemas {
        text.push_str(META_SCHEMAS)?;
    }
    Ok(text)
}

// Why the meta-schema refuses the schema, which is the last document under the base.
fn of_fault(
    alloc: Global,
    words: &ProgramWords<'_>,
    error: &ValidationError<'_>,
) -> Result<String, AllocError> {
    let place = error.instance_path().to_pointer(alloc)?;
    let road = error.evaluation_path().to_pointer(alloc)?;
    let sentence = error.description(alloc)?;
    let said = format!(in alloc; "The meta-schema refuses it by '{road}': {sentence}")?;
    let base = words.base.unwrap_or(DEFAULT_BASE);
    let file = file_of(alloc, words, base)?.unwrap_or(words.schema);
    at_path(alloc, file, place.as_str(), said.as_str())
}

// The file of a place, and what a description says of it before its last line, which names the place.
fn at_place(
    alloc: Global,
    words: &ProgramWords<'_>,
    place: &SchemaPlace,
    description: &str,
) -> Result<String, AllocError> {
    let path = place.path.to_pointer(alloc)?;
    let line = format!(in alloc; "\n  at '{place}'")?;
    let sentence = description
        .strip_suffix(line.as_str())
        .unwrap_or(description);
    in_file(
        alloc,
        words,
        place.document.uri.as_str(),
        path.as_str(),
        sentence,
    )
}

// The file of a document, the path in it, and what is said of the place. One that no file was given for by itself is a meta-schema, and is
// named by its URI.
fn in_file(
    alloc: Global,
    words: &ProgramWords<'_>,
    uri: &str,
    path: &str,
    sentence: &str,
) -> Result<String, AllocError> {
    match file_of(alloc, words, uri)? {
        Some(file) => at_path(alloc, file, path, sentence),
        None => match words.meta {
            Some(file) => {
                format!(in alloc; "  in the file '{file}' at '{uri}#{path}': {sentence}\n")
            }
            None => format!(in alloc; "  at '{uri}#{path}': {sentence}\n"),
        },
    }
}

// A line that tells the file of a document.
fn where_given(alloc: Global, words: &ProgramWords<'_>, uri: &str) -> Result<String, AllocError> {
    match file_of(alloc, words, uri)? {
        Some(file) => format!(in alloc; "  '{uri}' is in the file '{file}'\n"),
        None => Ok(String::new(alloc)),
    }
}

// The file and the path in it; the path is left out where it is empty.
fn at_path(alloc: Global, file: &str, path: &str, sentence: &str) -> Result<String, AllocError> {
    if path.is_empty() {
        return format!(in alloc; "  in the file '{file}': {sentence}\n");
    }
    format!(in alloc; "  in the file '{file}' at '{path}': {sentence}\n")
}

// The documents at hand, a line each, and where there are meta-schemas.
fn at_hand(alloc: Global, words: &ProgramWords<'_>) -> Result<String, AllocError> {
    let mut text = String::from_str(alloc, "  the documents at hand are\n")?;
    for document in documents_at_hand(alloc, words)? {
        let (uri, file) = (document.uri, document.file);
        let line = format!(in alloc; "    '{uri}' in the file '{file}'\n")?;
        text.push_str(line.as_str())?;
    }
    if let Some(file) = words.meta {
        let line = format!(in alloc; "    those of the file '{file}'\n")?;
        text.push_str(line.as_str())?;
    }
    Ok(text)
}

// The file of the document of a URI: the last that was given under it.
fn file_of<'a>(
    alloc: Global,
    words: &ProgramWords<'a>,
    uri: &str,
) -> Result<Option<&'a str>, AllocError> {
    let given = given_documents(alloc, words)?;
    last_under(alloc, given.as_slice(), uri)
}
