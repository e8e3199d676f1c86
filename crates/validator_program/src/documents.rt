//! The documents that the program is given.

ghost use Rattle.std.specs.Prelude.{◌≡◌, [], ◌∷◌, OnOk, IfOk, MatchOption, Some, None, map};
ghost use Rattle.clap.specs.Walk.{texts};
ghost use Rattle.uri_grammar.specs.Texts.{cut_at_last};
ghost use Rattle.schema_registries.specs.Seen.{documents_given};
ghost use Rattle.validator_program.specs.Given.{AddsFile, AddsFiles, AreCut, MayHold, pair_of};

use crate::fault::ProgramFault;
use crate::preparing::DEFAULT_BASE;
use line_runs::{Documents, RunError};
use program_inputs::{FileError, ProgramWords, SchemaFiles};
use std::alloc::{AllocError, Global};
use std::str;
use uri_references::error::Error as UriReferenceError;
use uri_references::uri::{Uri, from_str};

/// A further document: its URI, and the file that holds it.
#[derive(Clone, Copy, Debug)]
pub(crate) struct Further<'a> {
    pub(crate) uri: &'a str,
    pub(crate) file: &'a str,
}

/// Cuts a word at its last `=`.
pub(crate) fn cut<'a>(word: &'a str) -> Option<Further<'a>>
    ensures { MatchOption result ((cut_at_last 61 word.entry.now).1 ≡ None)
        (λ f. cut_at_last 61 word.entry.now ≡ (f.uri.now, Some f.file.now)) }
{
    let (uri, file) = word.rsplit_once('=')?;
    Some(Further { uri, file })
}

/// Cuts each word at its last `=`.
///
/// # Errors
///
/// The first word without one, or want of memory.
pub(crate) fn cut_words<'a>(
    alloc: Global,
    words: &[&'a str],
) -> Result<Vec<Further<'a>>, ProgramFault<'a>>
    ensures { IfOk result (λ cuts. AreCut (texts words.now) (map pair_of cuts.items)) }
{
    let mut cuts = Vec::new(alloc);
    for word in words {
        match cut(word) {
            Some(further) => cuts.push(further)?,
            None => return Err(ProgramFault::Word { word }),
        }
    }
    Ok(cuts)
}

/// The bytes of a file.
///
/// # Errors
///
/// A file that is not read, or want of memory.
pub(crate) fn read_bytes<'a, F: SchemaFiles>(
    alloc: Global,
    files: &F,
    name: &'a str,
) -> Result<Vec<u8>, ProgramFault<'a>>
    ensures { IfOk result (λ v. MayHold (F.held files.now name.entry.now) v.items) }
{
    match files.read(alloc, name) {
        Ok(bytes) => Ok(bytes),
        Err(FileError::Unreadable) => Err(ProgramFault::File { name }),
        Err(FileError::Memory) => Err(ProgramFault::Run(RunError::Memory)),
    }
}

/// The bytes of a file, which are UTF-8.
///
/// # Errors
///
/// A file that is not read or is no UTF-8, or want of memory.
pub(crate) fn read_file<'a, F: SchemaFiles>(
    alloc: Global,
    files: &F,
    name: &'a str,
) -> Result<Vec<u8>, ProgramFault<'a>>
    ensures { IfOk result (λ v. MayHold (F.held files.now name.entry.now) v.items) }
{
    let bytes = read_bytes(alloc, files, name)?;
    if str::from_utf8(bytes.as_slice()).is_err() {
        return Err(ProgramFault::File { name });
    }
    Ok(bytes)
}

// Adds the document that a file holds, under a URI. The documents are as they were where an error comes.
fn add_file<'a, F: SchemaFiles>(
    alloc: Global,
    files: &F,
    documents: &mut Documents,
    uri: &str,
    name: &'a str,
) -> Result<(), ProgramFault<'a>>
    ensures { OnOk result (AddsFile (F.held files.now) (uri.now, name.entry.now)
        (documents_given documents.old) (documents_given documents.new)) }
{
    let bytes = read_file(alloc, files, name)?;
    documents.add_text(uri, bytes.as_slice())?;
    Ok(())
}

/// The documents: that of the schema's file under the base, and the further ones in their order.
///
/// # Errors
///
/// Those of the first file that is refused, in that order.
pub(crate) fn read_documents<'a, F: SchemaFiles>(
    alloc: Global,
    files: &F,
    base: &str,
    schema: &'a str,
    further: &[Further<'a>],
) -> Result<Documents, ProgramFault<'a>>
    ensures { IfOk result (λ d. AddsFiles (F.held files.now)
        ((base.now, schema.entry.now) ∷ map pair_of further.now) [] (documents_given d)) }
{
    let mut documents = Documents::new(alloc);
    add_file(alloc, files, &mut documents, base, schema)?;
    for pair in further {
        add_file(alloc, files, &mut documents, pair.uri, pair.file)?;
    }
    Ok(documents)
}

/// The documents that the words name, the schema first.
pub(crate) fn given_documents<'a>(
    alloc: Global,
    words: &ProgramWords<'a>,
) -> Result<Vec<Further<'a>>, AllocError> {
    let mut given = Vec::new(alloc);
    given.push(Further {
        uri: words.base.unwrap_or(DEFAULT_BASE),
        file: words.schema,
    })?;
    for word in words.files.iter() {
        if let Some(further) = cut(word) {
            given.push(further)?;
        }
    }
    Ok(given)
}

/// Those of them that no later one replaces.
pub(crate) fn documents_at_hand<'a>(
    alloc: Global,
    words: &ProgramWords<'a>,
) -> Result<Vec<Further<'a>>, AllocError> {
    let mut at_hand = Vec::new(alloc);
    for document in given_documents(alloc, words)?.into_iter().rev() {
        if last_under(alloc, at_hand.as_slice(), document.uri)?.is_none() {
            at_hand.push(document)?;
        }
    }
    at_hand.reverse();
    Ok(at_hand)
}

/// The file of the last of some documents under a URI.
pub(crate) fn last_under<'a>(
    alloc: Global,
    documents: &[Further<'a>],
    uri: &str,
) -> Result<Option<&'a str>, AllocError> {
    let mut last = None;
    for document in documents {
        if is_same(alloc, document.uri, uri)? {
            last = Some(document.file);
        }
    }
    Ok(last)
}

// Whether two words name one URI in its normal form.
fn is_same(alloc: Global, left: &str, right: &str) -> Result<bool, AllocError> {
    match (known_uri(alloc, left)?, known_uri(alloc, right)?) {
        (Some(left), Some(right)) => Ok(left.as_str() == right.as_str()),
        _ => Ok(false),
    }
}

/// The URI that a word names, in its normal form, if it names one.
pub(crate) fn known_uri(alloc: Global, word: &str) -> Result<Option<Uri>, AllocError> {
    match from_str(alloc, word) {
        Ok(uri) => Ok(Some(uri)),
        Err(UriReferenceError::InvalidUri(_)) => Ok(None),
        Err(UriReferenceError::Memory) => Err(AllocError),
    }
}
