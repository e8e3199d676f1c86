//! Documents handed in.

ghost use Rattle.std.specs.Prelude.{◌≡◌, [], true, false, None, Some, IfOk, IfErr, OnOk, OnErr, IsTrue};
ghost use Rattle.serde_json.specs.View.{view};
ghost use Rattle.uri_references.specs.Identity.{identity_of};
ghost use Rattle.document_sources.specs.Given.{with_given, are_given_apart};
ghost use Rattle.document_sources.specs.Listed.{givens_of};
ghost use Rattle.document_sources.specs.Seen.{given_of};
ghost use Rattle.document_sources.specs.Uris.{is_document_uri};
ghost use Rattle.schema_registries.specs.Whole.{only_whole};
ghost use Rattle.schema_registries.specs.Refused.{text_value, NamesUri, NamesText, NamesNumber, RefusesValue, RefusesText};
ghost use Rattle.schema_registries.specs.Seen.{documents_given, given_under, AddsText};

use crate::error::DocumentError;
use crate::numbers::has_only_whole;
use crate::search::other_number;
use document_sources::document::{Contents, Document};
use document_sources::error::Error;
use document_sources::list::DocumentList;
use document_sources::uri::document_uri;
use schema_steps::Path;
use serde_json::Value;
use serde_json::error::Category;
use std::alloc::{AllocError, Global};
use std::mem;
use std::rc::Rc;
use uri_references::uri::Uri;

/// Documents, each under its URI, in the order in which their URIs were first added. Their numbers are whole numbers of 64 bits.
#[derive(Drop)]
pub struct Documents {
    alloc: Global,
    list: DocumentList<'static>,
}

impl Documents {
    /// No documents. It allocates nothing.
    pub fn new(alloc: Global) -> Documents
        ensures { documents_given result ≡ [] }
    {
        Documents {
            alloc,
            list: DocumentList::new(alloc),
        }
    }

    /// The documents.
    pub fn list(&self) -> &DocumentList<'static>
        ensures { givens_of result.now ≡ documents_given self.now }
    {
        &self.list
    }

    /// No two of the documents have one URI. It does nothing.
    pub fn uris_are_apart(&self)
        ensures { are_given_apart (documents_given self.now) ≡ true }
    {
        self.list.uris_are_apart();
    }

    /// Adds a document under a URI; one added before under the same gives it its place.
    ///
    /// The text is read as a URI reference in normal form, against `json-schema:///` where it has no scheme. The value is walked once
    /// for its numbers. It takes time in the length of the text times the logarithm of the number of documents beside that.
    ///
    /// # Errors
    ///
    /// Where the text is no URI of a document, where a number is no whole number of 64 bits, or where memory was refused, looked for in
    /// that order. The documents then stay as they were, and the value is dropped.
    pub fn add(&mut self, uri: &str, value: Value) -> Result<(), DocumentError>
        ensures ok { OnOk result (documents_given self.new
            ≡ with_given (documents_given self.old) (given_under uri.now (view value))) }
        ensures accepted { OnOk result (IsTrue (is_document_uri uri.now)) }
        ensures whole { OnOk result (only_whole (view value) ≡ true) }
        ensures refused { IfErr result (RefusesValue uri.now (view value)) }
        ensures unchanged { OnErr result (documents_given self.new ≡ documents_given self.old) }
    {
        let uri = read_uri(self.alloc, uri)?;
        self.add_under(uri, value)
    }

    /// Adds the value of a JSON text as `add` adds a value.
    ///
    /// # Errors
    ///
    /// Those of `add`; and, looked for behind the URI and before the numbers, where the bytes are no JSON text.
    pub fn add_text(&mut self, uri: &str, text: &[u8]) -> Result<(), DocumentError>
        ensures ok { OnOk result (AddsText uri.now text.now (documents_given self.old) (documents_given self.new)) }
        ensures accepted { OnOk result (IsTrue (is_document_uri uri.now)) }
        ensures refused { IfErr result (RefusesText uri.now text.now) }
        ensures unchanged { OnErr result (documents_given self.new ≡ documents_given self.old) }
    {
        let uri = read_uri(self.alloc, uri)?;
        let value = read_text(self.alloc, &uri, text)?;
        self.add_under(uri, value)
    }

    fn add_under(&mut self, uri: Rc<Uri>, value: Value) -> Result<(), DocumentError>
        ensures ok { OnOk result (documents_given self.new
            ≡ with_given (documents_given self.old)
            (record { uri = uri.value; contents = view value; draft = None })) }
        ensures whole { OnOk result (only_whole (view value) ≡ true) }
        ensures refused { IfErr result (NamesNumber uri.value (view value)) }
        ensures unchanged { OnErr result (documents_given self.new ≡ documents_given self.old) }
    {
        if !has_only_whole(&value) {
            return Err(number_refused(self.alloc, &uri, &value));
        }
        let Ok(value) = Rc::new(self.alloc, value) else {
            return Err(DocumentError::Memory);
        };
        let is_put = self.put(Document {
            uri,
            contents: Contents::Shared(value),
            draft: None,
        });
        if is_put {
            Ok(())
        } else {
            Err(DocumentError::Memory)
        }
    }

    // Puts a document among the others, where memory is given.
    fn put(&mut self, document: Document<'static>) -> bool
        ensures put { result ≡ true → documents_given self.new
            ≡ with_given (documents_given self.old) (given_of document.entry) }
        ensures unchanged { result ≡ false → documents_given self.new ≡ documents_given self.old }
    {
        let list = mem::replace(&mut self.list, DocumentList::new(self.alloc));
        match list.put(self.alloc, document) {
            Ok(list) => {
                self.list = list;
                true
            }
            Err(list) => {
                self.list = list;
                false
            }
        }
    }
}

fn read_uri(alloc: Global, text: &str) -> Result<Rc<Uri>, DocumentError>
    ensures ok { IfOk result (λ u. u.value ≡ identity_of text.now) }
    ensures accepted { OnOk result (IsTrue (is_document_uri text.now)) }
    ensures refused { IfErr result (NamesUri text.now) }
{
    match document_uri(alloc, text) {
        Ok(uri) => Ok(uri),
        Err(Error::InvalidUri(error)) => Err(DocumentError::InvalidUri(error)),
        Err(_) => Err(DocumentError::Memory),
    }
}

fn read_text(alloc: Global, uri: &Uri, text: &[u8]) -> Result<Value, DocumentError>
    ensures ok { IfOk result (λ v. text_value text.now ≡ Some (view v)) }
    ensures refused { IfErr result (NamesText uri.now text.now) }
{
    match Value::from_slice(alloc, text) {
        Ok(value) => Ok(value),
        Err(error) => match error.classify() {
            Category::Memory => Err(DocumentError::Memory),
            _ => Err(DocumentError::JsonText {
                uri: String::from_str(alloc, uri.as_str())?,
                line: error.line(),
                column: error.column(),
            }),
        },
    }
}

fn number_refused(alloc: Global, uri: &Uri, value: &Value) -> DocumentError
    requires { only_whole (view value.now) ≡ false }
    ensures { NamesNumber uri.now (view value.now) result }
{
    let Ok(document) = String::from_str(alloc, uri.as_str()) else {
        return DocumentError::Memory;
    };
    let Ok(path) = other_number(alloc, value) else {
        return DocumentError::Memory;
    };
    match shown_at(alloc, &path, value) {
        Ok(found) => DocumentError::OtherNumber {
            document,
            path,
            found,
        },
        Err(_) => DocumentError::Memory,
    }
}

// The part of a value at a path, as JSON.
fn shown_at(alloc: Global, path: &Path, value: &Value) -> Result<String, AllocError> {
    match path.find_in(value) {
        Some(part) => part.to_string(alloc),
        None => Ok(String::new(alloc)),
    }
}
