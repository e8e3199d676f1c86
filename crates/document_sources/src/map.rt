//! A retriever of given documents.

ghost use Rattle.std.specs.Prelude.{◌≡◌, ℕ, List, IsTrue, IfOk, IfErr, OnOk, OnErr, Some, None, Err, bytes_eq, if◌then◌else◌};
ghost use Rattle.serde_json.specs.View.{view};
ghost use Rattle.uri_grammar.specs.Parts.{split};
ghost use Rattle.uri_grammar.specs.Grammar.{is_reference};
ghost use Rattle.uri_references.specs.Identity.{identity_of};
ghost use Rattle.uri_references.specs.Refusals.{Refuses};
ghost use Rattle.document_sources.specs.declared.error.RetrieveError.TheVariants.{Refused};
ghost use Rattle.document_sources.specs.Answers.{answer_for};
ghost use Rattle.document_sources.specs.Causes.{IsRefusal};

use crate::error::RetrieveError;
use crate::retrieve::Retrieve;
use serde_json::Value;
use std::alloc::Global;
use std::collections::BTreeMap;
use uri_references::error::Error;
use uri_references::uri::{Uri, from_str};

/// Answers with documents that were added, each under its URI, and refuses all others.
#[derive(Debug, Drop)]
pub struct MapRetriever {
    documents: BTreeMap<Uri, Value>,
}

impl MapRetriever {
    /// No documents.
    pub fn new(alloc: Global) -> MapRetriever
        ensures { (q : List ℕ) → answer_for result q ≡ None }
    {
        MapRetriever {
            documents: BTreeMap::new(alloc),
        }
    }

    /// Adds a document under a URI in normal form, as `uri::from_str` reads it, in the place of the one that was there.
    ///
    /// It reads the text, and searches for it.
    ///
    /// # Errors
    ///
    /// Where the text is no URI reference, which is then named, or where memory was refused; the retriever then stays as it was.
    pub fn add(&mut self, alloc: Global, uri: &str, document: Value) -> Result<(), Error>
        ensures ok { OnOk result ((q : List ℕ) → answer_for self.new q ≡ (if bytes_eq (identity_of uri.now) q then Some (view document) else answer_for self.old q)) }
        ensures accepted { OnOk result (IsTrue (is_reference (split uri.now))) }
        ensures refused { IfErr result (Refuses (is_reference (split uri.now)) uri.now) }
        ensures unchanged { OnErr result ((q : List ℕ) → answer_for self.new q ≡ answer_for self.old q) }
    {
        let uri = from_str(alloc, uri)?;
        match self.documents.insert(uri, document) {
            Ok(_) => Ok(()),
            Err(_) => Err(Error::Memory),
        }
    }
}

impl Retrieve for MapRetriever {
    ghost may_answer = { λ r uri document. answer_for r uri ≡ Some document };

    ghost may_refuse = { λ r uri. answer_for r uri ≡ None };

    // A URI is looked up as it is spelled.
    fn retrieve(&self, _alloc: Global, uri: &Uri) -> Result<Value, RetrieveError>
        ensures given { IfOk result (λ v. answer_for self.now uri.now ≡ Some (view v)) }
        ensures refused { IfErr result (λ e. IsRefusal e → answer_for self.now uri.now ≡ None) }
        ensures absent { answer_for self.now uri.now ≡ None → result ≡ Err Refused }
    {
        let Some(document) = self.documents.get(uri) else {
            return Err(RetrieveError::Refused);
        };
        match document.clone() {
            Ok(document) => Ok(document),
            Err(_) => Err(RetrieveError::Memory),
        }
    }
}
