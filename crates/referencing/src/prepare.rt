//! Documents prepared.

ghost use Rattle.std.specs.Prelude.{◌≡◌, [], map, true, IfOk, IfErr, OnOk};
ghost use Rattle.std.specs.List.{list_all};
ghost use Rattle.schema_definitions.specs.DocumentCauses.{document_causes};
ghost use Rattle.document_index.specs.Seen.{document_of};
ghost use Rattle.document_laws.specs.ListedLaws.{AreAsListed, AreOne, ListOnce};
ghost use Rattle.document_index.specs.Named.{NamesOne};
ghost use Rattle.document_index.specs.Surveys.{Prepares};
ghost use Rattle.referencing.specs.Stands.{contents_rise};
ghost use Rattle.referencing.specs.Seen.{documents_of, retrieved_by};

use crate::registry::Registry;
use document_index::document::Document;
use document_index::prepared;
use document_index::prepared::Prepared;
use document_sources::error::Error;
use std::alloc::Global;
use std::rc::Rc;
use uri_references::uri::Uri;
use value_checks::rising::names_rise;

// Each object has its names in their order, each once.
fn check_names(documents: &[Document<'_>])
    ensures { list_all contents_rise (map document_of documents.now) ≡ true }
{
    for document in documents {
        names_rise(document.contents.value());
    }
}

impl<'a> Registry<'a> {
    // The registry of documents that were prepared, with the URIs of those that were retrieved.
    pub(crate) fn with_retrieved(
        alloc: Global,
        siblings: bool,
        documents: Vec<Document<'a>>,
        retrieved: Vec<Rc<Uri>>,
        prepared: Prepared,
    ) -> Registry<'a>
        requires { Prepares prepared (map document_of documents.items) }
        ensures documents { documents_of result ≡ map document_of documents.entry.items }
        ensures siblings { result.siblings ≡ siblings }
        ensures retrieved { retrieved_by result ≡ map (λ u. u.value) retrieved.items }
    {
        check_names(&documents);
        Registry {
            alloc,
            siblings,
            documents,
            retrieved,
            known: prepared.known,
            index: prepared.index,
        }
    }

    /// The registry of documents, where they have no cause to be refused. The last document of a URI counts, and none is retrieved.
    /// `siblings` says whether what stands beside `$ref` is read in Drafts 6 and 7, for the subschemas that a resolver enters.
    ///
    /// It costs what [`prepared::prepare`] costs, and walks each document once more. What is copied are URIs, the names of anchors, and
    /// the names of the members that lead to schemas.
    ///
    /// # Errors
    ///
    /// A cause that the documents have, or want of memory. Nothing of the registry is left then.
    pub fn of(
        alloc: Global,
        siblings: bool,
        documents: Vec<Document<'a>>,
    ) -> Result<Registry<'a>, Error>
        ensures documents { IfOk result (λ r. documents_of r ≡ map document_of documents.entry.items) }
        ensures siblings { IfOk result (λ r. r.siblings ≡ siblings) }
        ensures retrieved { IfOk result (λ r. retrieved_by r ≡ []) }
        ensures accepted { OnOk result (document_causes (map document_of documents.entry.items) ≡ []) }
        ensures refused { IfErr result (NamesOne (document_causes (map document_of documents.entry.items))) }
    {
        let prepared = prepared::prepare(alloc, &documents)?;
        Ok(Registry::with_retrieved(alloc, siblings, documents, Vec::new(alloc), prepared))
    }

    /// Whether what stands beside `$ref` is read in Drafts 6 and 7.
    pub fn reads_ref_siblings(&self) -> bool
        ensures { result ≡ self.now.siblings }
    {
        self.siblings
    }

    /// In each object of each document the names stand in the order of their bytes, each once. It does nothing.
    pub fn names_rise(&self)
        ensures { list_all contents_rise (documents_of self.now) ≡ true }
    {}

    /// What a reference leads to, from whatever base and scope, counts as a schema place only where the list of the schema places of its
    /// document has one there, with the same contents, base and dialect. Where the documents' names are apart, it does wherever the list has
    /// one, and a path in a document determines all that a reference leads to, and the schema place. It does nothing.
    pub fn targets_are_listed(&self)
        ensures listed { AreAsListed (documents_of self.now) }
        ensures one { AreOne (documents_of self.now) }
        ensures once { ListOnce (documents_of self.now) }
    {}

    /// The documents in their order, those that were retrieved among them.
    pub fn documents(&self) -> &[Document<'a>]
        ensures { map document_of result.now ≡ documents_of self.now }
    {
        self.documents.as_slice()
    }

    /// The URIs of the documents that were retrieved, in the order in which the retriever answered them.
    pub fn retrieved(&self) -> &[Rc<Uri>]
        ensures { map (λ u. u.value) result.now ≡ retrieved_by self.now }
    {
        self.retrieved.as_slice()
    }
}
