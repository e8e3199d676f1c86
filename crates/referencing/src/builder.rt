//! Documents gathered, to be prepared.

ghost use Rattle.std.specs.Prelude.{◌≡◌, List, [], map, false, Some, None, IfOk, IfErr, OnOk, IsTrue};
ghost use Rattle.std.specs.Iterator.{IsFiniteIterable, Drains, YieldsThen};
ghost use Rattle.schema_drafts.specs.Drafts as drafts;
ghost use Rattle.document_sources.specs.Causes.{IsMemory};
ghost use Rattle.document_sources.specs.Given.{with_given};
ghost use Rattle.document_sources.specs.Seen.{given_of};
ghost use Rattle.document_sources.specs.Uris.{is_document_uri, RefusesUri};
ghost use Rattle.referencing.specs.Built.{given_in, given_by, has_parent, Adds, AsksAlike, BeginsAlike};

use crate::registry::Registry;
use document_index::document::Document;
use document_sources::document::Document as GivenDocument;
use document_sources::error::Error;
use document_sources::list::DocumentList;
use document_sources::resource::IntoRegistryResource;
use document_sources::uri::document_uri;
use document_sources::{DefaultRetriever, Retrieve};
use schema_drafts::draft::Draft;
use std::alloc::Global;
use std::convert::AsStr;

/// Documents to be prepared, the draft of those that name none, whether what stands beside `$ref` is read in Drafts 6 and 7, and who is
/// asked for how many of those that they want: 2020-12, not, nobody and 256 at first. The documents of a parent, where it begins with those
/// of one, are a layer below its own.
#[derive(Drop)]
pub struct RegistryBuilder<'a, R = DefaultRetriever> {
    pub(crate) alloc: Global,
    pub(crate) draft: Draft,
    pub(crate) siblings: bool,
    pub(crate) parent: Option<Vec<Document<'a>>>,
    pub(crate) list: DocumentList<'a>,
    pub(crate) retriever: R,
    pub(crate) limit: u64,
}

/// A call that was refused: the builder as it was left, and why.
#[derive(Debug, Drop)]
pub struct Refused<'a, R = DefaultRetriever> {
    pub builder: RegistryBuilder<'a, R>,
    pub error: Error,
}

impl<'a, R: Drop> From<Refused<'a, R>> for Error {
    ghost from_gives = { λ r e. e ≡ r.error };

    fn from(refused: Refused<'a, R>) -> Error {
        refused.error
    }
}

/// How many documents are retrieved at most until another limit is set.
const DEFAULT_LIMIT: u64 = 256;

impl<'a> RegistryBuilder<'a> {
    /// No documents. It allocates nothing.
    pub fn new(alloc: Global) -> RegistryBuilder<'a>
        ensures documents { given_in result ≡ [] }
        ensures parent { result.parent ≡ None }
        ensures siblings { result.siblings ≡ false }
        ensures draft { result.draft ≡ drafts.newest }
        ensures limit { result.limit ≡ 256 }
    {
        RegistryBuilder {
            alloc,
            draft: Draft::default(),
            siblings: false,
            parent: None,
            list: DocumentList::new(alloc),
            retriever: DefaultRetriever,
            limit: DEFAULT_LIMIT,
        }
    }
}

impl<'a> Registry<'a> {
    /// A builder with no documents.
    pub fn new(alloc: Global) -> RegistryBuilder<'a>
        ensures documents { given_in result ≡ [] }
        ensures parent { result.parent ≡ None }
        ensures siblings { result.siblings ≡ false }
        ensures draft { result.draft ≡ drafts.newest }
        ensures limit { result.limit ≡ 256 }
    {
        RegistryBuilder::new(alloc)
    }
}

impl<'a, S: Drop> RegistryBuilder<'a, S> {
    /// Sets whom the documents that are wanted are asked of.
    pub fn retriever<T: Retrieve>(self, retriever: T) -> RegistryBuilder<'a, T>
        ensures documents { given_in result ≡ given_in self.entry }
        ensures draft { result.draft ≡ self.entry.draft }
        ensures retriever { result.retriever ≡ retriever }
        ensures limit { result.limit ≡ self.entry.limit }
        ensures beginning { BeginsAlike self.entry result }
    {
        RegistryBuilder {
            alloc: self.alloc,
            draft: self.draft,
            siblings: self.siblings,
            parent: self.parent,
            list: self.list,
            retriever,
            limit: self.limit,
        }
    }

    /// Sets how many documents are retrieved at most.
    pub fn retrieval_limit(self, limit: u64) -> RegistryBuilder<'a, S>
        ensures documents { given_in result ≡ given_in self.entry }
        ensures draft { result.draft ≡ self.entry.draft }
        ensures retriever { result.retriever ≡ self.entry.retriever }
        ensures limit { result.limit ≡ limit }
        ensures beginning { BeginsAlike self.entry result }
    {
        RegistryBuilder { limit, ..self }
    }

    /// Sets the draft of the documents that name none, those added before among them.
    pub fn draft(self, draft: Draft) -> RegistryBuilder<'a, S>
        ensures documents { given_in result ≡ given_in self.entry }
        ensures draft { result.draft ≡ draft }
        ensures retrieval { AsksAlike self.entry result }
        ensures beginning { BeginsAlike self.entry result }
    {
        RegistryBuilder { draft, ..self }
    }

    /// Sets whether what stands beside `$ref` is read in Drafts 6 and 7. A builder that begins with a registry reads it as that one does.
    pub fn ref_siblings(self, siblings: bool) -> RegistryBuilder<'a, S>
        requires { has_parent self ≡ false }
        ensures siblings { result.siblings ≡ siblings }
        ensures parent { result.parent ≡ self.entry.parent }
        ensures documents { given_in result ≡ given_in self.entry }
        ensures draft { result.draft ≡ self.entry.draft }
        ensures retrieval { AsksAlike self.entry result }
    {
        RegistryBuilder { siblings, ..self }
    }

    /// Whether it begins with the documents of a registry.
    pub fn has_parent(&self) -> bool
        ensures { result ≡ has_parent self.now }
    {
        self.parent.is_some()
    }

    /// Adds a document under a URI; one added before under the same gives it its place.
    ///
    /// The text is read as a URI reference in normal form, against `json-schema:///` where it has no scheme, and an empty fragment
    /// equals none. It takes time in the length of the text times the logarithm of the number of documents, and copies no document.
    ///
    /// # Errors
    ///
    /// Where the text is no URI reference or has a fragment that is not empty, which is then named, or where memory was refused. The
    /// builder comes back as it was, and the document is dropped.
    pub fn add<R: IntoRegistryResource<'a> + Drop>(
        self,
        uri: &str,
        resource: R,
    ) -> Result<RegistryBuilder<'a, S>, Refused<'a, S>>
        ensures ok { IfOk result (λ b. given_in b
            ≡ with_given (given_in self.entry) (given_by R.contents R.draft uri.now resource)) }
        ensures draft { IfOk result (λ b. b.draft ≡ self.entry.draft) }
        ensures retrieval { IfOk result (AsksAlike self.entry) }
        ensures beginning { IfOk result (BeginsAlike self.entry) }
        ensures accepted { OnOk result (IsTrue (is_document_uri uri.now)) }
        ensures refused { IfErr result (λ r. RefusesUri uri.now r.error) }
        ensures unchanged { IfErr result (λ r. given_in r.builder ≡ given_in self.entry) }
        ensures same_draft { IfErr result (λ r. r.builder.draft ≡ self.entry.draft) }
        ensures same_retrieval { IfErr result (λ r. AsksAlike self.entry r.builder) }
        ensures same_beginning { IfErr result (λ r. BeginsAlike self.entry r.builder) }
    {
        match document_uri(self.alloc, uri) {
            Ok(uri) => {
                let (contents, draft) = resource.into_registry_resource();
                self.with_document(GivenDocument {
                    uri,
                    contents,
                    draft,
                })
            }
            Err(error) => Err(Refused {
                builder: self,
                error,
            }),
        }
    }

    // Adds a document, or gives the builder back.
    fn with_document(
        self,
        document: GivenDocument<'a>,
    ) -> Result<RegistryBuilder<'a, S>, Refused<'a, S>>
        ensures ok { IfOk result (λ b. given_in b ≡ with_given (given_in self.entry) (given_of document.entry)) }
        ensures draft { IfOk result (λ b. b.draft ≡ self.entry.draft) }
        ensures retrieval { IfOk result (AsksAlike self.entry) }
        ensures beginning { IfOk result (BeginsAlike self.entry) }
        ensures refused { IfErr result (λ r. IsMemory r.error) }
        ensures unchanged { IfErr result (λ r. given_in r.builder ≡ given_in self.entry) }
        ensures same_draft { IfErr result (λ r. r.builder.draft ≡ self.entry.draft) }
        ensures same_retrieval { IfErr result (λ r. AsksAlike self.entry r.builder) }
        ensures same_beginning { IfErr result (λ r. BeginsAlike self.entry r.builder) }
    {
        let RegistryBuilder {
            alloc,
            draft,
            siblings,
            parent,
            list,
            retriever,
            limit,
        } = self;
        match list.put(alloc, document) {
            Ok(list) => Ok(RegistryBuilder {
                alloc,
                draft,
                siblings,
                parent,
                list,
                retriever,
                limit,
            }),
            Err(list) => Err(Refused {
                builder: RegistryBuilder {
                    alloc,
                    draft,
                    siblings,
                    parent,
                    list,
                    retriever,
                    limit,
                },
                error: Error::Memory,
            }),
        }
    }

    /// Adds pairs of a URI and a document in their order, each as `add` does, until one is refused.
    ///
    /// # Errors
    ///
    /// Those of `add` at the first pair that is refused. The pairs before it stay added; it and those behind it are not.
    pub fn extend<
        U: AsStr + Drop,
        R: IntoRegistryResource<'a> + Drop,
        I: IntoIterator<Item = (U, R)>,
    >(self, pairs: I) -> Result<RegistryBuilder<'a, S>, Refused<'a, S>>
    where
        I::IntoIter: Drop,
        requires { IsFiniteIterable I.into_iter_gives I.IntoIter.can_next I.IntoIter.remaining pairs }
        ensures ok { IfOk result (λ b. (it : I.IntoIter) × (xs : List (U × R)) × I.into_iter_gives pairs it
            × Drains I.IntoIter.next_gives it xs
            × Adds U.text R.contents R.draft (given_in self.entry) xs (given_in b)) }
        ensures draft { IfOk result (λ b. b.draft ≡ self.entry.draft) }
        ensures retrieval { IfOk result (AsksAlike self.entry) }
        ensures beginning { IfOk result (BeginsAlike self.entry) }
        ensures refused { IfErr result (λ r. (it : I.IntoIter) × (before : List (U × R)) × (x : U × R)
            × (rest : I.IntoIter) × I.into_iter_gives pairs it
            × YieldsThen I.IntoIter.next_gives it before (Some x) rest
            × Adds U.text R.contents R.draft (given_in self.entry) before (given_in r.builder)
            × RefusesUri (U.text x.0) r.error) }
        ensures same_draft { IfErr result (λ r. r.builder.draft ≡ self.entry.draft) }
        ensures same_retrieval { IfErr result (λ r. AsksAlike self.entry r.builder) }
        ensures same_beginning { IfErr result (λ r. BeginsAlike self.entry r.builder) }
    {
        let mut builder = self;
        for (uri, resource) in pairs {
            builder = builder.add(uri.as_str(), resource)?;
        }
        Ok(builder)
    }

    /// The allocator of the calls.
    pub fn allocator(&self) -> Global
        ensures { result ≡ self.now.alloc }
    {
        self.alloc
    }

    /// The documents in the order in which their URIs were first added, and the draft of those that name none.
    pub fn into_parts(self) -> (Vec<GivenDocument<'a>>, Draft)
        ensures documents { map given_of result.0.items ≡ given_in self.entry }
        ensures draft { result.1 ≡ self.entry.draft }
    {
        (self.list.into_documents(), self.draft)
    }
}
