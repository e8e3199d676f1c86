//! Documents added to a list.

ghost use Rattle.std.specs.Prelude.{◌≡◌, [], ◌∷◌, ◌++◌, IfOk, IfErr, map, true, Some, None};
ghost use Rattle.document_sources.specs.Given.{with_given, position_in, are_given_apart};
ghost use Rattle.document_sources.specs.Seen.{given_of};
ghost use Rattle.document_sources.specs.Listed.{givens_of};

use crate::document::Document;
use crate::list::DocumentList;
use std::alloc::Global;
use std::collections::BTreeMap;

impl<'a> DocumentList<'a> {
    /// No documents.
    pub fn new(alloc: Global) -> DocumentList<'a>
        ensures { givens_of result ≡ [] }
    {
        DocumentList {
            documents: Vec::new(alloc),
            positions: BTreeMap::new(alloc),
        }
    }

    /// The documents in their order.
    pub fn documents(&self) -> &[Document<'a>]
        ensures { map given_of result.now ≡ givens_of self.now }
    {
        self.documents.as_slice()
    }

    /// No two of the documents have one URI. It does nothing.
    pub fn uris_are_apart(&self)
        ensures { are_given_apart (givens_of self.now) ≡ true }
    {}

    /// The documents in their order.
    pub fn into_documents(self) -> Vec<Document<'a>>
        ensures { map given_of result.items ≡ givens_of self.entry }
    {
        self.documents
    }

    /// Adds a document behind the others, or in the place of the one with its URI.
    ///
    /// One search by the URI, and one copy of a new one. Where memory is refused the list comes back as it was.
    pub fn put(
        self,
        alloc: Global,
        document: Document<'a>,
    ) -> Result<DocumentList<'a>, DocumentList<'a>>
        ensures ok { IfOk result (λ l. givens_of l ≡ with_given (givens_of self.entry) (given_of document.entry)) }
        ensures unchanged { IfErr result (λ l. givens_of l ≡ givens_of self.entry) }
    {
        match self.positions.get(document.uri.as_str()).copied() {
            Some(position) => Ok(self.replaced(position, document)),
            None => self.appended(alloc, document),
        }
    }

    /// Puts a document in the place of the one with its URI.
    fn replaced(self, position: usize, document: Document<'a>) -> DocumentList<'a>
        requires { position_in (givens_of self) document.uri.value ≡ Some position }
        ensures { givens_of result ≡ with_given (givens_of self.entry) (given_of document.entry) }
    {
        let DocumentList {
            mut documents,
            positions,
        } = self;
        documents[position] = document;
        DocumentList {
            documents,
            positions,
        }
    }

    /// Adds a document under a new URI.
    fn appended(
        self,
        alloc: Global,
        document: Document<'a>,
    ) -> Result<DocumentList<'a>, DocumentList<'a>>
        requires { position_in (givens_of self) document.uri.value ≡ None }
        ensures ok { IfOk result (λ l. givens_of l ≡ with_given (givens_of self.entry) (given_of document.entry)) }
        ensures unchanged { IfErr result (λ l. givens_of l ≡ givens_of self.entry) }
    {
        let Ok(key) = String::from_str(alloc, document.uri.as_str()) else {
            return Err(self);
        };
        let DocumentList {
            mut documents,
            mut positions,
        } = self;
        let position = documents.len();
        if documents.push(document).is_err() {
            return Err(DocumentList {
                documents,
                positions,
            });
        }
        if positions.insert(key, position).is_err() {
            documents.pop();
            return Err(DocumentList {
                documents,
                positions,
            });
        }
        Ok(DocumentList {
            documents,
            positions,
        })
    }
}
