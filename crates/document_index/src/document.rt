//! Documents.

ghost use Rattle.std.specs.Prelude.{◌≡◌};

pub use document_sources::document::Contents;
use schema_dialects::Dialect;
use std::alloc::AllocError;
use std::rc::Rc;
use uri_references::uri::Uri;

/// The name of a document: two of one URI stand in two layers.
#[derive(Debug, Drop, PartialEq, Eq, Hash)]
pub struct DocumentName {
    /// The number of its layer.
    pub layer: usize,
    /// The URI under which it was added, which is its base where its root has no identifier (RFC 3986, section 5.1.3).
    pub uri: Rc<Uri>,
}

/// A clone shares the URI. The error comes where its count of owners is full.
impl Clone for DocumentName {
    ghost use Rattle.document_index.specs.Seen.{name_of};

    ghost is_clone = { λ name copy. name_of copy ≡ name_of name };

    fn clone(&self) -> Result<DocumentName, AllocError> {
        Ok(DocumentName {
            layer: self.layer,
            uri: self.uri.clone()?,
        })
    }
}

/// A document.
#[derive(Drop)]
pub struct Document<'a> {
    /// Its name.
    pub name: DocumentName,
    /// What it holds.
    pub contents: Contents<'a>,
    /// The dialect by which it is read where its root names none.
    pub default: Dialect,
}
