//! Registries.

ghost use Rattle.std.specs.Prelude.{map};
ghost use Rattle.document_index.specs.Seen.{document_of};
ghost use Rattle.referencing.specs.Stands.{Stands};

use document_index::document::Document;
use document_index::index::Index;
use schema_dialects::MetaSchemas;
use std::alloc::Global;
use std::rc::Rc;
use uri_references::uri::Uri;

/// Documents that were prepared: each reference in them to a document leads to a schema place. Contracts see the list of the documents.
/// What stands beside `$ref` is read in Drafts 6 and 7, or not.
#[derive(Drop)]
pub struct Registry<'a> {
    pub(crate) alloc: Global,
    pub(crate) siblings: bool,
    pub(crate) documents: Vec<Document<'a>>,
    pub(crate) retrieved: Vec<Rc<Uri>>,
    pub(crate) known: MetaSchemas,
    pub(crate) index: Index,
    ghost stands: { Stands known index (map document_of documents.items) },
}
