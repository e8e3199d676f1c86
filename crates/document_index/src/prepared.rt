//! Documents that have no cause to be refused.

ghost use Rattle.std.specs.Prelude.{◌≡◌, ℕ, List, [], map, IfOk, OnOk, IfErr};
ghost use Rattle.schema_definitions.specs.Bearers as bearers;
ghost use Rattle.schema_definitions.specs.DocumentCauses.{document_causes};
ghost use Rattle.schema_dialects.specs.Dialects.{dialects_in};
ghost use Rattle.document_index.specs.Seen.{document_of};
ghost use Rattle.document_index.specs.Located.{located_standings};
ghost use Rattle.document_index.specs.Indexes.{Indexes};
ghost use Rattle.document_index.specs.Named.{NamesOne};

use crate::survey::Survey;
use crate::{Document, Index};
use document_sources::error::Error;
use schema_dialects::MetaSchemas;
use std::alloc::Global;

/// What is kept of documents that have no cause to be refused.
#[derive(Drop)]
pub struct Prepared {
    /// The meta-schemas that they tell of.
    pub known: MetaSchemas,
    /// The index of their schema places.
    pub index: Index,
}

/// What is kept of documents, where they have no cause to be refused: at a schema place an identifier, a `$schema` that counts or a `$ref`
/// that is no URI reference, a `$ref` to a document that nobody bears, a `$schema` that names a meta-schema which nobody bears or which is
/// circular.
///
/// It costs what [`Survey::of`] costs, which finds the schema places once where no meta-schema of the documents' own is named, and then
/// [`Survey::into_prepared`].
///
/// # Errors
///
/// A cause that the documents have, or want of memory.
pub fn prepare(alloc: Global, documents: &[Document<'_>]) -> Result<Prepared, Error>
    ensures indexed { IfOk result (λ p. Indexes p.index
        (located_standings (dialects_in p.known) (map document_of documents.now))) }
    ensures told { IfOk result (λ p. (uri : List ℕ)
        → dialects_in p.known uri ≡ bearers.meta (map document_of documents.now) uri) }
    ensures accepted { OnOk result (document_causes (map document_of documents.now) ≡ []) }
    ensures refused { IfErr result (NamesOne (document_causes (map document_of documents.now))) }
{
    Survey::of(alloc, documents)?.into_prepared(alloc)
}
