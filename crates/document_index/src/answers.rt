//! What an index says of the documents that it was built from.

ghost use Rattle.std.specs.Prelude.{◌≡◌, ◌<◌, ℕ, List, length, ◌∷◌, [], map, Option, Some, option_map, IfOk};
ghost use Rattle.std.specs.Prelude.{IfSome, slice_get};
ghost use Rattle.schema_definitions.specs.Bearers as bearers;
ghost use Rattle.schema_definitions.specs.Places.{Dialect};
ghost use Rattle.schema_dialects.specs.Dialects.{dialects_in};
ghost use Rattle.document_index.specs.Seen.{document_of};
ghost use Rattle.document_index.specs.Located.{located_standings};
ghost use Rattle.document_index.specs.Indexes.{bearer_of, Indexes, IsIndexed};
ghost use Rattle.document_index.specs.Answers.{IsAnswer, dynamically_anchored_under};

use crate::document::Document;
use crate::index::{Bearer, Index};
use crate::standing::standings;
use schema_dialects::MetaSchemas;
use std::alloc::{AllocError, Global};

/// The index of the schema places of documents.
///
/// It costs what [`standings`] and [`Index::of`] cost.
///
/// # Errors
///
/// Where memory was refused, or a count of owners is full.
pub fn index_of(
    alloc: Global,
    known: &MetaSchemas,
    documents: &[Document<'_>],
) -> Result<Index, AllocError>
    ensures { IfOk result (λ i. Indexes i (located_standings (dialects_in known.now) (map document_of documents.now))) }
{
    let places = standings(alloc, known, documents)?;
    Index::of(alloc, &places)
}

fn document_of_bearer<'i, 'd>(documents: &'i [Document<'d>], bearer: &Bearer) -> &'i Document<'d>
    requires { bearer.now.document < length documents.now }
    ensures { slice_get documents.now bearer.now.document ≡ Some result.now }
{
    &documents[bearer.document]
}

/// The last schema place of the documents that bears a URI, and its document.
pub fn bearer<'i, 'd>(
    documents: &'i [Document<'d>],
    index: &'i Index,
    uri: &str,
) -> Option<(&'i Document<'d>, &'i Bearer)>
    requires { IsIndexed (map document_of documents.now) index.now }
    ensures answer { (meta : List ℕ → Option Dialect)
        → Indexes index.now (located_standings meta (map document_of documents.now))
        → IsAnswer meta (map document_of documents.now) (option_map (λ r. bearer_of r.1.now) result)
        (bearers.bearer_under meta (map document_of documents.now) uri.now) }
    ensures document { IfSome result (λ r. slice_get documents.now r.1.now.document ≡ Some r.0.now) }
{
    let bearer = index.bearer(uri)?;
    Some((document_of_bearer(documents, bearer), bearer))
}

/// The last schema place of the documents that bears an anchor under a base, and its document.
pub fn anchored<'i, 'd>(
    documents: &'i [Document<'d>],
    index: &'i Index,
    base: &str,
    name: &str,
) -> Option<(&'i Document<'d>, &'i Bearer)>
    requires { IsIndexed (map document_of documents.now) index.now }
    ensures answer { (meta : List ℕ → Option Dialect)
        → Indexes index.now (located_standings meta (map document_of documents.now))
        → IsAnswer meta (map document_of documents.now) (option_map (λ r. bearer_of r.1.now) result)
        (bearers.anchored_under meta (map document_of documents.now) base.now name.now) }
    ensures document { IfSome result (λ r. slice_get documents.now r.1.now.document ≡ Some r.0.now) }
{
    let bearer = index.anchored(base, name)?;
    Some((document_of_bearer(documents, bearer), bearer))
}

/// The last schema place of the documents with a dynamic anchor under a base, and its document.
pub fn dynamically_anchored<'i, 'd>(
    documents: &'i [Document<'d>],
    index: &'i Index,
    base: &str,
    name: &str,
) -> Option<(&'i Document<'d>, &'i Bearer)>
    requires { IsIndexed (map document_of documents.now) index.now }
    ensures answer { (meta : List ℕ → Option Dialect)
        → Indexes index.now (located_standings meta (map document_of documents.now))
        → IsAnswer meta (map document_of documents.now) (option_map (λ r. bearer_of r.1.now) result)
        (dynamically_anchored_under meta (map document_of documents.now) base.now name.now) }
    ensures document { IfSome result (λ r. slice_get documents.now r.1.now.document ≡ Some r.0.now) }
{
    let bearer = index.dynamically_anchored(base, name)?;
    Some((document_of_bearer(documents, bearer), bearer))
}
