//! Documents as they are given, and as they are prepared.

ghost use Rattle.std.specs.Prelude.{◌≡◌, map, IfOk};
ghost use Rattle.document_index.specs.Seen.{document_of};
ghost use Rattle.document_sources.specs.Given.{document_by, documents_by};
ghost use Rattle.document_sources.specs.Seen.{given_of, contents_view, layer_of};

use document_index::document::{Contents, Document, DocumentName};
use document_sources::document::Document as GivenDocument;
use document_sources::layer::Layer;
use schema_dialects::Dialect;
use std::alloc::{AllocError, Global};
use std::rc::Rc;

// The same contents, shared where they were owned, so that a child registry copies none.
fn shared<'a>(alloc: Global, contents: Contents<'a>) -> Result<Contents<'a>, AllocError>
    ensures { IfOk result (λ c. contents_view c ≡ contents_view contents.entry) }
{
    match contents {
        Contents::Lent(value) => Ok(Contents::Lent(value)),
        Contents::Owned(value) => Ok(Contents::Shared(Rc::new(alloc, value)?)),
        Contents::Shared(value) => Ok(Contents::Shared(value)),
    }
}

// A document of a layer, with the layer's draft where none was given with it.
fn with_draft<'a>(
    alloc: Global,
    given: GivenDocument<'a>,
    layer: Layer,
) -> Result<Document<'a>, AllocError>
    ensures { IfOk result (λ d. document_of d ≡ document_by (layer_of layer) (given_of given.entry)) }
{
    Ok(Document {
        name: DocumentName {
            layer: layer.number,
            uri: given.uri,
        },
        contents: shared(alloc, given.contents)?,
        default: Dialect::standard(layer.siblings, given.draft.unwrap_or(layer.draft)),
    })
}

/// Documents of a layer as they were given, those without a draft of their own with the layer's. No value is copied: what is owned is
/// moved and shared.
///
/// # Errors
///
/// Where memory was refused.
pub fn with_drafts<'a>(
    alloc: Global,
    given: Vec<GivenDocument<'a>>,
    layer: Layer,
) -> Result<Vec<Document<'a>>, AllocError>
    ensures { IfOk result (λ v. map document_of v.items ≡ documents_by (layer_of layer) (map given_of given.entry.items)) }
{
    let mut documents = Vec::new(alloc);
    for document in given {
        documents.push(with_draft(alloc, document, layer)?)?;
    }
    Ok(documents)
}

// A document once more, its contents shared where they are not owned.
fn again<'a>(document: &Document<'a>) -> Result<Document<'a>, AllocError>
    ensures { IfOk result (λ d. document_of d ≡ document_of document.now) }
{
    Ok(Document {
        name: document.name.clone()?,
        contents: document.contents.share()?,
        default: document.default,
    })
}

/// The same documents once more. Contents that are lent or shared are not copied, and no URI is.
///
/// # Errors
///
/// Where memory was refused or a count of owners is full.
pub fn shared_again<'a>(
    alloc: Global,
    documents: &[Document<'a>],
) -> Result<Vec<Document<'a>>, AllocError>
    ensures { IfOk result (λ v. map document_of v.items ≡ map document_of documents.now) }
{
    let mut all = Vec::new(alloc);
    for document in documents {
        all.push(again(document)?)?;
    }
    Ok(all)
}
