//! Documents shared, so that no value is copied.

ghost use Rattle.std.specs.Prelude.{◌≡◌, map, IfOk};
ghost use Rattle.document_index.specs.Seen.{document_of};
ghost use Rattle.document_sources.specs.Given.{document_by, documents_by};
ghost use Rattle.document_sources.specs.Seen.{given_of, layer_of};

use document_index::document::{Document, DocumentName};
use document_sources::document::Document as GivenDocument;
use document_sources::layer::Layer;
use schema_dialects::Dialect;
use std::alloc::{AllocError, Global};

fn with_draft(
    document: &GivenDocument<'static>,
    layer: Layer,
) -> Result<Document<'static>, AllocError>
    ensures { IfOk result (λ d. document_of d ≡ document_by (layer_of layer) (given_of document.now)) }
{
    Ok(Document {
        name: DocumentName {
            layer: layer.number,
            uri: document.uri.clone()?,
        },
        contents: document.contents.share()?,
        default: Dialect::standard(layer.siblings, document.draft.unwrap_or(layer.draft)),
    })
}

/// Documents of a layer, those without a draft of their own with the layer's.
pub(crate) fn all_shared(
    alloc: Global,
    documents: &[GivenDocument<'static>],
    layer: Layer,
) -> Result<Vec<Document<'static>>, AllocError>
    ensures { IfOk result (λ v. map document_of v.items ≡ documents_by (layer_of layer) (map given_of documents.now)) }
{
    let mut all = Vec::new(alloc);
    for document in documents {
        all.push(with_draft(document, layer)?)?;
    }
    Ok(all)
}
