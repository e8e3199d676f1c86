//! Numbers of layers.

ghost use Rattle.std.specs.Prelude.{◌≡◌, ◌≤◌, ◌^◌, map, IfOk, OnErr};
ghost use Rattle.document_index.specs.Seen.{document_of};
ghost use Rattle.document_retrieval.specs.Layers as spec;

use document_index::document::Document;
use std::alloc::AllocError;

/// The number of a layer above those of all the documents.
///
/// # Errors
///
/// Where a `usize` counts no further.
pub fn layer_above(documents: &[Document<'_>]) -> Result<usize, AllocError>
    ensures ok { IfOk result (λ n. n ≡ spec.layer_above (map document_of documents.now)) }
    ensures refused { OnErr result (2 ^ 64 ≤ spec.layer_above (map document_of documents.now)) }
{
    let mut above: usize = 0;
    for document in documents {
        let Some(next) = document.name.layer.checked_add(1) else {
            return Err(AllocError);
        };
        if above < next {
            above = next;
        }
    }
    Ok(above)
}
