//! Layers of documents.

use schema_drafts::draft::Draft;

/// The own documents of a registry are a layer above those of its parent. It says how they are read.
#[derive(Copy, Clone, Debug, PartialEq, Eq)]
pub struct Layer {
    /// Its number, which is above those of the parent's layers.
    pub number: usize,
    /// The draft of documents that name none.
    pub draft: Draft,
    /// Whether what stands beside `$ref` is read in Drafts 6 and 7.
    pub siblings: bool,
}
