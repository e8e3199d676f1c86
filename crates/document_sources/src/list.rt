//! Documents in their order, each once.

ghost use Rattle.std.specs.Prelude.{◌≡◌, ℕ, List, map, true};
ghost use Rattle.std.specs.BTreeMap.{get_by_text};
ghost use Rattle.document_sources.specs.Given.{position_in, are_given_apart};
ghost use Rattle.document_sources.specs.Seen.{given_of};

use crate::document::Document;
use std::collections::BTreeMap;

/// Documents in the order in which their URIs were first added.
#[derive(Drop)]
pub struct DocumentList<'a> {
    pub(crate) documents: Vec<Document<'a>>,
    pub(crate) positions: BTreeMap<String, usize>,
    ghost placed: { ∥ ((q : List ℕ) → get_by_text positions q ≡ position_in (map given_of documents.items) q) ∥₁ },
    ghost apart: { are_given_apart (map given_of documents.items) ≡ true },
}
