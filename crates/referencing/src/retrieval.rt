//! Documents prepared with those that they want.

ghost use Rattle.std.specs.Prelude.{◌≡◌, [], map, true, IfOk, IfErr};
ghost use Rattle.schema_definitions.specs.DocumentCauses.{document_causes};
ghost use Rattle.document_index.specs.Seen.{document_of};
ghost use Rattle.schema_definitions.specs.Rounds.{wants, none_twice};
ghost use Rattle.document_sources.specs.Seen.{layer_of};
ghost use Rattle.document_retrieval.specs.Stages.{asking, IsGathered, AnswersNothing};
ghost use Rattle.referencing.specs.Built.{added_in, parents_among};
ghost use Rattle.referencing.specs.Seen.{documents_of, retrieved_by};
ghost use Rattle.referencing.specs.Prepared.{asking_of, RefusesRegistry};

use crate::builder::RegistryBuilder;
use crate::registry::Registry;
use document_index::document::Document;
use document_retrieval::given::with_drafts;
use document_retrieval::layers::layer_above;
use document_retrieval::rounds::{Gathered, Retrieved, prepare_wanted};
use document_sources::Retrieve;
use document_sources::error::Error;
use document_sources::layer::Layer;
use std::alloc::Global;

// The documents of a parent, where there is one.
fn documents_or_none<'a>(alloc: Global, parent: Option<Vec<Document<'a>>>) -> Vec<Document<'a>>
    ensures { map document_of result.items ≡ parents_among parent.entry }
{
    match parent {
        Some(documents) => documents,
        None => Vec::new(alloc),
    }
}

impl<'a> Registry<'a> {
    /// The registry of documents and of those that they want, as [`RegistryBuilder::prepare`] has it: an answer is a document of the
    /// layer, and read by its draft where it names none. It costs what [`prepare_wanted`] costs, and walks each document once more.
    ///
    /// # Errors
    ///
    /// Those of [`RegistryBuilder::prepare`].
    pub fn with_wanted<R: Retrieve>(
        alloc: Global,
        documents: Vec<Document<'a>>,
        layer: Layer,
        retriever: &R,
        limit: u64,
    ) -> Result<Registry<'a>, Error>
        ensures documents { IfOk result (λ r. IsGathered
            (asking R.may_answer R.may_refuse retriever.now (layer_of layer)) limit
            (map document_of documents.entry.items) (documents_of r) (retrieved_by r)) }
        ensures siblings { IfOk result (λ r. r.siblings ≡ layer.siblings) }
        ensures once { IfOk result (λ r. none_twice (retrieved_by r) ≡ true) }
        ensures complete { IfOk result (λ r. wants (documents_of r) ≡ []) }
        ensures accepted { IfOk result (λ r. document_causes (documents_of r) ≡ []) }
        ensures alone { IfOk result (λ r. AnswersNothing
            (asking R.may_answer R.may_refuse retriever.now (layer_of layer))
            → (documents_of r ≡ map document_of documents.entry.items) × (retrieved_by r ≡ [])) }
        ensures refused { IfErr result (RefusesRegistry
            (asking R.may_answer R.may_refuse retriever.now (layer_of layer)) limit
            (map document_of documents.entry.items)) }
    {
        let Gathered {
            retrieved,
            prepared,
        } = prepare_wanted(alloc, documents, layer, retriever, limit)?;
        let Retrieved { documents, uris } = retrieved;
        Ok(Registry::with_retrieved(alloc, layer.siblings, documents, uris, prepared))
    }
}

impl<'a, R: Retrieve + Drop> RegistryBuilder<'a, R> {
    /// The registry of the documents of the parent, those added behind them, and those that they want, where these have no cause to be
    /// refused: an identifier, a `$schema` that counts or a `$ref` that is no URI reference, or a `$schema` that names a meta-schema
    /// which is circular.
    ///
    /// All documents are walked, and then what their `$ref`s and meta-schemas want and is not there is asked of the retriever, in the
    /// order met and each URI once; then their answers are walked with them, until nothing is wanted any more. An answer is read as the
    /// documents added are, by the builder's draft where it names none. It finds the schema places of the documents once for each round,
    /// and more often where they name meta-schemas of their own; what the registry keeps comes from the last round, so where nothing is
    /// retrieved it costs what [`Registry::of`] costs. No document is copied: what is owned is moved and shared.
    ///
    /// # Errors
    ///
    /// Where the retriever refuses what is wanted, which is then named; where more is wanted than may be retrieved; a cause that the
    /// documents have, those that were retrieved among them; or want of memory. Nothing of the registry is left then.
    pub fn prepare(self) -> Result<Registry<'a>, Error>
        ensures documents { IfOk result (λ r. IsGathered
            (asking_of R.may_answer R.may_refuse self.entry) self.entry.limit (added_in self.entry)
            (documents_of r) (retrieved_by r)) }
        ensures siblings { IfOk result (λ r. r.siblings ≡ self.entry.siblings) }
        ensures once { IfOk result (λ r. none_twice (retrieved_by r) ≡ true) }
        ensures complete { IfOk result (λ r. wants (documents_of r) ≡ []) }
        ensures accepted { IfOk result (λ r. document_causes (documents_of r) ≡ []) }
        ensures alone { IfOk result (λ r. AnswersNothing (asking_of R.may_answer R.may_refuse self.entry)
            → (documents_of r ≡ added_in self.entry) × (retrieved_by r ≡ [])) }
        ensures refused { IfErr result (RefusesRegistry
            (asking_of R.may_answer R.may_refuse self.entry) self.entry.limit (added_in self.entry)) }
    {
        let RegistryBuilder {
            alloc,
            draft,
            siblings,
            parent,
            list,
            retriever,
            limit,
        } = self;
        let mut documents = documents_or_none(alloc, parent);
        let layer = Layer {
            number: layer_above(&documents)?,
            draft,
            siblings,
        };
        let mut own = with_drafts(alloc, list.into_documents(), layer)?;
        documents.append(&mut own)?;
        Registry::with_wanted(alloc, documents, layer, &retriever, limit)
    }
}
