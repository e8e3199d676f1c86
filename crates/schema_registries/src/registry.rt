//! Registries that schemas are compiled from.

ghost use Rattle.std.specs.Prelude.{◌≡◌, map, true, IfOk, IfErr, option_map};
ghost use Rattle.document_index.specs.Seen.{document_of};
ghost use Rattle.document_retrieval.specs.Stages.{asking};
ghost use Rattle.document_sources.specs.Given.{documents_by};
ghost use Rattle.document_sources.specs.Seen.{layer_of};
ghost use Rattle.referencing.specs.Built.{first_layer};
ghost use Rattle.referencing.specs.Prepared.{RefusesRegistry};
ghost use Rattle.referencing.specs.Seen.{documents_of, retrieved_by};
ghost use Rattle.document_laws.specs.TargetLaws.{are_apart};
ghost use Rattle.schema_registries.specs.Retrieval.{IsPrepared, beside};

use crate::documents::Documents;
use crate::sharing::all_shared;
use document_index::document::Document;
use document_retrieval::given::shared_again;
use document_retrieval::layers::layer_above;
use document_sources::Retrieve;
use document_sources::error::Error;
use document_sources::layer::Layer;
use referencing::Registry;
use schema_drafts::draft::Draft;
use std::alloc::{AllocError, Global};
use std::rc::Rc;
use uri_references::uri::Uri;

/// A registry of documents of which no two have one name. All that use it share it.
#[derive(Drop)]
pub struct SharedRegistry {
    registry: Rc<Registry<'static>>,
    ghost apart: { are_apart (documents_of registry.value) ≡ true },
}

// The registry of documents and of those that they want.
fn gathered<R: Retrieve>(
    alloc: Global,
    documents: Vec<Document<'static>>,
    layer: Layer,
    retriever: &R,
    limit: u64,
) -> Result<SharedRegistry, Error>
    requires apart { are_apart (map document_of documents.items) ≡ true }
    ensures prepared { IfOk result (λ r. IsPrepared
        (asking R.may_answer R.may_refuse retriever.now (layer_of layer)) limit
        (map document_of documents.entry.items) (documents_of r.registry.value) (retrieved_by r.registry.value)) }
    ensures siblings { IfOk result (λ r. r.registry.value.siblings ≡ layer.siblings) }
    ensures refused { IfErr result (RefusesRegistry
        (asking R.may_answer R.may_refuse retriever.now (layer_of layer)) limit
        (map document_of documents.entry.items)) }
{
    let registry = Registry::with_wanted(alloc, documents, layer, retriever, limit)?;
    match Rc::new(alloc, registry) {
        Ok(registry) => Ok(SharedRegistry { registry }),
        Err(_) => Err(Error::Memory),
    }
}

impl SharedRegistry {
    ghost use Rattle.schema_registries.specs.Seen.{documents_given, documents_shared, retrieved_shared};
    ghost use Rattle.schema_registries.specs.Seen.{siblings_shared, layer_over};

    /// The registry of documents and of those that they want, which the retriever is asked for, those without a draft of their own by
    /// the one given. `siblings` says whether what stands beside `$ref` is read in Drafts 6 and 7.
    ///
    /// The URIs and values are shared with the documents and not copied. Beside that it costs what `Registry::with_wanted` costs.
    ///
    /// # Errors
    ///
    /// Where the retriever refuses what is wanted, where more is wanted than may be retrieved, a cause that the documents have, or want
    /// of memory.
    pub fn prepare<R: Retrieve>(
        alloc: Global,
        documents: &Documents,
        draft: Draft,
        siblings: bool,
        retriever: &R,
        limit: u64,
    ) -> Result<SharedRegistry, Error>
        ensures prepared { IfOk result (λ r. IsPrepared
            (asking R.may_answer R.may_refuse retriever.now (first_layer draft siblings)) limit
            (documents_by (first_layer draft siblings) (documents_given documents.now)) (documents_shared r)
            (retrieved_shared r)) }
        ensures siblings { IfOk result (λ r. siblings_shared r ≡ siblings) }
        ensures refused { IfErr result (RefusesRegistry
            (asking R.may_answer R.may_refuse retriever.now (first_layer draft siblings)) limit
            (documents_by (first_layer draft siblings) (documents_given documents.now))) }
    {
        let layer = Layer {
            number: 0,
            draft,
            siblings,
        };
        documents.uris_are_apart();
        let shared = all_shared(alloc, documents.list().documents(), layer)?;
        gathered(alloc, shared, layer, retriever, limit)
    }

    /// The registry of these documents and further ones behind them, as `prepare` has it. One under the URI of another does not take
    /// its place: both are there, and what the further one bears counts before what the other does. What this registry holds is not
    /// asked for, and what stands beside `$ref` is read as it does.
    ///
    /// The URIs and values of both are shared and not copied. Beside that it costs what `Registry::with_wanted` costs.
    ///
    /// # Errors
    ///
    /// Those of `prepare`.
    pub fn prepare_beside<R: Retrieve>(
        &self,
        alloc: Global,
        documents: &Documents,
        draft: Draft,
        retriever: &R,
        limit: u64,
    ) -> Result<SharedRegistry, Error>
        ensures prepared { IfOk result (λ r. IsPrepared
            (asking R.may_answer R.may_refuse retriever.now (layer_over self.now draft)) limit
            (beside (documents_shared self.now) (layer_over self.now draft) (documents_given documents.now))
            (documents_shared r) (retrieved_shared r)) }
        ensures siblings { IfOk result (λ r. siblings_shared r ≡ siblings_shared self.now) }
        ensures refused { IfErr result (RefusesRegistry
            (asking R.may_answer R.may_refuse retriever.now (layer_over self.now draft)) limit
            (beside (documents_shared self.now) (layer_over self.now draft) (documents_given documents.now))) }
    {
        let layer = Layer {
            number: layer_above(self.registry.documents())?,
            draft,
            siblings: self.reads_ref_siblings(),
        };
        documents.uris_are_apart();
        let mut own = all_shared(alloc, documents.list().documents(), layer)?;
        let mut all = shared_again(alloc, self.registry.documents())?;
        all.append(&mut own)?;
        gathered(alloc, all, layer, retriever, limit)
    }

    /// Whether what stands beside `$ref` is read in Drafts 6 and 7.
    pub fn reads_ref_siblings(&self) -> bool
        ensures { result ≡ siblings_shared self.now }
    {
        self.registry.reads_ref_siblings()
    }

    /// The registry.
    pub fn registry(&self) -> &Registry<'static>
        ensures documents { documents_of result.now ≡ documents_shared self.now }
        ensures retrieved { retrieved_by result.now ≡ retrieved_shared self.now }
        ensures siblings { result.now.siblings ≡ siblings_shared self.now }
    {
        &self.registry
    }

    /// One more owner of the registry. The error comes where their count is full.
    pub fn share(&self) -> Result<Rc<Registry<'static>>, AllocError>
        ensures documents { IfOk result (λ r. documents_of r.value ≡ documents_shared self.now) }
        ensures siblings { IfOk result (λ r. r.value.siblings ≡ siblings_shared self.now) }
    {
        self.registry.clone()
    }

    /// No two of the documents have one name. It does nothing.
    pub fn documents_are_apart(&self)
        ensures { are_apart (documents_shared self.now) ≡ true }
    {}
}

/// A registry that roots are looked up in from a base URI, the draft by which its own documents are read that name none, and the registry
/// of the meta-schemas handed in, where there is one.
#[derive(Drop)]
pub struct SchemaRegistry {
    own: SharedRegistry,
    draft: Draft,
    base: Uri,
    parent: Option<SharedRegistry>,
}

impl SchemaRegistry {
    ghost use Rattle.schema_registries.specs.Seen.{documents_shared, documents_in_registry, siblings_shared};

    /// These four. It allocates nothing.
    pub fn new(
        own: SharedRegistry,
        draft: Draft,
        base: Uri,
        parent: Option<SharedRegistry>,
    ) -> SchemaRegistry
        ensures own { result.own ≡ own }
        ensures draft { result.draft ≡ draft }
        ensures base { result.base ≡ base }
        ensures parent { result.parent ≡ parent }
    {
        SchemaRegistry {
            own,
            draft,
            base,
            parent,
        }
    }

    /// The registry with its documents apart.
    pub fn own(&self) -> &SharedRegistry
        ensures { result.now ≡ self.now.own }
    {
        &self.own
    }

    /// The draft by which its own documents are read that name none.
    pub fn draft(&self) -> Draft
        ensures { result ≡ self.now.draft }
    {
        self.draft
    }

    /// Whether what stands beside `$ref` is read in Drafts 6 and 7.
    pub fn reads_ref_siblings(&self) -> bool
        ensures { result ≡ siblings_shared self.now.own }
    {
        self.own.reads_ref_siblings()
    }

    /// The registry of the meta-schemas handed in.
    pub fn parent(&self) -> Option<&SharedRegistry>
        ensures { option_map (λ p. p.now) result ≡ self.now.parent }
    {
        self.parent.as_ref()
    }

    /// The registry.
    pub fn registry(&self) -> &Registry<'static>
        ensures { documents_of result.now ≡ documents_in_registry self.now }
    {
        self.own.registry()
    }

    /// The base URI.
    pub fn base(&self) -> &Uri
        ensures { result.now ≡ self.now.base }
    {
        &self.base
    }
}
