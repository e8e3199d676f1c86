//! How validators are built.

ghost use Rattle.std.specs.Prelude.{◌≡◌, ◌⊎◌, [], IfOk, IfErr, OnOk, codes, None, Some, false};
ghost use Rattle.std.specs.List.{AllZip};
ghost use Rattle.schema_drafts.specs.Drafts as drafts;
ghost use Rattle.schema_definitions.specs.Lookup.{Target};
ghost use Rattle.document_sources.specs.Causes.{IsMemory};
ghost use Rattle.document_sources.specs.Given.{documents_by};
ghost use Rattle.schema_registries.specs.Passed.{RefusesRegistry};
ghost use Rattle.schema_registries.specs.Retrieval.{IsPrepared};
ghost use Rattle.schema_registries.specs.Seen.{documents_given, documents_shared, retrieved_shared, siblings_shared};
ghost use Rattle.schema_registries.specs.Roots.{Finds, root_on};
ghost use Rattle.schema_validators.specs.Absent.{NamesAbsent, absent_given};
ghost use Rattle.schema_validators.specs.Misnamed.{NamesMisnamed, misnamed_given};
ghost use Rattle.schema_validators.specs.Counted.{IsWithin};
ghost use Rattle.schema_validators.specs.Made.{IsMadeBy};
ghost use Rattle.schema_validators.specs.Asked.{IsMet};
ghost use Rattle.schema_validators.specs.Prepared.{asking_by, layer_by, meta_schemas_given, AreDocuments, IsRegistry};
ghost use Rattle.schema_validators.specs.RefusedTexts.{IsAbsentText, IsAt, IsMisnamedText};
ghost use Rattle.schema_validators.specs.Refused.{RefusesGiven, RefusesPreparing, RefusesRoot};
ghost use Rattle.schema_validators.specs.Built.{IsBuilt, RefusesBuilding};
ghost use Rattle.schema_validators.specs.Mapped.{IsMapBuilt, RefusesMapping};
ghost use Rattle.schema_validators.specs.AllTold.{TellsIn, RefusesTelling};
ghost use Rattle.schema_validators.specs.Caused.{ListsCauses, NoneWhereSound, RefusesListing};

use crate::absent::{absent_alone, absent_beside};
use crate::causes::causes_at;
use crate::error::{BuildError, RefusedText};
use crate::mapping::map_at;
use crate::meta_faults::tell_by_meta_schema;
use crate::meta_schema::ask_meta_schema;
use crate::misnamed::{misnamed_alone, misnamed_beside};
use crate::refused_texts::text_among;
use crate::validator::Validator;
use crate::validator_map::ValidatorMap;
use document_sources::layer::Layer;
use reached_sites::Error;
use reached_sites::cause::BuildCause;
use regex_patterns::RegexMaker;
use schema_drafts::draft::Draft;
use schema_patterns::PatternMaker;
use schema_registries::{
    DefaultRetriever, Documents, Retrieve, SchemaRegistry, SharedRegistry, WholeNumbers,
};
use schema_reports::ValidationError;
use std::alloc::{AllocError, Global};
use uri_references::uri::Uri;

/// The base URI until another is given.
const DEFAULT_BASE: &str = "json-schema:///";

/// How many documents are retrieved at most until another limit is set.
const DEFAULT_LIMIT: u64 = 256;

/// How many compile keys are reached at most until another limit is set.
const DEFAULT_NODE_LIMIT: usize = 65_536;

/// How validators are built.
#[derive(Drop)]
pub struct ValidationOptions<P = RegexMaker, R = DefaultRetriever> {
    alloc: Global,
    draft: Draft,
    siblings: bool,
    base: Uri,
    maker: P,
    retriever: WholeNumbers<R>,
    limit: u64,
    node_limit: usize,
    meta_schemas: Option<Documents>,
}

impl ValidationOptions {
    /// The newest draft, siblings of `$ref` not read in Drafts 6 and 7, the base URI `json-schema:///`, the patterns that `regex` reads, nobody who is asked, at most 256 documents
    /// retrieved, at most 65,536 compile keys, and no meta-schemas.
    ///
    /// # Errors
    ///
    /// Where memory was refused.
    pub(crate) fn new(alloc: Global) -> Result<ValidationOptions, AllocError>
        ensures draft { IfOk result (λ o. o.draft ≡ drafts.newest) }
        ensures siblings { IfOk result (λ o. o.siblings ≡ false) }
        ensures base { IfOk result (λ o. o.base ≡ codes "json-schema:///") }
        ensures limit { IfOk result (λ o. o.limit ≡ 256) }
        ensures node_limit { IfOk result (λ o. o.node_limit ≡ 65536) }
        ensures meta_schemas { IfOk result (λ o. o.meta_schemas ≡ None) }
    {
        match Uri::parse(alloc, DEFAULT_BASE) {
            Ok(base) => Ok(ValidationOptions {
                alloc,
                draft: Draft::default(),
                siblings: false,
                base,
                maker: RegexMaker,
                retriever: WholeNumbers::new(DefaultRetriever),
                limit: DEFAULT_LIMIT,
                node_limit: DEFAULT_NODE_LIMIT,
                meta_schemas: None,
            }),
            Err(_) => Err(AllocError),
        }
    }
}

// Asks the meta-schema of the root that a reference leads to, where meta-schemas were handed in.
fn meet<P: PatternMaker>(
    alloc: Global,
    registry: &SchemaRegistry,
    root: &str,
    maker: &P,
    node_limit: usize,
) -> Result<(), BuildError>
    ensures met { OnOk result ((target : Target) → Finds (root_on registry.now root.now) target
        → IsMet (P.patterns maker.now) node_limit registry.now.parent target) }
    ensures refused { IfErr result (RefusesRoot (P.patterns maker.now) node_limit registry.now
        (root_on registry.now root.now)) }
{
    let Some(parent) = registry.parent() else {
        return Ok(());
    };
    let base = registry.base();
    let resolver = registry.registry().resolver(base.clone()?)?;
    match resolver.lookup(root) {
        Ok(found) => ask_meta_schema(alloc, parent, &found, maker, node_limit),
        Err(error) => Err(BuildError::of_root(alloc, base, root, error)),
    }
}

// All faults that the meta-schema tells of the root that a reference leads to, where meta-schemas were handed in.
fn tell_faults<P: PatternMaker>(
    alloc: Global,
    registry: &SchemaRegistry,
    root: &str,
    maker: &P,
    node_limit: usize,
) -> Result<Vec<ValidationError<'static>>, BuildError>
    ensures told { IfOk result (λ v. (target : Target) → Finds (root_on registry.now root.now) target
        → TellsIn (P.patterns maker.now) node_limit registry.now.parent target v.items) }
    ensures none { IfOk result (λ v. registry.now.parent ≡ None → v.items ≡ []) }
    ensures refused { IfErr result (RefusesTelling (P.patterns maker.now) node_limit registry.now
        (root_on registry.now root.now)) }
{
    let Some(parent) = registry.parent() else {
        return Ok(Vec::new(alloc));
    };
    let base = registry.base();
    let resolver = registry.registry().resolver(base.clone()?)?;
    match resolver.lookup(root) {
        Ok(found) => tell_by_meta_schema(alloc, parent, &found, maker, node_limit),
        Err(error) => Err(BuildError::of_root(alloc, base, root, error)),
    }
}

impl<P: Drop, R: Drop> ValidationOptions<P, R> {
    /// Sets the draft of the documents that name none, the meta-schemas among them.
    pub fn with_draft(self, draft: Draft) -> ValidationOptions<P, R>
        ensures { result ≡ record self { draft = draft } }
    {
        ValidationOptions { draft, ..self }
    }

    /// Sets whether what stands beside `$ref` is read in Drafts 6 and 7, where it is ignored else: all keywords of the draft then count
    /// beside it, and the identifier beside it changes the base. It holds for all documents, the meta-schemas among them; the other drafts
    /// are read as ever.
    pub fn with_ref_siblings(self, siblings: bool) -> ValidationOptions<P, R>
        ensures { result ≡ record self { siblings = siblings } }
    {
        ValidationOptions { siblings, ..self }
    }

    /// Sets the URI that references to roots are resolved against.
    pub fn with_base(self, base: Uri) -> ValidationOptions<P, R>
        ensures { result ≡ record self { base = base } }
    {
        ValidationOptions { base, ..self }
    }

    /// Sets the meta-schemas: a root is then refused where its own is among them and refuses its value. They are at hand for each
    /// document's `$schema` and `$ref` besides.
    pub fn with_meta_schemas(self, documents: Documents) -> ValidationOptions<P, R>
        ensures { result ≡ record self { meta_schemas = Some documents } }
    {
        ValidationOptions {
            meta_schemas: Some(documents),
            ..self
        }
    }

    /// Sets how many documents are retrieved at most, for the meta-schemas and then anew for the documents.
    pub fn with_retrieval_limit(self, limit: u64) -> ValidationOptions<P, R>
        ensures { result ≡ record self { limit = limit } }
    {
        ValidationOptions { limit, ..self }
    }

    /// Sets how many compile keys are reached at most from a root, and from its meta-schema where that is asked: a schema counts once for
    /// each base, dialect, scope key and schema path with which it is reached.
    pub fn with_node_limit(self, node_limit: usize) -> ValidationOptions<P, R>
        ensures { result ≡ record self { node_limit = node_limit } }
    {
        ValidationOptions { node_limit, ..self }
    }

    /// Sets what makes the matchers of patterns. The literal forms of patterns never go to it.
    pub fn with_pattern_maker<Q: PatternMaker>(self, maker: Q) -> ValidationOptions<Q, R>
        ensures draft { result.draft ≡ self.draft }
        ensures siblings { result.siblings ≡ self.siblings }
        ensures base { result.base ≡ self.base }
        ensures maker { result.maker ≡ maker }
        ensures retriever { result.retriever ≡ self.retriever }
        ensures limit { result.limit ≡ self.limit }
        ensures node_limit { result.node_limit ≡ self.node_limit }
        ensures meta_schemas { result.meta_schemas ≡ self.meta_schemas }
    {
        ValidationOptions {
            alloc: self.alloc,
            draft: self.draft,
            siblings: self.siblings,
            base: self.base,
            maker,
            retriever: self.retriever,
            limit: self.limit,
            node_limit: self.node_limit,
            meta_schemas: self.meta_schemas,
        }
    }

    /// Sets whom the documents that are wanted are asked of. An answer with a number that is no whole number of 64 bits counts as refused.
    pub fn with_retriever<T: Retrieve>(self, retriever: T) -> ValidationOptions<P, T>
        ensures draft { result.draft ≡ self.draft }
        ensures siblings { result.siblings ≡ self.siblings }
        ensures base { result.base ≡ self.base }
        ensures maker { result.maker ≡ self.maker }
        ensures retriever { result.retriever.retriever ≡ retriever }
        ensures limit { result.limit ≡ self.limit }
        ensures node_limit { result.node_limit ≡ self.node_limit }
        ensures meta_schemas { result.meta_schemas ≡ self.meta_schemas }
    {
        ValidationOptions {
            alloc: self.alloc,
            draft: self.draft,
            siblings: self.siblings,
            base: self.base,
            maker: self.maker,
            retriever: WholeNumbers::new(retriever),
            limit: self.limit,
            node_limit: self.node_limit,
            meta_schemas: self.meta_schemas,
        }
    }

    /// Each `$ref` and each `$schema` of documents that leads to what is not at hand, as a cause with its place, its text and what `prepare`
    /// names where nobody gives it, in the order in which they are met. Those of the meta-schemas are looked at first, by themselves, and
    /// where they have none those of the documents and of the meta-schemas together. No document is asked of the retriever, and what it
    /// would give is not looked at.
    ///
    /// It costs about what `prepare` costs where nothing is retrieved, and for each reference to a URI that no schema place bears a look
    /// through the URIs of all documents.
    ///
    /// # Errors
    ///
    /// Where memory was refused, or a count of owners or of layers is full.
    pub fn absent_in(&self, documents: &Documents) -> Result<Vec<BuildCause>, AllocError>
        ensures listed { IfOk result (λ v. AllZip NamesAbsent (absent_given
            (meta_schemas_given self.now) (layer_by self.now) (documents_given documents.now)) v.items) }
    {
        let (alloc, given) = (self.alloc, documents.list().documents());
        let layer = Layer {
            number: 0,
            draft: self.draft,
            siblings: self.siblings,
        };
        match &self.meta_schemas {
            None => absent_alone(alloc, layer, given),
            Some(metas) => absent_beside(alloc, layer, metas.list().documents(), given),
        }
    }

    /// Each text of documents that names nothing: a `$schema` that counts, an identifier, or the part of a `$ref` before its `#`, that is no
    /// URI reference, and a `$schema` whose meta-schema waits for itself, or for one that does. Each is a cause with its place, its text and
    /// what is wrong with it, in the order in which they are met. Those of the meta-schemas are looked at first, by themselves, and where
    /// they have none those of the documents and of the meta-schemas together. No document is asked of the retriever. A meta-schema that
    /// each reading of the documents tells anew, for which `prepare` may refuse them too, has no place and is not listed.
    ///
    /// It costs about what `prepare` costs where nothing is retrieved, and for each meta-schema that places wait for, once, a look through
    /// all places for each that is waited for on the way.
    ///
    /// # Errors
    ///
    /// Where memory was refused, or a count of owners or of layers is full.
    pub fn misnamed_in(&self, documents: &Documents) -> Result<Vec<BuildCause>, AllocError>
        ensures listed { IfOk result (λ v. AllZip NamesMisnamed (misnamed_given
            (meta_schemas_given self.now) (layer_by self.now) (documents_given documents.now)) v.items) }
    {
        let (alloc, given) = (self.alloc, documents.list().documents());
        let layer = Layer {
            number: 0,
            draft: self.draft,
            siblings: self.siblings,
        };
        match &self.meta_schemas {
            None => misnamed_alone(alloc, layer, given),
            Some(metas) => misnamed_beside(alloc, layer, metas.list().documents(), given),
        }
    }

    // The text that names nothing for which documents are refused with an error.
    fn misnamed_text(
        &self,
        documents: &Documents,
        error: &Error,
    ) -> Result<Option<Box<RefusedText>>, AllocError>
        ensures { IfOk result (IsMisnamedText (misnamed_given
            (meta_schemas_given self.now) (layer_by self.now)
            (documents_given documents.now)) error.now) }
    {
        let causes = self.misnamed_in(documents)?;
        text_among(self.alloc, causes.as_slice(), error)
    }

    // The text that refers to what is not at hand for which they are.
    fn absent_text(
        &self,
        documents: &Documents,
        error: &Error,
    ) -> Result<Option<Box<RefusedText>>, AllocError>
        ensures { IfOk result (IsAbsentText (absent_given
            (meta_schemas_given self.now) (layer_by self.now)
            (documents_given documents.now)) error.now) }
    {
        let causes = self.absent_in(documents)?;
        text_among(self.alloc, causes.as_slice(), error)
    }

    // The one or the other, the one that names nothing first.
    fn refused_text(
        &self,
        documents: &Documents,
        error: &Error,
    ) -> Result<Option<Box<RefusedText>>, AllocError>
        ensures { IfOk result (IsAt
            (meta_schemas_given self.now) (layer_by self.now)
            (documents_given documents.now) error.now) }
    {
        if let Error::Memory = error {
            return Ok(None);
        }
        match self.misnamed_text(documents, error)? {
            Some(text) => Ok(Some(text)),
            None => self.absent_text(documents, error),
        }
    }
}

impl<P: PatternMaker + Drop, R: Drop> ValidationOptions<P, R> {
    /// A validator by the schema that a reference leads to, against the registry's base. Where meta-schemas were handed in, that of the
    /// root is asked. No document is retrieved.
    ///
    /// It walks what is reached from there once, compiles each schema there once, and makes each pattern there once. The validator keeps
    /// nothing of the registry.
    ///
    /// # Errors
    ///
    /// Where the reference leads nowhere, where something is wrong at a schema reached from there, a pattern that the maker refuses among
    /// it (of several causes one to which no more steps lead than to any other), where more compile keys are reached than the limit, where
    /// the root's meta-schema refuses its value or is not read for such a reason, or want of memory.
    pub fn build_on(
        &self,
        registry: &SchemaRegistry,
        root: &str,
    ) -> Result<Validator<P::Matcher>, BuildError>
        ensures made { IfOk result (IsMadeBy (P.patterns self.now.maker) (root_on registry.now root.now)) }
        ensures draft { IfOk result (λ v. (target : Target) → Finds (root_on registry.now root.now) target
            → v.draft ≡ target.dialect.draft) }
        ensures within { IfOk result (λ v. IsWithin (P.patterns self.now.maker) self.now.node_limit
            (root_on registry.now root.now)) }
        ensures met { IfOk result (λ v. (target : Target) → Finds (root_on registry.now root.now) target
            → IsMet (P.patterns self.now.maker) self.now.node_limit registry.now.parent target) }
        ensures refused { IfErr result (RefusesRoot (P.patterns self.now.maker) self.now.node_limit registry.now
            (root_on registry.now root.now)) }
    {
        let (alloc, limit) = (self.alloc, self.node_limit);
        let validator = Validator::at(
            alloc,
            registry.own(),
            registry.base(),
            root,
            &self.maker,
            limit,
        )?;
        meet(alloc, registry, root, &self.maker, limit)?;
        Ok(validator)
    }

    /// All that is wrong with the schema that a reference leads to, against the registry's base: each cause that `build_on` may name,
    /// in the order in which the schemas are met, of each the first of its identifier and of each member in turn. There is none exactly
    /// where nothing is wrong there. No meta-schema is asked.
    ///
    /// # Errors
    ///
    /// Where the reference leads nowhere, where more compile keys are reached than the limit, or want of memory.
    pub fn causes_on(
        &self,
        registry: &SchemaRegistry,
        root: &str,
    ) -> Result<Vec<BuildCause>, BuildError>
        ensures listed { IfOk result (λ v. ListsCauses (P.patterns self.now.maker)
            (root_on registry.now root.now) v.items) }
        ensures sound { IfOk result (λ v. NoneWhereSound (P.patterns self.now.maker)
            (root_on registry.now root.now) v.items) }
        ensures within { OnOk result (IsWithin (P.patterns self.now.maker) self.now.node_limit
            (root_on registry.now root.now)) }
        ensures refused { IfErr result (RefusesListing (P.patterns self.now.maker) self.now.node_limit
            (root_on registry.now root.now)) }
    {
        causes_at(self.alloc, registry, root, &self.maker, self.node_limit)
    }

    /// All that the meta-schema of the schema finds wrong with it that a reference leads to, against the registry's base: the faults of the
    /// root's value, in the order in which they are met, where that meta-schema was handed in. `build_on` names one of them. There is none
    /// exactly where it accepts the value, or none is asked; where none was handed in the reference is not looked up.
    ///
    /// # Errors
    ///
    /// Where some were handed in: where the reference leads nowhere, and why the meta-schema is not read. Want of memory.
    pub fn meta_schema_faults_on(
        &self,
        registry: &SchemaRegistry,
        root: &str,
    ) -> Result<Vec<ValidationError<'static>>, BuildError>
        ensures told { IfOk result (λ v. (target : Target) → Finds (root_on registry.now root.now) target
            → TellsIn (P.patterns self.now.maker) self.now.node_limit registry.now.parent target v.items) }
        ensures none { IfOk result (λ v. registry.now.parent ≡ None → v.items ≡ []) }
        ensures refused { IfErr result (RefusesTelling
            (P.patterns self.now.maker) self.now.node_limit registry.now (root_on registry.now root.now)) }
    {
        tell_faults(self.alloc, registry, root, &self.maker, self.node_limit)
    }
}

impl<P: Drop, R: Retrieve + Drop> ValidationOptions<P, R> {
    // Documents with what they want, over no others.
    fn first(&self, documents: &Documents) -> Result<SharedRegistry, Error>
        ensures prepared { IfOk result (λ r. IsPrepared (asking_by R.may_answer R.may_refuse self.now
            (layer_by self.now)) self.now.limit (documents_by (layer_by self.now) (documents_given documents.now))
            (documents_shared r) (retrieved_shared r)) }
        ensures siblings { IfOk result (λ r. siblings_shared r ≡ self.now.siblings) }
        ensures refused { IfErr result (RefusesRegistry (asking_by R.may_answer R.may_refuse self.now
            (layer_by self.now)) self.now.limit (documents_by (layer_by self.now)
            (documents_given documents.now))) }
    {
        SharedRegistry::prepare(
            self.alloc,
            documents,
            self.draft,
            self.siblings,
            &self.retriever,
            self.limit,
        )
    }

    // The documents with what they want, beside those of the meta-schemas with what these want.
    fn gather(&self, documents: &Documents, base: Uri) -> Result<SchemaRegistry, Error>
        ensures documents { IfOk result (AreDocuments
            (asking_by R.may_answer R.may_refuse self.now) self.now.limit (layer_by self.now)
            (meta_schemas_given self.now) (documents_given documents.now)) }
        ensures draft { IfOk result (λ r. r.draft ≡ self.now.draft) }
        ensures base { IfOk result (λ r. r.base ≡ base) }
        ensures siblings { IfOk result (λ r. siblings_shared r.own ≡ self.now.siblings) }
        ensures refused { IfErr result (λ e. IsMemory e ⊎ RefusesGiven
            (asking_by R.may_answer R.may_refuse self.now) self.now.limit (layer_by self.now)
            (meta_schemas_given self.now) (documents_given documents.now) e) }
    {
        let (alloc, draft, limit) = (self.alloc, self.draft, self.limit);
        match &self.meta_schemas {
            None => {
                let own = self.first(documents)?;
                Ok(SchemaRegistry::new(own, draft, base, None))
            }
            Some(given) => {
                let parent = self.first(given)?;
                let own = parent.prepare_beside(alloc, documents, draft, &self.retriever, limit)?;
                Ok(SchemaRegistry::new(own, draft, base, Some(parent)))
            }
        }
    }

    // The error of documents that are refused.
    fn refusal(&self, documents: &Documents, error: Error) -> BuildError
        ensures { IsMemory error ⊎ RefusesGiven
            (asking_by R.may_answer R.may_refuse self.now) self.now.limit (layer_by self.now)
            (meta_schemas_given self.now) (documents_given documents.now) error
            → RefusesPreparing R.may_answer R.may_refuse self.now
            (documents_given documents.now) result }
    {
        match self.refused_text(documents, &error) {
            Ok(at) => BuildError::of_registry(error, at),
            Err(_) => BuildError::Memory,
        }
    }

    /// A registry of documents, for any number of validators: the meta-schemas and what they want are gathered first, by themselves, and
    /// then the documents and what they want and is not there yet.
    ///
    /// It costs what `SharedRegistry::prepare` costs for each of the two. No value is copied. Where they are refused it costs, besides,
    /// what `misnamed_in` and `absent_in` cost, which are asked for the text that the error names.
    ///
    /// # Errors
    ///
    /// Where the retriever refuses what is wanted, where more is wanted than may be retrieved, a cause that the documents or the
    /// meta-schemas have to be refused, or want of memory. The first text of the documents at hand, or of the meta-schemas, that has this
    /// cause is told with it, where one has.
    pub fn prepare(&self, documents: &Documents) -> Result<SchemaRegistry, BuildError>
        ensures prepared { IfOk result (IsRegistry R.may_answer R.may_refuse self.now (documents_given documents.now)) }
        ensures refused { IfErr result (RefusesPreparing R.may_answer R.may_refuse self.now
            (documents_given documents.now)) }
    {
        let base = self.base.clone()?;
        match self.gather(documents, base) {
            Ok(registry) => Ok(registry),
            Err(error) => Err(self.refusal(documents, error)),
        }
    }
}

impl<P: PatternMaker + Drop, R: Retrieve + Drop> ValidationOptions<P, R> {
    /// A validator by the schema that a reference leads to in documents, prepared for it alone.
    ///
    /// # Errors
    ///
    /// Those of `prepare` and of `build_on`.
    pub fn build(
        &self,
        documents: &Documents,
        root: &str,
    ) -> Result<Validator<P::Matcher>, BuildError>
        ensures built { IfOk result (IsBuilt (P.patterns self.now.maker) R.may_answer R.may_refuse self.now
            (documents_given documents.now) root.now) }
        ensures refused { IfErr result (λ e. RefusesPreparing R.may_answer R.may_refuse self.now
            (documents_given documents.now) e ⊎ RefusesBuilding
            (P.patterns self.now.maker) R.may_answer R.may_refuse self.now
            (documents_given documents.now) root.now e) }
    {
        let registry = self.prepare(documents)?;
        self.build_on(&registry, root)
    }

    /// A validator for each schema of the document under whose URI a root lies, an own one before a parent's, by its JSON Pointer: those of its schema places at which nothing is wrong
    /// and from which nothing wrong is reached. Each begins where looking its pointer up, as a fragment, leads from the document's URI,
    /// with the resource of the document's own root in its scope (Core 8.2.3.2).
    ///
    /// All that is reached from the places is walked once, and compiled into one graph, with its patterns, that all of them share.
    /// No meta-schema is asked.
    ///
    /// # Errors
    ///
    /// Those of `prepare`; a root that leads nowhere; more compile keys than the limit, from all places together; and want of memory.
    pub fn build_map(
        &self,
        documents: &Documents,
        root: &str,
    ) -> Result<ValidatorMap<P::Matcher>, BuildError>
        ensures built { IfOk result (IsMapBuilt (P.patterns self.now.maker) R.may_answer R.may_refuse self.now
            (documents_given documents.now) root.now) }
        ensures refused { IfErr result (λ e. RefusesPreparing R.may_answer R.may_refuse self.now
            (documents_given documents.now) e ⊎ RefusesMapping
            (P.patterns self.now.maker) R.may_answer R.may_refuse self.now
            (documents_given documents.now) root.now e) }
    {
        let registry = self.prepare(documents)?;
        map_at(self.alloc, &registry, root, &self.maker, self.node_limit)
    }
}
