//! The validator of some words and files.

ghost use Rattle.std.specs.Prelude.{◌≡◌, [], IfOk, Some, option_map};
ghost use Rattle.document_sources.specs.Seen.{layer_of};
ghost use Rattle.line_runs.specs.Passed.{meta_schemas_given};
ghost use Rattle.schema_drafts.specs.Drafts.{draft_among};
ghost use Rattle.schema_registries.specs.Roots.{root_on};
ghost use Rattle.schema_registries.specs.Seen.{documents_given};
ghost use Rattle.validator_program.specs.Given.{MayBeMetaSchemas, base_of, draft_of, draft_words, words_of};
ghost use Rattle.validator_program.specs.Built.{IsPreparedOf, default_node_limit};
ghost use Rattle.validator_program.specs.Prepared.{IsValidatorOf};

use crate::documents::{cut_words, read_documents};
use crate::fault::ProgramFault;
use crate::meta_files::read_meta_schemas;
use crate::refusal::says_more;
use crate::warnings::warn_of_keywords;
use document_sources::layer::Layer;
use line_cuts::ByteSink;
use line_runs::{BuildError, Documents, Draft, Error, ValidationOptions, Validator};
use program_inputs::{ProgramWords, SchemaFiles};
use schema_registries::SchemaRegistry;
use schema_reports::ValidationError;
use std::alloc::{AllocError, Global};
use uri_references::uri::{Uri, from_str};

/// The base where none is given.
pub(crate) const DEFAULT_BASE: &str = "json-schema:///";

fn read_base<'a>(alloc: Global, base: Option<&'a str>) -> Result<Uri, ProgramFault<'a>>
    ensures { IfOk result (λ u. u ≡ base_of (option_map (λ s. s.now) base.entry)) }
{
    Ok(from_str(alloc, base.unwrap_or(DEFAULT_BASE))?)
}

/// The word for a draft.
pub(crate) fn word_for(draft: Draft) -> &'static str {
    match draft {
        Draft::Draft4 => "4",
        Draft::Draft6 => "6",
        Draft::Draft7 => "7",
        Draft::Draft201909 => "2019-09",
        Draft::Draft202012 | Draft::Unknown => "2020-12",
    }
}

// The draft that a word names.
fn draft_named(word: &str) -> Option<Draft>
    ensures { result ≡ draft_among draft_words word.now }
{
    match word {
        "4" => Some(Draft::Draft4),
        "6" => Some(Draft::Draft6),
        "7" => Some(Draft::Draft7),
        "2019-09" => Some(Draft::Draft201909),
        "2020-12" => Some(Draft::Draft202012),
        _ => None,
    }
}

// The draft of the documents that name none.
fn read_draft<'a>(draft: Option<&'a str>) -> Result<Draft, ProgramFault<'a>>
    ensures { IfOk result (λ d. draft_of (option_map (λ s. s.now) draft.entry) ≡ Some d) }
{
    let Some(word) = draft else {
        return Ok(Draft::default());
    };
    match draft_named(word) {
        Some(draft) => Ok(draft),
        None => Err(ProgramFault::Draft { word }),
    }
}

// How the documents are read that stand over no others.
fn read_layer<'a>(draft: Option<&'a str>, siblings: bool) -> Result<Layer, ProgramFault<'a>>
    ensures number { IfOk result (λ l. l.number ≡ 0) }
    ensures draft { IfOk result (λ l. draft_of (option_map (λ s. s.now) draft.entry) ≡ Some l.draft) }
    ensures siblings { IfOk result (λ l. l.siblings ≡ siblings) }
{
    Ok(Layer {
        number: 0,
        draft: read_draft(draft)?,
        siblings,
    })
}

// The meta-schemas of a file, where one was given.
fn read_meta<'a, F: SchemaFiles>(
    alloc: Global,
    files: &F,
    layer: Layer,
    meta: Option<&'a str>,
) -> Result<Option<Documents>, ProgramFault<'a>>
    ensures { IfOk result (λ d. MayBeMetaSchemas (F.held files.now) (layer_of layer)
        (option_map (λ s. s.now) meta.entry) (option_map documents_given d)) }
{
    match meta {
        Some(name) => Ok(Some(read_meta_schemas(alloc, files, layer, name)?)),
        None => Ok(None),
    }
}

// How the validator is built.
fn options_of(
    alloc: Global,
    layer: Layer,
    base: Uri,
    meta_schemas: Option<Documents>,
) -> Result<ValidationOptions, AllocError>
    ensures draft { IfOk result (λ o. o.draft ≡ layer.draft) }
    ensures siblings { IfOk result (λ o. o.siblings ≡ layer.siblings) }
    ensures base { IfOk result (λ o. o.base ≡ base) }
    ensures node_limit { IfOk result (λ o. o.node_limit ≡ default_node_limit) }
    ensures meta_schemas { IfOk result (λ o. meta_schemas_given o
        ≡ option_map documents_given meta_schemas) }
{
    let options = Validator::options(alloc)?
        .with_draft(layer.draft)
        .with_ref_siblings(layer.siblings)
        .with_base(base);
    match meta_schemas {
        Some(documents) => Ok(options.with_meta_schemas(documents)),
        None => Ok(options),
    }
}

/// Documents that are prepared, and how a validator is built on them.
#[derive(Drop)]
pub(crate) struct PreparedDocuments {
    pub(crate) options: ValidationOptions,
    pub(crate) registry: SchemaRegistry,
}

/// Prepares the documents that the words name, and tells of their members that are no keywords, where the words ask for that.
///
/// # Errors
///
/// The first that is met: a further word without `=`, the draft, the base, the files and documents in their order, the meta-schemas, what
/// the documents together are refused for; or want of memory.
pub(crate) fn prepare_documents<'a, F: SchemaFiles, T: ByteSink>(
    alloc: Global,
    words: &ProgramWords<'a>,
    files: &F,
    faults: &mut T,
) -> Result<PreparedDocuments, ProgramFault<'a>>
    ensures prepared { IfOk result (λ d. IsPreparedOf (F.held files.now) (words_of words.now)
        d.registry.parent (root_on d.registry [])) }
    ensures node_limit { IfOk result (λ d. d.options.node_limit ≡ default_node_limit) }
{
    let further = cut_words(alloc, words.files.as_slice())?;
    let layer = read_layer(words.draft, words.ref_siblings)?;
    let base = read_base(alloc, words.base)?;
    let documents = read_documents(
        alloc,
        files,
        base.as_str(),
        words.schema,
        further.as_slice(),
    )?;
    let meta_schemas = read_meta(alloc, files, layer, words.meta)?;
    let options = options_of(alloc, layer, base, meta_schemas)?;
    let registry = match options.prepare(&documents) {
        Ok(registry) => registry,
        Err(error) => return Err(unprepared(alloc, words, &options, &documents, error)),
    };
    warn_of_keywords(alloc, words, &registry, faults);
    Ok(PreparedDocuments { options, registry })
}

// Each reference of the documents to what is not at hand, and then each of their texts that names nothing, as an error of its own; nothing
// where memory is out.
fn all_unmet(
    alloc: Global,
    options: &ValidationOptions,
    documents: &Documents,
) -> Option<Vec<BuildError>> {
    let mut errors = Vec::new(alloc);
    for cause in options.absent_in(documents).ok()? {
        errors.push(BuildError::Schema(cause)).ok()?;
    }
    for cause in options.misnamed_in(documents).ok()? {
        errors.push(BuildError::Schema(cause)).ok()?;
    }
    Some(errors)
}

// Whether documents are refused for references in them: to what is not at hand, to more than may be asked for, or to nothing at all.
fn is_of_references(error: &BuildError) -> bool {
    let BuildError::Registry(refused) = error else {
        return false;
    };
    matches!(
        refused.error,
        Error::Unretrievable { .. }
            | Error::UnknownSpecification { .. }
            | Error::RetrievalLimit { .. }
            | Error::InvalidUri(_)
            | Error::CircularMetaschema { .. }
    )
}

// The fault of documents that are refused together: where more is said than its text, and they are refused for references, with each such
// reference.
fn unprepared<'a>(
    alloc: Global,
    words: &ProgramWords<'a>,
    options: &ValidationOptions,
    documents: &Documents,
    error: BuildError,
) -> ProgramFault<'a> {
    if !(says_more(words) && is_of_references(&error)) {
        return ProgramFault::from(error);
    }
    match all_unmet(alloc, options, documents) {
        Some(causes) => ProgramFault::Schema {
            error,
            causes,
            faults: Vec::new(alloc),
        },
        None => ProgramFault::from(error),
    }
}

// All that is wrong with the schema, each cause as an error of its own; nothing where memory is out.
fn all_causes(alloc: Global, documents: &PreparedDocuments) -> Option<Vec<BuildError>> {
    let (options, registry) = (&documents.options, &documents.registry);
    let mut errors = Vec::new(alloc);
    for cause in options.causes_on(registry, "").ok()? {
        errors.push(BuildError::Schema(cause)).ok()?;
    }
    Some(errors)
}

// All that its meta-schema finds wrong with the schema, if that is read.
fn all_faults(alloc: Global, documents: &PreparedDocuments) -> Vec<ValidationError<'static>> {
    let (options, registry) = (&documents.options, &documents.registry);
    match options.meta_schema_faults_on(registry, "") {
        Ok(faults) => faults,
        Err(_) => Vec::new(alloc),
    }
}

// The fault of a build that was refused: where more is said than its text, and something is wrong at a schema, or its meta-schema refuses
// it, with all causes.
fn refused<'a>(
    alloc: Global,
    words: &ProgramWords<'a>,
    documents: &PreparedDocuments,
    error: BuildError,
) -> ProgramFault<'a> {
    let has_causes = matches!(error, BuildError::Schema(_) | BuildError::MetaSchema(_));
    if !(says_more(words) && has_causes) {
        return ProgramFault::from(error);
    }
    match all_causes(alloc, documents) {
        Some(causes) => ProgramFault::Schema {
            error,
            causes,
            faults: all_faults(alloc, documents),
        },
        None => ProgramFault::from(error),
    }
}

/// Builds the validator that the words name.
///
/// # Errors
///
/// Those of the documents, the build, or want of memory.
pub(crate) fn prepare<'a, F: SchemaFiles, T: ByteSink>(
    alloc: Global,
    words: &ProgramWords<'a>,
    files: &F,
    faults: &mut T,
) -> Result<Validator, ProgramFault<'a>>
    ensures { IfOk result (IsValidatorOf (F.held files.now) (words_of words.now)) }
{
    let documents = prepare_documents(alloc, words, files, faults)?;
    match documents.options.build_on(&documents.registry, "") {
        Ok(validator) => Ok(validator),
        Err(error) => Err(refused(alloc, words, &documents, error)),
    }
}
