//! Why there is no validator.

ghost use Rattle.std.specs.Prelude.{◌≡◌, ℕ, IfOk, string_bytes};
ghost use Rattle.schema_definitions.specs.Lookup.{Target, lookup};
ghost use Rattle.document_sources.specs.Causes.{RefusesLookup};
ghost use Rattle.compiled_graphs.specs.First.{RefusesFirst};
ghost use Rattle.schema_registries.specs.Roots.{Root, Patterns, Finds, site_of_root};
ghost use Rattle.schema_validators.specs.Refused.{IsOfRegistry, RefusesBuild};
ghost use Rattle.schema_validators.specs.New.{IsOfDocument};
ghost use Rattle.schema_validators.specs.Refused.{RefusesReference, IsOfPlaces};

use reached_sites::Error as ReferenceError;
use reached_sites::cause::BuildCause;
use reached_sites::place::SchemaPlace;
use schema_registries::{DocumentError, Path};
use schema_reports::ValidationError;
use std::alloc::{AllocError, Global};
use std::fmt;
use thiserror::Error;
use uri_references::uri::Uri;

/// A text of a document: the place of the member that has it, and the text.
#[derive(Debug, Drop)]
pub struct RefusedText {
    pub place: SchemaPlace,
    pub reference: String,
}

/// Documents that are refused together.
#[derive(Debug, Drop)]
pub struct RefusedDocuments {
    /// Why.
    pub error: ReferenceError,
    /// The first text of the documents at hand for which they are refused with this error, if there is one.
    pub at: Option<Box<RefusedText>>,
}

/// A reference to a root that leads nowhere.
#[derive(Debug, Drop)]
pub struct RefusedRoot {
    /// The URI that it is resolved against.
    pub base: Uri,
    /// Its text.
    pub reference: String,
    /// What was looked up.
    pub error: ReferenceError,
}

/// A root whose value its meta-schema refuses.
#[derive(Debug, Drop)]
pub struct RefusedSchema {
    /// The place of the root.
    pub place: SchemaPlace,
    /// The URI of the meta-schema.
    pub meta_schema: Uri,
    /// One of the faults that it tells of the root's value.
    pub fault: ValidationError<'static>,
}

/// Why no validator is built.
#[derive(Debug, Drop, Error)]
pub enum BuildError {
    /// The schema is no document.
    #[error(transparent)]
    Document(DocumentError),
    /// The documents, or the meta-schemas handed in, are no registry.
    #[error("{}", .0.error)]
    Registry(RefusedDocuments),
    /// The reference to the root leads nowhere.
    #[error("{}", .0.error)]
    Root(RefusedRoot),
    /// Something is wrong at a schema that the root leads to, or it leads to more schemas than are allowed.
    #[error(transparent)]
    Schema(BuildCause),
    /// The meta-schema of the root, which was handed in, refuses the root's value: one of the faults that it tells.
    #[error("Schema refused by its meta-schema at '{}', '{}'", .0.fault.instance_path(), .0.fault.evaluation_path())]
    MetaSchema(RefusedSchema),
    /// Memory was refused.
    #[error("No memory")]
    Memory,
}

impl From<AllocError> for BuildError {
    ghost use Rattle.schema_validators.specs.declared.error.BuildError.TheVariants.{Memory};

    ghost from_gives = { λ _ e. e ≡ Memory };

    fn from(_error: AllocError) -> BuildError {
        BuildError::Memory
    }
}

impl From<DocumentError> for BuildError {
    ghost from_gives = { IsOfDocument };

    fn from(error: DocumentError) -> BuildError {
        match error {
            DocumentError::Memory => BuildError::Memory,
            error => BuildError::Document(error),
        }
    }
}

/// Why a value is not answered.
#[derive(Debug, Drop)]
pub enum NumberError {
    /// A number that is no whole number from -2^63 to 2^64-1, at this path of the value.
    Other { path: Path },
    /// Memory was refused.
    Memory,
}

impl From<AllocError> for NumberError {
    ghost use Rattle.schema_validators.specs.declared.error.NumberError.TheVariants.{Memory};

    ghost from_gives = { λ _ e. e ≡ Memory };

    fn from(_error: AllocError) -> NumberError {
        NumberError::Memory
    }
}

impl fmt::Display for NumberError {
    fn fmt<W: fmt::Write>(&self, f: &mut fmt::Formatter<W>) -> fmt::Result {
        match self {
            NumberError::Other { path } => {
                write!(f, "Number at '{path}' is no whole number of 64 bits")
            }
            NumberError::Memory => f.write_str("No memory"),
        }
    }
}

impl std::error::Error for NumberError {}

// A reference to a root with the URI that it is resolved against.
fn root_texts(alloc: Global, base: &Uri, reference: &str) -> Result<(Uri, String), AllocError>
    ensures base { IfOk result (λ x. x.0 ≡ base.now) }
    ensures reference { IfOk result (λ x. string_bytes x.1 ≡ reference.now) }
{
    Ok((base.clone()?, String::from_str(alloc, reference)?))
}

impl BuildError {
    /// The error of documents that are refused, with the text for which they are.
    pub(crate) fn of_registry(error: ReferenceError, at: Option<Box<RefusedText>>) -> BuildError
        ensures { IsOfRegistry error at result }
    {
        match error {
            ReferenceError::Memory => BuildError::Memory,
            error => BuildError::Registry(RefusedDocuments { error, at }),
        }
    }

    /// The error of a reference to a root that leads nowhere.
    pub(crate) fn of_root(
        alloc: Global,
        base: &Uri,
        reference: &str,
        error: ReferenceError,
    ) -> BuildError
        ensures alone { (root : Root) → root.base ≡ base.now → root.reference ≡ reference.now
            → RefusesLookup (lookup root.documents root.base root.reference) error
            → RefusesReference root result }
        ensures build { (p : Patterns) (limit : ℕ) (root : Root)
            → root.base ≡ base.now → root.reference ≡ reference.now
            → RefusesLookup (lookup root.documents root.base root.reference) error
            → RefusesBuild p limit root result }
    {
        match error {
            ReferenceError::Memory => BuildError::Memory,
            error => match root_texts(alloc, base, reference) {
                Ok((base, reference)) => BuildError::Root(RefusedRoot {
                    base,
                    reference,
                    error,
                }),
                Err(_) => BuildError::Memory,
            },
        }
    }

    /// The error of a root that leads to a cause, the first one, or to too much.
    pub(crate) fn of_schema(cause: BuildCause) -> BuildError
        ensures { (p : Patterns) (limit : ℕ) (root : Root) (target : Target) → Finds root target
            → RefusesFirst root.documents p.makes (site_of_root root target) limit cause
            → RefusesBuild p limit root result }
    {
        match cause {
            BuildCause::Memory => BuildError::Memory,
            cause => BuildError::Schema(cause),
        }
    }

    /// The error of places from which too much is reached.
    pub(crate) fn of_places(cause: BuildCause) -> BuildError
        ensures { IsOfPlaces cause result }
    {
        match cause {
            BuildCause::Memory => BuildError::Memory,
            cause => BuildError::Schema(cause),
        }
    }
}
