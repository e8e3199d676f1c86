//! Errors of validation.
ghost use Rattle.std.specs.Prelude.{◌≡◌, Some, IfOk, box_value};
ghost use Rattle.serde_json.specs.View.{view};
ghost use Rattle.schema_meaning.specs.Faults as told;
ghost use Rattle.schema_reports.specs.LastNames.{last_name as name_at_end};

use crate::instance::Instance;
use crate::keyword_location::KeywordLocation;
use crate::kind::ValidationErrorKind;
use crate::paths::Paths;
use location_texts::LazyLocation;
use schema_steps::{Path, Step};
use serde_json::Value;
use std::alloc::{AllocError, Global};
use std::error::Error;
use std::fmt;

/// Why a value is refused, and where: the value, its path in the instance, the path of the schema from where it began,
/// and the path by which evaluation came to the schema.
#[derive(Debug, Drop)]
#[cycle(errors)]
pub struct ValidationError<'i> {
    pub(crate) kind: Box<ValidationErrorKind<'i>>,
    pub(crate) instance: Instance<'i>,
    pub(crate) instance_path: Path,
    pub(crate) schema_path: Path,
    pub(crate) evaluation_path: Path,
    pub(crate) standing: Option<KeywordLocation>,
}

impl<'i> ValidationError<'i> {
    ghost use Rattle.schema_reports.specs.Instances.{value_in};
    ghost use Rattle.schema_reports.specs.Kinds.{kind_of, is_proper};
    ghost use Rattle.schema_meaning.specs.Rules.{of_object};
    ghost use Rattle.location_texts.specs.Locations.{location_of};
    ghost use Rattle.schema_reports.specs.Told.{fault_of, fault_kind, fault_instance, error_is_proper, spot_of};
    ghost use Rattle.schema_reports.specs.Described.{keyword_of, message_of};

    /// An error of these parts.
    ///
    /// The error comes where memory is out.
    pub fn new(
        alloc: Global,
        kind: ValidationErrorKind<'i>,
        instance: &'i Value,
        instance_path: Path,
        schema_path: Path,
        evaluation_path: Path,
    ) -> Result<Self, AllocError>
        ensures told { IfOk result (λ e. fault_of e ≡ told.fault (kind_of kind.entry) (view instance.now) instance_path schema_path evaluation_path) }
        ensures proper { IfOk result (λ e. error_is_proper e ≡ is_proper kind.entry) }
    {
        let paths = Paths {
            instance: instance_path,
            schema: schema_path,
            evaluation: evaluation_path,
            standing: None,
        };
        Ok(ValidationError::of(Box::new(alloc, kind)?, instance, paths))
    }

    // An error of these parts, which takes no memory.
    pub(crate) fn of(kind: Box<ValidationErrorKind<'i>>, instance: &'i Value, paths: Paths) -> Self
        ensures told { fault_of result ≡ told.fault (kind_of (box_value kind.entry)) (view instance.now) paths.instance paths.schema paths.evaluation }
        ensures proper { error_is_proper result ≡ is_proper (box_value kind.entry) }
    {
        ValidationError::with(kind, Instance::Lent(instance), paths)
    }

    // An error of these parts, of a value that may be its own.
    pub(crate) fn with(
        kind: Box<ValidationErrorKind<'i>>,
        instance: Instance<'i>,
        paths: Paths,
    ) -> Self
        ensures told { fault_of result ≡ told.fault (kind_of (box_value kind.entry)) (value_in instance.entry) paths.instance paths.schema paths.evaluation }
        ensures proper { error_is_proper result ≡ is_proper (box_value kind.entry) }
    {
        ValidationError {
            kind,
            instance,
            instance_path: paths.instance,
            schema_path: paths.schema,
            evaluation_path: paths.evaluation,
            standing: paths.standing,
        }
    }

    /// The error of an object that has a name with this error. It is told at the same paths of schema and evaluation.
    ///
    /// The error comes where memory is out or a count of owners is full.
    pub(crate) fn told_of(
        mut self,
        alloc: Global,
        object: &'i Value,
        at: &LazyLocation<'_, '_>,
    ) -> Result<Self, AllocError>
        ensures told { IfOk result (λ e. fault_of e ≡ of_object (spot_of (view object.now) (location_of at.now)) (fault_of self.entry)) }
        ensures proper { IfOk result (λ e. error_is_proper e ≡ error_is_proper self.entry) }
    {
        let standing = self.standing.take();
        let paths = self.paths_at(alloc, at, standing)?;
        let kind = self.into_name_kind(alloc)?;
        Ok(ValidationError::of(kind, object, paths))
    }

    // The kind of the error of a name with this error.
    fn into_name_kind(self, alloc: Global) -> Result<Box<ValidationErrorKind<'i>>, AllocError>
        ensures told { IfOk result (λ k. kind_of (box_value k) ≡ told.PropertyNames (fault_of self.entry)) }
        ensures proper { IfOk result (λ k. is_proper (box_value k) ≡ error_is_proper self.entry) }
    {
        let error = Box::new(alloc, self)?;
        Ok(Box::new(alloc, ValidationErrorKind::PropertyNames { error })?)
    }

    // The paths of the error, but for that of another value.
    fn paths_at(
        &self,
        alloc: Global,
        at: &LazyLocation<'_, '_>,
        standing: Option<KeywordLocation>,
    ) -> Result<Paths, AllocError>
        ensures instance { IfOk result (λ p. p.instance ≡ location_of at.now) }
        ensures schema { IfOk result (λ p. p.schema ≡ told.schema_path (fault_of self.now)) }
        ensures evaluation { IfOk result (λ p. p.evaluation ≡ told.evaluation_path (fault_of self.now)) }
    {
        Ok(Paths {
            instance: at.to_path(alloc)?,
            schema: self.schema_path.clone()?,
            evaluation: self.evaluation_path.clone()?,
            standing,
        })
    }

    /// Why the value is refused.
    pub fn kind(&self) -> &ValidationErrorKind<'i>
        ensures kind { kind_of result.now ≡ fault_kind (fault_of self.now) }
        ensures proper { is_proper result.now ≡ error_is_proper self.now }
    {
        &self.kind
    }

    /// The name of the keyword that refuses the value: `falseSchema` for a schema `false`, `propertyNames` for the name of a
    /// member, and else the name at the end of the evaluation path, which is empty where no name stands there.
    pub fn keyword(&self) -> &str
        ensures { result.now ≡ keyword_of (fault_of self.now) }
    {
        match self.kind() {
            ValidationErrorKind::FalseSchema => "falseSchema",
            ValidationErrorKind::PropertyNames { .. } => "propertyNames",
            _ => last_name(&self.evaluation_path),
        }
    }

    /// What is wrong in words: the name of the kind, as it is printed.
    pub fn message(&self) -> &'static str
        ensures { result.now ≡ message_of self.now }
    {
        self.kind.as_str()
    }

    /// The value that is refused.
    pub const fn instance(&self) -> &Value
        ensures { view result.now ≡ fault_instance (fault_of self.now) }
    {
        self.instance.value()
    }

    /// The path of the value from the instance's root.
    pub const fn instance_path(&self) -> &Path
        ensures { result.now ≡ told.instance_path (fault_of self.now) }
    {
        &self.instance_path
    }

    /// The path of the keyword from where its schema began, which the last reference says.
    pub const fn schema_path(&self) -> &Path
        ensures { result.now ≡ told.schema_path (fault_of self.now) }
    {
        &self.schema_path
    }

    /// The path by which evaluation came to the keyword, through references.
    pub const fn evaluation_path(&self) -> &Path
        ensures { result.now ≡ told.evaluation_path (fault_of self.now) }
    {
        &self.evaluation_path
    }
}

// The name at the end of a path.
fn last_name(path: &Path) -> &str
    ensures { result.now ≡ name_at_end path.now }
{
    match path.steps().next() {
        Some(Step::Name(name)) => name.as_str(),
        _ => "",
    }
}

/// The name of the error's kind.
impl fmt::Display for ValidationError<'_> {
    ghost use Rattle.schema_reports.specs.Kinds.{kind_name};

    ghost output = { λ error. Some (kind_name (box_value error.kind)) };

    fn fmt<W: fmt::Write>(&self, f: &mut fmt::Formatter<W>) -> fmt::Result {
        f.write_str(self.kind.as_str())
    }
}

impl Error for ValidationError<'_> {}
