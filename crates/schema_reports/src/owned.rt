//! Errors with values of their own.
ghost use Rattle.std.specs.Prelude.{◌≡◌, IfOk, box_value};
ghost use Rattle.schema_reports.specs.Contexts.{branches_of};
ghost use Rattle.schema_reports.specs.Kinds.{kind_of, is_proper};
ghost use Rattle.schema_reports.specs.Told.{fault_of, faults_of, branches_in, error_is_proper, are_proper, context_is_proper};

use crate::context::ErrorContext;
use crate::error::ValidationError;
use crate::kind::ValidationErrorKind as Kind;
use crate::paths::Paths;
use std::alloc::{AllocError, Global};

impl ValidationError<'_> {
    /// The same error with values of its own, and so are those that it carries.
    ///
    /// What it has of its own is kept, and a value that was lent is copied. The error comes where memory is out.
    pub fn to_owned<'o>(self, alloc: Global) -> Result<ValidationError<'o>, AllocError>
        ensures told { IfOk result (λ e. fault_of e ≡ fault_of self.entry) }
        ensures proper { IfOk result (λ e. error_is_proper e ≡ error_is_proper self.entry) }
    {
        owned_error(alloc, self)
    }
}

#[cycle(owned)]
fn owned_error<'o>(
    alloc: Global,
    error: ValidationError<'_>,
) -> Result<ValidationError<'o>, AllocError>
    ensures told { IfOk result (λ e. fault_of e ≡ fault_of error.entry) }
    ensures proper { IfOk result (λ e. error_is_proper e ≡ error_is_proper error.entry) }
{
    let ValidationError {
        kind,
        instance,
        instance_path,
        schema_path,
        evaluation_path,
        standing,
    } = error;
    let paths = Paths {
        instance: instance_path,
        schema: schema_path,
        evaluation: evaluation_path,
        standing,
    };
    let instance = instance.into_owned()?;
    let kind = owned_boxed(alloc, kind)?;
    Ok(ValidationError::with(kind, instance, paths))
}

#[cycle(owned)]
fn owned_boxed<'o>(alloc: Global, kind: Box<Kind<'_>>) -> Result<Box<Kind<'o>>, AllocError>
    ensures told { IfOk result (λ k. kind_of (box_value k) ≡ kind_of (box_value kind.entry)) }
    ensures proper { IfOk result (λ k. is_proper (box_value k) ≡ is_proper (box_value kind.entry)) }
{
    let kind = owned_kind(alloc, Box::into_inner(kind))?;
    Ok(Box::new(alloc, kind)?)
}

#[cycle(owned)]
fn owned_kind<'o>(alloc: Global, kind: Kind<'_>) -> Result<Kind<'o>, AllocError>
    ensures told { IfOk result (λ k. kind_of k ≡ kind_of kind.entry) }
    ensures proper { IfOk result (λ k. is_proper k ≡ is_proper kind.entry) }
{
    match kind {
        Kind::AdditionalItems => Ok(Kind::AdditionalItems),
        Kind::AdditionalProperties { unexpected } => Ok(Kind::AdditionalProperties { unexpected }),
        Kind::AnyOf { context } => Ok(Kind::AnyOf {
            context: owned_context(alloc, context)?,
        }),
        Kind::Constant { expected_value } => Ok(Kind::Constant { expected_value }),
        Kind::Contains => Ok(Kind::Contains),
        Kind::Enumeration { options } => Ok(Kind::Enumeration { options }),
        Kind::ExclusiveMaximum { limit } => Ok(Kind::ExclusiveMaximum { limit }),
        Kind::ExclusiveMinimum { limit } => Ok(Kind::ExclusiveMinimum { limit }),
        Kind::FalseSchema => Ok(Kind::FalseSchema),
        Kind::MaxItems { limit } => Ok(Kind::MaxItems { limit }),
        Kind::Maximum { limit } => Ok(Kind::Maximum { limit }),
        Kind::MaxLength { limit } => Ok(Kind::MaxLength { limit }),
        Kind::MaxProperties { limit } => Ok(Kind::MaxProperties { limit }),
        Kind::MinItems { limit } => Ok(Kind::MinItems { limit }),
        Kind::Minimum { limit } => Ok(Kind::Minimum { limit }),
        Kind::MinLength { limit } => Ok(Kind::MinLength { limit }),
        Kind::MinProperties { limit } => Ok(Kind::MinProperties { limit }),
        Kind::MultipleOf { multiple_of } => Ok(Kind::MultipleOf { multiple_of }),
        Kind::Not { schema } => Ok(Kind::Not { schema }),
        Kind::OneOfMultipleValid { context } => Ok(Kind::OneOfMultipleValid {
            context: owned_context(alloc, context)?,
        }),
        Kind::OneOfNotValid { context } => Ok(Kind::OneOfNotValid {
            context: owned_context(alloc, context)?,
        }),
        Kind::Pattern { pattern } => Ok(Kind::Pattern { pattern }),
        Kind::PropertyNames { error } => Ok(Kind::PropertyNames {
            error: Box::new(alloc, owned_error(alloc, Box::into_inner(error))?)?,
        }),
        Kind::Required { property } => Ok(Kind::Required { property }),
        Kind::Types { names } => Ok(Kind::Types { names }),
        Kind::UniqueItems => Ok(Kind::UniqueItems),
        Kind::UnfinishedMatch { pattern } => Ok(Kind::UnfinishedMatch { pattern }),
    }
}

#[cycle(owned)]
fn owned_context<'o>(
    alloc: Global,
    context: ErrorContext<'_>,
) -> Result<ErrorContext<'o>, AllocError>
    ensures told { IfOk result (λ c. branches_in (branches_of c) ≡ branches_in (branches_of context.entry)) }
    ensures proper { IfOk result (λ c. context_is_proper (branches_of c) ≡ context_is_proper (branches_of context.entry)) }
{
    let ErrorContext { branches } = context;
    Ok(ErrorContext::new(owned_branches(alloc, branches)?))
}

#[cycle(owned)]
fn owned_branches<'o>(
    alloc: Global,
    branches: Vec<Vec<ValidationError<'_>>>,
) -> Result<Vec<Vec<ValidationError<'o>>>, AllocError>
    ensures told { IfOk result (λ es. branches_in es.items ≡ branches_in branches.entry.items) }
    ensures proper { IfOk result (λ es. context_is_proper es.items ≡ context_is_proper branches.entry.items) }
{
    let mut owned = Vec::new(alloc);
    for errors in branches {
        owned.push(owned_errors(alloc, errors)?)?;
    }
    Ok(owned)
}

#[cycle(owned)]
fn owned_errors<'o>(
    alloc: Global,
    errors: Vec<ValidationError<'_>>,
) -> Result<Vec<ValidationError<'o>>, AllocError>
    ensures told { IfOk result (λ es. faults_of es.items ≡ faults_of errors.entry.items) }
    ensures proper { IfOk result (λ es. are_proper es.items ≡ are_proper errors.entry.items) }
{
    let mut owned = Vec::new(alloc);
    for error in errors {
        owned.push(owned_error(alloc, error)?)?;
    }
    Ok(owned)
}
