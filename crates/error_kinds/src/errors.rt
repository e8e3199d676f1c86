//! Errors that tell the same.
ghost use Rattle.std.specs.Prelude.{◌≡◌, true, false};
ghost use Rattle.schema_reports.specs.Kinds.{kind_of, context_branches};
ghost use Rattle.schema_reports.specs.Told.{fault_of, faults_of, branches_in};
ghost use Rattle.error_kinds.specs.Faults as spec;
ghost use Rattle.error_kinds.specs.Floats.{fault_has_float};

use crate::kinds::same_plain_kind;
use crate::values::same_value;
use schema_reports::{ErrorContext, ValidationError, ValidationErrorKind as Kind};

/// Whether two errors tell one fault: of the same value at the same three paths, and of one kind with all that it carries, which are values,
/// names, numbers, the errors of branches and the error of a name.
///
/// Values with a number that is not whole are never the same. A limit that is no whole number, which no keyword has, counts as 0, and options
/// that are no list as none, as in the fault. It walks both errors once, side by side, up to the first difference, and takes no memory.
pub fn is_same(one: &ValidationError<'_>, other: &ValidationError<'_>) -> bool
    ensures same { result ≡ true → fault_of one.now ≡ fault_of other.now }
    ensures exact { fault_has_float (fault_of one.now) ≡ false
        → fault_of one.now ≡ fault_of other.now → result ≡ true }
{
    same_error(one, other)
}

// Whether two errors tell one fault.
#[cycle(sameness)]
pub(crate) fn same_error(one: &ValidationError<'_>, other: &ValidationError<'_>) -> bool
    ensures { result ≡ spec.same_fault (fault_of one.now) (fault_of other.now) }
{
    one.instance_path() == other.instance_path()
        && one.schema_path() == other.schema_path()
        && one.evaluation_path() == other.evaluation_path()
        && same_value(one.instance(), other.instance())
        && same_kind(one.kind(), other.kind())
}

#[cycle(sameness)]
fn same_kind(one: &Kind<'_>, other: &Kind<'_>) -> bool
    ensures { result ≡ spec.same_kind (kind_of one.now) (kind_of other.now) }
{
    match (one, other) {
        (Kind::AnyOf { context: one }, Kind::AnyOf { context: other })
        | (Kind::OneOfMultipleValid { context: one }, Kind::OneOfMultipleValid { context: other })
        | (Kind::OneOfNotValid { context: one }, Kind::OneOfNotValid { context: other }) => {
            same_context(one, other)
        }
        (Kind::PropertyNames { error: one }, Kind::PropertyNames { error: other }) => {
            same_error(one, other)
        }
        _ => same_plain_kind(one, other),
    }
}

#[cycle(sameness)]
fn same_context(one: &ErrorContext<'_>, other: &ErrorContext<'_>) -> bool
    ensures { result ≡ spec.same_branches (context_branches one.now) (context_branches other.now) }
{
    same_branches(one.branches(), other.branches())
}

#[cycle(sameness)]
fn same_branches(ones: &[Vec<ValidationError<'_>>], others: &[Vec<ValidationError<'_>>]) -> bool
    ensures { result ≡ spec.same_branches (branches_in ones.now) (branches_in others.now) }
{
    if ones.len() != others.len() {
        return false;
    }
    for (index, errors) in ones.iter().enumerate() {
        if !same_errors(errors, &others[index]) {
            return false;
        }
    }
    true
}

#[cycle(sameness)]
fn same_errors(ones: &[ValidationError<'_>], others: &[ValidationError<'_>]) -> bool
    ensures { result ≡ spec.same_faults (faults_of ones.now) (faults_of others.now) }
{
    if ones.len() != others.len() {
        return false;
    }
    for (index, error) in ones.iter().enumerate() {
        if !same_error(error, &others[index]) {
            return false;
        }
    }
    true
}
