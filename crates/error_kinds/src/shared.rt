//! Errors that others tell too.
ghost use Rattle.std.specs.Prelude.{◌≡◌, true, false};
ghost use Rattle.std.specs.List.{list_any};
ghost use Rattle.schema_meaning.specs.Faults.{Fault, Told};
ghost use Rattle.schema_reports.specs.Told.{fault_of, faults_of, are_proper};
ghost use Rattle.error_kinds.specs.Faults.{same_fault};
ghost use Rattle.error_kinds.specs.Floats.{fault_has_float};

use crate::errors::same_error;
use schema_reports::ValidationError;

/// Keeps of some errors those that are the same as one of the others, in their order: what both tell. Of what both tell a fault with a number
/// that is not whole may be dropped.
///
/// It compares each with each of the others up to the first that is the same, and takes no memory.
pub fn keep_shared(kept: &mut Vec<ValidationError<'_>>, others: &[ValidationError<'_>])
    ensures kept { (f : Fault) → Told f (faults_of kept.new.items)
        → Told f (faults_of kept.old.items) }
    ensures shared { (f : Fault) → Told f (faults_of kept.new.items)
        → Told f (faults_of others.now) }
    ensures all { (f : Fault) → fault_has_float f ≡ false → Told f (faults_of kept.old.items)
        → Told f (faults_of others.now) → Told f (faults_of kept.new.items) }
    ensures proper { are_proper kept.old.items ≡ true → are_proper kept.new.items ≡ true }
{
    kept.retain(|error| is_among(error, others));
}

fn is_among(error: &ValidationError<'_>, others: &[ValidationError<'_>]) -> bool
    ensures { result ≡ list_any (λ e. same_fault (fault_of error.now) (fault_of e)) others.now }
{
    others.iter().any(|other| same_error(error, other))
}
