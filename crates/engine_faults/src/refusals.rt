//! The kinds of faults that carry the errors of branches.
ghost use Rattle.schema_meaning.specs.Faults.{Branches, AnyOf};
ghost use Rattle.schema_meaning.specs.Rules.{one_of_kind};
ghost use Rattle.schema_reports.specs.Kinds.{StandsFor};
ghost use Rattle.schema_reports.specs.Told.{AreBranches};

use schema_reports::{ErrorContext, ValidationError, ValidationErrorKind};

// The kind where not exactly one branch accepts, but so many do.
pub(crate) fn one_of<'o>(
    accepted: usize,
    errors: Vec<Vec<ValidationError<'o>>>,
) -> ValidationErrorKind<'o>
    ensures { (branches : Branches) → AreBranches errors.entry.items branches
        → StandsFor result (one_of_kind accepted branches) }
{
    let context = ErrorContext::new(errors);
    if accepted > 0 {
        ValidationErrorKind::OneOfMultipleValid { context }
    } else {
        ValidationErrorKind::OneOfNotValid { context }
    }
}

// The kind where no branch accepts.
pub(crate) fn any_of<'o>(errors: Vec<Vec<ValidationError<'o>>>) -> ValidationErrorKind<'o>
    ensures { (branches : Branches) → AreBranches errors.entry.items branches → StandsFor result (AnyOf branches) }
{
    let context = ErrorContext::new(errors);
    ValidationErrorKind::AnyOf { context }
}
