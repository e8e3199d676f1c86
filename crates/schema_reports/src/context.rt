//! The errors of several schemas.
ghost use Rattle.std.specs.Prelude.{◌≡◌};

use crate::error::ValidationError;

/// The errors of each of several schemas in turn: of the branches of `anyOf` or `oneOf`.
#[derive(Debug, Drop)]
#[cycle(errors)]
pub struct ErrorContext<'i> {
    pub(crate) branches: Vec<Vec<ValidationError<'i>>>,
}

impl<'i> ErrorContext<'i> {
    ghost use Rattle.schema_reports.specs.Contexts.{branches_of};

    /// The context of these branches, each with its errors. It allocates nothing.
    pub fn new(branches: Vec<Vec<ValidationError<'i>>>) -> Self
        ensures { branches_of result ≡ branches.entry.items }
    {
        ErrorContext { branches }
    }

    /// The errors of each branch, in the order of the branches.
    pub fn branches(&self) -> &[Vec<ValidationError<'i>>]
        ensures { result.now ≡ branches_of self.now }
    {
        self.branches.as_slice()
    }
}
