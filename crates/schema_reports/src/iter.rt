//! Errors, one after another.
ghost use Rattle.std.specs.Prelude.{◌≡◌};
ghost use Rattle.std.specs.Iterator.{YieldsFirst, item_count};

use crate::error::ValidationError;
use std::iter::FusedIterator;
use std::vec;

/// The errors of one validation that are left, in order.
#[derive(Drop)]
pub struct ErrorIterator<'i> {
    rest: vec::IntoIter<ValidationError<'i>>,
}

impl<'i> ErrorIterator<'i> {
    ghost use Rattle.schema_reports.specs.Left.{errors_left};

    /// An iterator over these errors.
    pub fn of(errors: Vec<ValidationError<'i>>) -> Self
        ensures { errors_left result ≡ errors.entry.items }
    {
        ErrorIterator {
            rest: errors.into_iter(),
        }
    }
}

impl<'i> Iterator for ErrorIterator<'i> {
    type Item = ValidationError<'i>;

    ghost use Rattle.schema_reports.specs.Left.{errors_left};

    ghost next_gives = { YieldsFirst errors_left };

    ghost remaining = { item_count errors_left };

    fn next(&mut self) -> Option<ValidationError<'i>> {
        self.rest.next()
    }
}

impl FusedIterator for ErrorIterator<'_> {}
