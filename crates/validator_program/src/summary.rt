//! What is told of a whole run, for people.

use crate::output::OutputForm;
use line_runs::{LineCounts, LineForm, RunReport};
use std::alloc::{AllocError, Global};

/// A run that came to its end.
#[derive(Clone, Copy, Debug, PartialEq, Eq)]
pub(crate) struct Answered {
    pub(crate) report: RunReport,
    /// How it is summed up, where that is wanted.
    pub(crate) sum: Option<Sum>,
}

/// How many instances were valid, and what they are called.
#[derive(Clone, Copy, Debug, PartialEq, Eq)]
pub(crate) struct Sum {
    called: &'static str,
    counts: LineCounts,
}

impl Sum {
    /// The line that sums a run up.
    pub(crate) fn text(&self, alloc: Global) -> Result<String, AllocError> {
        let called = self.called;
        let counts = self.counts;
        format!(in alloc;
            "{called}: {}, valid: {}, not valid: {}, not read: {}\n",
            counts.lines(),
            counts.valid,
            counts.refused,
            counts.unread
        )
    }
}

/// How a run is summed up; none where the form has no summary.
pub(crate) fn sum_in(form: OutputForm, names: &[&str], counts: LineCounts) -> Option<Sum> {
    match form {
        OutputForm::Lines(LineForm::Sentences) => {
            let called = if names.is_empty() { "lines" } else { "files" };
            Some(Sum { called, counts })
        }
        _ => None,
    }
}
