//! The forms of what is written for a line.
ghost use Rattle.std.specs.Prelude.{◌≡◌, ◌++◌, ℕ, List, false, true, OnOk, string_bytes};
ghost use Rattle.schema_meaning.specs.Faults.{none, is_none};
ghost use Rattle.schema_reports.specs.Left.{errors_left};
ghost use Rattle.schema_reports.specs.Told.{faults_of, are_proper};
ghost use Rattle.line_runs.specs.Forms.{Tells, TellsNone, end_of, refuses_in};

use crate::reasons::reason_of;
use error_texts::{
    is_accepted_line, write_accepted, write_faults, write_reason, write_refused, write_sentences,
    write_unread,
};
use schema_reports::ErrorIterator;
use std::alloc::{AllocError, Global};

/// What is written for a line.
#[derive(Clone, Copy, Debug, PartialEq, Eq)]
pub enum LineForm {
    /// The list of its faults, each a pair of paths.
    Pairs,
    /// An object: whether it is valid, and its faults in words.
    Objects,
    /// A line for each of its faults, for people: where it stands, and its sentence. Nothing where it is valid.
    Sentences,
}

impl LineForm {
    // Appends what is written for a value that has no faults.
    pub(crate) fn write_accepted(self, text: &mut String) -> Result<(), AllocError>
        ensures { OnOk result ((written : List ℕ) × Tells self none written
            × (string_bytes text.new ≡ string_bytes text.old ++ written)) }
    {
        match self {
            LineForm::Pairs => text.push_str("[]"),
            LineForm::Objects => write_accepted(text),
            LineForm::Sentences => Ok(()),
        }
    }

    // Appends what is written for a value that has some. The label is of the line, for people.
    pub(crate) fn write_refused(
        self,
        alloc: Global,
        label: &str,
        errors: ErrorIterator<'_>,
        text: &mut String,
    ) -> Result<(), AllocError>
        requires some { is_none (faults_of (errors_left errors)) ≡ false }
        requires proper { are_proper (errors_left errors) ≡ true }
        ensures { OnOk result ((written : List ℕ) × Tells self (faults_of (errors_left errors.entry)) written
            × (string_bytes text.new ≡ string_bytes text.old ++ written)) }
    {
        match self {
            LineForm::Pairs => write_faults(alloc, errors, text),
            LineForm::Objects => write_refused(alloc, errors, text),
            LineForm::Sentences => write_sentences(alloc, label, errors, text),
        }
    }

    // Appends what is written for a line that has no value.
    pub(crate) fn write_none(
        self,
        alloc: Global,
        label: &str,
        line: &[u8],
        text: &mut String,
    ) -> Result<(), AllocError>
        ensures { OnOk result ((written : List ℕ) × TellsNone self written
            × (string_bytes text.new ≡ string_bytes text.old ++ written)) }
    {
        match self {
            LineForm::Pairs => text.push_str("null"),
            LineForm::Objects => {
                let reason = reason_of(alloc, line)?;
                write_unread(alloc, reason.text.as_str(), reason.place, text)
            }
            LineForm::Sentences => {
                let reason = reason_of(alloc, line)?;
                write_reason(label, reason.text.as_str(), text)
            }
        }
    }

    // What stands behind the answer to a line. Sentences have their own line ends.
    pub(crate) fn end(self) -> &'static str
        ensures { result.now ≡ end_of self }
    {
        match self {
            LineForm::Pairs | LineForm::Objects => "\n",
            LineForm::Sentences => "",
        }
    }

    // Whether what was written for a line tells that its value is refused, or that it has none.
    pub(crate) fn is_refused(self, written: &[u8]) -> bool
        ensures { result ≡ refuses_in self written.now }
    {
        match self {
            LineForm::Pairs => written != b"[]\n".as_slice(),
            LineForm::Objects => !is_accepted_line(written),
            LineForm::Sentences => !written.is_empty(),
        }
    }
}
