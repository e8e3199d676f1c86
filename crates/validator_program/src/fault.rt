//! Why the program does not answer each line.

ghost use Rattle.std.specs.Prelude.{◌≡◌, ◌≤◌};
ghost use Rattle.validator_program.specs.Status.{status_of};

use answer_checks::CheckError;
use clap::error::ErrorKind;
use line_runs::{BuildError, DocumentError, RunError};
use schema_reports::ValidationError;
use std::alloc::{AllocError, AllocFailed, Global};
use thiserror::Error;
use uri_references::error::{Error as ReferenceError, UriError};

/// Why the program does not answer each line. Want of memory is a fault of the run, wherever it is met.
#[derive(Debug, Drop, Error)]
pub(crate) enum ProgramFault<'a> {
    /// The words, by a text with its own line ends.
    #[error(transparent)]
    Words(clap::Error),
    /// A further word without `=`.
    #[error("words refused: {word}")]
    Word {
        word: &'a str,
    },
    /// A word for the draft that names none.
    #[error("words refused: --draft {word}")]
    Draft {
        word: &'a str,
    },
    /// A word for the output that names no form of it.
    #[error("words refused: --output {word}")]
    Output {
        word: &'a str,
    },
    /// A word that is no text.
    #[error("words refused: a word is no UTF-8")]
    NotText,
    /// A file that is not read, or is no UTF-8.
    #[error("file refused: {name}")]
    File {
        name: &'a str,
    },
    /// The base.
    #[error("build refused: {0}")]
    Base(UriError),
    /// A document.
    #[error("build refused: {0}")]
    Document(DocumentError),
    /// The documents together, or the schema.
    #[error("build refused: {0}")]
    Build(BuildError),
    /// The documents or the schema, by the first of their causes, or a fault that its meta-schema tells, with all causes and all faults.
    #[error("build refused: {error}")]
    Schema {
        error: BuildError,
        causes: Vec<BuildError>,
        faults: Vec<ValidationError<'static>>,
    },
    /// A file that lists the faults of another number of instances.
    #[error("answers refused: lines of {name}: {lines}, instances: {instances}")]
    Count {
        name: &'a str,
        instances: usize,
        lines: usize,
    },
    /// Reading, writing or memory.
    #[error(transparent)]
    Run(RunError),
}

impl<'a> ProgramFault<'a> {
    /// Why what a file lists was not checked.
    pub(crate) fn of_checks(name: &'a str, error: CheckError) -> ProgramFault<'a>
        ensures { status_of result ≡ 3 }
    {
        match error {
            CheckError::Count { instances, lines } => ProgramFault::Count {
                name,
                instances,
                lines,
            },
            CheckError::Run(error) => ProgramFault::Run(error),
        }
    }

    /// The exit status: 2 where the words, a file or the build were refused, and 3 where reading, writing or memory failed, or a file does
    /// not list the faults of as many instances as there are.
    pub(crate) fn status(&self) -> u8
        ensures value { result ≡ status_of self.now }
        ensures range { (2 ≤ result) × (result ≤ 3) }
    {
        match self {
            ProgramFault::Count { .. } | ProgramFault::Run(_) => 3,
            _ => 2,
        }
    }

    /// The text for the user, with its line end.
    pub(crate) fn text(&self, alloc: Global) -> Result<String, AllocError> {
        match self {
            ProgramFault::Words(error) => error.to_string(alloc),
            fault => format!(in alloc; "{fault}\n"),
        }
    }
}

impl<'a> From<RunError> for ProgramFault<'a> {
    fn from(error: RunError) -> ProgramFault<'a> {
        ProgramFault::Run(error)
    }
}

impl<'a> From<AllocError> for ProgramFault<'a> {
    fn from(_error: AllocError) -> ProgramFault<'a> {
        ProgramFault::Run(RunError::Memory)
    }
}

impl<'a, T: Drop> From<AllocFailed<T>> for ProgramFault<'a> {
    fn from(_error: AllocFailed<T>) -> ProgramFault<'a> {
        ProgramFault::Run(RunError::Memory)
    }
}

impl<'a> From<clap::Error> for ProgramFault<'a> {
    fn from(error: clap::Error) -> ProgramFault<'a> {
        match error.kind() {
            ErrorKind::OutOfMemory => ProgramFault::Run(RunError::Memory),
            _ => ProgramFault::Words(error),
        }
    }
}

impl<'a> From<ReferenceError> for ProgramFault<'a> {
    fn from(error: ReferenceError) -> ProgramFault<'a> {
        match error {
            ReferenceError::InvalidUri(error) => ProgramFault::Base(error),
            ReferenceError::Memory => ProgramFault::Run(RunError::Memory),
        }
    }
}

impl<'a> From<DocumentError> for ProgramFault<'a> {
    fn from(error: DocumentError) -> ProgramFault<'a> {
        match error {
            DocumentError::Memory => ProgramFault::Run(RunError::Memory),
            error => ProgramFault::Document(error),
        }
    }
}

impl<'a> From<BuildError> for ProgramFault<'a> {
    fn from(error: BuildError) -> ProgramFault<'a> {
        match error {
            BuildError::Memory => ProgramFault::Run(RunError::Memory),
            error => ProgramFault::Build(error),
        }
    }
}
