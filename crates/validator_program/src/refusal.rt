//! A fault with what is said of it.

ghost use Rattle.std.specs.Prelude.{◌≡◌, ◌≤◌};
ghost use Rattle.validator_program.specs.Status.{status_of};

use crate::description::description;
use crate::fault::ProgramFault;
use program_inputs::ProgramWords;
use std::alloc::{AllocError, Global};

/// Whether the words ask for sentences or for objects, so that more is said of what is wrong.
pub(crate) fn says_more(words: &ProgramWords<'_>) -> bool {
    matches!(words.output, Some("text") | Some("json"))
}

/// A fault, and what is said of it behind its text, where the words ask for that.
#[derive(Debug, Drop)]
pub(crate) struct Refusal<'a> {
    pub(crate) fault: ProgramFault<'a>,
    pub(crate) description: Option<String>,
}

impl<'a> Refusal<'a> {
    /// A fault of which no more is said.
    pub(crate) fn plain(fault: ProgramFault<'a>) -> Refusal<'a>
        ensures { result.fault ≡ fault.entry }
    {
        Refusal {
            fault,
            description: None,
        }
    }

    /// A fault that was met behind the words. More is said of it where they ask for sentences or for objects, and memory suffices.
    pub(crate) fn described(
        alloc: Global,
        words: &ProgramWords<'_>,
        fault: ProgramFault<'a>,
    ) -> Refusal<'a>
        ensures { result.fault ≡ fault.entry }
    {
        let description = if says_more(words) {
            description(alloc, words, &fault).ok()
        } else {
            None
        };
        Refusal { fault, description }
    }

    /// The exit status.
    pub(crate) fn status(&self) -> u8
        ensures value { result ≡ status_of self.now.fault }
        ensures range { (2 ≤ result) × (result ≤ 3) }
    {
        self.fault.status()
    }

    /// The text for the user, with its line ends.
    pub(crate) fn text(&self, alloc: Global) -> Result<String, AllocError> {
        let mut text = self.fault.text(alloc)?;
        if let Some(description) = &self.description {
            text.push_str(description.as_str())?;
        }
        Ok(text)
    }
}
