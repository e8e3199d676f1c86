//! The faults that a line lists for an instance, checked by the documents alone, and runs of such checks over many lines.
#![tactic(auto)]

mod checker;
mod given;
mod paths;
mod run;
mod words;

pub use checker::AnswerChecker;
pub use given::{CheckError, check_given};
pub use run::{LinePair, check_lines};
