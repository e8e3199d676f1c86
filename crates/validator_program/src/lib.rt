//! The program: words, files, a validator built of them, and the lines of its input answered.
#![tactic(auto)]

mod checking;
mod description;
mod documents;
mod entry;
mod fault;
mod instances;
mod meta_files;
mod output;
mod preparing;
mod refusal;
mod summary;
mod warnings;

pub use entry::{program, run_program};
pub use line_runs::{Documents, Validator, run, run_objects};
