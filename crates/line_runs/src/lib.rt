//! Instances a line each: what is answered for a line, and a run over many.
#![tactic(auto)]

mod answers;
mod counts;
mod form;
mod formed_runs;
mod reasons;
mod running;
mod text_places;

pub use counts::LineCounts;
pub use form::LineForm;
pub use formed_runs::{FormedRun, answer_texts, run_in_form, run_objects};
pub use line_cuts::{RunError, RunReport};
pub use running::{lines_are_ended, run, run_directly};
pub use schema_validators::{
    BuildCause, BuildError, DocumentError, Documents, Draft, Error, RefusedDocuments, SchemaPlace,
    UnknownKeyword, ValidationOptions, Validator, unknown_keywords,
};
