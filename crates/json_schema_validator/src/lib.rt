//! Validators of JSON values by JSON Schema, and the check of their faults.
//!
//! [`Validator::options`] says how documents are read. Documents are prepared once, and validators are built on what was prepared,
//! each at a root that a reference leads to. [`check_fault`] is lent the documents and no validator, and says of two paths whether they lead
//! to a refusal. [`same_on_three_roads`] says what a document finds wrong where another stands beside it, is retrieved for it, or is put
//! inside it.
#![tactic(auto)]

mod checking;
mod forms;
mod given;
pub mod laws;
mod places;
pub mod roads;

pub use checking::{check_error, check_errors, check_first, check_path};
pub use fault_checks::checking::{CheckAnswer, FaultPath, check_fault};
pub use roads::{Moving, Roads, same_on_three_roads};
pub use schema_reports::LazyLocation;
pub use schema_steps::Path;
pub use schema_validators::{
    BothAnswers, BothValidators, BuildCause, BuildError, Checker, Decision, DefaultRetriever,
    DocumentError, Documents, Draft, Error, ErrorContext, ErrorIterator, Location, MapRetriever,
    MatchAnswer, NumberError, PatternError, PatternMaker, PatternMatcher, RefusedDocuments,
    RefusedRoot, RefusedSchema, RefusedText, RegexMaker, RegexMatcher, Retrieve, RetrieveError,
    SchemaPlace, SchemaRegistry, SharedRegistry, UnknownKeyword, Uri, ValidationError,
    ValidationErrorKind, ValidationOptions, Validator, ValidatorMap, WholeNumbers, answers_on_both,
    build_on_both, has_only_whole, is_valid_by_both, is_valid_twice, iter_errors_by_both,
    iter_errors_twice, unknown_keywords, uri,
};
pub use uri_references::error::UriError;
