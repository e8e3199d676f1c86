//! Validators of JSON values by JSON Schema, and maps of them.
//!
//! [`Validator::options`] says how documents are read. Documents are prepared once, and validators are built on what was prepared,
//! each at a root that a reference leads to.
#![tactic(auto)]

mod absent;
mod agreement;
mod building;
mod causes;
mod checker;
mod describing;
mod error;
mod mapping;
mod meta_faults;
mod meta_schema;
mod misnamed;
mod options;
mod printing;
mod refused_texts;
mod unknown;
mod validator;
mod validator_map;

pub use agreement::{
    BothAnswers, BothValidators, answers_on_both, build_on_both, is_valid_by_both, is_valid_twice,
    iter_errors_by_both, iter_errors_twice,
};
pub use checker::Checker;
pub use document_sources::error::RetrieveError;
pub use error::{
    BuildError, NumberError, RefusedDocuments, RefusedRoot, RefusedSchema, RefusedText,
};
pub use graph_answers::runs::Decision;
pub use location_texts::Location;
pub use options::ValidationOptions;
pub use reached_sites::cause::BuildCause;
pub use reached_sites::place::SchemaPlace;
pub use reached_sites::{Draft, Error, uri};
pub use regex_patterns::{RegexMaker, RegexMatcher};
pub use schema_patterns::{MatchAnswer, PatternError, PatternMaker, PatternMatcher};
pub use schema_registries::{
    DefaultRetriever, DocumentError, Documents, MapRetriever, Retrieve, SchemaRegistry,
    SharedRegistry, WholeNumbers, has_only_whole,
};
pub use schema_reports::{ErrorContext, ErrorIterator, ValidationError, ValidationErrorKind};
pub use unknown::{UnknownKeyword, unknown_keywords};
pub use uri_references::uri::Uri;
pub use validator::Validator;
pub use validator_map::ValidatorMap;
