//! What validation tells of a value that it refuses: kinds of errors, errors, where they stand, and who hears of them.
#![tactic(auto)]

mod all_faults;
mod branches;
mod context;
mod description;
mod error;
mod first_fault;
pub mod heard;
mod instance;
mod iter;
mod keyword_location;
mod kind;
mod observer;
mod owned;
mod path_pairs;
mod paths;
mod phrases;
mod pointer_path;
mod reference;
mod sentences;
mod verdict;

pub use all_faults::AllFaults;
pub use context::ErrorContext;
pub use error::ValidationError;
pub use first_fault::FirstFault;
pub use iter::ErrorIterator;
pub use keyword_location::{KeywordLocation, SchemaLocation};
pub use kind::ValidationErrorKind;
pub use location_texts::LazyLocation;
pub use observer::{Observation, Observer};
pub use path_pairs::PathPairs;
pub use reference::Reference;
pub use verdict::Verdict;
