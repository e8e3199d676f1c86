//! The plain reader: whether a schema accepts a value, each reference looked up anew.
#![tactic(auto)]

mod applied;
mod asking;
mod names;
pub mod notes;
mod progress;
mod read;
mod settled;
pub mod site;
mod standing;
pub mod stop;
mod whole;

pub use schema_sites::keyword::{Keyword, Refusal};
pub use schema_sites::reading::keyword;
pub use schema_sites::reference_keyword::ReferenceKeyword;
pub use schema_sites::site::{Site, at_root, at_target};
pub use schema_sites::{Applicator, Assertion, Error, Resolved};
