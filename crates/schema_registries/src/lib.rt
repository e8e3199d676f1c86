//! Documents of whole numbers and registries of them, the JSON Pointers of their schema places, and where validation begins.
#![tactic(auto)]

pub mod chains;
pub mod documents;
pub mod error;
pub mod numbers;
pub mod place_pointers;
pub mod reading;
pub mod registry;
pub mod search;
mod sharing;
pub mod whole_numbers;

pub use document_sources::{DefaultRetriever, MapRetriever, Retrieve};
pub use documents::Documents;
pub use error::DocumentError;
pub use numbers::has_only_whole;
pub use reading::line_value;
pub use registry::{SchemaRegistry, SharedRegistry};
pub use schema_steps::Path;
pub use search::other_number;
pub use whole_numbers::WholeNumbers;
