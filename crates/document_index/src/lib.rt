//! Who bears a URI or an anchor in several documents, the meta-schemas that these know, and what makes them no registry.
#![tactic(auto)]

pub mod answers;
pub mod awaited;
mod causes;
pub mod counting;
pub mod document;
pub mod index;
pub mod names;
pub mod prepared;
mod stages;
pub mod standing;
pub mod survey;
pub mod told;

pub use document::Document;
pub use index::Index;
pub use standing::{Standing, standings};
