//! Vocabularies and dialects, the meta-schemas that are known, and by them the base and the dialect of a schema.
#![tactic(auto)]

pub mod bases;
mod counting;
mod dialect;
mod finding;
pub mod identifiers;
mod known;
mod meta_schemas;
mod set;
mod vocabulary;

pub use counting::counts;
pub use dialect::Dialect;
pub use finding::find_vocabularies;
pub use known::KnownVocabularies;
pub use meta_schemas::MetaSchemas;
pub use set::VocabularySet;
pub use vocabulary::Vocabulary;
