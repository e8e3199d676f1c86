//! Documents with their schema places, and what references in them lead to.
//!
//! A [`RegistryBuilder`] gathers documents, lent, owned or shared, each under its URI, and prepares them; a [`Registry`] is what was
//! prepared; a [`Resolver`] looks references up from a base URI, and lends what they lead to.
#![tactic(auto)]

mod asking;
pub mod builder;
mod compared;
mod dynamic;
mod finding;
pub mod following;
mod lookup;
mod parents;
mod prepare;
pub mod registry;
pub mod resolver;
mod resolving;
mod retrieval;
pub mod scope_key;
mod specifications;

pub use builder::{Refused, RegistryBuilder};
pub use document_sources::error::{Error, RetrieveError, UriError};
pub use document_sources::resource::IntoRegistryResource;
pub use document_sources::{DefaultRetriever, MapRetriever, Retrieve};
pub use following::{Step, follow};
pub use json_pointers::fragments::FragmentBuffer;
pub use json_pointers::{
    JsonPointerNode, JsonPointerSegment, parse_index, pointer, unescape_segment, write_escaped_str,
    write_index,
};
pub use registry::Registry;
pub use resolver::{Resolved, Resolver};
pub use schema_dialects::{Vocabulary, VocabularySet};
pub use schema_drafts::children::ChildIter;
pub use schema_drafts::draft::Draft;
pub use schema_drafts::resource::{Resource, ResourceRef};
pub use scope_key::ScopeKey;
pub use shared_lists::{Iter, List};
pub use uri_references::uri;
