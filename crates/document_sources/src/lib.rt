//! Documents handed in, retrievers, and what the calls on documents and references refuse.
#![tactic(auto)]

mod adding;
mod default;
pub mod document;
pub mod error;
pub mod layer;
pub mod list;
mod map;
pub mod named;
pub mod resource;
mod retrieve;
pub mod uri;

pub use default::DefaultRetriever;
pub use map::MapRetriever;
pub use retrieve::Retrieve;
