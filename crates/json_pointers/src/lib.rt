//! JSON Pointers (RFC 6901): the text of a path in a JSON document, and what such a text leads to.
//!
//! A pointer is empty, or has each of its parts behind a `/`. In a part `~` is written `~0` and `/` is written `~1`.
//! Part by part it leads from a document to a member of an object, by its name, or to an item of an array, by its index.
#![tactic(auto)]

mod escapes;
pub mod fragments;
mod path;
mod pointers;

pub use escapes::{unescape_segment, write_escaped_str, write_index};
pub use path::{JsonPointerNode, JsonPointerSegment};
pub use pointers::{PointerError, locate, parse_index, pointer, step};
