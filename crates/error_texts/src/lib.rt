//! What is told of a value whether it is accepted, and of each error: pairs of pointers, JSON objects, and lines for people.
#![tactic(auto)]

mod faults;
mod fields;
mod objects;
mod quoted;
mod sentences;
mod unread;

pub use faults::{write_faults, write_paths};
pub use objects::{is_accepted_line, write_accepted, write_refused};
pub use sentences::{write_reason, write_sentences};
pub use unread::{TextPlace, write_unread};
