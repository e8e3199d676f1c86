//! The words of the program, and the files that it reads.
#![tactic(auto)]

mod command;
mod files;
mod map;
mod system;
mod words;

pub use files::{FileError, SchemaFiles};
pub use map::MapFiles;
pub use system::SystemFiles;
pub use words::ProgramWords;
