//! Bytes given and taken, and lines cut from bytes that come in pieces, answered one by one.
#![tactic(auto)]

mod answers;
mod cuts;
mod each;
mod memory;
mod outbox;
mod over;
mod progress;
mod report;
mod run;
mod sink;
mod source;
mod watched;
mod whole;
mod writing;

pub use answers::LineAnswers;
pub use cuts::first_line;
pub use each::answer_each;
pub use memory::{MemorySink, MemorySource};
pub use over::{OverRead, OverWrite};
pub use report::{RunError, RunReport};
pub use run::answer_lines;
pub use sink::ByteSink;
pub use source::ByteSource;
pub use watched::WatchedSource;
pub use whole::{lines_in, read_all};
pub use writing::write_whole;
