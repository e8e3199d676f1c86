//! Patterns that are ready to be matched, their matches in a value, `pattern` by these, and the laws of literal forms.
#![tactic(auto)]

pub mod bench;
mod compiled;
pub mod literal_forms;
mod matcher;
pub mod matches;
pub mod pattern;
mod table;
mod texts;

pub use compiled::CompiledPattern;
pub use matcher::{MatchAnswer, PatternError, PatternMaker, PatternMatcher};
pub use table::PatternTable;
pub use value_checks::patterns::{PatternOptimization, analyze_pattern};
