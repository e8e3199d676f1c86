// What is found for a row, held against what the row expects.
use std::fmt::Display;
use std::process::Abort;

pub(crate) fn assert_text(rt: &impl Abort, row: &impl Display, found: String, want: &str) {
    assert_eq!(rt; found.as_str(), want, "{row}");
}
