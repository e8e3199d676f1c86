// What is found for a row, held against what the row expects.
use std::process::Abort;

pub(crate) fn assert_text(rt: &impl Abort, row: &str, found: String, want: &str) {
    assert_eq!(rt; found.as_str(), want, "{row}");
}

pub(crate) fn assert_answer(rt: &impl Abort, row: &str, found: bool, want: bool) {
    assert_eq!(rt; found, want, "{row}");
}
