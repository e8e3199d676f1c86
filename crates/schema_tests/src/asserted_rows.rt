// What the cells of a row hold.
use serde_json::Value;
use std::alloc::Global;
use std::process::Abort;

// The first cell of a row, and those behind it.
pub(crate) fn cut<'t>(rt: &impl Abort, row: &'t str) -> (&'t str, &'t str) {
    let (cell, rest) = row.split_once(" ::").expect(rt, row);
    (cell, rest.trim())
}

pub(crate) fn json(rt: &impl Abort, alloc: Global, text: &str) -> Value {
    Value::from_str(alloc, text).expect(rt, text)
}
