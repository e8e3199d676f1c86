// The values of lines, and the texts of errors that stand at given places.
use error_texts::write_faults;
use schema_registries::line_value;
use schema_reports::{ErrorIterator, ValidationError, ValidationErrorKind};
use schema_steps::Path;
use serde_json::Value;
use std::alloc::Global;
use std::process::Abort;

fn shown(rt: &impl Abort, alloc: Global, line: &[u8]) -> String {
    match line_value(alloc, line).expect(rt, "memory") {
        Some(value) => value.to_string(alloc).expect(rt, "memory"),
        None => String::from_str(alloc, "none").expect(rt, "memory"),
    }
}

#[test]
fn values(rt: HostRuntime) {
    let alloc = rt.alloc();
    for (line, want) in [
        ("{\"a\": [1, -2]}", "{\"a\":[1,-2]}"),
        ("18446744073709551615", "18446744073709551615"),
        ("1.5", "none"),
        ("", "none"),
        ("[1] 2", "none"),
    ] {
        assert_eq!(rt; shown(&rt, alloc, line.as_bytes()).as_str(), want);
    }
    assert_eq!(rt; shown(&rt, alloc, b"\"\xff\"").as_str(), "none");
}

// An error at a member of the instance, told by an item of a list of schemas.
fn error_at<'i>(
    rt: &impl Abort,
    alloc: Global,
    instance: &'i Value,
    name: &str,
    index: usize,
) -> ValidationError<'i> {
    let instance_path = Path::root().push_name(alloc, name).expect(rt, "memory");
    let evaluation_path = Path::root().push_item(alloc, index).expect(rt, "memory");
    ValidationError::new(
        alloc,
        ValidationErrorKind::FalseSchema,
        instance,
        instance_path,
        Path::root(),
        evaluation_path,
    )
    .expect(rt, "memory")
}

#[test]
fn texts(rt: HostRuntime) {
    let alloc = rt.alloc();
    let instance = Value::Null;
    let mut errors = Vec::new(alloc);
    for (name, index) in [("b", 9), ("b", 10), ("a\"/", 2), ("", 3), ("b", 9)] {
        let error = error_at(&rt, alloc, &instance, name, index);
        errors.push(error).expect(&rt, "memory");
    }
    let mut text = String::from_str(alloc, "> ").expect(&rt, "memory");
    write_faults(alloc, ErrorIterator::of(errors), &mut text).expect(&rt, "memory");
    let want =
        "> [[\"/\",\"/3\"],[\"/a\\\"~1\",\"/2\"],[\"/b\",\"/10\"],[\"/b\",\"/9\"],[\"/b\",\"/9\"]]";
    assert_eq!(rt; text.as_str(), want);
}

#[test]
fn no_errors(rt: HostRuntime) {
    let alloc = rt.alloc();
    let mut text = String::new(alloc);
    write_faults(alloc, ErrorIterator::of(Vec::new(alloc)), &mut text).expect(&rt, "memory");
    assert_eq!(rt; text.as_str(), "[]");
}
