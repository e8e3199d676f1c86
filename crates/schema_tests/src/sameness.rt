// Which errors tell one fault.
use crate::sentences::{at_root, kind_of};
use error_kinds::{is_same, keep_shared};
use schema_reports::{ErrorContext, ValidationError, ValidationErrorKind as Kind};
use serde_json::Value;
use std::alloc::Global;
use std::process::Abort;

// Two kinds with what they carry, and whether they are one.
const KINDS: &str = r##"
Minimum 3 Minimum 3 yes
Minimum 3 Minimum 4 no
Minimum 3 Maximum 3 no
MaxItems 2 MaxItems 2 yes
MaxItems 2 MinItems 2 no
Constant {"a":1,"b":[null,"x"]} Constant {"b":[null,"x"],"a":1} yes
Constant {"a":1,"b":[null,"x"]} Constant {"a":-1,"b":[null,"x"]} no
Constant 1.5 Constant 1.5 no
Enumeration [1,2] Enumeration [1,2] yes
Enumeration [1,2] Enumeration [2,1] no
Required "a" Required "a" yes
Required "a" Required "b" no
Pattern "a" UnfinishedMatch "a" no
UnfinishedMatch "a" UnfinishedMatch "a" yes
AdditionalProperties ["a","b"] AdditionalProperties ["a"] no
PropertyNames "ab" PropertyNames "ab" yes
PropertyNames "ab" PropertyNames "ac" no
Types ["string","null"] Types ["string","null"] yes
"##;

fn assert_row(rt: &impl Abort, alloc: Global, row: &str) {
    let mut words = row.split(' ');
    let kind = words.next().expect(rt, "a kind");
    let carried = Value::from_str(alloc, words.next().expect(rt, "a value")).expect(rt, "JSON");
    let other = words.next().expect(rt, "a kind");
    let others = Value::from_str(alloc, words.next().expect(rt, "a value")).expect(rt, "JSON");
    let wanted = words.next().expect(rt, "yes or no");
    let value = Value::Null;
    let one = at_root(rt, alloc, kind_of(rt, alloc, kind, &carried), &value);
    let two = at_root(rt, alloc, kind_of(rt, alloc, other, &others), &value);
    let found = is_same(&one, &two);
    assert!(rt; found == (wanted == "yes"), "{row}");
}

#[test]
fn kinds_are_one(rt: HostRuntime) {
    for row in KINDS.trim().lines() {
        assert_row(&rt, rt.alloc(), row);
    }
}

// Errors with these limits.
fn limited<'v>(
    rt: &impl Abort,
    alloc: Global,
    limits: &[u64],
    value: &'v Value,
) -> Vec<ValidationError<'v>> {
    let mut errors = Vec::new(alloc);
    for limit in limits {
        let error = at_root(rt, alloc, Kind::MaxItems { limit: *limit }, value);
        errors.push(error).expect(rt, "memory");
    }
    errors
}

fn limits_of(rt: &impl Abort, alloc: Global, errors: &[ValidationError<'_>]) -> String {
    let mut text = String::new(alloc);
    for error in errors {
        if let Kind::MaxItems { limit } = error.kind() {
            let shown = limit.to_string(alloc).expect(rt, "memory");
            text.push_str(shown.as_str()).expect(rt, "memory");
        }
    }
    text
}

#[test]
fn keeps_what_others_tell(rt: HostRuntime) {
    let alloc = rt.alloc();
    let value = Value::Null;
    let others = limited(&rt, alloc, &[3, 1], &value);
    let mut kept = limited(&rt, alloc, &[1, 2, 1, 3], &value);
    keep_shared(&mut kept, others.as_slice());
    assert_eq!(rt; limits_of(&rt, alloc, kept.as_slice()).as_str(), "113");
    keep_shared(&mut kept, &[]);
    assert_eq!(rt; kept.len(), 0);
}

// An error of two branches, of which the first has errors with these limits.
fn branched<'v>(
    rt: &impl Abort,
    alloc: Global,
    limits: &[u64],
    value: &'v Value,
) -> ValidationError<'v> {
    let branches = vec![in alloc; limited(rt, alloc, limits, value), Vec::new(alloc)];
    let context = ErrorContext::new(branches.expect(rt, "memory"));
    at_root(rt, alloc, Kind::AnyOf { context }, value)
}

#[test]
fn branches_are_one(rt: HostRuntime) {
    let alloc = rt.alloc();
    let value = Value::Null;
    let error = branched(&rt, alloc, &[1, 2], &value);
    let alike = is_same(&error, &branched(&rt, alloc, &[1, 2], &value));
    assert!(rt; alike);
    let alike = is_same(&error, &branched(&rt, alloc, &[2, 1], &value));
    assert!(rt; !alike);
}
