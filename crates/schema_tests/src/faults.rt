// What is written of where errors stand: which bytes of a name are escaped in the list of pairs.
use crate::rows::assert_text;
use error_texts::write_faults;
use schema_reports::{ErrorIterator, ValidationError, ValidationErrorKind as Kind};
use schema_steps::Path;
use serde_json::Value;
use std::alloc::Global;
use std::process::Abort;

// A member's name, and the list of one error that a schema for that member told.
const PAIRS: [(&str, &str); 10] = [
    ("", r#"[["/","/properties/"]]"#),
    ("a b", r#"[["/a b","/properties/a b"]]"#),
    ("!#[]^", r#"[["/!#[]^","/properties/!#[]^"]]"#),
    ("\"", r#"[["/\"","/properties/\""]]"#),
    ("\\", r#"[["/\\","/properties/\\"]]"#),
    ("a\"~/\\z", r#"[["/a\"~0~1\\z","/properties/a\"~0~1\\z"]]"#),
    ("\n\t", r#"[["/\n\t","/properties/\n\t"]]"#),
    ("\0", r#"[["/\u0000","/properties/\u0000"]]"#),
    ("a\u{1f}", r#"[["/a\u001f","/properties/a\u001f"]]"#),
    ("\u{7f}é😀", "[[\"/\u{7f}é😀\",\"/properties/\u{7f}é😀\"]]"),
];

fn path_of(rt: &impl Abort, alloc: Global, names: &[&str]) -> Path {
    let mut path = Path::root();
    for name in names {
        path = path.push_name(alloc, name).expect(rt, "memory");
    }
    path
}

fn error_at<'v>(
    rt: &impl Abort,
    alloc: Global,
    name: &str,
    value: &'v Value,
) -> ValidationError<'v> {
    let instance = path_of(rt, alloc, &[name]);
    let evaluation = path_of(rt, alloc, &["properties", name]);
    ValidationError::new(
        alloc,
        Kind::FalseSchema,
        value,
        instance,
        Path::root(),
        evaluation,
    )
    .expect(rt, "memory")
}

#[test]
fn names_are_escaped(rt: HostRuntime) {
    let value = Value::Null;
    for (name, want) in &PAIRS {
        let error = error_at(&rt, rt.alloc(), name, &value);
        let errors = vec![in rt.alloc(); error].expect(&rt, "memory");
        let mut text = String::new(rt.alloc());
        write_faults(rt.alloc(), ErrorIterator::of(errors), &mut text).expect(&rt, "memory");
        assert_text(&rt, name, text, want);
    }
}

// A text of one item that has to be escaped beside one that has not.
#[test]
fn lists_have_commas(rt: HostRuntime) {
    let value = Value::Null;
    let mut errors = Vec::new(rt.alloc());
    for name in ["b", "\"", "a"] {
        let error = error_at(&rt, rt.alloc(), name, &value);
        errors.push(error).expect(&rt, "memory");
    }
    let mut text = String::from_str(rt.alloc(), "> ").expect(&rt, "memory");
    write_faults(rt.alloc(), ErrorIterator::of(errors), &mut text).expect(&rt, "memory");
    let want = r#"> [["/\"","/properties/\""],["/a","/properties/a"],["/b","/properties/b"]]"#;
    assert_text(&rt, "three", text, want);
}
