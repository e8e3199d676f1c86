// Paths in the document of RFC 6901, section 5.
use crate::pointers::assert_text;
use schema_steps::{Path, Step};
use serde_json::Value;
use std::alloc::Global;
use std::process::Abort;

const DOCUMENT: &str = r#"{"foo": ["bar", "baz"], "": 0, "a/b": 1, "m~n": 8}"#;

// The steps of a path, a name behind a `.` and an index behind a `#`; its pointer behind a `#`; and the compact text of its value, or
// `none`.
const PATHS: [(&str, &str, &str); 7] = [
    (".foo", "#/foo", r#"["bar","baz"]"#),
    (".", "#/", "0"),
    (".a/b", "#/a~1b", "1"),
    (".m~n", "#/m~0n", "8"),
    (".foo #1", "#/foo/1", r#""baz""#),
    (".foo #2", "#/foo/2", "none"),
    (".foo .1", "#/foo/1", "none"),
];

fn pushed(rt: &impl Abort, alloc: Global, path: &Path, step: &str) -> Path {
    match step.strip_prefix('#') {
        Some(index) => path
            .push_item(alloc, index.parse().expect(rt, step))
            .expect(rt, "memory"),
        None => path
            .push_name(alloc, step.strip_prefix('.').expect(rt, step))
            .expect(rt, "memory"),
    }
}

fn path_of(rt: &impl Abort, alloc: Global, steps: &str) -> Path {
    match steps.split_once(' ') {
        Some((first, last)) => {
            let path = pushed(rt, alloc, &Path::root(), first);
            pushed(rt, alloc, &path, last)
        }
        None => pushed(rt, alloc, &Path::default(), steps),
    }
}

fn assert_found(rt: &impl Abort, alloc: Global, path: &Path, document: &Value, want: &str) {
    match path.find_in(document) {
        Some(value) => {
            let found = value.to_string(alloc).expect(rt, "memory");
            assert_text(rt, want, found, want);
        }
        None => assert!(rt; want == "none", "{want}"),
    }
}

fn written(rt: &impl Abort, alloc: Global, path: &Path) -> String {
    let mut text = String::from_str(alloc, "#").expect(rt, "memory");
    path.write_to(&mut text).expect(rt, "memory");
    text
}

fn assert_pointer(rt: &impl Abort, alloc: Global, path: &Path, want: &str) {
    assert_text(rt, want, written(rt, alloc, path), want);
    let text = path.to_pointer(alloc).expect(rt, "memory");
    assert_text(rt, want, text, want.strip_prefix('#').expect(rt, want));
}

#[test]
fn paths_lead(rt: HostRuntime) {
    let document = Value::from_str(rt.alloc(), DOCUMENT).expect(&rt, "JSON");
    for (steps, pointer, want) in &PATHS {
        let path = path_of(&rt, rt.alloc(), steps);
        assert_pointer(&rt, rt.alloc(), &path, pointer);
        assert_found(&rt, rt.alloc(), &path, &document, want);
    }
}

fn is_same(rt: &impl Abort, alloc: Global, path: &Path, steps: &str) -> bool {
    path_of(rt, alloc, steps) == *path
}

fn is_copied(rt: &impl Abort, path: &Path) -> bool {
    path.clone().expect(rt, "memory") == *path
}

#[test]
fn a_name_is_no_index(rt: HostRuntime) {
    let item = path_of(&rt, rt.alloc(), ".foo #1");
    assert!(rt; is_copied(&rt, &item));
    assert!(rt; is_same(&rt, rt.alloc(), &item, ".foo #1"));
    assert!(rt; !is_same(&rt, rt.alloc(), &item, ".foo .1"));
}

fn copied(rt: &impl Abort, step: &Step) -> Step {
    step.clone().expect(rt, "memory")
}

fn assert_last(rt: &impl Abort, path: &Path) {
    let last = path.steps().next().expect(rt, "a step");
    assert!(rt; copied(rt, last) == Step::Item(7));
}

fn assert_shown(rt: &impl Abort, alloc: Global, root: &Path, path: &Path) {
    let text = format!(in alloc; "{root:?} {path:?}").expect(rt, "memory");
    let want = "\"\" \"/7\"";
    assert_text(rt, "shown", text, want);
}

fn assert_pushed(rt: &impl Abort, alloc: Global, root: &Path, path: &Path) {
    assert!(rt; root.is_root());
    assert!(rt; !path.is_root());
    assert_last(rt, path);
    assert_shown(rt, alloc, root, path);
}

#[test]
fn a_root_stays_empty(rt: HostRuntime) {
    let root = Path::root();
    let path = root.push(rt.alloc(), Step::Item(7)).expect(&rt, "memory");
    assert_pushed(&rt, rt.alloc(), &root, &path);
}
