// Errors taken apart and paths put together, by the names that the library gives on.
use json_schema_validator::{DocumentError, Documents, LazyLocation, Location, Path, UriError};
use std::alloc::Global;
use std::process::Abort;

fn refused_text(error: UriError) -> String {
    match error {
        UriError::Parse { uri } => uri,
        UriError::Resolve { uri, base: _base } => uri,
    }
}

fn pointer_of(rt: &impl Abort, alloc: Global, path: &Path) -> String {
    path.to_pointer(alloc).expect(rt, "memory")
}

// The text that is no URI, the pointer to a number that is refused, or the URI of what is no JSON.
fn carried(rt: &impl Abort, alloc: Global, error: DocumentError) -> String {
    match error {
        DocumentError::InvalidUri(error) => refused_text(error),
        DocumentError::OtherNumber { path, .. } => pointer_of(rt, alloc, &path),
        DocumentError::JsonText { uri, .. } => uri,
        DocumentError::Memory => String::new(alloc),
    }
}

// A URI, a text, and what the error carries.
const REFUSED: [(&str, &str, &str); 3] = [
    ("a b", "{}", "a b"),
    ("http://a.test/r", r#"{"a/b":[1,0.5]}"#, "/a~1b/1"),
    ("http://a.test/r", "{", "http://a.test/r"),
];

#[test]
fn texts_and_places(rt: HostRuntime) {
    let mut documents = Documents::new(rt.alloc());
    for (uri, text, want) in &REFUSED {
        let refused = documents.add_text(uri, text.as_bytes());
        let error = refused.expect_err(&rt, "a document was added");
        assert_eq!(rt; carried(&rt, rt.alloc(), error).as_str(), *want);
    }
}

// The location of a path that was put together step by step.
#[test]
fn of_roads(rt: HostRuntime) {
    let root = LazyLocation::new();
    let member = root.push_name("a/b");
    let item = member.push_index(1);
    let location = Location::from_road(rt.alloc(), &item).expect(&rt, "memory");
    assert_eq!(rt; location.as_str(), "/a~1b/1");
}
