//! The examples of RFC 3986.

use std::alloc::Global;
use std::process::Abort;
use uri_grammar::components::{Components, split_reference};
use uri_references::dots::remove_dot_segments;
use uri_references::normal::normalize;
use uri_references::resolution::resolve;
use uri_references::triplets::normalize_triplets;
use uri_references::writing::write_guarded;

/// Sections 5.4.1 and 5.4.2: references against `http://a/b/c/d;p?q`, and what they lead to.
pub const EXAMPLES: [(&str, &str); 42] = [
    ("g:h", "g:h"),
    ("g", "http://a/b/c/g"),
    ("./g", "http://a/b/c/g"),
    ("g/", "http://a/b/c/g/"),
    ("/g", "http://a/g"),
    ("//g", "http://g"),
    ("?y", "http://a/b/c/d;p?y"),
    ("g?y", "http://a/b/c/g?y"),
    ("#s", "http://a/b/c/d;p?q#s"),
    ("g#s", "http://a/b/c/g#s"),
    ("g?y#s", "http://a/b/c/g?y#s"),
    (";x", "http://a/b/c/;x"),
    ("g;x", "http://a/b/c/g;x"),
    ("g;x?y#s", "http://a/b/c/g;x?y#s"),
    ("", "http://a/b/c/d;p?q"),
    (".", "http://a/b/c/"),
    ("./", "http://a/b/c/"),
    ("..", "http://a/b/"),
    ("../", "http://a/b/"),
    ("../g", "http://a/b/g"),
    ("../..", "http://a/"),
    ("../../", "http://a/"),
    ("../../g", "http://a/g"),
    ("../../../g", "http://a/g"),
    ("../../../../g", "http://a/g"),
    ("/./g", "http://a/g"),
    ("/../g", "http://a/g"),
    ("g.", "http://a/b/c/g."),
    (".g", "http://a/b/c/.g"),
    ("g..", "http://a/b/c/g.."),
    ("..g", "http://a/b/c/..g"),
    ("./../g", "http://a/b/g"),
    ("./g/.", "http://a/b/c/g/"),
    ("g/./h", "http://a/b/c/g/h"),
    ("g/../h", "http://a/b/c/h"),
    ("g;x=1/./y", "http://a/b/c/g;x=1/y"),
    ("g;x=1/../y", "http://a/b/c/y"),
    ("g?y/./x", "http://a/b/c/g?y/./x"),
    ("g?y/../x", "http://a/b/c/g?y/../x"),
    ("g#s/./x", "http://a/b/c/g#s/./x"),
    ("g#s/../x", "http://a/b/c/g#s/../x"),
    ("http:g", "http:g"),
];

/// Section 5.2.4.
const PATHS: [(&str, &str); 2] = [
    ("/a/b/c/./../../g", "/a/g"),
    ("mid/content=5/../6", "mid/6"),
];

/// Section 6.2.2.
const NORMAL_FORMS: [(&str, &str); 4] = [
    ("example://a/b/c/%7Bfoo%7D", "example://a/b/c/%7Bfoo%7D"),
    (
        "eXAMPLE://a/./b/../b/%63/%7bfoo%7d",
        "example://a/b/c/%7Bfoo%7D",
    ),
    ("HTTP://www.EXAMPLE.com/", "http://www.example.com/"),
    ("a://U%73er@H:80/%3a", "a://User@h:80/%3A"),
];

pub(crate) fn assert_text(rt: &impl Abort, row: &str, found: String, want: &str) {
    assert!(rt; found.as_str() == want, "{row}: {found}");
}

fn target(rt: &impl Abort, alloc: Global, text: &str) -> String {
    let base = split_reference("http://a/b/c/d;p?q");
    resolve(alloc, &base, &split_reference(text)).expect(rt, "memory")
}

#[test]
fn resolves(rt: HostRuntime) {
    for (text, want) in &EXAMPLES {
        assert_text(&rt, text, target(&rt, rt.alloc(), text), want);
    }
}

fn without_dots(rt: &impl Abort, alloc: Global, path: &str) -> String {
    remove_dot_segments(alloc, path).expect(rt, "memory")
}

fn normal(rt: &impl Abort, alloc: Global, text: &str) -> String {
    normalize(alloc, &split_reference(text)).expect(rt, "memory")
}

#[test]
fn normalizes(rt: HostRuntime) {
    for (path, want) in &PATHS {
        assert_text(&rt, path, without_dots(&rt, rt.alloc(), path), want);
    }
    for (text, want) in &NORMAL_FORMS {
        assert_text(&rt, text, normal(&rt, rt.alloc(), text), want);
    }
}

#[test]
fn normalizes_triplets(rt: HostRuntime) {
    let triplets = normalize_triplets(rt.alloc(), "%41%c3%bc%2E%").expect(&rt, "memory");
    assert_text(&rt, "triplets", triplets, "A%C3%BC.%");
}

/// A path that would be read as an authority.
#[test]
fn guards(rt: HostRuntime) {
    let parts = Components {
        scheme: Some("a"),
        authority: None,
        path: "//b",
        query: Some("c"),
        fragment: None,
    };
    let text = write_guarded(rt.alloc(), &parts).expect(&rt, "memory");
    assert_text(&rt, "guarded", text, "a:/.//b?c");
}
