//! The calls at the examples of RFC 3986, and what they refuse.

use crate::resolution::{EXAMPLES, assert_text};
use std::alloc::Global;
use std::cmp::Ordering;
use std::fmt::{Debug, Display};
use std::hash::{DefaultHasher, Hash, Hasher};
use std::process::Abort;
use uri_references::error::Error;
use uri_references::uri::{Uri, UriRef, from_str, resolve_against};

fn uri(rt: &impl Abort, alloc: Global, text: &str) -> Uri {
    Uri::parse(alloc, text).expect(rt, "a URI")
}

fn reference<'t>(rt: &impl Abort, alloc: Global, text: &'t str) -> UriRef<'t> {
    UriRef::parse(alloc, text).expect(rt, "a reference")
}

fn assert_uri(rt: &impl Abort, row: &str, found: Uri, want: &str) {
    assert!(rt; found.as_str() == want, "{row}: {found}");
}

fn assert_target(rt: &impl Abort, alloc: Global, base: &Uri, text: &str, want: &str) {
    let reference = reference(rt, alloc, text);
    let target = reference
        .resolve_against(alloc, base)
        .expect(rt, "a target");
    assert_uri(rt, text, target, want);
    let known = resolve_against(alloc, base, reference.as_str()).expect(rt, "a target");
    assert_uri(rt, text, known, want);
}

/// Sections 5.4.1 and 5.4.2, and a reference against another base.
#[test]
fn resolves(rt: HostRuntime) {
    let base = uri(&rt, rt.alloc(), "http://a/b/c/d;p?q");
    for (text, want) in &EXAMPLES {
        assert_target(&rt, rt.alloc(), &base, text, want);
    }
    let base = uri(&rt, rt.alloc(), "http://a.test/x/y?q");
    assert_target(&rt, rt.alloc(), &base, "../z", "http://a.test/z");
}

/// Section 6.2.2, and the guard before a path that begins with two slashes.
const NORMAL_FORMS: [(&str, &str); 6] = [
    (
        "eXAMPLE://a/./b/../b/%63/%7bfoo%7d",
        "example://a/b/c/%7Bfoo%7D",
    ),
    ("HTTP://www.EXAMPLE.com/", "http://www.example.com/"),
    ("HTTP://A.Test/%7eb/./c/../d", "http://a.test/~b/d"),
    ("a:/..//b", "a:/.//b"),
    ("a:/.//b", "a:/.//b"),
    ("a:#", "a:#"),
];

fn normal(rt: &impl Abort, alloc: Global, uri: &Uri) -> Uri {
    uri.normalize(alloc).expect(rt, "memory")
}

fn assert_normal(rt: &impl Abort, alloc: Global, text: &str, want: &str) {
    let first = normal(rt, alloc, &uri(rt, alloc, text));
    assert_uri(rt, text, normal(rt, alloc, &first), want);
    assert_uri(rt, text, first, want);
}

#[test]
fn normalizes(rt: HostRuntime) {
    for (text, want) in &NORMAL_FORMS {
        assert_normal(&rt, rt.alloc(), text, want);
    }
    let relative = reference(&rt, rt.alloc(), "../%7ea");
    let text = relative.normalize(rt.alloc()).expect(&rt, "memory");
    assert_text(&rt, "relative", text, "../~a");
}

/// The URIs by which documents are known.
const NAMES: [(&str, &str); 5] = [
    ("leaf.json", "json-schema:///leaf.json"),
    ("", "json-schema:///"),
    ("#", "json-schema:///"),
    ("HTTP://A.test/x#", "http://a.test/x"),
    ("http://a.test/x#y", "http://a.test/x#y"),
];

#[test]
fn names_documents(rt: HostRuntime) {
    for (text, want) in &NAMES {
        let known = from_str(rt.alloc(), text).expect(&rt, "a URI");
        assert_uri(&rt, text, known, want);
    }
}

fn assert_set(rt: &impl Abort, uri: &mut Uri, fragment: Option<&str>, want: &str) {
    uri.set_fragment(fragment).expect(rt, "a fragment");
    assert!(rt; uri.as_str() == want, "{want}");
    assert!(rt; uri.has_fragment() == fragment.is_some(), "{want}");
}

fn is_refused(uri: &mut Uri, fragment: &str) -> bool {
    match uri.set_fragment(Some(fragment)) {
        Ok(()) => false,
        Err(error) => {
            drop(error);
            true
        }
    }
}

#[test]
fn sets_fragments(rt: HostRuntime) {
    let mut uri = uri(&rt, rt.alloc(), "a:b#c");
    assert!(rt; uri.has_fragment());
    assert!(rt; uri.strip_fragment().as_str() == "a:b");
    assert_set(&rt, &mut uri, Some("d/e"), "a:b#d/e");
    assert_set(&rt, &mut uri, None, "a:b");
    assert!(rt; is_refused(&mut uri, "#"));
    assert!(rt; uri.as_str() == "a:b");
}

fn hash_of<T: Hash>(value: &T) -> u64 {
    let mut hasher = DefaultHasher::new();
    value.hash(&mut hasher);
    hasher.finish()
}

fn assert_absolute(rt: &impl Abort, alloc: Global, base: &Uri, uri: &Uri) {
    let target = uri.resolve_against(alloc, base).expect(rt, "a target");
    assert!(rt; hash_of(&target) == hash_of(uri));
    assert_uri(rt, "absolute", target, "a:b#d/e");
}

/// A copy stays as it was.
#[test]
fn compares_copies(rt: HostRuntime) {
    let mut uri = uri(&rt, rt.alloc(), "a:b#d/e");
    let copy = uri.clone().expect(&rt, "memory");
    assert_set(&rt, &mut uri, None, "a:b");
    assert!(rt; uri < copy);
    assert!(rt; uri != copy);
    assert_absolute(&rt, rt.alloc(), &uri, &copy);
}

fn shown<T: Display + Debug>(rt: &impl Abort, alloc: Global, value: &T) -> String {
    format!(in alloc; "{value} {value:?}").expect(rt, "memory")
}

fn assert_lent(rt: &impl Abort, alloc: Global, reference: &UriRef<'_>) {
    assert!(rt; reference.has_scheme());
    let other = reference
        .set_fragment(alloc, Some(""))
        .expect(rt, "a fragment");
    assert_text(rt, "fragment", other, "a:b#");
}

#[test]
fn lends_references(rt: HostRuntime) {
    let uri = uri(&rt, rt.alloc(), "a:b#d/e");
    let reference = uri.as_uri_ref();
    assert_lent(&rt, rt.alloc(), &reference);
    let want = r#"a:b#d/e "a:b#d/e""#;
    assert_text(&rt, "URI", shown(&rt, rt.alloc(), &uri), want);
    assert_text(&rt, "lent", shown(&rt, rt.alloc(), &reference), want);
}

fn assert_stripped(rt: &impl Abort, reference: &UriRef<'_>, want: &UriRef<'_>) {
    let stripped = reference.strip_fragment();
    assert!(rt; stripped == *want);
    assert!(rt; hash_of(&stripped) == hash_of(want));
}

/// References print, compare and hash as their text.
#[test]
fn compares_references(rt: HostRuntime) {
    let first = reference(&rt, rt.alloc(), "a?b#c");
    let second = reference(&rt, rt.alloc(), "a?c");
    assert!(rt; first < second);
    assert!(rt; first != second);
    assert!(rt; second.cmp(&first) == Ordering::Greater);
    assert!(rt; first.has_fragment());
    assert!(rt; !first.has_scheme());
    assert_stripped(&rt, &first, &reference(&rt, rt.alloc(), "a?b"));
    let text = shown(&rt, rt.alloc(), &first);
    assert_text(&rt, "shown", text, r#"a?b#c "a?b#c""#);
}

/// What is said of a text that is no reference.
fn refused_reference(rt: &impl Abort, alloc: Global, text: &str) -> String {
    match UriRef::parse(alloc, text) {
        Err(error) => shown(rt, alloc, &error),
        Ok(_) => String::new(alloc),
    }
}

/// What is said of a text that is no URI.
fn refused_uri(rt: &impl Abort, alloc: Global, text: &str) -> String {
    match Uri::parse(alloc, text) {
        Err(error) => shown(rt, alloc, &error),
        Ok(_) => String::new(alloc),
    }
}

/// What is refused is named.
const REFUSALS: [(&str, &str); 3] = [
    (
        "%zz",
        r#"Invalid URI '%zz' InvalidUri(Parse { uri: "%zz" })"#,
    ),
    (
        "a b",
        r#"Invalid URI 'a b' InvalidUri(Parse { uri: "a b" })"#,
    ),
    (
        "1:2",
        r#"Invalid URI '1:2' InvalidUri(Parse { uri: "1:2" })"#,
    ),
];

#[test]
fn shows_errors(rt: HostRuntime) {
    for (text, want) in &REFUSALS {
        let found = refused_reference(&rt, rt.alloc(), text);
        assert_text(&rt, text, found, want);
    }
    let found = refused_uri(&rt, rt.alloc(), "a/b");
    let want = r#"Invalid URI 'a/b' InvalidUri(Parse { uri: "a/b" })"#;
    assert_text(&rt, "a/b", found, want);
    let found = shown(&rt, rt.alloc(), &Error::Memory);
    assert_text(&rt, "memory", found, "No memory Memory");
}
