//! Examples of RFC 3986, and texts that its grammar refuses.

use crate::resolution::assert_text;
use std::alloc::Global;
use std::process::Abort;
use uri_grammar::components::{Components, split_reference, write_components};
use uri_grammar::grammar::{is_uri, is_uri_reference, parse, split_authority_parts};

/// Each text, whether it is a reference, and whether it is a URI.
const REFERENCES: [(&str, bool, bool); 29] = [
    ("ftp://ftp.is.co.za/rfc/rfc1808.txt", true, true),
    ("http://www.ietf.org/rfc/rfc2396.txt", true, true),
    ("ldap://[2001:db8::7]/c=GB?objectClass?one", true, true),
    ("mailto:John.Doe@example.com", true, true),
    ("news:comp.infosystems.www.servers.unix", true, true),
    ("tel:+1-816-555-1212", true, true),
    ("telnet://192.0.2.16:80/", true, true),
    (
        "urn:oasis:names:specification:docbook:dtd:xml:4.1.2",
        true,
        true,
    ),
    (
        "foo://example.com:8042/over/there?name=ferret#nose",
        true,
        true,
    ),
    ("json-schema:///", true, true),
    ("//example.com/a", true, false),
    ("../a/./b", true, false),
    ("", true, false),
    ("#", true, false),
    ("a%2fb", true, false),
    ("%zz", false, false),
    ("#%zz", false, false),
    ("a%4", false, false),
    ("1:2", false, false),
    ("./1:2", true, false),
    ("a b", false, false),
    ("ü", false, false),
    ("a#b#c", false, false),
    ("http://a:port/", false, false),
    ("http://[::1/", false, false),
    ("http://[::1]:80/", true, true),
    ("http://[v1.a]/", true, true),
    ("http://a@b@c/", false, false),
    ("http://u:p@h:1/", true, true),
];

#[test]
fn tells_references(rt: HostRuntime) {
    for (text, reference, uri) in &REFERENCES {
        assert!(rt; is_uri_reference(text) == *reference, "{text}");
        assert!(rt; is_uri(text) == *uri, "{text}");
        assert!(rt; parse(text).is_some() == *reference, "{text}");
    }
}

const EXAMPLE: &str = "foo://example.com:8042/over/there?name=ferret#nose";

fn assert_written(rt: &impl Abort, alloc: Global, parts: &Components<'_>) {
    let text = write_components(alloc, parts).expect(rt, "memory");
    assert_text(rt, "written", text, EXAMPLE);
}

/// Components are parts of the text, and give it back.
#[test]
fn writes_what_it_split(rt: HostRuntime) {
    let parts = split_reference(EXAMPLE);
    assert!(rt; parts.scheme == Some("foo"));
    assert!(rt; parts.authority == Some("example.com:8042"));
    assert!(rt; parts.path == "/over/there");
    assert!(rt; parts.query == Some("name=ferret"));
    assert!(rt; parts.fragment == Some("nose"));
    assert_written(&rt, rt.alloc(), &parts);
}

#[test]
fn splits_authorities(rt: HostRuntime) {
    let authority = split_authority_parts("user:key@[::1]:443");
    assert!(rt; authority.userinfo == Some("user:key"));
    assert!(rt; authority.host == "[::1]");
    assert!(rt; authority.port == Some("443"));
}
