// Pointers, and how they are written as URI fragments.
use json_pointers::fragments::FragmentBuffer;
use percent_encoding::percent_decode_str;
use std::alloc::Global;
use std::borrow::CowStr;
use std::process::Abort;

// The table of RFC 6901, section 6.
const FRAGMENTS: [(&str, &str); 12] = [
    ("", ""),
    ("/foo", "/foo"),
    ("/foo/0", "/foo/0"),
    ("/", "/"),
    ("/a~1b", "/a~1b"),
    ("/c%d", "/c%25d"),
    ("/e^f", "/e%5Ef"),
    ("/g|h", "/g%7Ch"),
    (r"/i\j", "/i%5Cj"),
    (r#"/k"l"#, "/k%22l"),
    ("/ ", "/%20"),
    ("/m~0n", "/m~0n"),
];

// Unreserved characters, sub-delims and the rest that stand for themselves, of RFC 3986, sections 2.3, 2.2 and 3.5; then pieces that
// are encoded. U+00E9 is C3 A9 in UTF-8; a `%` is one of the text, whatever comes after it.
const PIECES: [(&str, &str); 5] = [
    ("azAZ09-._~", "azAZ09-._~"),
    ("!$&'()*+,;=", "azAZ09-._~!$&'()*+,;="),
    (":@/?", "azAZ09-._~!$&'()*+,;=:@/?"),
    ("#[]\u{e9}%", "azAZ09-._~!$&'()*+,;=:@/?%23%5B%5D%C3%A9%25"),
    ("41", "azAZ09-._~!$&'()*+,;=:@/?%23%5B%5D%C3%A9%2541"),
];

// Pushes a piece, after which the buffer holds a fragment.
fn assert_pushed(rt: &impl Abort, buffer: &mut FragmentBuffer, piece: &str, want: &str) {
    buffer.push(piece).expect(rt, "memory");
    assert!(rt; buffer.as_str() == want, "{piece}");
}

fn decoded<'t>(rt: &impl Abort, alloc: Global, fragment: &'t str) -> CowStr<'t> {
    percent_decode_str(fragment)
        .decode_utf8(alloc)
        .expect(rt, "text")
}

fn assert_decoded(rt: &impl Abort, fragment: &str, found: CowStr<'_>, want: &str) {
    assert!(rt; found.as_str() == want, "{fragment}");
}

#[test]
fn pointers_as_fragments(rt: HostRuntime) {
    for (pointer, fragment) in &FRAGMENTS {
        let mut buffer = FragmentBuffer::new(rt.alloc());
        assert_pushed(&rt, &mut buffer, pointer, fragment);
        let text = decoded(&rt, rt.alloc(), fragment);
        assert_decoded(&rt, fragment, text, pointer);
    }
}

#[test]
fn pieces_one_after_another(rt: HostRuntime) {
    let mut buffer = FragmentBuffer::new(rt.alloc());
    for (piece, fragment) in &PIECES {
        assert_pushed(&rt, &mut buffer, piece, fragment);
    }
}
