//! Addresses of RFC 3986 and RFC 4291, and texts that are none.

use uri_grammar::addresses::{
    is_dec_octet, is_ip_future, is_ip_literal, is_ipv4_address, is_ipv6_address,
};

/// A form, a text, and whether the text has that form.
const FORMS: [(&str, &str, bool); 32] = [
    ("IPv6", "::", true),
    ("IPv6", "::1", true),
    ("IPv6", "1:2:3:4:5:6:7:8", true),
    ("IPv6", "2001:DB8:0:0:8:800:200C:417A", true),
    ("IPv6", "2001:DB8::8:800:200C:417A", true),
    ("IPv6", "::ffff:192.0.2.1", true),
    ("IPv6", "0:0:0:0:0:FFFF:129.144.52.38", true),
    ("IPv6", "1::8", true),
    ("IPv6", "1:2:3:4:5:6:7::", true),
    ("IPv6", "::2:3:4:5:6:7:8", true),
    ("IPv6", "", false),
    ("IPv6", "1:2:3", false),
    ("IPv6", "1::2::3", false),
    ("IPv6", "12345::", false),
    ("IPv6", "::256.0.0.1", false),
    ("IPv6", "::1.2.3", false),
    ("IPv6", "1.2.3.4::", false),
    ("IPv6", ":::", false),
    ("IPv6", "1:2:3:4::5:6:7:8", false),
    ("IPv6", "1:2:3:4:5:6:7:8:9", false),
    ("IPv6", "::g", false),
    ("IPv4", "192.0.2.16", true),
    ("IPv4", "192.0.2", false),
    ("IPv4", "192.0.2.016", false),
    ("octet", "255", true),
    ("octet", "256", false),
    ("future", "v1F.a:b", true),
    ("future", "v.x", false),
    ("future", "v1", false),
    ("literal", "[::1]", true),
    ("literal", "[::1", false),
    ("literal", "[1.2.3.4]", false),
];

fn has_form(form: &str, text: &str) -> Option<bool> {
    match form {
        "IPv6" => Some(is_ipv6_address(text)),
        "IPv4" => Some(is_ipv4_address(text)),
        "octet" => Some(is_dec_octet(text)),
        "future" => Some(is_ip_future(text)),
        "literal" => Some(is_ip_literal(text)),
        _ => None,
    }
}

#[test]
fn tells_addresses(rt: HostRuntime) {
    for (form, text, want) in &FORMS {
        assert!(rt; has_form(form, text) == Some(*want), "{form} {text}");
    }
}
