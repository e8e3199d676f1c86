// What is told before all else where the output is for people.
use crate::tests::whole::{Row, SOUND, assert_outcomes};

// A document is named by its URI as it was given, and two are one in their normal form.
const REPLACED: [Row; 5] = [
    (
        &[
            "plain.json",
            "u:x=true.json",
            "u:y=true.json",
            "U:x=either.json",
            "--output",
            "text",
        ],
        "\"a\"\n",
        r"0  warning: document 'U:x' in the file 'either.json' replaces the one in the file 'true.json'
lines: 1, valid: 1, not valid: 0, not read: 0
",
    ),
    (
        &[
            "plain.json",
            "json-schema:///=true.json",
            "json-schema:///=either.json",
            "--output",
            "json",
        ],
        "1\n",
        r#"0 {"errors":[],"valid":true}
 warning: document 'json-schema:///' in the file 'true.json' replaces the one in the file 'plain.json'
warning: document 'json-schema:///' in the file 'either.json' replaces the one in the file 'true.json'
"#,
    ),
    (
        &[
            "plain.json",
            "u:x=true.json",
            "u:x=none",
            "--output",
            "text",
        ],
        "1\n",
        r"2  warning: document 'u:x' in the file 'none' replaces the one in the file 'true.json'
build refused: Document 'u:x' is no JSON text
  in the file 'none': it is no JSON text, from line 1, column 1 on
",
    ),
    (
        &["plain.json", "u:x=true.json", "u:x=either.json"],
        "\"a\"\n",
        "0 []\n ",
    ),
    (
        &[
            "plain.json",
            "u:x=true.json",
            "u:x=either.json",
            "--output",
            "none",
        ],
        "\"a\"\n",
        "0  ",
    ),
];

const UNKNOWN: [Row; 6] = [
    (
        &["typos.json", "--output", "text"],
        "1\n",
        r#"0  warning: keyword "nmae" in the file 'typos.json' at '/nmae' is unknown to draft 2020-12
warning: keyword "x-a" in the file 'typos.json' at '/x-a' is unknown to draft 2020-12
warning: keyword "dependentRequired" in the file 'typos.json' at '/properties/nmae/dependentRequired' is unknown to draft 7
lines: 1, valid: 1, not valid: 0, not read: 0
"#,
    ),
    (&["typos.json"], "1\n", "0 []\n "),
    (
        &[
            "plain.json",
            "u:x=typos.json",
            "U:x=beside.json",
            "u:y=old.json",
            "--draft",
            "7",
            "--output",
            "json",
        ],
        "",
        r#"0  warning: document 'U:x' in the file 'beside.json' replaces the one in the file 'typos.json'
warning: keyword "$anchors" in the file 'old.json' at '/items/0/$anchors' is unknown to draft 7
"#,
    ),
    (
        &[
            "old.json",
            "--draft",
            "7",
            "--meta",
            "noted.json",
            "--output",
            "json",
        ],
        "",
        r#"0  warning: keyword "$anchors" in the file 'old.json' at '/items/0/$anchors' is unknown to draft 7
warning: keyword "nmae" in the file 'noted.json' at 'http://a.test/m7#/nmae' is unknown to draft 7
"#,
    ),
    (
        &[
            "plain.json",
            "http://a.test/m7=true.json",
            "--meta",
            "noted.json",
            "--output",
            "json",
        ],
        "",
        "0  ",
    ),
    (
        &["wrong.json", "u:y=old.json", "--output", "text"],
        "",
        r#"2  warning: keyword "additionalItems" in the file 'old.json' at '/additionalItems' is unknown to draft 2020-12
build refused: Keyword value at 'json-schema:///#/type': expected type name
  in the file 'wrong.json' at '/type': Expected type name, found 5
"#,
    ),
];

#[test]
fn documents_that_are_replaced(rt: HostRuntime) {
    assert_outcomes(&rt, rt.alloc(), &SOUND, &REPLACED);
}

#[test]
fn keywords_that_are_unknown(rt: HostRuntime) {
    assert_outcomes(&rt, rt.alloc(), &SOUND, &UNKNOWN);
}
