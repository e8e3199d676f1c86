// Files that are an instance each.
use crate::tests::whole::{Row, SOUND, assert_outcomes};

const PAIRS: [Row; 6] = [
    (
        &[
            "root.json",
            "http://a.test/leaf.json=leaf.json",
            "--instance",
            "short.json",
        ],
        "[\"a\"]\n",
        "1 [[\"\",\"/minItems\"],[\"/0\",\"/items/$ref/type\"]]\n ",
    ),
    (
        &[
            "--instance=good.json",
            "root.json",
            "http://a.test/leaf.json=leaf.json",
        ],
        "no JSON",
        "0 []\n ",
    ),
    (
        &[
            "root.json",
            "--instance",
            "good.json",
            "http://a.test/leaf.json=leaf.json",
            "--instance",
            "short.json",
            "--instance",
            "good.json",
            "--output",
            "pairs",
        ],
        "",
        "1 []\n[[\"\",\"/minItems\"],[\"/0\",\"/items/$ref/type\"]]\n[]\n ",
    ),
    (
        &["plain.json", "--instance", "empty.json"],
        "\"a\"\n",
        "1 null\n ",
    ),
    (
        &["plain.json", "--instance", "two.json"],
        "\"a\"\n",
        "1 null\n ",
    ),
    (
        &["plain.json", "--instance", "byte"],
        "\"a\"\n",
        "1 null\n ",
    ),
];

const OTHER_FORMS: [Row; 3] = [
    (
        &[
            "true.json",
            "--output",
            "json",
            "--instance",
            "empty.json",
            "--instance",
            "short.json",
        ],
        "\"a\"\n",
        r#"1 {"column":0,"line":1,"reason":"EOF while parsing at line 1 column 0","valid":null}
{"errors":[],"valid":true}
 "#,
    ),
    (
        &["plain.json", "--output", "none", "--instance", "short.json"],
        "\"a\"\n",
        "1  ",
    ),
    (
        &["true.json", "--output", "none", "--instance", "short.json"],
        "\"a\"\n",
        "0  ",
    ),
];

// No file is answered where one of them is not read, and the schema is looked at before.
const REFUSED: [Row; 3] = [
    (
        &[
            "true.json",
            "--instance",
            "short.json",
            "--instance",
            "absent",
        ],
        "1\n",
        "2  file refused: absent\n",
    ),
    (
        &["wrong.json", "--instance", "absent"],
        "1\n",
        "2  build refused: Keyword value at 'json-schema:///#/type': expected type name\n",
    ),
    (
        &["absent", "--instance", "lost"],
        "1\n",
        "2  file refused: absent\n",
    ),
];

#[test]
fn files_of_instances(rt: HostRuntime) {
    assert_outcomes(&rt, rt.alloc(), &SOUND, &PAIRS);
    assert_outcomes(&rt, rt.alloc(), &SOUND, &OTHER_FORMS);
    assert_outcomes(&rt, rt.alloc(), &SOUND, &REFUSED);
}

const UNREAD: [Row; 1] = [(&["true.json", "--instance", "short.json"], "1\n", "0 []\n ")];

const STOPPED: [Row; 1] = [(
    &[
        "true.json",
        "--instance",
        "short.json",
        "--instance",
        "good.json",
    ],
    "1\n",
    "3 []\n[ Writing failed\n",
)];

// The reader is not read, and what was answered before a write fails is written.
#[test]
fn devices_that_fail(rt: HostRuntime) {
    assert_outcomes(&rt, rt.alloc(), &[Some(0), None, None], &UNREAD);
    assert_outcomes(&rt, rt.alloc(), &[None, Some(4), None], &STOPPED);
}
