// Faults that a file lists, checked by the documents.
use crate::tests::whole::{Row, SOUND, assert_outcomes};

const ACCEPTED: [Row; 4] = [
    (
        &[
            "root.json",
            "http://a.test/leaf.json=leaf.json",
            "--check",
            "right",
        ],
        "[1]\n[\"a\",\"b\"]\n",
        "0 [\"accepted\",\"accepted\"]\n[]\n ",
    ),
    (
        &[
            "--check=right",
            "root.json",
            "http://a.test/leaf.json=leaf.json",
            "--output",
            "text",
        ],
        "[1]\n[\"a\",\"b\"]",
        "0 [\"accepted\",\"accepted\"]\n[]\n ",
    ),
    (
        &["plain.json", "--check", "typed"],
        "1\n",
        "0 [\"accepted\"]\n ",
    ),
    (&["plain.json", "--check", "empty.json"], "", "0  "),
];

// Of a list of faults each is answered by itself. Where a schema is wrong, no fault is accepted.
const REFUSED: [Row; 3] = [
    (
        &[
            "root.json",
            "http://a.test/leaf.json=leaf.json",
            "--check",
            "some",
        ],
        "[1]\n[1,2]\n",
        "1 [\"accepted\",\"refused\",\"refused\"]\n[\"refused\"]\n ",
    ),
    (
        &["plain.json", "--check", "typed"],
        "\"a\"\n",
        "1 [\"refused\"]\n ",
    ),
    (
        &["wrong.json", "--check", "typed"],
        "1\n",
        "1 [\"refused\"]\n ",
    ),
];

// A line that is no list of pairs of texts, and an instance that is no JSON text of whole numbers.
const NO_LISTS: [Row; 2] = [
    (
        &["plain.json", "--check", "others"],
        "1\n1\n1\n1\n1\n\"a\"\n\n",
        "1 null\nnull\nnull\nnull\n[\"accepted\"]\n[\"refused\"]\nnull\n ",
    ),
    (&["plain.json", "--check", "typed"], "1.5\n", "1 null\n "),
];

#[test]
fn checked_lines(rt: HostRuntime) {
    assert_outcomes(&rt, rt.alloc(), &SOUND, &ACCEPTED);
    assert_outcomes(&rt, rt.alloc(), &SOUND, &REFUSED);
    assert_outcomes(&rt, rt.alloc(), &SOUND, &NO_LISTS);
}

const OTHER_NUMBERS: [Row; 3] = [
    (
        &["plain.json", "--check", "typed"],
        "1\n1\n",
        "3  answers refused: lines of typed: 1, instances: 2\n",
    ),
    (
        &["plain.json", "--check", "typed"],
        "",
        "3  answers refused: lines of typed: 1, instances: 0\n",
    ),
    (
        &["true.json", "--instance", "short.json", "--check", "right"],
        "1\n1\n",
        "3  answers refused: lines of right: 2, instances: 1\n",
    ),
];

// What is said of it where the output is for people.
const DESCRIBED: [Row; 1] = [(
    &["plain.json", "--check", "typed", "--output", "text"],
    "1\n1\n",
    r"3  answers refused: lines of typed: 1, instances: 2
  the file has a line for each instance, in their order
",
)];

const UNREAD: [Row; 5] = [
    (
        &["plain.json", "--check", "absent"],
        "1\n",
        "2  file refused: absent\n",
    ),
    (
        &["plain.json", "--check", "absent", "--instance", "lost"],
        "1\n",
        "2  file refused: absent\n",
    ),
    (
        &["plain.json", "--instance", "lost", "--check", "typed"],
        "1\n",
        "2  file refused: lost\n",
    ),
    (
        &["none", "--check", "absent"],
        "1\n",
        "2  build refused: Document 'json-schema:///' is no JSON text\n",
    ),
    (
        &["none", "--check", "absent", "--output", "xml"],
        "1\n",
        "2  words refused: --output xml\n",
    ),
];

#[test]
fn refused(rt: HostRuntime) {
    assert_outcomes(&rt, rt.alloc(), &SOUND, &OTHER_NUMBERS);
    assert_outcomes(&rt, rt.alloc(), &SOUND, &DESCRIBED);
    assert_outcomes(&rt, rt.alloc(), &SOUND, &UNREAD);
}

// The whole of each file is one instance, and the reader is not read.
const FILES: [Row; 2] = [
    (
        &[
            "root.json",
            "--instance",
            "short.json",
            "--instance",
            "good.json",
            "http://a.test/leaf.json=leaf.json",
            "--check",
            "right",
        ],
        "no JSON",
        "0 [\"accepted\",\"accepted\"]\n[]\n ",
    ),
    (
        &["plain.json", "--instance", "two.json", "--check", "typed"],
        "1\n",
        "1 null\n ",
    ),
];

#[test]
fn of_files(rt: HostRuntime) {
    assert_outcomes(&rt, rt.alloc(), &SOUND, &FILES);
    assert_outcomes(&rt, rt.alloc(), &[Some(0), None, None], &FILES);
}

const STOPPED_READING: [Row; 1] = [(
    &["plain.json", "--check", "typed"],
    "1\n",
    "3  Reading failed\n",
)];

const STOPPED_WRITING: [Row; 1] = [(
    &["plain.json", "--check", "typed"],
    "1\n",
    "3 [\"a Writing failed\n",
)];

#[test]
fn failures(rt: HostRuntime) {
    assert_outcomes(&rt, rt.alloc(), &[Some(1), None, None], &STOPPED_READING);
    assert_outcomes(&rt, rt.alloc(), &[None, Some(3), None], &STOPPED_WRITING);
}
