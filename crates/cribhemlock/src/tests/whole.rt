// The program's statuses, and what it writes.
use line_cuts::{MemorySink, MemorySource};
use program_inputs::MapFiles;
use std::alloc::Global;
use std::process::Abort;
use std::str;
use validator_program::program;

const ROOT: &str =
    "{\"$id\":\"http://a.test/root.json\",\"type\":\"array\",\"minItems\":2,\"items\":{\"$ref\":\"leaf.json\"}}";

const LEAF: &str = "{\"$id\":\"http://a.test/leaf.json\",\"type\":\"string\"}";

const BESIDE: &str =
    "{\"properties\":{\"x\":{\"$ref\":\"#/definitions/s\",\"minItems\":3}},\"definitions\":{\"s\":{\"type\":\"array\"}}}";

const META: &str =
    "[{\"$schema\":\"https://json-schema.org/draft/2020-12/schema\",\"$id\":\"http://a.test/m2\",\"properties\":{\"type\":{\"type\":\"string\"}}},{\"$schema\":\"http://json-schema.org/draft-04/schema#\",\"id\":\"http://a.test/m4\",\"type\":\"object\"}]";

const EITHER: &str =
    "{\"properties\":{\"a\":{\"anyOf\":[{\"type\":\"string\"},{\"type\":\"null\"}]}}}";

// Something is wrong at four members of two schemas.
const SEVERAL: &str =
    "{\"type\":5,\"minItems\":\"1\",\"properties\":{\"a\":{\"maxItems\":-1,\"pattern\":\"(\"}}}";

// Names that no draft has, and one that a later draft has; members of what is no schema, and a name that only tells something.
const TYPOS: &str =
    "{\"nmae\":1,\"x-a\":2,\"title\":\"t\",\"default\":{\"nmae\":1},\"properties\":{\"nmae\":{\"$id\":\"http://a.test/old\",\"$schema\":\"http://json-schema.org/draft-07/schema#\",\"dependentRequired\":{}}}}";

// Faults that are listed, a line for each instance: right ones of `root.json`, one of `plain.json`, some of which one is right, and texts
// that are no lists of them.
const RIGHT: &str = "[[\"\",\"/minItems\"],[\"/0\",\"/items/$ref/type\"]]\n[]\n";

const SOME: &str =
    "[[\"/0\",\"/items/$ref/type\"],[\"/0\",\"/items\"],[\"/0\",\"/minItems\"]]\n[[\"\",\"/minItems\"]]\n";

const OTHERS: &str =
    "null\n[[\"\",\"/type\",\"\"]]\n[[\"\",\"/type\"]\n{}\n[[\"\",\"/type\"]]\n[[\"\",\"/type\"]]\n[]";

// A meta-schema that asks for three things, and a schema that it refuses for two of them at once.
const STRICT: &str =
    "[{\"$id\":\"http://a.test/m3\",\"properties\":{\"description\":{\"type\":\"string\"},\"type\":{\"type\":\"string\"}},\"required\":[\"description\"]}]";

// More lists in one another than a value may have.
const NESTED: &str =
    "[[[[[[[[[[[[[[[[[[[[[[[[[[[[[[[[[[[[[[[[[[[[[[[[[[[[[[[[[[[[[[[[[[[[[[[[[[[[[[[[[[[[[[[[[[[[[[[[[[[[[[[[[[[[[[[[[[[[[[[[[[[[[[[[";

// A meta-schema with a name that is no keyword.
const NOTED: &str = "[{\"$id\":\"http://a.test/m7\",\"nmae\":1}]";

// A member for each kind of fault, and one that two schemas of `oneOf` accept.
const KINDS: &str = r#"{"properties":{
"additionalItems":{"items":[true],"additionalItems":false},
"additionalProperties":{"properties":{"a":true},"additionalProperties":false},
"anyOf":{"anyOf":[{"type":"null"}]},
"const":{"const":1},
"contains":{"contains":{"type":"null"}},
"enum":{"enum":["a",null]},
"exclusiveMaximum":{"exclusiveMaximum":5},
"exclusiveMinimum":{"exclusiveMinimum":5},
"false":false,
"maxItems":{"maxItems":1},
"maxLength":{"maxLength":1},
"maxProperties":{"maxProperties":0},
"maximum":{"maximum":5},
"minItems":{"minItems":3},
"minLength":{"minLength":3},
"minProperties":{"minProperties":2},
"minimum":{"minimum":5},
"multipleOf":{"multipleOf":2},
"not":{"not":{"type":"integer"}},
"oneOf":{"oneOf":[{"type":"null"}]},
"oneOfTwice":{"oneOf":[{"minimum":1},{"maximum":9}]},
"pattern":{"pattern":"^b"},
"propertyNames":{"propertyNames":{"maxLength":1}},
"required":{"required":["a"]},
"type":{"type":"string"},
"uniqueItems":{"uniqueItems":true}
}}"#;

// References that lead nowhere, each for another reason.
const REFERENCES: &str =
    r##"{"allOf":[{"$ref":"#none"},{"$ref":"#a/b"},{"$ref":"#/%ff"},{"$ref":"#/allOf/x"}]}"##;

// Two references to documents that are not there.
const LOST: &str = "{\"allOf\":[{\"$ref\":\"u:a\"},{\"$ref\":\"u:b#/x\"}]}";

// An identifier that is no URI reference, beside a reference to a document that is not there.
const BOTH: &str = "{\"$id\":\"%\",\"allOf\":[{\"$ref\":\"u:a\"}]}";

// An identifier by Draft 4 that is no URI reference, and a member that is none there.
const FOURTH: &str =
    "{\"$schema\":\"http://json-schema.org/draft-04/schema#\",\"id\":\"%\",\"$id\":\"^\"}";

// A document that names another as its meta-schema, and has a schema of an older draft with that one's URI: each stage of reading them tells
// another dialect of it.
const TURNING: &str =
    "{\"$schema\":\"http://a.test/m\",\"$defs\":{\"x\":{\"$schema\":\"http://json-schema.org/draft-04/schema#\",\"id\":\"http://a.test/m\"}}}";

const FILES: [(&str, &str); 56] = [
    ("root.json", ROOT),
    ("leaf.json", LEAF),
    ("plain.json", "{\"type\":\"string\"}"),
    ("none", "{"),
    ("half", "1.5"),
    ("deep.json", "{\"a\":[1.5]}"),
    ("wrong.json", "{\"type\":5}"),
    ("nowhere.json", "{\"$ref\":\"#/$defs/none\"}"),
    ("beside.json", BESIDE),
    ("meta.json", META),
    ("nameless.json", "[{\"type\":\"object\"}]"),
    (
        "own.json",
        "{\"$schema\":\"http://a.test/m2\",\"type\":\"string\"}",
    ),
    (
        "refused.json",
        "{\"$schema\":\"http://a.test/m2\",\"type\":[\"string\"]}",
    ),
    ("short.json", "[\n  1\n]\n"),
    ("good.json", "\n[\"a\",\r\n\t\"b\"]"),
    ("true.json", "true"),
    ("either.json", EITHER),
    ("empty.json", ""),
    ("two.json", "[\"a\",\"b\"]\n[\"a\",\"b\"]\n"),
    ("right", RIGHT),
    ("typed", "[[\"\",\"/type\"]]\n"),
    ("some", SOME),
    ("others", OTHERS),
    ("several.json", SEVERAL),
    ("nested", NESTED),
    ("strict.json", STRICT),
    (
        "loose.json",
        "{\"$schema\":\"http://a.test/m3\",\"type\":[\"string\"]}",
    ),
    (
        "looser.json",
        "{\"$schema\":\"http://a.test/m3\",\"minItems\":\"1\"}",
    ),
    ("astray.json", "{\"$id\":\"%\"}"),
    (
        "circle.json",
        "{\"$schema\":\"http://a.test/c\",\"$id\":\"http://a.test/c\"}",
    ),
    ("typos.json", TYPOS),
    ("bad.json", "[{\"$id\":\"http://a.test/m5\",\"type\":5}]"),
    ("broken.json", "[{\"$id\":\"http://a.test/m6\",\"a\":0.5}]"),
    (
        "mended.json",
        "{\"$schema\":\"http://a.test/m5\",\"type\":\"string\"}",
    ),
    ("left.json", "{\"items\":{\"unevaluatedItems\":false}}"),
    ("one.json", "{\"oneOf\":[{\"minimum\":2},{\"maximum\":4}]}"),
    ("noted.json", NOTED),
    ("lost.json", LOST),
    (
        "led.json",
        "[{\"$id\":\"http://a.test/m8\",\"$ref\":\"u:b\"}]",
    ),
    ("lines.json", "[\n  12,\n  1,2.5\n]\n"),
    ("anchor.json", "{\"$ref\":\"#a\\nb\"}"),
    ("kinds.json", KINDS),
    ("refs.json", REFERENCES),
    ("hidden.json", "{\"$ref\":\"#/x\",\"x\":{\"$ref\":\"u:a\"}}"),
    ("dynamic.json", "{\"$dynamicRef\":\"#none\"}"),
    (
        "old.json",
        "{\"items\":[{\"$anchors\":1}],\"additionalItems\":false}",
    ),
    ("adrift.json", "{\"items\":{\"$ref\":\"a b#/x\"}}"),
    ("amiss.json", "{\"$schema\":\"%\"}"),
    ("fourth.json", FOURTH),
    ("both.json", BOTH),
    ("there.json", "{\"$schema\":\"http://a.test/d\"}"),
    ("back.json", "{\"$schema\":\"http://a.test/c\"}"),
    (
        "round.json",
        "[{\"$id\":\"http://a.test/m9\",\"$schema\":\"http://a.test/m9\"}]",
    ),
    ("misnamed.json", "[{\"$id\":\"%\"}]"),
    (
        "newest.json",
        "{\"$schema\":\"https://json-schema.org/draft/2020-12/schema\"}",
    ),
    ("turning.json", TURNING),
];

fn files(rt: &impl Abort, alloc: Global) -> MapFiles {
    let mut files = MapFiles::new(alloc);
    for (name, text) in FILES {
        files.add(alloc, name, text.as_bytes()).expect(rt, "memory");
    }
    files.add(alloc, "byte", b"\"\xff\"").expect(rt, "memory");
    files
}

// The status, what was written, and the fault that was told, each behind a space but the first, where the reader, the writer and the writer of
// faults fail behind so many bytes.
fn outcome(
    rt: &impl Abort,
    alloc: Global,
    files: &MapFiles,
    words: &[&str],
    input: &str,
    fails: &[Option<usize>; 3],
) -> String {
    let mut reader = MemorySource::new(input.as_bytes(), 2, fails[0]);
    let mut writer = MemorySink::new(alloc, 3, fails[1]);
    let mut faults = MemorySink::new(alloc, 5, fails[2]);
    let status = program(alloc, words, files, &mut reader, &mut writer, &mut faults);
    let written = str::from_utf8(writer.as_slice()).expect(rt, "UTF-8");
    let fault = str::from_utf8(faults.as_slice()).expect(rt, "UTF-8");
    format!(in alloc; "{status} {written} {fault}").expect(rt, "memory")
}

pub(crate) const SOUND: [Option<usize>; 3] = [None, None, None];

// Words, the bytes of the lines, and what comes of them.
pub(crate) type Row = (&'static [&'static str], &'static str, &'static str);

pub(crate) fn assert_outcomes(
    rt: &impl Abort,
    alloc: Global,
    fails: &[Option<usize>; 3],
    rows: &[Row],
) {
    let files = files(rt, alloc);
    for (words, input, want) in rows {
        let found = outcome(rt, alloc, &files, words, input, fails);
        assert_eq!(rt; found.as_str(), *want);
    }
}

// What comes of words that name a file of that text.
pub(crate) fn assert_told(
    rt: &impl Abort,
    alloc: Global,
    words: &[&str],
    file: (&str, &str),
    want: &str,
) {
    let mut files = MapFiles::new(alloc);
    files
        .add(alloc, file.0, file.1.as_bytes())
        .expect(rt, "memory");
    let found = outcome(rt, alloc, &files, words, "", &SOUND);
    assert_eq!(rt; found.as_str(), want);
}

const LINKED: [&str; 4] = [
    "root.json",
    "http://a.test/leaf.json=leaf.json",
    "--base",
    "http://a.test/root.json",
];

const RUNS: [Row; 4] = [
    (
        &LINKED,
        "[1]\n",
        "1 [[\"\",\"/minItems\"],[\"/0\",\"/items/$ref/type\"]]\n ",
    ),
    (&LINKED, "[\"a\",\"b\"]", "0 []\n "),
    (&["plain.json"], "\"a\"\n\n", "1 []\nnull\n "),
    (&["plain.json"], "", "0  "),
];

#[test]
fn whole_runs(rt: HostRuntime) {
    assert_outcomes(&rt, rt.alloc(), &SOUND, &RUNS);
}

const STOPPED_READING: [Row; 1] = [(&["plain.json"], "\"a\"\n", "3  Reading failed\n")];

const STOPPED_WRITING: [Row; 1] = [(&LINKED, "[1]\n", "3 [[\" Writing failed\n")];

const STOPPED_SOON: [Row; 1] = [(&["plain.json"], "\"a\"\n", "3 [ Writing failed\n")];

const UNTOLD: [Row; 1] = [(&["plain.json"], "\"a\"\n", "3 [ ")];

#[test]
fn failures(rt: HostRuntime) {
    let alloc = rt.alloc();
    assert_outcomes(&rt, alloc, &[Some(2), None, None], &STOPPED_READING);
    assert_outcomes(&rt, alloc, &[None, Some(3), None], &STOPPED_WRITING);
    assert_outcomes(&rt, alloc, &[None, Some(1), None], &STOPPED_SOON);
    assert_outcomes(&rt, alloc, &[None, Some(1), Some(0)], &UNTOLD);
}

const DRAFTS: [Row; 8] = [
    (&["beside.json", "--draft", "7"], "{\"x\":[]}\n", "0 []\n "),
    (&["--draft=4", "beside.json"], "{\"x\":[]}\n", "0 []\n "),
    (
        &["beside.json", "--draft", "7", "--ref-siblings"],
        "{\"x\":[]}\n",
        "1 [[\"/x\",\"/properties/x/minItems\"]]\n ",
    ),
    (
        &["--ref-siblings", "beside.json", "--draft=6"],
        "{\"x\":[1,2,3]}\n",
        "0 []\n ",
    ),
    (
        &["beside.json", "--draft", "4", "--ref-siblings"],
        "{\"x\":[]}\n",
        "0 []\n ",
    ),
    (
        &["beside.json"],
        "{\"x\":[]}\n",
        "1 [[\"/x\",\"/properties/x/minItems\"]]\n ",
    ),
    (
        &["beside.json", "--draft", "2019-09"],
        "{\"x\":[]}\n",
        "1 [[\"/x\",\"/properties/x/minItems\"]]\n ",
    ),
    (
        &["beside.json", "--draft", "2020-12"],
        "{\"x\":[]}\n",
        "1 [[\"/x\",\"/properties/x/minItems\"]]\n ",
    ),
];

#[test]
fn by_draft(rt: HostRuntime) {
    assert_outcomes(&rt, rt.alloc(), &SOUND, &DRAFTS);
}

const META_SCHEMAS: [Row; 7] = [
    (&["own.json", "--meta", "meta.json"], "\"a\"\n", "0 []\n "),
    (&["--meta=meta.json", "plain.json"], "\"a\"\n", "0 []\n "),
    (
        &["refused.json", "--meta", "meta.json"],
        "\"a\"\n",
        "2  build refused: Schema refused by its meta-schema at '/type', '/properties/type/type'\n",
    ),
    (
        &["own.json"],
        "\"a\"\n",
        "2  build refused: Unknown meta-schema 'http://a.test/m2'\n",
    ),
    (
        &["own.json", "--meta", "own.json"],
        "\"a\"\n",
        "2  file refused: own.json\n",
    ),
    (
        &["own.json", "--meta", "nameless.json"],
        "\"a\"\n",
        "2  file refused: nameless.json\n",
    ),
    (
        &["none", "--meta", "absent"],
        "\"a\"\n",
        "2  build refused: Document 'json-schema:///' is no JSON text\n",
    ),
];

#[test]
fn by_meta_schemas(rt: HostRuntime) {
    assert_outcomes(&rt, rt.alloc(), &SOUND, &META_SCHEMAS);
}

const REFUSED: [Row; 13] = [
    (
        &["absent", "u:x", "--base", "%"],
        "1\n",
        "2  words refused: u:x\n",
    ),
    (
        &["absent", "--draft", "5", "--base", "%"],
        "1\n",
        "2  words refused: --draft 5\n",
    ),
    (
        &["plain.json", "--draft", ""],
        "1\n",
        "2  words refused: --draft \n",
    ),
    (
        &["absent", "--base", "%"],
        "1\n",
        "2  build refused: Invalid URI '%'\n",
    ),
    (&["absent", "u:x=none"], "1\n", "2  file refused: absent\n"),
    (
        &["plain.json", "u:x=y=none"],
        "1\n",
        "2  build refused: Document 'u:x=y' is no JSON text\n",
    ),
    (
        &["plain.json", "%=plain.json"],
        "1\n",
        "2  build refused: Invalid URI '%'\n",
    ),
    (
        &["plain.json", "u:x=byte", "u:y=absent"],
        "1\n",
        "2  file refused: byte\n",
    ),
    (
        &["plain.json", "u:x=absent", "u:y=none"],
        "1\n",
        "2  file refused: absent\n",
    ),
    (
        &["half"],
        "1\n",
        "2  build refused: Number at 'json-schema:///#' is no whole number of 64 bits\n",
    ),
    (
        &["wrong.json"],
        "1\n",
        "2  build refused: Keyword value at 'json-schema:///#/type': expected type name\n",
    ),
    (
        &["nowhere.json"],
        "1\n",
        "2  build refused: Pointer '/$defs/none' does not exist\n",
    ),
    (
        &["root.json", "--base", "u:r"],
        "1\n",
        "2  build refused: Resource 'http://a.test/leaf.json' is not present and retrieving it failed\n",
    ),
];

#[test]
fn refusals(rt: HostRuntime) {
    assert_outcomes(&rt, rt.alloc(), &SOUND, &REFUSED);
}

#[test]
fn words_by_clap(rt: HostRuntime) {
    let alloc = rt.alloc();
    let cases: [(&[&str], &str); 3] = [
        (&[], "2  error: "),
        (&["--help"], "2  Checks lines of JSON"),
        (
            &["plain.json", "--drafts", "7"],
            "2  error: unexpected argument",
        ),
    ];
    let files = files(&rt, alloc);
    for (words, want) in cases {
        let text = outcome(&rt, alloc, &files, words, "1\n", &SOUND);
        assert!(rt; text.as_str().starts_with(want), "{text}");
    }
}
