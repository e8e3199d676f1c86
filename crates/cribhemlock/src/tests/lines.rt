// Runs over bytes in memory.
use line_cuts::{MemorySink, MemorySource};
use line_runs::run_directly;
use schema_patterns::bench::ScriptedMaker;
use serde_json::Value;
use std::alloc::Global;
use std::process::Abort;
use std::str;
use validator_program::{Documents, Validator, run};

fn built(rt: &impl Abort, alloc: Global, text: &str) -> Validator {
    let mut documents = Documents::new(alloc);
    documents
        .add_text("", text.as_bytes())
        .expect(rt, "a document");
    let options = Validator::options(alloc).expect(rt, "memory");
    options.build(&documents, "").expect(rt, "a validator")
}

// What is written, and the report or the error, by searches that are kept or not.
fn outcome(
    rt: &impl Abort,
    alloc: Global,
    schema: &str,
    is_kept: bool,
    mut source: MemorySource<'_>,
    mut sink: MemorySink,
) -> String {
    let validator = built(rt, alloc, schema);
    let end = if is_kept {
        run(alloc, &mut source, &mut sink, &validator)
    } else {
        run_directly(alloc, &mut source, &mut sink, &validator)
    };
    let end = match end {
        Ok(report) => format!(in alloc; "{} {}", report.lines, report.any_refused),
        Err(error) => format!(in alloc; "{error}"),
    }
    .expect(rt, "memory");
    let written = str::from_utf8(sink.as_slice()).expect(rt, "UTF-8");
    format!(in alloc; "{written}/ {end}").expect(rt, "memory")
}

const STRINGS: &str = "{\"type\":\"string\"}";

// Each a schema, the bytes, where the reader and the writer fail, and what is written and told.
type Row = (
    &'static str,
    &'static [u8],
    Option<usize>,
    Option<usize>,
    &'static str,
);

fn assert_runs(rt: &impl Abort, alloc: Global, piece: usize, rows: &[Row]) {
    for (schema, lines, reads, writes, want) in rows {
        for is_kept in [true, false] {
            let source = MemorySource::new(lines, piece, *reads);
            let sink = MemorySink::new(alloc, piece, *writes);
            assert_eq!(rt;
                outcome(rt, alloc, schema, is_kept, source, sink).as_str(),
                *want,
                "at a piece of {piece}"
            );
        }
    }
}

const LINES: [Row; 17] = [
    (STRINGS, b"\"a\"\n", None, None, "[]\n/ 1 false"),
    (STRINGS, b"\"a\"", None, None, "[]\n/ 1 false"),
    (STRINGS, b"", None, None, "/ 0 false"),
    (STRINGS, b"\n", None, None, "null\n/ 1 true"),
    (STRINGS, b"\"a\"\n\n", None, None, "[]\nnull\n/ 2 true"),
    (
        STRINGS,
        b"\"\xff\"\n\"a\"\n",
        None,
        None,
        "null\n[]\n/ 2 true",
    ),
    (
        STRINGS,
        b"1.5\n1\n\"a\"",
        None,
        None,
        "null\n[[\"\",\"/type\"]]\n[]\n/ 3 true",
    ),
    (STRINGS, b"\"a\" \"b\"\n", None, None, "null\n/ 1 true"),
    (STRINGS, b" \"a\"\r\n", None, None, "[]\n/ 1 false"),
    (
        STRINGS,
        b"18446744073709551615\n",
        None,
        None,
        "[[\"\",\"/type\"]]\n/ 1 true",
    ),
    (
        STRINGS,
        b"18446744073709551616\n",
        None,
        None,
        "null\n/ 1 true",
    ),
    (
        STRINGS,
        b"-9223372036854775808\n",
        None,
        None,
        "[[\"\",\"/type\"]]\n/ 1 true",
    ),
    (
        STRINGS,
        b"-9223372036854775809\n",
        None,
        None,
        "null\n/ 1 true",
    ),
    (
        "{\"type\":\"integer\"}",
        b"1\n\"x\"\n1.5\n\n2",
        None,
        None,
        "[]\n[[\"\",\"/type\"]]\nnull\nnull\n[]\n/ 5 true",
    ),
    (
        "{\"properties\":{\"b\":{\"type\":\"null\"},\"a\":{\"type\":\"null\"}}}",
        b"{\"b\":1,\"a\":2}\n{}\n",
        None,
        None,
        "[[\"/a\",\"/properties/a/type\"],[\"/b\",\"/properties/b/type\"]]\n[]\n/ 2 true",
    ),
    (
        "{\"additionalProperties\":false,\"properties\":{\"foo\":{\"type\":\"string\"}},\"patternProperties\":{\"^bar\":{\"minimum\":5},\"spam$\":{\"maximum\":10}}}",
        b"{\"bar\":4,\"spam\":11,\"foo\":3,\"faz\":1}\n",
        None,
        None,
        "[[\"\",\"/additionalProperties\"],[\"/bar\",\"/patternProperties/^bar/minimum\"],[\"/foo\",\"/properties/foo/type\"],[\"/spam\",\"/patternProperties/spam$/maximum\"]]\n/ 1 true",
    ),
    (
        "{\"pattern\":\"^\\\\S*$\"}",
        b"\"a\\ufeffb\"\n\"a\\u0085b\"\n",
        None,
        None,
        "[[\"\",\"/pattern\"]]\n[]\n/ 2 true",
    ),
];

#[test]
fn kinds_of_lines_and_faults_in_order(rt: HostRuntime) {
    for piece in [1, 100] {
        assert_runs(&rt, rt.alloc(), piece, &LINES);
    }
}

const FAILING: &[u8] = b"\"a\"\n1.5\n\"bb\"\n";

const FAILURES: [Row; 4] = [
    (STRINGS, FAILING, Some(4), None, "[]\n/ Reading failed"),
    (
        STRINGS,
        FAILING,
        Some(9),
        None,
        "[]\nnull\n/ Reading failed",
    ),
    (STRINGS, FAILING, None, Some(3), "[]\n/ Writing failed"),
    (STRINGS, FAILING, None, Some(5), "[]\nnu/ Writing failed"),
];

#[test]
fn failures(rt: HostRuntime) {
    assert_runs(&rt, rt.alloc(), 1, &FAILURES);
    assert_runs(&rt, rt.alloc(), 2, &FAILURES);
}

#[test]
fn by_nesting(rt: HostRuntime) {
    let alloc = rt.alloc();
    for (depth, want) in [(127, "[]\n/ 1 false"), (128, "null\n/ 1 true")] {
        let mut line = Vec::new(alloc);
        for _ in 0..depth {
            line.push(b'[').expect(&rt, "memory");
        }
        for _ in 0..depth {
            line.push(b']').expect(&rt, "memory");
        }
        let source = MemorySource::new(&line, 100, None);
        let sink = MemorySink::new(alloc, 100, None);
        assert_eq!(rt;
            outcome(&rt, alloc, "{}", true, source, sink).as_str(),
            want
        );
    }
}

// A match that stays unfinished is assumed both ways: by neither is it known that `not` accepts.
#[test]
fn by_matches_that_stay_unfinished(rt: HostRuntime) {
    let alloc = rt.alloc();
    let mut maker = ScriptedMaker::new(alloc);
    maker
        .leave_unfinished(alloc, "(?<=ab)c")
        .expect(&rt, "memory");
    let schema = Value::from_str(alloc, "{\"not\":{\"pattern\":\"(?<=ab)c\"}}").expect(&rt, "JSON");
    let validator = Validator::new(alloc, schema, maker).expect(&rt, "a validator");
    let mut source = MemorySource::new(b"\"abc\"\n1\n", 100, None);
    let mut sink = MemorySink::new(alloc, 100, None);
    let report = run_directly(alloc, &mut source, &mut sink, &validator).expect(&rt, "a run");
    assert!(rt; report.any_refused);
    assert_eq!(rt;
        str::from_utf8(sink.as_slice()).expect(&rt, "UTF-8"),
        "[[\"\",\"/not/pattern\"]]\n[[\"\",\"/not\"]]\n"
    );
}
