// Lines that are given back as they came, over devices in memory.
ghost use Rattle.std.specs.Prelude.{◌≡◌, ◌∷◌, ◌++◌, []};
ghost use Rattle.line_cuts.specs.Runs.{is_refused};

use line_cuts::{LineAnswers, MemorySink, MemorySource, answer_lines, first_line};
use std::alloc::{AllocError, Global};
use std::process::Abort;
use std::str;

// Answers a text with itself, and counts those that it answers; it fails where the line is no text.
struct Echo;

impl LineAnswers for Echo {
    type Kept = u32;

    ghost answers = { λ _ line written. written ≡ line ++ 10 ∷ [] };

    ghost refuses = { λ _. is_refused };

    ghost keeps = { λ _ _. Unit };

    fn answer(&self, kept: &mut u32, line: &[u8], text: &mut String) -> Result<(), AllocError> {
        *kept = kept.wrapping_add(1);
        match str::from_utf8(line) {
            Ok(shown) => text.push_str(shown)?,
            Err(_) => return Err(AllocError),
        }
        text.push_str("\n")?;
        Ok(())
    }

    fn is_refused(&self, written: &[u8]) -> bool {
        written != b"[]\n".as_slice()
    }
}

// What is written, and the report or the error.
fn outcome(
    rt: &impl Abort,
    alloc: Global,
    mut source: MemorySource<'_>,
    mut sink: MemorySink,
) -> String {
    let end = match answer_lines(alloc, &mut source, &mut sink, &Echo, &mut 0) {
        Ok(report) => format!(in alloc; "{} {}", report.lines, report.any_refused),
        Err(error) => format!(in alloc; "{error}"),
    }
    .expect(rt, "memory");
    let written = str::from_utf8(sink.as_slice()).expect(rt, "UTF-8");
    format!(in alloc; "{written}/ {end}").expect(rt, "memory")
}

// Each the bytes, where the reader and the writer fail, and what is written and told.
type Row = (&'static [u8], Option<usize>, Option<usize>, &'static str);

const CUT: [Row; 15] = [
    (b"", None, None, "/ 0 false"),
    (b"\n", None, None, "\n/ 1 true"),
    (b"a\nbb", None, None, "a\nbb\n/ 2 true"),
    (b"a\n\n", None, None, "a\n\n/ 2 true"),
    (b"[]\n[]", None, None, "[]\n[]\n/ 2 false"),
    (b"[]\n[1]\n[]\n", None, None, "[]\n[1]\n[]\n/ 3 true"),
    (b"ab\ncd\ne", Some(0), None, "/ Reading failed"),
    (b"ab\ncd\ne", Some(2), None, "/ Reading failed"),
    (b"ab\ncd\ne", Some(3), None, "ab\n/ Reading failed"),
    (b"ab\ncd\ne", Some(5), None, "ab\n/ Reading failed"),
    (b"ab\ncd\ne", Some(6), None, "ab\ncd\n/ Reading failed"),
    (b"ab\ncd\ne", None, Some(0), "/ Writing failed"),
    (b"ab\ncd\ne", None, Some(3), "ab\n/ Writing failed"),
    (b"ab\ncd\ne", None, Some(7), "ab\ncd\ne/ Writing failed"),
    (b"ab\ncd\ne", Some(6), Some(4), "ab\nc/ Writing failed"),
];

const NO_TEXT: [Row; 1] = [(b"ab\n\xff\n", None, None, "ab\n/ No memory")];

fn assert_cut(rt: &impl Abort, alloc: Global, piece: usize, rows: &[Row]) {
    for (bytes, reads, writes, want) in rows {
        let source = MemorySource::new(bytes, piece, *reads);
        let sink = MemorySink::new(alloc, piece, *writes);
        assert_eq!(rt;
            outcome(rt, alloc, source, sink).as_str(),
            *want,
            "at a piece of {piece}"
        );
    }
}

#[test]
fn lines_in_pieces(rt: HostRuntime) {
    for piece in [1, 2, 3, 100] {
        assert_cut(&rt, rt.alloc(), piece, &CUT);
    }
    assert_cut(&rt, rt.alloc(), 3, &NO_TEXT);
}

#[test]
fn more_than_one_read(rt: HostRuntime) {
    let alloc = rt.alloc();
    let mut input = Vec::new(alloc);
    for length in [0, 7, 65536, 200000, 1, 65535] {
        for _ in 0..length {
            input.push(b'x').expect(&rt, "memory");
        }
        input.push(b'\n').expect(&rt, "memory");
    }
    let mut source = MemorySource::new(&input, usize::MAX, None);
    let mut sink = MemorySink::new(alloc, 60000, None);
    let mut kept = 0;
    let report = answer_lines(alloc, &mut source, &mut sink, &Echo, &mut kept);
    assert_eq!(rt; report.expect(&rt, "a run").lines, 6);
    assert_eq!(rt; kept, 6);
    assert!(rt; sink.as_slice() == input.as_slice());
}

#[test]
fn a_first_line(rt: HostRuntime) {
    let cut = first_line(b"ab\n\nc");
    assert!(rt; cut == Some((b"ab".as_slice(), b"\nc".as_slice())));
    assert!(rt; first_line(b"ab").is_none());
}
