// The matches of an instance are those that the matchers tell of its texts and of its members' names.

use schema_patterns::PatternTable;
use schema_patterns::bench::{ScriptedMaker, ScriptedMatcher};
use schema_patterns::matches::Matches;
use serde_json::Value;
use std::alloc::Global;
use std::process::Abort;

fn table_of(rt: &impl Abort, alloc: Global) -> PatternTable<ScriptedMatcher> {
    let mut maker = ScriptedMaker::new(alloc);
    maker.add_match(alloc, "a.c", "abc").expect(rt, "memory");
    maker.add_match(alloc, "a.c", "axc").expect(rt, "memory");
    maker.leave_unfinished(alloc, "(a*)*b").expect(rt, "memory");
    let mut table = PatternTable::new(alloc);
    for pattern in ["a.c", "(a*)*b", "^x-"] {
        assert!(rt; table.add(alloc, &maker, pattern).is_ok(), "{pattern}");
    }
    table
}

fn read(rt: &impl Abort, alloc: Global, text: &str) -> Matches {
    let value: Value = serde_json::from_str(alloc, text).expect(rt, "JSON");
    Matches::read(alloc, &table_of(rt, alloc), &value).expect(rt, "memory")
}

fn assert_matches(
    rt: &impl Abort,
    alloc: Global,
    matches: &Matches,
    rows: &[(&str, &str, bool, bool)],
) {
    for (pattern, text, is_match, is_unfinished) in rows {
        let matched = matches.is_match(alloc, pattern, text).expect(rt, "memory");
        assert_eq!(rt; matched, *is_match, "{pattern} {text}");
        let unfinished = matches
            .is_unfinished(alloc, pattern, text)
            .expect(rt, "memory");
        assert_eq!(rt; unfinished, *is_unfinished, "{pattern} {text}");
    }
}

#[test]
fn reads_the_matches_of_texts_and_names(rt: HostRuntime) {
    let alloc = rt.alloc();
    let matches = read(&rt, alloc, r#"{"abc":["x-id",{"abd":"abc"}],"n":1}"#);
    assert_matches(
        &rt,
        alloc,
        &matches,
        &[
            ("a.c", "abc", true, false),
            ("a.c", "abd", false, false),
            ("a.c", "x-id", false, false),
            ("a.c", "axc", false, false),
            ("(a*)*b", "abc", false, true),
            ("(a*)*b", "n", false, true),
            ("(a*)*b", "axc", false, false),
            ("^x-", "x-id", true, false),
            ("^x-", "abc", false, false),
            ("^x-", "x-other", true, false),
        ],
    );
}
