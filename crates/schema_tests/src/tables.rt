// A table asks its maker once for a text, and not at all for a literal form.

ghost use Rattle.regex_patterns.specs.Searches.{is_regex, searched};

use regex_patterns::{RegexMaker, RegexMatcher};
use schema_patterns::{MatchAnswer, PatternError, PatternMaker, PatternMatcher, PatternTable};
use std::alloc::Global;
use std::cell::Cell;
use std::process::Abort;

// Counts how often it is asked.
#[derive(Drop)]
struct CountingMaker {
    asked: Cell<u32>,
}

impl PatternMaker for CountingMaker {
    type Matcher = RegexMatcher;

    ghost patterns = { λ _. record { makes = λ pattern. is_regex pattern; finished = λ pattern text. searched pattern text } };

    fn make(&self, alloc: Global, pattern: &str) -> Result<RegexMatcher, PatternError> {
        self.asked.set(self.asked.get().wrapping_add(1));
        RegexMaker.make(alloc, pattern)
    }
}

// Each pattern that is added, what comes of it, and how often the maker was asked by then.
fn assert_added(
    rt: &impl Abort,
    alloc: Global,
    table: &mut PatternTable<RegexMatcher>,
    rows: &[(&str, Result<usize, PatternError>, u32)],
) {
    let maker = CountingMaker {
        asked: Cell::new(0),
    };
    for (pattern, number, asked) in rows {
        assert_eq!(rt; table.add(alloc, &maker, pattern), *number, "{pattern}");
        assert_eq!(rt; maker.asked.get(), *asked, "{pattern}");
    }
}

#[test]
fn makes_each_text_once(rt: HostRuntime) {
    let alloc = rt.alloc();
    let mut table = PatternTable::new(alloc);
    assert_added(
        &rt,
        alloc,
        &mut table,
        &[
            ("a.c", Ok(0), 1),
            ("a.c", Ok(0), 1),
            ("^x-", Ok(1), 1),
            ("a(", Err(PatternError::BadPattern), 2),
            ("b.c", Ok(2), 3),
            ("a.c", Ok(0), 3),
        ],
    );
    let found = table.get("a.c").map(|pattern| pattern.is_match("abc"));
    assert_eq!(rt; found, Some(MatchAnswer::Yes));
    assert!(rt; table.get("a(").is_none());
    let (text, pattern) = table.at(1).expect(&rt, "a pattern");
    assert_eq!(rt; (text, pattern.is_match("x-id")), ("^x-", MatchAnswer::Yes));
    assert!(rt; table.at(3).is_none());
}
