// Makers and their matchers.

use regex_patterns::RegexMaker;
use schema_patterns::bench::ScriptedMaker;
use schema_patterns::{CompiledPattern, MatchAnswer, PatternError, PatternMaker, PatternMatcher};
use std::alloc::Global;
use std::process::Abort;

fn answer<P: PatternMaker>(
    alloc: Global,
    maker: &P,
    pattern: &str,
    text: &str,
) -> Result<MatchAnswer, PatternError> {
    Ok(CompiledPattern::new(alloc, maker, pattern)?.is_match(text))
}

fn assert_answers<P: PatternMaker>(
    rt: &impl Abort,
    alloc: Global,
    maker: &P,
    rows: &[(&str, &str, Result<MatchAnswer, PatternError>)],
) {
    for (pattern, text, want) in rows {
        assert_eq!(rt;
            answer(alloc, maker, pattern, text),
            *want,
            "{pattern} at {text}"
        );
    }
}

#[test]
fn searches_by_regex(rt: HostRuntime) {
    assert_answers(
        &rt,
        rt.alloc(),
        &RegexMaker,
        &[
            ("a.c", "xabcx", Ok(MatchAnswer::Yes)),
            ("spam$", "spam1", Ok(MatchAnswer::No)),
            ("^foo|bar", "a bar", Ok(MatchAnswer::Yes)),
            ("^bar", "abar", Ok(MatchAnswer::No)),
            (r"^\$ref$", "$ref", Ok(MatchAnswer::Yes)),
            ("^(a|b)$", "b", Ok(MatchAnswer::Yes)),
            (r"^\S*$", "a\u{feff}b", Ok(MatchAnswer::No)),
            (r"^\S*$", "a\u{85}b", Ok(MatchAnswer::Yes)),
            ("a(", "a(", Err(PatternError::BadPattern)),
        ],
    );
}

#[test]
fn answers_by_script(rt: HostRuntime) {
    let alloc = rt.alloc();
    let mut maker = ScriptedMaker::new(alloc);
    maker.refuse(alloc, "a(").expect(&rt, "memory");
    maker.refuse(alloc, "^a").expect(&rt, "memory");
    maker
        .leave_unfinished(alloc, "(?<=ab)c")
        .expect(&rt, "memory");
    maker.add_match(alloc, "a.c", "abc").expect(&rt, "memory");
    assert_answers(
        &rt,
        alloc,
        &maker,
        &[
            ("a(", "a(", Err(PatternError::BadPattern)),
            ("^a", "ab", Ok(MatchAnswer::Yes)),
            ("(?<=ab)c", "abc", Ok(MatchAnswer::Unfinished)),
            ("(?<=ab)c", "", Ok(MatchAnswer::Unfinished)),
            ("a.c", "abc", Ok(MatchAnswer::Yes)),
            ("a.c", "adc", Ok(MatchAnswer::No)),
            ("b.c", "abc", Ok(MatchAnswer::No)),
        ],
    );
}
