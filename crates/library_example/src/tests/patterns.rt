// Schemas with patterns, by makers of patterns (Validation 6.3.3; Core 10.3.2.2, 10.3.2.3).

ghost use Rattle.regex_patterns.specs.Searches.{is_regex, searched};

use crate::tests::answers::{assert_agreed, faults, why};
use crate::tests::cases::assert_cases;
use crate::tests::given::{documents_of, json, named, setting};
use json_schema_validator::{
    Decision, PatternError, PatternMaker, RegexMaker, RegexMatcher, ValidationOptions, Validator,
};
use schema_patterns::PatternMatcher;
use schema_patterns::bench::ScriptedMaker;
use serde_json::Value;
use std::alloc::Global;
use std::cell::Cell;
use std::process::Abort;

pub(crate) fn script_of(rt: &impl Abort, alloc: Global, case: &str) -> ScriptedMaker {
    let mut maker = ScriptedMaker::new(alloc);
    if let Some(pattern) = setting(case, "refuse ") {
        maker.refuse(alloc, pattern).expect(rt, "memory");
    }
    if let Some(pattern) = setting(case, "unfinished ") {
        maker.leave_unfinished(alloc, pattern).expect(rt, "memory");
    }
    for line in case.lines() {
        if let Some((pattern, text)) = named(line, "match <") {
            maker.add_match(alloc, pattern, text).expect(rt, "memory");
        }
    }
    maker
}

fn told<M: PatternMatcher>(
    rt: &impl Abort,
    alloc: Global,
    validator: &Validator<M>,
    input: &str,
) -> String {
    let value = json(rt, alloc, input);
    let errors = validator.iter_errors(&value).expect(rt, "memory");
    faults(rt, alloc, errors)
}

pub(crate) fn scripted(rt: &impl Abort, alloc: Global, case: &str, input: &str) -> String {
    let text = setting(case, "document <> ").expect(rt, "a schema");
    let schema = Value::from_str(alloc, text).expect(rt, "JSON");
    match Validator::new(alloc, schema, script_of(rt, alloc, case)) {
        Ok(validator) => told(rt, alloc, &validator, input),
        Err(error) => why(rt, alloc, error),
    }
}

pub(crate) fn said(decision: Decision) -> &'static str {
    match decision {
        Decision::Accepted => "accepted",
        Decision::Refused => "refused",
        Decision::Undecided => "undecided",
    }
}

pub(crate) fn decided(rt: &impl Abort, alloc: Global, case: &str, input: &str) -> String {
    let text = setting(case, "document <> ").expect(rt, "a schema");
    let schema = Value::from_str(alloc, text).expect(rt, "JSON");
    match Validator::new(alloc, schema, script_of(rt, alloc, case)) {
        Ok(validator) => {
            let value = json(rt, alloc, input);
            let decision = validator.decide(&value).expect(rt, "memory");
            String::from_str(alloc, said(decision)).expect(rt, "memory")
        }
        Err(error) => why(rt, alloc, error),
    }
}

const BY_A_SCRIPT: &str = r##"
match <spam$> spam
document <> {"additionalProperties":false,"properties":{"foo":{"type":"string"}},"patternProperties":{"^bar":{"minimum":5},"spam$":{"maximum":10}}}
scripted {"bar":4,"spam":11,"foo":3,"faz":1} => # #/additionalProperties, #/bar #/patternProperties/^bar/minimum, #/spam #/patternProperties/spam$/maximum, #/foo #/properties/foo/type

document <> {"patternProperties":{"spam$":{"maximum":10}}}
scripted {"bar":4,"spam":11,"foo":3,"faz":1} => valid

match <spam$> spam
document <> {"patternProperties":{"spam$":{"maximum":10}}}
scripted {"bar":4,"spam":11,"foo":3,"faz":1} => #/spam #/patternProperties/spam$/maximum

refuse spam$
document <> {"patternProperties":{"^bar":true,"spam$":true}}
scripted {"bar":4,"spam":11,"foo":3,"faz":1} => Pattern at 'json-schema:///#/patternProperties/spam$' is refused

refuse ^bar
document <> {"patternProperties":{"^bar":true,"spam$":true}}
scripted {"bar":4,"spam":11,"foo":3,"faz":1} => valid

# Matches that stay unfinished, answered both ways.
unfinished (?<=ab)c
document <> {"anyOf":[{"pattern":"(?<=ab)c"},{"not":{"pattern":"(?<=ab)c"}}]}
decided "abc" => accepted

unfinished (?<=ab)c
document <> {"pattern":"(?<=ab)c","maxLength":1}
decided "abc" => refused
decided 1 => accepted

unfinished (?<=ab)c
document <> {"not":{"pattern":"(?<=ab)c"}}
decided "abc" => refused

# Five of them take 63 runs, and a sixth more than are made.
unfinished (?<=ab)c
document <> {"$defs":{"s":{"anyOf":[{"pattern":"(?<=ab)c"},{"not":{"pattern":"(?<=ab)c"}}]}},"additionalProperties":{"$ref":"#/$defs/s"}}
decided {"x1":"abc1","x2":"abc2","x3":"abc3","x4":"abc4","x5":"abc5"} => accepted
decided {"x1":"abc1","x2":"abc2","x3":"abc3","x4":"abc4","x5":"abc5","x6":"abc6"} => undecided
"##;

#[test]
fn by_a_script(rt: HostRuntime) {
    assert_cases(&rt, rt.alloc(), "", BY_A_SCRIPT);
}

// Counts how often it is asked.
#[derive(Drop)]
struct CountingMaker<'c> {
    asked: &'c Cell<u32>,
}

impl PatternMaker for CountingMaker<'_> {
    type Matcher = RegexMatcher;

    ghost patterns = { λ _. record { makes = λ pattern. is_regex pattern; finished = λ pattern text. searched pattern text } };

    fn make(&self, alloc: Global, pattern: &str) -> Result<RegexMatcher, PatternError> {
        self.asked.set(self.asked.get().wrapping_add(1));
        RegexMaker.make(alloc, pattern)
    }
}

fn assert_accepts(rt: &impl Abort, alloc: Global, validator: &Validator, input: &str) {
    let value = json(rt, alloc, input);
    assert_agreed(rt, validator, &value, true);
}

const SHARED: &str =
    r##"document <> {"$defs":{"s":{"pattern":"a.c"}},"properties":{"x":{"$ref":"#/$defs/s"},"y":{"$ref":"#/$defs/s"}}}"##;

#[test]
fn makes_each_text_once(rt: HostRuntime) {
    let alloc = rt.alloc();
    let asked = Cell::new(0);
    let options: ValidationOptions<CountingMaker<'_>> = Validator::options(alloc)
        .expect(&rt, "memory")
        .with_pattern_maker(CountingMaker { asked: &asked });
    let documents = documents_of(&rt, alloc, SHARED, "document <");
    let registry = options.prepare(&documents).expect(&rt, "a registry");
    assert_eq!(rt; asked.get(), 0);
    let validator = options.build_on(&registry, "").expect(&rt, "a validator");
    assert_eq!(rt; asked.get(), 1);
    let found = told(&rt, alloc, &validator, r#"{"x":"abc","y":"b"}"#);
    assert_eq!(rt; found.as_str(), "#/y #/properties/y/$ref/pattern");
    assert_accepts(&rt, alloc, &validator, r#"{"x":"abc"}"#);
    assert_eq!(rt; asked.get(), 1);
}
