// Matches that stay unfinished, which are assumed both ways (Validation 6.3.3; Core 10.3.2.2).

ghost use Rattle.std.specs.Prelude.{◌≡◌, true, None};
ghost use Rattle.serde_json.specs.View.{view};
ghost use Rattle.json_schema_validator.specs.Numbers.{only_whole};

use crate::tests::answers::{listed, why};
use crate::tests::cases::assert_cases;
use crate::tests::given::{json, setting};
use crate::tests::patterns::{said, script_of};
use json_schema_validator::{PatternError, PatternMaker, ValidationError, Validator};
use schema_patterns::{MatchAnswer, PatternMatcher};
use serde_json::Value;
use std::alloc::Global;
use std::cell::Cell;
use std::process::Abort;

// The path of the instance, the two in the schema, and the kind.
fn placed(rt: &impl Abort, alloc: Global, error: &ValidationError<'_>) -> String {
    let instance = error.instance_path().to_pointer(alloc).expect(rt, "memory");
    let schema = error.schema_path().to_pointer(alloc).expect(rt, "memory");
    let evaluation = error
        .evaluation_path()
        .to_pointer(alloc)
        .expect(rt, "memory");
    let kind = error.kind().as_str();
    format!(in alloc; "#{instance} #{schema} #{evaluation} {kind}").expect(rt, "memory")
}

fn push_placed(rt: &impl Abort, alloc: Global, text: &mut String, error: &ValidationError<'_>) {
    let between = if text.is_empty() { "" } else { ", " };
    text.push_str(between).expect(rt, "memory");
    text.push_str(placed(rt, alloc, error).as_str())
        .expect(rt, "memory");
}

// The faults of a value, on which the verdict and the first fault have to agree.
fn assumed_by<M: PatternMatcher>(
    rt: &impl Abort,
    alloc: Global,
    validator: &Validator<M>,
    value: &Value,
) -> String
    requires whole { only_whole (view value.now) ≡ true }
{
    let mut text = String::new(alloc);
    let errors = listed(rt, alloc, validator.iter_errors(value).expect(rt, "memory"));
    for error in errors.as_slice() {
        push_placed(rt, alloc, &mut text, error);
    }
    let is_valid = validator.is_valid(value).expect(rt, "memory");
    assert!(rt; is_valid == text.is_empty(), "another verdict on {value}");
    let has_none = validator.validate(value).expect(rt, "memory").is_ok();
    assert!(rt; has_none == is_valid, "another first fault of {value}");
    if is_valid {
        text.push_str("valid").expect(rt, "memory");
    }
    text
}

pub(crate) fn assumed(rt: &impl Abort, alloc: Global, case: &str, input: &str) -> String {
    let text = setting(case, "document <> ").expect(rt, "a schema");
    let schema = Value::from_str(alloc, text).expect(rt, "JSON");
    match Validator::new(alloc, schema, script_of(rt, alloc, case)) {
        Ok(validator) => {
            let value = json(rt, alloc, input);
            assumed_by(rt, alloc, &validator, &value)
        }
        Err(error) => why(rt, alloc, error),
    }
}

const BOTH_WAYS: &str = r##"
document <> {"anyOf":[{"pattern":"(?<=ab)c"},{"not":{"pattern":"(?<=ab)c"}}]}
assumed "abc" => valid

# A fault that does not go by the match is told alone.
document <> {"pattern":"(?<=ab)c","maxLength":1}
assumed "abc" => # #/maxLength #/maxLength MaxLength
assumed "c" => # #/pattern #/pattern UnfinishedMatch
assumed 1 => valid

document <> {"not":{"pattern":"(?<=ab)c"}}
assumed "abc" => # #/not/pattern #/not/pattern UnfinishedMatch

document <> {"properties":{"a":{"pattern":"(?<=ab)c"},"b":{"type":"integer"}}}
assumed {"a":"abc","b":"x"} => #/b #/properties/b/type #/properties/b/type Types
assumed {"a":"abc","b":1} => #/a #/properties/a/pattern #/properties/a/pattern UnfinishedMatch

document <> {"$defs":{"s":{"pattern":"(?<=ab)c"}},"properties":{"x":{"$ref":"#/$defs/s"}}}
assumed {"x":"abc"} => #/x #/$defs/s/pattern #/properties/x/$ref/pattern UnfinishedMatch

# Which members a schema is asked of, and which names are allowed.
document <> {"patternProperties":{"(?<=ab)c":{"type":"integer"}}}
assumed {"abc":"x"} => # #/patternProperties #/patternProperties UnfinishedMatch
assumed {"abc":1} => valid

document <> {"propertyNames":{"pattern":"(?<=ab)c"}}
assumed {"abc":1} => # #/propertyNames/pattern #/propertyNames/pattern UnfinishedMatch

# What a branch tells goes by the match, so that no fault of the whole is one either way.
document <> {"anyOf":[{"type":"integer"},{"pattern":"(?<=ab)c","type":"null"}]}
assumed "abc" => # #/anyOf/1/pattern #/anyOf/1/pattern UnfinishedMatch

document <> {"oneOf":[{"pattern":"(?<=ab)c"},{"minLength":9},{"maxLength":1}]}
assumed "abc" => # #/oneOf/0/pattern #/oneOf/0/pattern UnfinishedMatch

# Five of them take 63 runs, and a sixth more than are made.
document <> {"$defs":{"s":{"anyOf":[{"pattern":"(?<=ab)c"},{"not":{"pattern":"(?<=ab)c"}}]}},"additionalProperties":{"$ref":"#/$defs/s"}}
assumed {"x1":"abc1","x2":"abc2","x3":"abc3","x4":"abc4","x5":"abc5"} => valid
assumed {"x1":"abc1","x2":"abc2","x3":"abc3","x4":"abc4","x5":"abc5","x6":"abc6"} => #/x1 #/$defs/s/anyOf/0/pattern #/additionalProperties/$ref/anyOf/0/pattern UnfinishedMatch
"##;

#[test]
fn both_ways(rt: HostRuntime) {
    assert_cases(&rt, rt.alloc(), "unfinished (?<=ab)c\n", BOTH_WAYS);
}

// A matcher that has no memory for any match, and what makes it.
#[derive(Drop)]
struct Starved;

impl PatternMatcher for Starved {
    ghost finds = { λ _ text. None };

    fn is_match(&self, _text: &str) -> MatchAnswer {
        MatchAnswer::NoMemory
    }
}

#[derive(Drop)]
struct StarvedMaker;

impl PatternMaker for StarvedMaker {
    type Matcher = Starved;

    ghost patterns = { λ _. record { makes = λ pattern. true; finished = λ pattern text. None } };

    fn make(&self, _alloc: Global, _pattern: &str) -> Result<Starved, PatternError> {
        Ok(Starved)
    }
}

#[test]
fn a_matcher_without_memory(rt: HostRuntime) {
    let alloc = rt.alloc();
    let schema = Value::from_str(alloc, r#"{"not":{"pattern":"a.c"}}"#).expect(&rt, "JSON");
    let validator = Validator::new(alloc, schema, StarvedMaker).expect(&rt, "a validator");
    let value = json(&rt, alloc, "\"abc\"");
    assert!(rt; validator.is_valid(&value).is_err());
    assert!(rt; validator.validate(&value).is_err());
    assert!(rt; validator.iter_errors(&value).is_err());
    assert!(rt; validator.decide(&value).is_err());
    let other = json(&rt, alloc, "1");
    assert!(rt; validator.iter_errors(&other).is_ok());
}

// A matcher that gives up on each match, or that has no memory for any, and what makes it: it has none for one pattern.
#[derive(Drop)]
struct Poor {
    is_starved: bool,
}

impl PatternMatcher for Poor {
    ghost finds = { λ _ text. None };

    fn is_match(&self, _text: &str) -> MatchAnswer {
        if self.is_starved {
            MatchAnswer::NoMemory
        } else {
            MatchAnswer::Unfinished
        }
    }
}

#[derive(Drop)]
struct PoorMaker;

impl PatternMaker for PoorMaker {
    type Matcher = Poor;

    ghost patterns = { λ _. record { makes = λ pattern. true; finished = λ pattern text. None } };

    fn make(&self, _alloc: Global, pattern: &str) -> Result<Poor, PatternError> {
        Ok(Poor {
            is_starved: pattern == "st.rved",
        })
    }
}

// No run asks the match that wants memory. The walk to where a match stays unfinished does.
#[test]
fn want_of_memory_on_the_way(rt: HostRuntime) {
    let alloc = rt.alloc();
    let text =
        r#"{"allOf":[{"anyOf":[{"type":"string"},{"pattern":"st.rved"}]},{"pattern":"op.n"}]}"#;
    let schema = Value::from_str(alloc, text).expect(&rt, "JSON");
    let validator = Validator::new(alloc, schema, PoorMaker).expect(&rt, "a validator");
    let value = json(&rt, alloc, "\"abc\"");
    assert!(rt; !validator.is_valid(&value).expect(&rt, "memory"));
    assert!(rt; validator.iter_errors(&value).is_err());
    assert!(rt; validator.validate(&value).is_err());
    let other = json(&rt, alloc, "1");
    assert!(rt; validator.iter_errors(&other).is_ok());
}

// A matcher that gives up on each match, and counts how often it is asked of one text.
#[derive(Drop)]
struct Counting<'c> {
    asked: &'c Cell<usize>,
}

impl<'c> PatternMatcher for Counting<'c> {
    ghost finds = { λ _ text. None };

    fn is_match(&self, text: &str) -> MatchAnswer {
        if text == "first" {
            self.asked.set(self.asked.get().wrapping_add(1));
        }
        MatchAnswer::Unfinished
    }
}

#[derive(Drop)]
struct CountingMaker<'c> {
    asked: &'c Cell<usize>,
}

impl<'c> PatternMaker for CountingMaker<'c> {
    type Matcher = Counting<'c>;

    ghost patterns = { λ _. record { makes = λ pattern. true; finished = λ pattern text. None } };

    fn make(&self, _alloc: Global, _pattern: &str) -> Result<Counting<'c>, PatternError> {
        Ok(Counting { asked: self.asked })
    }
}

// What is answered of a value by each call, and how often that call asked the match that it asks first.
fn counted(
    rt: &impl Abort,
    alloc: Global,
    validator: &Validator<Counting<'_>>,
    asked: &Cell<usize>,
    input: &str,
) -> String {
    let value = json(rt, alloc, input);
    let is_valid = validator.is_valid(&value).expect(rt, "memory");
    let by_verdict = asked.take();
    let decision = said(validator.decide(&value).expect(rt, "memory"));
    let by_decision = asked.take();
    let mut errors = validator.iter_errors(&value).expect(rt, "memory");
    let has_none = errors.next().is_none();
    let by_errors = asked.take();
    let has_no_first = validator.validate(&value).expect(rt, "memory").is_ok();
    let by_first = asked.take();
    format!(in alloc;
        "{is_valid} {by_verdict}, {decision} {by_decision}, {has_none} {by_errors}, {has_no_first} {by_first}"
    ).expect(rt, "memory")
}

const BOTH_ACCEPT: &str =
    r#"{"additionalProperties":{"if":{"pattern":"op.n"},"then":{"type":"string"},"else":{"type":"string"}}}"#;

// Each run asks the first member's match once. Where each asks five, they are answered in 32 ways, and 31 runs stop before: 63 in all.
// `is_valid` and `decide` make the run that stopped first once more, and where 64 runs do not decide, `iter_errors` and `validate` ask once
// more where the match stands.
#[test]
fn so_many_runs(rt: HostRuntime) {
    let alloc = rt.alloc();
    let asked = Cell::new(0);
    let schema = Value::from_str(alloc, BOTH_ACCEPT).expect(&rt, "JSON");
    let maker = CountingMaker { asked: &asked };
    let validator = Validator::new(alloc, schema, maker).expect(&rt, "a validator");
    let rows = [
        (r#"{"x1":"first"}"#, "true 4, accepted 4, true 3, true 3"),
        (
            r#"{"x1":"first","x2":"b","x3":"c","x4":"d","x5":"e"}"#,
            "true 64, accepted 64, true 63, true 63",
        ),
        (
            r#"{"x1":"first","x2":"b","x3":"c","x4":"d","x5":"e","x6":"f"}"#,
            "false 64, undecided 64, false 65, false 65",
        ),
    ];
    for (input, want) in rows {
        let got = counted(&rt, alloc, &validator, &asked, input);
        assert_eq!(rt; got.as_str(), want);
    }
}
