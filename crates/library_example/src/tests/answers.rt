// What validators answer, as text.
ghost use Rattle.std.specs.Prelude.{◌≡◌, true};
ghost use Rattle.serde_json.specs.View.{view};
ghost use Rattle.json_schema_validator.specs.Numbers.{only_whole};

use crate::tests::given::{Subject, built, documents_of, json, options_of, setting, subject_of};
use json_schema_validator::{
    BuildError, CheckAnswer, Checker, ErrorIterator, RegexMaker, SchemaRegistry, ValidationError,
    Validator, check_error,
};
use serde_json::Value;
use std::alloc::Global;
use std::process::Abort;

fn write_fault(rt: &impl Abort, text: &mut String, error: &ValidationError<'_>) {
    let between = if text.is_empty() { "#" } else { ", #" };
    text.push_str(between).expect(rt, "memory");
    error.instance_path().write_to(text).expect(rt, "memory");
    text.push_str(" #").expect(rt, "memory");
    error.evaluation_path().write_to(text).expect(rt, "memory");
}

// The instance path and the evaluation path of each error, or that there is none.
fn written(rt: &impl Abort, alloc: Global, errors: &[ValidationError<'_>]) -> String {
    if errors.is_empty() {
        return String::from_str(alloc, "valid").expect(rt, "memory");
    }
    let mut text = String::new(alloc);
    for error in errors {
        write_fault(rt, &mut text, error);
    }
    text
}

pub(crate) fn listed<'i>(
    rt: &impl Abort,
    alloc: Global,
    errors: ErrorIterator<'i>,
) -> Vec<ValidationError<'i>> {
    errors.collect(alloc).expect(rt, "memory")
}

pub(crate) fn faults(rt: &impl Abort, alloc: Global, errors: ErrorIterator<'_>) -> String {
    written(rt, alloc, listed(rt, alloc, errors).as_slice())
}

// Holds each fault of a value against the check, which has to accept it.
fn assert_accepted(
    rt: &impl Abort,
    alloc: Global,
    registry: &SchemaRegistry,
    value: &Value,
    errors: &[ValidationError<'_>],
)
    requires whole { only_whole (view value.now) ≡ true }
{
    for error in errors {
        let answer = check_error(alloc, registry, "", &RegexMaker, value, error);
        match answer.expect(rt, "memory") {
            CheckAnswer::Accepted => {}
            _ => panic!(rt; "a fault of {value} is not accepted"),
        }
    }
}

fn has_no_first(rt: &impl Abort, validator: &Validator, value: &Value) -> bool
    requires whole { only_whole (view value.now) ≡ true }
{
    validator.validate(value).expect(rt, "memory").is_ok()
}

// Holds the other two observers against whether there are no errors.
pub(crate) fn assert_agreed(rt: &impl Abort, validator: &Validator, value: &Value, is_valid: bool)
    requires whole { only_whole (view value.now) ≡ true }
{
    let found = validator.is_valid(value).expect(rt, "memory");
    assert!(rt; found == is_valid, "another verdict on {value}");
    let found = has_no_first(rt, validator, value);
    assert!(rt; found == is_valid, "another first fault of {value}");
}

// Holds a checker of the validator, asked twice, against what the validator tells.
fn assert_kept(rt: &impl Abort, alloc: Global, validator: &Validator, value: &Value, wanted: &str)
    requires whole { only_whole (view value.now) ≡ true }
{
    let mut checker = Checker::new(alloc, validator).expect(rt, "memory");
    for _ in 0..2 {
        let is_valid = checker.is_valid(value).expect(rt, "memory");
        assert!(rt;
            is_valid == (wanted == "valid"),
            "another verdict of a checker on {value}"
        );
        let errors = checker.iter_errors(value).expect(rt, "memory");
        let told = faults(rt, alloc, errors);
        assert_eq!(rt;
            told.as_str(),
            wanted,
            "other faults of a checker on {value}"
        );
    }
}

// The faults of a value, on which the three observers and a checker have to agree, and the check to accept each.
fn told_by(rt: &impl Abort, alloc: Global, subject: &Subject, value: &Value) -> String
    requires whole { only_whole (view value.now) ≡ true }
{
    let errors = subject.validator.iter_errors(value).expect(rt, "memory");
    let errors = listed(rt, alloc, errors);
    assert_agreed(rt, &subject.validator, value, errors.is_empty());
    assert_accepted(rt, alloc, &subject.registry, value, errors.as_slice());
    let told = written(rt, alloc, errors.as_slice());
    assert_kept(rt, alloc, &subject.validator, value, told.as_str());
    told
}

pub(crate) fn told(rt: &impl Abort, alloc: Global, case: &str, input: &str) -> String {
    let value = json(rt, alloc, input);
    told_by(rt, alloc, &subject_of(rt, alloc, case), &value)
}

// Its two paths in the schema, the instance and the kind.
pub(crate) fn described(rt: &impl Abort, alloc: Global, error: &ValidationError<'_>) -> String {
    let schema = error.schema_path().to_pointer(alloc).expect(rt, "memory");
    let evaluation = error
        .evaluation_path()
        .to_pointer(alloc)
        .expect(rt, "memory");
    let instance = error.instance();
    let kind = error.kind().as_str();
    format!(in alloc; "#{schema} #{evaluation} {instance} {kind}").expect(rt, "memory")
}

fn first_by(rt: &impl Abort, alloc: Global, validator: &Validator, value: &Value) -> String
    requires whole { only_whole (view value.now) ≡ true }
{
    match &validator.validate(value).expect(rt, "memory") {
        Err(error) => described(rt, alloc, error),
        Ok(()) => panic!(rt; "no fault of {value}"),
    }
}

pub(crate) fn first(rt: &impl Abort, alloc: Global, case: &str, input: &str) -> String {
    let value = json(rt, alloc, input);
    first_by(rt, alloc, &subject_of(rt, alloc, case).validator, &value)
}

fn location(rt: &impl Abort, alloc: Global, error: ValidationError<'_>) -> String {
    let owned = error.to_owned(alloc).expect(rt, "memory");
    let location = owned.absolute_keyword_location(alloc).expect(rt, "memory");
    location.expect(rt, "a location")
}

// Where the keyword of each fault stands, in any document.
pub(crate) fn stands(rt: &impl Abort, alloc: Global, case: &str, input: &str) -> String {
    let value = json(rt, alloc, input);
    let subject = subject_of(rt, alloc, case);
    let mut text = String::new(alloc);
    for error in subject.validator.iter_errors(&value).expect(rt, "memory") {
        let between = if text.is_empty() { "" } else { " " };
        text.push_str(between).expect(rt, "memory");
        text.push_str(location(rt, alloc, error).as_str())
            .expect(rt, "memory");
    }
    text
}

// Whether a value is valid; that there is a validator, where there is no value.
fn verdict(rt: &impl Abort, alloc: Global, validator: &Validator, input: &str) -> &'static str {
    if input.is_empty() {
        return "built";
    }
    let value = json(rt, alloc, input);
    if validator.is_valid(&value).expect(rt, "memory") {
        "true"
    } else {
        "false"
    }
}

// The fault that a meta-schema tells, behind the text of the refusal.
fn with_fault(rt: &impl Abort, alloc: Global, text: &str, fault: &ValidationError<'_>) -> String {
    let fault = described(rt, alloc, fault);
    format!(in alloc; "{text}: {fault}").expect(rt, "memory")
}

fn refusal(rt: &impl Abort, alloc: Global, error: &BuildError) -> String {
    let text = error.to_string(alloc).expect(rt, "memory");
    match error {
        BuildError::MetaSchema(refused) => with_fault(rt, alloc, text.as_str(), &refused.fault),
        _ => text,
    }
}

// The text of a refusal, and behind it the fault that a meta-schema tells.
pub(crate) fn why(rt: &impl Abort, alloc: Global, error: BuildError) -> String {
    refusal(rt, alloc, &error)
}

// The verdict on a value, or why there is no validator.
pub(crate) fn outcome(
    rt: &impl Abort,
    alloc: Global,
    built: Result<Validator, BuildError>,
    input: &str,
) -> String {
    match built {
        Ok(validator) => {
            String::from_str(alloc, verdict(rt, alloc, &validator, input)).expect(rt, "memory")
        }
        Err(error) => why(rt, alloc, error),
    }
}

pub(crate) fn build(rt: &impl Abort, alloc: Global, case: &str, input: &str) -> String {
    outcome(rt, alloc, built(rt, alloc, case), input)
}

pub(crate) fn within(rt: &impl Abort, alloc: Global, case: &str, limit: &str) -> String {
    let limit = limit.parse().expect(rt, "a number");
    let options = options_of(rt, alloc, case).with_node_limit(limit);
    let documents = documents_of(rt, alloc, case, "document <");
    let root = setting(case, "root ").unwrap_or("");
    outcome(rt, alloc, options.build(&documents, root), "")
}

pub(crate) fn alone(rt: &impl Abort, alloc: Global, case: &str, input: &str) -> String {
    let text = setting(case, "document <> ").expect(rt, "a schema");
    let schema = Value::from_str(alloc, text).expect(rt, "JSON");
    outcome(rt, alloc, Validator::new(alloc, schema, RegexMaker), input)
}
