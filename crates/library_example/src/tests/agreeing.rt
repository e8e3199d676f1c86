// Validators built on two registries of equal documents, validators that are asked twice, and what is printed of them.
use crate::tests::answers::{faults, outcome};
use crate::tests::given::{documents_of, json, options_of};
use json_schema_validator::{
    ErrorIterator, SchemaRegistry, Validator, answers_on_both, build_on_both, is_valid_by_both,
    is_valid_twice, iter_errors_by_both, iter_errors_twice,
};
use std::alloc::Global;
use std::fmt::Debug;
use std::process::Abort;

const CASE: &str = r##"base http://a.test/r
document <http://a.test/s> {"type":"string"}
document <http://a.test/r> {"required":["a","b","c"],"properties":{"c":{"$ref":"s"}}}
"##;

const INSTANCE: &str = r##"{"c":1}"##;

const FAULTS: &str = "#/c #/properties/c/$ref/type, # #/required, # #/required";

fn registry_of(rt: &impl Abort, alloc: Global) -> SchemaRegistry {
    options_of(rt, alloc, CASE)
        .prepare(&documents_of(rt, alloc, CASE, "document <"))
        .expect(rt, "a registry")
}

fn validator_of(rt: &impl Abort, alloc: Global) -> Validator {
    options_of(rt, alloc, CASE)
        .build_on(&registry_of(rt, alloc), "")
        .expect(rt, "a validator")
}

// Holds a refusal and its faults, told twice, against what is wanted.
fn assert_both(
    rt: &impl Abort,
    alloc: Global,
    verdicts: (bool, bool),
    errors: (ErrorIterator<'_>, ErrorIterator<'_>),
) {
    assert!(rt; verdicts == (false, false), "{} {}", verdicts.0, verdicts.1);
    assert_eq!(rt; faults(rt, alloc, errors.0).as_str(), FAULTS);
    assert_eq!(rt; faults(rt, alloc, errors.1).as_str(), FAULTS);
}

fn assert_built(rt: &impl Abort, alloc: Global, root: &str, want: &str) {
    let (left, right) = (registry_of(rt, alloc), registry_of(rt, alloc));
    let both = build_on_both(&options_of(rt, alloc, CASE), &left, &right, root);
    assert_eq!(rt; outcome(rt, alloc, both.left, INSTANCE).as_str(), want);
    assert_eq!(rt; outcome(rt, alloc, both.right, INSTANCE).as_str(), want);
}

#[test]
fn built_on_equal_registries(rt: HostRuntime) {
    assert_built(&rt, rt.alloc(), "", "false");
    assert_built(&rt, rt.alloc(), "#/none", "Pointer '/none' does not exist");
}

#[test]
fn answered_on_equal_registries(rt: HostRuntime) {
    let alloc = rt.alloc();
    let (left, right) = (registry_of(&rt, alloc), registry_of(&rt, alloc));
    let value = json(&rt, alloc, INSTANCE);
    let both = answers_on_both(&options_of(&rt, alloc, CASE), &left, &right, "", &value);
    let both = both.expect(&rt, "answers");
    assert_both(&rt, alloc, both.verdicts, both.errors);
}

#[test]
fn answered_by_equal_validators(rt: HostRuntime) {
    let alloc = rt.alloc();
    let (left, right) = (validator_of(&rt, alloc), validator_of(&rt, alloc));
    let value = json(&rt, alloc, INSTANCE);
    let verdicts = is_valid_by_both(&left, &right, &value).expect(&rt, "memory");
    let errors = iter_errors_by_both(&left, &right, &value).expect(&rt, "memory");
    assert_both(&rt, alloc, verdicts, errors);
}

#[test]
fn asked_twice(rt: HostRuntime) {
    let alloc = rt.alloc();
    let validator = validator_of(&rt, alloc);
    let value = json(&rt, alloc, INSTANCE);
    let verdicts = is_valid_twice(&validator, &value).expect(&rt, "memory");
    let errors = iter_errors_twice(&validator, &value).expect(&rt, "memory");
    assert_both(&rt, alloc, verdicts, errors);
}

fn assert_printed(rt: &impl Abort, alloc: Global, printed: &impl Debug, want: &str) {
    let text = format!(in alloc; "{printed:?}").expect(rt, "memory");
    assert_eq!(rt; text.as_str(), want);
}

const VALIDATOR: &str = "Validator { schemas: 3, start: 0, draft: Draft202012, .. }";

const MAP: &str =
    r##"ValidatorMap { validators: {"": Validator { schemas: 1, start: 0, draft: Draft202012, .. }} }"##;

#[test]
fn printed(rt: HostRuntime) {
    let alloc = rt.alloc();
    assert_printed(&rt, alloc, &validator_of(&rt, alloc), VALIDATOR);
    let documents = documents_of(&rt, alloc, "document <> true", "document <");
    let map = options_of(&rt, alloc, "").build_map(&documents, "");
    assert_printed(&rt, alloc, &map.expect(&rt, "a map"), MAP);
}
