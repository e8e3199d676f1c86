// What is told of values by schemas, held against rows.
ghost use Rattle.std.specs.Prelude.{◌≡◌, true};
ghost use Rattle.serde_json.specs.View.{view};
ghost use Rattle.json_schema_validator.specs.Numbers.{only_whole};

use crate::tests::answers::listed;
use crate::tests::keywords::details::write_details;
use json_schema_validator::{
    CheckAnswer, Documents, ErrorIterator, RegexMaker, SchemaRegistry, ValidationError,
    ValidationOptions, Validator, check_error, has_only_whole,
};
use serde_json::Value;
use std::alloc::Global;
use std::process::Abort;
use uri_references::uri::from_str;

pub(crate) fn value_of(rt: &impl Abort, alloc: Global, text: &str) -> Value
    ensures whole { only_whole (view result) ≡ true }
{
    let value = Value::from_str(alloc, text).expect(rt, "JSON");
    let is_whole = has_only_whole(&value);
    assert!(rt; is_whole, "{text}");
    value
}

pub(crate) fn documents_of(rt: &impl Abort, alloc: Global, uri: &str, text: &str) -> Documents {
    let mut documents = Documents::new(alloc);
    documents
        .add_text(uri, text.as_bytes())
        .expect(rt, "a document");
    documents
}

pub(crate) fn options_at(rt: &impl Abort, alloc: Global, base: &str) -> ValidationOptions {
    let base = from_str(alloc, base).expect(rt, "a URI");
    let options = Validator::options(alloc).expect(rt, "memory");
    options.with_base(base)
}

fn registry_of(rt: &impl Abort, alloc: Global, schema: &str) -> SchemaRegistry {
    let documents = documents_of(rt, alloc, "", schema);
    let options = Validator::options(alloc).expect(rt, "memory");
    options.prepare(&documents).expect(rt, "a registry")
}

fn validator_on(rt: &impl Abort, alloc: Global, registry: &SchemaRegistry) -> Validator {
    let options = Validator::options(alloc).expect(rt, "memory");
    options.build_on(registry, "").expect(rt, "a validator")
}

fn write_paths(rt: &impl Abort, alloc: Global, text: &mut String, error: &ValidationError<'_>) {
    let instance = error.instance_path().to_pointer(alloc).expect(rt, "memory");
    let evaluation = error
        .evaluation_path()
        .to_pointer(alloc)
        .expect(rt, "memory");
    write!(text, "#{instance} #{evaluation}; ").expect(rt, "memory");
}

fn write_error(
    rt: &impl Abort,
    alloc: Global,
    text: &mut String,
    error: &ValidationError<'_>,
    is_detailed: bool,
) {
    if is_detailed {
        write_details(rt, alloc, text, error);
    } else {
        write_paths(rt, alloc, text, error);
    }
}

fn assert_accepted(
    rt: &impl Abort,
    alloc: Global,
    registry: &SchemaRegistry,
    value: &Value,
    error: &ValidationError<'_>,
)
    requires whole { only_whole (view value.now) ≡ true }
{
    let answer = check_error(alloc, registry, "", &RegexMaker, value, error);
    assert_eq!(rt;
        answer.expect(rt, "memory"),
        CheckAnswer::Accepted,
        "{value}"
    );
}

fn errors_of<'v>(rt: &impl Abort, validator: &Validator, value: &'v Value) -> ErrorIterator<'v>
    requires whole { only_whole (view value.now) ≡ true }
{
    validator.iter_errors(value).expect(rt, "memory")
}

// The faults of a value, each of which the check has to accept.
fn told(
    rt: &impl Abort,
    alloc: Global,
    registry: &SchemaRegistry,
    value: &Value,
    errors: ErrorIterator<'_>,
    is_detailed: bool,
) -> String
    requires whole { only_whole (view value.now) ≡ true }
{
    let mut text = String::new(alloc);
    let errors = listed(rt, alloc, errors);
    for error in errors.as_slice() {
        assert_accepted(rt, alloc, registry, value, error);
        write_error(rt, alloc, &mut text, error, is_detailed);
    }
    text
}

fn first_told(
    rt: &impl Abort,
    alloc: Global,
    validator: &Validator,
    value: &Value,
    is_detailed: bool,
) -> String
    requires whole { only_whole (view value.now) ≡ true }
{
    let mut text = String::new(alloc);
    if let Err(error) = validator.validate(value).expect(rt, "memory") {
        write_error(rt, alloc, &mut text, &error, is_detailed);
    }
    text
}

// The other two observers have to agree: one keeps the first of all the faults, the other the verdict.
fn assert_verdict(
    rt: &impl Abort,
    alloc: Global,
    validator: &Validator,
    value: &Value,
    all: &str,
    is_detailed: bool,
)
    requires whole { only_whole (view value.now) ≡ true }
{
    let first = first_told(rt, alloc, validator, value, is_detailed);
    let accepts = validator.is_valid(value).expect(rt, "memory");
    assert!(rt; all.starts_with(first.as_str()), "{value}");
    assert!(rt;
        first.is_empty() == all.is_empty() && accepts == all.is_empty(),
        "{value}"
    );
}

// What is told of a value by the three observers, and by the check of each fault.
fn told_on(
    rt: &impl Abort,
    alloc: Global,
    registry: &SchemaRegistry,
    value: &Value,
    is_detailed: bool,
) -> String
    requires whole { only_whole (view value.now) ≡ true }
{
    let validator = validator_on(rt, alloc, registry);
    let errors = errors_of(rt, &validator, value);
    let text = told(rt, alloc, registry, value, errors, is_detailed);
    assert_verdict(rt, alloc, &validator, value, text.as_str(), is_detailed);
    text
}

fn told_by(rt: &impl Abort, alloc: Global, schema: &str, value: &str, is_detailed: bool) -> String {
    let registry = registry_of(rt, alloc, schema);
    let value = value_of(rt, alloc, value);
    told_on(rt, alloc, &registry, &value, is_detailed)
}

fn assert_row(rt: &impl Abort, alloc: Global, schema: &str, row: &str, is_detailed: bool) {
    let (value, want) = row.split_once(" :: ").expect(rt, "a value and its faults");
    let text = told_by(rt, alloc, schema, value, is_detailed);
    let found = if text.is_empty() {
        "valid"
    } else {
        text.trim()
    };
    assert_eq!(rt; found, want, "{schema} of {row}");
}

// A schema with its rows below it.
fn assert_block(rt: &impl Abort, alloc: Global, block: &str, is_detailed: bool) {
    let (schema, rows) = block.split_once('\n').expect(rt, "a schema with rows");
    for row in rows.lines() {
        assert_row(rt, alloc, schema, row.trim(), is_detailed);
    }
}

fn assert_blocks(rt: &impl Abort, alloc: Global, blocks: &str, is_detailed: bool) {
    let blocks = blocks.trim().strip_prefix("- ").expect(rt, "a schema");
    for block in blocks.split("\n- ") {
        assert_block(rt, alloc, block, is_detailed);
    }
}

// Schemas, each behind a dash, with rows of a value and its faults below it. A fault is the paths of the value and of evaluation, each
// behind a #, and ends with a semicolon.
pub(crate) fn assert_told(rt: &impl Abort, alloc: Global, blocks: &str) {
    assert_blocks(rt, alloc, blocks, false);
}

// The same with all that is told of each fault.
pub(crate) fn assert_detailed(rt: &impl Abort, alloc: Global, blocks: &str) {
    assert_blocks(rt, alloc, blocks, true);
}
