//! The library at work: two documents, options, a value, and its faults, each checked against the documents alone; and a document that
//! is moved, which changes no answer.
#![tactic(auto)]

mod moving;
#[cfg(test)]
mod tests;

ghost use Rattle.std.specs.Prelude.{◌≡◌, true};
ghost use Rattle.serde_json.specs.View.{view};
ghost use Rattle.json_schema_validator.specs.Numbers.{only_whole};

use json_schema_validator::{
    BuildError, CheckAnswer, DocumentError, Documents, RegexMaker, SchemaRegistry, ValidationError,
    Validator, check_error, has_only_whole, uri,
};
use serde_json::Value;
use std::alloc::{AllocError, Global};
use std::process::ExitCode;

const ROOT: &str =
    r#"{"$id":"http://a.test/order","type":"object","required":["id","lines"],"properties":{"id":{"type":"integer","minimum":1},"lines":{"type":"array","items":{"$ref":"line"}}}}"#;

const LINE: &str =
    r#"{"$id":"http://a.test/line","properties":{"item":{"type":"string"},"count":{"type":"integer","minimum":1}}}"#;

const ORDER: &str = r#"{"id":0,"lines":[{"item":"nail","count":12},{"item":7,"count":0}]}"#;

#[derive(Debug, Drop)]
enum Failure {
    Uri,
    Document(DocumentError),
    Build(BuildError),
    Json(serde_json::Error),
    Numbers,
    Memory,
}

impl From<DocumentError> for Failure {
    fn from(error: DocumentError) -> Failure {
        Failure::Document(error)
    }
}

impl From<BuildError> for Failure {
    fn from(error: BuildError) -> Failure {
        Failure::Build(error)
    }
}

impl From<serde_json::Error> for Failure {
    fn from(error: serde_json::Error) -> Failure {
        Failure::Json(error)
    }
}

impl From<AllocError> for Failure {
    fn from(_error: AllocError) -> Failure {
        Failure::Memory
    }
}

fn documents(alloc: Global) -> Result<Documents, DocumentError> {
    let mut documents = Documents::new(alloc);
    documents.add_text("http://a.test/order", ROOT.as_bytes())?;
    documents.add_text("http://a.test/line", LINE.as_bytes())?;
    Ok(documents)
}

fn word(answer: CheckAnswer) -> &'static str {
    match answer {
        CheckAnswer::Accepted => "accepted",
        _ => "not accepted",
    }
}

// A line for a fault: its kind, its place in the value, the road through the schema, and what the check says of the two.
fn push_fault(
    alloc: Global,
    text: &mut String,
    registry: &SchemaRegistry,
    value: &Value,
    error: &ValidationError<'_>,
) -> Result<(), AllocError>
    requires whole { only_whole (view value.now) ≡ true }
{
    let answer = check_error(alloc, registry, "", &RegexMaker, value, error)?;
    text.push_str(error.message())?;
    text.push_str(" at ")?;
    error.instance_path().write_to(text)?;
    text.push_str(" by ")?;
    error.evaluation_path().write_to(text)?;
    text.push_str(": ")?;
    text.push_str(word(answer))?;
    text.push_str("\n")
}

fn report(alloc: Global) -> Result<String, Failure> {
    let Ok(base) = uri::from_str(alloc, "http://a.test/order") else {
        return Err(Failure::Uri);
    };
    let options = Validator::options(alloc)?.with_base(base);
    let registry = options.prepare(&documents(alloc)?)?;
    let validator = options.build_on(&registry, "")?;
    let value = Value::from_str(alloc, ORDER)?;
    let mut text = String::new(alloc);
    if !has_only_whole(&value) {
        return Err(Failure::Numbers);
    }
    for error in validator.iter_errors(&value)? {
        push_fault(alloc, &mut text, &registry, &value, &error)?;
    }
    Ok(text)
}

fn both(alloc: Global) -> Result<String, Failure> {
    let mut text = report(alloc)?;
    text.push_str(moving::report(alloc)?.as_str())?;
    Ok(text)
}

fn main(rt: HostRuntime) -> ExitCode {
    match both(rt.alloc()) {
        Ok(text) => match print!(rt; "{text}") {
            Ok(()) => ExitCode::SUCCESS,
            Err(_) => ExitCode::FAILURE,
        },
        Err(failure) => {
            let _ = eprintln!(rt; "{failure:?}");
            ExitCode::FAILURE
        }
    }
}
