// What errors say in words, and what they carry of branches.
use crate::rows::assert_text;
use schema_reports::{ErrorContext, LazyLocation, ValidationError, ValidationErrorKind};
use schema_steps::Path;
use serde_json::Value;
use std::alloc::Global;
use std::process::Abort;

// An error at a keyword of a schema's second branch.
fn error_at<'v>(
    rt: &impl Abort,
    alloc: Global,
    kind: ValidationErrorKind<'v>,
    value: &'v Value,
    keyword: &str,
) -> ValidationError<'v> {
    let root = LazyLocation::new();
    let all = root.push_name("allOf");
    let branch = all.push_index(1);
    let road = branch.push_name(keyword);
    let at = road.to_path(alloc).expect(rt, "memory");
    ValidationError::new(alloc, kind, value, Path::root(), Path::root(), at).expect(rt, "memory")
}

fn said(rt: &impl Abort, alloc: Global, error: &ValidationError<'_>) -> String {
    let (keyword, message) = (error.keyword(), error.message());
    format!(in alloc; "{keyword} {message}").expect(rt, "memory")
}

fn assert_says<'v>(
    rt: &impl Abort,
    alloc: Global,
    kind: ValidationErrorKind<'v>,
    value: &'v Value,
    at: &str,
    want: &str,
) {
    let error = error_at(rt, alloc, kind, value, at);
    assert_text(rt, at, said(rt, alloc, &error), want);
}

// An error is at its keyword, but for a schema `false` and for the name of a member.
#[test]
fn errors_name_keywords(rt: HostRuntime) {
    let value = Value::Null;
    let counted = ValidationErrorKind::Contains;
    let want = "minContains Contains";
    assert_says(&rt, rt.alloc(), counted, &value, "minContains", want);
    let refused = ValidationErrorKind::FalseSchema;
    let want = "falseSchema FalseSchema";
    assert_says(&rt, rt.alloc(), refused, &value, "items", want);
    let short = ValidationErrorKind::MinLength { limit: 2 };
    let error = error_at(&rt, rt.alloc(), short, &value, "minLength");
    let error = Box::new(rt.alloc(), error).expect(&rt, "memory");
    let named = ValidationErrorKind::PropertyNames { error };
    let want = "propertyNames PropertyNames";
    assert_says(&rt, rt.alloc(), named, &value, "minLength", want);
}

// The errors of one branch, by their keywords.
fn branch<'v>(
    rt: &impl Abort,
    alloc: Global,
    value: &'v Value,
    keywords: &[&str],
) -> Vec<ValidationError<'v>> {
    let mut errors = Vec::new(alloc);
    for keyword in keywords {
        let kind = ValidationErrorKind::MinItems { limit: 1 };
        let error = error_at(rt, alloc, kind, value, keyword);
        errors.push(error).expect(rt, "memory");
    }
    errors
}

fn write_branches(rt: &impl Abort, output: &mut String, context: &ErrorContext<'_>) {
    for errors in context.branches() {
        for error in errors.iter() {
            output.push_str(error.keyword()).expect(rt, "memory");
            output.push(' ').expect(rt, "memory");
        }
        output.push(';').expect(rt, "memory");
    }
}

// A context gives back the errors of each of its branches, and so does the error that has it, with values of its own.
#[test]
fn contexts_have_branches(rt: HostRuntime) {
    let value = Value::Null;
    let mut branches = Vec::new(rt.alloc());
    let first = branch(&rt, rt.alloc(), &value, &["a", "b"]);
    branches.push(first).expect(&rt, "memory");
    let second = branch(&rt, rt.alloc(), &value, &["c"]);
    branches.push(second).expect(&rt, "memory");
    let context = ErrorContext::new(branches);
    let mut found = String::new(rt.alloc());
    write_branches(&rt, &mut found, &context);
    assert_text(&rt, "by hand", found, "a b ;c ;");
    let kind = ValidationErrorKind::AnyOf { context };
    let error = error_at(&rt, rt.alloc(), kind, &value, "anyOf");
    let owned = error.to_owned(rt.alloc()).expect(&rt, "memory");
    let mut found = String::new(rt.alloc());
    if let ValidationErrorKind::AnyOf { context } = owned.kind() {
        write_branches(&rt, &mut found, context);
    }
    assert_text(&rt, "owned", found, "a b ;c ;");
}
