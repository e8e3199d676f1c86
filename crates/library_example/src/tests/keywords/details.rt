// What faults carry, written out.
use json_schema_validator::{ValidationError, ValidationErrorKind};
use std::alloc::Global;
use std::process::Abort;

// The kind, the value, and the paths of the value, of the schema and of evaluation.
fn write_fault(rt: &impl Abort, alloc: Global, text: &mut String, error: &ValidationError<'_>) {
    let value = error.instance();
    let instance = error.instance_path().to_pointer(alloc).expect(rt, "memory");
    let schema = error.schema_path().to_pointer(alloc).expect(rt, "memory");
    let evaluation = error
        .evaluation_path()
        .to_pointer(alloc)
        .expect(rt, "memory");
    write!(
        text,
        "{error} of {value} #{instance} #{schema} #{evaluation}; "
    )
    .expect(rt, "memory");
}

// The faults of each branch in brackets.
fn write_branches(
    rt: &impl Abort,
    alloc: Global,
    text: &mut String,
    context: &[Vec<ValidationError<'_>>],
) {
    for branch in context {
        text.push_str("[ ").expect(rt, "memory");
        for error in branch.iter() {
            write_fault(rt, alloc, text, error);
        }
        text.push_str("] ").expect(rt, "memory");
    }
}

fn write_kind(rt: &impl Abort, alloc: Global, text: &mut String, kind: &ValidationErrorKind<'_>) {
    match kind {
        ValidationErrorKind::AnyOf { context }
        | ValidationErrorKind::OneOfNotValid { context }
        | ValidationErrorKind::OneOfMultipleValid { context } => {
            write_branches(rt, alloc, text, context.branches());
        }
        ValidationErrorKind::PropertyNames { error } => write_fault(rt, alloc, text, error),
        ValidationErrorKind::Not { schema } => write!(text, "{schema} ").expect(rt, "memory"),
        ValidationErrorKind::AdditionalProperties { unexpected } => {
            for name in unexpected.iter() {
                write!(text, "{name} ").expect(rt, "memory");
            }
        }
        _ => write!(text, "{kind:?} ").expect(rt, "memory"),
    }
}

// A fault with what its kind carries, and what the fault of a name carries where it tells of one.
pub(crate) fn write_details(
    rt: &impl Abort,
    alloc: Global,
    text: &mut String,
    error: &ValidationError<'_>,
) {
    write_fault(rt, alloc, text, error);
    write_kind(rt, alloc, text, error.kind());
    if let ValidationErrorKind::PropertyNames { error } = error.kind() {
        write_kind(rt, alloc, text, error.kind());
    }
}
