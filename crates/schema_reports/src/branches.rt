//! What branches say, a line for each of their errors.
ghost use Rattle.std.specs.Prelude.{◌≡◌, ◌++◌, map, OnOk};
ghost use Rattle.schema_reports.specs.Phrases.{phrase_of};
ghost use Rattle.schema_reports.specs.Sentences as spec;

use crate::error::ValidationError;
use crate::kind::ValidationErrorKind as Kind;
use crate::phrases::Phrase;
use crate::sentences::{push, push_sentence};
use schema_steps::Path;
use std::alloc::AllocError;

/// Appends what the branches of a kind say.
pub(crate) fn push_branches_of<'e>(
    phrases: &mut Vec<Phrase<'e>>,
    kind: &'e Kind<'_>,
) -> Result<(), AllocError>
    ensures { OnOk result (map phrase_of phrases.new.items ≡ map phrase_of phrases.old.items ++ spec.branches_in_kind kind.now) }
{
    match kind {
        Kind::AnyOf { context } => push_branches(phrases, "anyOf", context.branches()),
        Kind::OneOfMultipleValid { context } | Kind::OneOfNotValid { context } => {
            push_branches(phrases, "oneOf", context.branches())
        }
        _ => Ok(()),
    }
}

fn push_branches<'e>(
    phrases: &mut Vec<Phrase<'e>>,
    keyword: &'static str,
    branches: &'e [Vec<ValidationError<'_>>],
) -> Result<(), AllocError>
    ensures { OnOk result (map phrase_of phrases.new.items ≡ map phrase_of phrases.old.items ++ spec.branches_said keyword.now 0 branches.now) }
{
    for (index, errors) in branches.iter().enumerate() {
        push_branch(phrases, keyword, index, errors)?;
    }
    Ok(())
}

fn push_branch<'e>(
    phrases: &mut Vec<Phrase<'e>>,
    keyword: &'static str,
    index: usize,
    errors: &'e Vec<ValidationError<'_>>,
) -> Result<(), AllocError>
    ensures { OnOk result (map phrase_of phrases.new.items ≡ map phrase_of phrases.old.items ++ spec.branch_said keyword.now index errors.now) }
{
    if errors.is_empty() {
        push_line(phrases, keyword, index)?;
        return push(phrases, Phrase::Words("it is accepted"));
    }
    push_lines(phrases, keyword, index, errors.as_slice())
}

fn push_lines<'e>(
    phrases: &mut Vec<Phrase<'e>>,
    keyword: &'static str,
    index: usize,
    errors: &'e [ValidationError<'_>],
) -> Result<(), AllocError>
    ensures { OnOk result (map phrase_of phrases.new.items ≡ map phrase_of phrases.old.items ++ spec.lines_of keyword.now index errors.now) }
{
    for error in errors {
        push_line(phrases, keyword, index)?;
        push_place(phrases, &error.instance_path)?;
        push_sentence(phrases, error)?;
    }
    Ok(())
}

// The begin of a line: the keyword, and the index of the branch.
fn push_line<'e>(
    phrases: &mut Vec<Phrase<'e>>,
    keyword: &'static str,
    index: usize,
) -> Result<(), AllocError>
    ensures { OnOk result (map phrase_of phrases.new.items ≡ map phrase_of phrases.old.items ++ spec.line_at keyword.now index) }
{
    push(phrases, Phrase::Words("\n  "))?;
    push(phrases, Phrase::Words(keyword))?;
    push(phrases, Phrase::Words("/"))?;
    push(phrases, Phrase::Count(index as u64))?;
    push(phrases, Phrase::Words(": "))
}

// Where a value stands, if it is not the whole instance.
fn push_place<'e>(phrases: &mut Vec<Phrase<'e>>, path: &'e Path) -> Result<(), AllocError>
    ensures { OnOk result (map phrase_of phrases.new.items ≡ map phrase_of phrases.old.items ++ spec.place_at path.now) }
{
    if path.is_root() {
        return Ok(());
    }
    push(phrases, Phrase::Place(path))?;
    push(phrases, Phrase::Words(": "))
}
