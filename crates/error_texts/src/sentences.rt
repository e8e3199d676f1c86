//! A line for each error.
ghost use Rattle.std.specs.Prelude.{◌≡◌, ◌++◌, ℕ, List, IfOk, OnOk, string_bytes};
ghost use Rattle.std.specs.List.{AllZip, concat};
ghost use Rattle.schema_reports.specs.Left.{errors_left};
ghost use Rattle.error_texts.specs.Sentences.{IsSentence, joined, location_text, reason_line, sentence_line};

use schema_reports::{ErrorIterator, ValidationError};
use std::alloc::{AllocError, Global};

/// Appends a line for each error: the label, `:`, the place in the instance as a pointer's text, `: `, the description, and in brackets the
/// absolute location of the keyword; of an error that no validator told the road of evaluation. Where the description has further lines,
/// they stand below.
///
/// It costs what the descriptions cost. Where memory is out, some first lines can stand behind the text.
pub fn write_sentences(
    alloc: Global,
    label: &str,
    errors: ErrorIterator<'_>,
    text: &mut String,
) -> Result<(), AllocError>
    ensures { OnOk result ((lines : List (List ℕ)) × AllZip (IsSentence label.now) (errors_left errors.entry) lines
        × (string_bytes text.new ≡ string_bytes text.old ++ concat lines)) }
{
    for error in errors {
        write_owned(alloc, label, error, text)?;
    }
    Ok(())
}

// Appends the line of an error, and lets the error go.
fn write_owned(
    alloc: Global,
    label: &str,
    error: ValidationError<'_>,
    text: &mut String,
) -> Result<(), AllocError>
    ensures { OnOk result ((line : List ℕ) × IsSentence label.now error.entry line
        × (string_bytes text.new ≡ string_bytes text.old ++ line)) }
{
    write_sentence(alloc, label, &error, text)
}

/// Appends a line that says why a text is no value: the label, `: ` and the reason.
pub fn write_reason(label: &str, reason: &str, text: &mut String) -> Result<(), AllocError>
    ensures { OnOk result (string_bytes text.new ≡ string_bytes text.old ++ reason_line label.now reason.now) }
{
    push_parts(text, &[label, ": ", reason, "\n"])
}

fn write_sentence(
    alloc: Global,
    label: &str,
    error: &ValidationError<'_>,
    text: &mut String,
) -> Result<(), AllocError>
    ensures { OnOk result ((line : List ℕ) × IsSentence label.now error.now line
        × (string_bytes text.new ≡ string_bytes text.old ++ line)) }
{
    let description = error.description(alloc)?;
    let place = error.instance_path().to_pointer(alloc)?;
    let location = location_of(alloc, error)?;
    push_sentence(
        label,
        place.as_str(),
        description.as_str(),
        location.as_str(),
        text,
    )
}

// Where the keyword of an error stands, and the road to it where no validator told the error.
fn location_of(alloc: Global, error: &ValidationError<'_>) -> Result<String, AllocError>
    ensures { IfOk result (λ t. string_bytes t ≡ location_text error.now) }
{
    match error.absolute_keyword_location(alloc)? {
        Some(location) => Ok(location),
        None => error.evaluation_path().to_pointer(alloc),
    }
}

fn push_sentence(
    label: &str,
    place: &str,
    description: &str,
    location: &str,
    text: &mut String,
) -> Result<(), AllocError>
    ensures { OnOk result (string_bytes text.new ≡ string_bytes text.old
        ++ sentence_line label.now place.now description.now location.now) }
{
    match description.split_once('\n') {
        Some((first, more)) => push_parts(
            text,
            &[
                label, ":", place, ": ", first, " (", location, ")", "\n", more, "\n",
            ],
        ),
        None => push_parts(
            text,
            &[
                label,
                ":",
                place,
                ": ",
                description,
                " (",
                location,
                ")",
                "\n",
            ],
        ),
    }
}

// Appends texts one after another.
fn push_parts(text: &mut String, parts: &[&str]) -> Result<(), AllocError>
    ensures { OnOk result (string_bytes text.new ≡ string_bytes text.old ++ joined parts.now) }
{
    for part in parts {
        text.push_str(part)?;
    }
    Ok(())
}
