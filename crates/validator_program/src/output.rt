//! The forms of what is written for a line.

ghost use Rattle.std.specs.Prelude.{◌≡◌, IfOk, IfErr, OnErr, Some, option_map};
ghost use Rattle.line_cuts.specs.Cuts.{bytes_of};
ghost use Rattle.validator_program.specs.Outputs.{AnswersEachBy, BreaksBy, RunsBy, StopsBy, form_of};

use crate::fault::ProgramFault;
use line_cuts::{ByteSink, ByteSource};
use line_runs::{FormedRun, LineForm, RunError, Validator, answer_texts, run_in_form};
use std::alloc::Global;
use std::io;

/// What is written for a line.
#[derive(Clone, Copy, Debug, PartialEq, Eq)]
pub(crate) enum OutputForm {
    /// What this form has.
    Lines(LineForm),
    /// Nothing.
    Nothing,
}

// The form that a word names.
fn form_named(word: &str) -> Option<OutputForm>
    ensures { result ≡ form_of (Some word.now) }
{
    match word {
        "pairs" => Some(OutputForm::Lines(LineForm::Pairs)),
        "json" => Some(OutputForm::Lines(LineForm::Objects)),
        "text" => Some(OutputForm::Lines(LineForm::Sentences)),
        "none" => Some(OutputForm::Nothing),
        _ => None,
    }
}

/// The form that the words ask for.
///
/// # Errors
///
/// A word that names none.
pub(crate) fn read_form<'a>(output: Option<&'a str>) -> Result<OutputForm, ProgramFault<'a>>
    ensures { IfOk result (λ form. form_of (option_map (λ s. s.now) output.entry) ≡ Some form) }
{
    let Some(word) = output else {
        return Ok(OutputForm::Lines(LineForm::Pairs));
    };
    match form_named(word) {
        Some(form) => Ok(form),
        None => Err(ProgramFault::Output { word }),
    }
}

/// Answers each line of a reader in this form.
///
/// # Errors
///
/// Where reading, writing or memory fails.
pub(crate) fn run_in<S: ByteSource, K: ByteSink>(
    alloc: Global,
    form: OutputForm,
    reader: &mut S,
    writer: &mut K,
    validator: &Validator,
) -> Result<FormedRun, RunError>
    ensures ok { IfOk result (λ run. RunsBy validator.now form (S.remaining reader.old) (S.remaining reader.new)
        (K.contents writer.old) (K.contents writer.new) run.report) }
    ensures stops { IfErr result (λ e. StopsBy validator.now form e (S.remaining reader.old)
        (S.remaining reader.new) (K.contents writer.old) (K.contents writer.new)) }
{
    match form {
        OutputForm::Lines(form) => run_in_form(alloc, form, reader, writer, validator),
        OutputForm::Nothing => run_in_form(alloc, LineForm::Pairs, reader, &mut Nowhere, validator),
    }
}

/// Answers each of these texts in this form.
///
/// # Errors
///
/// Where writing or memory fails.
pub(crate) fn answer_in<K: ByteSink>(
    alloc: Global,
    form: OutputForm,
    names: &[&str],
    texts: &[Vec<u8>],
    writer: &mut K,
    validator: &Validator,
) -> Result<FormedRun, RunError>
    ensures ok { IfOk result (λ run. AnswersEachBy validator.now form (bytes_of texts.now) (K.contents writer.old)
        (K.contents writer.new) run.report) }
    ensures breaks { OnErr result (BreaksBy validator.now form (bytes_of texts.now) (K.contents writer.old)
        (K.contents writer.new)) }
{
    match form {
        OutputForm::Lines(form) => answer_texts(alloc, form, names, texts, writer, validator),
        OutputForm::Nothing => answer_texts(
            alloc,
            LineForm::Pairs,
            names,
            texts,
            &mut Nowhere,
            validator,
        ),
    }
}

// A sink that takes all bytes and keeps none.
#[derive(Drop)]
struct Nowhere;

impl ByteSink for Nowhere {
    ghost failures = { λ _. 0 };

    fn write(&mut self, bytes: &[u8]) -> io::Result<usize> {
        Ok(bytes.len())
    }
}
