//! The answers of checks in words.
ghost use Rattle.std.specs.Prelude.{◌≡◌, ◌∷◌, ◌++◌, [], Some, IfOk, option_map, string_bytes};
ghost use Rattle.serde_json.specs.Data.{string};
ghost use Rattle.serde_json.specs.View.{view};
ghost use Rattle.serde_json.specs.Written.{compact_text};
ghost use Rattle.answer_checks.specs.Words.{answers_data, checked_text, is_doubtful, is_refusal, word_of};

use fault_checks::checking::CheckAnswer;
use serde_json::Value;
use std::alloc::{AllocError, Global};

// An answer's word.
fn word_of(answer: CheckAnswer) -> &'static str
    ensures { result.now ≡ word_of answer }
{
    match answer {
        CheckAnswer::Accepted => "accepted",
        CheckAnswer::Refused => "refused",
        CheckAnswer::Circular => "circular",
        CheckAnswer::Unfinished => "unfinished",
    }
}

// Its word as a JSON text.
fn word_value(alloc: Global, answer: CheckAnswer) -> Result<Value, AllocError>
    ensures { IfOk result (λ v. view v ≡ string (word_of answer)) }
{
    Ok(Value::String(String::from_str(alloc, word_of(answer))?))
}

// The JSON list of the words.
fn words_value(alloc: Global, answers: &[CheckAnswer]) -> Result<Value, AllocError>
    ensures { IfOk result (λ v. view v ≡ answers_data answers.now) }
{
    let mut words = Vec::new(alloc);
    for answer in answers {
        words.push(word_value(alloc, *answer)?)?;
    }
    Ok(Value::Array(words))
}

// The JSON text of that list.
fn list_text(alloc: Global, answers: &[CheckAnswer]) -> Result<String, AllocError>
    ensures { IfOk result (λ s. string_bytes s ≡ compact_text (answers_data answers.now)) }
{
    words_value(alloc, answers)?.to_string(alloc)
}

// What is written for a line, but for its line end.
fn line_text(alloc: Global, answers: &Option<Vec<CheckAnswer>>) -> Result<String, AllocError>
    ensures { IfOk result (λ s. string_bytes s ++ 10 ∷ [] ≡ checked_text (option_map (λ v. v.items) answers.now)) }
{
    match answers {
        Some(answers) => list_text(alloc, answers.as_slice()),
        None => String::from_str(alloc, "null"),
    }
}

/// What is written for a line: the list of its answers in words, or `null` where there are none, and a line end.
///
/// # Errors
///
/// Where memory was refused.
pub(crate) fn checked_text(
    alloc: Global,
    answers: &Option<Vec<CheckAnswer>>,
) -> Result<String, AllocError>
    ensures { IfOk result (λ s. string_bytes s ≡ checked_text (option_map (λ v. v.items) answers.now)) }
{
    let mut text = line_text(alloc, answers)?;
    text.push_str("\n")?;
    Ok(text)
}

// Whether it is another than that it is accepted.
fn is_refusal(answer: CheckAnswer) -> bool
    ensures { result ≡ is_refusal answer }
{
    match answer {
        CheckAnswer::Accepted => false,
        CheckAnswer::Refused | CheckAnswer::Circular | CheckAnswer::Unfinished => true,
    }
}

// Whether one of these is.
fn is_one_doubtful(answers: &[CheckAnswer]) -> bool
    ensures { result ≡ is_doubtful (Some answers.now) }
{
    for answer in answers {
        if is_refusal(*answer) {
            return true;
        }
    }
    false
}

/// Whether there are no answers, or one of them is not that it is accepted.
pub(crate) fn is_doubtful(answers: &Option<Vec<CheckAnswer>>) -> bool
    ensures { result ≡ is_doubtful (option_map (λ v. v.items) answers.now) }
{
    match answers {
        Some(answers) => is_one_doubtful(answers.as_slice()),
        None => true,
    }
}
