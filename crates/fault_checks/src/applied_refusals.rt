//! What keywords that apply subschemas ask of a value, by those subschemas.
ghost use Rattle.std.specs.Prelude.{◌<◌, ◌≡◌, length, IfOk, IfErr, true};
ghost use Rattle.serde_json.specs.Data.{depth};
ghost use Rattle.serde_json.specs.View.{view};
ghost use Rattle.applicators.specs.Combined.{is_by_answers};
ghost use Rattle.plain_reader.specs.Applied.{EachInside};
ghost use Rattle.plain_reader.specs.Passed as code;
ghost use Rattle.fault_checks.specs.Verdicts.{AppliesIn};
ghost use Rattle.fault_checks.specs.Trials.{IsOtherRefused, IsAskedRefused, IsQuestionRefused};
ghost use Rattle.fault_checks.specs.Trials.{AreItsQuestions, IsSomeRefused, CountsAccepted, KeywordRefuses};
ghost use Rattle.plain_reader.specs.Returns.{Stops};
ghost use Rattle.fault_checks.specs.Circles.{OtherComesBack, AskedComesBack, QuestionComesBack, AppliedComesBack};

use crate::refusing::is_refused;
use crate::trial::Trial;
use applicators::applicator::Applicator;
use applicators::question::{Asked, Question};
use applicators::questions::questions;
use plain_reader::notes::is_noted;
use plain_reader::stop::Stop;
use serde_json::Value;

// Whether the schema refuses another value.
fn is_other_refused(trial: &Trial<'_, '_, '_>, value: &Value) -> Result<bool, Stop>
    ensures refused { IfOk result (λ b. IsOtherRefused trial.now (view value.now) b) }
    ensures stops { IfErr result (Stops (OtherComesBack trial.now (view value.now))) }
{
    let other = Trial {
        alloc: trial.alloc,
        site: trial.site,
        value,
    };
    is_refused(&other)
}

// Whether what a question asks of is refused.
fn is_asked_refused(trial: &Trial<'_, '_, '_>, asked: Asked<'_>) -> Result<bool, Stop>
    ensures refused { IfOk result (λ b. IsAskedRefused trial.now asked.entry b) }
    ensures stops { IfErr result (Stops (AskedComesBack trial.now asked.entry)) }
{
    match asked {
        Asked::Value => is_refused(trial),
        Asked::Item { item, .. } => is_other_refused(trial, item),
        Asked::Member { member, .. } => is_other_refused(trial, member),
        Asked::Name(name) => {
            let text = Value::String(String::from_str(trial.alloc, name)?);
            is_other_refused(trial, &text)
        }
    }
}

// Whether a question's answer is no.
fn is_question_refused<'r>(
    trial: &Trial<'_, 'r, '_>,
    question: Question<'r, '_>,
) -> Result<bool, Stop>
    requires inside { depth (view question.subschema.schema.now) < depth (view trial.now.site.now.contents.now) }
    ensures refused { IfOk result (λ b. IsQuestionRefused trial.now question.entry b) }
    ensures stops { IfErr result (Stops (QuestionComesBack trial.now question.entry)) }
{
    let inner = trial.site.below(trial.alloc, question.subschema.schema)?;
    let below = Trial {
        alloc: trial.alloc,
        site: &inner,
        value: trial.value,
    };
    is_asked_refused(&below, question.asked)
}

// Whether one of them is answered no.
fn some_of_refused<'r>(
    trial: &Trial<'_, 'r, '_>,
    applicator: &Applicator<'r>,
    asked: &[Question<'r, '_>],
) -> Result<bool, Stop>
    requires by_answers { is_by_answers applicator.now ≡ true }
    requires inside { EachInside trial.now.site.now applicator.now }
    requires asked { AreItsQuestions trial.now applicator.now asked.now }
    ensures refused { IfOk result (λ b. IsSomeRefused trial.now applicator.now b) }
    ensures stops { IfErr result (Stops (AppliedComesBack trial.now applicator.now)) }
{
    for question in asked {
        if is_question_refused(trial, *question)? {
            return Ok(true);
        }
    }
    Ok(false)
}

// How many of them are answered yes.
fn accepted_of<'r>(
    trial: &Trial<'_, 'r, '_>,
    applicator: &Applicator<'r>,
    asked: &[Question<'r, '_>],
) -> Result<usize, Stop>
    requires by_answers { is_by_answers applicator.now ≡ true }
    requires inside { EachInside trial.now.site.now applicator.now }
    requires asked { AreItsQuestions trial.now applicator.now asked.now }
    ensures counts { IfOk result (λ n. CountsAccepted trial.now applicator.now (length asked.now) n) }
    ensures stops { IfErr result (Stops (AppliedComesBack trial.now applicator.now)) }
{
    let mut accepted = 0;
    for question in asked {
        if !is_question_refused(trial, *question)? {
            accepted += 1;
        }
    }
    Ok(accepted)
}

/// Whether an applicator refuses a value under a name, where it may refuse under that name.
///
/// It takes memory for the list of questions.
pub fn applicator_refuses<'r>(
    trial: &Trial<'_, 'r, '_>,
    applicator: &Applicator<'r>,
    name: &str,
) -> Result<bool, Stop>
    requires applies { AppliesIn trial.now.site.now applicator.now }
    ensures refuses { IfOk result (λ b. KeywordRefuses trial.now (code.Applicator applicator.now) name.now b) }
    ensures stops { IfErr result (Stops (AppliedComesBack trial.now applicator.now)) }
{
    let value = trial.value;
    let asked = questions(trial.alloc, trial.site.matches, applicator, value)?;
    let asked = asked.as_slice();
    if applicator.is_every() {
        if is_noted(applicator, value) {
            return Ok(true);
        }
        return some_of_refused(trial, applicator, asked);
    }
    let accepted = accepted_of(trial, applicator, asked)?;
    if applicator.refused_name(accepted) != name {
        return Ok(false);
    }
    Ok(!applicator.accepts(value, asked.len(), accepted))
}
