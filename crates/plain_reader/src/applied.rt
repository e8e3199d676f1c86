//! The verdict of a keyword that applies subschemas.
ghost use Rattle.std.specs.Prelude.{◌≡◌, ◌<◌, IfOk, IfErr, length, true};
ghost use Rattle.serde_json.specs.Data.{depth};
ghost use Rattle.serde_json.specs.View.{view};
ghost use Rattle.applicators.specs.Combined.{is_by_answers};
ghost use Rattle.plain_reader.specs.Applied.{EachInside, IsPart};
ghost use Rattle.plain_reader.specs.Readings.{ApplicatorAccepts, AreItsQuestions, EachAccepts};
ghost use Rattle.plain_reader.specs.Readings.{CountsAccepted, QuestionAccepts, PartAccepts};
ghost use Rattle.plain_reader.specs.Returns.{Stops};
ghost use Rattle.plain_reader.specs.Returning.{ApplicatorReturns, QuestionReturns, PartReturns};

use crate::names::accepts_name;
use crate::notes::is_noted;
use crate::read::accepts_schema;
use crate::settled::settles;
use crate::standing::Reading;
use crate::stop::Stop;
use applicators::applicator::Applicator;
use applicators::question::{Asked, Question};
use applicators::questions::questions;

// Whether an applicator accepts.
#[cycle(read)]
pub(crate) fn accepts_applicator<'r>(
    reading: &Reading<'_, 'r, '_>,
    applicator: &Applicator<'r>,
) -> Result<bool, Stop>
    requires answers { is_by_answers applicator.now ≡ true }
    requires inside { EachInside reading.now.site.now applicator.now }
    ensures accepts { IfOk result (ApplicatorAccepts reading.now applicator.now) }
    ensures stops { IfErr result (Stops (ApplicatorReturns reading.now applicator.now)) }
{
    let value = reading.value;
    let asked = questions(reading.alloc, reading.site.matches, applicator, value)?;
    let asked = asked.as_slice();
    if applicator.is_every() {
        if is_noted(applicator, value) {
            return Ok(false);
        }
        return accepts_each(reading, applicator, asked);
    }
    let accepted = count_accepted(reading, applicator, asked)?;
    Ok(applicator.combining().decides(value, asked.len(), accepted))
}

// Whether all the questions of an applicator are answered by yes.
#[cycle(read)]
fn accepts_each<'r, 'i>(
    reading: &Reading<'_, 'r, 'i>,
    applicator: &Applicator<'r>,
    asked: &[Question<'r, 'i>],
) -> Result<bool, Stop>
    requires answers { is_by_answers applicator.now ≡ true }
    requires inside { EachInside reading.now.site.now applicator.now }
    requires asked { AreItsQuestions reading.now applicator.now asked.now }
    ensures accepts { IfOk result (EachAccepts reading.now applicator.now) }
    ensures stops { IfErr result (Stops (ApplicatorReturns reading.now applicator.now)) }
{
    for question in asked {
        if !accepts_question(reading, *question)? {
            return Ok(false);
        }
    }
    Ok(true)
}

// How many of the answers to an applicator's questions are yes, as far as its verdict goes by that.
#[cycle(read)]
fn count_accepted<'r, 'i>(
    reading: &Reading<'_, 'r, 'i>,
    applicator: &Applicator<'r>,
    asked: &[Question<'r, 'i>],
) -> Result<usize, Stop>
    requires answers { is_by_answers applicator.now ≡ true }
    requires inside { EachInside reading.now.site.now applicator.now }
    requires asked { AreItsQuestions reading.now applicator.now asked.now }
    ensures counts { IfOk result (CountsAccepted reading.now applicator.now (length asked.now)) }
    ensures stops { IfErr result (Stops (ApplicatorReturns reading.now applicator.now)) }
{
    let mut accepted = 0;
    for (answered, question) in asked.iter().enumerate() {
        if settles(applicator.combining(), answered, accepted) {
            return Ok(accepted);
        }
        if accepts_question(reading, *question)? {
            accepted += 1;
        }
    }
    Ok(accepted)
}

// The answer to a question: whether its subschema accepts what it asks of.
#[cycle(read)]
pub(crate) fn accepts_question<'r, 'i>(
    reading: &Reading<'_, 'r, 'i>,
    question: Question<'r, 'i>,
) -> Result<bool, Stop>
    requires inside { depth (view question.subschema.schema.now) < depth (view reading.now.site.now.contents.now) }
    requires part { IsPart (view reading.now.value.now) question.asked }
    ensures accepts { IfOk result (QuestionAccepts reading.now question.entry) }
    ensures stops { IfErr result (Stops (QuestionReturns reading.now question.entry)) }
{
    let inner = reading
        .site
        .below(reading.alloc, question.subschema.schema)?;
    let below = Reading {
        alloc: reading.alloc,
        whole: reading.whole,
        site: &inner,
        value: reading.value,
        at: reading.at,
        progress: reading.progress,
    };
    accepts_part(&below, question.asked)
}

// Whether a schema accepts what is asked of.
#[cycle(read)]
fn accepts_part<'i>(reading: &Reading<'_, '_, 'i>, asked: Asked<'i>) -> Result<bool, Stop>
    requires part { IsPart (view reading.now.value.now) asked }
    ensures accepts { IfOk result (PartAccepts reading.now asked.entry) }
    ensures stops { IfErr result (Stops (PartReturns reading.now asked.entry)) }
{
    match asked {
        Asked::Value => accepts_schema(reading),
        Asked::Item { index, item } => {
            let instance = reading.at.push_index(index);
            let at = Reading {
                alloc: reading.alloc,
                whole: reading.whole,
                site: reading.site,
                value: item,
                at: &instance,
                progress: reading.progress,
            };
            accepts_schema(&at)
        }
        Asked::Member { name, member } => {
            let instance = reading.at.push_name(name);
            let at = Reading {
                alloc: reading.alloc,
                whole: reading.whole,
                site: reading.site,
                value: member,
                at: &instance,
                progress: reading.progress,
            };
            accepts_schema(&at)
        }
        Asked::Name(name) => accepts_name(reading, name),
    }
}
