//! Steps by other keywords that apply subschemas.
ghost use Rattle.std.specs.Prelude.{◌≡◌, ◌<◌, IfOk, length, None, true};
ghost use Rattle.serde_json.specs.Data.{depth};
ghost use Rattle.serde_json.specs.View.{view};
ghost use Rattle.schema_meaning.specs.Places.{value_after, called_after};
ghost use Rattle.applicators.specs.Combined.{asks_values};
ghost use Rattle.applicators.specs.Questions.{step_of};
ghost use Rattle.schema_patterns.specs.Read.{reads};
ghost use Rattle.fault_checks.specs.Passed.{AreAsked};
ghost use Rattle.fault_checks.specs.Rows.{applied_row};
ghost use Rattle.fault_checks.specs.Verdicts.{AppliesIn};
ghost use Rattle.fault_paths.specs.Laws.{OneAhead};
ghost use Rattle.fault_paths.specs.Obliged.{obliges};
ghost use Rattle.fault_checks.specs.Steps.{PassesThrough, LeadsInto, IsMore, IsNotLonger};

use crate::walk::{AtNames, Step, Walk};
use applicators::applicator::Applicator;
use applicators::asks::Asks;
use applicators::question::{Asked, Question};
use applicators::questions::questions;
use fault_paths::ahead::{Ahead, question_ahead};
use fault_paths::obliging::obliges;
use fault_paths::once::one_ahead;
use serde_json::Value;
use std::alloc::{AllocError, Global};

// What a question asks of; a name is never asked of here.
fn value_of<'i>(asked: Asked<'i>, value: &'i Value) -> &'i Value
    ensures { called_after None (step_of asked.entry) ≡ None
        → view result.now ≡ value_after (view value.now) (step_of asked.entry) }
{
    match asked {
        Asked::Value => value,
        Asked::Item { item, .. } => item,
        Asked::Member { member, .. } => member,
        Asked::Name(_) => value,
    }
}

/// The step to what a question asks of.
pub(crate) fn to_question<'r, 'i, 'p>(
    alloc: Global,
    walk: Walk<'r, 'i, 'p>,
    ahead: Ahead<'r, 'i, 'p>,
) -> Result<Step<'r, 'i, 'p>, AllocError>
    requires inside { depth (view ahead.question.subschema.schema.now) < depth (view walk.site.contents.now) }
    ensures { IfOk result (LeadsInto walk.entry ahead.entry) }
{
    let site = walk.site.below(alloc, ahead.question.subschema.schema)?;
    Ok(Step::On(Walk {
        site,
        value: value_of(ahead.question.asked, walk.value),
        instance: ahead.instance,
        evaluation: ahead.evaluation,
    }))
}

// The step by a keyword whose questions oblige.
fn along<'r, 'i, 'p>(
    alloc: Global,
    walk: Walk<'r, 'i, 'p>,
    applicator: &Applicator<'r>,
    asked: &[Question<'r, 'i>],
    after: Option<&'p str>,
) -> Result<Step<'r, 'i, 'p>, AllocError>
    requires applies { AppliesIn walk.site applicator.now }
    requires values { asks_values applicator.now ≡ true }
    requires more { IsMore walk.instance after }
    requires asked { AreAsked (reads walk.site.matches.now) applicator.now (view walk.value.now) asked.now }
    requires obliging { obliges applicator.now (length asked.now) ≡ true }
    requires once { OneAhead applicator.now (view walk.value.now) }
    ensures passes { IfOk result (PassesThrough walk.entry (applied_row applicator.now) after.entry) }
    ensures shorter { IfOk result (IsNotLonger after.entry) }
{
    match question_ahead(alloc, asked, walk.instance, after)? {
        None => Ok(Step::Answered(false)),
        Some(ahead) => to_question(alloc, walk, ahead),
    }
}

// The step by a keyword that asks the value, its items or its members.
fn through_questions<'r, 'i, 'p>(
    alloc: Global,
    walk: Walk<'r, 'i, 'p>,
    applicator: &Applicator<'r>,
    after: Option<&'p str>,
) -> Result<Step<'r, 'i, 'p>, AllocError>
    requires applies { AppliesIn walk.site applicator.now }
    requires values { asks_values applicator.now ≡ true }
    requires more { IsMore walk.instance after }
    ensures passes { IfOk result (PassesThrough walk.entry (applied_row applicator.now) after.entry) }
    ensures shorter { IfOk result (IsNotLonger after.entry) }
{
    one_ahead(applicator, walk.value);
    let asked = questions(alloc, walk.site.matches, applicator, walk.value)?;
    let asked = asked.as_slice();
    if obliges(applicator, asked.len()) {
        return along(alloc, walk, applicator, asked, after);
    }
    Ok(Step::Answered(false))
}

/// The step of a walk by another keyword that applies subschemas. It goes on to no subschema whose no is not the keyword's: to none of
/// `not`, and to one of `anyOf` or `oneOf` where there is no other. By `propertyNames` it goes on at the names.
///
/// It takes memory for the questions of the keyword, and looks at them in order.
pub fn through_applicator<'r, 'i, 'p>(
    alloc: Global,
    walk: Walk<'r, 'i, 'p>,
    applicator: &Applicator<'r>,
    after: Option<&'p str>,
) -> Result<Step<'r, 'i, 'p>, AllocError>
    requires applies { AppliesIn walk.site applicator.now }
    requires more { IsMore walk.instance after }
    ensures passes { IfOk result (PassesThrough walk.entry (applied_row applicator.now) after.entry) }
    ensures shorter { IfOk result (IsNotLonger after.entry) }
{
    match applicator.asks() {
        Asks::Names(schema) => Ok(Step::Named(AtNames {
            walk,
            keyword: applicator.name(),
            schema,
            evaluation: after,
        })),
        _ => through_questions(alloc, walk, applicator, after),
    }
}
