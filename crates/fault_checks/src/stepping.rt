//! One step of a walk.
ghost use Rattle.std.specs.Prelude.{◌≡◌, ◌<◌, ◌∷◌, ◌||◌, IfOk, IfErr, is_some};
ghost use Rattle.serde_json.specs.View.{view};
ghost use Rattle.fault_checks.specs.Passed.{target_in};
ghost use Rattle.fault_checks.specs.Passed.{FindsTarget};
ghost use Rattle.fault_checks.specs.Rows.{reference_row};
ghost use Rattle.fault_paths.specs.Texts.{text_left};
ghost use Rattle.fault_checks.specs.Verdicts.{LiesIn};
ghost use Rattle.fault_checks.specs.Steps.{Passes, PassesAs, PassesBy, PassesThrough, IsMore, Ends, IsNotLonger, IsShorter};
ghost use Rattle.plain_reader.specs.Returns.{Stops};
ghost use Rattle.fault_checks.specs.Circles.{StepComesBack, MemberComesBack, WalkComesBack};

use crate::applied_steps::through_applicator;
use crate::choice_steps::through_condition;
use crate::names::{bears, member_of};
use crate::refusing::keyword_refuses;
use crate::trial::Trial;
use crate::walk::{Step, Walk};
use crate::{Keyword, ReferenceKeyword, Refusal, Resolved, at_target, keyword as read_keyword};
use fault_paths::members::member_named;
use fault_paths::parts::first_part;
use plain_reader::stop::Stop;
use serde_json::Value;
use std::alloc::{AllocError, Global};
use value_checks::rising::entries_rise;

// The step by a reference, to its target.
fn through_reference<'r, 'i, 'p>(
    alloc: Global,
    walk: Walk<'r, 'i, 'p>,
    keyword: ReferenceKeyword,
    text: &'r str,
    target: Resolved<'r>,
    after: Option<&'p str>,
) -> Result<Step<'r, 'i, 'p>, AllocError>
    requires found { FindsTarget walk.site keyword text.now target }
    requires more { IsMore walk.instance after }
    ensures passes { IfOk result (PassesThrough walk.entry
        (reference_row keyword text.now (target_in target.entry)) after.entry) }
    ensures shorter { IfOk result (IsNotLonger after.entry) }
{
    let site = at_target(&target, walk.site.matches)?;
    Ok(Step::On(Walk {
        site,
        value: walk.value,
        instance: walk.instance,
        evaluation: after,
    }))
}

// The step by a keyword, where something is left of a path behind its name.
fn through<'r, 'i, 'p>(
    alloc: Global,
    walk: Walk<'r, 'i, 'p>,
    keyword: Keyword<'r>,
    name: &str,
    after: Option<&'p str>,
) -> Result<Step<'r, 'i, 'p>, Stop>
    requires lies { LiesIn walk.site keyword }
    requires more { IsMore walk.instance after }
    ensures passes { IfOk result (PassesBy walk.entry keyword.entry name.now after.entry) }
    ensures shorter { IfOk result (IsNotLonger after.entry) }
    ensures stops { IfErr result (Stops (StepComesBack walk.entry keyword.entry)) }
{
    match keyword {
        Keyword::If {
            condition,
            then_schema,
            else_schema,
        } => {
            through_condition(
                alloc,
                walk,
                condition,
                then_schema,
                else_schema,
                name,
                after,
            )
        }
        Keyword::Applicator(applicator) => {
            Ok(through_applicator(alloc, walk, &applicator, after)?)
        }
        Keyword::Reference {
            keyword: by,
            text,
            target,
        } => { Ok(through_reference(alloc, walk, by, text, target, after)?) }
        Keyword::Nothing => Ok(Step::Answered(false)),
        Keyword::Consequent { .. } => Ok(Step::Answered(false)),
        Keyword::Pattern(_) => Ok(Step::Answered(false)),
        Keyword::Assertion(_assertion) => Ok(Step::Answered(false)),
    }
}

// Whether something is left of one of two paths.
fn is_more(instance: Option<&str>, after: Option<&str>) -> bool
    ensures { result ≡ (is_some instance.entry || is_some after.entry) }
{
    instance.is_some() || after.is_some()
}

// The step by a keyword under a name: where nothing is left of the paths behind it, whether it refuses.
fn by_keyword<'r, 'i, 'p>(
    alloc: Global,
    walk: Walk<'r, 'i, 'p>,
    keyword: Keyword<'r>,
    name: &str,
    after: Option<&'p str>,
) -> Result<Step<'r, 'i, 'p>, Stop>
    requires lies { LiesIn walk.site keyword }
    ensures passes { IfOk result (PassesBy walk.entry keyword.entry name.now after.entry) }
    ensures shorter { IfOk result (IsNotLonger after.entry) }
    ensures stops { IfErr result (Stops (StepComesBack walk.entry keyword.entry)) }
{
    if is_more(walk.instance, after) {
        return through(alloc, walk, keyword, name, after);
    }
    let trial = Trial {
        alloc,
        site: &walk.site,
        value: walk.value,
    };
    let refused = keyword_refuses(&trial, keyword, name)?;
    Ok(Step::Answered(refused))
}

// The step by the keyword of a member, where it may refuse under the name that the evaluation path goes on with.
fn by_member<'r, 'i, 'p>(
    alloc: Global,
    walk: Walk<'r, 'i, 'p>,
    name: &str,
    member: &str,
    keyword: Keyword<'r>,
    after: Option<&'p str>,
) -> Result<Step<'r, 'i, 'p>, Stop>
    requires lies { LiesIn walk.site keyword }
    ensures passes { IfOk result (PassesAs walk.entry keyword.entry name.now member.now after.entry) }
    ensures shorter { IfOk result (IsNotLonger after.entry) }
    ensures stops { IfErr result (Stops (MemberComesBack walk.entry keyword.entry name.now member.now)) }
{
    if !bears(&keyword, member, name) {
        return Ok(Step::Answered(false));
    }
    by_keyword(alloc, walk, keyword, name, after)
}

// Whether a schema is `false` where nothing is left of the instance's path.
fn ends_here(contents: &Value, instance: Option<&str>) -> bool
    ensures { Ends (view contents.now) instance.entry result }
{
    match contents {
        Value::Bool(false) => instance.is_none(),
        _ => false,
    }
}

// The step by the name that the evaluation path goes on with.
fn by_name<'r, 'i, 'p>(
    alloc: Global,
    walk: Walk<'r, 'i, 'p>,
    text: &'p str,
) -> Result<Step<'r, 'i, 'p>, Stop>
    requires text { text_left walk.evaluation ≡ 47 ∷ text.now }
    ensures passes { IfOk result (Passes walk.entry) }
    ensures shorter { IfOk result (IsShorter (47 ∷ text.now)) }
    ensures stops { IfErr result (Stops (WalkComesBack walk.entry)) }
{
    let (name, after) = first_part(text);
    let Value::Object(members) = walk.site.contents else {
        return Ok(Step::Answered(false));
    };
    entries_rise(members);
    let member = member_of(&walk.site, name);
    let Some(part) = member_named(members, member) else {
        return Ok(Step::Answered(false));
    };
    match read_keyword(alloc, &walk.site, members, member, part) {
        Ok(keyword) => by_member(alloc, walk, name, member, keyword, after),
        Err(refusal) => match refusal {
            Refusal::Memory => Err(Stop::Memory),
            _ => Ok(Step::Answered(false)),
        },
    }
}

/// One step of a walk.
pub fn step<'r, 'i, 'p>(alloc: Global, walk: Walk<'r, 'i, 'p>) -> Result<Step<'r, 'i, 'p>, Stop>
    ensures passes { IfOk result (Passes walk.entry) }
    ensures shorter { IfOk result (IsShorter (text_left walk.entry.evaluation)) }
    ensures stops { IfErr result (Stops (WalkComesBack walk.entry)) }
{
    match walk.evaluation {
        None => Ok(Step::Answered(ends_here(walk.site.contents, walk.instance))),
        Some(text) => by_name(alloc, walk, text),
    }
}
