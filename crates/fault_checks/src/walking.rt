//! Walks to their end.
ghost use Rattle.std.specs.Prelude.{IfOk, IfErr};
ghost use Rattle.serde_json.specs.View.{view};
ghost use Rattle.fault_checks.specs.Steps.{Passes};
ghost use Rattle.fault_checks.specs.NamedSteps.{IsAtName, IsLeftAtName, IsLeftAtSome};
ghost use Rattle.plain_reader.specs.Returns.{Stops};
ghost use Rattle.fault_checks.specs.Circles.{NameComesBack, SomeComesBack, WalkComesBack};

use crate::stepping::step;
use crate::walk::{AtNames, Step, Walk};
use plain_reader::stop::Stop;
use serde_json::Value;
use std::alloc::{AllocError, Global};

// The walk at a name, by its text.
fn at_text<'a, 'r>(
    alloc: Global,
    names: &'a AtNames<'r, '_, 'a>,
    text: &'a Value,
) -> Result<Walk<'r, 'a, 'a>, AllocError>
    ensures { IfOk result (IsAtName names.now (view text.now)) }
{
    let site = names.walk.site.below(alloc, names.schema)?;
    Ok(Walk {
        site,
        value: text,
        instance: names.walk.instance,
        evaluation: names.evaluation,
    })
}

// The walk at a name to its end.
#[cycle(walks)]
fn at_name(alloc: Global, names: &AtNames<'_, '_, '_>, name: &str) -> Result<bool, Stop>
    ensures left { IfOk result (IsLeftAtName names.now name.now) }
    ensures stops { IfErr result (Stops (NameComesBack names.now name.now)) }
{
    let text = Value::String(String::from_str(alloc, name)?);
    let walk = at_text(alloc, names, &text)?;
    walked(alloc, walk)
}

// The walks at the names, until one of them is accepted.
#[cycle(walks)]
fn through_names(alloc: Global, names: &AtNames<'_, '_, '_>) -> Result<bool, Stop>
    ensures left { IfOk result (IsLeftAtSome names.now) }
    ensures stops { IfErr result (Stops (SomeComesBack names.now)) }
{
    let Value::Object(members) = names.walk.value else {
        return Ok(false);
    };
    for (name, _member) in members.iter() {
        if at_name(alloc, names, name.as_str())? {
            return Ok(true);
        }
    }
    Ok(false)
}

/// The walk to its end: whether what is left of its paths is spelled.
///
/// It takes a step for each part of the evaluation path, and at `propertyNames` walks on at one name after another, each a new text.
///
/// # Errors
///
/// Where memory was refused or a count of owners is full, and where a reference came back in a reading on the way.
#[cycle(walks)]
pub fn walked<'r, 'i, 'p>(alloc: Global, walk: Walk<'r, 'i, 'p>) -> Result<bool, Stop>
    ensures passes { IfOk result (λ b. Passes walk.entry (Step.Answered b)) }
    ensures stops { IfErr result (Stops (WalkComesBack walk.entry)) }
{
    let mut now = walk;
    loop {
        match step(alloc, now)? {
            Step::Answered(accepted) => return Ok(accepted),
            Step::On(next) => now = next,
            Step::Named(names) => return through_names(alloc, &names),
        }
    }
}
