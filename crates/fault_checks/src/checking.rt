//! Checks of faults by the documents alone.
ghost use Rattle.std.specs.Prelude.{◌≡◌, ◌≤◌, true, IfOk, IfErr, option_copied};
ghost use Rattle.serde_json.specs.Data.{depth};
ghost use Rattle.serde_json.specs.View.{view};
ghost use Rattle.schema_definitions.specs.Plain.{deepest};
ghost use Rattle.fault_checks.specs.Passed.{documents_in, target_in};
ghost use Rattle.schema_registries.specs.Roots.{root_on};
ghost use Rattle.schema_registries.specs.Whole.{only_whole};
ghost use Rattle.fault_checks.specs.Checked.{AnswersPath, AnswersBy, DecidesAt, SaysAt};
ghost use Rattle.plain_reader.specs.Returns.{Stops};
ghost use Rattle.fault_checks.specs.Circles.{ComesBackFrom};
ghost use Rattle.fault_paths.specs.Texts.{text_left};

use crate::finished::are_finished;
use crate::reading::{ReadMatches, read_matches};
use crate::walk::Walk;
use crate::walking::walked;
use crate::{Error, Resolved, at_root};
use fault_paths::parts::opened;
use plain_reader::stop::Stop;
use schema_patterns::PatternMaker;
use schema_patterns::matches::Matches;
use schema_registries::SchemaRegistry;
use serde_json::Value;
use std::alloc::{AllocError, Global};

/// The two paths of a fault, as JSON Pointers.
#[derive(Clone, Copy, Debug, PartialEq, Eq)]
pub struct FaultPath<'p> {
    pub instance_path: &'p str,
    pub evaluation_path: &'p str,
}

/// What a check says of two paths.
#[derive(Clone, Copy, Debug, PartialEq, Eq)]
pub enum CheckAnswer {
    /// Some chain of obliged steps spells them.
    Accepted,
    /// None does, or a text is no pointer.
    Refused,
    /// References come back to where they were, in a reading that the check goes by.
    Circular,
    /// A match that the value asks for stays unfinished. It is not answered yet: the match counts as none.
    Unfinished,
}

// The check at a root.
fn is_spelled(
    alloc: Global,
    root: &Resolved<'_>,
    matches: &Matches,
    value: &Value,
    instance: Option<&str>,
    evaluation: Option<&str>,
) -> Result<bool, Stop>
    requires shallow { depth (target_in root.now).contents ≤ deepest (documents_in root.now.resolver) }
    ensures decides { IfOk result (DecidesAt root.now matches.now (view value.now) (text_left instance.entry)
        (text_left evaluation.entry)) }
    ensures stops { IfErr result (Stops (ComesBackFrom root.now matches.now (view value.now))) }
{
    let site = at_root(root, matches)?;
    let walk = Walk {
        site,
        value,
        instance,
        evaluation,
    };
    walked(alloc, walk)
}

// The answer at a root. Where a reference came back, it is refused if some match stayed unfinished.
fn answer_at(
    alloc: Global,
    root: &Resolved<'_>,
    read: &ReadMatches,
    value: &Value,
    instance: Option<&str>,
    evaluation: Option<&str>,
) -> Result<CheckAnswer, AllocError>
    requires shallow { depth (target_in root.now).contents ≤ deepest (documents_in root.now.resolver) }
    ensures { IfOk result (SaysAt root.now read.now (view value.now) (text_left instance.entry)
        (text_left evaluation.entry)) }
{
    match is_spelled(alloc, root, &read.matches, value, instance, evaluation) {
        Ok(true) => Ok(CheckAnswer::Accepted),
        Ok(false) => Ok(CheckAnswer::Refused),
        Err(Stop::Memory) => Err(AllocError),
        Err(Stop::Circular) => {
            if are_finished(alloc, &read.matches, read.patterns.as_slice(), value)? {
                Ok(CheckAnswer::Circular)
            } else {
                Ok(CheckAnswer::Refused)
            }
        }
    }
}

/// Whether two paths are spelled by some chain of obliged steps, from a root to a keyword that refuses a value.
///
/// It reads the documents plainly and asks no validator: the patterns that are reached from the root are made and their matches read,
/// then comes one step for each part of the evaluation path, each with the look-up of its keyword or reference, and at the end the verdict
/// of one keyword. Behind `propertyNames` it takes the steps again for each name, until one's are right. For a root that leads nowhere, and
/// for schemas that no build takes, it refuses. Where a verdict that it reads asks a reference that comes back to its target at one place of
/// the value, it answers that the value is circular, unless some match in the value stayed unfinished. The numbers of the value are whole numbers of 64 bits, as `has_only_whole` tells.
///
/// # Errors
///
/// Where memory was refused or a count of owners is full.
pub fn check_fault<P: PatternMaker>(
    alloc: Global,
    registry: &SchemaRegistry,
    root: &str,
    maker: &P,
    value: &Value,
    path: FaultPath<'_>,
) -> Result<CheckAnswer, AllocError>
    requires whole { only_whole (view value.now) ≡ true }
    ensures { IfOk result (AnswersPath (P.patterns maker.now) (root_on registry.now root.now) (view value.now) path.entry) }
{
    let matches = read_matches(alloc, registry, root, maker, value)?;
    check_by(alloc, registry, root, matches.as_ref(), value, path)
}

/// The same by matches that were read of the value, for any number of paths. Without matches it refuses.
///
/// # Errors
///
/// Where memory was refused or a count of owners is full.
pub fn check_by(
    alloc: Global,
    registry: &SchemaRegistry,
    root: &str,
    matches: Option<&ReadMatches>,
    value: &Value,
    path: FaultPath<'_>,
) -> Result<CheckAnswer, AllocError>
    ensures { IfOk result (AnswersBy (option_copied matches.entry) (root_on registry.now root.now)
        (view value.now) path.entry) }
{
    let Some(read) = matches else {
        return Ok(CheckAnswer::Refused);
    };
    let Some(instance) = opened(path.instance_path) else {
        return Ok(CheckAnswer::Refused);
    };
    let Some(evaluation) = opened(path.evaluation_path) else {
        return Ok(CheckAnswer::Refused);
    };
    let resolver = registry.registry().resolver(registry.base().clone()?)?;
    match resolver.lookup(root) {
        Ok(found) => answer_at(alloc, &found, read, value, instance, evaluation),
        Err(error) => match error {
            Error::Memory => Err(AllocError),
            _ => Ok(CheckAnswer::Refused),
        },
    }
}
