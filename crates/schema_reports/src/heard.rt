//! What an observer has heard of one question's subschema.

ghost use Rattle.std.specs.Prelude.{◌≡◌, map};
ghost use Rattle.schema_meaning.specs.Faults.{Faults};
ghost use Rattle.schema_definitions.specs.Lines.{paths_of};
ghost use Rattle.schema_reports.specs.Pairs.{pair_bytes};
ghost use Rattle.schema_reports.specs.Told.{AreAll};
ghost use Rattle.schema_reports.specs.Observers.{Hears};
ghost use Rattle.schema_reports.specs.declared.observer.Observation.TheVariants as kept;

use crate::{Observer, ValidationError};
use std::alloc::Global;

/// What one that keeps each fault heard, in order: the errors that the context of a branch holds.
pub fn all_heard<'i>(alloc: Global, observer: Observer<'i>) -> Vec<ValidationError<'i>>
    ensures { (fs : Faults) → Hears kept.All observer.entry fs → AreAll result.items fs }
{
    match observer {
        Observer::All(all) => all.into_errors(),
        _ => Vec::new(alloc),
    }
}

/// What one that keeps the two paths of each fault heard, in order.
pub fn pairs_heard(alloc: Global, observer: Observer<'_>) -> Vec<(String, String)>
    ensures { (fs : Faults) → Hears kept.Paths observer.entry fs
        → map pair_bytes result.items ≡ paths_of fs }
{
    match observer {
        Observer::Paths(paths) => paths.into_pairs(),
        _ => Vec::new(alloc),
    }
}
