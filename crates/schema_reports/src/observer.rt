//! Who hears of what is wrong.
ghost use Rattle.std.specs.Prelude.{◌≡◌, true, false, map, IfOk, OnOk};
ghost use Rattle.serde_json.specs.View.{view};
ghost use Rattle.schema_meaning.specs.Faults.{Fault, Faults, none, also, joined, is_none, instance_path, evaluation_path};
ghost use Rattle.schema_meaning.specs.Rules.{each_of_object};
ghost use Rattle.location_texts.specs.Locations.{location_of};
ghost use Rattle.schema_definitions.specs.Lines.{paths_of};
ghost use Rattle.schema_reports.specs.Observers.{Hears, wants, keeps_paths};
ghost use Rattle.schema_reports.specs.Pairs.{pair_bytes};
ghost use Rattle.schema_reports.specs.Stands.{is_kept_of};
ghost use Rattle.schema_reports.specs.Told.{AreAll, spot_of, fault_of, error_is_proper};

use crate::all_faults::AllFaults;
use crate::error::ValidationError;
use crate::first_fault::FirstFault;
use crate::path_pairs::PathPairs;
use crate::verdict::Verdict;
use location_texts::LazyLocation;
use serde_json::Value;
use std::alloc::{AllocError, Global};

/// What an observer keeps of the faults that it hears.
#[derive(Clone, Copy, PartialEq, Eq, Debug)]
pub enum Observation {
    /// Whether there is any.
    Verdict,
    /// The first.
    First,
    /// Each, in order.
    All,
    /// The two paths of each, in order, as pointers' texts.
    Paths,
}

/// One that hears of the faults of a value, one after another.
#[derive(Drop)]
pub enum Observer<'i> {
    Verdict(Verdict),
    First(FirstFault<'i>),
    All(AllFaults<'i>),
    Paths(PathPairs),
}

impl<'i> Observer<'i> {
    /// Whether nothing that comes later changes what it says.
    pub fn is_settled(&self) -> bool
        ensures { result ≡ true → (kept : Observation) (fs gs : Faults) → Hears kept self.now fs → Hears kept self.now (joined fs gs) }
    {
        match self {
            Observer::Verdict(verdict) => verdict.is_settled(),
            Observer::First(first) => first.is_settled(),
            Observer::All(_) | Observer::Paths(_) => false,
        }
    }

    /// Hears that there is a fault, and says whether it wants to be told of it, which is then to be done. Where it does not, the
    /// fault need not be made: one that keeps the verdict alone has heard enough, and so has one that keeps the first and has it.
    pub fn hear(&mut self) -> bool
        ensures asked { result ≡ wants self.old }
        ensures unheard { result ≡ true → (kept : Observation) (fs : Faults) → Hears kept self.old fs → Hears kept self.new fs }
        ensures heard { result ≡ false → (kept : Observation) (fs : Faults) (f : Fault) → Hears kept self.old fs → Hears kept self.new (joined fs (also f none)) }
    {
        match self {
            Observer::Verdict(judge) => {
                judge.refuse();
                false
            }
            Observer::First(first) => first.wants(),
            Observer::All(_) | Observer::Paths(_) => true,
        }
    }

    /// Hears of a fault by its two paths, where it keeps no more of one, and says whether it does. Where it does not, it heard nothing.
    ///
    /// # Errors
    ///
    /// Where memory was refused.
    pub fn keep_paths(
        &mut self,
        alloc: Global,
        instance: &LazyLocation<'_, '_>,
        evaluation: &LazyLocation<'_, '_>,
    ) -> Result<bool, AllocError>
        ensures asked { IfOk result (λ b. b ≡ keeps_paths self.old) }
        ensures heard { IfOk result (λ b. b ≡ true → (kept : Observation) (fs : Faults) (f : Fault)
            → instance_path f ≡ location_of instance.now
            → evaluation_path f ≡ location_of evaluation.now
            → Hears kept self.old fs → Hears kept self.new (joined fs (also f none))) }
        ensures unheard { IfOk result (λ b. b ≡ false → (kept : Observation) (fs : Faults)
            → Hears kept self.old fs → Hears kept self.new fs) }
    {
        match self {
            Observer::Paths(paths) => {
                paths.add(alloc, instance, evaluation)?;
                Ok(true)
            }
            _ => Ok(false),
        }
    }

    /// Tells it of an error that is made already, whose kind carries such values as its keyword has.
    ///
    /// # Errors
    ///
    /// Where memory was refused.
    pub fn keep(&mut self, alloc: Global, error: ValidationError<'i>) -> Result<(), AllocError>
        ensures { OnOk result (error_is_proper error.entry ≡ true → (kept : Observation) (fs : Faults) → Hears kept self.old fs
            → Hears kept self.new (joined fs (also (fault_of error.entry) none))) }
    {
        match self {
            Observer::Verdict(verdict) => {
                verdict.refuse();
                Ok(())
            }
            Observer::First(first) => first.add(alloc, error),
            Observer::All(all) => all.add(error),
            Observer::Paths(paths) => paths.add_error(alloc, error),
        }
    }

    /// One that keeps the same, and heard of nothing. It allocates nothing.
    pub fn fresh<'o>(&self, alloc: Global) -> Observer<'o>
        ensures { (kept : Observation) (fs : Faults) → Hears kept self.now fs → Hears kept result none }
    {
        match self {
            Observer::Verdict(_) => Observer::Verdict(Verdict::new()),
            Observer::First(_) => Observer::First(FirstFault::new()),
            Observer::All(_) => Observer::All(AllFaults::new(alloc)),
            Observer::Paths(_) => Observer::Paths(PathPairs::new(alloc)),
        }
    }

    /// Hears all that another one heard, which keeps the same. The errors become this one's own.
    ///
    /// # Errors
    ///
    /// Where memory was refused or a count of owners is full.
    pub fn absorb(&mut self, alloc: Global, other: Observer<'_>) -> Result<(), AllocError>
        ensures { OnOk result ((kept : Observation) (fs gs : Faults) → Hears kept self.old fs → Hears kept other.entry gs
            → Hears kept self.new (joined fs gs)) }
    {
        match self {
            Observer::Verdict(verdict) => {
                verdict.absorb(other.into_verdict());
                Ok(())
            }
            Observer::First(first) => first.absorb(alloc, other.into_first()),
            Observer::All(all) => all.absorb(alloc, other.into_all(alloc)),
            Observer::Paths(paths) => paths.absorb(other.into_pairs(alloc)),
        }
    }

    /// Hears of an object what another one, which keeps the same, heard of a name of its members: each error is told of the
    /// object, and carries the name's.
    ///
    /// # Errors
    ///
    /// Where memory was refused or a count of owners is full.
    pub fn absorb_names(
        &mut self,
        alloc: Global,
        other: Observer<'i>,
        object: &'i Value,
        at: &LazyLocation<'_, '_>,
    ) -> Result<(), AllocError>
        ensures { OnOk result ((kept : Observation) (fs gs : Faults) → Hears kept self.old fs → Hears kept other.entry gs
            → Hears kept self.new (joined fs (each_of_object (spot_of (view object.now) (location_of at.now)) gs))) }
    {
        match self {
            Observer::Verdict(verdict) => {
                verdict.absorb(other.into_verdict());
                Ok(())
            }
            Observer::First(first) => first.absorb_names(alloc, other.into_first(), object, at),
            Observer::All(all) => all.absorb_names(alloc, other.into_all(alloc), object, at),
            Observer::Paths(paths) => paths.absorb_names(alloc, other.into_pairs(alloc), at),
        }
    }

    // Whether one that keeps the verdict was told of no fault.
    fn into_verdict(self) -> bool
        ensures { (fs : Faults) → Hears Observation.Verdict self.entry fs → result ≡ is_none fs }
    {
        match self {
            Observer::Verdict(verdict) => verdict.accepts(),
            Observer::First(_) | Observer::All(_) | Observer::Paths(_) => true,
        }
    }

    // The error of one that keeps the first, if it was told of any.
    fn into_first(self) -> Option<Box<ValidationError<'i>>>
        ensures { (fs : Faults) → Hears Observation.First self.entry fs → is_kept_of result fs }
    {
        match self {
            Observer::First(first) => first.into_kept(),
            Observer::Verdict(_) | Observer::All(_) | Observer::Paths(_) => None,
        }
    }

    // The errors of one that keeps each.
    fn into_all(self, alloc: Global) -> Vec<ValidationError<'i>>
        ensures { (fs : Faults) → Hears Observation.All self.entry fs → AreAll result.items fs }
    {
        match self {
            Observer::All(all) => all.into_errors(),
            Observer::Verdict(_) | Observer::First(_) | Observer::Paths(_) => Vec::new(alloc),
        }
    }

    // The pairs of one that keeps the two paths of each.
    fn into_pairs(self, alloc: Global) -> Vec<(String, String)>
        ensures { (fs : Faults) → Hears Observation.Paths self.entry fs
            → map pair_bytes result.items ≡ paths_of fs }
    {
        match self {
            Observer::Paths(paths) => paths.into_pairs(),
            Observer::Verdict(_) | Observer::First(_) | Observer::All(_) => Vec::new(alloc),
        }
    }
}
