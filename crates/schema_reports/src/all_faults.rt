//! Everything that is wrong.
ghost use Rattle.std.specs.Prelude.{◌≡◌, true, OnOk};
ghost use Rattle.serde_json.specs.View.{view};
ghost use Rattle.schema_meaning.specs.Faults.{Faults, none, also, joined};

use crate::error::ValidationError;
use location_texts::LazyLocation;
use serde_json::Value;
use std::alloc::{AllocError, Global};

/// Keeps each fault that it is told, in order.
#[derive(Drop)]
pub struct AllFaults<'i> {
    errors: Vec<ValidationError<'i>>,
}

impl<'i> AllFaults<'i> {
    ghost use Rattle.schema_reports.specs.Stands.{all_stand};
    ghost use Rattle.schema_reports.specs.Told.{AreAll, spot_of, fault_of, error_is_proper};
    ghost use Rattle.schema_meaning.specs.Rules.{each_of_object};
    ghost use Rattle.location_texts.specs.Locations.{location_of};

    /// No fault was told. It allocates nothing.
    pub fn new(alloc: Global) -> Self
        ensures { all_stand result none }
    {
        AllFaults {
            errors: Vec::new(alloc),
        }
    }

    /// The faults that were told.
    pub fn into_errors(self) -> Vec<ValidationError<'i>>
        ensures { (fs : Faults) → all_stand self.entry fs → AreAll result.items fs }
    {
        self.errors
    }

    /// Each fault counts, so never.
    pub(crate) fn is_settled(&self) -> bool
        ensures { result ≡ true → (fs gs : Faults) → all_stand self.now fs → all_stand self.now (joined fs gs) }
    {
        false
    }

    /// Keeps an error, after what was told before.
    pub(crate) fn add(&mut self, error: ValidationError<'i>) -> Result<(), AllocError>
        ensures { OnOk result (error_is_proper error.entry ≡ true → (fs : Faults) → all_stand self.old fs → all_stand self.new (joined fs (also (fault_of error.entry) none))) }
    {
        self.errors.push(error)?;
        Ok(())
    }

    /// Hears all that another one heard, after what was told before.
    pub(crate) fn absorb(
        &mut self,
        alloc: Global,
        heard: Vec<ValidationError<'_>>,
    ) -> Result<(), AllocError>
        ensures { OnOk result ((fs gs : Faults) → all_stand self.old fs → AreAll heard.entry.items gs → all_stand self.new (joined fs gs)) }
    {
        for error in heard {
            self.errors.push(error.to_owned(alloc)?)?;
        }
        Ok(())
    }

    /// Hears of an object all that another one heard of a name.
    pub(crate) fn absorb_names(
        &mut self,
        alloc: Global,
        heard: Vec<ValidationError<'i>>,
        object: &'i Value,
        at: &LazyLocation<'_, '_>,
    ) -> Result<(), AllocError>
        ensures { OnOk result ((fs gs : Faults) → all_stand self.old fs → AreAll heard.entry.items gs → all_stand self.new
            (joined fs (each_of_object (spot_of (view object.now) (location_of at.now)) gs))) }
    {
        for error in heard {
            self.errors.push(error.told_of(alloc, object, at)?)?;
        }
        Ok(())
    }
}
