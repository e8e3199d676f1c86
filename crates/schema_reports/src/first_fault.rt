//! The first thing that is wrong.
ghost use Rattle.std.specs.Prelude.{◌≡◌, true, false, not, is_some, Some, OnOk};
ghost use Rattle.serde_json.specs.View.{view};
ghost use Rattle.schema_meaning.specs.Faults.{Faults, none, also, joined};

use crate::error::ValidationError;
use location_texts::LazyLocation;
use serde_json::Value;
use std::alloc::{AllocError, Global};

/// Keeps the fault that it is told first.
#[derive(Drop)]
pub struct FirstFault<'i> {
    error: Option<Box<ValidationError<'i>>>,
}

impl<'i> FirstFault<'i> {
    ghost use Rattle.schema_reports.specs.Stands.{first_stands, is_kept_of, is_one_of};
    ghost use Rattle.schema_meaning.specs.Rules.{each_of_object};
    ghost use Rattle.location_texts.specs.Locations.{location_of};
    ghost use Rattle.schema_reports.specs.Told.{spot_of, fault_of, error_is_proper, IsOneOf};

    /// No fault was told.
    pub const fn new() -> Self
        ensures { first_stands result none }
    {
        FirstFault { error: None }
    }

    /// The fault that was told, if any was.
    pub fn into_error(self) -> Option<ValidationError<'i>>
        ensures { (fs : Faults) → first_stands self.entry fs → is_one_of result fs }
    {
        match self.error {
            Some(error) => Some(Box::into_inner(error)),
            None => None,
        }
    }

    // The same, as it is kept.
    pub(crate) fn into_kept(self) -> Option<Box<ValidationError<'i>>>
        ensures { (fs : Faults) → first_stands self.entry fs → is_kept_of result fs }
    {
        self.error
    }

    pub(crate) fn is_settled(&self) -> bool
        ensures { result ≡ true → (fs gs : Faults) → first_stands self.now fs → first_stands self.now (joined fs gs) }
    {
        self.error.is_some()
    }

    /// Whether no fault was told.
    pub(crate) fn wants(&self) -> bool
        ensures first { result ≡ not (is_some self.now.error) }
        ensures enough { result ≡ false → (fs gs : Faults) → first_stands self.now fs → first_stands self.now (joined fs gs) }
    {
        self.error.is_none()
    }

    /// Hears what another one heard: its error, where none was told before.
    pub(crate) fn absorb(
        &mut self,
        alloc: Global,
        heard: Option<Box<ValidationError<'_>>>,
    ) -> Result<(), AllocError>
        ensures { OnOk result ((fs gs : Faults) → first_stands self.old fs → is_kept_of heard.entry gs → first_stands self.new (joined fs gs)) }
    {
        if self.error.is_some() {
            return Ok(());
        }
        if let Some(error) = heard {
            self.keep(alloc, Box::into_inner(error).to_owned(alloc)?)?;
        }
        Ok(())
    }

    /// Hears of an object what another one heard of a name.
    pub(crate) fn absorb_names(
        &mut self,
        alloc: Global,
        heard: Option<Box<ValidationError<'i>>>,
        object: &'i Value,
        at: &LazyLocation<'_, '_>,
    ) -> Result<(), AllocError>
        ensures { OnOk result ((fs gs : Faults) → first_stands self.old fs → is_kept_of heard.entry gs → first_stands self.new
            (joined fs (each_of_object (spot_of (view object.now) (location_of at.now)) gs))) }
    {
        if self.error.is_some() {
            return Ok(());
        }
        if let Some(error) = heard {
            self.keep(alloc, Box::into_inner(error).told_of(alloc, object, at)?)?;
        }
        Ok(())
    }

    /// Keeps an error, where none was told before.
    pub(crate) fn add(
        &mut self,
        alloc: Global,
        error: ValidationError<'i>,
    ) -> Result<(), AllocError>
        ensures { OnOk result (error_is_proper error.entry ≡ true → (fs : Faults) → first_stands self.old fs → first_stands self.new (joined fs (also (fault_of error.entry) none))) }
    {
        if self.error.is_none() {
            self.keep(alloc, error)?;
        }
        Ok(())
    }

    fn keep(&mut self, alloc: Global, error: ValidationError<'i>) -> Result<(), AllocError>
        ensures { OnOk result ((fs : Faults) → IsOneOf error.entry fs → first_stands self.new fs) }
    {
        self.error = Some(Box::new(alloc, error)?);
        Ok(())
    }
}
