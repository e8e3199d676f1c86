//! Where a keyword tells of a value.
ghost use Rattle.std.specs.Prelude.{◌≡◌, [], true, false, OnOk, IfOk};
ghost use Rattle.serde_json.specs.View.{view};
ghost use Rattle.schema_meaning.specs.Faults.{none, also};
ghost use Rattle.schema_meaning.specs.Questions.{at};
ghost use Rattle.schema_meaning.specs.Rules.{Note, own_fault};
ghost use Rattle.schema_engine.specs.Hearing.{HearsMore, HearsSame};
ghost use Rattle.schema_engine.specs.Situations.{TellsOf, spot_in};

use schema_reports::{
    LazyLocation, Observer, SchemaLocation, ValidationError, ValidationErrorKind,
};
use schema_steps::Path;
use serde_json::Value;
use std::alloc::{AllocError, Global};

/// A value with the roads to it and to the schema that is asked of it.
#[derive(Clone, Copy)]
pub struct Situation<'p, 'o> {
    pub alloc: Global,
    /// The value. A member's name is a text of its own.
    pub value: &'o Value,
    /// The path of the value from the instance's root. That of a name is its object's.
    pub instance: &'p LazyLocation<'p, 'p>,
    /// The path by which evaluation came to the schema.
    pub evaluation: &'p LazyLocation<'p, 'p>,
    /// The schema's own path.
    pub schema: &'p Path,
    /// Where the schema stands.
    pub location: &'p SchemaLocation,
}

impl<'o> Situation<'_, 'o> {
    /// Tells an observer of an error under a keyword's name where it keeps the paths of one alone, and says whether it does.
    /// Where it does not, it is told nothing.
    ///
    /// It takes a stack frame for each part of the paths, and makes their texts, where the observer keeps these.
    ///
    /// # Errors
    ///
    /// Where memory was refused.
    pub fn tell_paths(&self, keyword: &str, observer: &mut Observer<'o>) -> Result<bool, AllocError>
        ensures told { IfOk result (λ b. b ≡ true → (note : Note)
            → HearsMore (also (own_fault (spot_in self.now) self.now.schema.now (at keyword.now) note) none)
            observer.old observer.new) }
        ensures untold { IfOk result (λ b. b ≡ false → HearsSame observer.old observer.new) }
    {
        let evaluation = self.evaluation.push_name(keyword);
        observer.keep_paths(self.alloc, self.instance, &evaluation)
    }

    /// Tells an observer of an error under a keyword's name. `value` is the value at fault.
    ///
    /// It takes a push for each part of the paths, where the observer wants the error.
    ///
    /// # Errors
    ///
    /// Where memory was refused or a count of owners is full.
    pub fn tell(
        &self,
        keyword: &str,
        kind: ValidationErrorKind<'o>,
        value: &'o Value,
        observer: &mut Observer<'o>,
    ) -> Result<(), AllocError>
        ensures { OnOk result (TellsOf self.now (at keyword.now) kind.entry (view value.now) observer.old observer.new) }
    {
        if self.tell_paths(keyword, observer)? {
            return Ok(());
        }
        if !observer.hear() {
            return Ok(());
        }
        let instance = self.instance.to_path(self.alloc)?;
        let schema = self.schema.push_name(self.alloc, keyword)?;
        let evaluation = self.evaluation.push_name(keyword);
        let evaluation = evaluation.to_path(self.alloc)?;
        let error = ValidationError::new(self.alloc, kind, value, instance, schema, evaluation)?;
        observer.keep(self.alloc, error.standing_in(self.location.clone()?, true))
    }

    /// Tells an observer of an error of the schema itself, under no keyword's name. It costs and fails as [`Self::tell`].
    pub fn tell_of_schema(
        &self,
        kind: ValidationErrorKind<'o>,
        value: &'o Value,
        observer: &mut Observer<'o>,
    ) -> Result<(), AllocError>
        ensures { OnOk result (TellsOf self.now [] kind.entry (view value.now) observer.old observer.new) }
    {
        if observer.keep_paths(self.alloc, self.instance, self.evaluation)? {
            return Ok(());
        }
        if !observer.hear() {
            return Ok(());
        }
        let instance = self.instance.to_path(self.alloc)?;
        let schema = self.schema.clone()?;
        let evaluation = self.evaluation.to_path(self.alloc)?;
        let error = ValidationError::new(self.alloc, kind, value, instance, schema, evaluation)?;
        observer.keep(self.alloc, error.standing_in(self.location.clone()?, false))
    }
}
