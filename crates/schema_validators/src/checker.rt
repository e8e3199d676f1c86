//! What answers many values as a validator does.

ghost use Rattle.std.specs.Prelude.{◌≡◌, IfOk, OnOk, true};
ghost use Rattle.serde_json.specs.View.{view};
ghost use Rattle.graph_answers.specs.Tables.{matches_of};
ghost use Rattle.regex_patterns.specs.Matchers.{finds_by_regex};
ghost use Rattle.schema_meaning.specs.Faults.{is_none};
ghost use Rattle.schema_registries.specs.Whole.{only_whole};
ghost use Rattle.schema_reports.specs.Left.{errors_left};
ghost use Rattle.schema_reports.specs.Told.{faults_of, are_proper};
ghost use Rattle.schema_validators.specs.Seen.{table_in};

use crate::validator::Validator;
use regex_patterns::kept::Kept;
use schema_reports::ErrorIterator;
use serde_json::Value;
use std::alloc::{AllocError, Global};
use std::mem::replace;

/// Answers values as a validator does, and keeps from value to value what makes the matches of its patterns cheap: a search for each pattern,
/// made at its first match.
#[derive(Drop)]
pub struct Checker<'v> {
    alloc: Global,
    /// The validator as which it answers.
    pub validator: &'v Validator,
    kept: Kept<'v>,
    ghost pattern: { (matches_of finds_by_regex kept.table.now).pattern
        ≡ (matches_of finds_by_regex validator.now.schemas.value.table).pattern },
    ghost known: { (matches_of finds_by_regex kept.table.now).known
        ≡ (matches_of finds_by_regex validator.now.schemas.value.table).known },
}

// What is kept where nothing is, and no room is taken for more.
fn nothing_kept<'v>(alloc: Global, validator: &'v Validator) -> Kept<'v>
    ensures { matches_of finds_by_regex result.table.now ≡ matches_of finds_by_regex (table_in validator.now) }
{
    Kept::nothing(alloc, validator.patterns())
}

impl Validator {
    /// What answers many values as this validator does, and keeps its searches: [`Checker::new`] of it.
    ///
    /// # Errors
    ///
    /// Where memory was refused.
    pub fn checker(&self, alloc: Global) -> Result<Checker<'_>, AllocError>
        ensures { IfOk result (λ checker. checker.validator.now ≡ self.now) }
    {
        Checker::new(alloc, self)
    }
}

impl<'v> Checker<'v> {
    ghost use Rattle.schema_validators.specs.Calls.{IsVerdictOf, IsCertifiedOf, AreFaultsOf};
    ghost use Rattle.schema_validators.specs.Calls.{HaveCertificatesOf, TellsMissingOf};
    ghost use Rattle.schema_validators.specs.Told.{verdict_by, faults_by};

    /// A checker of a validator. It takes room for a search for each of its patterns, and makes none yet.
    ///
    /// # Errors
    ///
    /// Where memory was refused.
    pub fn new(alloc: Global, validator: &'v Validator) -> Result<Checker<'v>, AllocError>
        ensures { IfOk result (λ checker. checker.validator.now ≡ validator.now) }
    {
        let kept = Kept::new(alloc, validator.patterns())?;
        Ok(Checker {
            alloc,
            validator,
            kept,
        })
    }

    /// Whether a value is valid. It says what [`Validator::is_valid`] says, and costs the same but for matches.
    ///
    /// # Errors
    ///
    /// Where memory was refused. From then on nothing is kept.
    pub fn is_valid(&mut self, value: &Value) -> Result<bool, AllocError>
        requires whole { only_whole (view value.now) ≡ true }
        ensures same { self.new.validator.now ≡ self.old.validator.now }
        ensures cut { IfOk result (λ b. b ≡ verdict_by self.old.validator.now (view value.now)) }
        ensures verdict { IfOk result (IsVerdictOf self.old.validator.now (view value.now)) }
        ensures certified { IfOk result (IsCertifiedOf self.old.validator.now (view value.now)) }
    {
        let mut kept = replace(&mut self.kept, nothing_kept(self.alloc, self.validator));
        let answer = self.validator.is_valid_by(&mut kept, value)?;
        self.kept = kept;
        Ok(answer)
    }

    /// The faults of a value, in the order in which they are met. It says what [`Validator::iter_errors`] says, and costs the same but for
    /// matches.
    ///
    /// # Errors
    ///
    /// Where memory was refused or a count of owners is full. From then on nothing is kept.
    pub fn iter_errors<'i>(&mut self, value: &'i Value) -> Result<ErrorIterator<'i>, AllocError>
        requires whole { only_whole (view value.now) ≡ true }
        ensures same { self.new.validator.now ≡ self.old.validator.now }
        ensures cut { IfOk result (λ errors. faults_of (errors_left errors) ≡ faults_by self.old.validator.now
            (view value.now)) }
        ensures agree { OnOk result (is_none (faults_by self.old.validator.now (view value.now))
            ≡ verdict_by self.old.validator.now (view value.now)) }
        ensures faults { IfOk result (λ errors. AreFaultsOf self.old.validator.now (view value.now) (faults_of
            (errors_left errors))) }
        ensures proper { IfOk result (λ errors. are_proper (errors_left errors) ≡ true) }
        ensures certified { IfOk result (λ errors. HaveCertificatesOf self.old.validator.now (view value.now)
            (faults_of (errors_left errors))) }
        ensures missing { IfOk result (λ errors. TellsMissingOf self.old.validator.now (view value.now) (faults_of
            (errors_left errors))) }
    {
        let mut kept = replace(&mut self.kept, nothing_kept(self.alloc, self.validator));
        let errors = self.validator.errors_by(&mut kept, value)?;
        self.kept = kept;
        Ok(errors)
    }
}
