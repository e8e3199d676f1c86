//! What validators answer, held against the check of faults.
//!
//! The validator's matches are asked for anew, and one that stays unfinished counts as none.

ghost use Rattle.std.specs.Prelude.{◌≡◌, IfOk, IfSome, true, false, length, is_none, option_copied};
ghost use Rattle.serde_json.specs.View.{view};
ghost use Rattle.schema_reports.specs.Left.{errors_left};
ghost use Rattle.schema_reports.specs.Told.{fault_of, faults_of};
ghost use Rattle.schema_registries.specs.Roots.{Patterns, Root, IsSound, root_on};
ghost use Rattle.schema_registries.specs.Whole.{only_whole};
ghost use Rattle.schema_registries.specs.Certified.{HasCertificate, HaveCertificates};
ghost use Rattle.fault_checks.specs.Checked.{AreReadIn, IsChecked};
ghost use Rattle.schema_validators.specs.Calls.{IsVerdictOf};
ghost use Rattle.schema_validators.specs.Made.{IsMadeBy};
ghost use Rattle.schema_validators.specs.Told.{faults_by, verdict_by};
ghost use Rattle.json_schema_validator.specs.Joined.{IsFaultChecked, WhereStraight, AreAccepted};
ghost use Rattle.json_schema_validator.specs.Joined.{each_accepted, fault_count};

use fault_checks::checking::{CheckAnswer, FaultPath, check_by, check_fault};
use fault_checks::reading::{ReadMatches, read_matches};
use schema_patterns::{PatternMaker, PatternMatcher};
use schema_registries::SchemaRegistry;
use schema_reports::{ErrorIterator, ValidationError};
use schema_validators::Validator;
use serde_json::Value;
use std::alloc::{AllocError, Global};

/// What `check_fault` says of the two paths of a fault. Where every match that the value asks for finishes and no references come back, it
/// accepts those of a fault of the value.
///
/// # Errors
///
/// Where memory was refused or a count of owners is full.
pub fn check_error<P: PatternMaker>(
    alloc: Global,
    registry: &SchemaRegistry,
    root: &str,
    maker: &P,
    value: &Value,
    error: &ValidationError<'_>,
) -> Result<CheckAnswer, AllocError>
    requires whole { only_whole (view value.now) ≡ true }
    ensures checked { IfOk result (λ a. IsSound (P.patterns maker.now) (root_on registry.now root.now)
        → IsFaultChecked (P.patterns maker.now) (root_on registry.now root.now) (view value.now)
        (fault_of error.now) a) }
    ensures accepted { IfOk result (λ a. IsSound (P.patterns maker.now) (root_on registry.now root.now)
        → HasCertificate (P.patterns maker.now) (root_on registry.now root.now) (view value.now)
        (fault_of error.now) → WhereStraight (P.patterns maker.now) (root_on registry.now root.now)
        (view value.now) (a ≡ CheckAnswer.Accepted)) }
{
    let matches = read_matches(alloc, registry, root, maker, value)?;
    check_error_by(alloc, registry, root, matches.as_ref(), value, error)
}

// The same by matches that were read of the value.
fn check_error_by(
    alloc: Global,
    registry: &SchemaRegistry,
    root: &str,
    matches: Option<&ReadMatches>,
    value: &Value,
    error: &ValidationError<'_>,
) -> Result<CheckAnswer, AllocError>
    ensures { IfOk result (λ a. (p : Patterns)
        → AreReadIn p (root_on registry.now root.now) (view value.now) (option_copied matches.entry)
        → IsSound p (root_on registry.now root.now)
        → IsFaultChecked p (root_on registry.now root.now) (view value.now) (fault_of error.now) a) }
{
    let instance = error.instance_path().to_pointer(alloc)?;
    let evaluation = error.evaluation_path().to_pointer(alloc)?;
    let path = FaultPath {
        instance_path: instance.as_str(),
        evaluation_path: evaluation.as_str(),
    };
    check_by(alloc, registry, root, matches, value, path)
}

// The same, and lets the error go.
fn check_owned(
    alloc: Global,
    registry: &SchemaRegistry,
    root: &str,
    matches: Option<&ReadMatches>,
    value: &Value,
    error: ValidationError<'_>,
) -> Result<CheckAnswer, AllocError>
    ensures { IfOk result (λ a. (p : Patterns)
        → AreReadIn p (root_on registry.now root.now) (view value.now) (option_copied matches.entry)
        → IsSound p (root_on registry.now root.now)
        → IsFaultChecked p (root_on registry.now root.now) (view value.now) (fault_of error.entry) a) }
{
    check_error_by(alloc, registry, root, matches, value, &error)
}

// What `check_fault` says of each of these faults, by matches that were read of the value.
fn check_each(
    alloc: Global,
    registry: &SchemaRegistry,
    root: &str,
    matches: Option<&ReadMatches>,
    value: &Value,
    errors: ErrorIterator<'_>,
) -> Result<Vec<CheckAnswer>, AllocError>
    ensures count { IfOk result (λ v. length v.items ≡ fault_count (faults_of (errors_left errors.entry))) }
    ensures accepted { IfOk result (λ v. (p : Patterns)
        → AreReadIn p (root_on registry.now root.now) (view value.now) (option_copied matches.entry)
        → IsSound p (root_on registry.now root.now)
        → HaveCertificates p (root_on registry.now root.now) (view value.now) (faults_of
        (errors_left errors.entry))
        → WhereStraight p (root_on registry.now root.now) (view value.now) (v.items ≡ each_accepted (faults_of
        (errors_left errors.entry)))) }
{
    let mut answers = Vec::new(alloc);
    for error in errors {
        let answer = check_owned(alloc, registry, root, matches, value, error)?;
        answers.push(answer)?;
    }
    Ok(answers)
}

/// What `check_fault` says of each fault of a value that `errors_by` gives, in that order: one answer for each.
///
/// The registry, the reference and the maker are those that the validator was built by. Where every match that the value asks for
/// finishes and no references come back, each is accepted. The patterns are made and their matches read once for all faults.
///
/// # Errors
///
/// Where memory was refused or a count of owners is full.
pub fn check_errors<M: PatternMatcher, P: PatternMaker>(
    alloc: Global,
    validator: &Validator<M>,
    registry: &SchemaRegistry,
    root: &str,
    maker: &P,
    value: &Value,
) -> Result<Vec<CheckAnswer>, AllocError>
    requires whole { only_whole (view value.now) ≡ true }
    ensures cut { IfOk result (λ v.
        length v.items ≡ fault_count (faults_by validator.now (view value.now))) }
    ensures accepted { IfOk result (λ v. IsMadeBy (P.patterns maker.now)
        (root_on registry.now root.now) validator.now
        → AreAccepted (P.patterns maker.now) (root_on registry.now root.now) (view value.now) v.items) }
{
    let mut direct = validator.direct();
    let errors = validator.errors_by(&mut direct, value)?;
    let matches = read_matches(alloc, registry, root, maker, value)?;
    check_each(alloc, registry, root, matches.as_ref(), value, errors)
}

/// What `check_fault` says of the first fault of a value that `errors_by` gives, and nothing of a valid value.
///
/// The registry, the reference and the maker are those that the validator was built by. Where every match that the value asks for
/// finishes and no references come back, it is accepted.
///
/// # Errors
///
/// Where memory was refused or a count of owners is full.
pub fn check_first<M: PatternMatcher, P: PatternMaker>(
    alloc: Global,
    validator: &Validator<M>,
    registry: &SchemaRegistry,
    root: &str,
    maker: &P,
    value: &Value,
) -> Result<Option<CheckAnswer>, AllocError>
    requires whole { only_whole (view value.now) ≡ true }
    ensures cut { IfOk result (λ o. is_none o ≡ verdict_by validator.now (view value.now)) }
    ensures verdict { IfOk result (λ o. IsVerdictOf validator.now (view value.now) (is_none o)) }
    ensures accepted { IfOk result (λ o. IfSome o (λ a. IsMadeBy (P.patterns maker.now)
        (root_on registry.now root.now) validator.now
        → WhereStraight (P.patterns maker.now) (root_on registry.now root.now) (view value.now) (a
        ≡ CheckAnswer.Accepted))) }
{
    let mut direct = validator.direct();
    let mut errors = validator.errors_by(&mut direct, value)?;
    match errors.next() {
        None => Ok(None),
        Some(error) => {
            let answer = check_error(alloc, registry, root, maker, value, &error)?;
            Ok(Some(answer))
        }
    }
}

/// What `check_fault` says of two paths, and `is_valid_by` of the value.
///
/// The registry, the reference and the maker are those that the validator was built by. Where every match that the value asks for
/// finishes, no references come back and the paths are accepted, the value is not valid.
///
/// # Errors
///
/// Where memory was refused or a count of owners is full.
pub fn check_path<M: PatternMatcher, P: PatternMaker>(
    alloc: Global,
    validator: &Validator<M>,
    registry: &SchemaRegistry,
    root: &str,
    maker: &P,
    value: &Value,
    path: FaultPath<'_>,
) -> Result<(CheckAnswer, bool), AllocError>
    requires whole { only_whole (view value.now) ≡ true }
    ensures checked { IfOk result (λ both. IsMadeBy (P.patterns maker.now)
        (root_on registry.now root.now) validator.now
        → IsChecked (P.patterns maker.now) (root_on registry.now root.now)
        (view value.now) path.entry.instance_path.now path.entry.evaluation_path.now both.0) }
    ensures cut { IfOk result (λ both. both.1 ≡ verdict_by validator.now (view value.now)) }
    ensures verdict { IfOk result (λ both. IsVerdictOf validator.now (view value.now) both.1) }
    ensures refused { IfOk result (λ both. IsMadeBy (P.patterns maker.now)
        (root_on registry.now root.now) validator.now → both.0 ≡ CheckAnswer.Accepted
        → WhereStraight (P.patterns maker.now) (root_on registry.now root.now) (view value.now) (both.1 ≡ false)) }
{
    let answer = check_fault(alloc, registry, root, maker, value, path)?;
    let mut direct = validator.direct();
    let verdict = validator.is_valid_by(&mut direct, value)?;
    Ok((answer, verdict))
}
