//! Validators that begin at one root answer alike: those built on registries of equal documents, and one that is asked again.
//!
//! They ask each match anew, and one that stays unfinished counts as none.

ghost use Rattle.std.specs.Prelude.{◌≡◌, ◌⊎◌, true, IfOk, IfErr, OnOk};
ghost use Rattle.serde_json.specs.View.{view};
ghost use Rattle.schema_meaning.specs.Faults.{is_none};
ghost use Rattle.schema_meaning.specs.Order.{SameFaults};
ghost use Rattle.schema_reports.specs.Left.{errors_left};
ghost use Rattle.schema_reports.specs.Told.{faults_of, are_proper};
ghost use Rattle.schema_definitions.specs.Lookup.{Target};
ghost use Rattle.schema_registries.specs.Roots.{Finds, IsSound, root_on};
ghost use Rattle.schema_registries.specs.Whole.{only_whole};
ghost use Rattle.schema_validators.specs.Asked.{IsMet};
ghost use Rattle.schema_validators.specs.Calls.{AreFaultsOf, IsVerdictOf};
ghost use Rattle.schema_validators.specs.Counted.{IsWithin};
ghost use Rattle.schema_validators.specs.Made.{IsMadeBy};
ghost use Rattle.schema_validators.specs.Refused.{RefusesRoot};
ghost use Rattle.schema_validators.specs.Answered.{WhereDecided};
ghost use Rattle.schema_validators.specs.Seen.{maker_in, node_limit_in};
ghost use Rattle.schema_validators.specs.Told.{verdict_by, faults_by};
ghost use Rattle.schema_validators.specs.Agreed.{Answers, AreAlike, AreBuiltAlike, IsMetaStraight, WhereAlike};

use crate::error::BuildError;
use crate::options::ValidationOptions;
use crate::validator::Validator;
use regex_patterns::RegexMatcher;
use schema_patterns::{PatternMaker, PatternMatcher};
use schema_registries::SchemaRegistry;
use schema_reports::ErrorIterator;
use serde_json::Value;
use std::alloc::AllocError;

/// What is built at one root on each of two registries.
#[derive(Drop)]
pub struct BothValidators<M: PatternMatcher = RegexMatcher> {
    pub left: Result<Validator<M>, BuildError>,
    pub right: Result<Validator<M>, BuildError>,
}

/// Builds a validator on each of two registries, by the schema that one reference leads to.
///
/// Where the registries have equal documents under the same URIs, with the same drafts and in the same order, one base, and such
/// meta-schemas of which the same were retrieved, both validators begin at one root; and, want of memory aside, the one is built where
/// the other is, if the root's meta-schema, where it is asked, finishes its matches in the root's value and no references come back.
///
/// It costs what `build_on` costs on both.
pub fn build_on_both<P: PatternMaker + Drop, R: Drop>(
    options: &ValidationOptions<P, R>,
    left: &SchemaRegistry,
    right: &SchemaRegistry,
    root: &str,
) -> BothValidators<P::Matcher>
    ensures left_made { let p = P.patterns (maker_in options.now) in
        IfOk result.left (IsMadeBy p (root_on left.now root.now)) }
    ensures right_made { let p = P.patterns (maker_in options.now) in
        IfOk result.right (IsMadeBy p (root_on right.now root.now)) }
    ensures left_refused { let p = P.patterns (maker_in options.now) in IfErr result.left
        (RefusesRoot p (node_limit_in options.now) left.now (root_on left.now root.now)) }
    ensures right_refused { let p = P.patterns (maker_in options.now) in IfErr result.right
        (RefusesRoot p (node_limit_in options.now) right.now (root_on right.now root.now)) }

    ensures left_draft { IfOk result.left (λ v. (target : Target)
        → Finds (root_on left.now root.now) target → v.draft ≡ target.dialect.draft) }
    ensures right_draft { IfOk result.right (λ v. (target : Target)
        → Finds (root_on right.now root.now) target → v.draft ≡ target.dialect.draft) }
    ensures left_within { let p = P.patterns (maker_in options.now) in IfOk result.left
        (λ v. IsWithin p (node_limit_in options.now) (root_on left.now root.now)) }
    ensures right_within { let p = P.patterns (maker_in options.now) in IfOk result.right
        (λ v. IsWithin p (node_limit_in options.now) (root_on right.now root.now)) }
    ensures left_met { let p = P.patterns (maker_in options.now) in IfOk result.left (λ v.
        (target : Target) → Finds (root_on left.now root.now) target
        → IsMet p (node_limit_in options.now) left.now.parent target) }
    ensures right_met { let p = P.patterns (maker_in options.now) in IfOk result.right (λ v.
        (target : Target) → Finds (root_on right.now root.now) target
        → IsMet p (node_limit_in options.now) right.now.parent target) }

    ensures one_root { let p = P.patterns (maker_in options.now) in AreAlike left.now right.now
        → IfOk result.right (IsMadeBy p (root_on left.now root.now)) }

    // The one is built where the other is.
    ensures alike { let p = P.patterns (maker_in options.now) in AreAlike left.now right.now
        → IsMetaStraight p left.now (root_on left.now root.now)
        → AreBuiltAlike result.left result.right }
{
    BothValidators {
        left: options.build_on(left, root),
        right: options.build_on(right, root),
    }
}

// Whether a value is valid, each match asked for anew.
fn verdict_anew<M: PatternMatcher>(
    validator: &Validator<M>,
    value: &Value,
) -> Result<bool, AllocError>
    requires whole { only_whole (view value.now) ≡ true }
    ensures cut { IfOk result (λ b. b ≡ verdict_by validator.now (view value.now)) }
    ensures verdict { IfOk result (IsVerdictOf validator.now (view value.now)) }
{
    let mut direct = validator.direct();
    validator.is_valid_by(&mut direct, value)
}

// The faults of a value, each match asked for anew.
fn errors_anew<'i, M: PatternMatcher>(
    validator: &Validator<M>,
    value: &'i Value,
) -> Result<ErrorIterator<'i>, AllocError>
    requires whole { only_whole (view value.now) ≡ true }
    ensures cut { IfOk result (λ errors.
        faults_of (errors_left errors) ≡ faults_by validator.now (view value.now)) }
    ensures agree { OnOk result (is_none (faults_by validator.now (view value.now))
        ≡ verdict_by validator.now (view value.now)) }
    ensures faults { IfOk result (λ errors.
        AreFaultsOf validator.now (view value.now) (faults_of (errors_left errors))) }
    ensures proper { IfOk result (λ errors. are_proper (errors_left errors) ≡ true) }
{
    let mut direct = validator.direct();
    validator.errors_by(&mut direct, value)
}

/// Whether a value is valid by each of two validators: where both begin at one root, by the patterns of one maker, every match that the
/// value asks for finishes and no references come back, both say the same. It costs what `is_valid_by` costs of both.
///
/// # Errors
///
/// Where memory was refused.
pub fn is_valid_by_both<M: PatternMatcher>(
    left: &Validator<M>,
    right: &Validator<M>,
    value: &Value,
) -> Result<(bool, bool), AllocError>
    requires whole { only_whole (view value.now) ≡ true }
    ensures left { IfOk result (λ both. both.0 ≡ verdict_by left.now (view value.now)) }
    ensures right { IfOk result (λ both. both.1 ≡ verdict_by right.now (view value.now)) }
    ensures equal { IfOk result (λ both.
        WhereAlike left.now right.now (view value.now) (both.0 ≡ both.1)) }
{
    let first = verdict_anew(left, value)?;
    let second = verdict_anew(right, value)?;
    Ok((first, second))
}

/// The faults of a value by each of two validators: where both begin at one root, by the patterns of one maker, every match that the
/// value asks for finishes and no references come back, both give the same faults, each as often, if in another order. It costs what
/// `errors_by` costs of both.
///
/// # Errors
///
/// Where memory was refused or a count of owners is full.
pub fn iter_errors_by_both<'i, M: PatternMatcher>(
    left: &Validator<M>,
    right: &Validator<M>,
    value: &'i Value,
) -> Result<(ErrorIterator<'i>, ErrorIterator<'i>), AllocError>
    requires whole { only_whole (view value.now) ≡ true }
    ensures left { IfOk result (λ both.
        faults_of (errors_left both.0) ≡ faults_by left.now (view value.now)) }
    ensures right { IfOk result (λ both.
        faults_of (errors_left both.1) ≡ faults_by right.now (view value.now)) }
    ensures equal { IfOk result (λ both. WhereAlike left.now right.now (view value.now)
        (SameFaults (faults_of (errors_left both.0)) (faults_of (errors_left both.1)))) }
    ensures proper { IfOk result (λ both.
        (are_proper (errors_left both.0) ≡ true) × (are_proper (errors_left both.1) ≡ true)) }
{
    let first = errors_anew(left, value)?;
    let second = errors_anew(right, value)?;
    Ok((first, second))
}

/// The verdicts on a value, and its faults, by validators on each of two registries.
#[derive(Drop)]
pub struct BothAnswers<'i> {
    pub verdicts: (bool, bool),
    pub errors: (ErrorIterator<'i>, ErrorIterator<'i>),
}

/// What a value is told by validators that are built on two registries, at the schema that one reference leads to.
///
/// Both roots are such as `build_on` builds; and by each there are no faults exactly where the verdict is yes, on every value. Where the
/// registries have equal documents, as `build_on_both` has it, every match that the value asks for finishes and no references come back,
/// the verdicts are equal, and so are the faults, each as often, if in another order. It costs what `build_on`, `is_valid_by` and
/// `errors_by` cost on both.
///
/// # Errors
///
/// Those of `build_on`, on the first registry and then on the second, and want of memory.
pub fn answers_on_both<'i, P: PatternMaker + Drop, R: Drop>(
    options: &ValidationOptions<P, R>,
    left: &SchemaRegistry,
    right: &SchemaRegistry,
    root: &str,
    value: &'i Value,
) -> Result<BothAnswers<'i>, BuildError>
    requires whole { only_whole (view value.now) ≡ true }
    ensures left { let p = P.patterns (maker_in options.now) in IfOk result (λ both.
        Answers p (root_on left.now root.now) (view value.now)
        both.verdicts.0 (faults_of (errors_left both.errors.0))) }
    ensures right { let p = P.patterns (maker_in options.now) in IfOk result (λ both.
        Answers p (root_on right.now root.now) (view value.now)
        both.verdicts.1 (faults_of (errors_left both.errors.1))) }

    ensures left_sound { let p = P.patterns (maker_in options.now) in
        OnOk result (IsSound p (root_on left.now root.now)) }
    ensures right_sound { let p = P.patterns (maker_in options.now) in
        OnOk result (IsSound p (root_on right.now root.now)) }
    ensures left_within { let p = P.patterns (maker_in options.now) in
        OnOk result (IsWithin p (node_limit_in options.now) (root_on left.now root.now)) }
    ensures right_within { let p = P.patterns (maker_in options.now) in
        OnOk result (IsWithin p (node_limit_in options.now) (root_on right.now root.now)) }
    ensures left_met { let p = P.patterns (maker_in options.now) in OnOk result (
        (target : Target) → Finds (root_on left.now root.now) target
        → IsMet p (node_limit_in options.now) left.now.parent target) }
    ensures right_met { let p = P.patterns (maker_in options.now) in OnOk result (
        (target : Target) → Finds (root_on right.now root.now) target
        → IsMet p (node_limit_in options.now) right.now.parent target) }

    ensures agree { IfOk result (λ both.
        (is_none (faults_of (errors_left both.errors.0)) ≡ both.verdicts.0)
        × (is_none (faults_of (errors_left both.errors.1)) ≡ both.verdicts.1)) }
    ensures proper { IfOk result (λ both. (are_proper (errors_left both.errors.0) ≡ true)
        × (are_proper (errors_left both.errors.1) ≡ true)) }
    ensures equal { let p = P.patterns (maker_in options.now) in
        AreAlike left.now right.now → IfOk result (λ both.
        WhereDecided p (root_on left.now root.now) (view value.now) (λ matches target.
        (both.verdicts.0 ≡ both.verdicts.1) × SameFaults
        (faults_of (errors_left both.errors.0)) (faults_of (errors_left both.errors.1)))) }
    ensures refused { let p = P.patterns (maker_in options.now) in IfErr result (λ e.
        RefusesRoot p (node_limit_in options.now) left.now (root_on left.now root.now) e
        ⊎ RefusesRoot p (node_limit_in options.now) right.now (root_on right.now root.now) e) }
{
    let first = options.build_on(left, root)?;
    let second = options.build_on(right, root)?;
    let accepts = verdict_anew(&first, value)?;
    let also_accepts = verdict_anew(&second, value)?;
    let errors = errors_anew(&first, value)?;
    let others = errors_anew(&second, value)?;
    Ok(BothAnswers {
        verdicts: (accepts, also_accepts),
        errors: (errors, others),
    })
}

/// Whether a value is valid, asked twice: the same. It costs twice what `is_valid_by` costs.
///
/// # Errors
///
/// Where memory was refused.
pub fn is_valid_twice<M: PatternMatcher>(
    validator: &Validator<M>,
    value: &Value,
) -> Result<(bool, bool), AllocError>
    requires whole { only_whole (view value.now) ≡ true }
    ensures first { IfOk result (λ both. both.0 ≡ verdict_by validator.now (view value.now)) }
    ensures equal { IfOk result (λ both. both.0 ≡ both.1) }
{
    is_valid_by_both(validator, validator, value)
}

/// The faults of a value, asked for twice: the same, in the same order. It costs twice what `errors_by` costs.
///
/// # Errors
///
/// Where memory was refused or a count of owners is full.
pub fn iter_errors_twice<'i, M: PatternMatcher>(
    validator: &Validator<M>,
    value: &'i Value,
) -> Result<(ErrorIterator<'i>, ErrorIterator<'i>), AllocError>
    requires whole { only_whole (view value.now) ≡ true }
    ensures first { IfOk result (λ both.
        faults_of (errors_left both.0) ≡ faults_by validator.now (view value.now)) }
    ensures equal { IfOk result (λ both.
        faults_of (errors_left both.0) ≡ faults_of (errors_left both.1)) }
    ensures proper { IfOk result (λ both.
        (are_proper (errors_left both.0) ≡ true) × (are_proper (errors_left both.1) ≡ true)) }
{
    iter_errors_by_both(validator, validator, value)
}
