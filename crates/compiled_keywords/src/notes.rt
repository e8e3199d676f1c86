//! What compiled keywords tell of a value itself.
ghost use Rattle.std.specs.Prelude.{◌≡◌, ◌∷◌, [], ℕ, List, Bool, OnOk, OnErr, map, string_bytes, codes};
ghost use Rattle.std.specs.List.{flat_map};
ghost use Rattle.serde_json.specs.Find.{get};
ghost use Rattle.serde_json.specs.View.{view};
ghost use Rattle.schema_meaning.specs.Faults as faults;
ghost use Rattle.schema_meaning.specs.Questions.{if_member};
ghost use Rattle.schema_meaning.specs.Keywords.{missing, missing_beside, needed, named, pattern as asserted};
ghost use Rattle.schema_meaning.specs.Keywords.{unless, wrong as found_wrong};
ghost use Rattle.schema_engine.specs.Matches.{InEach};
ghost use Rattle.assertions.specs.Shapes.{assertion_of as plain_of};
ghost use Rattle.assertions.specs.Wrong.{kind_of, note_of, notes_of};
ghost use Rattle.compiled_keywords.specs.Asked.{MayMatchText};
ghost use Rattle.compiled_keywords.specs.Owned.{needed_by, depending, text_of, IsNumbered};
ghost use Rattle.compiled_keywords.specs.Shapes.{assertion_of};
ghost use Rattle.compiled_keywords.specs.Told.{TellsEach, TellsUnder, lacking};

use crate::assertion::{Assertion, lacks};
use crate::patterns::is_matched;
use crate::subschemas::{Dependency, NamedDependency, NeededNames, Pattern};
use assertions::assertion as plain;
use assertions::assertion::Wrong;
use error_kinds::kind_of_wrong;
use schema_engine::matching::Matching;
use schema_engine::place::Place;
use schema_engine::situation::Situation;
use schema_reports::{Observer, ValidationErrorKind};
use std::alloc::AllocError;
use value_checks::equality::equal;

// A fault, which is made where the observer wants it.
fn tell_wrong<'o>(
    situation: &Situation<'_, 'o>,
    keyword: &str,
    wrong: Wrong<'_>,
    observer: &mut Observer<'o>,
) -> Result<(), AllocError>
    ensures { OnOk result (TellsEach situation.now keyword.now
        (note_of (view situation.now.value.now) wrong.entry ∷ []) observer.old observer.new) }
{
    if situation.tell_paths(keyword, observer)? {
        return Ok(());
    }
    if !observer.hear() {
        return Ok(());
    }
    let kind = kind_of_wrong(situation.alloc, wrong)?;
    situation.tell(keyword, kind, situation.value, observer)
}

// Where something is wrong.
fn tell_unless<'o>(
    situation: &Situation<'_, 'o>,
    keyword: &str,
    accepted: bool,
    wrong: Wrong<'_>,
    observer: &mut Observer<'o>,
) -> Result<(), AllocError>
    ensures { OnOk result (TellsEach situation.now keyword.now
        (unless accepted (kind_of wrong.entry) (view situation.now.value.now)) observer.old observer.new) }
{
    if accepted {
        Ok(())
    } else {
        tell_wrong(situation, keyword, wrong, observer)
    }
}

fn tell_each<'o>(
    situation: &Situation<'_, 'o>,
    keyword: &str,
    found: &[Wrong<'_>],
    observer: &mut Observer<'o>,
) -> Result<(), AllocError>
    ensures { OnOk result (TellsEach situation.now keyword.now
        (notes_of (view situation.now.value.now) found.now) observer.old observer.new) }
{
    for wrong in found {
        tell_wrong(situation, keyword, *wrong, observer)?;
    }
    Ok(())
}

// A name that is no member's.
fn tell_lacking<'o>(
    situation: &Situation<'_, 'o>,
    keyword: &str,
    name: &str,
    observer: &mut Observer<'o>,
) -> Result<(), AllocError>
    ensures { OnOk result (TellsEach situation.now keyword.now
        (lacking (view situation.now.value.now) name.now) observer.old observer.new) }
{
    if lacks(situation.value, name) {
        tell_wrong(situation, keyword, Wrong::Required(name), observer)
    } else {
        Ok(())
    }
}

fn tell_each_lacking<'o>(
    situation: &Situation<'_, 'o>,
    keyword: &str,
    names: &[String],
    observer: &mut Observer<'o>,
) -> Result<(), AllocError>
    ensures { OnOk result (TellsEach situation.now keyword.now
        (flat_map (lacking (view situation.now.value.now))
        (map string_bytes names.now)) observer.old observer.new) }
{
    for name in names {
        tell_lacking(situation, keyword, name.as_str(), observer)?;
    }
    Ok(())
}

// Each of these names that is missing in an object.
fn tell_missing<'o>(
    situation: &Situation<'_, 'o>,
    keyword: &str,
    names: &[String],
    observer: &mut Observer<'o>,
) -> Result<(), AllocError>
    ensures { OnOk result (TellsEach situation.now keyword.now
        (missing (map string_bytes names.now) (view situation.now.value.now)) observer.old observer.new) }
{
    if situation.value.is_object() {
        tell_each_lacking(situation, keyword, names, observer)
    } else {
        Ok(())
    }
}

// The same where a name is a member's.
fn tell_missing_where<'o>(
    situation: &Situation<'_, 'o>,
    keyword: &str,
    name: &str,
    names: &[String],
    observer: &mut Observer<'o>,
) -> Result<(), AllocError>
    ensures { OnOk result (TellsEach situation.now keyword.now
        (if_member (get name.now (view situation.now.value.now))
        (λ e. missing (map string_bytes names.now) (view situation.now.value.now))) observer.old observer.new) }
{
    if lacks(situation.value, name) {
        Ok(())
    } else {
        tell_missing(situation, keyword, names, observer)
    }
}

fn tell_missing_beside<'o>(
    situation: &Situation<'_, 'o>,
    keyword: &str,
    entries: &[NeededNames],
    observer: &mut Observer<'o>,
) -> Result<(), AllocError>
    ensures { OnOk result (TellsEach situation.now keyword.now
        (missing_beside (map needed_by entries.now) (view situation.now.value.now)) observer.old observer.new) }
{
    for entry in entries {
        let name = entry.name.as_str();
        tell_missing_where(situation, keyword, name, &entry.needed, observer)?;
    }
    Ok(())
}

fn tell_dependency<'o>(
    situation: &Situation<'_, 'o>,
    keyword: &str,
    entry: &NamedDependency,
    observer: &mut Observer<'o>,
) -> Result<(), AllocError>
    ensures { OnOk result (TellsEach situation.now keyword.now
        (if_member (get (depending entry.now).0 (view situation.now.value.now))
        (λ e. needed (view situation.now.value.now) (depending entry.now).1)) observer.old observer.new) }
{
    match &entry.dependency {
        Dependency::Needs(names) => {
            let name = entry.name.as_str();
            tell_missing_where(situation, keyword, name, names, observer)
        }
        Dependency::Applies(_) => Ok(()),
    }
}

// Each name that is missing beside the names of the entries that list some.
pub(crate) fn tell_dependencies<'o>(
    situation: &Situation<'_, 'o>,
    keyword: &str,
    entries: &[NamedDependency],
    observer: &mut Observer<'o>,
) -> Result<(), AllocError>
    ensures { OnOk result (TellsEach situation.now keyword.now
        (flat_map (λ p. if_member (get p.0 (view situation.now.value.now))
        (λ e. needed (view situation.now.value.now) p.1))
        (map depending entries.now)) observer.old observer.new) }
{
    for entry in entries {
        tell_dependency(situation, keyword, entry, observer)?;
    }
    Ok(())
}

fn tell_plain<'o>(
    situation: &Situation<'_, 'o>,
    assertion: &plain::Assertion<'_>,
    observer: &mut Observer<'o>,
) -> Result<(), AllocError>
    ensures { OnOk result ((matches : List ℕ → List ℕ → Bool)
        → TellsEach situation.now (named (plain_of assertion.now))
        (found_wrong matches (plain_of assertion.now)
        (view situation.now.value.now)) observer.old observer.new) }
{
    let found = assertion.wrong(situation.alloc, situation.value)?;
    tell_each(situation, assertion.name(), &found, observer)
}

/// Tells what an assertion finds wrong.
///
/// # Errors
///
/// Where memory was refused or a count of owners is full.
pub(crate) fn tell_assertion<'o>(
    situation: &Situation<'_, 'o>,
    assertion: &Assertion,
    observer: &mut Observer<'o>,
) -> Result<(), AllocError>
    ensures { OnOk result ((matches : List ℕ → List ℕ → Bool)
        → TellsEach situation.now (named (assertion_of assertion.now))
        (found_wrong matches (assertion_of assertion.now)
        (view situation.now.value.now)) observer.old observer.new) }
{
    let value = situation.value;
    match assertion {
        Assertion::Plain(assertion) => tell_plain(situation, assertion, observer),
        Assertion::Enumeration(options) => {
            let accepted = options.contains(value);
            tell_unless(
                situation,
                "enum",
                accepted,
                Wrong::Enumeration(&options.list),
                observer,
            )
        }
        Assertion::Constant(expected) => {
            let accepted = equal(value, expected);
            tell_unless(
                situation,
                "const",
                accepted,
                Wrong::Constant(expected),
                observer,
            )
        }
        Assertion::Required(names) => {
            tell_missing(situation, "required", &names.listed, observer)
        }
        Assertion::DependentRequired(entries) => {
            tell_missing_beside(situation, "dependentRequired", entries, observer)
        }
    }
}

// A text that its pattern does not match.
fn tell_unmatched<'o>(
    situation: &Situation<'_, 'o>,
    pattern: &Pattern,
    observer: &mut Observer<'o>,
) -> Result<(), AllocError>
    ensures { OnOk result (TellsEach situation.now (codes "pattern")
        (record { kind = faults.Pattern (text_of pattern.now); value = view situation.now.value.now }
        ∷ []) observer.old observer.new) }
{
    if situation.tell_paths("pattern", observer)? {
        return Ok(());
    }
    if !observer.hear() {
        return Ok(());
    }
    let kind = ValidationErrorKind::Pattern {
        pattern: pattern.text.clone()?,
    };
    situation.tell("pattern", kind, situation.value, observer)
}

/// Tells of a text that a pattern matches nowhere.
///
/// # Errors
///
/// Where memory was refused or a count of owners is full.
pub(crate) fn tell_pattern<'o, T: Matching>(
    situation: &Situation<'_, 'o>,
    pattern: &Pattern,
    matching: &mut T,
    observer: &mut Observer<'o>,
) -> Result<(), AllocError>
    requires known { IsNumbered (T.matches matching.old).pattern pattern.now }
    requires asked { MayMatchText (T.matches matching.old)
        (text_of pattern.now) (view situation.now.value.now) }
    ensures same { OnOk result (T.matches matching.new ≡ T.matches matching.old) }
    ensures stays { OnErr result (T.matches matching.new ≡ T.matches matching.old) }
    ensures told { OnOk result (InEach (T.matches matching.old)
        (λ m. TellsEach situation.now (codes "pattern")
        (found_wrong m (asserted (text_of pattern.now))
        (view situation.now.value.now)) observer.old observer.new)) }
{
    if is_matched(pattern, Place::Value(situation.value), matching)? {
        Ok(())
    } else {
        tell_unmatched(situation, pattern, observer)
    }
}

/// Tells that the schema `false` stands there.
///
/// # Errors
///
/// Where memory was refused or a count of owners is full.
pub(crate) fn tell_never<'o>(
    situation: &Situation<'_, 'o>,
    observer: &mut Observer<'o>,
) -> Result<(), AllocError>
    ensures { OnOk result (TellsUnder situation.now []
        (record { kind = faults.FalseSchema; value = view situation.now.value.now }
        ∷ []) observer.old observer.new) }
{
    situation.tell_of_schema(ValidationErrorKind::FalseSchema, situation.value, observer)
}
