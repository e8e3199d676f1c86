//! Texts and members' names that patterns match.
ghost use Rattle.std.specs.Prelude.{◌≡◌, [], ◌∷◌, OnOk, OnErr, IfOk, map};
ghost use Rattle.std.specs.List.{list_any};
ghost use Rattle.json_values.specs.Patterns.{matched};
ghost use Rattle.schema_meaning.specs.Keywords.{text_is};
ghost use Rattle.schema_meaning.specs.Questions.{is_declared as is_among};
ghost use Rattle.schema_engine.specs.Matches.{InEach};
ghost use Rattle.schema_engine.specs.Places.{value_at};
ghost use Rattle.compiled_keywords.specs.Asked.{MayMatchText, MayMatchEach};
ghost use Rattle.compiled_keywords.specs.Owned.{text_of, declared_by, IsNumbered, AllNumbered};

use crate::asks::Declared;
use crate::subschemas::Pattern;
use schema_engine::matching::Matching;
use schema_engine::place::Place;
use serde_json::Value;
use std::alloc::AllocError;

/// Whether a pattern matches a text. Another value is accepted.
///
/// # Errors
///
/// Where memory was refused.
pub(crate) fn is_matched<T: Matching>(
    pattern: &Pattern,
    place: Place<'_>,
    matching: &mut T,
) -> Result<bool, AllocError>
    requires known { IsNumbered (T.matches matching.old).pattern pattern.now }
    requires asked { MayMatchText (T.matches matching.old) (text_of pattern.now) (value_at place) }
    ensures same { OnOk result (T.matches matching.new ≡ T.matches matching.old) }
    ensures stays { OnErr result (T.matches matching.new ≡ T.matches matching.old) }
    ensures read { IfOk result (λ b. InEach (T.matches matching.old)
        (λ m. b ≡ text_is (matched m (text_of pattern.now)) (value_at place.entry))) }
{
    match place {
        Place::Value(value) => match value {
            Value::String(text) => matching.is_match(pattern.number, text.as_str()),
            _ => Ok(true),
        },
        Place::Name(text) => matching.is_match(pattern.number, text),
    }
}

fn is_matched_by<T: Matching>(
    patterns: &[Pattern],
    name: &str,
    matching: &mut T,
) -> Result<bool, AllocError>
    requires known { AllNumbered (T.matches matching.old).pattern patterns.now }
    requires asked { MayMatchEach (T.matches matching.old)
        (map text_of patterns.now) (name.now ∷ []) }
    ensures same { OnOk result (T.matches matching.new ≡ T.matches matching.old) }
    ensures stays { OnErr result (T.matches matching.new ≡ T.matches matching.old) }
    ensures read { IfOk result (λ b. InEach (T.matches matching.old)
        (λ m. b ≡ list_any (λ p. matched m p name.now) (map text_of patterns.now))) }
{
    for pattern in patterns {
        if matching.is_match(pattern.number, name)? {
            return Ok(true);
        }
    }
    Ok(false)
}

/// Whether a name is declared, or a pattern that is declared matches it.
///
/// # Errors
///
/// Where memory was refused.
pub(crate) fn is_declared<T: Matching>(
    declared: &Declared,
    name: &str,
    matching: &mut T,
) -> Result<bool, AllocError>
    requires known { AllNumbered (T.matches matching.old).pattern declared.now.patterns.items }
    requires asked { MayMatchEach (T.matches matching.old)
        (declared_by declared.now).patterns (name.now ∷ []) }
    ensures same { OnOk result (T.matches matching.new ≡ T.matches matching.old) }
    ensures stays { OnErr result (T.matches matching.new ≡ T.matches matching.old) }
    ensures read { IfOk result (λ b. InEach (T.matches matching.old)
        (λ m. b ≡ is_among m (declared_by declared.now) name.now)) }
{
    if declared.names.contains(name) {
        Ok(true)
    } else {
        is_matched_by(&declared.patterns, name, matching)
    }
}
