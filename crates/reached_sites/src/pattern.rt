//! Patterns of schemas, and where they stand.

ghost use Rattle.std.specs.Prelude.{◌≡◌, ◌∷◌, [], IfSome, IfNone, OnOk};
ghost use Rattle.serde_json.specs.View.{members_view};
ghost use Rattle.json_values.specs.Parts.{name as name_part};
ghost use Rattle.schema_definitions.specs.Rows.{member_names};
ghost use Rattle.applicators.specs.Made as making;
ghost use Rattle.schema_sites.specs.Read.{patterns_in, pattern_parts};
ghost use Rattle.reached_sites.specs.Patterns.{Puts};
ghost use Rattle.reached_sites.specs.Places.{place_in};

use crate::place::SchemaPlace;
use applicators::applicator::Applicator;
use applicators::asks::Asks;
use schema_sites::keyword::Keyword;
use serde_json::{Map, Value};
use std::alloc::{AllocError, Global};

/// A pattern that has to be made, and where it stands.
#[derive(Drop)]
pub struct Pattern<'r> {
    pub text: &'r str,
    pub place: SchemaPlace,
}

// The names of a keyword's value, each in turn: they are patterns.
fn push_names<'r>(
    alloc: Global,
    place: &SchemaPlace,
    schemas: &'r Map<String, Value>,
    patterns: &mut Vec<Pattern<'r>>,
) -> Result<(), AllocError>
    ensures { OnOk result (Puts (place_in place.now) (λ p. name_part p ∷ [])
        (member_names (members_view schemas.now.entries)) patterns.old.items patterns.new.items) }
{
    for (name, _) in schemas.iter() {
        let text = name.as_str();
        patterns.push(Pattern {
            text,
            place: place.member(alloc, text)?,
        })?;
    }
    Ok(())
}

// The schemas whose names are patterns.
fn by_patterns<'r>(applicator: &Applicator<'r>) -> Option<&'r Map<String, Value>>
    ensures some { IfSome result (λ schemas. making.patterns_in applicator.now
        ≡ member_names (members_view schemas.now.entries)) }
    ensures none { IfNone result (making.patterns_in applicator.now ≡ []) }
{
    match applicator.asks() {
        Asks::MatchingMembers(schemas) => Some(schemas),
        _ => None,
    }
}

/// Puts the patterns of a keyword behind others. The name is that of the member.
///
/// # Errors
///
/// Where memory was refused or a count of owners is full.
pub fn push_patterns<'r>(
    alloc: Global,
    place: &SchemaPlace,
    name: &str,
    keyword: &Keyword<'r>,
    patterns: &mut Vec<Pattern<'r>>,
) -> Result<(), AllocError>
    ensures { OnOk result (Puts (place_in place.now) (pattern_parts keyword.now name.now)
        (patterns_in keyword.now) patterns.old.items patterns.new.items) }
{
    match keyword {
        Keyword::Pattern(text) => {
            let text = *text;
            patterns.push(Pattern {
                text,
                place: place.member(alloc, name)?,
            })?;
            Ok(())
        }
        Keyword::Applicator(applicator) => match by_patterns(applicator) {
            Some(schemas) => push_names(alloc, &place.member(alloc, name)?, schemas, patterns),
            None => Ok(()),
        },
        _ => Ok(()),
    }
}
