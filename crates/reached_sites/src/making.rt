//! The patterns of schemas put into a table.

ghost use Rattle.std.specs.Prelude.{◌≡◌, ◌∷◌, [], true, IfErr, OnOk};
ghost use Rattle.schema_meaning.specs.Members.{is_listed};
ghost use Rattle.schema_patterns.specs.Tables.{texts_of_table};
ghost use Rattle.reached_sites.specs.Patterns.{texts_of, text_of, Holds, IsFilled, IsFront, RefusesPattern, TellsPattern};

use crate::cause::BuildCause;
use crate::pattern::Pattern;
use schema_patterns::{PatternError, PatternMaker, PatternTable};
use std::alloc::Global;

fn add_pattern<P: PatternMaker>(
    alloc: Global,
    maker: &P,
    pattern: &Pattern<'_>,
    table: &mut PatternTable<P::Matcher>,
) -> Result<(), BuildCause>
    ensures filled { IsFilled P.Matcher.finds (P.patterns maker.now).finished
        (P.patterns maker.now).makes table.old
        → IsFilled P.Matcher.finds (P.patterns maker.now).finished (P.patterns maker.now).makes table.new }
    ensures kept { Holds table.new (texts_of_table table.old) }
    ensures grows { IsFront (texts_of_table table.old) (texts_of_table table.new) }
    ensures held { OnOk result (is_listed (text_of pattern.now) (texts_of_table table.new) ≡ true) }
    ensures refused { IfErr result (RefusesPattern (P.patterns maker.now).makes (pattern.now ∷ [])) }
    ensures tells { IfErr result (TellsPattern (pattern.now ∷ [])) }
{
    let text = pattern.text;
    match table.add_with(alloc, text, || maker.make(alloc, text)) {
        Ok(_) => Ok(()),
        Err(PatternError::BadPattern) => Err(BuildCause::BadPattern {
            place: pattern.place.shared()?,
            pattern: String::from_str(alloc, text)?,
        }),
        Err(PatternError::Memory) => Err(BuildCause::Memory),
    }
}

/// Puts patterns into a table, in which each text is made once.
///
/// # Errors
///
/// A pattern that the maker refuses, the first of them, or want of memory.
pub fn add_patterns<P: PatternMaker>(
    alloc: Global,
    maker: &P,
    patterns: &[Pattern<'_>],
    table: &mut PatternTable<P::Matcher>,
) -> Result<(), BuildCause>
    ensures filled { IsFilled P.Matcher.finds (P.patterns maker.now).finished
        (P.patterns maker.now).makes table.old
        → IsFilled P.Matcher.finds (P.patterns maker.now).finished (P.patterns maker.now).makes table.new }
    ensures kept { Holds table.new (texts_of_table table.old) }
    ensures grows { IsFront (texts_of_table table.old) (texts_of_table table.new) }
    ensures held { OnOk result (Holds table.new (texts_of patterns.now)) }
    ensures refused { IfErr result (RefusesPattern (P.patterns maker.now).makes patterns.now) }
    ensures tells { IfErr result (TellsPattern patterns.now) }
{
    for pattern in patterns {
        add_pattern(alloc, maker, pattern, table)?;
    }
    Ok(())
}
