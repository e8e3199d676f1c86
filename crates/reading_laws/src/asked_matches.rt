//! Which matches a value can ask for: patterns of the schemas that are reached, with texts of the value. Each law is the contract of a
//! function, and costs nothing to call.

ghost use Rattle.reading_laws.specs.AskedLaws.{LedIsReached, AskedMatchesAreKnown, MatchesAreRead};

/// The sites that chains of questions lead to are reached.
pub fn led_is_reached()
    ensures { LedIsReached }
{}

/// A keyword asks for matches of its own patterns in texts of the value.
pub fn asked_matches_are_known()
    ensures { AskedMatchesAreKnown }
{}

/// Matches that were read of each pattern that is reached, in each text of a value, are those that the value asks for, where these finish.
pub fn matches_are_read()
    ensures { MatchesAreRead }
{}
