//! Laws of readings that differ in which patterns match: each is the contract of a function, and costs nothing to call.

ghost use Rattle.meaning_laws.specs.MatchLaws.{CutByMatches, CutByOtherMatches, ToldByOtherMatches, CircularByOtherMatches, CertifiedByOtherMatches};

/// Two readings that agree at each site that questions lead to, and on each match that a keyword there asks for at the value there, are
/// cut alike, at each depth.
pub fn cut_by_matches<S, A>()
    ensures { CutByMatches S A }
{}

/// Where the matches asked for on the way are the same, the cut reading is.
pub fn cut_by_other_matches<S, A>()
    ensures { CutByOtherMatches S A }
{}

/// There what is decided is the same.
pub fn told_by_other_matches<S, A>()
    ensures { ToldByOtherMatches S A }
{}

/// There references come back in both readings or in none.
pub fn circular_by_other_matches<S>()
    ensures { CircularByOtherMatches S }
{}

/// There both readings have the same certificates.
pub fn certified_by_other_matches<S>()
    ensures { CertifiedByOtherMatches S }
{}
