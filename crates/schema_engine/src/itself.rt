//! Whether nothing is wrong with a value itself.
ghost use Rattle.std.specs.Prelude.{◌≡◌, false, map, OnOk, OnErr, IfOk};
ghost use Rattle.schema_meaning.specs.Members.{In, all_true};
ghost use Rattle.schema_meaning.specs.Keywords.{rule};
ghost use Rattle.schema_engine.specs.Itself.{is_fine, is_settled, SettlesSo};
ghost use Rattle.schema_engine.specs.Places.{value_at};
ghost use Rattle.schema_engine.specs.Rules.{is_right};
ghost use Rattle.schema_engine.specs.Led.{MayAskFor};
ghost use Rattle.schema_engine.specs.Matches.{InEach};

use crate::matching::Matching;
use crate::place::Place;
use crate::validate::Validate;
use std::alloc::AllocError;

/// What is said of a value itself.
#[derive(Clone, Copy)]
pub enum Itself {
    /// Something is wrong with it.
    Wrong,
    /// Nothing is, and the answers to questions decide.
    Asks,
    /// Nothing is, and nothing is asked.
    Settled,
}

impl Itself {
    /// What is said of it where questions decide if nothing is wrong.
    pub const fn asks_if(right: bool) -> Itself
        ensures fine { is_fine result ≡ right }
        ensures asks { is_settled result ≡ false }
    {
        if right { Itself::Asks } else { Itself::Wrong }
    }

    /// What is said of it where nothing is asked.
    pub const fn settled_if(right: bool) -> Itself
        ensures fine { is_fine result ≡ right }
        ensures settled { is_settled result ≡ right }
    {
        if right {
            Itself::Settled
        } else {
            Itself::Wrong
        }
    }
}

// What is said of the value itself by these keywords. No question is asked.
pub(crate) fn accept_itself<K: Validate, T: Matching>(
    keywords: &[K],
    place: Place<'_>,
    matching: &mut T,
) -> Result<Itself, AllocError>
    requires known { (k : K) → In k keywords.now → K.knows k (T.matches matching.old).pattern }
    requires asked { (k : K) → In k keywords.now
        → MayAskFor (T.matches matching.old) (K.shape k) (value_at place) }
    ensures matches { OnOk result (T.matches matching.new ≡ T.matches matching.old) }
    ensures stays { OnErr result (T.matches matching.new ≡ T.matches matching.old) }
    ensures right { IfOk result (λ s. InEach (T.matches matching.old) (λ m.
        is_fine s ≡ all_true (map (λ k. is_right (rule m (value_at place.entry) (K.shape k))) keywords.now))) }
    ensures settled { IfOk result (λ s. InEach (T.matches matching.old) (λ m.
        (k : K) → In k keywords.now → SettlesSo s (rule m (value_at place.entry) (K.shape k)))) }
{
    let mut all = Itself::Settled;
    for keyword in keywords {
        match keyword.accepts_itself(place, matching)? {
            Itself::Wrong => return Ok(Itself::Wrong),
            Itself::Asks => all = Itself::Asks,
            Itself::Settled => {}
        }
    }
    Ok(all)
}
