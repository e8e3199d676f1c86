//! What an applicator is called, how it combines the answers to its questions, and what these are.
ghost use Rattle.std.specs.Prelude.{◌≡◌, true};
ghost use Rattle.serde_json.specs.View.{view};
ghost use Rattle.applicators.specs.Combined.{name_of, combining_of, asks_of, refused_name, is_every, IsEvery, is_each_named, Decides};

use crate::applicator::{Applicator, ApplicatorOf};
use crate::asks::Asks;
use crate::combining::{Combining, count_refused_at};
use serde_json::Value;

impl<S, L, N, P, E, V> ApplicatorOf<S, L, N, P, E, V> {
    /// The keyword's name.
    pub const fn name(&self) -> &'static str
        ensures { result.now ≡ name_of self.now }
    {
        self.keyword
    }

    /// How it combines the answers to its questions.
    pub const fn combining(&self) -> Combining
        ensures { result ≡ combining_of self.now }
    {
        self.combining
    }

    /// Whether it accepts a value just where every answer is yes, and tells each fault of a name of the object.
    pub const fn is_each_named(&self) -> bool
        ensures { result ≡ is_each_named self.now }
    {
        self.combining.tells_names()
    }

    /// The name under which it refuses a value, where so many answers are yes: of `contains` that of the bound that is not kept.
    pub const fn refused_name(&self, accepted: usize) -> &'static str
        ensures { result.now ≡ refused_name self.now accepted }
    {
        match self.combining {
            Combining::Counted { least, most } => count_refused_at(least, most, accepted),
            _ => self.keyword,
        }
    }
}

impl<'r> Applicator<'r> {
    /// What it asks of a value.
    pub const fn asks(&self) -> Asks<'r>
        ensures { result ≡ asks_of self.now }
    {
        self.asks
    }

    /// Whether it accepts a value just where every answer is yes and nothing is noted of the value itself; it tells what is noted, and
    /// the faults of its subschemas.
    pub const fn is_every(&self) -> bool
        ensures every { result ≡ is_every self.now }
        ensures rule { result ≡ true → IsEvery self.now }
    {
        self.combining.tells_each()
    }

    /// Whether it accepts a value of which it asks so many questions, so many of them answered yes.
    ///
    /// It speaks of the keywords whose verdict is by these numbers alone, so not of `dependencies`.
    pub fn accepts(&self, value: &Value, asked: usize, accepted: usize) -> bool
        ensures { Decides self.now (view value.now) asked accepted result }
    {
        self.combining.decides(value, asked, accepted)
    }
}
