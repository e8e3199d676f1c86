//! What the engine asks of a keyword.
ghost use Rattle.std.specs.Prelude.{◌≡◌, ℕ, List, Bool, true, drop, OnOk, OnErr, IfOk};
ghost use Rattle.serde_json.specs.Data.{Data};
ghost use Rattle.serde_json.specs.View.{view};
ghost use Rattle.json_values.specs.Parts.{Part};
ghost use Rattle.schema_meaning.specs.Keywords.{Shape, rule};
ghost use Rattle.schema_meaning.specs.Rules.{asks};
ghost use Rattle.schema_engine.specs.Asking.{AsksSo};
ghost use Rattle.schema_engine.specs.Entries.{parts_of};
ghost use Rattle.schema_engine.specs.Itself.{is_fine, SettlesSo};
ghost use Rattle.schema_engine.specs.Places.{value_at};
ghost use Rattle.schema_engine.specs.Questions.{Pushes, PushesAsked};
ghost use Rattle.schema_engine.specs.Refusals.{IsReason, IsRefusedUnder};
ghost use Rattle.schema_engine.specs.Rules.{combination_of, is_right, questions_of, AreOf};
ghost use Rattle.schema_engine.specs.Situations.{TellsNotes};
ghost use Rattle.schema_engine.specs.Together.{PushesBoth};
ghost use Rattle.schema_engine.specs.Led.{MayAskFor};
ghost use Rattle.schema_engine.specs.Matches.{Answers, InEach};

use crate::asking::Asking;
use crate::combination::Combination;
use crate::entry::Entry;
use crate::itself::Itself;
use crate::matching::Matching;
use crate::place::{Place, Question};
use crate::reason::Reason;
use crate::situation::Situation;
use schema_reports::Observer;
use std::alloc::AllocError;

/// A keyword that owns what it needs, its subschemas by their numbers in a graph.
///
/// At a value it follows the rule that the keyword of its shape follows there.
pub trait Validate: Drop {
    ghost shape: { Self → Shape ℕ };

    // Its numbers of patterns name the patterns of its shape.
    ghost knows: { Self → (ℕ → List ℕ) → Type 0 };

    // The parts that a question of an entry adds to the road.
    ghost added: { Self → ℕ → List Part };

    // The questions of both can be pushed together.
    ghost pairs: { Self → Self → Type 0 };

    /// How the answers to its questions make its verdict.
    fn combination(&self, place: Place<'_>) -> Combination
        ensures { (matches : List ℕ → List ℕ → Bool)
            → result ≡ combination_of (rule matches (value_at place.entry) (shape self.now)) };

    /// What it asks, where that is simple.
    fn asking<'q, 'i>(&'q self, place: Place<'i>) -> Asking<'q, 'i>
        ensures { (matches : List ℕ → List ℕ → Bool)
            → AsksSo result (rule matches (value_at place.entry) (shape self.now)) };

    /// Whether nothing is wrong with the value itself, and whether anything is asked beside.
    ///
    /// # Errors
    ///
    /// Where memory was refused.
    fn accepts_itself<T: Matching>(
        &self,
        place: Place<'_>,
        matching: &mut T,
    ) -> Result<Itself, AllocError>
        requires known { knows self.now (T.matches matching.old).pattern }
        requires asked { MayAskFor (T.matches matching.old) (shape self.now) (value_at place) }
        ensures same { OnOk result (T.matches matching.new ≡ T.matches matching.old) }
        ensures stays { OnErr result (T.matches matching.new ≡ T.matches matching.old) }
        ensures right { IfOk result (λ s. InEach (T.matches matching.old) (λ m.
            is_fine s ≡ is_right (rule m (value_at place.entry) (shape self.now)))) }
        ensures settled { IfOk result (λ s. InEach (T.matches matching.old) (λ m.
            SettlesSo s (rule m (value_at place.entry) (shape self.now)))) };

    /// Pushes its questions behind those that are there, in the rule's order.
    ///
    /// # Errors
    ///
    /// Where memory was refused. Some questions may have been pushed then.
    fn questions<'q, 'i: 'q, T: Matching>(
        &'q self,
        place: Place<'i>,
        matching: &mut T,
        into: &mut Vec<Question<'q, 'i>>,
    ) -> Result<(), AllocError>
        requires known { knows self.now (T.matches matching.old).pattern }
        requires asked { MayAskFor (T.matches matching.old) (shape self.now) (value_at place) }
        ensures same { OnOk result (T.matches matching.new ≡ T.matches matching.old) }
        ensures stays { OnErr result (T.matches matching.new ≡ T.matches matching.old) }
        ensures pushed { OnOk result (InEach (T.matches matching.old) (λ m.
            Pushes into.old.items into.new.items (questions_of (rule m (value_at place.entry) (shape self.now))))) }
        ensures asked { OnOk result (InEach (T.matches matching.old) (λ m.
            PushesAsked (added self.now) into.old.items into.new.items
            (asks (rule m (value_at place.entry) (shape self.now))))) };

    /// Whether its questions can be pushed together with those of another keyword.
    fn goes_with(&self, other: &Self) -> bool
        ensures { result ≡ true → pairs self.now other.now };

    /// Pushes its questions and those of another keyword behind those that are there, in any order, and asks for no match twice. Each answer
    /// has to be yes.
    ///
    /// # Errors
    ///
    /// Where memory was refused. Some questions may have been pushed then.
    fn questions_with<'q, 'i: 'q, T: Matching>(
        &'q self,
        other: &'q Self,
        place: Place<'i>,
        matching: &mut T,
        into: &mut Vec<Question<'q, 'i>>,
    ) -> Result<(), AllocError>
        requires pairs { pairs self.now other.now }
        requires known { knows self.now (T.matches matching.old).pattern }
        requires known_beside { knows other.now (T.matches matching.old).pattern }
        requires asked { MayAskFor (T.matches matching.old) (shape self.now) (value_at place) }
        requires asked_beside { MayAskFor (T.matches matching.old) (shape other.now) (value_at place) }
        ensures same { OnOk result (T.matches matching.new ≡ T.matches matching.old) }
        ensures stays { OnErr result (T.matches matching.new ≡ T.matches matching.old) }
        ensures pushed { OnOk result (InEach (T.matches matching.old) (λ m.
            PushesBoth into.old.items into.new.items
            (rule m (value_at place.entry) (shape self.now))
            (rule m (value_at place.entry) (shape other.now)))) };

    /// Pushes its questions behind those that are there, in the rule's order, and asks for no match: from `start` on stand the questions of
    /// another keyword with which it goes together.
    ///
    /// # Errors
    ///
    /// Where memory was refused. Some questions may have been pushed then.
    fn questions_beside<'q, 'i: 'q>(
        &'q self,
        first: &Self,
        place: Place<'i>,
        start: usize,
        into: &mut Vec<Question<'q, 'i>>,
    ) -> Result<(), AllocError>
        requires pairs { pairs first.now self.now }
        ensures pushed { OnOk result ((m : Answers)
            → AreOf (rule m (value_at place.entry) (shape first.now)) (drop start into.old.items)
            → Pushes into.old.items into.new.items (questions_of (rule m (value_at place.entry) (shape self.now)))) }
        ensures asked { OnOk result ((m : Answers)
            → AreOf (rule m (value_at place.entry) (shape first.now)) (drop start into.old.items)
            → PushesAsked (added self.now) into.old.items into.new.items
            (asks (rule m (value_at place.entry) (shape self.now)))) };

    /// Where in it the schema of a question of this entry stands.
    fn entry(&self, entry: usize) -> Entry<'_>
        ensures { parts_of result ≡ added self.now entry };

    /// The name under which it refuses where so many of its questions are answered yes, if one fault speaks for all of them.
    fn refused_name(&self, accepted: usize) -> &str
        ensures { (matches : List ℕ → List ℕ → Bool) (d : Data)
            → IsRefusedUnder (rule matches d (shape self.now)) accepted result.now };

    /// Tells an observer of what is wrong with the value itself.
    ///
    /// # Errors
    ///
    /// Where memory was refused or a count of owners is full.
    fn tell_notes<'o, T: Matching>(
        &self,
        situation: &Situation<'_, 'o>,
        matching: &mut T,
        observer: &mut Observer<'o>,
    ) -> Result<(), AllocError>
        requires known { knows self.now (T.matches matching.old).pattern }
        requires asked { MayAskFor (T.matches matching.old) (shape self.now) (view situation.now.value.now) }
        ensures same { OnOk result (T.matches matching.new ≡ T.matches matching.old) }
        ensures stays { OnErr result (T.matches matching.new ≡ T.matches matching.old) }
        ensures told { OnOk result (InEach (T.matches matching.old) (λ m.
            TellsNotes situation.now (rule m (view situation.now.value.now) (shape self.now)) observer.old observer.new)) };

    /// Why it refuses the value, if one fault speaks for all of its questions and says nothing of their answers. These are its questions.
    ///
    /// # Errors
    ///
    /// Where memory was refused or a count of owners is full.
    fn reason<'o>(
        &self,
        situation: &Situation<'_, 'o>,
        questions: &[Question<'_, 'o>],
    ) -> Result<Reason<'o>, AllocError>
        ensures { IfOk result (λ r. (m : Answers)
            → AreOf (rule m (view situation.now.value.now) (shape self.now)) questions.now
            → IsReason (rule m (view situation.now.value.now) (shape self.now)) (view situation.now.value.now) r) };
}
