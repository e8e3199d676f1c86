//! How many questions are answered yes.
ghost use Rattle.std.specs.Prelude.{◌≡◌, ◌<◌, ◌≤◌, ◌+◌, ℕ, map, drop, OnOk, OnErr, IfOk};
ghost use Rattle.schema_meaning.specs.Members.{count_true};
ghost use Rattle.schema_engine.specs.Places.{value_at};
ghost use Rattle.schema_engine.specs.Progress.{numbers_in};
ghost use Rattle.schema_engine.specs.Questions.{call_of};
ghost use Rattle.schema_engine.specs.Graphs.{reading_of};
ghost use Rattle.schema_engine.specs.Standing.{size_of, EachMayAskAt};
ghost use Rattle.schema_engine.specs.Verdicts.{asked_in, Counts};
ghost use Rattle.schema_engine.specs.Led.{AreReady};
ghost use Rattle.schema_engine.specs.Matches.{InEach};

use crate::here::Here;
use crate::matching::Matching;
use crate::place::Question;
use crate::validate::Validate;
use crate::verdict::accepts_question;
use std::alloc::AllocError;

/// How many of the questions from `start` on are answered yes.
///
/// Each is asked once. The error comes where memory was refused or a count of owners is full.
pub fn count_accepted<'q, 'i: 'q, K: Validate, T: Matching>(
    here: &Here<'q, 'i, '_, K>,
    start: usize,
    matching: &mut T,
    questions: &mut Vec<Question<'q, 'i>>,
) -> Result<usize, AllocError>
    requires known { AreReady K.knows K.shape (T.matches matching.old) here.now.graph.now.nodes.items }
    requires asked { EachMayAskAt (T.matches matching.old) here.now
        (map call_of (drop start questions.old.items)) }
    ensures matches { OnOk result (T.matches matching.new ≡ T.matches matching.old) }
    ensures stays { OnErr result (T.matches matching.new ≡ T.matches matching.old) }
    ensures questions { OnOk result (questions.new.items ≡ questions.old.items) }
    ensures counted { IfOk result (λ b. InEach (T.matches matching.old) (λ m.
        let r = reading_of K.shape m here.now.graph.now.nodes.items in
        Counts here.now.place (numbers_in here.now.progress.now) (size_of here.now)
        (λ x. count_true (map (asked_in r x) (map call_of (drop start questions.old.items)))) b)) }
{
    let mut count = 0;
    let end = questions.len();
    for index in start..end {
        let question = questions[index];
        if accepts_question(here, question, matching, questions)? {
            count += 1;
        }
    }
    Ok(count)
}
