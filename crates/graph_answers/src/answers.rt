//! What counts as a match.
ghost use Rattle.std.specs.Prelude.{◌≡◌, Bool, Option, IfOk};
ghost use Rattle.schema_patterns.specs.Answers.{Tells};
ghost use Rattle.schema_patterns.specs.Read.{is_yes as yes_of};

use schema_patterns::MatchAnswer;
use std::alloc::AllocError;

// Whether an answer is a match. One that stays unfinished is none.
pub(crate) fn is_yes(answer: MatchAnswer) -> Result<bool, AllocError>
    ensures { IfOk result (λ b. (found : Option Bool) → Tells found answer → b ≡ yes_of found) }
{
    match answer {
        MatchAnswer::Yes => Ok(true),
        MatchAnswer::No => Ok(false),
        MatchAnswer::Unfinished => Ok(false),
        MatchAnswer::NoMemory => Err(AllocError),
    }
}
