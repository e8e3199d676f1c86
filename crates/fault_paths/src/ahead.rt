//! The question that the two paths of a fault lead to.
ghost use Rattle.std.specs.Prelude.{IfOk, IfSome, MatchOption};
ghost use Rattle.fault_paths.specs.Texts.{text_left};
ghost use Rattle.fault_paths.specs.Ahead.{NoneAhead, IsAhead, LeadsNowhere, LeadsTo, IsNoLonger};

use crate::behind::{behind_entry, behind_step};
use applicators::question::Question;
use std::alloc::{AllocError, Global};

/// The question that two paths lead to, and what is left of both behind it: the text behind the next `/`, and none where nothing is left.
#[derive(Clone, Copy, Debug)]
pub struct Ahead<'r, 'i, 'p> {
    pub question: Question<'r, 'i>,
    pub instance: Option<&'p str>,
    pub evaluation: Option<&'p str>,
}

// What is left of both paths behind a question, where they lead to it.
fn behind_question<'r, 'i, 'p>(
    alloc: Global,
    question: Question<'r, 'i>,
    instance: Option<&'p str>,
    after: Option<&'p str>,
) -> Result<Option<Ahead<'r, 'i, 'p>>, AllocError>
    ensures leads { IfOk result (λ o. MatchOption o
        (LeadsNowhere question.entry (text_left instance.entry) (text_left after.entry))
        (LeadsTo question.entry (text_left instance.entry) (text_left after.entry))) }
    ensures shorter { IfOk result (λ o. IfSome o (IsNoLonger (text_left after.entry))) }
{
    let Some(instance) = behind_step(alloc, instance, question.asked)? else {
        return Ok(None);
    };
    let Some(evaluation) = behind_entry(alloc, after, question.subschema.entry)? else {
        return Ok(None);
    };
    Ok(Some(Ahead {
        question,
        instance,
        evaluation,
    }))
}

/// The first question that both paths lead to: `instance` is what is left of the instance's path, and `after` what is left of the
/// evaluation's behind the keyword's name. A question about a name stays at the object's path.
///
/// # Errors
///
/// Where memory was refused.
pub fn question_ahead<'r, 'i, 'p>(
    alloc: Global,
    asked: &[Question<'r, 'i>],
    instance: Option<&'p str>,
    after: Option<&'p str>,
) -> Result<Option<Ahead<'r, 'i, 'p>>, AllocError>
    ensures ahead { IfOk result (λ o. MatchOption o
        (NoneAhead asked.now (text_left instance.entry) (text_left after.entry))
        (IsAhead asked.now (text_left instance.entry) (text_left after.entry))) }
    ensures shorter { IfOk result (λ o. IfSome o (IsNoLonger (text_left after.entry))) }
{
    for question in asked {
        if let Some(ahead) = behind_question(alloc, *question, instance, after)? {
            return Ok(Some(ahead));
        }
    }
    Ok(None)
}
