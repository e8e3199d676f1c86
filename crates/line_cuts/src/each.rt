//! Texts answered one by one, each as a whole.
ghost use Rattle.std.specs.Prelude.{◌≡◌, IfOk, IfErr, OnOk, OnErr};
ghost use Rattle.line_cuts.specs.Runs.{AnswersEach, BreaksAt, ByError};
ghost use Rattle.line_cuts.specs.Cuts.{bytes_of};
ghost use Rattle.line_cuts.specs.Devices.{IsRisen};

use crate::ByteSink;
use crate::answers::LineAnswers;
use crate::outbox::Outbox;
use crate::report::{RunError, RunReport};
use std::alloc::Global;

/// Answers each of these texts as a line is answered, whatever line ends are in it, and writes each answer before the next text.
///
/// # Errors
///
/// Where a write fails or takes nothing, and where memory is refused.
pub fn answer_each<A: LineAnswers, K: ByteSink>(
    alloc: Global,
    texts: &[Vec<u8>],
    writer: &mut K,
    answers: &A,
    kept: &mut A::Kept,
) -> Result<RunReport, RunError>
    requires kept { A.keeps answers.now kept.old }
    ensures ok { IfOk result (AnswersEach (A.refuses answers.now) (A.answers answers.now) (bytes_of texts.now) (K.contents writer.old) (K.contents writer.new)) }
    ensures quiet { OnOk result (K.failures writer.new ≡ K.failures writer.old) }
    ensures breaks { OnErr result (BreaksAt (A.answers answers.now) (bytes_of texts.now) (K.contents writer.old) (K.contents writer.new)) }
    ensures failed { IfErr result (λ e. ByError e ⊥ (IsRisen (K.failures writer.old) (K.failures writer.new)) (K.failures writer.new ≡ K.failures writer.old)) }
{
    let mut outbox = Outbox::new(alloc);
    for text in texts {
        outbox.answer(answers, kept, text.as_slice())?;
        outbox.write_out(writer)?;
    }
    Ok(outbox.report)
}
