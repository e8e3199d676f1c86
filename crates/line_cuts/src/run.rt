//! Runs over all lines of a reader.
ghost use Rattle.std.specs.Prelude.{◌≡◌, IfOk, IfErr, OnOk};
ghost use Rattle.line_cuts.specs.Runs.{Counts, RunsThroughBy, Stops};

use crate::answers::LineAnswers;
use crate::progress::Progress;
use crate::report::{RunError, RunReport};
use crate::{ByteSink, ByteSource};
use std::alloc::Global;

// The most bytes of one read.
const PIECE: usize = 65536;

/// Reads lines to the end, and writes the answer to each in turn.
///
/// All that can be answered is written before the next read. Besides one read's bytes and the answers to them it holds one line at a time,
/// and a line that ends in the bytes in which it begins is not copied.
///
/// # Errors
///
/// Where a read fails, where a write fails or takes nothing, and where memory is refused. When a read fails, the answers to all lines that
/// had ended are written.
pub fn answer_lines<A: LineAnswers, S: ByteSource, K: ByteSink>(
    alloc: Global,
    reader: &mut S,
    writer: &mut K,
    answers: &A,
    kept: &mut A::Kept,
) -> Result<RunReport, RunError>
    requires kept { A.keeps answers.now kept.old }
    ensures ok { IfOk result (λ report. RunsThroughBy (A.refuses answers.now) (A.answers answers.now) (S.remaining reader.old) (S.remaining reader.new) (K.contents writer.old) (K.contents writer.new) report) }
    ensures read_quiet { OnOk result (S.failures reader.new ≡ S.failures reader.old) }
    ensures write_quiet { OnOk result (K.failures writer.new ≡ K.failures writer.old) }
    ensures stops { IfErr result (λ e. Stops (A.answers answers.now) e (S.remaining reader.old) (S.remaining reader.new) (K.contents writer.old) (K.contents writer.new)) }
    ensures counts { IfErr result (λ e. Counts e (S.failures reader.old) (S.failures reader.new) (K.failures writer.old) (K.failures writer.new)) }
{
    let mut storage = vec![in alloc; 0; PIECE]?;
    let buffer = storage.as_mut_slice();
    let mut progress = Progress::new(alloc);
    loop {
        if !progress.read_on(answers, kept, reader, writer, buffer)? {
            return progress.finish(answers, kept, writer);
        }
    }
}
