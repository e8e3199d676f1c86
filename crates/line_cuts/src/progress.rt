//! How far a run has come.
ghost use Rattle.std.specs.Prelude.{◌≡◌, ◌<◌, ◌++◌, [], ◌∷◌, length, false, IfOk, IfErr, OnOk, OnErr, string_bytes};
ghost use Rattle.std.specs.Io.KnownBytes.{IsAtEnd};
ghost use Rattle.line_cuts.specs.Cuts.{ended_in, part_of, pieces, unless_empty};
ghost use Rattle.line_cuts.specs.Runs.{BreaksAt, ByError, Counts};
ghost use Rattle.line_cuts.specs.Steps.{Answers, Goes, ReadsOnward, StopsOnward, nothing_yet};
ghost use Rattle.line_cuts.specs.Devices.{IsRisen};

use crate::answers::LineAnswers;
use crate::cuts::first_line;
use crate::outbox::Outbox;
use crate::report::{RunError, RunReport};
use crate::{ByteSink, ByteSource};
use std::alloc::Global;

// What is kept between two reads: the line begun, and what waits to be written.
#[derive(Drop)]
pub(crate) struct Progress {
    line: Vec<u8>,
    outbox: Outbox,
}

impl Progress {
    pub(crate) fn new(alloc: Global) -> Self
        ensures line { result.line.items ≡ [] }
        ensures text { string_bytes result.outbox.text ≡ [] }
        ensures report { result.outbox.report ≡ nothing_yet }
    {
        Progress {
            line: Vec::new(alloc),
            outbox: Outbox::new(alloc),
        }
    }

    // Reads once and takes what was read. It answers whether there can be more.
    pub(crate) fn read_on<A: LineAnswers, S: ByteSource, K: ByteSink>(
        &mut self,
        answers: &A,
        kept: &mut A::Kept,
        reader: &mut S,
        writer: &mut K,
        buffer: &mut [u8],
    ) -> Result<bool, RunError>
        requires kept { A.keeps answers.now kept.old }
        requires room { 0 < length buffer.old }
        requires plain { pieces self.old.line.items ≡ self.old.line.items ∷ [] }
        requires written { string_bytes self.old.outbox.text ≡ [] }
        ensures kept { OnOk result (A.keeps answers.now kept.new) }
        ensures reads { OnOk result (ReadsOnward (A.refuses answers.now) (A.answers answers.now) (S.remaining reader.old) (S.remaining reader.new) (K.contents writer.old) (K.contents writer.new) self.old.line.items self.new.line.items self.old.outbox.report self.new.outbox.report) }
        ensures plain { OnOk result (pieces self.new.line.items ≡ self.new.line.items ∷ []) }
        ensures written { OnOk result (string_bytes self.new.outbox.text ≡ []) }
        ensures end { IfOk result (λ more. more ≡ false → IsAtEnd (S.remaining reader.new)) }
        ensures turn { OnOk result (S.turns reader.new < S.turns reader.old) }
        ensures read_quiet { OnOk result (S.failures reader.new ≡ S.failures reader.old) }
        ensures write_quiet { OnOk result (K.failures writer.new ≡ K.failures writer.old) }
        ensures stops { IfErr result (λ e. StopsOnward (A.refuses answers.now) (A.answers answers.now) e (S.remaining reader.old) (S.remaining reader.new) (K.contents writer.old) (K.contents writer.new) self.old.line.items self.old.outbox.report) }
        ensures counts { IfErr result (λ e. Counts e (S.failures reader.old) (S.failures reader.new) (K.failures writer.old) (K.failures writer.new)) }
    {
        match reader.read(buffer) {
            Ok(0) => Ok(false),
            Ok(count) => {
                self.take_piece(answers, kept, writer, &buffer[..count])?;
                Ok(true)
            }
            Err(_) => Err(RunError::Read),
        }
    }

    // Answers the lines that end in a piece, writes the answers, and keeps the rest.
    fn take_piece<A: LineAnswers, K: ByteSink>(
        &mut self,
        answers: &A,
        kept: &mut A::Kept,
        writer: &mut K,
        piece: &[u8],
    ) -> Result<(), RunError>
        requires kept { A.keeps answers.now kept.old }
        requires plain { pieces self.old.line.items ≡ self.old.line.items ∷ [] }
        requires written { string_bytes self.old.outbox.text ≡ [] }
        ensures kept { OnOk result (A.keeps answers.now kept.new) }
        ensures goes { OnOk result (Goes (A.refuses answers.now) (A.answers answers.now) (ended_in (self.old.line.items ++ piece.now)) [] self.old.outbox.report self.new.outbox.report (K.contents writer.old) (K.contents writer.new) []) }
        ensures part { OnOk result (self.new.line.items ≡ part_of (self.old.line.items ++ piece.now)) }
        ensures written { OnOk result (string_bytes self.new.outbox.text ≡ []) }
        ensures quiet { OnOk result (K.failures writer.new ≡ K.failures writer.old) }
        ensures breaks { OnErr result (BreaksAt (A.answers answers.now) (ended_in (self.old.line.items ++ piece.now)) (K.contents writer.old) (K.contents writer.new)) }
        ensures failed { IfErr result (λ e. ByError e ⊥ (IsRisen (K.failures writer.old) (K.failures writer.new)) (K.failures writer.new ≡ K.failures writer.old)) }
    {
        let mut rest = piece;
        while let Some((end, after)) = first_line(rest) {
            self.end_line(answers, kept, end)?;
            self.outbox.write_if_full(writer)?;
            rest = after;
        }
        self.line.extend_from_slice(rest)?;
        self.outbox.write_out(writer)?;
        Ok(())
    }

    // Answers the last line where it is not empty, and writes the answer.
    pub(crate) fn finish<A: LineAnswers, K: ByteSink>(
        mut self,
        answers: &A,
        kept: &mut A::Kept,
        writer: &mut K,
    ) -> Result<RunReport, RunError>
        requires kept { A.keeps answers.now kept.old }
        requires written { string_bytes self.outbox.text ≡ [] }
        ensures goes { IfOk result (λ report. Goes (A.refuses answers.now) (A.answers answers.now) (unless_empty self.line.items) [] self.outbox.report report (K.contents writer.old) (K.contents writer.new) []) }
        ensures quiet { OnOk result (K.failures writer.new ≡ K.failures writer.old) }
        ensures breaks { OnErr result (BreaksAt (A.answers answers.now) (unless_empty self.line.items) (K.contents writer.old) (K.contents writer.new)) }
        ensures failed { IfErr result (λ e. ByError e ⊥ (IsRisen (K.failures writer.old) (K.failures writer.new)) (K.failures writer.new ≡ K.failures writer.old)) }
    {
        if self.line.is_empty() {
            return Ok(self.outbox.report);
        }
        self.end_line(answers, kept, b"")?;
        self.outbox.write_out(writer)?;
        Ok(self.outbox.report)
    }

    // Answers the line that ends with these bytes.
    fn end_line<A: LineAnswers>(
        &mut self,
        answers: &A,
        kept: &mut A::Kept,
        end: &[u8],
    ) -> Result<(), RunError>
        requires kept { A.keeps answers.now kept.old }
        ensures kept { OnOk result (A.keeps answers.now kept.new) }
        ensures ok { OnOk result (Answers (A.refuses answers.now) (A.answers answers.now) (self.old.line.items ++ end.now) self.old.outbox.report self.new.outbox.report (string_bytes self.old.outbox.text) (string_bytes self.new.outbox.text)) }
        ensures cleared { OnOk result (self.new.line.items ≡ []) }
        ensures error { IfErr result (λ e. e ≡ RunError.Memory) }
    {
        if self.line.is_empty() {
            return self.outbox.answer(answers, kept, end);
        }
        self.line.extend_from_slice(end)?;
        self.outbox.answer(answers, kept, &self.line)?;
        self.line.clear();
        Ok(())
    }
}
