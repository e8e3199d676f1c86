//! Texts that wait to be written.
ghost use Rattle.std.specs.Prelude.{◌≡◌, [], IfErr, OnOk, string_bytes};
ghost use Rattle.line_cuts.specs.Runs.{TakesSome};
ghost use Rattle.line_cuts.specs.Steps.{Answers, Sends, nothing_yet};
ghost use Rattle.line_cuts.specs.Devices.{IsRisen};

use crate::ByteSink;
use crate::answers::LineAnswers;
use crate::report::{RunError, RunReport};
use crate::writing::write_whole;
use std::alloc::Global;

// From this length on what waits is written, in bytes.
const FULL: usize = 65536;

// Answers that wait to be written, and the report with them.
#[derive(Drop)]
pub(crate) struct Outbox {
    pub(crate) text: String,
    pub(crate) report: RunReport,
}

impl Outbox {
    pub(crate) fn new(alloc: Global) -> Self
        ensures text { string_bytes result.text ≡ [] }
        ensures report { result.report ≡ nothing_yet }
    {
        let report = RunReport {
            lines: 0,
            any_refused: false,
        };
        Outbox {
            text: String::new(alloc),
            report,
        }
    }

    // Answers a line.
    pub(crate) fn answer<A: LineAnswers>(
        &mut self,
        answers: &A,
        kept: &mut A::Kept,
        line: &[u8],
    ) -> Result<(), RunError>
        requires { A.keeps answers.now kept.old }
        ensures kept { OnOk result (A.keeps answers.now kept.new) }
        ensures ok { OnOk result (Answers (A.refuses answers.now) (A.answers answers.now) line.now self.old.report self.new.report (string_bytes self.old.text) (string_bytes self.new.text)) }
        ensures error { IfErr result (λ e. e ≡ RunError.Memory) }
    {
        let start = self.text.len();
        answers.answer(kept, line, &mut self.text)?;
        let is_refused = answers.is_refused(&self.text.as_bytes()[start..]);
        self.report.lines = self.report.lines.saturating_add(1);
        self.report.any_refused |= is_refused;
        Ok(())
    }

    // Writes what waits.
    pub(crate) fn write_out<K: ByteSink>(&mut self, writer: &mut K) -> Result<(), RunError>
        ensures sent { OnOk result (Sends (K.contents writer.old) (K.contents writer.new) (string_bytes self.old.text) []) }
        ensures text { OnOk result (string_bytes self.new.text ≡ []) }
        ensures report { self.new.report ≡ self.old.report }
        ensures quiet { OnOk result (K.failures writer.new ≡ K.failures writer.old) }
        ensures error { IfErr result (λ e. e ≡ RunError.Write) }
        ensures failed { IfErr result (λ _. IsRisen (K.failures writer.old) (K.failures writer.new)) }
        ensures begun { IfErr result (λ _. TakesSome (K.contents writer.old) (K.contents writer.new) (string_bytes self.old.text)) }
    {
        write_whole(writer, self.text.as_bytes())?;
        self.text.clear();
        Ok(())
    }

    // Writes what waits where it is long.
    pub(crate) fn write_if_full<K: ByteSink>(&mut self, writer: &mut K) -> Result<(), RunError>
        ensures sent { OnOk result (Sends (K.contents writer.old) (K.contents writer.new) (string_bytes self.old.text) (string_bytes self.new.text)) }
        ensures report { self.new.report ≡ self.old.report }
        ensures quiet { OnOk result (K.failures writer.new ≡ K.failures writer.old) }
        ensures error { IfErr result (λ e. e ≡ RunError.Write) }
        ensures failed { IfErr result (λ _. IsRisen (K.failures writer.old) (K.failures writer.new)) }
        ensures begun { IfErr result (λ _. TakesSome (K.contents writer.old) (K.contents writer.new) (string_bytes self.old.text)) }
    {
        if self.text.len() < FULL {
            return Ok(());
        }
        self.write_out(writer)
    }
}
