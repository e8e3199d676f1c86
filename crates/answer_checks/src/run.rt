//! Runs of checks over many lines.
ghost use Rattle.std.specs.Prelude.{◌≡◌, [], IfOk, IfErr, OnOk, OnErr, map};
ghost use Rattle.line_cuts.specs.Devices.{IsRisen};
ghost use Rattle.line_cuts.specs.Runs.{ByError};
ghost use Rattle.answer_checks.specs.Checks.{IsPairCheckedBy, pair_bytes};
ghost use Rattle.answer_checks.specs.Written.{BreaksChecks, WritesChecks};

use crate::checker::AnswerChecker;
use crate::words::{checked_text, is_doubtful};
use line_cuts::{ByteSink, RunError, RunReport, write_whole};
use schema_patterns::PatternMatcher;
use std::alloc::Global;

/// An instance, and the line of answers that lists its faults.
#[derive(Clone, Copy, Debug, PartialEq, Eq)]
pub struct LinePair<'a> {
    pub instance: &'a [u8],
    pub answers: &'a [u8],
}

/// Checks the faults that each line of answers lists for its instance, and writes a line for each: a JSON list of what
/// [`AnswerChecker::check_line`] says of them, in words, or `null` where it says nothing. The report tells whether some fault was not accepted
/// or `null` was written.
///
/// Each line is written before the next instance is looked at.
///
/// # Errors
///
/// Where a write fails or takes nothing, and where memory was refused.
pub fn check_lines<K: ByteSink, M: PatternMatcher>(
    alloc: Global,
    checker: &AnswerChecker<'_, M>,
    lines: &[LinePair<'_>],
    writer: &mut K,
) -> Result<RunReport, RunError>
    ensures ok { IfOk result (WritesChecks (IsPairCheckedBy M.finds checker.now) (map pair_bytes lines.now)
        (K.contents writer.old) (K.contents writer.new)) }
    ensures quiet { OnOk result (K.failures writer.new ≡ K.failures writer.old) }
    ensures breaks { OnErr result (BreaksChecks (IsPairCheckedBy M.finds checker.now) (map pair_bytes lines.now)
        (K.contents writer.old) (K.contents writer.new)) }
    ensures failed { IfErr result (λ e. ByError e ⊥ (IsRisen (K.failures writer.old) (K.failures writer.new))
        (K.failures writer.new ≡ K.failures writer.old)) }
{
    let mut report = RunReport {
        lines: 0,
        any_refused: false,
    };
    for pair in lines {
        let answers = checker.check_line(pair.instance, pair.answers)?;
        let text = checked_text(alloc, &answers)?;
        write_whole(writer, text.as_bytes())?;
        report.lines = report.lines.saturating_add(1);
        report.any_refused |= is_doubtful(&answers);
    }
    Ok(report)
}
