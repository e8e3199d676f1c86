//! Runs over all lines of a reader.
ghost use Rattle.std.specs.Prelude.{◌≡◌, IfOk, IfErr, OnOk};
ghost use Rattle.schema_definitions.specs.Lines as lines;
ghost use Rattle.schema_validators.specs.Passed.{Patterns, Root};
ghost use Rattle.schema_validators.specs.Made.{IsMadeBy};
ghost use Rattle.line_cuts.specs.Cuts.{lines_of};
ghost use Rattle.line_cuts.specs.Runs.{Counts, RunsThrough, Stops};
ghost use Rattle.line_runs.specs.Runs.{IsLineText, IsLineTextBy, IsLineTextCertain};

use crate::answers::LineFaults;
use crate::form::LineForm;
use crate::formed_runs::run_in_form;
use line_cuts::{ByteSink, ByteSource, RunError, RunReport, answer_lines};
use schema_patterns::PatternMatcher;
use schema_validators::Validator;
use std::alloc::Global;

/// Reads instances, a line each, and writes a line for each: the text of its faults, or `null` where the line is no JSON text of whole
/// numbers of 64 bits.
///
/// All lines that have ended are answered, and the answers written, before the next read. Besides one read's bytes and the answers to them
/// one line is held at a time. Each line takes time in its length and in what its value is asked: the verdict first, and its faults only
/// where that is no. What searches for a pattern is made at its first match, and kept for all lines.
///
/// # Errors
///
/// Where a read fails, where a write fails or takes nothing, and where memory was refused. When a read fails, the answers to all lines that
/// had ended are written, and nothing for the part of a line behind them.
pub fn run<S: ByteSource, K: ByteSink>(
    alloc: Global,
    reader: &mut S,
    writer: &mut K,
    validator: &Validator,
) -> Result<RunReport, RunError>
    ensures nodes { IfOk result (RunsThrough (IsLineTextBy validator.now) (S.remaining reader.old)
        (S.remaining reader.new) (K.contents writer.old) (K.contents writer.new)) }
    ensures ok { IfOk result (λ report. (p : Patterns) (r : Root) → IsMadeBy p r validator.now
        → RunsThrough (IsLineText p r) (S.remaining reader.old) (S.remaining reader.new) (K.contents writer.old)
        (K.contents writer.new) report) }
    ensures read_quiet { OnOk result (S.failures reader.new ≡ S.failures reader.old) }
    ensures write_quiet { OnOk result (K.failures writer.new ≡ K.failures writer.old) }
    ensures stops { IfErr result (λ e. (p : Patterns) (r : Root) → IsMadeBy p r validator.now
        → Stops (IsLineText p r) e (S.remaining reader.old) (S.remaining reader.new) (K.contents writer.old)
        (K.contents writer.new)) }
    ensures counts { IfErr result (λ e. Counts e (S.failures reader.old) (S.failures reader.new)
        (K.failures writer.old) (K.failures writer.new)) }
{
    let run = run_in_form(alloc, LineForm::Pairs, reader, writer, validator)?;
    Ok(run.report)
}

/// The same by the matchers of whatever maker, each match asked of its matcher anew. A matcher may leave a match unfinished: the faults of
/// a line are those that `iter_errors` tells, which assumes such a match both ways.
///
/// # Errors
///
/// Those of `run`.
pub fn run_directly<M: PatternMatcher, S: ByteSource, K: ByteSink>(
    alloc: Global,
    reader: &mut S,
    writer: &mut K,
    validator: &Validator<M>,
) -> Result<RunReport, RunError>
    ensures certain { IfOk result (RunsThrough (IsLineTextCertain validator.now) (S.remaining reader.old)
        (S.remaining reader.new) (K.contents writer.old) (K.contents writer.new)) }
    ensures ok { IfOk result (λ report. (p : Patterns) (r : Root) → IsMadeBy p r validator.now
        → RunsThrough (IsLineText p r) (S.remaining reader.old) (S.remaining reader.new) (K.contents writer.old)
        (K.contents writer.new) report) }
    ensures read_quiet { OnOk result (S.failures reader.new ≡ S.failures reader.old) }
    ensures write_quiet { OnOk result (K.failures writer.new ≡ K.failures writer.old) }
    ensures stops { IfErr result (λ e. (p : Patterns) (r : Root) → IsMadeBy p r validator.now
        → Stops (IsLineText p r) e (S.remaining reader.old) (S.remaining reader.new) (K.contents writer.old)
        (K.contents writer.new)) }
    ensures counts { IfErr result (λ e. Counts e (S.failures reader.old) (S.failures reader.new)
        (K.failures writer.old) (K.failures writer.new)) }
{
    let answers = LineFaults { alloc, validator };
    answer_lines(alloc, reader, writer, &answers, &mut ())
}

/// The lines of a run are those that the input is defined to have. It does nothing.
pub fn lines_are_ended(input: &[u8])
    ensures { lines_of input.now ≡ lines.lines_of input.now }
{}
