//! Runs in a form of what is written.
ghost use Rattle.std.specs.Prelude.{◌≡◌, IfOk, IfErr, OnOk, OnErr};
ghost use Rattle.schema_validators.specs.Passed.{Patterns, Root};
ghost use Rattle.schema_validators.specs.Made.{IsMadeBy};
ghost use Rattle.line_cuts.specs.Cuts.{bytes_of};
ghost use Rattle.line_cuts.specs.Devices.{IsRisen};
ghost use Rattle.line_cuts.specs.Runs.{AnswersEach, BreaksAt, ByError, Counts, RunsThroughBy, Stops};
ghost use Rattle.line_runs.specs.Forms.{IsLineTold, IsLineToldBy, refuses_in};
ghost use Rattle.line_runs.specs.Runs.{IsObjectLine, IsObjectLineBy};
ghost use Rattle.line_runs.specs.Objects.{is_refused_object};

use crate::answers::{FormedLines, KeptLines};
use crate::counts::LineCounts;
use crate::form::LineForm;
use line_cuts::{ByteSink, ByteSource, RunError, RunReport, answer_each, answer_lines};
use regex_patterns::kept::Kept;
use schema_validators::Validator;
use std::alloc::Global;

/// What a run in a form answered, and how many lines were valid.
#[derive(Clone, Copy, Debug, PartialEq, Eq)]
pub struct FormedRun {
    pub report: RunReport,
    pub counts: LineCounts,
}

/// Reads instances, a line each, and writes what the form has for each.
///
/// It reads, writes and fails as [`crate::run`]. Sentences for people name each line by its number, from 1 on.
///
/// # Errors
///
/// Where a read fails, where a write fails or takes nothing, and where memory was refused.
pub fn run_in_form<S: ByteSource, K: ByteSink>(
    alloc: Global,
    form: LineForm,
    reader: &mut S,
    writer: &mut K,
    validator: &Validator,
) -> Result<FormedRun, RunError>
    ensures nodes { IfOk result (λ run. RunsThroughBy (refuses_in form) (IsLineToldBy form validator.now)
        (S.remaining reader.old) (S.remaining reader.new) (K.contents writer.old)
        (K.contents writer.new) run.report) }
    ensures ok { IfOk result (λ run. (p : Patterns) (r : Root) → IsMadeBy p r validator.now
        → RunsThroughBy (refuses_in form) (IsLineTold form p r) (S.remaining reader.old) (S.remaining reader.new)
        (K.contents writer.old) (K.contents writer.new) run.report) }
    ensures read_quiet { OnOk result (S.failures reader.new ≡ S.failures reader.old) }
    ensures write_quiet { OnOk result (K.failures writer.new ≡ K.failures writer.old) }
    ensures stops { IfErr result (λ e. (p : Patterns) (r : Root) → IsMadeBy p r validator.now
        → Stops (IsLineTold form p r) e (S.remaining reader.old) (S.remaining reader.new) (K.contents writer.old)
        (K.contents writer.new)) }
    ensures counts { IfErr result (λ e. Counts e (S.failures reader.old) (S.failures reader.new)
        (K.failures writer.old) (K.failures writer.new)) }
{
    let answers = FormedLines {
        alloc,
        validator,
        form,
    };
    let searches = Kept::new(alloc, validator.patterns())?;
    let mut kept = KeptLines {
        searches,
        counts: LineCounts::none(),
        names: &[],
    };
    let report = answer_lines(alloc, reader, writer, &answers, &mut kept)?;
    Ok(FormedRun {
        report,
        counts: kept.counts,
    })
}

/// Answers each of these texts as [`run_in_form`] answers a line, whatever line ends are in it.
///
/// Each answer is written before the next text. Sentences for people name each text by its name, and by its number where there are fewer
/// names.
///
/// # Errors
///
/// Where a write fails or takes nothing, and where memory was refused.
pub fn answer_texts<K: ByteSink>(
    alloc: Global,
    form: LineForm,
    names: &[&str],
    texts: &[Vec<u8>],
    writer: &mut K,
    validator: &Validator,
) -> Result<FormedRun, RunError>
    ensures ok { IfOk result (λ run. (p : Patterns) (r : Root) → IsMadeBy p r validator.now
        → AnswersEach (refuses_in form) (IsLineTold form p r) (bytes_of texts.now) (K.contents writer.old)
        (K.contents writer.new) run.report) }
    ensures nodes { IfOk result (λ run. AnswersEach (refuses_in form) (IsLineToldBy form validator.now)
        (bytes_of texts.now) (K.contents writer.old) (K.contents writer.new) run.report) }
    ensures quiet { OnOk result (K.failures writer.new ≡ K.failures writer.old) }
    ensures breaks { OnErr result ((p : Patterns) (r : Root) → IsMadeBy p r validator.now
        → BreaksAt (IsLineTold form p r) (bytes_of texts.now) (K.contents writer.old) (K.contents writer.new)) }
    ensures failed { IfErr result (λ e. ByError e ⊥ (IsRisen (K.failures writer.old) (K.failures writer.new))
        (K.failures writer.new ≡ K.failures writer.old)) }
{
    let answers = FormedLines {
        alloc,
        validator,
        form,
    };
    let searches = Kept::new(alloc, validator.patterns())?;
    let mut kept = KeptLines {
        searches,
        counts: LineCounts::none(),
        names,
    };
    let report = answer_each(alloc, texts, writer, &answers, &mut kept)?;
    Ok(FormedRun {
        report,
        counts: kept.counts,
    })
}

/// Reads instances, a line each, and writes a JSON object for each: whether it is valid, and its faults, each with the name of its kind, its
/// paths and its sentence. Where a line is no JSON text of whole numbers of 64 bits, `valid` is `null`, and the reason is told.
///
/// It reads, writes and fails as [`crate::run`], and costs the texts of the sentences beside that.
///
/// # Errors
///
/// Where a read fails, where a write fails or takes nothing, and where memory was refused.
pub fn run_objects<S: ByteSource, K: ByteSink>(
    alloc: Global,
    reader: &mut S,
    writer: &mut K,
    validator: &Validator,
) -> Result<RunReport, RunError>
    ensures nodes { IfOk result (RunsThroughBy is_refused_object (IsObjectLineBy validator.now)
        (S.remaining reader.old) (S.remaining reader.new) (K.contents writer.old) (K.contents writer.new)) }
    ensures ok { IfOk result (λ report. (p : Patterns) (r : Root) → IsMadeBy p r validator.now
        → RunsThroughBy is_refused_object (IsObjectLine p r) (S.remaining reader.old) (S.remaining reader.new)
        (K.contents writer.old) (K.contents writer.new) report) }
    ensures read_quiet { OnOk result (S.failures reader.new ≡ S.failures reader.old) }
    ensures write_quiet { OnOk result (K.failures writer.new ≡ K.failures writer.old) }
    ensures stops { IfErr result (λ e. (p : Patterns) (r : Root) → IsMadeBy p r validator.now
        → Stops (IsObjectLine p r) e (S.remaining reader.old) (S.remaining reader.new) (K.contents writer.old)
        (K.contents writer.new)) }
    ensures counts { IfErr result (λ e. Counts e (S.failures reader.old) (S.failures reader.new)
        (K.failures writer.old) (K.failures writer.new)) }
{
    let run = run_in_form(alloc, LineForm::Objects, reader, writer, validator)?;
    Ok(run.report)
}
