//! The faults that a file lists for many instances, checked.
ghost use Rattle.std.specs.Prelude.{◌≡◌, IfOk, IfErr, OnOk, map};
ghost use Rattle.std.specs.List.{zip};
ghost use Rattle.line_cuts.specs.Cuts.{bytes_of};
ghost use Rattle.schema_registries.specs.Roots.{Patterns, Root};
ghost use Rattle.answer_checks.specs.Checks.{IsCheckerOf, pair_bytes, views};
ghost use Rattle.answer_checks.specs.Listing.{ChecksGiven, ChecksSource, ChecksTexts};
ghost use Rattle.answer_checks.specs.Listing.{CountsGiven, CountsSource, CountsWrites};
ghost use Rattle.answer_checks.specs.Listing.{StopsGiven, StopsSource, StopsTexts};

use crate::checker::AnswerChecker;
use crate::run::{LinePair, check_lines};
use line_cuts::{ByteSink, ByteSource, RunError, RunReport, lines_in, read_all};
use schema_patterns::PatternMatcher;
use std::alloc::{AllocError, Global};

/// Why the faults of some instances were not all checked.
#[derive(Clone, Copy, Debug, PartialEq, Eq)]
pub enum CheckError {
    /// There is another number of instances than of lines that list their faults.
    Count { instances: usize, lines: usize },
    /// Reading, writing or memory.
    Run(RunError),
}

impl From<RunError> for CheckError {
    ghost use Rattle.answer_checks.specs.declared.given.CheckError.TheVariants.{Run};

    ghost from_gives = { λ error e. e ≡ Run error };

    fn from(error: RunError) -> CheckError {
        CheckError::Run(error)
    }
}

impl From<AllocError> for CheckError {
    ghost use Rattle.line_cuts.specs.declared.report.RunError.TheVariants.{Memory};
    ghost use Rattle.answer_checks.specs.declared.given.CheckError.TheVariants.{Run};

    ghost from_gives = { λ _ e. e ≡ Run Memory };

    fn from(_error: AllocError) -> CheckError {
        CheckError::Run(RunError::Memory)
    }
}

// Each text beside the line at its place, as far as both go.
fn pairs_of<'a>(
    alloc: Global,
    texts: &[&'a [u8]],
    lines: &[&'a [u8]],
) -> Result<Vec<LinePair<'a>>, AllocError>
    ensures { IfOk result (λ v. map pair_bytes v.items ≡ zip (views texts.now) (views lines.now)) }
{
    let mut pairs = Vec::new(alloc);
    for text in texts {
        if let Some(line) = lines.get(pairs.len()) {
            pairs.push(LinePair {
                instance: text,
                answers: line,
            })?;
        }
    }
    Ok(pairs)
}

// The bytes of texts, lent.
fn lent<'a>(alloc: Global, texts: &'a [Vec<u8>]) -> Result<Vec<&'a [u8]>, AllocError>
    ensures { IfOk result (λ v. views v.items ≡ bytes_of texts.entry.now) }
{
    let mut bytes = Vec::new(alloc);
    for text in texts {
        bytes.push(text.as_slice())?;
    }
    Ok(bytes)
}

// Checks what each line of some bytes lists for the text at its place.
fn check_texts<K: ByteSink, M: PatternMatcher>(
    alloc: Global,
    checker: &AnswerChecker<'_, M>,
    listed: &[u8],
    texts: &[&[u8]],
    writer: &mut K,
) -> Result<RunReport, CheckError>
    ensures ok { IfOk result (λ report. (p : Patterns) (r : Root) → IsCheckerOf M.finds p r checker.now
        → ChecksTexts p r (views texts.now) listed.now (K.contents writer.old) (K.contents writer.new) report) }
    ensures quiet { OnOk result (K.failures writer.new ≡ K.failures writer.old) }
    ensures stops { IfErr result (λ e. (p : Patterns) (r : Root) → IsCheckerOf M.finds p r checker.now
        → StopsTexts e p r (views texts.now) listed.now (K.contents writer.old) (K.contents writer.new)) }
    ensures failed { IfErr result (λ e. CountsWrites e (K.failures writer.old) (K.failures writer.new)) }
{
    let lines = lines_in(alloc, listed)?;
    if texts.len() != lines.len() {
        return Err(CheckError::Count {
            instances: texts.len(),
            lines: lines.len(),
        });
    }
    let pairs = pairs_of(alloc, texts, lines.as_slice())?;
    Ok(check_lines(alloc, checker, pairs.as_slice(), writer)?)
}

// The same for each of these texts as a whole.
fn check_each<K: ByteSink, M: PatternMatcher>(
    alloc: Global,
    checker: &AnswerChecker<'_, M>,
    listed: &[u8],
    texts: &[Vec<u8>],
    writer: &mut K,
) -> Result<RunReport, CheckError>
    ensures ok { IfOk result (λ report. (p : Patterns) (r : Root) → IsCheckerOf M.finds p r checker.now
        → ChecksTexts p r (bytes_of texts.now) listed.now (K.contents writer.old) (K.contents writer.new) report) }
    ensures quiet { OnOk result (K.failures writer.new ≡ K.failures writer.old) }
    ensures stops { IfErr result (λ e. (p : Patterns) (r : Root) → IsCheckerOf M.finds p r checker.now
        → StopsTexts e p r (bytes_of texts.now) listed.now (K.contents writer.old) (K.contents writer.new)) }
    ensures failed { IfErr result (λ e. CountsWrites e (K.failures writer.old) (K.failures writer.new)) }
{
    let bytes = lent(alloc, texts)?;
    check_texts(alloc, checker, listed, bytes.as_slice(), writer)
}

// The same for each line of a reader.
fn check_source<S: ByteSource, K: ByteSink, M: PatternMatcher>(
    alloc: Global,
    checker: &AnswerChecker<'_, M>,
    listed: &[u8],
    reader: &mut S,
    writer: &mut K,
) -> Result<RunReport, CheckError>
    ensures ok { IfOk result (λ report. (p : Patterns) (r : Root) → IsCheckerOf M.finds p r checker.now
        → ChecksSource p r listed.now (S.remaining reader.old) (S.remaining reader.new) (K.contents writer.old)
        (K.contents writer.new) report) }
    ensures read_quiet { OnOk result (S.failures reader.new ≡ S.failures reader.old) }
    ensures write_quiet { OnOk result (K.failures writer.new ≡ K.failures writer.old) }
    ensures stops { IfErr result (λ e. (p : Patterns) (r : Root) → IsCheckerOf M.finds p r checker.now
        → StopsSource e p r listed.now (S.remaining reader.old) (S.remaining reader.new) (K.contents writer.old)
        (K.contents writer.new)) }
    ensures failed { IfErr result (λ e. CountsSource e (S.failures reader.old) (S.failures reader.new)
        (K.failures writer.old) (K.failures writer.new)) }
{
    let input = read_all(alloc, reader)?;
    let texts = lines_in(alloc, input.as_slice())?;
    check_texts(alloc, checker, listed, texts.as_slice(), writer)
}

/// Checks what each line of some bytes lists for the instance at its place, and writes what [`crate::check_lines`] writes. The instances are
/// these texts, each as a whole; where there are none, they are the lines of the reader, which else is not read.
///
/// The reader is read to its end, and all of it held, before the first instance is checked.
///
/// # Errors
///
/// Where there are not as many lines as instances, and then nothing is written; where a read fails, where a write fails or takes nothing,
/// and where memory was refused.
pub fn check_given<S: ByteSource, K: ByteSink, M: PatternMatcher>(
    alloc: Global,
    checker: &AnswerChecker<'_, M>,
    listed: &[u8],
    texts: &[Vec<u8>],
    reader: &mut S,
    writer: &mut K,
) -> Result<RunReport, CheckError>
    ensures ok { IfOk result (λ report. (p : Patterns) (r : Root) → IsCheckerOf M.finds p r checker.now
        → ChecksGiven p r listed.now (bytes_of texts.now) (S.remaining reader.old) (S.remaining reader.new)
        (K.contents writer.old) (K.contents writer.new) report) }
    ensures read_quiet { OnOk result (S.failures reader.new ≡ S.failures reader.old) }
    ensures write_quiet { OnOk result (K.failures writer.new ≡ K.failures writer.old) }
    ensures stops { IfErr result (λ e. (p : Patterns) (r : Root) → IsCheckerOf M.finds p r checker.now
        → StopsGiven e p r listed.now (bytes_of texts.now) (S.remaining reader.old) (S.remaining reader.new)
        (K.contents writer.old) (K.contents writer.new)) }
    ensures failed { IfErr result (λ e. CountsGiven e (bytes_of texts.now) (S.failures reader.old)
        (S.failures reader.new) (K.failures writer.old) (K.failures writer.new)) }
{
    if texts.is_empty() {
        check_source(alloc, checker, listed, reader, writer)
    } else {
        check_each(alloc, checker, listed, texts, writer)
    }
}
