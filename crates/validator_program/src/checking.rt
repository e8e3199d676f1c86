//! The faults that a file lists, checked by the documents that the words name.

ghost use Rattle.std.specs.Prelude.{◌≡◌, ◌⊎◌, List, IfOk, IfErr, if◌then◌else◌};
ghost use Rattle.clap.specs.Words.{Row};
ghost use Rattle.program_inputs.specs.Read.{HasWordsOf};
ghost use Rattle.validator_program.specs.Checked.{ChecksAll, StopsChecking};
ghost use Rattle.validator_program.specs.Status.{status_of};

use crate::documents::read_bytes;
use crate::fault::ProgramFault;
use crate::instances::read_instances;
use crate::output::read_form;
use crate::preparing::prepare_documents;
use answer_checks::{AnswerChecker, check_given};
use line_cuts::{ByteSink, ByteSource, RunReport};
use program_inputs::{ProgramWords, SchemaFiles};
use regex_patterns::RegexMaker;
use std::alloc::Global;

/// Checks the faults that a file lists for each instance, by the documents alone. All files are read before any instance.
///
/// # Errors
///
/// A word for the output that names no form; what the documents are refused for; the file, or the first file of an instance, that is not
/// read; another number of lines in the file than of instances; or where reading, writing or memory fails.
pub(crate) fn check_words<'a, F: SchemaFiles, S: ByteSource, K: ByteSink, T: ByteSink>(
    alloc: Global,
    words: &ProgramWords<'a>,
    file: &'a str,
    files: &F,
    reader: &mut S,
    writer: &mut K,
    faults: &mut T,
) -> Result<RunReport, ProgramFault<'a>>
    ensures ok { IfOk result (λ report. (rows : List Row) → HasWordsOf rows words.now → ChecksAll file.entry.now rows
        (F.held files.now) (S.remaining reader.old) (S.remaining reader.new)
        (K.contents writer.old) (K.contents writer.new) (if report.any_refused then 1 else 0)) }
    ensures err { IfErr result (λ e. ((reader.new ≡ reader.old) × (writer.new ≡ writer.old))
        ⊎ ((status_of e ≡ 3) × ((rows : List Row) → HasWordsOf rows words.now → StopsChecking file.entry.now rows
        (F.held files.now) (S.remaining reader.old) (S.remaining reader.new)
        (K.contents writer.old) (K.contents writer.new)))) }
{
    let _form = read_form(words.output)?;
    let documents = prepare_documents(alloc, words, files, faults)?;
    let checker = AnswerChecker::new(alloc, &documents.registry, "", &RegexMaker)?;
    let listed = read_bytes(alloc, files, file)?;
    let texts = read_instances(alloc, files, words.instances.as_slice())?;
    match check_given(
        alloc,
        &checker,
        listed.as_slice(),
        texts.as_slice(),
        reader,
        writer,
    ) {
        Ok(report) => Ok(report),
        Err(error) => Err(ProgramFault::of_checks(file, error)),
    }
}
