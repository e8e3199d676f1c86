//! The program.

ghost use Rattle.std.specs.Prelude.{◌≡◌, ◌≤◌, ◌⊎◌, ℕ, List, IfOk, IfErr, if◌then◌else◌};
ghost use Rattle.clap.specs.Words.{Row, matches_of};
ghost use Rattle.clap.specs.Walk.{texts};
ghost use Rattle.program_inputs.specs.Program.{program_app};
ghost use Rattle.program_inputs.specs.Read.{HasWordsOf};
ghost use Rattle.validator_program.specs.Answered.{AnswersAll, StopsEarly};
ghost use Rattle.validator_program.specs.Done.{BreaksOff, Does};
ghost use Rattle.validator_program.specs.Status.{status_of};

use crate::checking::check_words;
use crate::fault::ProgramFault;
use crate::instances::answer_instances;
use crate::output::read_form;
use crate::preparing::prepare;
use crate::refusal::Refusal;
use crate::summary::{Answered, sum_in};
use crate::warnings::warnings;
use line_cuts::{ByteSink, ByteSource};
use line_runs::RunError;
use program_inputs::{ProgramWords, SchemaFiles};
use std::alloc::{AllocError, Global};
use std::env;
use std::io::ErrorKind;
use std::rt::Env;

/// What is told where memory is out.
const NO_MEMORY: &str = "No memory\n";

/// Reads the words, builds the validator that they name, answers each line of the reader, and returns the exit status.
///
/// The words also say what is written for a line: its faults as pairs of paths, an object that has them in words, a sentence for each, or
/// nothing; where it is sentences, a summary goes to `faults` at the end. Where they
/// name files of instances, the whole of each is answered as a line is, in their order, and the reader is not read; all files are read
/// before any is answered. Where they name a file to be checked, no validator is built: for each instance the faults that a line of that
/// file lists are checked by the documents, and what is said of each is written.
///
/// The status is 0 where each line was valid, or each fault that is checked accepted, 1 where some was not, 2 where the words, a file or the
/// build were refused, and 3 where reading, writing or memory failed, or a file to be checked has not as many lines as there are instances.
/// Where it is 2 or 3 the fault is told to `faults`: the first that is met, of the words, the
/// base, SCHEMA, the further files in their order, the build, the file to be checked, the files of instances, and the lines. A write to `faults` that fails changes nothing.
///
/// Where sentences or objects are written, `faults` is told before all else of each document that replaces another under its URI, and once
/// the documents are read of each member of their schemas, and of those of the meta-schemas, whose name is no keyword of the draft there.
pub fn program<'a, F: SchemaFiles, S: ByteSource, K: ByteSink, T: ByteSink>(
    alloc: Global,
    words: &'a [&'a str],
    files: &F,
    reader: &mut S,
    writer: &mut K,
    faults: &mut T,
) -> u8
    ensures range { result ≤ 3 }
    ensures answered { result ≤ 1 → Does (matches_of program_app (texts words.entry.now))
        (F.held files.now) (S.remaining reader.old) (S.remaining reader.new)
        (K.contents writer.old) (K.contents writer.new) result }
    ensures refused { result ≡ 2 → (reader.new ≡ reader.old) × (writer.new ≡ writer.old) }
    ensures stopped { result ≡ 3 → ((reader.new ≡ reader.old) × (writer.new ≡ writer.old))
        ⊎ BreaksOff (matches_of program_app (texts words.entry.now))
        (F.held files.now) (S.remaining reader.old) (S.remaining reader.new)
        (K.contents writer.old) (K.contents writer.new) }
{
    match answer(alloc, words, files, reader, writer, faults) {
        Ok(answered) => summed(alloc, &answered, faults),
        Err(refusal) => told(alloc, refusal, faults),
    }
}

/// Does what `program` does, by the words that the process was given, which no clause tells.
///
/// A word that is no UTF-8 is refused, and the status is then 2.
pub fn run_program<R: Env + AllocGlobal, F: SchemaFiles, S: ByteSource, K: ByteSink, T: ByteSink>(
    rt: &R,
    files: &F,
    reader: &mut S,
    writer: &mut K,
    faults: &mut T,
) -> u8
    ensures range { result ≤ 3 }
    ensures answered { result ≤ 1 → (words : List (List ℕ)) × Does (matches_of program_app words)
        (F.held files.now) (S.remaining reader.old) (S.remaining reader.new)
        (K.contents writer.old) (K.contents writer.new) result }
    ensures refused { result ≡ 2 → (reader.new ≡ reader.old) × (writer.new ≡ writer.old) }
    ensures stopped { result ≡ 3 → ((reader.new ≡ reader.old) × (writer.new ≡ writer.old))
        ⊎ ((words : List (List ℕ)) × BreaksOff (matches_of program_app words)
        (F.held files.now) (S.remaining reader.old) (S.remaining reader.new)
        (K.contents writer.old) (K.contents writer.new)) }
{
    let alloc = rt.alloc();
    match given_words(rt) {
        Ok(given) => by_words(alloc, given.as_slice(), files, reader, writer, faults),
        Err(fault) => plainly_told(alloc, fault, faults),
    }
}

// The words as they are lent.
fn lent_words(alloc: Global, given: &[String]) -> Result<Vec<&str>, AllocError> {
    let mut words = Vec::new(alloc);
    for word in given {
        words.push(word.as_str())?;
    }
    Ok(words)
}

// Does what `program` does, by words that are owned.
fn by_words<F: SchemaFiles, S: ByteSource, K: ByteSink, T: ByteSink>(
    alloc: Global,
    given: &[String],
    files: &F,
    reader: &mut S,
    writer: &mut K,
    faults: &mut T,
) -> u8
    ensures range { result ≤ 3 }
    ensures answered { result ≤ 1 → (words : List (List ℕ)) × Does (matches_of program_app words)
        (F.held files.now) (S.remaining reader.old) (S.remaining reader.new)
        (K.contents writer.old) (K.contents writer.new) result }
    ensures refused { result ≡ 2 → (reader.new ≡ reader.old) × (writer.new ≡ writer.old) }
    ensures stopped { result ≡ 3 → ((reader.new ≡ reader.old) × (writer.new ≡ writer.old))
        ⊎ ((words : List (List ℕ)) × BreaksOff (matches_of program_app words)
        (F.held files.now) (S.remaining reader.old) (S.remaining reader.new)
        (K.contents writer.old) (K.contents writer.new)) }
{
    match lent_words(alloc, given) {
        Ok(words) => program(alloc, words.as_slice(), files, reader, writer, faults),
        Err(_) => plainly_told(alloc, ProgramFault::Run(RunError::Memory), faults),
    }
}

// Tells a fault of which no more is said, and answers its status.
fn plainly_told<T: ByteSink>(alloc: Global, fault: ProgramFault<'_>, faults: &mut T) -> u8
    ensures { (2 ≤ result) × (result ≤ 3) }
{
    told(alloc, Refusal::plain(fault), faults)
}

// The words behind the program's name.
fn given_words<R: Env + AllocGlobal>(rt: &R) -> Result<Vec<String>, ProgramFault<'static>> {
    match env::args(rt) {
        Ok(words) => Ok(words.skip(1).collect(rt.alloc())?),
        Err(error) if error.kind() == ErrorKind::OutOfMemory => Err(ProgramFault::Run(
            RunError::Memory,
        )),
        Err(_) => Err(ProgramFault::NotText),
    }
}

// Reads the words, tells what is to be told of them, and answers what they ask for.
fn answer<'a, F: SchemaFiles, S: ByteSource, K: ByteSink, T: ByteSink>(
    alloc: Global,
    words: &'a [&'a str],
    files: &F,
    reader: &mut S,
    writer: &mut K,
    faults: &mut T,
) -> Result<Answered, Refusal<'a>>
    ensures ok { IfOk result (λ a. Does (matches_of program_app (texts words.entry.now))
        (F.held files.now) (S.remaining reader.old) (S.remaining reader.new)
        (K.contents writer.old) (K.contents writer.new) (if a.report.any_refused then 1 else 0)) }
    ensures err { IfErr result (λ e. ((reader.new ≡ reader.old) × (writer.new ≡ writer.old))
        ⊎ ((status_of e.fault ≡ 3) × BreaksOff (matches_of program_app (texts words.entry.now))
        (F.held files.now) (S.remaining reader.old) (S.remaining reader.new)
        (K.contents writer.old) (K.contents writer.new))) }
{
    let words = match ProgramWords::read(alloc, words) {
        Ok(words) => words,
        Err(error) => return Err(Refusal::plain(ProgramFault::from(error))),
    };
    if let Ok(text) = warnings(alloc, &words) {
        write_text(faults, text.as_str());
    }
    match follow(alloc, &words, files, reader, writer, faults) {
        Ok(answered) => Ok(answered),
        Err(fault) => Err(Refusal::described(alloc, &words, fault)),
    }
}

// Does what the words ask for.
fn follow<'a, F: SchemaFiles, S: ByteSource, K: ByteSink, T: ByteSink>(
    alloc: Global,
    words: &ProgramWords<'a>,
    files: &F,
    reader: &mut S,
    writer: &mut K,
    faults: &mut T,
) -> Result<Answered, ProgramFault<'a>>
    ensures ok { IfOk result (λ a. (rows : List Row) → HasWordsOf rows words.now → Does rows
        (F.held files.now) (S.remaining reader.old) (S.remaining reader.new)
        (K.contents writer.old) (K.contents writer.new) (if a.report.any_refused then 1 else 0)) }
    ensures err { IfErr result (λ e. ((reader.new ≡ reader.old) × (writer.new ≡ writer.old))
        ⊎ ((status_of e ≡ 3) × ((rows : List Row) → HasWordsOf rows words.now → BreaksOff rows
        (F.held files.now) (S.remaining reader.old) (S.remaining reader.new)
        (K.contents writer.old) (K.contents writer.new)))) }
{
    let Some(file) = words.check else {
        return answer_words(alloc, words, files, reader, writer, faults);
    };
    let report = check_words(alloc, words, file, files, reader, writer, faults)?;
    Ok(Answered { report, sum: None })
}

// Answers the instances.
fn answer_words<'a, F: SchemaFiles, S: ByteSource, K: ByteSink, T: ByteSink>(
    alloc: Global,
    words: &ProgramWords<'a>,
    files: &F,
    reader: &mut S,
    writer: &mut K,
    faults: &mut T,
) -> Result<Answered, ProgramFault<'a>>
    ensures ok { IfOk result (λ a. (rows : List Row) → HasWordsOf rows words.now → AnswersAll rows
        (F.held files.now) (S.remaining reader.old) (S.remaining reader.new)
        (K.contents writer.old) (K.contents writer.new) (if a.report.any_refused then 1 else 0)) }
    ensures err { IfErr result (λ e. ((reader.new ≡ reader.old) × (writer.new ≡ writer.old))
        ⊎ ((status_of e ≡ 3) × ((rows : List Row) → HasWordsOf rows words.now → StopsEarly rows
        (F.held files.now) (S.remaining reader.old) (S.remaining reader.new)
        (K.contents writer.old) (K.contents writer.new)))) }
{
    let form = read_form(words.output)?;
    let validator = prepare(alloc, words, files, faults)?;
    let names = words.instances.as_slice();
    let done = answer_instances(alloc, form, names, files, reader, writer, &validator)?;
    Ok(Answered {
        report: done.report,
        sum: sum_in(form, names, done.counts),
    })
}

// Sums a run up where that is wanted, and answers its status.
fn summed<T: ByteSink>(alloc: Global, answered: &Answered, faults: &mut T) -> u8
    ensures { result ≡ (if answered.now.report.any_refused then 1 else 0) }
{
    if let Some(sum) = &answered.sum {
        if let Ok(text) = sum.text(alloc) {
            write_text(faults, text.as_str());
        }
    }
    answered.report.status()
}

// Tells a fault, and answers its status. The fault is let go by a call, since a function that lets one go by itself takes minutes to prove.
fn told<T: ByteSink>(alloc: Global, refusal: Refusal<'_>, faults: &mut T) -> u8
    ensures range { (2 ≤ result) × (result ≤ 3) }
    ensures refused { result ≡ 2 → status_of refusal.entry.fault ≡ 2 }
{
    let status = refusal.status();
    let text = refusal.text(alloc);
    drop(refusal);
    match text {
        Ok(text) => {
            write_text(faults, text.as_str());
            status
        }
        Err(_) => {
            write_text(faults, NO_MEMORY);
            3
        }
    }
}

/// Writes a text, as far as it is taken.
pub(crate) fn write_text<T: ByteSink>(sink: &mut T, text: &str) {
    let mut rest = text.as_bytes();
    while !rest.is_empty() {
        match sink.write(rest) {
            Ok(count) if count > 0 => rest = &rest[count..],
            _ => return,
        }
    }
}
