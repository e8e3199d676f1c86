//! The instances: lines of a reader, or files that are one each.

ghost use Rattle.std.specs.Prelude.{◌≡◌, ◌⊎◌, IfOk, IfErr};
ghost use Rattle.clap.specs.Walk.{texts};
ghost use Rattle.line_cuts.specs.Cuts.{bytes_of};
ghost use Rattle.validator_program.specs.Instances.{AnswersBy, AreInstances, StopsSomewhereBy};
ghost use Rattle.validator_program.specs.Status.{status_of};

use crate::documents::read_bytes;
use crate::fault::ProgramFault;
use crate::output::{OutputForm, answer_in, run_in};
use line_cuts::{ByteSink, ByteSource};
use line_runs::{FormedRun, Validator};
use program_inputs::SchemaFiles;
use std::alloc::Global;

/// What these files hold, one after another.
///
/// # Errors
///
/// The first file that is not read, or want of memory.
pub(crate) fn read_instances<'a, F: SchemaFiles>(
    alloc: Global,
    files: &F,
    names: &[&'a str],
) -> Result<Vec<Vec<u8>>, ProgramFault<'a>>
    ensures { IfOk result (λ v. AreInstances (F.held files.now) (texts names.now) (bytes_of v.items)) }
{
    let mut instances = Vec::new(alloc);
    for name in names {
        instances.push(read_bytes(alloc, files, name)?)?;
    }
    Ok(instances)
}

/// Answers each of these files as a whole, and each line of the reader where there are no files. All files are read before any is answered.
///
/// # Errors
///
/// The first file that is not read; or where reading, writing or memory fails.
pub(crate) fn answer_instances<'a, F: SchemaFiles, S: ByteSource, K: ByteSink>(
    alloc: Global,
    form: OutputForm,
    names: &[&'a str],
    files: &F,
    reader: &mut S,
    writer: &mut K,
    validator: &Validator,
) -> Result<FormedRun, ProgramFault<'a>>
    ensures ok { IfOk result (λ run. AnswersBy validator.now (texts names.now) (F.held files.now) form
        (S.remaining reader.old) (S.remaining reader.new) (K.contents writer.old) (K.contents writer.new) run.report) }
    ensures err { IfErr result (λ e. ((reader.new ≡ reader.old) × (writer.new ≡ writer.old))
        ⊎ ((status_of e ≡ 3) × StopsSomewhereBy validator.now (texts names.now) (F.held files.now) form
        (S.remaining reader.old) (S.remaining reader.new) (K.contents writer.old) (K.contents writer.new))) }
{
    if names.is_empty() {
        return match run_in(alloc, form, reader, writer, validator) {
            Ok(done) => Ok(done),
            Err(error) => Err(ProgramFault::Run(error)),
        };
    }
    let instances = read_instances(alloc, files, names)?;
    match answer_in(alloc, form, names, instances.as_slice(), writer, validator) {
        Ok(done) => Ok(done),
        Err(error) => Err(ProgramFault::Run(error)),
    }
}
