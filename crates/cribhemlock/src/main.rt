//! Checks lines or files of JSON against a JSON Schema; `--help` lists its words.
#![tactic(auto)]

#[cfg(test)]
mod tests;

use line_cuts::{OverRead, OverWrite, WatchedSource};
use program_inputs::{ProgramWords, SystemFiles};
use std::alloc::{AllocError, Global};
use std::env;
use std::io::IsTerminal;
use std::process::ExitCode;
use std::rt::Env;
use validator_program::run_program;

fn main(rt: HostRuntime) -> ExitCode {
    let files = SystemFiles::new(&rt);
    let mut writer = OverWrite::new(rt.stdout());
    let mut faults = OverWrite::new(rt.stderr());
    if rt.stderr().is_terminal() && is_for_people(&rt) {
        let told = OverWrite::new(rt.stderr());
        let mut reader = WatchedSource::new(rt.alloc(), OverRead::new(rt.stdin()), told, &rt);
        return ExitCode::from(run_program(&rt, &files, &mut reader, &mut writer, &mut faults));
    }
    let mut reader = OverRead::new(rt.stdin());
    ExitCode::from(run_program(&rt, &files, &mut reader, &mut writer, &mut faults))
}

// Whether the words ask for sentences.
fn is_for_people<R: Env + AllocGlobal>(rt: &R) -> bool {
    match given_words(rt) {
        Some(given) => asks_for_text(rt.alloc(), given.as_slice()).unwrap_or(false),
        None => false,
    }
}

// The words behind the program's name.
fn given_words<R: Env + AllocGlobal>(rt: &R) -> Option<Vec<String>> {
    env::args(rt).ok()?.skip(1).collect(rt.alloc()).ok()
}

fn asks_for_text(alloc: Global, given: &[String]) -> Result<bool, AllocError> {
    let mut words = Vec::new(alloc);
    for word in given {
        words.push(word.as_str())?;
    }
    match ProgramWords::read(alloc, words.as_slice()) {
        Ok(read) => Ok(read.output == Some("text")),
        Err(_) => Ok(false),
    }
}
