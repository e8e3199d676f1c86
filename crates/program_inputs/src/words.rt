//! The words that the program was given.

ghost use Rattle.std.specs.Prelude.{◌≡◌, IfOk, IfErr, IsSome, codes, map, option_map, true};
ghost use Rattle.clap.specs.Words.{kind_of, takes, fault_of, FailsBy, matches_of, first_value, found_of, rows_of};
ghost use Rattle.clap.specs.Walk.{texts};
ghost use Rattle.program_inputs.specs.Program.{program_app};
ghost use Rattle.program_inputs.specs.Read.{HasWordsOf, says_true};

use crate::command::program_command;
use clap::error::ErrorKind;
use clap::{ArgMatches, Error};
use std::alloc::{AllocError, Global};

/// The words that the program was given. No URI and no draft is read and no file is opened yet.
#[derive(Debug, Drop)]
pub struct ProgramWords<'a> {
    /// The file of the schema.
    pub schema: &'a str,
    /// The further documents, each `URI=FILE`, in their order. A word may lack its `=`.
    pub files: Vec<&'a str>,
    /// The URI of the schema, where one was given.
    pub base: Option<&'a str>,
    /// The draft of the documents that name none, where one was given. It may be a word that names no draft.
    pub draft: Option<&'a str>,
    /// The file of the meta-schemas, where one was given.
    pub meta: Option<&'a str>,
    /// Whether what stands beside `$ref` is read in Drafts 6 and 7.
    pub ref_siblings: bool,
    /// The form of what is written, where one was given. It may be a word that names none.
    pub output: Option<&'a str>,
    /// The files that are an instance each, in their order. Where there are none, the instances are lines of the standard input.
    pub instances: Vec<&'a str>,
    /// The file that lists faults of each instance, where they are to be checked.
    pub check: Option<&'a str>,
}

// Whether the value of a flag says that it was given.
fn says_true(text: Option<&str>) -> bool
    ensures { result ≡ says_true (option_map (λ s. s.now) text.entry) }
{
    match text {
        Some(text) => text == "true",
        None => false,
    }
}

impl<'a> ProgramWords<'a> {
    /// Reads the words that follow the program's name.
    ///
    /// # Errors
    ///
    /// Where the words are refused, or ask for help or the version, or memory was refused. The error's text is for the user.
    pub fn read(alloc: Global, words: &'a [&'a str]) -> Result<ProgramWords<'a>, Error>
        ensures ok { IfOk result (HasWordsOf (matches_of program_app (texts words.entry.now))) }
        ensures accepted { IfErr result (λ e. takes program_app (texts words.entry.now) ≡ true → kind_of e ≡ ErrorKind.OutOfMemory) }
        ensures kinds { FailsBy (fault_of program_app (texts words.entry.now)) result }
    {
        let matches = program_command(alloc)?.try_get_matches_from(words)?;
        Ok(ProgramWords::of_matches(alloc, &matches)?)
    }

    fn of_matches(alloc: Global, matches: &ArgMatches<'a>) -> Result<ProgramWords<'a>, AllocError>
        requires { IsSome (first_value (found_of matches.now) (codes "schema")) }
        ensures { IfOk result (HasWordsOf (rows_of (found_of matches.now))) }
    {
        Ok(ProgramWords {
            schema: matches.get_str("schema").unwrap(),
            files: Vec::from_slice(alloc, matches.get_strs("files").unwrap_or(&[]))?,
            base: matches.get_str("base"),
            draft: matches.get_str("draft"),
            meta: matches.get_str("meta"),
            ref_siblings: says_true(matches.get_str("ref-siblings")),
            output: matches.get_str("output"),
            instances: Vec::from_slice(alloc, matches.get_strs("instance").unwrap_or(&[]))?,
            check: matches.get_str("check"),
        })
    }
}
