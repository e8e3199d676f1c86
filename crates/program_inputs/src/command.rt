//! The command line of the program.

ghost use Rattle.std.specs.Prelude.{◌≡◌, IfOk};
ghost use Rattle.clap.specs.Built.{FitsChain, TakesValue};
ghost use Rattle.clap.specs.Words.{app_of, rule_of};
ghost use Rattle.program_inputs.specs.Program.{bare_app, program_app, schema_rule, files_rule, base_rule, draft_rule, meta_rule, siblings_rule, output_rule, instance_rule, check_rule, HasSchema, IsEmpty};

use clap::{Arg, ArgAction, Command};
use std::alloc::{AllocError, Global};

/// What stands below the arguments in help.
const AFTER_HELP: &str = "\
Each line of the standard input is checked as JSON against SCHEMA, and one line is written for it: the list of its faults, \
each a pair of the place in the instance and the path of keywords; [] where it is valid. With --output json it is an object \
that says whether the line is valid, and each fault in words; with --output text a line for each fault is written for people, \
nothing for a valid line, and a summary to standard error at the end. With --instance the whole of each file is one instance, answered \
as a line is, and the standard input is not read. With --check nothing is validated: FILE has a line for each instance, the list of \
its faults in pairs, and for each line the list of what the documents say of them is written, accepted or not.

Status:
  0  each line is valid, or each fault of FILE is accepted
  1  some line is not, or some fault is not accepted
  2  the words, a file or the schema were refused
  3  a read, a write or memory failed, or FILE has another number of lines than there are instances

Example:
  cribhemlock root.json http://a.test/leaf.json=leaf.json --base http://a.test/root.json < lines.json";

/// `SCHEMA`
fn schema<'a>(alloc: Global) -> Arg<'a>
    ensures rule { rule_of result ≡ schema_rule }
    ensures fits { FitsChain result }
    ensures value { TakesValue result }
{
    Arg::new(alloc, "schema")
        .value_name("SCHEMA")
        .required(true)
        .action(ArgAction::Set)
        .help("The file of the schema")
}

/// `[URI=FILE]...`
fn files<'a>(alloc: Global) -> Arg<'a>
    ensures rule { rule_of result ≡ files_rule }
    ensures fits { FitsChain result }
{
    Arg::new(alloc, "files")
        .value_name("URI=FILE")
        .num_args(1..)
        .action(ArgAction::Append)
        .help("A further document: its URI, and its file after the last =")
}

/// `--base URI`
fn base<'a>(alloc: Global) -> Arg<'a>
    ensures rule { rule_of result ≡ base_rule }
    ensures fits { FitsChain result }
{
    Arg::new(alloc, "base")
        .long("base")
        .value_name("URI")
        .action(ArgAction::Set)
        .help("The URI of the schema [default: json-schema:///]")
}

/// `--draft DRAFT`
fn draft<'a>(alloc: Global) -> Arg<'a>
    ensures rule { rule_of result ≡ draft_rule }
    ensures fits { FitsChain result }
{
    Arg::new(alloc, "draft")
        .long("draft")
        .value_name("DRAFT")
        .action(ArgAction::Set)
        .help(
            "The draft of documents that name none: 4, 6, 7, 2019-09 or 2020-12 [default: 2020-12]",
        )
}

/// `--meta FILE`
fn meta<'a>(alloc: Global) -> Arg<'a>
    ensures rule { rule_of result ≡ meta_rule }
    ensures fits { FitsChain result }
{
    Arg::new(alloc, "meta")
        .long("meta")
        .value_name("FILE")
        .action(ArgAction::Set)
        .help("A file with a list of meta-schemas, each under its own identifier")
}

/// `--ref-siblings`
fn ref_siblings<'a>(alloc: Global) -> Arg<'a>
    ensures rule { rule_of result ≡ siblings_rule }
    ensures fits { FitsChain result }
{
    Arg::new(alloc, "ref-siblings")
        .long("ref-siblings")
        .action(ArgAction::SetTrue)
        .help("Reads what stands beside $ref in Drafts 6 and 7, where it is ignored else")
}

/// `--output FORM`
fn output<'a>(alloc: Global) -> Arg<'a>
    ensures rule { rule_of result ≡ output_rule }
    ensures fits { FitsChain result }
{
    Arg::new(alloc, "output")
        .long("output")
        .value_name("FORM")
        .action(ArgAction::Set)
        .help("What is written: pairs, json, text or none [default: pairs]")
}

/// `--instance FILE`
fn instance<'a>(alloc: Global) -> Arg<'a>
    ensures rule { rule_of result ≡ instance_rule }
    ensures fits { FitsChain result }
{
    Arg::new(alloc, "instance")
        .long("instance")
        .value_name("FILE")
        .action(ArgAction::Append)
        .help(
            "A file that is one instance as a whole, in place of the standard input; may be given again",
        )
}

/// `--check FILE`
fn check<'a>(alloc: Global) -> Arg<'a>
    ensures rule { rule_of result ≡ check_rule }
    ensures fits { FitsChain result }
{
    Arg::new(alloc, "check")
        .long("check")
        .value_name("FILE")
        .action(ArgAction::Set)
        .help(
            "Checks the faults that FILE lists, a line for each instance, and writes what is said of each",
        )
}

/// What stands before any argument.
fn bare<'a>(alloc: Global) -> Command<'a>
    ensures app { app_of result ≡ bare_app }
    ensures empty { IsEmpty result }
{
    Command::new(alloc, "cribhemlock")
        .about("Checks lines of JSON against a JSON Schema")
        .after_help(AFTER_HELP)
        .version("0.1.0")
        .no_binary_name(true)
}

/// The command line. Each parse of it that succeeds has a schema.
pub(crate) fn program_command<'a>(alloc: Global) -> Result<Command<'a>, AllocError>
    ensures app { IfOk result (λ c. app_of c ≡ program_app) }
    ensures schema { IfOk result HasSchema }
{
    bare(alloc)
        .arg(schema(alloc))?
        .arg(files(alloc))?
        .arg(base(alloc))?
        .arg(draft(alloc))?
        .arg(meta(alloc))?
        .arg(ref_siblings(alloc))?
        .arg(output(alloc))?
        .arg(instance(alloc))?
        .arg(check(alloc))
}
