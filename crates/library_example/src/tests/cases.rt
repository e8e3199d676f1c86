// Cases, each a paragraph of text: lines that say what is given, and questions with the answers that are wanted.
//
// What is given:
//
//   document <URI> TEXT     a document; and so `meta` a meta-schema, and `retrieved` one that the retriever has
//   base URI                what the root is resolved against
//   root REFERENCE          where validation begins
//   dialect URI             the meta-schema of the draft of the documents that name none
//   siblings read           what stands beside `$ref` is read in Drafts 6 and 7
//   limit NUMBER            how many schema nodes are reached at most
//   retrievals NUMBER       how many documents are retrieved at most
//   match <PATTERN> TEXT    for the script: a pattern and a text in which it matches
//   refuse PATTERN          for the script: a pattern that is refused
//   unfinished PATTERN      for the script: a pattern whose matches stay unfinished
//   # REMARK                nothing
//
// The questions:
//
//   told VALUE              the faults, each an instance path and an evaluation path, on which all observers and the check agree
//   first VALUE             the fault that is met first: schema path, evaluation path, instance and kind
//   stands VALUE            where the keywords of the faults stand, by URIs of documents with pointers
//   build VALUE             whether the value is valid, or why there is no validator; with no value, whether there is one
//   within NUMBER           the same with no value, by that limit of schema nodes
//   causes                  all that is wrong with the root, or why that is not listed
//   refusals                all that the meta-schema of the root finds wrong with it, or why that is not told
//   absent                  the references of the documents to what is not at hand
//   misnamed                the texts of the documents that name nothing
//   unknown URI             the names in a document that are no keywords
//   alone VALUE             the same, of a document by itself, without options
//   scripted VALUE          the faults by the script's patterns, or why there is no validator
//   assumed VALUE           the same with the three paths and the kind of each, on which the observers agree
//   decided VALUE           what is decided by the script's patterns, or why there is no validator
//   keys                    the pointers of the map of validators, or why there is none
//   has <POINTER>           whether the map has it
//   at <POINTER> VALUE      the faults by the map's validator there
use crate::tests::assuming::assumed;
use crate::tests::maps::map_answer;
use crate::tests::patterns::{decided, scripted};
use crate::tests::{answers, listing};
use std::alloc::Global;
use std::process::Abort;

const GIVEN: [&str; 13] = [
    "document <",
    "meta <",
    "retrieved <",
    "base ",
    "root ",
    "dialect ",
    "siblings ",
    "limit ",
    "retrievals ",
    "match <",
    "refuse ",
    "unfinished ",
    "# ",
];

fn answer(rt: &impl Abort, alloc: Global, case: &str, word: &str, input: &str) -> String {
    match word {
        "told" => answers::told(rt, alloc, case, input),
        "first" => answers::first(rt, alloc, case, input),
        "stands" => answers::stands(rt, alloc, case, input),
        "build" => answers::build(rt, alloc, case, input),
        "within" => answers::within(rt, alloc, case, input),
        "causes" => listing::causes(rt, alloc, case),
        "refusals" => listing::refusals(rt, alloc, case),
        "absent" => listing::absent(rt, alloc, case),
        "misnamed" => listing::misnamed(rt, alloc, case),
        "unknown" => listing::unknown(rt, alloc, case, input),
        "alone" => answers::alone(rt, alloc, case, input),
        "decided" => decided(rt, alloc, case, input),
        "scripted" => scripted(rt, alloc, case, input),
        "assumed" => assumed(rt, alloc, case, input),
        _ => map_answer(rt, alloc, case, word, input),
    }
}

// Holds what is answered to a question against what is wanted.
fn assert_answer(rt: &impl Abort, alloc: Global, case: &str, question: &str, want: &str) {
    let (word, input) = question.split_once(' ').unwrap_or((question, ""));
    let found = answer(rt, alloc, case, word, input);
    assert!(rt;
        found.as_str() == want,
        "{found}\nto {question}, and not\n{want}\nin\n{case}"
    );
}

fn is_given(line: &str) -> bool {
    for word in GIVEN {
        if line.starts_with(word) {
            return true;
        }
    }
    false
}

fn assert_line(rt: &impl Abort, alloc: Global, case: &str, line: &str) {
    match line.split_once(" => ") {
        Some((question, want)) => assert_answer(rt, alloc, case, question, want),
        None => assert!(rt; is_given(line), "nothing is given by {line}"),
    }
}

// Asks the questions of a case, of which there is at least one.
pub(crate) fn assert_case(rt: &impl Abort, alloc: Global, case: &str) {
    assert!(rt; case.contains(" => "), "no question in\n{case}");
    for line in case.lines() {
        assert_line(rt, alloc, case, line);
    }
}

// The same for each of several cases, with what is given to all of them before it.
pub(crate) fn assert_cases(rt: &impl Abort, alloc: Global, given: &str, cases: &str) {
    for case in cases.trim().split("\n\n") {
        let case = format!(in alloc; "{given}{case}").expect(rt, "memory");
        assert_case(rt, alloc, case.as_str());
    }
}
