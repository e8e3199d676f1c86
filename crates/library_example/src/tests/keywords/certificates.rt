// Paths that are and are not certificates, over a root document beside one that it may refer to.
ghost use Rattle.std.specs.Prelude.{◌≡◌, true};
ghost use Rattle.serde_json.specs.View.{view};
ghost use Rattle.json_schema_validator.specs.Numbers.{only_whole};

use crate::tests::keywords::subject::{documents_of, options_at, value_of};
use json_schema_validator::{
    CheckAnswer, FaultPath, RegexMaker, SchemaRegistry, Validator, check_errors, check_fault,
    check_first, check_path,
};
use serde_json::Value;
use std::alloc::Global;
use std::process::Abort;

const LEAF: &str = r#"{"$id":"http://a.test/leaf.json","type":"string"}"#;

fn registry_of(rt: &impl Abort, alloc: Global, root: &str) -> SchemaRegistry {
    let mut documents = documents_of(rt, alloc, "http://a.test/root.json", root);
    documents
        .add_text("http://a.test/leaf.json", LEAF.as_bytes())
        .expect(rt, "a document");
    let options = options_at(rt, alloc, "http://a.test/root.json");
    options.prepare(&documents).expect(rt, "a registry")
}

fn word(answer: CheckAnswer) -> &'static str {
    match answer {
        CheckAnswer::Accepted => "accepted",
        CheckAnswer::Refused => "refused",
        CheckAnswer::Circular => "circular",
        CheckAnswer::Unfinished => "unfinished",
    }
}

// What is said of two paths of a value from where a reference leads.
fn said(
    rt: &impl Abort,
    alloc: Global,
    reference: &str,
    subject: &str,
    path: FaultPath<'_>,
) -> &'static str {
    let (document, value) = subject.split_once(" :: ").expect(rt, "a value");
    let registry = registry_of(rt, alloc, document);
    let value = value_of(rt, alloc, value);
    let answer = check_fault(alloc, &registry, reference, &RegexMaker, &value, path);
    word(answer.expect(rt, "memory"))
}

// A row of two paths, each behind a #, and what has to be said of them.
fn assert_said(rt: &impl Abort, alloc: Global, reference: &str, subject: &str, row: &str) {
    let paths = row.strip_prefix('#').expect(rt, "a path");
    let (instance_path, rest) = paths.split_once(" #").expect(rt, "two paths");
    let (evaluation_path, want) = rest.split_once(' ').expect(rt, "an answer");
    let path = FaultPath {
        instance_path,
        evaluation_path,
    };
    let word = said(rt, alloc, reference, subject, path);
    assert_eq!(rt; word, want, "{subject} {row}");
}

// A document with a value, and their rows below.
fn assert_block(rt: &impl Abort, alloc: Global, reference: &str, block: &str) {
    let (subject, rows) = block.split_once('\n').expect(rt, "a value with rows");
    for row in rows.lines() {
        assert_said(rt, alloc, reference, subject, row.trim());
    }
}

// Documents with a value, each pair behind a dash, with rows of two paths and an answer below it.
fn assert_all_said(rt: &impl Abort, alloc: Global, reference: &str, blocks: &str) {
    let blocks = blocks.trim().strip_prefix("- ").expect(rt, "a document");
    for block in blocks.split("\n- ") {
        assert_block(rt, alloc, reference, block);
    }
}

const TWO_DOCUMENTS: &str = r##"
- {"$id":"http://a.test/root.json","type":"array","minItems":2,"items":{"$ref":"leaf.json"}} :: [1]
    # #/minItems accepted
    #/0 #/items/$ref/type accepted
    # #/items accepted
    #/0 #/items/$ref accepted
    #/0 #/items refused
    # #/type refused
    # # refused
    #/00 #/items/$ref/type refused
    #/1 #/items/$ref/type refused
    #/0 #/items/$ref/type/ refused
    #/0/ #/items/$ref/type refused
    #0 #/items/$ref/type refused
    #/0 #items/$ref/type refused
    # #/~2 refused
- {"$id":"http://a.test/root.json","type":"array","minItems":2,"items":{"$ref":"leaf.json"}} :: ["a","b"]
    # # refused
    # #/type refused
    # #/minItems refused
    # #/items refused
    #/0 #/items/$ref refused
    #/0 #/items/$ref/type refused
"##;

const ESCAPES: &str = r##"
- {"properties":{"a/b":{"type":"string"},"~":{"items":false},"0":{"$ref":"leaf.json"}}} :: {"a/b":1,"~":[1,2],"0":1}
    #/a~1b #/properties/a~1b/type accepted
    #/a~1b #/properties/a~1b refused
    # #/properties accepted
    #/~0/1 #/properties/~0/items accepted
    #/~/1 #/properties/~/items refused
    #/~0 #/properties/~0/items accepted
    #/0 #/properties/0/$ref/type accepted
    #/~0 #/properties/0/$ref/type refused
    #/x #/properties/x/type refused
"##;

const NAMES: &str = r##"
- {"propertyNames":{"$ref":"#/$defs/s"},"$defs":{"s":{"enum":["ab"]}}} :: {"a":1}
    # #/propertyNames/$ref/enum accepted
- {"propertyNames":{"$ref":"#/$defs/s"},"$defs":{"s":{"enum":["ab"]}}} :: {"ab":1,"b":1}
    # #/propertyNames/$ref/enum accepted
- {"propertyNames":{"$ref":"#/$defs/s"},"$defs":{"s":{"enum":["ab"]}}} :: {"a":1}
    # #/propertyNames/$ref accepted
    # #/propertyNames accepted
    #/a #/propertyNames/$ref/enum refused
    # #/propertyNames/$ref/type refused
    # #/propertyNames/enum refused
- {"propertyNames":{"$ref":"#/$defs/s"},"$defs":{"s":{"enum":["ab"]}}} :: {"ab":1}
    # #/propertyNames/$ref/enum refused
    # #/propertyNames refused
- {"propertyNames":{"$ref":"#/$defs/s"},"$defs":{"s":{"enum":["ab"]}}} :: ["a"]
    # #/propertyNames/$ref/enum refused
"##;

const COMING_BACK: &str = r##"
- {"$ref":"#"} :: 1
    # # refused
    # #/$ref circular
    # #/$ref/$ref/$ref circular
    # #/$ref/type refused
- {"allOf":[{"$ref":"#"}],"type":"integer"} :: 1
    # #/type refused
    # #/allOf circular
    # #/allOf/0/$ref circular
    # #/allOf/0/$ref/type refused
- {"allOf":[{"$ref":"#"}],"type":"integer"} :: "a"
    # #/type accepted
    # #/allOf circular
    # #/allOf/0/$ref/type accepted
- {"if":{"$ref":"#"},"then":{"type":"string"}} :: 1
    # #/then/type circular
- {"$ref":"#","patternProperties":{"b.d":{}}} :: {"bcd":1}
    # #/$ref circular
"##;

const BRANCHES: &str = r##"
- {"properties":{"a":{"anyOf":[{"minimum":2}]},"b":{"anyOf":[false,{"minimum":2}]},"c":{"oneOf":[{"minimum":2}]},"d":{"oneOf":[{"minimum":2},{"maximum":0}]},"e":{"not":{"minimum":1}},"f":{"allOf":[true,{"minimum":2}]},"g":{"contains":{"type":"integer"},"maxContains":1}}} :: {"a":1,"b":1,"c":1,"d":1,"e":1,"f":1,"g":["a"]}
    #/a #/properties/a/anyOf accepted
    #/a #/properties/a/anyOf/0/minimum accepted
    #/b #/properties/b/anyOf accepted
    #/b #/properties/b/anyOf/0 refused
    #/b #/properties/b/anyOf/1/minimum refused
    #/c #/properties/c/oneOf/0/minimum accepted
    #/d #/properties/d/oneOf accepted
    #/d #/properties/d/oneOf/0/minimum refused
    #/e #/properties/e/not accepted
    #/e #/properties/e/not/minimum refused
    #/f #/properties/f/allOf/1/minimum accepted
    #/f #/properties/f/allOf accepted
    #/g #/properties/g/maxContains accepted
    #/g #/properties/g/minContains refused
    #/g #/properties/g/contains refused
    #/g/0 #/properties/g/contains/type refused
- {"anyOf":[{"type":"string"},{"type":"integer"}]} :: 1
    # #/anyOf/0/type refused
- {"anyOf":[{"type":"string"},{"type":"integer"}]} :: null
    # #/anyOf/0/type refused
    # #/anyOf accepted
- {"anyOf":[{"type":"string"}]} :: 1
    # #/anyOf/0/type accepted
    # #/anyOf accepted
- {"if":{"minimum":0},"then":{"multipleOf":2}} :: 3
    # #/then/multipleOf accepted
    # #/then accepted
    # #/if refused
"##;

const NOT_DECLARED: &str = r##"
- {"additionalProperties":false} :: {"a":1,"b":1}
    # #/additionalProperties accepted
    #/a #/additionalProperties accepted
    #/c #/additionalProperties refused
- {"properties":{"a":true},"additionalProperties":false} :: {"a":1,"b":1}
    # #/additionalProperties accepted
    #/a #/additionalProperties refused
    #/b #/additionalProperties accepted
    #/b #/additionalProperties/b refused
- {"properties":{"a":true},"additionalProperties":{"minimum":2}} :: {"a":1,"b":1}
    #/a #/additionalProperties/minimum refused
    #/b #/additionalProperties/minimum accepted
    #/b #/additionalProperties refused
"##;

const PATTERNS: &str = r##"
- {"properties":{"a":{"pattern":"x.y"}},"patternProperties":{"b.d":{"pattern":"^x"}},"additionalProperties":false} :: {"a":"xy","bcd":"yx","bd":"x"}
    #/a #/properties/a/pattern accepted
    #/bcd #/patternProperties/b.d/pattern accepted
    #/a #/patternProperties/b.d/pattern refused
    #/bcd #/patternProperties/b.d refused
    # #/additionalProperties accepted
    #/bd #/additionalProperties accepted
    #/bcd #/additionalProperties refused
- {"pattern":"(","minimum":2} :: 1
    # #/minimum refused
"##;

const SUBSCHEMAS: &str = r##"
- {"$id":"http://a.test/root.json","allOf":[{"items":{"$ref":"leaf.json"}},{"prefixItems":[true,false]}]} :: [1,2]
    # #/allOf accepted
    # #/allOf/0/items accepted
    #/0 #/allOf/0/items/$ref/type accepted
    #/1 #/allOf/1/prefixItems/1 accepted
    #/1 #/allOf/1/prefixItems/0 refused
    #/0 #/allOf/1/prefixItems/0 refused
    #/0 #/allOf/1/items/$ref/type refused
    #/0 #/allOf/00/items/$ref/type refused
    # #/allOf/0 refused
    # #/allOf/2 refused
"##;

const ENTRIES: &str = r##"
- {"dependencies":{"a":["b"],"c":{"required":["d"]},"e":false}} :: {"a":1,"c":1}
    # #/dependencies accepted
    # #/dependencies/c/required accepted
    # #/dependencies/c refused
    # #/dependencies/a refused
    # #/dependencies/e refused
    #/c #/dependencies/c/required refused
"##;

const CHOICES: &str = r##"
- {"if":{"type":"integer"},"then":{"minimum":3},"else":{"minLength":2}} :: 2
    # #/then/minimum accepted
    # #/then accepted
    # #/if refused
    # #/else refused
    # #/else/minLength refused
- {"if":{"type":"integer"},"then":{"minimum":3},"else":{"minLength":2}} :: "a"
    # #/else/minLength accepted
    # #/else accepted
    # #/if/type refused
    # #/then refused
- {"if":{"type":"integer"},"then":{"minimum":3},"else":{"minLength":2}} :: 5
    # #/then refused
    # #/then/minimum refused
- {"items":{"if":{"type":"integer"},"then":{"$ref":"leaf.json"},"else":{"items":{"maximum":1}}}} :: [5,[2,1]]
    #/0 #/items/then/$ref/type accepted
    #/0 #/items/then/$ref accepted
    #/0 #/items/if/type refused
    #/0 #/items/else/items/maximum refused
    #/1/0 #/items/else/items/maximum accepted
    #/1 #/items/else/items accepted
    #/1 #/items/if/type refused
    #/1/0 #/items/then/items/maximum refused
    #/1/1 #/items/else/items/maximum refused
"##;

#[test]
fn paths_beside_two_documents(rt: HostRuntime) {
    assert_all_said(&rt, rt.alloc(), "", TWO_DOCUMENTS);
    assert_all_said(&rt, rt.alloc(), "", ESCAPES);
    assert_all_said(&rt, rt.alloc(), "", NAMES);
    assert_all_said(&rt, rt.alloc(), "", COMING_BACK);
}

#[test]
fn paths_through_keywords(rt: HostRuntime) {
    assert_all_said(&rt, rt.alloc(), "", BRANCHES);
    assert_all_said(&rt, rt.alloc(), "", NOT_DECLARED);
    assert_all_said(&rt, rt.alloc(), "", PATTERNS);
    assert_all_said(&rt, rt.alloc(), "", SUBSCHEMAS);
    assert_all_said(&rt, rt.alloc(), "", ENTRIES);
    assert_all_said(&rt, rt.alloc(), "", CHOICES);
}

const NOWHERE: &str = r##"
- {"$id":"http://a.test/root.json","type":"array","minItems":2,"items":{"$ref":"leaf.json"}} :: [1]
    # #/minItems refused
"##;

#[test]
fn roots_that_lead_nowhere(rt: HostRuntime) {
    assert_all_said(&rt, rt.alloc(), "#/$defs/none", NOWHERE);
}

const ROOT: &str =
    r#"{"$id":"http://a.test/root.json","type":"array","minItems":2,"items":{"$ref":"leaf.json"}}"#;

// What the validator of the root says of each fault of a value.
fn answers_of(
    rt: &impl Abort,
    alloc: Global,
    registry: &SchemaRegistry,
    value: &Value,
) -> Vec<CheckAnswer>
    requires whole { only_whole (view value.now) ≡ true }
{
    let options = Validator::options(alloc).expect(rt, "memory");
    let validator = options.build_on(registry, "").expect(rt, "a validator");
    let answers = check_errors(alloc, &validator, registry, "", &RegexMaker, value);
    answers.expect(rt, "memory")
}

// What it says of the first fault.
fn first_of(
    rt: &impl Abort,
    alloc: Global,
    registry: &SchemaRegistry,
    value: &Value,
) -> Option<CheckAnswer>
    requires whole { only_whole (view value.now) ≡ true }
{
    let options = Validator::options(alloc).expect(rt, "memory");
    let validator = options.build_on(registry, "").expect(rt, "a validator");
    let answer = check_first(alloc, &validator, registry, "", &RegexMaker, value);
    answer.expect(rt, "memory")
}

fn assert_accepted(
    rt: &impl Abort,
    answers: &[CheckAnswer],
    first: Option<CheckAnswer>,
    (value, count): (&str, usize),
) {
    assert_eq!(rt; answers.len(), count, "{value}");
    for answer in answers {
        assert_eq!(rt; *answer, CheckAnswer::Accepted, "{value}");
    }
    match first {
        None => assert_eq!(rt; count, 0, "{value}"),
        Some(answer) => assert_eq!(rt; answer, CheckAnswer::Accepted, "{value}"),
    }
}

fn assert_each_accepted(rt: &impl Abort, alloc: Global, row: (&str, usize)) {
    let registry = registry_of(rt, alloc, ROOT);
    let value = value_of(rt, alloc, row.0);
    let answers = answers_of(rt, alloc, &registry, &value);
    let first = first_of(rt, alloc, &registry, &value);
    assert_accepted(rt, answers.as_slice(), first, row);
}

// Values, each with how many faults it has.
const COUNTED: [(&str, usize); 4] = [
    ("[1]", 2),
    ("{}", 1),
    (r#"[1,"a",null]"#, 2),
    (r#"["a","b"]"#, 0),
];

#[test]
fn each_fault_of_a_validator(rt: HostRuntime) {
    for row in COUNTED {
        assert_each_accepted(&rt, rt.alloc(), row);
    }
}

// What it says of a path of evaluation at the root of a value, and whether the value is valid.
fn beside_verdict_on(
    rt: &impl Abort,
    alloc: Global,
    registry: &SchemaRegistry,
    value: &Value,
    evaluation_path: &str,
) -> (CheckAnswer, bool)
    requires whole { only_whole (view value.now) ≡ true }
{
    let options = Validator::options(alloc).expect(rt, "memory");
    let validator = options.build_on(registry, "").expect(rt, "a validator");
    let path = FaultPath {
        instance_path: "",
        evaluation_path,
    };
    let both = check_path(alloc, &validator, registry, "", &RegexMaker, value, path);
    both.expect(rt, "memory")
}

fn beside_verdict(
    rt: &impl Abort,
    alloc: Global,
    value: &str,
    evaluation_path: &str,
) -> (CheckAnswer, bool) {
    let registry = registry_of(rt, alloc, ROOT);
    let value = value_of(rt, alloc, value);
    beside_verdict_on(rt, alloc, &registry, &value, evaluation_path)
}

// Each a value, a path of evaluation, what is said of it, and whether the value is valid.
const VERDICTS: [(&str, &str, CheckAnswer, bool); 3] = [
    ("[1]", "/minItems", CheckAnswer::Accepted, false),
    ("[1]", "/type", CheckAnswer::Refused, false),
    (r#"["a","b"]"#, "/minItems", CheckAnswer::Refused, true),
];

#[test]
fn paths_beside_the_verdict(rt: HostRuntime) {
    for (value, path, want, is_valid) in VERDICTS {
        let (answer, verdict) = beside_verdict(&rt, rt.alloc(), value, path);
        assert_eq!(rt; answer, want, "{value} {path}");
        assert_eq!(rt; verdict, is_valid, "{value} {path}");
    }
}
