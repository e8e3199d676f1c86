// What applicators ask and where their subschemas stand, and which question two paths lead to.
use crate::applicator_rows::{cut, json};
use crate::applying::applied;
use applicators::applicator::Applicator;
use applicators::question::{Asked, Question};
use applicators::questions::questions;
use applicators::subschema::{Entry, Subschema};
use applicators::subschemas::subschemas;
use fault_paths::ahead::question_ahead;
use fault_paths::once::one_ahead;
use schema_patterns::matches::Matches;
use serde_json::Value;
use std::alloc::Global;
use std::process::Abort;

// Each question of a keyword about a value: where its subschema stands, the subschema, and of what it is asked.
const ASKED: &str = r#"
asks :: items :: true :: [7,8,9] :: items true item 1 8; items true item 2 9;
asks :: items :: true :: [7] ::
asks :: items :: true :: {"a":1} ::
asks :: contains :: {} :: [7,8] :: contains {} item 0 7; contains {} item 1 8;
asks :: contains :: {} :: 7 ::
asks :: prefixItems :: [true,false] :: [7] :: prefixItems/0 true item 0 7;
asks :: prefixItems :: [true,false] :: [7,8,9] :: prefixItems/0 true item 0 7; prefixItems/1 false item 1 8;
asks :: anyOf :: [true,{}] :: 7 :: anyOf/0 true the value; anyOf/1 {} the value;
asks :: properties :: {"a":true,"b":false,"c":{}} :: {"c":1,"a":null,"d":2} :: properties/a true member a null; properties/c {} member c 1;
asks :: properties :: {"a":true} :: ["a"] ::
asks :: dependentSchemas :: {"a":true,"b":false} :: {"b":1} :: dependentSchemas/b false the value;
asks :: dependencies :: {"a":["b"],"b":{},"c":true} :: {"a":1,"b":1} :: dependencies/b {} the value;
asks :: additionalProperties :: false :: {"b":1,"a":2} :: additionalProperties false member a 2; additionalProperties false member b 1;
asks :: other properties :: {"a":true,"c":{}} :: {"d":1,"a":2,"b":3,"c":4} :: additionalProperties {"a":true,"c":{}} member b 3; additionalProperties {"a":true,"c":{}} member d 1;
asks :: other properties :: false :: [1] ::
asks :: unmatched properties :: {"^a":true,"^(b|c)$":false} :: {"a":1,"ab":2,"b":3,"ba":4,"^a":5} :: additionalProperties {"^(b|c)$":false,"^a":true} member ^a 5; additionalProperties {"^(b|c)$":false,"^a":true} member ba 4;
asks :: patternProperties :: {"^ab$":false,"^a":true} :: {"ab":1,"b":2,"a/c":3} :: patternProperties/^a true member a/c 3; patternProperties/^a true member ab 1; patternProperties/^ab$ false member ab 1;
asks :: patternProperties :: {"^a":true} :: ["a"] ::
asks :: propertyNames :: {} :: {"b":1,"a":2} :: propertyNames {} name a; propertyNames {} name b;
asks :: not :: false :: [7] :: not false the value;
asks :: if :: true :: 7 :: if true the value; else true the value;
"#;

// Each subschema of a keyword, and where it stands.
const LED: &str = r#"
leads :: items :: true :: items true;
leads :: prefixItems :: [true,{}] :: prefixItems/0 true; prefixItems/1 {};
leads :: anyOf :: [] ::
leads :: properties :: {"b":true,"a":{}} :: properties/a {}; properties/b true;
leads :: patternProperties :: {"b$":true,"^a":{}} :: patternProperties/^a {}; patternProperties/b$ true;
leads :: dependentSchemas :: {"a":false} :: dependentSchemas/a false;
leads :: dependencies :: {"a":["b"],"b":{},"c":true} :: dependencies/b {}; dependencies/c true;
leads :: additionalProperties :: false :: additionalProperties false;
leads :: if :: true :: if true;
"#;

// The subschema that two paths, each behind a #, lead to, and what is left of both.
const AHEAD: &str = r#"
ahead :: prefixItems :: [true,false] :: [7,8] :: #1 :: #1 :: false - -
ahead :: prefixItems :: [true,false] :: [7,8] :: #1 :: #0 :: none
ahead :: prefixItems :: [true,false] :: [7,8] :: #01 :: #1 :: none
ahead :: prefixItems :: [true,false] :: [7] :: #1 :: #1 :: none
ahead :: prefixItems :: [true,false] :: [7,8] :: #0/x :: #0/y/z :: true x y/z
ahead :: properties :: {"":false,"a/b":true} :: {"":2,"a/b":1} :: #a~1b :: #a~1b/type :: true - type
ahead :: properties :: {"":false,"a/b":true} :: {"":2,"a/b":1} :: # :: # :: false - -
ahead :: properties :: {"":false,"a/b":true} :: {"":2,"a/b":1} :: #a~1b :: # :: none
ahead :: patternProperties :: {"^a":true,"^a/b$":false} :: {"":2,"a/b":1} :: #a~1b/x :: #^a~1b$/type :: false x type
ahead :: patternProperties :: {"^a":true,"^a/b$":false} :: {"":2,"a/b":1} :: #a~1b :: #^a :: true - -
ahead :: patternProperties :: {"^a":true,"^b":false} :: {"":2,"a/b":1} :: #a~1b :: #^b :: none
ahead :: dependentSchemas :: {"":false,"a/b":true} :: {"":2,"a/b":1} :: - :: #a~1b/required :: true - required
ahead :: dependentSchemas :: {"":false,"a/b":true} :: {"a":1} :: - :: #a~1b :: none
ahead :: unnamed properties :: {"a":true} :: {"a":1,"b/":2,"c":3} :: #b~1/x :: #type :: {"a":true} x type
ahead :: unnamed properties :: {"a":true} :: {"a":1,"b/":2,"c":3} :: #a :: - :: none
ahead :: allOf :: [true,false] :: 7 :: #x :: #1/not :: false x not
ahead :: allOf :: [true,false] :: 7 :: - :: #2 :: none
ahead :: allOf :: [true,false] :: 7 :: - :: #18446744073709551616 :: none
ahead :: allOf :: [true,false] :: 7 :: - :: - :: none
"#;

fn push_place(rt: &impl Abort, text: &mut String, keyword: &str, entry: Entry<'_>) {
    let written = match entry {
        Entry::Whole => write!(text, "{keyword}"),
        Entry::Name(name) => write!(text, "{keyword}/{name}"),
        Entry::Index(index) => write!(text, "{keyword}/{index}"),
    };
    written.expect(rt, "memory");
}

fn push_subschema(rt: &impl Abort, text: &mut String, subschema: &Subschema<'_>) {
    push_place(rt, text, subschema.keyword, subschema.entry);
    let schema = subschema.schema;
    write!(text, " {schema}").expect(rt, "memory");
}

fn push_asked(rt: &impl Abort, text: &mut String, asked: Asked<'_>) {
    let written = match asked {
        Asked::Value => write!(text, " the value; "),
        Asked::Item { index, item } => write!(text, " item {index} {item}; "),
        Asked::Member { name, member } => write!(text, " member {name} {member}; "),
        Asked::Name(name) => write!(text, " name {name}; "),
    };
    written.expect(rt, "memory");
}

// The patterns are literal forms.
fn questions_of<'r, 'i>(
    rt: &impl Abort,
    alloc: Global,
    applicator: &Applicator<'r>,
    value: &'i Value,
) -> Vec<Question<'r, 'i>> {
    questions(alloc, &Matches::none(alloc), applicator, value).expect(rt, "memory")
}

fn are_asked(rt: &impl Abort, alloc: Global, questions: &[Question<'_, '_>], want: &str) -> bool {
    let mut text = String::new(alloc);
    for question in questions {
        push_subschema(rt, &mut text, &question.subschema);
        push_asked(rt, &mut text, question.asked);
    }
    text.trim() == want
}

fn are_led_to(rt: &impl Abort, alloc: Global, applicator: &Applicator<'_>, want: &str) -> bool {
    let found = subschemas(alloc, applicator).expect(rt, "memory");
    let mut text = String::new(alloc);
    for subschema in found.as_slice() {
        push_subschema(rt, &mut text, subschema);
        text.push_str("; ").expect(rt, "memory");
    }
    text.trim() == want
}

fn is_told(
    rt: &impl Abort,
    alloc: Global,
    schema: &Value,
    instance: &str,
    evaluation: &str,
    want: &str,
) -> bool {
    let text = format!(in alloc; "{schema} {instance} {evaluation}").expect(rt, "memory");
    text.as_str() == want
}

fn is_ahead(
    rt: &impl Abort,
    alloc: Global,
    questions: &[Question<'_, '_>],
    instance: &str,
    rest: &str,
) -> bool {
    let (after, want) = cut(rt, rest);
    let (instance, after) = (instance.strip_prefix('#'), after.strip_prefix('#'));
    match question_ahead(alloc, questions, instance, after).expect(rt, "memory") {
        Some(ahead) => {
            let schema = ahead.question.subschema.schema;
            let instance = ahead.instance.unwrap_or("-");
            let evaluation = ahead.evaluation.unwrap_or("-");
            is_told(rt, alloc, schema, instance, evaluation, want)
        }
        None => want == "none",
    }
}

fn is_asked(
    rt: &impl Abort,
    alloc: Global,
    question: &str,
    applicator: &Applicator<'_>,
    value: &Value,
    rest: &str,
) -> bool {
    let questions = questions_of(rt, alloc, applicator, value);
    if question == "asks" {
        return are_asked(rt, alloc, questions.as_slice(), rest);
    }
    one_ahead(applicator, value);
    let (instance, rest) = cut(rt, rest);
    is_ahead(rt, alloc, questions.as_slice(), instance, rest)
}

// Whether a keyword leads to what the rest of a row says, or else what is asked of the value that begins the rest.
fn is_answer(
    rt: &impl Abort,
    alloc: Global,
    question: &str,
    applicator: &Applicator<'_>,
    rest: &str,
) -> bool {
    if question == "leads" {
        return are_led_to(rt, alloc, applicator, rest);
    }
    let (value, rest) = cut(rt, rest);
    let value = json(rt, alloc, value);
    is_asked(rt, alloc, question, applicator, &value, rest)
}

fn assert_row(rt: &impl Abort, alloc: Global, row: &str) {
    let (question, rest) = cut(rt, row);
    let (name, rest) = cut(rt, rest);
    let (keyword, rest) = cut(rt, rest);
    let keyword = json(rt, alloc, keyword);
    let applicator = applied(name, &keyword).expect(rt, "an applicator");
    let is_found = is_answer(rt, alloc, question, &applicator, rest);
    assert!(rt; is_found, "{row}");
}

fn assert_rows(rt: &impl Abort, alloc: Global, rows: &str) {
    for row in rows.trim().lines() {
        assert_row(rt, alloc, row);
    }
}

#[test]
fn applicators_ask(rt: HostRuntime) {
    assert_rows(&rt, rt.alloc(), ASKED);
}

#[test]
fn applicators_lead(rt: HostRuntime) {
    assert_rows(&rt, rt.alloc(), LED);
}

#[test]
fn paths_lead_to_questions(rt: HostRuntime) {
    assert_rows(&rt, rt.alloc(), AHEAD);
}
