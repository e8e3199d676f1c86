// Keywords that ask for matches ask for those that were read.

use applicators::applicator::Applicator;
use applicators::asks::Asks;
use applicators::combining::Combining;
use applicators::declared::{Declared, undeclared_names};
use applicators::question::{Asked, Question};
use applicators::questions::questions;
use applicators::subschema::Entry;
use schema_patterns::PatternTable;
use schema_patterns::bench::ScriptedMaker;
use schema_patterns::matches::Matches;
use schema_patterns::pattern::accepts_text;
use serde_json::Value;
use std::alloc::Global;
use std::process::Abort;

fn asks(question: &Question<'_, '_>, pattern: &str, member: &str) -> bool {
    match (question.subschema.entry, question.asked) {
        (Entry::Name(entry), Asked::Member { name, .. }) => entry == pattern && name == member,
        _ => false,
    }
}

const SCHEMAS: &str = r#"{"^bar":{"minimum":5},"spam$":{"maximum":10}}"#;

const INSTANCE: &str = r#"{"bar":4,"spam":11,"foo":3,"faz":1}"#;

fn json(rt: &impl Abort, alloc: Global, text: &str) -> Value {
    serde_json::from_str(alloc, text).expect(rt, "JSON")
}

// The matches of a pattern that has no literal form, and matches `spam` alone.
fn read(rt: &impl Abort, alloc: Global, value: &Value) -> Matches {
    let mut maker = ScriptedMaker::new(alloc);
    maker.add_match(alloc, "spam$", "spam").expect(rt, "memory");
    let mut table = PatternTable::new(alloc);
    assert!(rt; table.add(alloc, &maker, "spam$").is_ok());
    Matches::read(alloc, &table, value).expect(rt, "memory")
}

#[test]
fn asks_for_members_by_patterns(rt: HostRuntime) {
    let alloc = rt.alloc();
    let schemas = json(&rt, alloc, SCHEMAS);
    let value = json(&rt, alloc, INSTANCE);
    let matches = read(&rt, alloc, &value);
    let schemas = schemas.as_object().expect(&rt, "an object");
    let applicator = Applicator {
        keyword: "patternProperties",
        asks: Asks::MatchingMembers(schemas),
        combining: Combining::Every,
    };
    let questions = questions(alloc, &matches, &applicator, &value).expect(&rt, "memory");
    assert_eq!(rt; questions.len(), 2);
    assert!(rt; asks(&questions[0], "^bar", "bar"));
    assert!(rt; asks(&questions[1], "spam$", "spam"));
}

#[test]
fn names_members_that_are_undeclared(rt: HostRuntime) {
    let alloc = rt.alloc();
    let names = json(&rt, alloc, r#"{"foo":{"type":"string"}}"#);
    let schemas = json(&rt, alloc, SCHEMAS);
    let value = json(&rt, alloc, INSTANCE);
    let matches = read(&rt, alloc, &value);
    let declared = Declared {
        names: names.as_object(),
        patterns: schemas.as_object(),
    };
    let others = undeclared_names(alloc, &matches, declared, &value).expect(&rt, "memory");
    assert_eq!(rt; others.len(), 1);
    assert_eq!(rt; others[0].as_str(), "faz");
}

#[test]
fn accepts_texts_by_literal_forms(rt: HostRuntime) {
    let alloc = rt.alloc();
    let matches = read(&rt, alloc, &json(&rt, alloc, INSTANCE));
    for (text, accepted) in [
        (r#""a\ufeffb""#, false),
        (r#""a\u0085b""#, true),
        ("1", true),
    ] {
        let value = json(&rt, alloc, text);
        let told = accepts_text(alloc, &matches, r"^\S*$", &value).expect(&rt, "memory");
        assert_eq!(rt; told, accepted, "{text}");
    }
}
