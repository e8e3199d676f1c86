// How members of schemas are read.
use crate::applicator_rows::{cut, json};
use applicator_reading::neighbours::Neighbours;
use applicator_reading::reading::{Reading, condition, consequent, read};
use schema_dialects::Dialect;
use schema_drafts::draft::Draft;
use serde_json::Value;
use std::alloc::Global;
use std::process::Abort;

// A schema, the name of a member, and how that is read.
const DRAFT_4: &str = r#"
{"properties":{"a":{},"b":1}} :: properties :: Entry { name: "b", expected: "schema" }
{"patternProperties":{"a(":{},"^b":{}}} :: patternProperties :: Applied(ApplicatorOf { keyword: "patternProperties", asks: MatchingMembers({"^b": Object {}, "a(": Object {}}), combining: Every })
{"additionalProperties":false,"patternProperties":{"^b":{}},"properties":{"a":{}}} :: additionalProperties :: Applied(ApplicatorOf { keyword: "additionalProperties", asks: OtherMembers { declared: DeclaredOf { names: Some({"a": Object {}}), patterns: Some({"^b": Object {}}) }, schema: Bool(false) }, combining: Together })
{"additionalProperties":false,"properties":{}} :: additionalProperties :: Applied(ApplicatorOf { keyword: "additionalProperties", asks: OtherMembers { declared: DeclaredOf { names: Some({}), patterns: None }, schema: Bool(false) }, combining: Together })
"#;

const DRAFT_6: &str = r#"
{"allOf":{}} :: allOf :: Value { expected: "list" }
{"anyOf":[true,false]} :: anyOf :: Applied(ApplicatorOf { keyword: "anyOf", asks: Branches([Bool(true), Bool(false)]), combining: SomeBranch })
"#;

const DRAFT_7: &str = r#"
{"items":[true]} :: items :: Applied(ApplicatorOf { keyword: "items", asks: ItemByItem([Bool(true)]), combining: Every })
{"items":3} :: items :: Value { expected: "schema or list" }
{"patternProperties":{"^b":true,"a(":1}} :: patternProperties :: Entry { name: "a(", expected: "schema" }
{"not":false} :: not :: Applied(ApplicatorOf { keyword: "not", asks: Value(Bool(false)), combining: Refusal })
{"propertyNames":false} :: propertyNames :: Applied(ApplicatorOf { keyword: "propertyNames", asks: Names(Bool(false)), combining: Together })
{"propertyNames":true} :: propertyNames :: Nothing
{"propertyNames":3} :: propertyNames :: Nothing
{"type":"null"} :: type :: left
{"contains":true,"minContains":2} :: contains :: Applied(ApplicatorOf { keyword: "contains", asks: ItemsFrom { start: 0, schema: Bool(true) }, combining: Counted { least: None, most: None } })
{"if":true} :: if :: Nothing
{"if":true,"then":5,"else":false} :: if :: Applied(ApplicatorOf { keyword: "if", asks: Condition { condition: Bool(true), then_schema: None, else_schema: Some(Bool(false)) }, combining: Conditional })
{"if":true,"then":5} :: then :: Value { expected: "schema" }
{"if":true,"then":false} :: then :: Consequent(Bool(false))
{"then":5} :: then :: Nothing
"#;

const DRAFT_2019_09: &str = r#"
{"dependentSchemas":[]} :: dependentSchemas :: Value { expected: "object" }
{"items":true,"prefixItems":[{},{}]} :: items :: Applied(ApplicatorOf { keyword: "items", asks: ItemsFrom { start: 0, schema: Bool(true) }, combining: Every })
{"items":[{}],"additionalItems":false} :: additionalItems :: Applied(ApplicatorOf { keyword: "additionalItems", asks: ItemsFrom { start: 1, schema: Bool(false) }, combining: Together })
{"items":{},"additionalItems":false} :: additionalItems :: Nothing
"#;

const DRAFT_2020_12: &str = r#"
{"items":[true]} :: items :: Value { expected: "schema" }
{"prefixItems":[true,3,4]} :: prefixItems :: Element { index: 1, expected: "schema" }
{"patternProperties":["^b"]} :: patternProperties :: Value { expected: "object" }
{"items":true,"prefixItems":[{},{}]} :: items :: Applied(ApplicatorOf { keyword: "items", asks: ItemsFrom { start: 2, schema: Bool(true) }, combining: Every })
{"contains":true,"minContains":2,"maxContains":"a"} :: contains :: Applied(ApplicatorOf { keyword: "contains", asks: ItemsFrom { start: 0, schema: Bool(true) }, combining: Counted { least: Some(2), most: None } })
{"contains":true,"maxContains":"a"} :: maxContains :: Value { expected: "count" }
{"maxContains":"a"} :: maxContains :: Nothing
{"additionalProperties":false} :: additionalProperties :: Applied(ApplicatorOf { keyword: "additionalProperties", asks: Members(Bool(false)), combining: Together })
{"additionalProperties":false,"patternProperties":3} :: additionalProperties :: Applied(ApplicatorOf { keyword: "additionalProperties", asks: OtherMembers { declared: DeclaredOf { names: None, patterns: None }, schema: Bool(false) }, combining: Together })
{"additionalProperties":true,"patternProperties":{}} :: additionalProperties :: Nothing
{"additionalProperties":{},"patternProperties":{"a(":true}} :: additionalProperties :: Applied(ApplicatorOf { keyword: "additionalProperties", asks: OtherMembers { declared: DeclaredOf { names: None, patterns: Some({"a(": Bool(true)}) }, schema: Object {} }, combining: Every })
{"additionalProperties":{}} :: additionalProperties :: Applied(ApplicatorOf { keyword: "additionalProperties", asks: OtherMembers { declared: DeclaredOf { names: None, patterns: None }, schema: Object {} }, combining: Every })
{"additionalProperties":{},"properties":{"a":true}} :: additionalProperties :: Applied(ApplicatorOf { keyword: "additionalProperties", asks: OtherMembers { declared: DeclaredOf { names: Some({"a": Bool(true)}), patterns: None }, schema: Object {} }, combining: Every })
{"additionalProperties":false,"properties":3} :: additionalProperties :: Applied(ApplicatorOf { keyword: "additionalProperties", asks: OtherMembers { declared: DeclaredOf { names: None, patterns: None }, schema: Bool(false) }, combining: Together })
{"additionalProperties":[],"properties":{}} :: additionalProperties :: Value { expected: "schema" }
{"additionalProperties":true} :: additionalProperties :: Nothing
"#;

// What a member is, by the call that reads its name.
fn read_member<'r>(
    neighbours: Neighbours<'r>,
    name: &str,
    value: &'r Value,
) -> Option<Reading<'r>> {
    match name {
        "if" => Some(condition(neighbours, value)),
        "then" | "else" => Some(consequent(neighbours, value)),
        _ => read(neighbours, name, value),
    }
}

fn told(rt: &impl Abort, alloc: Global, draft: Draft, schema: &str, name: &str) -> String {
    let schema = json(rt, alloc, schema);
    let members = schema.as_object().expect(rt, "an object");
    let value = members.get(name).expect(rt, "a member");
    let neighbours = Neighbours {
        dialect: Dialect::standard(false, draft),
        members,
    };
    match read_member(neighbours, name, value) {
        Some(reading) => format!(in alloc; "{reading:?}").expect(rt, "memory"),
        None => format!(in alloc; "left").expect(rt, "memory"),
    }
}

fn assert_rows(rt: &impl Abort, alloc: Global, draft: Draft, rows: &str) {
    for row in rows.trim().lines() {
        let (schema, rest) = cut(rt, row);
        let (name, want) = cut(rt, rest);
        let found = told(rt, alloc, draft, schema, name);
        assert!(rt; found.as_str() == want, "{row}");
    }
}

#[test]
fn reads_members(rt: HostRuntime) {
    assert_rows(&rt, rt.alloc(), Draft::Draft4, DRAFT_4);
    assert_rows(&rt, rt.alloc(), Draft::Draft6, DRAFT_6);
    assert_rows(&rt, rt.alloc(), Draft::Draft7, DRAFT_7);
    assert_rows(&rt, rt.alloc(), Draft::Draft201909, DRAFT_2019_09);
    assert_rows(&rt, rt.alloc(), Draft::Draft202012, DRAFT_2020_12);
}
