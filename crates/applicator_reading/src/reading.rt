//! Keywords that apply subschemas, read from the members of a schema.
ghost use Rattle.std.specs.Prelude.{◌≡◌, ℕ, List, [], ◌∷◌, IfSome, IfNone, codes, false, true, Some};
ghost use Rattle.std.specs.Borrow.{Bor};
ghost use Rattle.serde_json.specs.View.{view};
ghost use Rattle.serde_json.specs.declared.value.Value as json;
ghost use Rattle.schema_meaning.specs.Keywords.{Shape};
ghost use Rattle.schema_meaning.specs.Members.{is_listed};
ghost use Rattle.schema_definitions.specs.Sites.{Site};
ghost use Rattle.schema_definitions.specs.Rows as rows;
ghost use Rattle.applicators.specs.Shapes.{shape_of, leads_of};
ghost use Rattle.applicators.specs.Combined.{is_by_answers};
ghost use Rattle.applicators.specs.Made.{patterns_in};
ghost use Rattle.applicator_reading.specs.Beside.{Surrounds};
ghost use Rattle.applicator_reading.specs.Names.{applicator_names};
ghost use Rattle.applicator_reading.specs.Arms.{list_name, list_row, map_name, map_row};
ghost use Rattle.applicator_reading.specs.Reads.{ReadsAs, IsByAnswers, site_in};
ghost use Rattle.applicator_reading.specs.Conditions.{IsCondition, IsConsequent};

use crate::entries::{other_item, other_member};
use crate::keyword::{ListKeyword, MapKeyword};
use crate::neighbours::{
    Neighbours, count_beside, declared_beside, has_consequent, is_alone, is_beside, items_length,
    prefix_length, schema_beside,
};
use applicators::applicator::Applicator;
use applicators::asks::Asks;
use applicators::combining::Combining;
use schema_drafts::draft::Draft;
use schema_places::place::is_schema;
use serde_json::Value;

/// What a member of a schema is, where its name is that of a keyword that applies subschemas.
#[derive(Drop, Debug)]
pub enum Reading<'r> {
    Applied(Applicator<'r>),
    /// It applies nothing.
    Nothing,
    /// A schema that the `if` beside applies.
    Consequent(&'r Value),
    /// The keyword may not have the value: what was expected in its place.
    Value {
        expected: &'static str,
    },
    /// The same of a member of the value.
    Entry {
        name: &'r str,
        expected: &'static str,
    },
    /// The same of an item of the value.
    Element {
        index: usize,
        expected: &'static str,
    },
}

// Whether `items` may be a list (2019-09, Core 9.3.1.1).
fn takes_list(draft: Draft) -> bool
    ensures { result ≡ rows.takes_list draft }
{
    match draft {
        Draft::Draft4 | Draft::Draft6 | Draft::Draft7 | Draft::Draft201909 => true,
        Draft::Draft202012 | Draft::Unknown => false,
    }
}

fn is_false(value: &Value) -> bool
    ensures { result ≡ rows.is_false (view value.now) }
{
    match value {
        Value::Bool(answer) => !*answer,
        _ => false,
    }
}

// The reading of a keyword whose value is one schema, where it is one.
fn if_schema<'r>(schema: &Value, reading: Reading<'r>) -> Reading<'r>
    ensures read { (x : rows.Context) (k : List ℕ) (shapes : Site → List (Shape Site))
        → ReadsAs x k (rows.reads (site_in x (rows.at k) (view schema.now) ∷ [])
        (shapes (site_in x (rows.at k) (view schema.now)))) reading.entry
        → ReadsAs x k (rows.one_schema x k shapes (view schema.now)) result }
    ensures answers { IsByAnswers reading.entry → IsByAnswers result }
    ensures condition { (v : Bor json.Value) → IsCondition v reading.entry → IsCondition v result }
    ensures consequent { (v : Bor json.Value) → IsConsequent v reading.entry → IsConsequent v result }
{
    if is_schema(schema) {
        reading
    } else {
        Reading::Value { expected: "schema" }
    }
}

fn list<'r>(keyword: ListKeyword, value: &'r Value) -> Reading<'r>
    ensures read { (x : rows.Context) → ReadsAs x (list_name keyword) (list_row keyword x (view value.now)) result }
    ensures answers { IsByAnswers result }
{
    let Some(items) = value.as_array() else {
        return Reading::Value {
            expected: keyword.word(),
        };
    };
    let schemas = items.as_slice();
    match other_item(schemas) {
        Some(index) => Reading::Element {
            index,
            expected: "schema",
        },
        None => Reading::Applied(keyword.applied(schemas)),
    }
}

fn map<'r>(keyword: MapKeyword, value: &'r Value) -> Reading<'r>
    ensures read { (x : rows.Context) → ReadsAs x (map_name keyword) (map_row keyword x (view value.now)) result }
    ensures answers { IsByAnswers result }
{
    let Some(schemas) = value.as_object() else {
        return Reading::Value { expected: "object" };
    };
    match other_member(schemas) {
        Some(name) => Reading::Entry {
            name,
            expected: "schema",
        },
        None => Reading::Applied(keyword.applied(schemas)),
    }
}

fn items<'r>(neighbours: Neighbours<'r>, value: &'r Value) -> Reading<'r>
    ensures read { (x : rows.Context) → Surrounds neighbours.entry x
        → ReadsAs x (codes "items") (rows.items_row x (codes "items") (view value.now)) result }
    ensures answers { IsByAnswers result }
{
    if is_schema(value) {
        return Reading::Applied(Applicator {
            keyword: "items",
            asks: Asks::ItemsFrom {
                start: prefix_length(neighbours),
                schema: value,
            },
            combining: Combining::Every,
        });
    }
    if takes_list(neighbours.dialect.draft) {
        list(ListKeyword::ItemList, value)
    } else {
        Reading::Value { expected: "schema" }
    }
}

fn additional_items<'r>(neighbours: Neighbours<'r>, value: &'r Value) -> Reading<'r>
    ensures read { (x : rows.Context) → Surrounds neighbours.entry x
        → ReadsAs x (codes "additionalItems")
        (rows.additional_items_row x (codes "additionalItems") (view value.now)) result }
    ensures answers { IsByAnswers result }
{
    let Some(start) = items_length(neighbours) else {
        return Reading::Nothing;
    };
    let schema = value;
    if is_false(value) {
        let refusing = Applicator {
            keyword: "additionalItems",
            asks: Asks::ItemsFrom { start, schema },
            combining: Combining::Together,
        };
        if_schema(value, Reading::Applied(refusing))
    } else {
        let applicator = Applicator {
            keyword: "additionalItems",
            asks: Asks::ItemsFrom { start, schema },
            combining: Combining::Every,
        };
        if_schema(value, Reading::Applied(applicator))
    }
}

fn contains<'r>(neighbours: Neighbours<'r>, value: &'r Value) -> Reading<'r>
    ensures read { (x : rows.Context) → Surrounds neighbours.entry x
        → ReadsAs x (codes "contains") (rows.contains_row x (codes "contains") (view value.now)) result }
    ensures answers { IsByAnswers result }
{
    let least = count_beside(neighbours, "minContains");
    let most = count_beside(neighbours, "maxContains");
    let applicator = Applicator {
        keyword: "contains",
        asks: Asks::ItemsFrom {
            start: 0,
            schema: value,
        },
        combining: Combining::Counted { least, most },
    };
    if_schema(value, Reading::Applied(applicator))
}

// `minContains` and `maxContains`, which the `contains` beside reads.
fn bound<'r>(neighbours: Neighbours<'r>, value: &Value) -> Reading<'r>
    ensures read { (x : rows.Context) (k : List ℕ) → Surrounds neighbours.entry x
        → ReadsAs x k (rows.bound_row x k (view value.now)) result }
    ensures answers { IsByAnswers result }
{
    if is_beside(neighbours, "contains") {
        match value.as_u64() {
            Some(_) => Reading::Nothing,
            None => Reading::Value { expected: "count" },
        }
    } else {
        Reading::Nothing
    }
}

// `additionalProperties` as `false`.
fn refusing_others<'r>(neighbours: Neighbours<'r>, schema: &'r Value) -> Applicator<'r>
    ensures shape { (x : rows.Context) → Surrounds neighbours.entry x
        → shape_of (site_in x) result ≡ rows.refuses_others x
        (site_in x (rows.at (codes "additionalProperties")) (view schema.now)) }
    ensures leads { (x : rows.Context) → leads_of (site_in x) result
        ≡ site_in x (rows.at (codes "additionalProperties")) (view schema.now) ∷ [] }
    ensures patterns { patterns_in result ≡ [] }
    ensures answers { is_by_answers result ≡ true }
{
    if is_alone(neighbours) {
        return Applicator {
            keyword: "additionalProperties",
            asks: Asks::Members(schema),
            combining: Combining::Together,
        };
    }
    Applicator {
        keyword: "additionalProperties",
        asks: Asks::OtherMembers {
            declared: declared_beside(neighbours),
            schema,
        },
        combining: Combining::Together,
    }
}

fn additional_properties<'r>(neighbours: Neighbours<'r>, value: &'r Value) -> Reading<'r>
    ensures read { (x : rows.Context) → Surrounds neighbours.entry x
        → ReadsAs x (codes "additionalProperties")
        (rows.additional_properties_row x (codes "additionalProperties") (view value.now)) result }
    ensures answers { IsByAnswers result }
{
    match value.as_bool() {
        Some(true) => Reading::Nothing,
        Some(false) => Reading::Applied(refusing_others(neighbours, value)),
        None => {
            let applicator = Applicator {
                keyword: "additionalProperties",
                asks: Asks::OtherMembers {
                    declared: declared_beside(neighbours),
                    schema: value,
                },
                combining: Combining::Every,
            };
            if_schema(value, Reading::Applied(applicator))
        }
    }
}

fn property_names<'r>(value: &'r Value) -> Reading<'r>
    ensures read { (x : rows.Context) → ReadsAs x (codes "propertyNames")
        (rows.property_names_row x (codes "propertyNames") (view value.now)) result }
    ensures answers { IsByAnswers result }
{
    match value.as_bool() {
        Some(true) => Reading::Nothing,
        Some(false) => Reading::Applied(Applicator {
            keyword: "propertyNames",
            asks: Asks::Names(value),
            combining: Combining::Together,
        }),
        None => {
            if is_schema(value) {
                Reading::Applied(Applicator {
                    keyword: "propertyNames",
                    asks: Asks::Names(value),
                    combining: Combining::EachNamed,
                })
            } else {
                Reading::Nothing
            }
        }
    }
}

fn negation<'r>(value: &'r Value) -> Reading<'r>
    ensures read { (x : rows.Context) → ReadsAs x (codes "not")
        (rows.read_among rows.readers x (codes "not") (view value.now)) result }
    ensures answers { IsByAnswers result }
{
    let negated = Applicator {
        keyword: "not",
        asks: Asks::Value(value),
        combining: Combining::Refusal,
    };
    if_schema(value, Reading::Applied(negated))
}

/// What `if` is: nothing without `then` or `else` beside.
///
/// It reads these two, where they count.
pub fn condition<'r>(neighbours: Neighbours<'r>, value: &'r Value) -> Reading<'r>
    ensures read { (x : rows.Context) → Surrounds neighbours.entry x
        → ReadsAs x (codes "if") (rows.if_row x (codes "if") (view value.now)) result }
    ensures condition { IsCondition value.entry result }
{
    if has_consequent(neighbours) {
        let then_schema = schema_beside(neighbours, "then");
        let else_schema = schema_beside(neighbours, "else");
        let applicator = Applicator {
            keyword: "if",
            asks: Asks::Condition {
                condition: value,
                then_schema,
                else_schema,
            },
            combining: Combining::Conditional,
        };
        if_schema(value, Reading::Applied(applicator))
    } else {
        Reading::Nothing
    }
}

/// What `then` or `else` is: nothing without `if` beside, which counts.
pub fn consequent<'r>(neighbours: Neighbours<'r>, value: &'r Value) -> Reading<'r>
    ensures read { (x : rows.Context) (k : List ℕ) → Surrounds neighbours.entry x
        → ReadsAs x k (rows.consequent_row x k (view value.now)) result }
    ensures consequent { IsConsequent value.entry result }
{
    if is_beside(neighbours, "if") {
        if_schema(value, Reading::Consequent(value))
    } else {
        Reading::Nothing
    }
}

/// What a member of a schema is that counts, where its name is that of a keyword that applies subschemas; for any other name there is
/// none, and so for `dependencies`, and for `if`, `then` and `else`, which have calls of their own.
///
/// It reads the neighbours that count, and of an entry that is no schema it names the first. The patterns of `patternProperties` are
/// not made. What is read lends the schema; it takes no memory.
pub fn read<'r>(neighbours: Neighbours<'r>, name: &str, value: &'r Value) -> Option<Reading<'r>>
    ensures read { IfSome result (λ r. (x : rows.Context) → Surrounds neighbours.entry x
        → ReadsAs x name.now (rows.read_among rows.readers x name.now (view value.now)) r) }
    ensures named { IfSome result (λ r. is_listed name.now applicator_names ≡ true) }
    ensures other { IfNone result (is_listed name.now applicator_names ≡ false) }
    ensures answers { IfSome result (λ r. IsByAnswers r) }
{
    match name {
        "items" => Some(items(neighbours, value)),
        "prefixItems" => Some(list(ListKeyword::PrefixItems, value)),
        "additionalItems" => Some(additional_items(neighbours, value)),
        "contains" => Some(contains(neighbours, value)),
        "minContains" => Some(bound(neighbours, value)),
        "maxContains" => Some(bound(neighbours, value)),
        "properties" => Some(map(MapKeyword::Properties, value)),
        "patternProperties" => Some(map(MapKeyword::PatternProperties, value)),
        "additionalProperties" => Some(additional_properties(neighbours, value)),
        "propertyNames" => Some(property_names(value)),
        "dependentSchemas" => Some(map(MapKeyword::DependentSchemas, value)),
        "allOf" => Some(list(ListKeyword::AllOf, value)),
        "anyOf" => Some(list(ListKeyword::AnyOf, value)),
        "oneOf" => Some(list(ListKeyword::OneOf, value)),
        "not" => Some(negation(value)),
        _ => None,
    }
}
