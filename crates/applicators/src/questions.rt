//! The questions that applicators ask of a value.
ghost use Rattle.std.specs.Prelude.{◌≡◌, ◌++◌, ℕ, List, [], ◌∷◌, IfOk, OnOk, Bool, true, false, codes, map, option_map};
ghost use Rattle.serde_json.specs.Data.{Data};
ghost use Rattle.serde_json.specs.View.{view, items_view, members_view};
ghost use Rattle.serde_json.specs.Find.{get, get_member};
ghost use Rattle.json_values.specs.Parts.{Part};
ghost use Rattle.schema_definitions.specs.Sites.{Site};
ghost use Rattle.schema_meaning.specs.Places.{to_member};
ghost use Rattle.schema_meaning.specs.Questions.{question, at, here, each_branch, items_of, items_from, each_item, item_by_item, listed_members, members_of, other_members, names_of, if_member, each_declared, each_member, each_name, each_triggered};
ghost use Rattle.schema_meaning.specs.Rules.{asks, consequents};
ghost use Rattle.schema_meaning.specs.Keywords.{rule, consequent, applied};
ghost use Rattle.schema_patterns.specs.Read.{reads};
ghost use Rattle.applicators.specs.Shapes.{site_of, sites_of_list, sites_of_map, declared_by, others_among, shape_of, dependency_at, dependencies_in};
ghost use Rattle.applicators.specs.Asks.{asked_by};
ghost use Rattle.applicators.specs.Questions.{step_of, questions_of, each_dependency};

use crate::applicator::Applicator;
use crate::asks::Asks;
use crate::declared::{Declared, is_declared};
use crate::patterns::push_patterns;
use crate::question::{Asked, Question};
use crate::subschema::{Entry, Subschema};
use schema_patterns::matches::Matches;
use serde_json::{Map, Value};
use std::alloc::{AllocError, Global};

fn items_in(value: &Value) -> &[Value]
    ensures { items_view result.now ≡ items_of (view value.now) }
{
    match value {
        Value::Array(items) => items.as_slice(),
        _ => &[],
    }
}

fn push<'r, 'i>(
    questions: &mut Vec<Question<'r, 'i>>,
    keyword: &'static str,
    schema: &'r Value,
    asked: Asked<'i>,
) -> Result<(), AllocError>
    ensures { OnOk result ((site : List Part → Data → Site) → questions_of site questions.new.items
        ≡ questions_of site questions.old.items ++ question (site_of site keyword.now (view schema.now)) (step_of asked.entry) (at keyword.now) ∷ []) }
{
    questions.push(Question {
        subschema: Subschema {
            keyword,
            entry: Entry::Whole,
            schema,
        },
        asked,
    })?;
    Ok(())
}

// Each item from the start-th on by one schema.
fn push_items<'r, 'i>(
    questions: &mut Vec<Question<'r, 'i>>,
    keyword: &'static str,
    schema: &'r Value,
    start: usize,
    value: &'i Value,
) -> Result<(), AllocError>
    ensures { OnOk result ((site : List Part → Data → Site) → questions_of site questions.new.items
        ≡ questions_of site questions.old.items ++ each_item keyword.now (site_of site keyword.now (view schema.now)) start (items_from start (items_of (view value.now)))) }
{
    let items = items_in(value);
    for index in start..items.len() {
        let item = &items[index];
        push(questions, keyword, schema, Asked::Item { index, item })?;
    }
    Ok(())
}

// Each item by the schema of its own index.
fn push_item_list<'r, 'i>(
    questions: &mut Vec<Question<'r, 'i>>,
    keyword: &'static str,
    schemas: &'r [Value],
    value: &'i Value,
) -> Result<(), AllocError>
    ensures { OnOk result ((site : List Part → Data → Site) → questions_of site questions.new.items
        ≡ questions_of site questions.old.items ++ item_by_item keyword.now (sites_of_list site keyword.now 0 (items_view schemas.now)) 0 (items_of (view value.now))) }
{
    let items = items_in(value);
    for (index, schema) in schemas.iter().enumerate() {
        if index >= items.len() {
            return Ok(());
        }
        questions.push(Question {
            subschema: Subschema {
                keyword,
                entry: Entry::Index(index),
                schema,
            },
            asked: Asked::Item {
                index,
                item: &items[index],
            },
        })?;
    }
    Ok(())
}

// The value by each schema of a list.
fn push_branches<'r, 'i>(
    questions: &mut Vec<Question<'r, 'i>>,
    keyword: &'static str,
    schemas: &'r [Value],
) -> Result<(), AllocError>
    ensures { OnOk result ((site : List Part → Data → Site) → questions_of site questions.new.items
        ≡ questions_of site questions.old.items ++ each_branch keyword.now 0 (sites_of_list site keyword.now 0 (items_view schemas.now))) }
{
    for (index, schema) in schemas.iter().enumerate() {
        questions.push(Question {
            subschema: Subschema {
                keyword,
                entry: Entry::Index(index),
                schema,
            },
            asked: Asked::Value,
        })?;
    }
    Ok(())
}

fn member_of_object<'i>(members: &'i Map<String, Value>, name: &str) -> Option<Asked<'i>>
    ensures { option_map step_of result ≡ option_map (to_member name.now) (get_member name.now (members_view members.now.entries)) }
{
    match members.get_key_value(name) {
        Some((name, member)) => Some(Asked::Member {
            name: name.as_str(),
            member,
        }),
        None => None,
    }
}

fn member_of<'i>(value: &'i Value, name: &str) -> Option<Asked<'i>>
    ensures { option_map step_of result ≡ option_map (to_member name.now) (get name.now (view value.now)) }
{
    match value {
        Value::Object(members) => member_of_object(members, name),
        _ => None,
    }
}

// Each declared member by its name's schema.
fn push_declared<'r, 'i>(
    questions: &mut Vec<Question<'r, 'i>>,
    keyword: &'static str,
    schemas: &'r Map<String, Value>,
    value: &'i Value,
) -> Result<(), AllocError>
    ensures { OnOk result ((site : List Part → Data → Site) → questions_of site questions.new.items
        ≡ questions_of site questions.old.items ++ each_declared keyword.now (view value.now) (sites_of_map site keyword.now (members_view schemas.now.entries))) }
{
    for (name, schema) in schemas.iter() {
        let name = name.as_str();
        if let Some(asked) = member_of(value, name) {
            questions.push(Question {
                subschema: Subschema {
                    keyword,
                    entry: Entry::Name(name),
                    schema,
                },
                asked,
            })?;
        }
    }
    Ok(())
}

// The value by the schema of each name that is a member.
fn push_triggered<'r, 'i>(
    questions: &mut Vec<Question<'r, 'i>>,
    keyword: &'static str,
    schemas: &'r Map<String, Value>,
    value: &Value,
) -> Result<(), AllocError>
    ensures { OnOk result ((site : List Part → Data → Site) → questions_of site questions.new.items
        ≡ questions_of site questions.old.items ++ each_triggered keyword.now (view value.now) (sites_of_map site keyword.now (members_view schemas.now.entries))) }
{
    for (name, schema) in schemas.iter() {
        let name = name.as_str();
        if value.get(name).is_some() {
            questions.push(Question {
                subschema: Subschema {
                    keyword,
                    entry: Entry::Name(name),
                    schema,
                },
                asked: Asked::Value,
            })?;
        }
    }
    Ok(())
}

// The value by an entry of `dependencies` that is a schema.
fn push_dependency<'r, 'i>(
    questions: &mut Vec<Question<'r, 'i>>,
    keyword: &'static str,
    name: &'r str,
    entry: &'r Value,
) -> Result<(), AllocError>
    ensures { OnOk result ((site : List Part → Data → Site) → questions_of site questions.new.items
        ≡ questions_of site questions.old.items ++ applied keyword.now name.now (dependency_at site keyword.now name.now (view entry.now))) }
{
    match entry {
        Value::Array(_) => Ok(()),
        _ => {
            questions.push(Question {
                subschema: Subschema {
                    keyword,
                    entry: Entry::Name(name),
                    schema: entry,
                },
                asked: Asked::Value,
            })?;
            Ok(())
        }
    }
}

// The same where its name is a member.
fn push_dependency_of_member<'r, 'i>(
    questions: &mut Vec<Question<'r, 'i>>,
    keyword: &'static str,
    name: &'r str,
    entry: &'r Value,
    value: &Value,
) -> Result<(), AllocError>
    ensures { OnOk result ((site : List Part → Data → Site) → questions_of site questions.new.items
        ≡ questions_of site questions.old.items ++ if_member (get name.now (view value.now)) (λ e. applied keyword.now name.now (dependency_at site keyword.now name.now (view entry.now)))) }
{
    match value.get(name) {
        Some(_) => push_dependency(questions, keyword, name, entry),
        None => Ok(()),
    }
}

// The same of each entry.
fn push_dependencies<'r, 'i>(
    questions: &mut Vec<Question<'r, 'i>>,
    keyword: &'static str,
    entries: &'r Map<String, Value>,
    value: &Value,
) -> Result<(), AllocError>
    ensures { OnOk result ((site : List Part → Data → Site) → questions_of site questions.new.items
        ≡ questions_of site questions.old.items ++ each_dependency keyword.now (view value.now) (dependencies_in site keyword.now (members_view entries.now.entries))) }
{
    for (name, entry) in entries.iter() {
        push_dependency_of_member(questions, keyword, name.as_str(), entry, value)?;
    }
    Ok(())
}

fn push_members_of_object<'r, 'i>(
    questions: &mut Vec<Question<'r, 'i>>,
    keyword: &'static str,
    schema: &'r Value,
    members: &'i Map<String, Value>,
) -> Result<(), AllocError>
    ensures { OnOk result ((site : List Part → Data → Site) → questions_of site questions.new.items
        ≡ questions_of site questions.old.items ++ each_member keyword.now (site_of site keyword.now (view schema.now)) (listed_members (members_view members.now.entries))) }
{
    for (name, member) in members.iter() {
        let name = name.as_str();
        push(questions, keyword, schema, Asked::Member { name, member })?;
    }
    Ok(())
}

// Each member by one schema.
fn push_members<'r, 'i>(
    questions: &mut Vec<Question<'r, 'i>>,
    keyword: &'static str,
    schema: &'r Value,
    value: &'i Value,
) -> Result<(), AllocError>
    ensures { OnOk result ((site : List Part → Data → Site) → questions_of site questions.new.items
        ≡ questions_of site questions.old.items ++ each_member keyword.now (site_of site keyword.now (view schema.now)) (members_of (view value.now))) }
{
    match value {
        Value::Object(members) => push_members_of_object(questions, keyword, schema, members),
        _ => Ok(()),
    }
}

fn push_others_of_object<'r, 'i>(
    alloc: Global,
    matches: &Matches,
    questions: &mut Vec<Question<'r, 'i>>,
    keyword: &'static str,
    schema: &'r Value,
    declared: Declared<'_>,
    members: &'i Map<String, Value>,
) -> Result<(), AllocError>
    ensures { OnOk result ((site : List Part → Data → Site) → questions_of site questions.new.items
        ≡ questions_of site questions.old.items ++ each_member keyword.now (site_of site keyword.now (view schema.now)) (others_among (reads matches.now) (declared_by declared.entry) (listed_members (members_view members.now.entries)))) }
{
    for (name, member) in members.iter() {
        let name = name.as_str();
        if !is_declared(alloc, matches, declared, name)? {
            push(questions, keyword, schema, Asked::Member { name, member })?;
        }
    }
    Ok(())
}

// Each member that is not declared by one schema.
fn push_others<'r, 'i>(
    alloc: Global,
    matches: &Matches,
    questions: &mut Vec<Question<'r, 'i>>,
    keyword: &'static str,
    schema: &'r Value,
    declared: Declared<'_>,
    value: &'i Value,
) -> Result<(), AllocError>
    ensures { OnOk result ((site : List Part → Data → Site) → questions_of site questions.new.items
        ≡ questions_of site questions.old.items ++ each_member keyword.now (site_of site keyword.now (view schema.now)) (other_members (reads matches.now) (declared_by declared.entry) (view value.now))) }
{
    match value {
        Value::Object(members) => {
            push_others_of_object(
                alloc, matches, questions, keyword, schema, declared, members,
            )
        }
        _ => Ok(()),
    }
}

fn push_names_of_object<'r, 'i>(
    questions: &mut Vec<Question<'r, 'i>>,
    keyword: &'static str,
    schema: &'r Value,
    members: &'i Map<String, Value>,
) -> Result<(), AllocError>
    ensures { OnOk result ((site : List Part → Data → Site) → questions_of site questions.new.items
        ≡ questions_of site questions.old.items ++ each_name (at keyword.now) (site_of site keyword.now (view schema.now)) (map (λ m. m.0) (listed_members (members_view members.now.entries)))) }
{
    for (name, _) in members.iter() {
        push(questions, keyword, schema, Asked::Name(name.as_str()))?;
    }
    Ok(())
}

// Each member's name by one schema.
fn push_names<'r, 'i>(
    questions: &mut Vec<Question<'r, 'i>>,
    keyword: &'static str,
    schema: &'r Value,
    value: &'i Value,
) -> Result<(), AllocError>
    ensures { OnOk result ((site : List Part → Data → Site) → questions_of site questions.new.items
        ≡ questions_of site questions.old.items ++ each_name (at keyword.now) (site_of site keyword.now (view schema.now)) (names_of (view value.now))) }
{
    match value {
        Value::Object(members) => push_names_of_object(questions, keyword, schema, members),
        _ => Ok(()),
    }
}

// The value by a schema that may stand beside `if`.
fn push_consequent<'r, 'i>(
    questions: &mut Vec<Question<'r, 'i>>,
    keyword: &'static str,
    schema: Option<&'r Value>,
) -> Result<(), AllocError>
    ensures { OnOk result ((site : List Part → Data → Site) (b : Bool) → questions_of site questions.new.items
        ≡ questions_of site questions.old.items ++ consequents (consequent b keyword.now (option_map (λ s. site_of site keyword.now (view s.now)) schema.entry))) }
{
    match schema {
        Some(schema) => push(questions, keyword, schema, Asked::Value),
        None => Ok(()),
    }
}

fn push_condition<'r, 'i>(
    questions: &mut Vec<Question<'r, 'i>>,
    keyword: &'static str,
    condition: &'r Value,
    then_schema: Option<&'r Value>,
    else_schema: Option<&'r Value>,
) -> Result<(), AllocError>
    ensures { OnOk result ((site : List Part → Data → Site) → questions_of site questions.new.items ≡ questions_of site questions.old.items
        ++ here keyword.now (site_of site keyword.now (view condition.now))
        ∷ consequents (consequent true (codes "then") (option_map (λ s. site_of site (codes "then") (view s.now)) then_schema.entry) ++ consequent false (codes "else") (option_map (λ s. site_of site (codes "else") (view s.now)) else_schema.entry))) }
{
    push(questions, keyword, condition, Asked::Value)?;
    push_consequent(questions, "then", then_schema)?;
    push_consequent(questions, "else", else_schema)?;
    Ok(())
}

fn push_asked<'r, 'i>(
    alloc: Global,
    matches: &Matches,
    questions: &mut Vec<Question<'r, 'i>>,
    keyword: &'static str,
    asks: Asks<'r>,
    value: &'i Value,
) -> Result<(), AllocError>
    ensures { OnOk result ((site : List Part → Data → Site) → questions_of site questions.new.items
        ≡ questions_of site questions.old.items
        ++ asked_by site (reads matches.now) keyword.now (view value.now) asks.entry) }
{
    match asks {
        Asks::ItemsFrom { start, schema } => push_items(questions, keyword, schema, start, value),
        Asks::ItemByItem(schemas) => push_item_list(questions, keyword, schemas, value),
        Asks::DeclaredMembers(schemas) => push_declared(questions, keyword, schemas, value),
        Asks::MatchingMembers(schemas) => {
            push_patterns(alloc, matches, questions, keyword, schemas, value)
        }
        Asks::OtherMembers { declared, schema } => {
            push_others(alloc, matches, questions, keyword, schema, declared, value)
        }
        Asks::Members(schema) => push_members(questions, keyword, schema, value),
        Asks::Names(schema) => push_names(questions, keyword, schema, value),
        Asks::Triggered(schemas) => push_triggered(questions, keyword, schemas, value),
        Asks::Dependencies(entries) => push_dependencies(questions, keyword, entries, value),
        Asks::Branches(schemas) => push_branches(questions, keyword, schemas),
        Asks::Value(schema) => push(questions, keyword, schema, Asked::Value),
        Asks::Condition {
            condition,
            then_schema,
            else_schema,
        } => push_condition(questions, keyword, condition, then_schema, else_schema),
    }
}

/// The questions that an applicator asks of a value, in order: those of `if` first by the condition, then by `then` and `else`,
/// whichever of them its answer chooses. A member is asked of by `patternProperties` for each pattern that matches its name.
///
/// It takes memory for the list, and where patterns are asked for, for the texts of a literal form.
///
/// # Errors
///
/// Where memory is refused.
pub fn questions<'r, 'i>(
    alloc: Global,
    matches: &Matches,
    applicator: &Applicator<'r>,
    value: &'i Value,
) -> Result<Vec<Question<'r, 'i>>, AllocError>
    ensures { IfOk result (λ qs. (site : List Part → Data → Site)
        → questions_of site qs.items ≡ asks (rule (reads matches.now) (view value.now) (shape_of site applicator.now))) }
{
    let mut questions = Vec::new(alloc);
    push_asked(
        alloc,
        matches,
        &mut questions,
        applicator.name(),
        applicator.asks(),
        value,
    )?;
    Ok(questions)
}
