//! Names that must be members.
ghost use Rattle.std.specs.Prelude.{◌≡◌, ◌++◌, IfOk, OnOk, option_map, map};
ghost use Rattle.schema_meaning.specs.Keywords.{none_there, missing, missing_beside};
ghost use Rattle.schema_meaning.specs.Questions.{if_member};
ghost use Rattle.serde_json.specs.View.{view, items_view, members_view};
ghost use Rattle.serde_json.specs.Find.{get, get_member};
ghost use Rattle.serde_json.specs.Data.{Data};
ghost use Rattle.assertions.specs.Texts.{texts_of, texts_in, entries_of};
ghost use Rattle.assertions.specs.Wrong.{head, missing_of, missing_in, note_of_name, notes_of};

use crate::assertion::Wrong;
use serde_json::{Map, Value};
use std::alloc::{AllocError, Global};

fn member_at<'m>(members: &'m Map<String, Value>, name: &str) -> Option<&'m Value>
    ensures { option_map (λ v. view v.now) result ≡ get_member name.now (members_view members.now.entries) }
{
    members.get(name)
}

fn lacks(members: &Map<String, Value>, name: &str) -> bool
    ensures { result ≡ none_there (get_member name.now (members_view members.now.entries)) }
{
    member_at(members, name).is_none()
}

// A text that is no member's name.
fn missing_text<'a>(name: &'a Value, members: &Map<String, Value>) -> Option<&'a str>
    ensures { option_map (λ t. t.now) result ≡ missing_of (view name.now) (members_view members.now.entries) }
{
    let text = name.as_str()?;
    if lacks(members, text) {
        Some(text)
    } else {
        None
    }
}

fn first_missing_member<'a>(names: &'a [Value], members: &Map<String, Value>) -> Option<&'a str>
    ensures { option_map (λ t. t.now) result ≡ head (missing_in (items_view names.now) (members_view members.now.entries)) }
{
    for name in names {
        if let Some(text) = missing_text(name, members) {
            return Some(text);
        }
    }
    None
}

/// The first text of a list that is the name of no member.
pub(crate) fn first_missing<'a>(names: &'a [Value], value: &Value) -> Option<&'a str>
    ensures { option_map (λ t. note_of_name (view value.now) t.now) result ≡ head (missing (texts_of (items_view names.now)) (view value.now)) }
{
    match value {
        Value::Object(members) => first_missing_member(names, members),
        _ => None,
    }
}

// The list of an entry.
fn list_at(entry: &Value) -> &[Value]
    ensures { texts_of (items_view result.now) ≡ texts_in (view entry.now) }
{
    match entry {
        Value::Array(names) => names.as_slice(),
        _ => &[],
    }
}

fn first_missing_of_entry<'a>(name: &str, entry: &'a Value, value: &Value) -> Option<&'a str>
    ensures { option_map (λ t. note_of_name (view value.now) t.now) result
        ≡ head (if_member (get name.now (view value.now)) (λ e. missing (texts_in (view entry.now)) (view value.now))) }
{
    match value.get(name) {
        Some(_) => first_missing(list_at(entry), value),
        None => None,
    }
}

/// The first text of the lists among the entries whose name is a member that is the name of no member. Entries of another kind are let
/// alone.
pub fn first_missing_beside<'a>(entries: &'a Map<String, Value>, value: &Value) -> Option<&'a str>
    ensures { option_map (λ t. note_of_name (view value.now) t.now) result
        ≡ head (missing_beside (entries_of (members_view entries.now.entries)) (view value.now)) }
{
    for (name, entry) in entries.iter() {
        if let Some(text) = first_missing_of_entry(name.as_str(), entry, value) {
            return Some(text);
        }
    }
    None
}

fn push_missing_members<'a>(
    found: &mut Vec<Wrong<'a>>,
    names: &'a [Value],
    members: &Map<String, Value>,
) -> Result<(), AllocError>
    ensures { OnOk result ((d : Data) → notes_of d found.new.items ≡ notes_of d found.old.items
        ++ map (note_of_name d) (missing_in (items_view names.now) (members_view members.now.entries))) }
{
    for name in names {
        if let Some(text) = missing_text(name, members) {
            found.push(Wrong::Required(text))?;
        }
    }
    Ok(())
}

// Adds each text of a list that is the name of no member.
fn push_missing<'a>(
    found: &mut Vec<Wrong<'a>>,
    names: &'a [Value],
    value: &Value,
) -> Result<(), AllocError>
    ensures { OnOk result (notes_of (view value.now) found.new.items ≡ notes_of (view value.now) found.old.items
        ++ missing (texts_of (items_view names.now)) (view value.now)) }
{
    match value {
        Value::Object(members) => push_missing_members(found, names, members),
        _ => Ok(()),
    }
}

fn push_missing_of_entry<'a>(
    found: &mut Vec<Wrong<'a>>,
    name: &str,
    entry: &'a Value,
    value: &Value,
) -> Result<(), AllocError>
    ensures { OnOk result (notes_of (view value.now) found.new.items ≡ notes_of (view value.now) found.old.items
        ++ if_member (get name.now (view value.now)) (λ e. missing (texts_in (view entry.now)) (view value.now))) }
{
    match value.get(name) {
        Some(_) => push_missing(found, list_at(entry), value),
        None => Ok(()),
    }
}

// The same of each entry whose name is a member.
fn push_missing_beside<'a>(
    found: &mut Vec<Wrong<'a>>,
    entries: &'a Map<String, Value>,
    value: &Value,
) -> Result<(), AllocError>
    ensures { OnOk result (notes_of (view value.now) found.new.items ≡ notes_of (view value.now) found.old.items
        ++ missing_beside (entries_of (members_view entries.now.entries)) (view value.now)) }
{
    for (name, entry) in entries.iter() {
        push_missing_of_entry(found, name.as_str(), entry, value)?;
    }
    Ok(())
}

/// The texts of a list that are the names of no member.
pub(crate) fn all_missing<'a>(
    alloc: Global,
    names: &'a [Value],
    value: &Value,
) -> Result<Vec<Wrong<'a>>, AllocError>
    ensures { IfOk result (λ ws. notes_of (view value.now) ws.items ≡ missing (texts_of (items_view names.now)) (view value.now)) }
{
    let mut found = Vec::new(alloc);
    push_missing(&mut found, names, value)?;
    Ok(found)
}

/// All of these.
///
/// # Errors
///
/// Where memory is refused.
pub fn all_missing_beside<'a>(
    alloc: Global,
    entries: &'a Map<String, Value>,
    value: &Value,
) -> Result<Vec<Wrong<'a>>, AllocError>
    ensures { IfOk result (λ ws. notes_of (view value.now) ws.items ≡ missing_beside (entries_of (members_view entries.now.entries)) (view value.now)) }
{
    let mut found = Vec::new(alloc);
    push_missing_beside(&mut found, entries, value)?;
    Ok(found)
}
