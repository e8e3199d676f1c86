//! Lists of names, none of them twice.
ghost use Rattle.std.specs.Prelude.{◌≡◌, List, ℕ, IfOk, IfSome, IfNone, Ok, codes};
ghost use Rattle.serde_json.specs.View.{view, items_view, members_view};
ghost use Rattle.schema_definitions.specs.Rows.{Context, required_entry, required_entries};
ghost use Rattle.assertions.specs.Texts.{are_texts as do_texts_stand, texts_in, entries_of};
ghost use Rattle.assertions.specs.Reads.{IsNameList, EntryMakes, cause_of, IsRefusedFor};

use crate::reading::Reading;
use serde_json::{Map, Value};
use std::alloc::{AllocError, Global};
use value_checks::distinct::all_distinct;

/// What a list is that should hold names.
#[derive(Clone, Copy)]
pub enum NameList {
    /// Texts, none of them twice.
    Unique,
    /// Texts, one of them twice.
    Repeated,
    /// A list with an item that is no text.
    Other,
}

fn are_texts(names: &[Value]) -> bool
    ensures { result ≡ do_texts_stand (items_view names.now) }
{
    for name in names {
        if !name.is_string() {
            return false;
        }
    }
    true
}

/// What a list is.
///
/// # Errors
///
/// Where memory is refused, which it takes to sort references to the names.
pub fn name_list(alloc: Global, names: &[Value]) -> Result<NameList, AllocError>
    ensures { IfOk result (λ n. IsNameList (items_view names.now) n) }
{
    if !are_texts(names) {
        return Ok(NameList::Other);
    }
    if all_distinct(alloc, names)? {
        Ok(NameList::Unique)
    } else {
        Ok(NameList::Repeated)
    }
}

fn refused_list<'s>(name: &'s str, list: NameList) -> Option<Reading<'s>>
    ensures { EntryMakes list name.now result }
{
    let expected = "unique names";
    match list {
        NameList::Unique => None,
        NameList::Repeated => Some(Reading::Entry { name, expected }),
        NameList::Other => Some(Reading::Value { expected }),
    }
}

// What is wrong with an entry of `dependentRequired`.
fn refused_entry<'s>(
    alloc: Global,
    name: &'s str,
    entry: &Value,
) -> Result<Option<Reading<'s>>, AllocError>
    ensures right { IfOk result (λ o. IfNone o ((c : Context) (k : List ℕ) → required_entry c k name.now (view entry.now) ≡ Ok (name.now, texts_in (view entry.now)))) }
    ensures refused { IfOk result (λ o. IfSome o (λ r. (c : Context) (k : List ℕ) → IsRefusedFor (cause_of c k r) (required_entry c k name.now (view entry.now)))) }
{
    match entry.as_array() {
        Some(names) => {
            let list = name_list(alloc, names.as_slice())?;
            Ok(refused_list(name, list))
        }
        None => Ok(Some(Reading::Entry {
            name,
            expected: "list",
        })),
    }
}

/// What is wrong with the first entry that is refused.
pub(crate) fn first_refused<'s>(
    alloc: Global,
    entries: &'s Map<String, Value>,
) -> Result<Option<Reading<'s>>, AllocError>
    ensures right { IfOk result (λ o. IfNone o ((c : Context) (k : List ℕ) → required_entries c k (members_view entries.now.entries) ≡ Ok (entries_of (members_view entries.now.entries)))) }
    ensures refused { IfOk result (λ o. IfSome o (λ r. (c : Context) (k : List ℕ) → IsRefusedFor (cause_of c k r) (required_entries c k (members_view entries.now.entries)))) }
{
    for (name, entry) in entries.iter() {
        if let Some(refused) = refused_entry(alloc, name.as_str(), entry)? {
            return Ok(Some(refused));
        }
    }
    Ok(None)
}
