//! The texts of a value.

ghost use Rattle.std.specs.Prelude.{◌≡◌, ◌++◌, ℕ, List, OnOk, IfOk, bytes_eq};
ghost use Rattle.std.specs.List.{list_any};
ghost use Rattle.serde_json.specs.View.{view, items_view, members_view};
ghost use Rattle.schema_patterns.specs.Texts.{texts_in, texts_of_items, texts_of_members, bytes_of};

use indexmap::IndexSet;
use serde_json::{Map, Value};
use std::alloc::{AllocError, Global};

#[cycle(texts)]
fn push_texts<'i>(texts: &mut Vec<&'i str>, value: &'i Value) -> Result<(), AllocError>
    ensures { OnOk result (bytes_of texts.new.items ≡ bytes_of texts.old.items ++ texts_in (view value.now)) }
{
    match value {
        Value::String(text) => {
            texts.push(text.as_str())?;
            Ok(())
        }
        Value::Array(items) => push_texts_of_items(texts, items),
        Value::Object(members) => push_texts_of_members(texts, members),
        _ => Ok(()),
    }
}

#[cycle(texts)]
fn push_texts_of_items<'i>(texts: &mut Vec<&'i str>, items: &'i [Value]) -> Result<(), AllocError>
    ensures { OnOk result (bytes_of texts.new.items ≡ bytes_of texts.old.items ++ texts_of_items (items_view items.now)) }
{
    for item in items {
        push_texts(texts, item)?;
    }
    Ok(())
}

#[cycle(texts)]
fn push_texts_of_members<'i>(
    texts: &mut Vec<&'i str>,
    members: &'i Map<String, Value>,
) -> Result<(), AllocError>
    ensures { OnOk result (bytes_of texts.new.items ≡ bytes_of texts.old.items ++ texts_of_members (members_view members.now.entries)) }
{
    for (name, member) in members.iter() {
        texts.push(name.as_str())?;
        push_texts(texts, member)?;
    }
    Ok(())
}

fn distinct<'i>(alloc: Global, texts: &[&'i str]) -> Result<IndexSet<&'i str>, AllocError>
    ensures { IfOk result (λ s. (t : List ℕ) → list_any (λ k. bytes_eq t k.now) s.keys ≡ list_any (λ k. bytes_eq t k.now) texts.now) }
{
    let mut seen = IndexSet::new(alloc);
    for text in texts {
        seen.insert(*text)?;
    }
    Ok(seen)
}

/// The texts of a value and the names of its members, each once.
///
/// It walks the value once, with a stack frame for each level.
///
/// # Errors
///
/// Where memory was refused.
pub fn texts_of(alloc: Global, value: &Value) -> Result<IndexSet<&str>, AllocError>
    ensures { IfOk result (λ s. (t : List ℕ) → list_any (λ k. bytes_eq t k.now) s.keys ≡ list_any (bytes_eq t) (texts_in (view value.now))) }
{
    let mut texts = Vec::new(alloc);
    push_texts(&mut texts, value)?;
    distinct(alloc, texts.as_slice())
}
