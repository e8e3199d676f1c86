//! Whether the matches that were read of a value all finished.
ghost use Rattle.std.specs.Prelude.{◌≡◌, IfOk, map, not, string_bytes};
ghost use Rattle.serde_json.specs.View.{view, items_view, members_view};
ghost use Rattle.schema_patterns.specs.Read.{leaves};
ghost use Rattle.schema_patterns.specs.Texts.{texts_in, texts_of_items, texts_of_members};
ghost use Rattle.fault_checks.specs.Finished.{leaves_none, leave_none};

use schema_patterns::matches::Matches;
use serde_json::{Map, Value};
use std::alloc::{AllocError, Global};

// Whether a match finished.
fn is_finished(
    alloc: Global,
    matches: &Matches,
    pattern: &str,
    text: &str,
) -> Result<bool, AllocError>
    ensures { IfOk result (λ b. b ≡ not (leaves matches.now pattern.now text.now)) }
{
    Ok(!matches.is_unfinished(alloc, pattern, text)?)
}

// Whether all matches of a pattern in a value finished.
#[cycle(finished)]
fn is_finished_in(
    alloc: Global,
    matches: &Matches,
    pattern: &str,
    value: &Value,
) -> Result<bool, AllocError>
    ensures { IfOk result (λ b. b ≡ leaves_none matches.now pattern.now (texts_in (view value.now))) }
{
    match value {
        Value::String(text) => is_finished(alloc, matches, pattern, text.as_str()),
        Value::Array(items) => is_finished_in_items(alloc, matches, pattern, items),
        Value::Object(members) => is_finished_in_members(alloc, matches, pattern, members),
        _ => Ok(true),
    }
}

#[cycle(finished)]
fn is_finished_in_items(
    alloc: Global,
    matches: &Matches,
    pattern: &str,
    items: &[Value],
) -> Result<bool, AllocError>
    ensures { IfOk result (λ b. b ≡ leaves_none matches.now pattern.now (texts_of_items (items_view items.now))) }
{
    for item in items {
        if !is_finished_in(alloc, matches, pattern, item)? {
            return Ok(false);
        }
    }
    Ok(true)
}

#[cycle(finished)]
fn is_finished_in_members(
    alloc: Global,
    matches: &Matches,
    pattern: &str,
    members: &Map<String, Value>,
) -> Result<bool, AllocError>
    ensures { IfOk result (λ b. b ≡ leaves_none matches.now pattern.now
        (texts_of_members (members_view members.now.entries))) }
{
    for (name, member) in members.iter() {
        if !is_finished(alloc, matches, pattern, name.as_str())? {
            return Ok(false);
        }
        if !is_finished_in(alloc, matches, pattern, member)? {
            return Ok(false);
        }
    }
    Ok(true)
}

/// Whether all matches of patterns in a value finished.
///
/// It walks the value once for each pattern, until one that stayed unfinished.
pub(crate) fn are_finished(
    alloc: Global,
    matches: &Matches,
    patterns: &[String],
    value: &Value,
) -> Result<bool, AllocError>
    ensures { IfOk result (λ b. b ≡ leave_none matches.now (map string_bytes patterns.now) (texts_in (view value.now))) }
{
    for pattern in patterns {
        if !is_finished_in(alloc, matches, pattern.as_str(), value)? {
            return Ok(false);
        }
    }
    Ok(true)
}
