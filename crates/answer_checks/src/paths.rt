//! The paths of faults that a line lists.
ghost use Rattle.std.specs.Prelude.{◌≡◌, IfOk, map, option_map};
ghost use Rattle.serde_json.specs.View.{view, items_view};
ghost use Rattle.schema_registries.specs.Refused.{text_value};
ghost use Rattle.answer_checks.specs.Paths.{path_among, path_bytes, path_in, paths_in_data};

use fault_checks::checking::FaultPath;
use serde_json::Value;
use serde_json::error::Category;
use std::alloc::{AllocError, Global};

/// The JSON value of a line: none where the bytes are no UTF-8 or no JSON text.
///
/// # Errors
///
/// Where memory was refused.
pub(crate) fn listed_value(alloc: Global, line: &[u8]) -> Result<Option<Value>, AllocError>
    ensures { IfOk result (λ o. option_map (λ v. view v) o ≡ text_value line.now) }
{
    match Value::from_slice(alloc, line) {
        Ok(value) => Ok(Some(value)),
        Err(error) => match error.classify() {
            Category::Memory => Err(AllocError),
            _ => Ok(None),
        },
    }
}

// The two paths of two texts.
#[tactic(auto, using(crate::proofs::Reading::path_few, crate::proofs::Reading::path_many))]
fn path_among(items: &[Value]) -> Option<FaultPath<'_>>
    ensures { option_map path_bytes result ≡ path_among (items_view items.now) }
{
    match items {
        [instance, evaluation] => Some(FaultPath {
            instance_path: instance.as_str()?,
            evaluation_path: evaluation.as_str()?,
        }),
        _ => None,
    }
}

// The two paths of a list of two texts.
fn path_of(item: &Value) -> Option<FaultPath<'_>>
    ensures { option_map path_bytes result ≡ path_in (view item.now) }
{
    path_among(item.as_array()?.as_slice())
}

/// The paths of faults that a value lists: none where it is no list of pairs of texts.
///
/// # Errors
///
/// Where memory was refused.
pub(crate) fn paths_of(
    alloc: Global,
    value: &Value,
) -> Result<Option<Vec<FaultPath<'_>>>, AllocError>
    ensures { IfOk result (λ o. option_map (λ v. map path_bytes v.items) o ≡ paths_in_data (view value.now)) }
{
    let Some(items) = value.as_array() else {
        return Ok(None);
    };
    let mut paths = Vec::new(alloc);
    for item in items.as_slice() {
        match path_of(item) {
            Some(path) => paths.push(path)?,
            None => return Ok(None),
        }
    }
    Ok(Some(paths))
}
