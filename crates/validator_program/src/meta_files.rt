//! The meta-schemas that the program is given.

ghost use Rattle.std.specs.Prelude.{◌≡◌, [], Some, OnOk, IfOk, map};
ghost use Rattle.serde_json.specs.Data.{array};
ghost use Rattle.serde_json.specs.View.{view, items_view};
ghost use Rattle.document_sources.specs.Seen.{layer_of};
ghost use Rattle.schema_registries.specs.Refused.{text_value};
ghost use Rattle.schema_registries.specs.Seen.{documents_given};
ghost use Rattle.validator_program.specs.Given.{AddsOwn, AreMetaSchemas};

use crate::documents::read_file;
use crate::fault::ProgramFault;
use document_sources::layer::Layer;
use line_runs::{Documents, RunError};
use program_inputs::SchemaFiles;
use schema_drafts::identifiers::identifier;
use serde_json::Value;
use serde_json::error::Category;
use std::alloc::Global;

// The items of a list.
fn items_of<'a>(value: Value, name: &'a str) -> Result<Vec<Value>, ProgramFault<'a>>
    ensures { IfOk result (λ v. view value ≡ array (items_view v.items)) }
{
    match value {
        Value::Array(items) => Ok(items),
        _ => Err(ProgramFault::File { name }),
    }
}

// The items of a JSON list, which the file of that name holds.
fn read_list<'a>(alloc: Global, name: &'a str, bytes: &[u8]) -> Result<Vec<Value>, ProgramFault<'a>>
    ensures { IfOk result (λ v. text_value bytes.now ≡ Some (array (items_view v.items))) }
{
    match Value::from_slice(alloc, bytes) {
        Ok(value) => items_of(value, name),
        Err(error) => match error.classify() {
            Category::Memory => Err(ProgramFault::Run(RunError::Memory)),
            _ => Err(ProgramFault::File { name }),
        },
    }
}

// Adds a meta-schema under its own identifier.
fn add_own<'a>(
    alloc: Global,
    layer: Layer,
    documents: &mut Documents,
    name: &'a str,
    value: Value,
) -> Result<(), ProgramFault<'a>>
    ensures { OnOk result (AddsOwn (layer_of layer) (view value)
        (documents_given documents.old) (documents_given documents.new)) }
{
    let draft = layer.draft.detect(&value);
    let uri = match identifier(layer.siblings, draft, &value) {
        Some(id) => String::from_str(alloc, id)?,
        None => return Err(ProgramFault::File { name }),
    };
    documents.add(uri.as_str(), value)?;
    Ok(())
}

/// The meta-schemas that a file holds: a JSON list, each of whose items is added under its own identifier.
///
/// # Errors
///
/// A file that is not read, is no UTF-8 or no JSON list, or has an item without an identifier; an item that is refused; or want of
/// memory.
pub(crate) fn read_meta_schemas<'a, F: SchemaFiles>(
    alloc: Global,
    files: &F,
    layer: Layer,
    name: &'a str,
) -> Result<Documents, ProgramFault<'a>>
    ensures { IfOk result (λ d. AreMetaSchemas (F.held files.now) (layer_of layer)
        name.entry.now (documents_given d)) }
{
    let bytes = read_file(alloc, files, name)?;
    let items = read_list(alloc, name, bytes.as_slice())?;
    let mut documents = Documents::new(alloc);
    for value in items {
        add_own(alloc, layer, &mut documents, name, value)?;
    }
    Ok(documents)
}
