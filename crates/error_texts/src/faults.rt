//! The text of a value's faults.
ghost use Rattle.std.specs.Prelude.{◌≡◌, ◌++◌, ◌∷◌, [], map, reverse, string_bytes, IfOk, OnOk, OnErr};
ghost use Rattle.json_values.specs.Pointers.{pointer_text};
ghost use Rattle.serde_json.specs.Data.{array};
ghost use Rattle.serde_json.specs.Written.{compact_text};
ghost use Rattle.json_pointers.specs.Buffers.{Grows};
ghost use Rattle.schema_meaning.specs.Faults.{Faults};
ghost use Rattle.schema_definitions.specs.Lines.{paths_of, in_order, pairs_data, faults_text};
ghost use Rattle.schema_reports.specs.Left.{errors_left};
ghost use Rattle.schema_reports.specs.Pairs.{pair_bytes, paths_in};
ghost use Rattle.schema_reports.specs.Told.{fault_of, faults_of};
ghost use Rattle.error_texts.specs.Pairs.{pair_data};

use crate::quoted::write_quoted;
use schema_reports::{ErrorIterator, ValidationError};
use schema_steps::Path;
use std::alloc::{AllocError, Global};

/// Appends where errors stand: a JSON list, with no space, of a pair for each error, of its path in the instance and its evaluation path as
/// pointers' texts. The pairs are in the order of their bytes, by the first text and then by the second.
///
/// It sorts the pairs, and is linear in what it appends. The error comes where memory was refused; the text is then as it was.
pub fn write_faults(
    alloc: Global,
    errors: ErrorIterator<'_>,
    text: &mut String,
) -> Result<(), AllocError>
    ensures ok { OnOk result (string_bytes text.new ≡ string_bytes text.old
        ++ faults_text (faults_of (errors_left errors.entry))) }
    ensures unchanged { OnErr result (string_bytes text.new ≡ string_bytes text.old) }
{
    let pairs = path_pairs(alloc, errors)?;
    write_paths(alloc, pairs, text)
}

/// Appends the same list, for faults of which these are the pairs.
///
/// It costs and fails as [`write_faults`].
pub fn write_paths(
    alloc: Global,
    pairs: Vec<(String, String)>,
    text: &mut String,
) -> Result<(), AllocError>
    ensures ok { OnOk result ((fs : Faults) → map pair_bytes pairs.items ≡ paths_of fs
        → string_bytes text.new ≡ string_bytes text.old ++ faults_text fs) }
    ensures unchanged { OnErr result (string_bytes text.new ≡ string_bytes text.old) }
{
    let pairs = sorted(pairs)?;
    let start = text.len();
    if let Err(error) = write_pairs(alloc, pairs.as_slice(), text) {
        text.truncate(start);
        return Err(error);
    }
    Ok(())
}

fn sorted(mut pairs: Vec<(String, String)>) -> Result<Vec<(String, String)>, AllocError>
    ensures { IfOk result (λ v. map pair_bytes v.items ≡ in_order (map pair_bytes pairs.items)) }
{
    pairs.sort()?;
    Ok(pairs)
}

// A path as a pointer's text. Most are no longer than the room that is taken at first.
fn pointer_of(alloc: Global, path: &Path) -> Result<String, AllocError>
    ensures { IfOk result (λ text. string_bytes text ≡ pointer_text (reverse path.now)) }
{
    let mut text = String::with_capacity(alloc, 64)?;
    path.write_to(&mut text)?;
    Ok(text)
}

// Appends the pair of an error.
fn push_pair_of(
    alloc: Global,
    error: &ValidationError<'_>,
    pairs: &mut Vec<(String, String)>,
) -> Result<(), AllocError>
    ensures { OnOk result (map pair_bytes pairs.new.items
        ≡ map pair_bytes pairs.old.items ++ paths_in (fault_of error.now) ∷ []) }
{
    let instance = pointer_of(alloc, error.instance_path())?;
    let evaluation = pointer_of(alloc, error.evaluation_path())?;
    pairs.push((instance, evaluation))?;
    Ok(())
}

// The same, and lets the error go.
fn push_pair(
    alloc: Global,
    error: ValidationError<'_>,
    pairs: &mut Vec<(String, String)>,
) -> Result<(), AllocError>
    ensures { OnOk result (map pair_bytes pairs.new.items
        ≡ map pair_bytes pairs.old.items ++ paths_in (fault_of error.entry) ∷ []) }
{
    push_pair_of(alloc, &error, pairs)
}

fn path_pairs(alloc: Global, errors: ErrorIterator<'_>) -> Result<Vec<(String, String)>, AllocError>
    ensures { IfOk result (λ v. map pair_bytes v.items ≡ paths_of (faults_of (errors_left errors.entry))) }
{
    let mut pairs = Vec::new(alloc);
    for error in errors {
        push_pair(alloc, error, &mut pairs)?;
    }
    Ok(pairs)
}

// Appends the list of the pairs.
fn write_pairs(
    alloc: Global,
    pairs: &[(String, String)],
    text: &mut String,
) -> Result<(), AllocError>
    ensures ok { OnOk result (string_bytes text.new
        ≡ string_bytes text.old ++ compact_text (array (pairs_data (map pair_bytes pairs.now)))) }
    ensures grows { Grows text.old text.new }
{
    let Some((first, rest)) = pairs.split_first() else {
        return text.push_str("[]");
    };
    text.push_str("[")?;
    write_pair(alloc, first, text)?;
    for pair in rest {
        text.push_str(",")?;
        write_pair(alloc, pair, text)?;
    }
    text.push_str("]")
}

fn write_pair(alloc: Global, pair: &(String, String), text: &mut String) -> Result<(), AllocError>
    ensures ok { OnOk result (string_bytes text.new
        ≡ string_bytes text.old ++ compact_text (pair_data (pair_bytes pair.now))) }
    ensures grows { Grows text.old text.new }
{
    text.push_str("[")?;
    write_quoted(alloc, pair.0.as_str(), text)?;
    text.push_str(",")?;
    write_quoted(alloc, pair.1.as_str(), text)?;
    text.push_str("]")
}
