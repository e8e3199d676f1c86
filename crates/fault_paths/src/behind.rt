//! What is left of a path behind its first parts.
ghost use Rattle.std.specs.Prelude.{◌≡◌, IfOk, true, [], ◌∷◌};
ghost use Rattle.json_values.specs.Parts.{name as name_part, index as index_part};
ghost use Rattle.json_values.specs.Pointers.{escape};
ghost use Rattle.schema_meaning.specs.Places.{path_after};
ghost use Rattle.fault_paths.specs.Texts.{text_left};
ghost use Rattle.applicators.specs.Questions.{step_of};
ghost use Rattle.fault_paths.specs.Behind.{LeavesBehind, entry_parts};

use crate::parts::first_part;
use applicators::question::Asked;
use applicators::subschema::Entry;
use json_pointers::{parse_index, write_escaped_str};
use std::alloc::{AllocError, Global};

// Whether a name is written so as a part of a path.
fn is_written(alloc: Global, name: &str, token: &str) -> Result<bool, AllocError>
    ensures yes { IfOk result (λ b. b ≡ true → token.now ≡ escape name.now) }
    ensures no { IfOk result (λ b. token.now ≡ escape name.now → b ≡ true) }
{
    let mut written = String::with_capacity(alloc, token.len())?;
    write_escaped_str(&mut written, name)?;
    Ok(written.as_str() == token)
}

fn behind_name<'p>(
    alloc: Global,
    left: Option<&'p str>,
    name: &str,
) -> Result<Option<Option<&'p str>>, AllocError>
    ensures { IfOk result (LeavesBehind (name_part name.now ∷ []) (text_left left.entry)) }
{
    let Some(text) = left else {
        return Ok(None);
    };
    let (token, behind) = first_part(text);
    if is_written(alloc, name, token)? {
        Ok(Some(behind))
    } else {
        Ok(None)
    }
}

fn behind_index(left: Option<&str>, index: usize) -> Option<Option<&str>>
    ensures { LeavesBehind (index_part index ∷ []) (text_left left.entry) result }
{
    let Some(text) = left else {
        return None;
    };
    let (token, behind) = first_part(text);
    let Some(written) = parse_index(token) else {
        return None;
    };
    if written == index { Some(behind) } else { None }
}

/// What is left of the instance's path behind the step to what is asked of, where the path begins by it.
///
/// # Errors
///
/// Where memory was refused.
pub fn behind_step<'p>(
    alloc: Global,
    left: Option<&'p str>,
    asked: Asked<'_>,
) -> Result<Option<Option<&'p str>>, AllocError>
    ensures { IfOk result (LeavesBehind (path_after [] (step_of asked.entry)) (text_left left.entry)) }
{
    match asked {
        Asked::Value => Ok(Some(left)),
        Asked::Item { index, .. } => Ok(behind_index(left, index)),
        Asked::Member { name, .. } => behind_name(alloc, left, name),
        Asked::Name(_) => Ok(Some(left)),
    }
}

/// What is left of the evaluation's path behind the parts from the keyword to a subschema, where the path begins by them.
///
/// # Errors
///
/// Where memory was refused.
pub fn behind_entry<'p>(
    alloc: Global,
    left: Option<&'p str>,
    entry: Entry<'_>,
) -> Result<Option<Option<&'p str>>, AllocError>
    ensures { IfOk result (LeavesBehind (entry_parts entry.entry) (text_left left.entry)) }
{
    match entry {
        Entry::Whole => Ok(Some(left)),
        Entry::Name(name) => behind_name(alloc, left, name),
        Entry::Index(index) => Ok(behind_index(left, index)),
    }
}
