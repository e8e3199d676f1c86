//! All the schema places of a document.

ghost use Rattle.std.specs.Prelude.{◌≡◌, ◌++◌, ◌∷◌, ◌<◌, length, map, slice_index_or, IfOk, OnOk};
ghost use Rattle.serde_json.specs.View.{view};
ghost use Rattle.json_values.specs.Parts as parts;
ghost use Rattle.schema_drafts.specs.Subschemas as tables;
ghost use Rattle.schema_definitions.specs.Places as spec;
ghost use Rattle.schema_places.specs.Seen.{place_of};
ghost use Rattle.schema_dialects.specs.Dialects.{dialect_of, dialects_in};

use crate::place::{Place, enter, is_schema, root};
use schema_dialects::{Dialect, MetaSchemas};
use schema_drafts::subschemas::{Subschemas, held_by};
use schema_steps::Path;
use serde_json::Value;
use std::alloc::{AllocError, Global};
use std::rc::Rc;
use uri_references::uri::Uri;

fn push_schema<'d>(
    alloc: Global,
    known: &MetaSchemas,
    found: &mut Vec<Place<'d>>,
    outer: &Place<'d>,
    path: Path,
    part: &'d Value,
) -> Result<(), AllocError>
    ensures { OnOk result (map place_of found.new.items ≡ map place_of found.old.items ++ spec.if_schema (dialects_in known.now) (place_of outer.now) path (view part.now)) }
{
    if is_schema(part) {
        found.push(enter(alloc, known, &outer.base, outer.dialect, path, part)?)?;
    }
    Ok(())
}

fn push_list<'d>(
    alloc: Global,
    known: &MetaSchemas,
    found: &mut Vec<Place<'d>>,
    outer: &Place<'d>,
    path: &Path,
    part: &'d Value,
) -> Result<(), AllocError>
    ensures { OnOk result (map place_of found.new.items ≡ map place_of found.old.items ++ spec.in_list (dialects_in known.now) (place_of outer.now) path.now (view part.now)) }
{
    if let Value::Array(items) = part {
        found.reserve(items.len())?;
        for (position, item) in items.iter().enumerate() {
            push_schema(
                alloc,
                known,
                found,
                outer,
                path.push_item(alloc, position)?,
                item,
            )?;
        }
    }
    Ok(())
}

fn push_map<'d>(
    alloc: Global,
    known: &MetaSchemas,
    found: &mut Vec<Place<'d>>,
    outer: &Place<'d>,
    path: &Path,
    part: &'d Value,
) -> Result<(), AllocError>
    ensures { OnOk result (map place_of found.new.items ≡ map place_of found.old.items ++ spec.in_map (dialects_in known.now) (place_of outer.now) path.now (view part.now)) }
{
    if let Value::Object(members) = part {
        found.reserve(members.len())?;
        for (name, member) in members.iter() {
            push_schema(
                alloc,
                known,
                found,
                outer,
                path.push_name(alloc, name.as_str())?,
                member,
            )?;
        }
    }
    Ok(())
}

// The schema that a member is, or those in the list that it is.
fn push_either<'d>(
    alloc: Global,
    known: &MetaSchemas,
    found: &mut Vec<Place<'d>>,
    outer: &Place<'d>,
    path: Path,
    part: &'d Value,
) -> Result<(), AllocError>
    ensures { OnOk result (map place_of found.new.items ≡ map place_of found.old.items ++ spec.held (dialects_in known.now) (place_of outer.now) path tables.one_or_several (view part.now)) }
{
    match part {
        Value::Array(_) => push_list(alloc, known, found, outer, &path, part),
        _ => push_schema(alloc, known, found, outer, path, part),
    }
}

fn push_held<'d>(
    alloc: Global,
    known: &MetaSchemas,
    found: &mut Vec<Place<'d>>,
    outer: &Place<'d>,
    path: Path,
    holds: Subschemas,
    part: &'d Value,
) -> Result<(), AllocError>
    ensures { OnOk result (map place_of found.new.items ≡ map place_of found.old.items ++ spec.held (dialects_in known.now) (place_of outer.now) path (tables.holds_of holds) (view part.now)) }
{
    match holds {
        Subschemas::None => Ok(()),
        Subschemas::One => push_schema(alloc, known, found, outer, path, part),
        Subschemas::Several => push_list(alloc, known, found, outer, &path, part),
        Subschemas::OneOrSeveral => push_either(alloc, known, found, outer, path, part),
        Subschemas::ByName => push_map(alloc, known, found, outer, &path, part),
    }
}

fn push_member<'d>(
    alloc: Global,
    known: &MetaSchemas,
    found: &mut Vec<Place<'d>>,
    outer: &Place<'d>,
    hidden: bool,
    name: &str,
    part: &'d Value,
) -> Result<(), AllocError>
    ensures { OnOk result (map place_of found.new.items ≡ map place_of found.old.items ++ spec.held (dialects_in known.now) (place_of outer.now) (parts.name name.now ∷ (place_of outer.now).path) (tables.held_by outer.now.dialect.draft hidden name.now) (view part.now)) }
{
    let holds = held_by(outer.dialect.draft, hidden, name);
    if holds == Subschemas::None {
        return Ok(());
    }
    let path = outer.path.push_name(alloc, name)?;
    push_held(alloc, known, found, outer, path, holds, part)
}

fn push_children<'d>(
    alloc: Global,
    known: &MetaSchemas,
    found: &mut Vec<Place<'d>>,
    outer: &Place<'d>,
) -> Result<(), AllocError>
    ensures { OnOk result (map place_of found.new.items ≡ map place_of found.old.items ++ spec.children (dialects_in known.now) (place_of outer.now)) }
{
    if outer.awaits.is_some() {
        return Ok(());
    }
    if let Value::Object(members) = outer.contents {
        let hidden = outer.is_hidden();
        for (name, part) in members.iter() {
            push_member(alloc, known, found, outer, hidden, name.as_str(), part)?;
        }
    }
    Ok(())
}

// Puts the places below the one at that position behind all.
fn push_below<'d>(
    alloc: Global,
    known: &MetaSchemas,
    found: &mut Vec<Place<'d>>,
    position: usize,
) -> Result<(), AllocError>
    requires { position < length found.old.items }
    ensures { OnOk result ((p : spec.SchemaPlace) → map place_of found.new.items ≡ map place_of found.old.items ++ spec.children (dialects_in known.now) (slice_index_or (map place_of found.old.items) position p)) }
{
    let place = found[position].clone()?;
    push_children(alloc, known, found, &place)
}

/// The schema places of a document, by levels from its root: the root, the places in its members in their order, then the places in
/// those. `default` is the dialect where the root names none. A schema that names a meta-schema takes the dialect that this gives, and
/// awaits it where it is not known.
///
/// It looks once at each member of a schema and at each schema that one holds, and copies the text of a base only where an identifier
/// stands. The paths share their fronts, and the places their bases.
///
/// # Errors
///
/// Where memory was refused, or a count of owners is full.
pub fn places<'d>(
    alloc: Global,
    known: &MetaSchemas,
    uri: &Rc<Uri>,
    default: Dialect,
    contents: &'d Value,
) -> Result<Vec<Place<'d>>, AllocError>
    ensures { IfOk result (λ v. map place_of v.items ≡ spec.places (dialects_in known.now) uri.now.value (dialect_of default) (view contents.now)) }
{
    let mut found = Vec::new(alloc);
    found.push(root(alloc, known, uri, default, contents)?)?;
    let mut next: usize = 0;
    while next < found.len() {
        push_below(alloc, known, &mut found, next)?;
        next += 1;
    }
    Ok(found)
}
