//! Texts of documents that name nothing: what is no URI reference, and a `$schema` whose meta-schema waits for itself.

ghost use Rattle.std.specs.Prelude.{◌≡◌, ◌⊎◌, ◌∷◌, [], map, codes, option_map, None, Some, IfOk, IfSome, OnOk};
ghost use Rattle.std.specs.List.{All, AllZip};
ghost use Rattle.schema_definitions.specs.Words.{or, text_at};
ghost use Rattle.schema_definitions.specs.Bearers.{Documents};
ghost use Rattle.schema_definitions.specs.DocumentCauses.{DocumentCause};
ghost use Rattle.document_sources.specs.Causes.{IsMemory, NamesDocument};
ghost use Rattle.document_sources.specs.Seen.{given_of, layer_of};
ghost use Rattle.document_index.specs.Awaited.{AwaitedIn, cause_of};
ghost use Rattle.document_index.specs.Checked.{unknown_by};
ghost use Rattle.document_index.specs.Seen.{document_of, standing_of};
ghost use Rattle.schema_validators.specs.Misnamed as spec;

use crate::absent::in_layer;
use document_index::awaited::{Unsettled, awaited_cause};
use document_index::document::Document;
use document_index::standing::Standing;
use document_index::told::told_standings;
use document_retrieval::layers::layer_above;
use document_sources::document::Document as GivenDocument;
use document_sources::error::Error;
use document_sources::layer::Layer;
use document_sources::named::{circular_metaschema, invalid_uri};
use reached_sites::cause::BuildCause;
use reached_sites::place::SchemaPlace;
use schema_dialects::identifiers::{identifier_text, schema_in_force, text_at};
use std::alloc::{AllocError, Global};
use uri_grammar::components::split_fragment;
use uri_grammar::grammar::is_uri_reference;
use uri_references::uri::Uri;

// The cause of a member's text.
fn cause_at(
    alloc: Global,
    standing: &Standing<'_>,
    member: &str,
    text: &str,
    error: Error,
) -> Result<BuildCause, AllocError>
    ensures { IfOk result (λ b. (cause : DocumentCause) → IsMemory error ⊎ NamesDocument cause error
        → spec.NamesMisnamed (spec.misnamed (standing_of standing.now) member.now text.now cause) b) }
{
    if let Error::Memory = error {
        return Err(AllocError);
    }
    Ok(BuildCause::Reference {
        place: SchemaPlace {
            document: standing.name.clone()?,
            path: standing.place.path.push_name(alloc, member)?,
        },
        reference: String::from_str(alloc, text)?,
        error,
    })
}

fn push_cause(
    alloc: Global,
    causes: &mut Vec<BuildCause>,
    standing: &Standing<'_>,
    member: &str,
    text: &str,
    error: Error,
) -> Result<(), AllocError>
    ensures { OnOk result ((cause : DocumentCause) → IsMemory error ⊎ NamesDocument cause error
        → spec.Adds (spec.misnamed (standing_of standing.now) member.now text.now cause ∷ [])
        causes.old.items causes.new.items) }
{
    causes.push(cause_at(alloc, standing, member, text, error)?)?;
    Ok(())
}

// A cause is pushed where a part of a member's text is no URI reference.
fn push_text(
    alloc: Global,
    causes: &mut Vec<BuildCause>,
    standing: &Standing<'_>,
    member: &str,
    text: &str,
    part: &str,
) -> Result<(), AllocError>
    ensures { OnOk result (spec.Adds
        (spec.unless_text (standing_of standing.now) member.now text.now part.now)
        causes.old.items causes.new.items) }
{
    if is_uri_reference(part) {
        Ok(())
    } else {
        let error = invalid_uri(alloc, part);
        push_cause(alloc, causes, standing, member, text, error)
    }
}

// One is pushed where the text of a member is no URI reference.
fn push_whole(
    alloc: Global,
    causes: &mut Vec<BuildCause>,
    standing: &Standing<'_>,
    member: &str,
    text: Option<&str>,
) -> Result<(), AllocError>
    ensures { OnOk result (spec.Adds
        (spec.of_whole (standing_of standing.now) member.now (option_map (λ t. t.now) text.entry))
        causes.old.items causes.new.items) }
{
    match text {
        Some(text) => push_text(alloc, causes, standing, member, text, text),
        None => Ok(()),
    }
}

// One is pushed where the part of a `$ref` before its `#` is no URI reference.
fn push_reference(
    alloc: Global,
    causes: &mut Vec<BuildCause>,
    standing: &Standing<'_>,
) -> Result<(), AllocError>
    ensures { OnOk result (spec.Adds (spec.of_reference (standing_of standing.now)
        (text_at (codes "$ref") (standing_of standing.now).place.contents))
        causes.old.items causes.new.items) }
{
    match text_at(standing.place.contents, "$ref") {
        Some(text) => {
            let part = split_fragment(text).0;
            push_text(alloc, causes, standing, "$ref", text, part)
        }
        None => Ok(()),
    }
}

fn push_settled(
    alloc: Global,
    causes: &mut Vec<BuildCause>,
    standing: &Standing<'_>,
) -> Result<(), AllocError>
    ensures { OnOk result (spec.Adds (spec.settled (standing_of standing.now))
        causes.old.items causes.new.items) }
{
    let place = &standing.place;
    let text = identifier_text(place.dialect, place.contents);
    push_whole(
        alloc,
        causes,
        standing,
        place.dialect.draft.id_keyword(),
        text,
    )?;
    push_reference(alloc, causes, standing)
}

// The text of a place's `$schema`.
fn schema_text<'d>(standing: &Standing<'d>) -> &'d str
    ensures { result.now ≡ or [] (text_at (codes "$schema") (standing_of standing.now).place.contents) }
{
    match text_at(standing.place.contents, "$schema") {
        Some(text) => text,
        None => "",
    }
}

// One is pushed where what is known of the meta-schema that a place awaits is that it waits for itself.
fn push_circular(
    alloc: Global,
    causes: &mut Vec<BuildCause>,
    standing: &Standing<'_>,
    why: &Unsettled,
) -> Result<(), AllocError>
    ensures { OnOk result (spec.Adds (spec.awaiting (standing_of standing.now) (cause_of why.now))
        causes.old.items causes.new.items) }
{
    match why {
        Unsettled::Circular(uri) => {
            let text = schema_text(standing);
            let error = circular_metaschema(alloc, uri.as_str());
            push_cause(alloc, causes, standing, "$schema", text, error)
        }
        Unsettled::Unknown(_) => Ok(()),
    }
}

/// Why the meta-schema of a URI is not known.
#[derive(Drop)]
pub(crate) struct Asked {
    pub(crate) uri: Uri,
    pub(crate) why: Unsettled,
}

// Why that of a URI is not known, if it was asked.
fn why_of<'a>(asked: &'a [Asked], uri: &Uri) -> Option<&'a Unsettled>
    ensures { IfSome result (λ why. (docs : Documents) → All (spec.IsAskedIn docs) asked.now
        → cause_of why.now ≡ unknown_by docs uri.now) }
{
    for one in asked {
        if one.uri.as_str() == uri.as_str() {
            return Some(&one.why);
        }
    }
    None
}

// Asks for the meta-schema that a place awaits, where it was not asked for.
fn push_asked(
    alloc: Global,
    standings: &[Standing<'_>],
    asked: &mut Vec<Asked>,
    standing: &Standing<'_>,
) -> Result<(), AllocError>
    ensures { OnOk result ((docs : Documents) → AwaitedIn docs (map standing_of standings.now)
        → All (spec.IsAskedIn docs) asked.old.items → All (spec.IsAskedIn docs) asked.new.items) }
{
    let Some(uri) = &standing.place.awaits else {
        return Ok(());
    };
    if why_of(asked.as_slice(), uri).is_some() {
        return Ok(());
    }
    let why = awaited_cause(alloc, standings, uri.clone()?)?;
    asked.push(Asked {
        uri: uri.clone()?,
        why,
    })?;
    Ok(())
}

// Why meta-schemas are not known that places await, each once.
fn asked_of(alloc: Global, standings: &[Standing<'_>]) -> Result<Vec<Asked>, AllocError>
    ensures { IfOk result (λ v. (docs : Documents) → AwaitedIn docs (map standing_of standings.now)
        → All (spec.IsAskedIn docs) v.items) }
{
    let mut asked = Vec::new(alloc);
    for standing in standings {
        push_asked(alloc, standings, &mut asked, standing)?;
    }
    Ok(asked)
}

// One is pushed where the meta-schema that a place awaits waits for itself, or for one that does.
fn push_anew(
    alloc: Global,
    standings: &[Standing<'_>],
    causes: &mut Vec<BuildCause>,
    standing: &Standing<'_>,
    uri: &Uri,
) -> Result<(), AllocError>
    ensures { OnOk result ((docs : Documents) → AwaitedIn docs (map standing_of standings.now)
        → spec.Adds (spec.awaiting (standing_of standing.now) (unknown_by docs uri.now))
        causes.old.items causes.new.items) }
{
    let why = awaited_cause(alloc, standings, uri.clone()?)?;
    push_circular(alloc, causes, standing, &why)
}

// The same, by what was asked.
fn push_awaiting(
    alloc: Global,
    standings: &[Standing<'_>],
    asked: &[Asked],
    causes: &mut Vec<BuildCause>,
    standing: &Standing<'_>,
    uri: &Uri,
) -> Result<(), AllocError>
    ensures { OnOk result ((docs : Documents) → AwaitedIn docs (map standing_of standings.now)
        → All (spec.IsAskedIn docs) asked.now
        → spec.Adds (spec.awaiting (standing_of standing.now) (unknown_by docs uri.now))
        causes.old.items causes.new.items) }
{
    match why_of(asked, uri) {
        Some(why) => push_circular(alloc, causes, standing, why),
        None => push_anew(alloc, standings, causes, standing, uri),
    }
}

fn push_behind(
    alloc: Global,
    standings: &[Standing<'_>],
    asked: &[Asked],
    causes: &mut Vec<BuildCause>,
    standing: &Standing<'_>,
) -> Result<(), AllocError>
    ensures { OnOk result ((docs : Documents) → AwaitedIn docs (map standing_of standings.now)
        → All (spec.IsAskedIn docs) asked.now
        → spec.Adds (spec.behind_schema (unknown_by docs) (standing_of standing.now)
        (standing_of standing.now).place.awaits) causes.old.items causes.new.items) }
{
    match &standing.place.awaits {
        Some(uri) => push_awaiting(alloc, standings, asked, causes, standing, uri),
        None => push_settled(alloc, causes, standing),
    }
}

// Those of a place are pushed.
fn push_misnamed(
    alloc: Global,
    standings: &[Standing<'_>],
    asked: &[Asked],
    causes: &mut Vec<BuildCause>,
    standing: &Standing<'_>,
) -> Result<(), AllocError>
    ensures { OnOk result ((docs : Documents) → AwaitedIn docs (map standing_of standings.now)
        → All (spec.IsAskedIn docs) asked.now
        → spec.Adds (spec.misnamed_at (unknown_by docs) (standing_of standing.now))
        causes.old.items causes.new.items) }
{
    let place = &standing.place;
    let siblings = place.dialect.siblings;
    let text = schema_in_force(siblings, place.path.is_root(), place.contents);
    push_whole(alloc, causes, standing, "$schema", text)?;
    push_behind(alloc, standings, asked, causes, standing)
}

// Those of all places of documents, in the order in which they are met.
fn misnamed_from(alloc: Global, documents: &[Document<'_>]) -> Result<Vec<BuildCause>, AllocError>
    ensures { IfOk result (λ v. AllZip spec.NamesMisnamed
        (spec.misnamed_in (map document_of documents.now)) v.items) }
{
    let places = told_standings(alloc, documents)?;
    let asked = asked_of(alloc, places.as_slice())?;
    let mut causes = Vec::new(alloc);
    for standing in &places {
        push_misnamed(
            alloc,
            places.as_slice(),
            asked.as_slice(),
            &mut causes,
            standing,
        )?;
    }
    Ok(causes)
}

/// The texts of the documents of a layer that name nothing.
///
/// # Errors
///
/// Where memory was refused, or a count of owners is full.
pub(crate) fn misnamed_alone(
    alloc: Global,
    layer: Layer,
    given: &[GivenDocument<'static>],
) -> Result<Vec<BuildCause>, AllocError>
    ensures { IfOk result (λ v. AllZip spec.NamesMisnamed
        (spec.misnamed_given None (layer_of layer) (map given_of given.now)) v.items) }
{
    let documents = in_layer(alloc, given, layer)?;
    misnamed_from(alloc, documents.as_slice())
}

/// Those of the meta-schemas by themselves; where these have none, those of them and of documents in a layer behind them.
///
/// # Errors
///
/// Where memory was refused, a count of owners is full, or a `usize` counts no further layer.
pub(crate) fn misnamed_beside(
    alloc: Global,
    layer: Layer,
    meta_schemas: &[GivenDocument<'static>],
    given: &[GivenDocument<'static>],
) -> Result<Vec<BuildCause>, AllocError>
    ensures { IfOk result (λ v. AllZip spec.NamesMisnamed (spec.misnamed_given
        (Some (map given_of meta_schemas.now)) (layer_of layer) (map given_of given.now)) v.items) }
{
    let mut documents = in_layer(alloc, meta_schemas, layer)?;
    let causes = misnamed_from(alloc, documents.as_slice())?;
    if !causes.is_empty() {
        return Ok(causes);
    }
    let number = layer_above(documents.as_slice())?;
    let mut own = in_layer(alloc, given, Layer { number, ..layer })?;
    documents.append(&mut own)?;
    misnamed_from(alloc, documents.as_slice())
}
