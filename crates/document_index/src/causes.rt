//! The causes of schema places.

ghost use Rattle.std.specs.Prelude.{◌≡◌, List, [], map, option_map, OnOk, IfErr, codes};
ghost use Rattle.std.specs.List.{flat_map};
ghost use Rattle.schema_definitions.specs.Bearers.{Documents};
ghost use Rattle.schema_definitions.specs.DocumentCauses.{unless_reference};
ghost use Rattle.document_index.specs.Seen.{standing_of};
ghost use Rattle.document_index.specs.Awaited.{AwaitedIn, cause_of};
ghost use Rattle.document_index.specs.Checked as spec;
ghost use Rattle.document_index.specs.Checked.{borne_in, unknown_by};
ghost use Rattle.document_index.specs.Named.{NamesOne, NamesCause};

use crate::awaited::{Unsettled, awaited_cause};
use crate::{Index, Standing};
use document_sources::error::Error;
use document_sources::named::{circular_metaschema, invalid_uri, not_borne, unknown_specification};
use schema_dialects::bases::resolved;
use std::alloc::Global;
use uri_grammar::components::split_fragment;
use uri_grammar::grammar::is_uri_reference;
use uri_references::uri::Uri;

fn check_uri_reference(alloc: Global, text: &str) -> Result<(), Error>
    ensures ok { OnOk result (unless_reference text.now ≡ []) }
    ensures refused { IfErr result (NamesOne (unless_reference text.now)) }
{
    if is_uri_reference(text) {
        Ok(())
    } else {
        Err(invalid_uri(alloc, text))
    }
}

fn check_text(alloc: Global, text: Option<&str>) -> Result<(), Error>
    ensures ok { OnOk result (spec.of_text unless_reference (option_map (λ t. t.now) text.entry) ≡ []) }
    ensures refused { IfErr result (NamesOne (spec.of_text unless_reference (option_map (λ t. t.now) text.entry))) }
{
    match text {
        Some(text) => check_uri_reference(alloc, text),
        None => Ok(()),
    }
}

fn check_borne(alloc: Global, index: &Index, uri: &Uri) -> Result<(), Error>
    ensures ok { OnOk result (spec.unless_borne (borne_in index.now) uri.now ≡ []) }
    ensures refused { IfErr result (NamesOne (spec.unless_borne (borne_in index.now) uri.now)) }
{
    if index.bearer(uri.as_str()).is_some() {
        Ok(())
    } else {
        Err(not_borne(alloc, uri.as_str()))
    }
}

fn check_wanted(alloc: Global, index: &Index, base: &Uri, text: &str) -> Result<(), Error>
    ensures ok { OnOk result (spec.wanted_by (borne_in index.now) text.now base.now ≡ []) }
    ensures refused { IfErr result (NamesOne (spec.wanted_by (borne_in index.now) text.now base.now)) }
{
    match resolved(alloc, base, text)? {
        None => Err(invalid_uri(alloc, text)),
        Some(uri) => check_borne(alloc, index, &uri),
    }
}

fn check_reference(
    alloc: Global,
    index: &Index,
    base: &Uri,
    reference: Option<&str>,
) -> Result<(), Error>
    ensures ok { OnOk result (spec.of_text (spec.wanted_at (borne_in index.now) base.now)
        (option_map (λ t. t.now) reference.entry) ≡ []) }
    ensures refused { IfErr result (NamesOne (spec.of_text (spec.wanted_at (borne_in index.now) base.now)
        (option_map (λ t. t.now) reference.entry))) }
{
    match reference {
        Some(reference) => check_wanted(alloc, index, base, split_fragment(reference).0),
        None => Ok(()),
    }
}

fn check_settled(alloc: Global, index: &Index, standing: &Standing<'_>) -> Result<(), Error>
    ensures ok { OnOk result (spec.settled_causes (borne_in index.now) (standing_of standing.now) ≡ []) }
    ensures refused { IfErr result (NamesOne (spec.settled_causes (borne_in index.now) (standing_of standing.now))) }
{
    let place = &standing.place;
    check_text(alloc, place.identifier_text())?;
    check_reference(alloc, index, &place.base, place.reference())
}

fn unsettled(alloc: Global, why: Unsettled) -> Error
    ensures { NamesCause (cause_of why) result }
{
    match why {
        Unsettled::Unknown(uri) => unknown_specification(alloc, uri.as_str()),
        Unsettled::Circular(uri) => circular_metaschema(alloc, uri.as_str()),
    }
}

// Why the meta-schema of a URI is not known that one of these schema places awaits.
fn refuse_awaited(alloc: Global, standings: &[Standing<'_>], uri: &Uri) -> Error
    ensures { (docs : Documents) → AwaitedIn docs (map standing_of standings.now)
        → NamesCause (unknown_by docs uri.now) result }
{
    let Ok(uri) = uri.clone() else {
        return Error::Memory;
    };
    match awaited_cause(alloc, standings, uri) {
        Ok(why) => unsettled(alloc, why),
        Err(_) => Error::Memory,
    }
}

fn check_awaited(
    alloc: Global,
    index: &Index,
    standings: &[Standing<'_>],
    standing: &Standing<'_>,
) -> Result<(), Error>
    ensures ok { OnOk result ((docs : Documents) → AwaitedIn docs (map standing_of standings.now)
        → spec.awaited_causes (borne_in index.now) (unknown_by docs) (standing_of standing.now) ≡ []) }
    ensures refused { IfErr result (λ e. (docs : Documents) → AwaitedIn docs (map standing_of standings.now)
        → NamesOne (spec.awaited_causes (borne_in index.now) (unknown_by docs) (standing_of standing.now)) e) }
{
    match &standing.place.awaits {
        Some(uri) => Err(refuse_awaited(alloc, standings, uri)),
        None => check_settled(alloc, index, standing),
    }
}

fn check_place(
    alloc: Global,
    index: &Index,
    standings: &[Standing<'_>],
    standing: &Standing<'_>,
) -> Result<(), Error>
    ensures ok { OnOk result ((docs : Documents) → AwaitedIn docs (map standing_of standings.now)
        → spec.causes_at (borne_in index.now) (unknown_by docs) (standing_of standing.now) ≡ []) }
    ensures refused { IfErr result (λ e. (docs : Documents) → AwaitedIn docs (map standing_of standings.now)
        → NamesOne (spec.causes_at (borne_in index.now) (unknown_by docs) (standing_of standing.now)) e) }
{
    check_text(alloc, standing.place.schema_in_force())?;
    check_awaited(alloc, index, standings, standing)
}

// Whether the schema places of documents, under all that these tell of meta-schemas, have no cause to be refused; and a cause where they
// have one.
pub(crate) fn check_places(
    alloc: Global,
    index: &Index,
    standings: &[Standing<'_>],
) -> Result<(), Error>
    ensures ok { OnOk result ((docs : Documents) → AwaitedIn docs (map standing_of standings.now)
        → flat_map (spec.causes_at (borne_in index.now) (unknown_by docs)) (map standing_of standings.now) ≡ []) }
    ensures refused { IfErr result (λ e. (docs : Documents) → AwaitedIn docs (map standing_of standings.now)
        → NamesOne (flat_map (spec.causes_at (borne_in index.now) (unknown_by docs))
        (map standing_of standings.now)) e) }
{
    for standing in standings {
        check_place(alloc, index, standings, standing)?;
    }
    Ok(())
}
