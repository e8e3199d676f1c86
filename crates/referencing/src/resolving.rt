//! What a reference leads to from a base.

ghost use Rattle.std.specs.Prelude.{◌≡◌, [], MatchOption, IfOk, IfErr, Ok, option_map};
ghost use Rattle.percent_encoding.specs.Percent.{percent_decode};
ghost use Rattle.uri_grammar.specs.Texts.{has};
ghost use Rattle.schema_definitions.specs.Words as words;
ghost use Rattle.schema_definitions.specs.Lookup as spec;
ghost use Rattle.document_index.specs.Seen.{standing_of};
ghost use Rattle.schema_places.specs.Causes.{cause_of};
ghost use Rattle.document_sources.specs.Causes.{IsMemory, NamesLookup, RefusesLookup};
ghost use Rattle.referencing.specs.Found.{found_target, bearer_wanted};
ghost use Rattle.referencing.specs.Seen.{documents_of, told_by};

use crate::registry::Registry;
use document_index::document::DocumentName;
use document_index::standing::Standing;
use document_sources::error::Error;
use document_sources::named::{invalid_anchor, invalid_uri, no_such_anchor, not_borne};
use schema_dialects::bases::resolved;
use schema_places::error::WalkError;
use schema_places::reached::{Reached, follow_pointer};
use uri_grammar::components::split_fragment;
use uri_references::uri::Uri;

/// What a reference leads to, and the name of the document that it is in.
#[derive(Drop)]
pub struct Found<'r> {
    pub document: DocumentName,
    pub reached: Reached<'r>,
}

fn walk_refused(error: WalkError) -> Error
    ensures { MatchOption (cause_of error) (IsMemory result) (λ cause. NamesLookup cause result) }
{
    match error {
        WalkError::Nowhere { pointer } => Error::PointerToNowhere { pointer },
        WalkError::PercentEncoding { pointer } => Error::InvalidPercentEncoding { pointer },
        WalkError::ArrayIndex { index, pointer } => Error::InvalidArrayIndex { pointer, index },
        WalkError::Memory => Error::Memory,
    }
}

// The schema place itself.
pub(crate) fn whole<'r>(standing: Standing<'r>) -> Found<'r>
    ensures { found_target result ≡ spec.target_of (standing_of standing.entry) }
{
    let place = standing.place;
    Found {
        document: standing.name,
        reached: Reached {
            path: place.path,
            contents: place.contents,
            base: place.base,
            dialect: place.dialect,
            is_place: true,
        },
    }
}

fn by_pointer<'r>(
    registry: &'r Registry<'_>,
    standing: Standing<'r>,
    fragment: &str,
) -> Result<Found<'r>, Error>
    ensures ok { IfOk result (λ f. spec.by_pointer (told_by registry.now)
        (standing_of standing.entry) fragment.now (percent_decode fragment.now) ≡ Ok (found_target f)) }
    ensures refused { IfErr result (RefusesLookup
        (spec.by_pointer (told_by registry.now) (standing_of standing.entry) fragment.now
        (percent_decode fragment.now))) }
{
    match follow_pointer(registry.alloc, &registry.known, &standing.place, fragment) {
        Ok(reached) => Ok(Found {
            document: standing.name,
            reached,
        }),
        Err(error) => Err(walk_refused(error)),
    }
}

pub(crate) fn has_slash(text: &str) -> bool
    ensures { result ≡ has 47 text.now }
{
    text.contains('/')
}

fn by_anchor<'r>(
    registry: &'r Registry<'_>,
    standing: &Standing<'_>,
    name: &str,
) -> Result<Found<'r>, Error>
    ensures ok { IfOk result (λ f. spec.by_anchor (told_by registry.now) (documents_of registry.now)
        (standing_of standing.now) name.now ≡ Ok (found_target f)) }
    ensures refused { IfErr result (RefusesLookup
        (spec.by_anchor (told_by registry.now) (documents_of registry.now) (standing_of standing.now) name.now)) }
{
    if has_slash(name) {
        return Err(invalid_anchor(registry.alloc, name));
    }
    match registry.anchored(standing.place.base.as_str(), name)? {
        Some(bearer) => Ok(whole(bearer)),
        None => Err(no_such_anchor(registry.alloc, name)),
    }
}

fn by_fragment<'r>(
    registry: &'r Registry<'_>,
    standing: Standing<'r>,
    fragment: &str,
) -> Result<Found<'r>, Error>
    ensures ok { IfOk result (λ f. spec.by_fragment (told_by registry.now) (documents_of registry.now)
        (standing_of standing.entry) fragment.now ≡ Ok (found_target f)) }
    ensures refused { IfErr result (RefusesLookup
        (spec.by_fragment (told_by registry.now) (documents_of registry.now)
        (standing_of standing.entry) fragment.now)) }
{
    match fragment.as_bytes() {
        [] => Ok(whole(standing)),
        [first, ..] => {
            if *first == b'/' {
                by_pointer(registry, standing, fragment)
            } else {
                by_anchor(registry, &standing, fragment)
            }
        }
    }
}

fn wanted<'r>(registry: &'r Registry<'_>, base: &Uri, text: &str) -> Result<Standing<'r>, Error>
    ensures ok { IfOk result (λ s. bearer_wanted (documents_of registry.now) base.now text.now ≡ Ok (standing_of s)) }
    ensures refused { IfErr result (RefusesLookup (bearer_wanted (documents_of registry.now) base.now text.now)) }
{
    let Some(uri) = resolved(registry.alloc, base, text)? else {
        return Err(invalid_uri(registry.alloc, text));
    };
    match registry.bearer(uri.as_str())? {
        Some(bearer) => Ok(bearer),
        None => Err(not_borne(registry.alloc, uri.as_str())),
    }
}

pub(crate) fn fragment_or_empty(fragment: Option<&str>) -> &str
    ensures { result.now ≡ words.or [] (option_map (λ t. t.now) fragment.entry) }
{
    match fragment {
        Some(fragment) => fragment,
        None => "",
    }
}

/// What a reference leads to from a base.
pub fn look_up<'r>(
    registry: &'r Registry<'_>,
    base: &Uri,
    reference: &str,
) -> Result<Found<'r>, Error>
    ensures ok { IfOk result (λ f. spec.lookup (documents_of registry.now) base.now reference.now ≡ Ok (found_target f)) }
    ensures refused { IfErr result (RefusesLookup (spec.lookup (documents_of registry.now) base.now reference.now)) }
{
    let (text, fragment) = split_fragment(reference);
    let bearer = wanted(registry, base, text)?;
    by_fragment(registry, bearer, fragment_or_empty(fragment))
}
