//! Meta-schemas that are asked.

ghost use Rattle.std.specs.Prelude.{◌≡◌, ◌⊎◌, IfOk, IfErr, IfSome, OnOk, ℕ, List, None, codes, option_map, false, true};
ghost use Rattle.serde_json.specs.View.{view};
ghost use Rattle.schema_definitions.specs.Places as places;
ghost use Rattle.schema_definitions.specs.Words.{has_text};
ghost use Rattle.reached_sites.specs.Passed.{target_in};
ghost use Rattle.schema_registries.specs.Passed.{retrieved_by};
ghost use Rattle.schema_reports.specs.Told.{fault_of, error_is_proper};
ghost use Rattle.schema_validators.specs.Asked.{schema_of_draft, schema_text, meta_schema_of, meta_root};
ghost use Rattle.schema_validators.specs.Asked.{Accepts, IsAsked, IsHandedIn, IsMetIn};
ghost use Rattle.schema_validators.specs.Calls.{IsFaultOf, IsVerdictOf, RefusesValueOf};
ghost use Rattle.reached_sites.specs.Places.{place_in};
ghost use Rattle.schema_validators.specs.Refused.{HasFault, NamesSchema, place_of};
ghost use Rattle.schema_validators.specs.Refused.{RefusesAt, RefusesByMeta};
ghost use Rattle.schema_validators.specs.declared.error.BuildError.TheVariants.{Memory};

use crate::error::{BuildError, RefusedSchema};
use crate::validator::Validator;
use reached_sites::place::SchemaPlace;
use reached_sites::{Error, Registry};
use referencing::Resolved;
use schema_dialects::bases::resolved;
use schema_dialects::identifiers::schema_in_force;
use schema_drafts::draft::Draft;
use schema_patterns::{PatternMaker, PatternMatcher};
use schema_registries::SharedRegistry;
use schema_reports::ValidationError;
use serde_json::Value;
use std::alloc::{AllocError, Global};
use uri_grammar::components::split_fragment;
use uri_references::uri::Uri;

/// The base URI of meta-schemas that name themselves by a relative reference.
const BASE: &str = "json-schema:///";

// The URI of a draft's own meta-schema.
fn schema_of(draft: Draft) -> Option<&'static str>
    ensures { option_map (λ t. t.now) result ≡ schema_of_draft draft }
{
    match draft {
        Draft::Draft4 => Some("http://json-schema.org/draft-04/schema"),
        Draft::Draft6 => Some("http://json-schema.org/draft-06/schema"),
        Draft::Draft7 => Some("http://json-schema.org/draft-07/schema"),
        Draft::Draft201909 => Some("https://json-schema.org/draft/2019-09/schema"),
        Draft::Draft202012 => Some("https://json-schema.org/draft/2020-12/schema"),
        Draft::Unknown => None,
    }
}

// The text of the `$schema` that counts at a root, or else the URI by its draft.
fn text_of<'r>(root: &Resolved<'r>) -> Option<&'r str>
    ensures { option_map (λ t. t.now) result ≡ schema_text (target_in root.now) }
{
    let siblings = root.dialect().siblings;
    match schema_in_force(siblings, root.path().is_root(), root.contents()) {
        Some(text) => Some(text),
        None => schema_of(root.draft()),
    }
}

/// The base of references to meta-schemas.
pub(crate) fn base(alloc: Global) -> Result<Uri, AllocError>
    ensures { IfOk result (λ u. u ≡ codes "json-schema:///") }
{
    match Uri::parse(alloc, BASE) {
        Ok(base) => Ok(base),
        Err(_) => Err(AllocError),
    }
}

// The URI of the meta-schema of a root.
fn uri_of(alloc: Global, base: &Uri, root: &Resolved<'_>) -> Result<Option<Uri>, AllocError>
    requires base { base.now ≡ codes "json-schema:///" }
    ensures { IfOk result (λ u. u ≡ meta_schema_of (target_in root.now)) }
{
    match text_of(root) {
        Some(text) => resolved(alloc, base, split_fragment(text).0),
        None => Ok(None),
    }
}

fn is_retrieved(registry: &Registry<'_>, document: &Uri) -> bool
    ensures { result ≡ has_text document.now (retrieved_by registry.now) }
{
    for uri in registry.retrieved() {
        if document.as_str() == uri.as_str() {
            return true;
        }
    }
    false
}

// Whether a URI leads to a meta-schema that was handed in.
fn is_handed_in(parent: &SharedRegistry, base: &Uri, uri: &str) -> Result<bool, AllocError>
    requires base { base.now ≡ codes "json-schema:///" }
    ensures there { IfOk result (λ b. b ≡ true → IsHandedIn parent.now uri.now) }
    ensures absent { IfOk result (λ b. b ≡ false → IsHandedIn parent.now uri.now → ⊥) }
{
    let resolver = parent.registry().resolver(base.clone()?)?;
    match resolver.lookup(uri) {
        Ok(found) => Ok(!is_retrieved(parent.registry(), found.document())),
        Err(error) => match error {
            Error::Memory => Err(AllocError),
            _ => Ok(false),
        },
    }
}

/// The URI of the meta-schema of a root, where it was handed in.
pub(crate) fn asked_uri(
    alloc: Global,
    parent: &SharedRegistry,
    base: &Uri,
    root: &Resolved<'_>,
) -> Result<Option<Uri>, AllocError>
    requires base { base.now ≡ codes "json-schema:///" }
    ensures asked { IfOk result (λ u. IfSome u (IsAsked parent.now (target_in root.now))) }
    ensures not_asked { IfOk result (λ u. u ≡ None → (uri : List ℕ) → IsAsked parent.now (target_in root.now) uri → ⊥) }
{
    let Some(uri) = uri_of(alloc, base, root)? else {
        return Ok(None);
    };
    if !is_handed_in(parent, base, uri.as_str())? {
        return Ok(None);
    }
    Ok(Some(uri))
}

// The place of a root, and the URI of its meta-schema.
fn names_of(root: &Resolved<'_>, uri: &Uri) -> Result<(SchemaPlace, Uri), AllocError>
    ensures place { IfOk result (λ x. place_in x.0 ≡ place_of (target_in root.now)) }
    ensures uri { IfOk result (λ x. x.1 ≡ uri.now) }
{
    Ok((SchemaPlace::of_target(root)?, uri.clone()?))
}

// The error of a root of which its meta-schema tells a fault.
fn refusal(root: &Resolved<'_>, uri: &Uri, fault: ValidationError<'static>) -> BuildError
    ensures fault { (result ≡ Memory) ⊎ HasFault fault.entry result }
    ensures named { NamesSchema (target_in root.now) uri.now result }
{
    match names_of(root, uri) {
        Ok((place, meta_schema)) => BuildError::MetaSchema(RefusedSchema {
            place,
            meta_schema,
            fault,
        }),
        Err(_) => BuildError::Memory,
    }
}

// The first fault of a value that a meta-schema tells, with values of its own, if there is one.
fn told_fault<M: PatternMatcher>(
    alloc: Global,
    meta_schema: &Validator<M>,
    value: &Value,
) -> Result<Option<ValidationError<'static>>, AllocError>
    ensures accepted { IfOk result (λ f. f ≡ None
        → IsVerdictOf meta_schema.now (view value.now) true) }
    ensures fault { IfOk result (λ f. IfSome f (λ e.
        IsFaultOf meta_schema.now (view value.now) (fault_of e))) }
    ensures proper { IfOk result (λ f. IfSome f (λ e. error_is_proper e ≡ true)) }
{
    match meta_schema.first_fault(value)? {
        Ok(()) => Ok(None),
        Err(error) => Ok(Some(error.to_owned(alloc)?)),
    }
}

// Asks a meta-schema, which has a URI, whether it accepts the value of a root.
fn ask<M: PatternMatcher>(
    alloc: Global,
    meta_schema: &Validator<M>,
    uri: &Uri,
    root: &Resolved<'_>,
) -> Result<(), BuildError>
    ensures accepted { OnOk result (IsVerdictOf
        meta_schema.now (target_in root.now).contents true) }
    ensures refused { IfErr result (RefusesValueOf meta_schema.now (target_in root.now).contents) }
    ensures named { IfErr result (NamesSchema (target_in root.now) uri.now) }
{
    match told_fault(alloc, meta_schema, root.contents())? {
        None => Ok(()),
        Some(fault) => Err(refusal(root, uri, fault)),
    }
}

// Asks the meta-schema that a URI leads to whether it accepts the value of a root.
fn ask_at<P: PatternMaker>(
    alloc: Global,
    parent: &SharedRegistry,
    base: &Uri,
    uri: &Uri,
    root: &Resolved<'_>,
    maker: &P,
    node_limit: usize,
) -> Result<(), BuildError>
    requires base { base.now ≡ codes "json-schema:///" }
    ensures accepted { OnOk result (Accepts (P.patterns maker.now) node_limit (meta_root parent.now uri.now)
        (target_in root.now).contents) }
    ensures refused { IfErr result (RefusesAt (P.patterns maker.now) node_limit (meta_root parent.now uri.now)
        (target_in root.now).contents) }
    ensures named { IfErr result (NamesSchema (target_in root.now) uri.now) }
{
    let meta_schema = Validator::at(alloc, parent, base, uri.as_str(), maker, node_limit)?;
    ask(alloc, &meta_schema, uri, root)
}

/// Asks the meta-schema of a root whether it accepts the root's value: the one that its `$schema` names, or without one that of its
/// draft, where it was handed in. It is read as a root of the meta-schemas alone, by the same maker of patterns and under the limit on
/// compile keys, and is not asked about in turn.
///
/// # Errors
///
/// Why the meta-schema is not read, one of its faults, or want of memory.
pub(crate) fn ask_meta_schema<P: PatternMaker>(
    alloc: Global,
    parent: &SharedRegistry,
    root: &Resolved<'_>,
    maker: &P,
    node_limit: usize,
) -> Result<(), BuildError>
    ensures accepted { OnOk result (IsMetIn (P.patterns maker.now) node_limit parent.now (target_in root.now)) }
    ensures refused { IfErr result (RefusesByMeta (P.patterns maker.now) node_limit parent.now (target_in root.now)) }
{
    let base = base(alloc)?;
    let Some(uri) = asked_uri(alloc, parent, &base, root)? else {
        return Ok(());
    };
    ask_at(alloc, parent, &base, &uri, root, maker, node_limit)
}
