//! How maps of validators are built.

ghost use Rattle.std.specs.Prelude.{◌≡◌, map, bytes_eq, string_bytes, length, slice_get, ◌<◌, IfOk, IfErr};
ghost use Rattle.std.specs.Prelude.{IfSome, OnOk, None, Some};
ghost use Rattle.std.specs.List.{All, IsDistinct};
ghost use Rattle.schema_definitions.specs.Bearers.{Document};
ghost use Rattle.schema_registries.specs.Pointers as places;
ghost use Rattle.schema_registries.specs.Seen.{documents_shared};
ghost use Rattle.compiled_graphs.specs.Marked.{IsNode};
ghost use Rattle.schema_validators.specs.Maps.{entries_in, entry_at, PutsPlace, Enters, IsMapOf, IsMapAt};
ghost use Rattle.schema_validators.specs.Maps.{ArePlacesExceeded, RefusesMapAt};
ghost use Rattle.schema_validators.specs.Meant.{IsOfSome};

use crate::building::draft_at;
use crate::error::BuildError;
use crate::validator::Validator;
use crate::validator_map::ValidatorMap;
use compiled_graphs::schemas::SchemaGraph;
use compiled_graphs::several::build_each;
use schema_patterns::{PatternMaker, PatternMatcher};
use schema_registries::place_pointers::{pointers_in, reference_to};
use schema_registries::{SchemaRegistry, SharedRegistry};
use std::alloc::{AllocError, Global};
use std::rc::Rc;
use uri_references::uri::Uri;

// The references by which pointers are looked up.
fn references_to(alloc: Global, pointers: &[String]) -> Result<Vec<String>, AllocError>
    ensures { IfOk result (λ v. map string_bytes v.items ≡ map places.reference_to (map string_bytes pointers.now)) }
{
    let mut references = Vec::new(alloc);
    for pointer in pointers {
        references.push(reference_to(alloc, pointer.as_str())?)?;
    }
    Ok(references)
}

// Puts the validator of a place behind others, where the place has a node at which it starts.
fn put<M: PatternMatcher>(
    alloc: Global,
    registry: &SharedRegistry,
    document: &Uri,
    pointer: &str,
    start: Option<usize>,
    schemas: &Rc<SchemaGraph<M>>,
    map: &mut ValidatorMap<M>,
) -> Result<(), AllocError>
    requires there { IsNode (length schemas.now.value.graph.nodes.items) start }
    requires of_some { IsOfSome schemas.now.value.graph.nodes.items start }
    requires absent { entry_at map.old pointer.now ≡ None }
    ensures { OnOk result (PutsPlace
        (documents_shared registry.now) document.now schemas.now.value pointer.now start (entries_in map.old)
        (entries_in map.new)) }
{
    let Some(start) = start else {
        return Ok(());
    };
    let reference = reference_to(alloc, pointer)?;
    let draft = draft_at(registry, document, reference.as_str())?;
    let validator = Validator::over(alloc, schemas.clone()?, start, draft);
    let key = String::from_str(alloc, pointer)?;
    match map.validators.insert(key, validator) {
        Ok(_) => Ok(()),
        Err(_) => Err(AllocError),
    }
}

fn start_at(starts: &[Option<usize>], position: usize) -> Option<usize>
    requires { position < length starts.now }
    ensures { slice_get starts.now position ≡ Some result }
{
    starts[position]
}

// The validators of the places that have a node at which they start.
fn validators_at<M: PatternMatcher>(
    alloc: Global,
    registry: &SharedRegistry,
    document: &Uri,
    pointers: &[String],
    starts: &[Option<usize>],
    schemas: SchemaGraph<M>,
) -> Result<ValidatorMap<M>, AllocError>
    requires long { length starts.now ≡ length pointers.now }
    requires there { All (IsNode (length schemas.graph.nodes.items)) starts.now }
    requires of_some { All (IsOfSome schemas.graph.nodes.items) starts.now }
    requires distinct { IsDistinct bytes_eq (map string_bytes pointers.now) }
    ensures { IfOk result (λ m. Enters (documents_shared registry.now) document.now schemas
        (map string_bytes pointers.now) starts.now (entries_in m)) }
{
    let shared = Rc::new(alloc, schemas)?;
    let mut map = ValidatorMap::new(alloc);
    for position in 0..pointers.len() {
        let start = start_at(starts, position);
        let pointer = pointers[position].as_str();
        put(alloc, registry, document, pointer, start, &shared, &mut map)?;
    }
    Ok(map)
}

// The validators of the schema places of a document.
fn map_of<P: PatternMaker>(
    alloc: Global,
    registry: &SharedRegistry,
    document: &Uri,
    maker: &P,
    node_limit: usize,
) -> Result<ValidatorMap<P::Matcher>, BuildError>
    ensures built { IfOk result (λ m. (d : Document)
        → places.IsDocumentAt (documents_shared registry.now) document.now d
        → IsMapOf (P.patterns maker.now) (documents_shared registry.now) d node_limit m) }
    ensures refused { IfErr result (λ e. (d : Document)
        → places.IsDocumentAt (documents_shared registry.now) document.now d
        → ArePlacesExceeded (P.patterns maker.now) (documents_shared registry.now) d node_limit e) }
{
    let pointers = pointers_in(alloc, registry.registry(), document)?;
    let references = references_to(alloc, pointers.as_slice())?;
    registry.documents_are_apart();
    let places = registry.registry();
    let built = match build_each(
        alloc,
        places,
        document,
        references.as_slice(),
        maker,
        node_limit,
    ) {
        Ok(built) => built,
        Err(cause) => return Err(BuildError::of_places(cause)),
    };
    let starts = built.starts;
    let map = validators_at(
        alloc,
        registry,
        document,
        pointers.as_slice(),
        starts.as_slice(),
        built.schemas,
    )?;
    Ok(map)
}

/// The validators of the schema places of the document under whose URI a root lies, an own one before a parent's.
///
/// # Errors
///
/// Where the reference to the root leads nowhere, where more compile keys are reached from all places together than the limit, and want of memory.
pub(crate) fn map_at<P: PatternMaker>(
    alloc: Global,
    registry: &SchemaRegistry,
    root: &str,
    maker: &P,
    node_limit: usize,
) -> Result<ValidatorMap<P::Matcher>, BuildError>
    ensures built { IfOk result (IsMapAt (P.patterns maker.now) registry.now root.now node_limit) }
    ensures refused { IfErr result (RefusesMapAt (P.patterns maker.now) registry.now root.now node_limit) }
{
    let base = registry.base();
    let resolver = registry.registry().resolver(base.clone()?)?;
    match resolver.lookup(root) {
        Ok(found) => map_of(alloc, registry.own(), found.document(), maker, node_limit),
        Err(error) => Err(BuildError::of_root(alloc, base, root, error)),
    }
}
