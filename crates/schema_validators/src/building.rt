//! Validators at roots.

ghost use Rattle.std.specs.Prelude.{◌≡◌, ◌<◌, length, IfOk, IfErr};
ghost use Rattle.schema_definitions.specs.Lookup.{Target};
ghost use Rattle.schema_registries.specs.Seen.{documents_shared};
ghost use Rattle.schema_registries.specs.Roots.{Finds};
ghost use Rattle.schema_validators.specs.Counted.{IsWithin};
ghost use Rattle.schema_validators.specs.Made.{IsMadeAt, IsMadeBy};
ghost use Rattle.schema_validators.specs.Meant.{AreOfSome};
ghost use Rattle.schema_validators.specs.Refused.{RefusesBuild};
ghost use Rattle.schema_validators.specs.Seen.{root_of};

use crate::error::BuildError;
use crate::validator::Validator;
use compiled_graphs::graph::{Compiled, build};
use compiled_graphs::schemas::SchemaGraph;
use schema_drafts::draft::Draft;
use schema_patterns::{PatternMaker, PatternMatcher};
use schema_registries::SharedRegistry;
use std::alloc::{AllocError, Global};
use std::rc::Rc;
use uri_references::uri::Uri;

// A graph that several may have.
fn shared<M: PatternMatcher>(
    alloc: Global,
    schemas: SchemaGraph<M>,
) -> Result<Rc<SchemaGraph<M>>, AllocError>
    ensures { IfOk result (λ shared. shared.value ≡ schemas) }
{
    Ok(Rc::new(alloc, schemas)?)
}

// The schema that a reference leads to, where nothing is wrong there: its draft, and the graph from there.
fn compile_at<P: PatternMaker>(
    alloc: Global,
    registry: &SharedRegistry,
    base: &Uri,
    root: &str,
    maker: &P,
    node_limit: usize,
) -> Result<(Draft, Compiled<P::Matcher>), BuildError>
    ensures made { IfOk result (λ x. IsMadeAt P.Matcher.finds (P.patterns maker.now) (root_of
        (documents_shared registry.now) base.now root.now)
        x.1.schemas.graph.nodes.items x.1.start x.1.schemas.table) }
    ensures draft { IfOk result (λ x. (target : Target)
        → Finds (root_of (documents_shared registry.now) base.now root.now) target → x.0 ≡ target.dialect.draft) }
    ensures within { IfOk result (λ x. IsWithin (P.patterns maker.now) node_limit (root_of
        (documents_shared registry.now) base.now root.now)) }
    ensures refused { IfErr result (RefusesBuild (P.patterns maker.now) node_limit (root_of
        (documents_shared registry.now) base.now root.now)) }
{
    let resolver = registry.registry().resolver(base.clone()?)?;
    let found = match resolver.lookup(root) {
        Ok(found) => found,
        Err(error) => return Err(BuildError::of_root(alloc, base, root, error)),
    };
    registry.documents_are_apart();
    registry.registry().names_rise();
    match build(alloc, &found, maker, node_limit) {
        Ok(compiled) => Ok((found.draft(), compiled)),
        Err(cause) => Err(BuildError::of_schema(cause)),
    }
}

// The draft of the schema that a reference leads to.
pub(crate) fn draft_at(
    registry: &SharedRegistry,
    base: &Uri,
    root: &str,
) -> Result<Draft, AllocError>
    ensures { IfOk result (λ d. (target : Target)
        → Finds (root_of (documents_shared registry.now) base.now root.now) target → d ≡ target.dialect.draft) }
{
    let resolver = registry.registry().resolver(base.clone()?)?;
    match resolver.lookup(root) {
        Ok(found) => Ok(found.draft()),
        Err(_) => Err(AllocError),
    }
}

impl<M: PatternMatcher> Validator<M> {
    // A validator over a graph, from a node on.
    pub(crate) fn over(
        alloc: Global,
        schemas: Rc<SchemaGraph<M>>,
        start: usize,
        draft: Draft,
    ) -> Validator<M>
        requires there { start < length schemas.value.graph.nodes.items }
        requires of_some { AreOfSome schemas.value.graph.nodes.items start }
        ensures schemas { result.schemas.value ≡ schemas.value }
        ensures start { result.start ≡ start }
        ensures draft { result.draft ≡ draft }
    {
        Validator {
            alloc,
            schemas,
            start,
            draft,
        }
    }

    // A validator by the schema that a reference leads to, whether it has a meta-schema or not.
    pub(crate) fn at<P: PatternMaker<Matcher = M>>(
        alloc: Global,
        registry: &SharedRegistry,
        base: &Uri,
        root: &str,
        maker: &P,
        node_limit: usize,
    ) -> Result<Validator<M>, BuildError>
        ensures made { IfOk result (IsMadeBy (P.patterns maker.now) (root_of
            (documents_shared registry.now) base.now root.now)) }
        ensures draft { IfOk result (λ v. (target : Target)
            → Finds (root_of (documents_shared registry.now) base.now root.now) target
            → v.draft ≡ target.dialect.draft) }
        ensures within { IfOk result (λ v. IsWithin (P.patterns maker.now) node_limit (root_of
            (documents_shared registry.now) base.now root.now)) }
        ensures refused { IfErr result (RefusesBuild (P.patterns maker.now) node_limit (root_of
            (documents_shared registry.now) base.now root.now)) }
    {
        let (draft, compiled) = compile_at(alloc, registry, base, root, maker, node_limit)?;
        let start = compiled.start;
        let schemas = shared(alloc, compiled.schemas)?;
        Ok(Validator::over(alloc, schemas, start, draft))
    }
}
