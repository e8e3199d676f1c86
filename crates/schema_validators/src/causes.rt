//! All that is wrong with a root.

ghost use Rattle.std.specs.Prelude.{IfOk, IfErr, OnOk};
ghost use Rattle.schema_registries.specs.Roots.{root_on};
ghost use Rattle.schema_validators.specs.Counted.{IsWithin};
ghost use Rattle.schema_validators.specs.Caused.{ListsCauses, NoneWhereSound, RefusesListing};

use crate::error::BuildError;
use compiled_graphs::causes::causes;
use reached_sites::cause::BuildCause;
use schema_patterns::PatternMaker;
use schema_registries::SchemaRegistry;
use std::alloc::Global;

/// What is wrong with the root that a reference leads to.
///
/// # Errors
///
/// Where the reference leads nowhere, more compile keys are reached than the limit, or memory was refused.
pub(crate) fn causes_at<P: PatternMaker>(
    alloc: Global,
    registry: &SchemaRegistry,
    root: &str,
    maker: &P,
    node_limit: usize,
) -> Result<Vec<BuildCause>, BuildError>
    ensures listed { IfOk result (λ v. ListsCauses (P.patterns maker.now) (root_on registry.now root.now) v.items) }
    ensures sound { IfOk result (λ v. NoneWhereSound (P.patterns maker.now) (root_on registry.now root.now) v.items) }
    ensures within { OnOk result (IsWithin (P.patterns maker.now) node_limit (root_on registry.now root.now)) }
    ensures refused { IfErr result (RefusesListing (P.patterns maker.now) node_limit (root_on registry.now root.now)) }
{
    let own = registry.own();
    let base = registry.base();
    let resolver = own.registry().resolver(base.clone()?)?;
    let found = match resolver.lookup(root) {
        Ok(found) => found,
        Err(error) => return Err(BuildError::of_root(alloc, base, root, error)),
    };
    own.documents_are_apart();
    own.registry().names_rise();
    match causes(alloc, &found, maker, node_limit) {
        Ok(causes) => Ok(causes),
        Err(cause) => Err(BuildError::of_places(cause)),
    }
}
