//! Chains of references.

ghost use Rattle.std.specs.Prelude.{◌≡◌, IfOk, IfErr, IfSome, Ok, Some, option_map};
ghost use Rattle.document_sources.specs.Causes.{RefusesLookup};
ghost use Rattle.referencing.specs.Resolved.{base_of, scope_of, documents_in, siblings_in};
ghost use Rattle.referencing.specs.Followed.{one_step, followed, begun, last_of_chain, answer_in};
ghost use Rattle.referencing.specs.Chains.{stand_of, IsOver};
ghost use Rattle.referencing.specs.Seen.{documents_of};

use crate::registry::Registry;
use crate::resolver::{Resolved, Resolver};
use document_sources::error::Error;
use schema_drafts::resource::ResourceRef;
use std::alloc::AllocError;
use uri_references::uri::Uri;

/// A step of a chain of references.
#[derive(Clone, Copy)]
pub enum Step<'s> {
    /// A plain reference.
    Lookup(&'s str),
    /// A `$dynamicRef`.
    Dynamic(&'s str),
    /// A `$recursiveRef`.
    Recursive,
    /// Into a subschema, whose identifier changes the base.
    Enter(ResourceRef<'s>),
}

// Where a chain stands, and what its last reference led to.
#[derive(Drop)]
struct Chain<'r> {
    resolver: Resolver<'r>,
    last: Option<Resolved<'r>>,
}

// A chain at what a reference led to.
fn chain_at<'r>(resolved: Resolved<'r>) -> Result<Chain<'r>, AllocError>
    ensures base { IfOk result (λ c. base_of c.resolver ≡ base_of resolved.entry.resolver) }
    ensures scope { IfOk result (λ c. scope_of c.resolver ≡ scope_of resolved.entry.resolver) }
    ensures documents { IfOk result (λ c. documents_in c.resolver ≡ documents_in resolved.entry.resolver) }
    ensures siblings { IfOk result (λ c. siblings_in c.resolver ≡ siblings_in resolved.entry.resolver) }
    ensures last { IfOk result (λ c. c.last ≡ Some resolved.entry) }
{
    Ok(Chain {
        resolver: resolved.resolver.share()?,
        last: Some(resolved),
    })
}

fn take_step<'r>(chain: Chain<'r>, step: &Step<'_>) -> Result<Chain<'r>, Error>
    ensures ok { IfOk result (λ c. one_step (siblings_in chain.entry.resolver) (documents_in chain.entry.resolver)
        (stand_of chain.entry) step.now ≡ Ok (stand_of c)) }
    ensures over { IfOk result (λ c. IsOver (siblings_in chain.entry.resolver)
        (documents_in chain.entry.resolver) chain.entry
        → IsOver (siblings_in chain.entry.resolver) (documents_in chain.entry.resolver) c) }
    ensures refused { IfErr result (RefusesLookup
        (one_step (siblings_in chain.entry.resolver) (documents_in chain.entry.resolver)
        (stand_of chain.entry) step.now)) }
{
    match step {
        Step::Lookup(reference) => Ok(chain_at(chain.resolver.lookup(reference)?)?),
        Step::Dynamic(reference) => Ok(chain_at(chain.resolver.lookup_dynamic_ref(reference)?)?),
        Step::Recursive => Ok(chain_at(chain.resolver.lookup_recursive_ref()?)?),
        Step::Enter(subschema) => Ok(Chain {
            resolver: chain.resolver.in_subresource(*subschema)?,
            last: chain.last,
        }),
    }
}

/// What the last reference of a chain leads to, each step taken from where the one before it led: none where no step is a reference.
///
/// It costs what its steps cost.
///
/// # Errors
///
/// Why a step of the chain leads nowhere, with the texts that it names, or want of memory. No step behind it is taken then.
pub fn follow<'r>(
    registry: &'r Registry<'_>,
    base: Uri,
    steps: &[Step<'_>],
) -> Result<Option<Resolved<'r>>, Error>
    ensures ok { IfOk result (λ r. last_of_chain registry.now.siblings (documents_of registry.now) base steps.now
        ≡ Ok (option_map answer_in r)) }
    ensures documents { IfOk result (λ r. IfSome r (λ x. documents_in x.resolver ≡ documents_of registry.now)) }
    ensures siblings { IfOk result (λ r. IfSome r (λ x. siblings_in x.resolver ≡ registry.now.siblings)) }
    ensures refused { IfErr result (RefusesLookup
        (followed registry.now.siblings (documents_of registry.now) (begun base) steps.now)) }
{
    let mut chain = Chain {
        resolver: registry.resolver(base)?,
        last: None,
    };
    for step in steps {
        chain = take_step(chain, step)?;
    }
    Ok(chain.last)
}
