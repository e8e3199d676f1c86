//! Registries of equal documents answer every chain of references alike.

ghost use Rattle.std.specs.Prelude.{◌≡◌, IfOk, IfErr, Ok, option_map};
ghost use Rattle.document_sources.specs.Causes.{RefusesLookup};
ghost use Rattle.referencing.specs.Seen.{documents_of};
ghost use Rattle.referencing.specs.Followed.{answer_in, begun, followed, last_of_chain};
ghost use Rattle.schema_registries.specs.ChainAnswers.{AnswerAlike};

use document_sources::error::Error;
use referencing::following::{Step, follow};
use referencing::registry::Registry;
use referencing::resolver::Resolved;
use uri_references::uri::Uri;

/// What a chain of references leads to in each of two registries.
#[derive(Drop)]
pub struct BothAnswers<'l, 'r> {
    pub left: Result<Option<Resolved<'l>>, Error>,
    pub right: Result<Option<Resolved<'r>>, Error>,
}

// What a chain leads to from a base that is kept.
fn follow_from<'r>(
    registry: &'r Registry<'_>,
    base: &Uri,
    steps: &[Step<'_>],
) -> Result<Option<Resolved<'r>>, Error>
    ensures ok { IfOk result (λ r. last_of_chain registry.now.siblings
        (documents_of registry.now) base.now steps.now ≡ Ok (option_map answer_in r)) }
    ensures refused { IfErr result (RefusesLookup
        (followed registry.now.siblings (documents_of registry.now) (begun base.now) steps.now)) }
{
    follow(registry, base.clone()?, steps)
}

/// Follows a chain of references from one base in two registries with equal documents under the same URIs, with the same drafts and in the
/// same order, be they lent, owned or shared, which both read what stands beside `$ref` in Drafts 6 and 7 or both do not: want of memory aside, both chains lead to one target with one scope, or both are refused for
/// one cause.
///
/// It costs what following the chain in both costs.
pub fn follow_both<'l, 'r>(
    left: &'l Registry<'_>,
    right: &'r Registry<'_>,
    base: &Uri,
    steps: &[Step<'_>],
) -> BothAnswers<'l, 'r>
    requires documents { documents_of left.now ≡ documents_of right.now }
    requires siblings { left.now.siblings ≡ right.now.siblings }
    ensures ok { IfOk result.left (λ r. last_of_chain left.now.siblings (documents_of left.now) base.now steps.now
        ≡ Ok (option_map answer_in r)) }
    ensures refused { IfErr result.left (RefusesLookup
        (followed left.now.siblings (documents_of left.now) (begun base.now) steps.now)) }
    ensures alike { AnswerAlike result.left result.right }
{
    BothAnswers {
        left: follow_from(left, base, steps),
        right: follow_from(right, base, steps),
    }
}
