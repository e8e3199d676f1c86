//! All that meta-schemas find wrong.

ghost use Rattle.std.specs.Prelude.{◌≡◌, IfOk, IfErr, codes, true};
ghost use Rattle.serde_json.specs.View.{view};
ghost use Rattle.schema_meaning.specs.Faults.{is_none};
ghost use Rattle.reached_sites.specs.Passed.{target_in};
ghost use Rattle.schema_reports.specs.Left.{errors_left};
ghost use Rattle.schema_reports.specs.Told.{faults_of, are_proper};
ghost use Rattle.schema_validators.specs.AllTold.{TellsAll, TellsOf, RefusesTellingOf};
ghost use Rattle.schema_validators.specs.Asked.{meta_root};
ghost use Rattle.schema_validators.specs.Calls.{IsVerdictOf, AreFaultsOf};
ghost use Rattle.schema_validators.specs.Refused.{RefusesBuild};

use crate::error::BuildError;
use crate::meta_schema::{asked_uri, base};
use crate::validator::Validator;
use referencing::Resolved;
use schema_patterns::{PatternMaker, PatternMatcher};
use schema_registries::SharedRegistry;
use schema_reports::{ErrorIterator, ValidationError};
use serde_json::Value;
use std::alloc::{AllocError, Global};
use uri_references::uri::Uri;

/// Errors with values of their own.
type OwnedErrors = Vec<ValidationError<'static>>;

// The same errors with values of their own.
fn owned(alloc: Global, errors: ErrorIterator<'_>) -> Result<OwnedErrors, AllocError>
    ensures told { IfOk result (λ v. faults_of v.items ≡ faults_of (errors_left errors.entry)) }
    ensures proper { IfOk result (λ v. are_proper v.items ≡ are_proper (errors_left errors.entry)) }
{
    let mut owned = Vec::new(alloc);
    for error in errors {
        owned.push(error.to_owned(alloc)?)?;
    }
    Ok(owned)
}

// All faults that a meta-schema tells of a value.
fn tell<M: PatternMatcher>(
    alloc: Global,
    meta_schema: &Validator<M>,
    value: &Value,
) -> Result<OwnedErrors, AllocError>
    ensures faults { IfOk result (λ v. AreFaultsOf meta_schema.now (view value.now) (faults_of v.items)) }
    ensures verdict { IfOk result (λ v. IsVerdictOf meta_schema.now (view value.now) (is_none (faults_of v.items))) }
    ensures proper { IfOk result (λ v. are_proper v.items ≡ true) }
{
    let errors = meta_schema.all_faults(value)?;
    owned(alloc, errors)
}

// All faults that the meta-schema of a URI tells of a value.
fn tell_at<P: PatternMaker>(
    alloc: Global,
    parent: &SharedRegistry,
    base: &Uri,
    uri: &str,
    value: &Value,
    maker: &P,
    node_limit: usize,
) -> Result<OwnedErrors, BuildError>
    requires base { base.now ≡ codes "json-schema:///" }
    ensures told { IfOk result (λ v. TellsAll (P.patterns maker.now) node_limit
        (meta_root parent.now uri.now) (view value.now) v.items) }
    ensures refused { IfErr result (RefusesBuild (P.patterns maker.now) node_limit (meta_root parent.now uri.now)) }
{
    let meta_schema = Validator::at(alloc, parent, base, uri, maker, node_limit)?;
    let told = tell(alloc, &meta_schema, value)?;
    Ok(told)
}

/// All faults that the meta-schema of a root tells of the root's value, where it was handed in. It is read as `ask_meta_schema` reads it.
///
/// # Errors
///
/// Why the meta-schema is not read, or want of memory.
pub(crate) fn tell_by_meta_schema<P: PatternMaker>(
    alloc: Global,
    parent: &SharedRegistry,
    root: &Resolved<'_>,
    maker: &P,
    node_limit: usize,
) -> Result<OwnedErrors, BuildError>
    ensures told { IfOk result (λ v. TellsOf (P.patterns maker.now) node_limit parent.now (target_in root.now) v.items) }
    ensures refused { IfErr result (RefusesTellingOf (P.patterns maker.now) node_limit parent.now (target_in root.now)) }
{
    let base = base(alloc)?;
    let Some(uri) = asked_uri(alloc, parent, &base, root)? else {
        return Ok(Vec::new(alloc));
    };
    tell_at(
        alloc,
        parent,
        &base,
        uri.as_str(),
        root.contents(),
        maker,
        node_limit,
    )
}
