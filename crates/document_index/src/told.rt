//! What documents tell of meta-schemas.

ghost use Rattle.std.specs.Prelude.{◌≡◌, ℕ, suc, List, [], ◌∷◌, map, IfOk, None, option_map, slice_get};
ghost use Rattle.schema_definitions.specs.Bearers as bearers;
ghost use Rattle.schema_definitions.specs.DocumentCauses as causes;
ghost use Rattle.schema_dialects.specs.Dialects.{dialects_in};
ghost use Rattle.document_index.specs.Seen.{document_of};
ghost use Rattle.document_laws.specs.Stages as laws;
ghost use Rattle.document_index.specs.Told.{Tells};
ghost use Rattle.document_index.specs.Standings.{AreUnder, AreTold};

use crate::counting::how_many;
use crate::document::Document;
use crate::stages::{borne_by, first_anew};
use crate::standing::{Standing, standings};
use schema_dialects::MetaSchemas;
use std::alloc::{AllocError, Global};
use uri_references::uri::Uri;

/// What some stages tell of meta-schemas.
#[derive(Debug, Drop)]
pub struct Told {
    /// The meta-schemas told of.
    pub meta_schemas: MetaSchemas,
    /// The first meta-schema that is named at a schema place and of which the last stage tells another dialect than the one before. Where
    /// there is none the stages are at rest: no later one tells anything else.
    pub anew: Option<Uri>,
}

/// What a stage tells of meta-schemas, and the schema places by which it tells it.
#[derive(Drop)]
pub(crate) struct Stage<'d> {
    pub(crate) told: Told,
    pub(crate) places: Vec<Standing<'d>>,
}

// One stage more. Where it is at rest, the places are those under what it tells, too.
fn one_more<'d>(
    alloc: Global,
    documents: &'d [Document<'_>],
    told: &MetaSchemas,
) -> Result<Stage<'d>, AllocError>
    ensures next { IfOk result (λ s. (n : ℕ) → Tells told.now (bearers.dialects (map document_of documents.now) n)
        → Tells s.told.meta_schemas (bearers.dialects (map document_of documents.now) (suc n))) }
    ensures anew { IfOk result (λ s. (n : ℕ) → Tells told.now (bearers.dialects (map document_of documents.now) n)
        → option_map causes.circular_metaschema s.told.anew
        ≡ slice_get (laws.anew_after (map document_of documents.now) n) 0) }
    ensures rests { IfOk result (λ s. s.told.anew ≡ None
        → AreUnder s.told.meta_schemas (map document_of documents.now) s.places.items) }
{
    let places = standings(alloc, told, documents)?;
    let meta_schemas = borne_by(alloc, &places)?;
    let anew = first_anew(alloc, &places, told, &meta_schemas)?;
    Ok(Stage {
        told: Told { meta_schemas, anew },
        places,
    })
}

// The first stage.
fn first_stage<'d>(alloc: Global, documents: &'d [Document<'_>]) -> Result<Stage<'d>, AllocError>
    ensures told { IfOk result (λ s. Tells s.told.meta_schemas
        (bearers.dialects (map document_of documents.now) 1)) }
    ensures anew { IfOk result (λ s. option_map causes.circular_metaschema s.told.anew
        ≡ slice_get (laws.anew_after (map document_of documents.now) 0) 0) }
    ensures rests { IfOk result (λ s. s.told.anew ≡ None
        → AreUnder s.told.meta_schemas (map document_of documents.now) s.places.items) }
{
    one_more(alloc, documents, &MetaSchemas::none(alloc))
}

// From the first stage on, one stage more than that many, or the first at rest.
fn stage_after<'d>(
    alloc: Global,
    documents: &'d [Document<'_>],
    first: Stage<'d>,
    stages: usize,
) -> Result<Stage<'d>, AllocError>
    requires told { Tells first.told.meta_schemas (bearers.dialects (map document_of documents.now) 1) }
    requires anew { option_map causes.circular_metaschema first.told.anew
        ≡ slice_get (laws.anew_after (map document_of documents.now) 0) 0 }
    requires rests { first.told.anew ≡ None
        → AreUnder first.told.meta_schemas (map document_of documents.now) first.places.items }
    ensures told { IfOk result (λ s. Tells s.told.meta_schemas
        (bearers.dialects (map document_of documents.now) (suc stages))) }
    ensures anew { IfOk result (λ s. option_map causes.circular_metaschema s.told.anew
        ≡ slice_get (laws.anew_after (map document_of documents.now) stages) 0) }
    ensures rests { IfOk result (λ s. s.told.anew ≡ None
        → AreUnder s.told.meta_schemas (map document_of documents.now) s.places.items) }
{
    let mut next = first;
    let mut stage: usize = 0;
    while stage < stages && next.told.anew.is_some() {
        next = one_more(alloc, documents, &next.told.meta_schemas)?;
        stage += 1;
    }
    Ok(next)
}

// The last of the stages. The members named `$schema` are counted only where the first is not at rest.
fn last_stage<'d>(alloc: Global, documents: &'d [Document<'_>]) -> Result<Stage<'d>, AllocError>
    ensures told { IfOk result (λ s. Tells s.told.meta_schemas (bearers.meta (map document_of documents.now))) }
    ensures anew { IfOk result (λ s. option_map causes.circular_metaschema s.told.anew
        ≡ slice_get (causes.told_anew (map document_of documents.now)) 0) }
    ensures rests { IfOk result (λ s. s.told.anew ≡ None
        → AreUnder s.told.meta_schemas (map document_of documents.now) s.places.items) }
{
    let first = first_stage(alloc, documents)?;
    if first.told.anew.is_none() {
        return Ok(first);
    }
    match how_many(documents) {
        Some(stages) => stage_after(alloc, documents, first, stages),
        None => Err(AllocError),
    }
}

/// What one stage more than that many tells of meta-schemas, each stage by what the places of the documents bear under what the one before
/// tells.
///
/// A stage walks each document once, and copies the URIs borne. There is none after one that is at rest, so where no `$schema` names a
/// meta-schema of one's own there is one.
///
/// # Errors
///
/// Where memory was refused, or a count of owners is full.
pub fn told_after(
    alloc: Global,
    documents: &[Document<'_>],
    stages: usize,
) -> Result<Told, AllocError>
    ensures told { IfOk result (λ t. (uri : List ℕ)
        → dialects_in t.meta_schemas uri ≡ bearers.dialects (map document_of documents.now) (suc stages) uri) }
    ensures anew { IfOk result (λ t. option_map causes.circular_metaschema t.anew
        ≡ slice_get (laws.anew_after (map document_of documents.now) stages) 0) }
{
    let first = first_stage(alloc, documents)?;
    Ok(stage_after(alloc, documents, first, stages)?.told)
}

/// What documents tell of meta-schemas: the dialect of each, and one that is told anew where there are some.
///
/// It takes at most one stage more than there are members named `$schema`, and counts these where the first stage is not at rest.
///
/// # Errors
///
/// Where memory was refused, a count of owners is full, or a `usize` does not count the members named `$schema` where that is asked.
pub fn meta_schemas(alloc: Global, documents: &[Document<'_>]) -> Result<Told, AllocError>
    ensures told { IfOk result (λ t. (uri : List ℕ)
        → dialects_in t.meta_schemas uri ≡ bearers.meta (map document_of documents.now) uri) }
    ensures anew { IfOk result (λ t. option_map causes.circular_metaschema t.anew
        ≡ slice_get (causes.told_anew (map document_of documents.now)) 0) }
    ensures rests { IfOk result (λ t. t.anew ≡ None → causes.told_anew (map document_of documents.now) ≡ []) }
{
    Ok(last_stage(alloc, documents)?.told)
}

// All that documents tell of meta-schemas, and their schema places under that.
pub(crate) fn told_stage<'d>(
    alloc: Global,
    documents: &'d [Document<'_>],
) -> Result<Stage<'d>, AllocError>
    ensures told { IfOk result (λ s. Tells s.told.meta_schemas (bearers.meta (map document_of documents.now))) }
    ensures anew { IfOk result (λ s. option_map causes.circular_metaschema s.told.anew
        ≡ slice_get (causes.told_anew (map document_of documents.now)) 0) }
    ensures places { IfOk result (λ s. AreTold (map document_of documents.now) s.places.items) }
{
    let Stage { told, places } = last_stage(alloc, documents)?;
    if told.anew.is_none() {
        return Ok(Stage { told, places });
    }
    let places = standings(alloc, &told.meta_schemas, documents)?;
    Ok(Stage { told, places })
}

/// The schema places of documents under all that they tell of meta-schemas, in the order of [`standings`].
///
/// They are those of the last stage where that is at rest, and cost what [`meta_schemas`] costs. Only where a meta-schema is told anew
/// they are found once more.
///
/// # Errors
///
/// As [`meta_schemas`].
pub fn told_standings<'d>(
    alloc: Global,
    documents: &'d [Document<'_>],
) -> Result<Vec<Standing<'d>>, AllocError>
    ensures { IfOk result (λ v. AreTold (map document_of documents.now) v.items) }
{
    Ok(told_stage(alloc, documents)?.places)
}
