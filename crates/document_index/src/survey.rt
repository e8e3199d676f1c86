//! Surveys of documents, and what is kept of them.

ghost use Rattle.std.specs.Prelude.{◌≡◌, [], map, IfOk, OnOk, IfErr, option_map, slice_get};
ghost use Rattle.schema_definitions.specs.Bearers.{Documents};
ghost use Rattle.schema_definitions.specs.DocumentCauses as causes;
ghost use Rattle.schema_definitions.specs.DocumentCauses.{told_anew, document_causes};
ghost use Rattle.document_index.specs.Seen.{document_of};
ghost use Rattle.document_index.specs.Named.{NamesOne};
ghost use Rattle.document_index.specs.Surveys.{Surveys, Prepares};

use crate::causes::check_places;
use crate::prepared::Prepared;
use crate::told::{Stage, Told, told_stage};
use crate::{Document, Index, Standing};
use document_sources::error::Error;
use document_sources::named::circular_metaschema;
use schema_dialects::MetaSchemas;
use std::alloc::{AllocError, Global};

/// What documents tell of meta-schemas, and their schema places under all of that.
#[derive(Drop)]
pub struct Survey<'d> {
    /// The meta-schemas that they tell of, and one that is told anew where there are some.
    pub told: Told,
    /// The places in their order.
    pub places: Vec<Standing<'d>>,
    /// The index of the places.
    pub index: Index,
}

// The meta-schemas told of, where none of them is told anew.
fn told_once(alloc: Global, told: Told) -> Result<MetaSchemas, Error>
    ensures known { IfOk result (λ k. k ≡ told.meta_schemas) }
    ensures ok { OnOk result ((docs : Documents)
        → option_map causes.circular_metaschema told.anew ≡ slice_get (told_anew docs) 0 → told_anew docs ≡ []) }
    ensures refused { IfErr result (λ e. (docs : Documents)
        → option_map causes.circular_metaschema told.anew ≡ slice_get (told_anew docs) 0
        → NamesOne (told_anew docs) e) }
{
    let Told { meta_schemas, anew } = told;
    match anew {
        Some(uri) => Err(circular_metaschema(alloc, uri.as_str())),
        None => Ok(meta_schemas),
    }
}

impl<'d> Survey<'d> {
    /// The survey of documents.
    ///
    /// It costs what `meta_schemas` costs, whose schema places it takes, and what [`Index::of`] costs. Only where a meta-schema is told
    /// anew the places are found once more.
    ///
    /// # Errors
    ///
    /// As `meta_schemas`.
    pub fn of(alloc: Global, documents: &'d [Document<'_>]) -> Result<Survey<'d>, AllocError>
        ensures { IfOk result (λ s. Surveys s (map document_of documents.now)) }
    {
        let Stage { told, places } = told_stage(alloc, documents)?;
        let index = Index::of(alloc, &places)?;
        Ok(Survey {
            told,
            places,
            index,
        })
    }

    /// What is kept of the documents surveyed, where they have no cause to be refused. The places are dropped.
    ///
    /// It goes over the places once, with a look-up in a map for each `$ref`.
    ///
    /// # Errors
    ///
    /// A cause that the documents have, or want of memory.
    pub fn into_prepared(self, alloc: Global) -> Result<Prepared, Error>
        ensures ok { IfOk result (λ p. (docs : Documents) → Surveys self.entry docs → Prepares p docs) }
        ensures refused { IfErr result (λ e. (docs : Documents) → Surveys self.entry docs
            → NamesOne (document_causes docs) e) }
    {
        let Survey {
            told,
            places,
            index,
        } = self;
        let known = told_once(alloc, told)?;
        check_places(alloc, &index, &places)?;
        Ok(Prepared { known, index })
    }
}
