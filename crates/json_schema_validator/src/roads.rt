//! The three forms.

ghost use Rattle.std.specs.Prelude.{◌≡◌, true, IfOk};
ghost use Rattle.serde_json.specs.View.{view};
ghost use Rattle.schema_registries.specs.Whole.{only_whole};
ghost use Rattle.json_schema_validator.specs.Laws.{SayOne};
ghost use Rattle.json_schema_validator.specs.Roads.{RefusesBothGiven, RefusesRootGiven, IsForm};
ghost use Rattle.json_schema_validator.specs.Roads.{IsAnsweredFrom, IsInside, IsAddedBy, IsRetrievedBy};
ghost use Rattle.json_schema_validator.specs.Roads.{IsInsideBy, both_given, root_given};

use crate::forms::answer;
use crate::given::{one_document, only, two_documents};
use crate::places::{no_object, not_fresh};
use document_sources::{DefaultRetriever, MapRetriever};
use moved_documents::joining::{Joined, join};
use schema_patterns::PatternMaker;
use schema_registries::{Documents, Retrieve};
use schema_validators::{BuildError, ValidationOptions, Validator};
use serde_json::Value;
use std::alloc::{AllocError, Global};
use value_checks::rising::names_rise;

/// A root and a document that is to be moved, each with the text that it is added under, and the name that the second is put under.
#[derive(Drop)]
pub struct Moving<'d> {
    /// The text that the root is added under.
    pub root_uri: &'d str,
    /// The root.
    pub root: &'d Value,
    /// The text that the other document is added under.
    pub moved_uri: &'d str,
    /// The other document.
    pub moved: &'d Value,
    /// The name that it is put under.
    pub fresh: &'d str,
}

/// What is said of an instance in each form: the text of a line of its faults, or why the form is not built, which is never want of memory.
#[derive(Debug, Drop)]
pub struct Roads {
    /// The moved document is added beside the root.
    pub added: Result<String, BuildError>,
    /// It is answered by whom documents are asked of.
    pub retrieved: Result<String, BuildError>,
    /// It is put among the root's `$defs`.
    pub inside: Result<String, BuildError>,
}

fn answer_from<P: PatternMaker + Drop, R: Retrieve + Drop>(
    alloc: Global,
    options: &ValidationOptions<P, R>,
    documents: Result<Documents, BuildError>,
    root: &str,
    instance: &Value,
) -> Result<Result<String, BuildError>, AllocError>
    requires whole { only_whole (view instance.now) ≡ true }
    ensures { IfOk result (IsAnsweredFrom
        (P.patterns options.now.maker) R.may_answer R.may_refuse options.now documents root.now
        (view instance.now)) }
{
    match documents {
        Ok(documents) => answer(alloc, options, &documents, root, instance),
        Err(BuildError::Memory) => Err(AllocError),
        Err(error) => Ok(Err(error)),
    }
}

// Both documents are added.
fn added<P: PatternMaker + Drop, R: Retrieve + Drop>(
    alloc: Global,
    options: &ValidationOptions<P, R>,
    moving: &Moving<'_>,
    instance: &Value,
) -> Result<Result<String, BuildError>, AllocError>
    requires whole { only_whole (view instance.now) ≡ true }
    ensures { IfOk result (IsForm (P.patterns options.now.maker) R.may_answer R.may_refuse options.now
        (both_given moving.now) (RefusesBothGiven moving.now) moving.now.root_uri.now (view instance.now)) }
{
    let documents = two_documents(
        alloc,
        moving.root_uri,
        moving.root,
        moving.moved_uri,
        moving.moved,
    );
    answer_from(alloc, options, documents, moving.root_uri, instance)
}

// The root alone is added.
fn alone<P: PatternMaker + Drop, R: Retrieve + Drop>(
    alloc: Global,
    options: &ValidationOptions<P, R>,
    moving: &Moving<'_>,
    instance: &Value,
) -> Result<Result<String, BuildError>, AllocError>
    requires whole { only_whole (view instance.now) ≡ true }
    ensures { IfOk result (IsForm (P.patterns options.now.maker) R.may_answer R.may_refuse options.now
        (root_given moving.now) (RefusesRootGiven moving.now) moving.now.root_uri.now (view instance.now)) }
{
    let documents = one_document(alloc, moving.root_uri, moving.root);
    answer_from(alloc, options, documents, moving.root_uri, instance)
}

// The root is added with the other inside, where there is room.
fn inside<P: PatternMaker + Drop, R: Retrieve + Drop>(
    alloc: Global,
    options: &ValidationOptions<P, R>,
    moving: &Moving<'_>,
    instance: &Value,
) -> Result<Result<String, BuildError>, AllocError>
    requires whole { only_whole (view instance.now) ≡ true }
    ensures { IfOk result (IsInside
        (P.patterns options.now.maker) R.may_answer R.may_refuse options.now moving.now (view instance.now)) }
{
    match join(alloc, moving.root, moving.moved, moving.fresh)? {
        Joined::Whole(whole) => {
            let documents = one_document(alloc, moving.root_uri, &whole);
            answer_from(alloc, options, documents, moving.root_uri, instance)
        }
        Joined::NoObject => Ok(Err(no_object(alloc, moving.root_uri, moving.root)?)),
        Joined::NotFresh => Ok(Err(not_fresh(alloc, moving.root_uri, moving.root)?)),
    }
}

/// What is said of an instance by a root where another document is added beside it, retrieved for it, or put inside it.
///
/// The instance's numbers are whole numbers of 64 bits, as `has_only_whole` tells. Three validators are built, by the options that stand
/// until it is said otherwise, and each document is copied for each form that it is in.
///
/// Where the moved document can be moved, nothing is borne twice in any form, the matches that the instance asks for finish and no references come
/// back, the texts are one: with it added and inside, and retrieved where the root by itself wants a document, or leaves the moved one out.
///
/// # Errors
///
/// Where memory was refused.
pub fn same_on_three_roads<P: PatternMaker + Drop>(
    alloc: Global,
    maker: P,
    moving: &Moving<'_>,
    instance: &Value,
) -> Result<Roads, AllocError>
    requires whole { only_whole (view instance.now) ≡ true }
    ensures added { IfOk result (λ r. IsAddedBy
        (P.patterns maker) ⟦<DefaultRetriever as Retrieve>⟧.may_answer ⟦<DefaultRetriever as Retrieve>⟧.may_refuse maker moving.now (view instance.now) r.added) }
    ensures retrieved { IfOk result (λ r. IsRetrievedBy
        (P.patterns maker) ⟦<MapRetriever as Retrieve>⟧.may_answer ⟦<MapRetriever as Retrieve>⟧.may_refuse maker moving.now (view instance.now) r.retrieved) }
    ensures inside { IfOk result (λ r. IsInsideBy
        (P.patterns maker) ⟦<DefaultRetriever as Retrieve>⟧.may_answer ⟦<DefaultRetriever as Retrieve>⟧.may_refuse maker moving.now (view instance.now) r.inside) }
    ensures same { IfOk result (SayOne (P.patterns maker) moving.now (view instance.now)) }
{
    names_rise(moving.root);
    let options = Validator::options(alloc)?.with_pattern_maker(maker);
    let added = added(alloc, &options, moving, instance)?;
    let inside = inside(alloc, &options, moving, instance)?;
    let asked = only(alloc, moving.moved_uri, moving.moved)?;
    let options = options.with_retriever(asked);
    let retrieved = alone(alloc, &options, moving, instance)?;
    Ok(Roads {
        added,
        retrieved,
        inside,
    })
}
