//! Registries of meta-schemas.

ghost use Rattle.std.specs.Prelude.{◌≡◌, ◌⊎◌, [], List, false, Some, IfOk, IfErr, IsTrue};
ghost use Rattle.std.specs.Iterator.{IsFiniteIterable, Drains, YieldsThen};
ghost use Rattle.schema_definitions.specs.DocumentCauses.{document_causes};
ghost use Rattle.document_sources.specs.Uris.{RefusesUri};
ghost use Rattle.document_index.specs.Named.{NamesOne};
ghost use Rattle.referencing.specs.Built.{are_document_uris, specified_by};
ghost use Rattle.referencing.specs.Seen.{documents_of, retrieved_by};

use crate::builder::RegistryBuilder;
use crate::registry::Registry;
use document_retrieval::given::with_drafts;
use document_sources::error::Error;
use document_sources::layer::Layer;
use document_sources::resource::IntoRegistryResource;
use std::alloc::Global;
use std::convert::AsStr;

impl<'a> Registry<'a> {
    /// The registry of meta-schemas, pairs of a URI and a document in their order, as [`RegistryBuilder::extend`] adds them. One that
    /// names no draft is read by 2020-12, and what stands beside `$ref` is not read in Drafts 6 and 7. Nothing is retrieved: what they refer to is among them.
    ///
    /// It costs what [`RegistryBuilder::extend`] and [`Registry::of`] cost.
    ///
    /// # Errors
    ///
    /// Those of [`RegistryBuilder::extend`] at the first pair that is refused, and else a cause that the documents have: a document that
    /// they refer to and that is not among them is one. Nothing of the registry is left then.
    pub fn from_meta_schemas<
        U: AsStr + Drop,
        R: IntoRegistryResource<'a> + Drop,
        I: IntoIterator<Item = (U, R)>,
    >(alloc: Global, pairs: I) -> Result<Registry<'a>, Error>
    where
        I::IntoIter: Drop,
        requires { IsFiniteIterable I.into_iter_gives I.IntoIter.can_next I.IntoIter.remaining pairs }
        ensures ok { IfOk result (λ r. (it : I.IntoIter) × (xs : List (U × R)) × I.into_iter_gives pairs it
            × Drains I.IntoIter.next_gives it xs × IsTrue (are_document_uris U.text xs)
            × (documents_of r ≡ specified_by U.text R.contents R.draft xs)) }
        ensures siblings { IfOk result (λ r. r.siblings ≡ false) }
        ensures alone { IfOk result (λ r. retrieved_by r ≡ []) }
        ensures accepted { IfOk result (λ r. document_causes (documents_of r) ≡ []) }
        ensures refused { IfErr result (λ e. ((it : I.IntoIter) × (before : List (U × R)) × (x : U × R)
            × (rest : I.IntoIter) × I.into_iter_gives pairs it
            × YieldsThen I.IntoIter.next_gives it before (Some x) rest × IsTrue (are_document_uris U.text before)
            × RefusesUri (U.text x.0) e) ⊎ ((it : I.IntoIter) × (xs : List (U × R)) × I.into_iter_gives pairs it
            × Drains I.IntoIter.next_gives it xs
            × NamesOne (document_causes (specified_by U.text R.contents R.draft xs)) e)) }
    {
        let (given, draft) = RegistryBuilder::new(alloc).extend(pairs)?.into_parts();
        let layer = Layer {
            number: 0,
            draft,
            siblings: false,
        };
        Registry::of(alloc, false, with_drafts(alloc, given, layer)?)
    }
}
