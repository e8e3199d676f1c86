//! Registries that begin with the documents of another.

ghost use Rattle.std.specs.Prelude.{◌≡◌, ◌⊎◌, List, [], ◌∷◌, Some, IfOk, IfErr, OnOk, IsTrue};
ghost use Rattle.std.specs.Iterator.{IsFiniteIterable, Drains, YieldsThen};
ghost use Rattle.schema_drafts.specs.Drafts.{newest};
ghost use Rattle.document_sources.specs.Causes.{IsMemory};
ghost use Rattle.document_sources.specs.Uris.{is_document_uri, RefusesUri};
ghost use Rattle.referencing.specs.Built.{given_in, given_by, are_document_uris, Adds, IsChildOf};

use crate::builder::RegistryBuilder;
use crate::registry::Registry;
use document_retrieval::given::shared_again;
use document_sources::error::Error;
use document_sources::resource::IntoRegistryResource;
use std::alloc::{AllocError, Global};
use std::convert::AsStr;

impl<'a> Registry<'a> {
    // A builder that begins with the registry.
    fn begin(&self) -> Result<RegistryBuilder<'a>, AllocError>
        ensures child { IfOk result (IsChildOf self.now) }
        ensures documents { IfOk result (λ b. given_in b ≡ []) }
        ensures draft { IfOk result (λ b. b.draft ≡ newest) }
        ensures limit { IfOk result (λ b. b.limit ≡ 256) }
    {
        let documents = shared_again(self.alloc, &self.documents)?;
        Ok(RegistryBuilder {
            siblings: self.siblings,
            parent: Some(documents),
            ..RegistryBuilder::new(self.alloc)
        })
    }

    /// A builder that begins with the documents of this registry, those that were retrieved among them, and one of its own, as
    /// [`RegistryBuilder::add`] adds it. Under the URI of one of them it does not take its place: both are there, and what the own one
    /// bears counts before what the other does. What stands beside `$ref` is read as in this registry, which stays as it is.
    ///
    /// No URI is copied, and no document that was lent or shared, as those are that a builder prepared: each has one more owner.
    ///
    /// # Errors
    ///
    /// Those of [`RegistryBuilder::add`].
    pub fn add<R: IntoRegistryResource<'a> + Drop>(
        &self,
        uri: &str,
        resource: R,
    ) -> Result<RegistryBuilder<'a>, Error>
        ensures ok { IfOk result (λ b. given_in b ≡ given_by R.contents R.draft uri.now resource ∷ []) }
        ensures child { IfOk result (IsChildOf self.now) }
        ensures draft { IfOk result (λ b. b.draft ≡ newest) }
        ensures limit { IfOk result (λ b. b.limit ≡ 256) }
        ensures accepted { OnOk result (IsTrue (is_document_uri uri.now)) }
        ensures refused { IfErr result (RefusesUri uri.now) }
    {
        let builder = self.begin()?.add(uri, resource)?;
        Ok(builder)
    }

    /// The same with pairs of a URI and a document in their order, as [`RegistryBuilder::extend`] adds them.
    ///
    /// # Errors
    ///
    /// Those of [`Registry::add`] at the first pair that is refused.
    pub fn extend<
        U: AsStr + Drop,
        R: IntoRegistryResource<'a> + Drop,
        I: IntoIterator<Item = (U, R)> + Drop,
    >(&self, pairs: I) -> Result<RegistryBuilder<'a>, Error>
    where
        I::IntoIter: Drop,
        requires { IsFiniteIterable I.into_iter_gives I.IntoIter.can_next I.IntoIter.remaining pairs }
        ensures ok { IfOk result (λ b. (it : I.IntoIter) × (xs : List (U × R)) × I.into_iter_gives pairs it
            × Drains I.IntoIter.next_gives it xs × Adds U.text R.contents R.draft [] xs (given_in b)) }
        ensures child { IfOk result (IsChildOf self.now) }
        ensures draft { IfOk result (λ b. b.draft ≡ newest) }
        ensures limit { IfOk result (λ b. b.limit ≡ 256) }
        ensures refused { IfErr result (λ e. IsMemory e ⊎
            ((it : I.IntoIter) × (before : List (U × R)) × (x : U × R) × (rest : I.IntoIter)
            × I.into_iter_gives pairs it × YieldsThen I.IntoIter.next_gives it before (Some x) rest
            × IsTrue (are_document_uris U.text before) × RefusesUri (U.text x.0) e)) }
    {
        let builder = self.begin()?.extend(pairs)?;
        Ok(builder)
    }
}
