//! Retrievers of values with whole numbers alone.

ghost use Rattle.std.specs.Prelude.{◌≡◌};
ghost use Rattle.schema_registries.specs.Retrieval.{may_answer_whole, may_refuse_whole};

use crate::numbers::has_only_whole;
use document_sources::Retrieve;
use document_sources::error::RetrieveError;
use serde_json::Value;
use std::alloc::Global;
use uri_references::uri::Uri;

/// Gives what another retriever gives, and refuses a value in which some number is no whole number of 64 bits, from -2^63 to 2^64-1.
#[derive(Clone, Copy, Debug, Default, PartialEq, Eq)]
pub struct WholeNumbers<R> {
    retriever: R,
}

impl<R> WholeNumbers<R> {
    /// Around this retriever.
    pub fn new(retriever: R) -> WholeNumbers<R>
        ensures { result.retriever ≡ retriever }
    {
        WholeNumbers { retriever }
    }
}

impl<R: Retrieve> Retrieve for WholeNumbers<R> {
    ghost may_answer = { may_answer_whole R.may_answer };

    ghost may_refuse = { may_refuse_whole R.may_answer R.may_refuse };

    // A value is walked once for its numbers, up to the first other one.
    fn retrieve(&self, alloc: Global, uri: &Uri) -> Result<Value, RetrieveError> {
        let value = self.retriever.retrieve(alloc, uri)?;
        if has_only_whole(&value) {
            Ok(value)
        } else {
            Err(RetrieveError::Refused)
        }
    }
}
