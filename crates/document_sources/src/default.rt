//! The retriever that refuses all.

ghost use Rattle.std.specs.Prelude.{◌≡◌, IfOk, Err};
ghost use Rattle.document_sources.specs.declared.error.RetrieveError.TheVariants.{Refused};

use crate::error::RetrieveError;
use crate::retrieve::Retrieve;
use serde_json::Value;
use std::alloc::Global;
use uri_references::uri::Uri;

/// Refuses each document.
#[derive(Clone, Copy, Debug, Default, PartialEq, Eq)]
pub struct DefaultRetriever;

impl Retrieve for DefaultRetriever {
    ghost may_answer = { λ _ uri document. ⊥ };

    ghost may_refuse = { λ _ uri. Unit {0} };

    fn retrieve(&self, _alloc: Global, _uri: &Uri) -> Result<Value, RetrieveError>
        ensures nothing { IfOk result (λ v. ⊥) }
        ensures refused { result ≡ Err Refused }
    {
        Err(RetrieveError::Refused)
    }
}
