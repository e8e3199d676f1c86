//! What a retriever does.

ghost use Rattle.std.specs.Prelude.{ℕ, List, IfOk, IfErr};
ghost use Rattle.serde_json.specs.Data.{Data};
ghost use Rattle.serde_json.specs.View.{view};
ghost use Rattle.document_sources.specs.Causes.{IsRefusal};

use crate::error::RetrieveError;
use serde_json::Value;
use std::alloc::Global;
use uri_references::uri::Uri;

/// Gives the documents that are asked for by their URIs.
pub trait Retrieve {
    // What may be answered for a URI: anything, unless an implementation says more.
    ghost may_answer: { Self → List ℕ → Data → Type 0 } = { λ _ uri document. Unit {0} };
    // Whether a URI may be refused: each, unless an implementation says more.
    ghost may_refuse: { Self → List ℕ → Type 0 } = { λ _ uri. Unit {0} };

    /// The document of that URI.
    ///
    /// # Errors
    ///
    /// Where the retriever refuses, or where memory was refused.
    fn retrieve(&self, alloc: Global, uri: &Uri) -> Result<Value, RetrieveError>
        ensures answered { IfOk result (λ v. may_answer self.now uri.now (view v)) }
        ensures may_be_refused { IfErr result (λ e. IsRefusal e → may_refuse self.now uri.now) };
}
