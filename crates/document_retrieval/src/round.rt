//! One round of retrieval.

ghost use Rattle.std.specs.Prelude.{◌≡◌, ◌⊎◌, ◌++◌, ◌∷◌, [], map, IfOk, IfErr, OnOk};
ghost use Rattle.serde_json.specs.View.{view};
ghost use Rattle.document_index.specs.Seen.{document_of, contents_view};
ghost use Rattle.document_sources.specs.Causes.{IsMemory, IsRefusal, NamesDocument};
ghost use Rattle.document_sources.specs.Seen.{layer_of};
ghost use Rattle.document_retrieval.specs.Known.{want_of};
ghost use Rattle.document_retrieval.specs.Stages.{asking, documents_in, uris_in, IsAnswer, HasAnswer, Adds};
ghost use Rattle.document_retrieval.specs.Stages.{RefusesWant, RefusesRound};

use crate::rounds::Retrieved;
use crate::wants::{Purpose, Want};
use document_index::document::{Contents, Document, DocumentName};
use document_sources::Retrieve;
use document_sources::error::{Error, RetrieveError};
use document_sources::layer::Layer;
use document_sources::named::{not_retrieved, unknown_specification};
use schema_dialects::Dialect;
use serde_json::Value;
use std::alloc::{AllocError, Global};
use std::rc::Rc;
use uri_references::uri::Uri;

// What documents are refused for where nobody gives the one that is wanted.
fn refusal(alloc: Global, want: &Want, source: RetrieveError) -> Error
    requires { IsRefusal source }
    ensures { IsMemory result ⊎ NamesDocument (want_of want.now).cause result }
{
    match want.purpose {
        Purpose::Reference => not_retrieved(alloc, want.uri.as_str(), source),
        Purpose::MetaSchema => unknown_specification(alloc, want.uri.as_str()),
    }
}

// An answer, shared from the first.
fn shared<'a>(alloc: Global, value: Value) -> Result<Contents<'a>, AllocError>
    ensures { IfOk result (λ c. contents_view c ≡ view value) }
{
    Ok(Contents::Shared(Rc::new(alloc, value)?))
}

fn answer_to<'a, R: Retrieve>(
    alloc: Global,
    want: &Want,
    layer: Layer,
    retriever: &R,
) -> Result<Document<'a>, Error>
    ensures ok { IfOk result (λ d. IsAnswer (asking R.may_answer R.may_refuse retriever.now (layer_of layer))
        (want_of want.now) (document_of d)) }
    ensures refused { IfErr result (λ e. IsMemory e ⊎ RefusesWant
        (asking R.may_answer R.may_refuse retriever.now (layer_of layer)) (want_of want.now) e) }
{
    match retriever.retrieve(alloc, &want.uri) {
        Ok(value) => Ok(Document {
            name: DocumentName {
                layer: layer.number,
                uri: want.uri.clone()?,
            },
            contents: shared(alloc, value)?,
            default: Dialect::standard(layer.siblings, layer.draft),
        }),
        Err(error) => match error {
            RetrieveError::Memory => Err(Error::Memory),
            source => Err(refusal(alloc, want, source)),
        },
    }
}

// A document and its URI, behind the others.
fn keep<'a>(
    gathered: &mut Retrieved<'a>,
    document: Document<'a>,
    uri: Rc<Uri>,
) -> Result<(), AllocError>
    ensures documents { OnOk result (documents_in gathered.new ≡ documents_in gathered.old
        ++ document_of document.entry ∷ []) }
    ensures uris { OnOk result (uris_in gathered.new ≡ uris_in gathered.old ++ uri.value ∷ []) }
{
    gathered.documents.push(document)?;
    gathered.uris.push(uri)?;
    Ok(())
}

// The answer to one want, behind the documents.
fn push_answer<R: Retrieve>(
    alloc: Global,
    gathered: &mut Retrieved<'_>,
    want: &Want,
    layer: Layer,
    retriever: &R,
) -> Result<(), Error>
    ensures ok { OnOk result (HasAnswer (asking R.may_answer R.may_refuse retriever.now (layer_of layer))
        (want_of want.now) gathered.old gathered.new) }
    ensures refused { IfErr result (λ e. IsMemory e ⊎ RefusesWant
        (asking R.may_answer R.may_refuse retriever.now (layer_of layer)) (want_of want.now) e) }
{
    let document = answer_to(alloc, want, layer, retriever)?;
    keep(gathered, document, want.uri.clone()?)?;
    Ok(())
}

/// The answers to all that is wanted, behind the documents, where no more are retrieved than the limit.
///
/// # Errors
///
/// Where more are wanted, where the retriever refuses one, or where memory was refused.
pub fn push_round<R: Retrieve>(
    alloc: Global,
    gathered: &mut Retrieved<'_>,
    wants: &[Want],
    layer: Layer,
    retriever: &R,
    limit: u64,
) -> Result<(), Error>
    ensures ok { OnOk result (Adds (asking R.may_answer R.may_refuse retriever.now (layer_of layer)) limit
        (map want_of wants.now) gathered.old gathered.new) }
    ensures refused { IfErr result (λ e. IsMemory e ⊎ RefusesRound
        (asking R.may_answer R.may_refuse retriever.now (layer_of layer)) limit
        (map want_of wants.now) gathered.old e) }
{
    if wants.len() as u64 > limit.saturating_sub(gathered.uris.len() as u64) {
        return Err(Error::RetrievalLimit { limit });
    }
    for want in wants {
        push_answer(alloc, gathered, want, layer, retriever)?;
    }
    Ok(())
}
