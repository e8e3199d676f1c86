//! Documents asked for by rounds.

ghost use Rattle.std.specs.Prelude.{◌≡◌, ◌⊎◌, [], ◌∷◌, map, true, IfOk, IfErr};
ghost use Rattle.schema_definitions.specs.DocumentCauses.{document_causes};
ghost use Rattle.document_index.specs.Seen.{document_of};
ghost use Rattle.document_index.specs.Named.{NamesOne};
ghost use Rattle.document_index.specs.Surveys.{Prepares};
ghost use Rattle.document_sources.specs.Causes.{IsMemory};
ghost use Rattle.document_sources.specs.Seen.{layer_of};
ghost use Rattle.schema_definitions.specs.Rounds.{wants, none_twice};
ghost use Rattle.document_retrieval.specs.Stages.{asking, documents_in, uris_in, IsGathered, AnswersNothing};
ghost use Rattle.document_retrieval.specs.Gathered.{IsFound, RefusesAll};

use crate::round::push_round;
use crate::wants::{Want, wants_of};
use document_index::document::Document;
use document_index::prepared::Prepared;
use document_index::survey::Survey;
use document_sources::Retrieve;
use document_sources::error::Error;
use document_sources::layer::Layer;
use std::alloc::Global;
use std::rc::Rc;
use uri_references::uri::Uri;

/// Documents, and those among them that were retrieved.
#[derive(Drop)]
pub struct Retrieved<'a> {
    /// Those that were given, and behind them the answers in their order.
    pub documents: Vec<Document<'a>>,
    /// The URIs that the retriever answered, in order, each once.
    pub uris: Vec<Rc<Uri>>,
}

/// Documents with all that they want, and what is kept of them.
#[derive(Drop)]
pub struct Gathered<'a> {
    /// The documents, and those among them that were retrieved.
    pub retrieved: Retrieved<'a>,
    /// What is kept of them.
    pub prepared: Prepared,
}

// What is found of documents: what they want, or, where they want nothing, what is kept of them.
#[derive(Drop)]
enum Found {
    Wants(Vec<Want>),
    Nothing(Prepared),
}

// A cause that documents have is told only where they want nothing.
fn found_of(alloc: Global, documents: &[Document<'_>]) -> Result<Found, Error>
    ensures ok { IfOk result (IsFound (map document_of documents.now)) }
    ensures refused { IfErr result (NamesOne (document_causes (map document_of documents.now))) }
    ensures complete { IfErr result (λ e. IsMemory e ⊎ (wants (map document_of documents.now) ≡ [])) }
{
    let survey = Survey::of(alloc, documents)?;
    let wants = wants_of(alloc, documents, &survey)?;
    if !wants.is_empty() {
        return Ok(Found::Wants(wants));
    }
    Ok(Found::Nothing(survey.into_prepared(alloc)?))
}

/// The documents with all that they want and is not at hand, and with what that wants in turn, and what is kept of them, where they have no
/// cause to be refused.
///
/// All documents are surveyed, then what they want is asked for in the order met, each URI once; then their answers are surveyed with
/// them, until nothing is wanted any more. An answer is of the layer, and is read by the layer's draft where it names none. There is one
/// survey for each round, and what is kept comes from the last: where nothing is retrieved, the schema places are found once, and more often
/// only where the documents name meta-schemas of their own.
///
/// # Errors
///
/// Where the retriever refuses what is wanted, where more is wanted than the limit, or where memory was refused; and once nothing is wanted
/// any more, a cause that the documents have.
pub fn prepare_wanted<'a, R: Retrieve>(
    alloc: Global,
    documents: Vec<Document<'a>>,
    layer: Layer,
    retriever: &R,
    limit: u64,
) -> Result<Gathered<'a>, Error>
    ensures ok { IfOk result (λ g. IsGathered
        (asking R.may_answer R.may_refuse retriever.now (layer_of layer)) limit
        (map document_of documents.entry.items) (documents_in g.retrieved) (uris_in g.retrieved)) }
    ensures alone { IfOk result (λ g. AnswersNothing
        (asking R.may_answer R.may_refuse retriever.now (layer_of layer))
        → (documents_in g.retrieved ≡ map document_of documents.entry.items) × (uris_in g.retrieved ≡ [])) }
    ensures once { IfOk result (λ g. none_twice (uris_in g.retrieved) ≡ true) }
    ensures complete { IfOk result (λ g. wants (documents_in g.retrieved) ≡ []) }
    ensures prepared { IfOk result (λ g. Prepares g.prepared (documents_in g.retrieved)) }
    ensures refused { IfErr result (RefusesAll
        (asking R.may_answer R.may_refuse retriever.now (layer_of layer)) limit
        (map document_of documents.entry.items)) }
{
    let mut gathered = Retrieved {
        documents,
        uris: Vec::new(alloc),
    };
    loop {
        match found_of(alloc, &gathered.documents)? {
            Found::Wants(wants) => {
                push_round(alloc, &mut gathered, &wants, layer, retriever, limit)?;
            }
            Found::Nothing(prepared) => {
                return Ok(Gathered {
                    retrieved: gathered,
                    prepared,
                });
            }
        }
    }
}
