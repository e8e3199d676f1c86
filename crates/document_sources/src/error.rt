//! Errors.

ghost use Rattle.std.specs.Prelude.{◌≡◌};

use std::alloc::AllocError;
use thiserror::Error;
use uri_references::error::Error as UriReferenceError;
pub use uri_references::error::UriError;

/// Why a retriever gives no document.
#[derive(Debug, Drop, PartialEq, Eq, Error)]
pub enum RetrieveError {
    /// The retriever refused, or nobody was asked.
    #[error("Retrieving was refused")]
    Refused,
    /// The retriever refused, and says why.
    #[error("Retrieving was refused: {text}")]
    Failed { text: String },
    /// Memory was refused.
    #[error("No memory")]
    Memory,
}

/// What a call refuses, with the texts that it names.
#[derive(Debug, Drop, Error)]
pub enum Error {
    /// A document, or a place of one, that nobody bears.
    #[error("Resource '{uri}' is not present and retrieving it failed")]
    Unretrievable { uri: String, source: RetrieveError },
    /// A pointer to a member or an item that is not there, or into a scalar (RFC 6901, section 7).
    #[error("Pointer '{pointer}' does not exist")]
    PointerToNowhere { pointer: String },
    /// A pointer of which the decoded bytes are no text.
    #[error("Invalid percent encoding in pointer '{pointer}': the decoded bytes do not represent valid UTF-8")]
    InvalidPercentEncoding { pointer: String },
    /// A part of a pointer that is no index, where an array stands (RFC 6901, section 4).
    #[error("Invalid array index '{index}' in pointer '{pointer}'")]
    InvalidArrayIndex { pointer: String, index: String },
    /// An anchor that no schema bears under the base (Core 8.2.2).
    #[error("Anchor '{anchor}' does not exist")]
    NoSuchAnchor { anchor: String },
    /// An anchor with a `/` in it.
    #[error("Anchor '{anchor}' is invalid")]
    InvalidAnchor { anchor: String },
    /// A text that is no URI reference (RFC 3986, section 4.1).
    #[error(transparent)]
    InvalidUri(UriError),
    /// A `$schema` that names no known meta-schema (Core 8.1.1).
    #[error("Unknown meta-schema '{specification}'")]
    UnknownSpecification { specification: String },
    /// Meta-schemas each of which waits for another.
    #[error("Circular meta-schema '{uri}'")]
    CircularMetaschema { uri: String },
    /// More documents are wanted than may be retrieved.
    #[error("More than {limit} documents wanted")]
    RetrievalLimit { limit: u64 },
    /// Memory was refused.
    #[error("No memory")]
    Memory,
}

impl From<AllocError> for Error {
    ghost use Rattle.document_sources.specs.declared.error.Error.TheVariants.{Memory};

    ghost from_gives = { λ _ e. e ≡ Memory };

    fn from(_error: AllocError) -> Error {
        Error::Memory
    }
}

impl From<UriReferenceError> for Error {
    ghost use Rattle.document_sources.specs.Causes.{reference_error};

    ghost from_gives = { λ error e. e ≡ reference_error error };

    fn from(error: UriReferenceError) -> Error {
        match error {
            UriReferenceError::InvalidUri(error) => Error::InvalidUri(error),
            UriReferenceError::Memory => Error::Memory,
        }
    }
}

impl Error {
    ghost use Rattle.document_sources.specs.declared.error.Error.TheVariants as error;

    /// A `$schema` that names no known meta-schema.
    pub fn unknown_specification(specification: String) -> Error
        ensures { result ≡ error.UnknownSpecification specification }
    {
        Error::UnknownSpecification { specification }
    }

    /// A meta-schema that waits for itself.
    pub fn circular_metaschema(uri: String) -> Error
        ensures { result ≡ error.CircularMetaschema uri }
    {
        Error::CircularMetaschema { uri }
    }

    /// A document that nobody bears, and why it was not retrieved.
    pub fn unretrievable(uri: String, source: RetrieveError) -> Error
        ensures { result ≡ error.Unretrievable uri source }
    {
        Error::Unretrievable { uri, source }
    }
}
