//! Why documents are refused.

ghost use Rattle.std.specs.Prelude.{◌≡◌, IfOk, string_bytes};
ghost use Rattle.schema_registries.specs.Described.{joined as joined_texts};

use schema_steps::Path;
use std::alloc::{AllocError, Global};
use std::error::Error;
use std::fmt;
use uri_references::error::UriError;

/// Why a document is refused.
#[derive(Debug, Drop)]
pub enum DocumentError {
    /// A text that is no URI reference, or has a fragment that is not empty.
    InvalidUri(UriError),
    /// Bytes that are no JSON text (RFC 8259), for the document of this URI, with the line and the byte of it, both counted from 1, at
    /// which they cannot be read on. Where they end too early, it is the last byte, or the quote that begins a text that is not ended.
    JsonText {
        uri: String,
        line: usize,
        column: usize,
    },
    /// A number that is no whole number from -2^63 to 2^64-1: the URI of its document, its path there, and the number as JSON.
    OtherNumber {
        document: String,
        path: Path,
        found: String,
    },
    /// Memory was refused.
    Memory,
}

impl From<AllocError> for DocumentError {
    ghost use Rattle.schema_registries.specs.declared.error.DocumentError.TheVariants.{Memory};

    ghost from_gives = { λ _ e. e ≡ Memory };

    fn from(_error: AllocError) -> DocumentError {
        DocumentError::Memory
    }
}

impl fmt::Display for DocumentError {
    fn fmt<W: fmt::Write>(&self, f: &mut fmt::Formatter<W>) -> fmt::Result {
        match self {
            DocumentError::InvalidUri(error) => write!(f, "{error}"),
            DocumentError::JsonText { uri, .. } => write!(f, "Document '{uri}' is no JSON text"),
            DocumentError::OtherNumber { document, path, .. } => write!(
                f,
                "Number at '{document}#{path}' is no whole number of 64 bits"
            ),
            DocumentError::Memory => f.write_str("No memory"),
        }
    }
}

impl Error for DocumentError {}

impl DocumentError {
    ghost use Rattle.schema_registries.specs.Described.{description_of};

    /// What is wrong, as a sentence with no full stop: the text that is no URI, or the document and the place in it. The error comes
    /// where memory is out.
    pub fn description(&self, alloc: Global) -> Result<String, AllocError>
        ensures { IfOk result (λ text. string_bytes text ≡ description_of self.now) }
    {
        match self {
            DocumentError::InvalidUri(UriError::Parse { uri } | UriError::Resolve { uri, .. }) => {
                joined(
                    alloc,
                    &["The text '", uri.as_str(), "' is no URI of a document"],
                )
            }
            DocumentError::JsonText { uri, line, column } => {
                let line = line.to_string(alloc)?;
                let column = column.to_string(alloc)?;
                joined(
                    alloc,
                    &[
                        "The document '",
                        uri.as_str(),
                        "' is no JSON text, from line ",
                        line.as_str(),
                        ", column ",
                        column.as_str(),
                        " on",
                    ],
                )
            }
            DocumentError::OtherNumber {
                document,
                path,
                found,
            } => {
                let pointer = path.to_pointer(alloc)?;
                joined(
                    alloc,
                    &[
                        "The number ",
                        found.as_str(),
                        " at '",
                        document.as_str(),
                        "#",
                        pointer.as_str(),
                        "' is no whole number from -2^63 to 2^64-1",
                    ],
                )
            }
            DocumentError::Memory => String::from_str(alloc, "No memory"),
        }
    }
}

/// Texts one after another. The error comes where memory is out.
pub fn joined(alloc: Global, parts: &[&str]) -> Result<String, AllocError>
    ensures { IfOk result (λ text. string_bytes text ≡ joined_texts parts.now) }
{
    let mut text = String::new(alloc);
    for part in parts {
        text.push_str(part)?;
    }
    Ok(text)
}
