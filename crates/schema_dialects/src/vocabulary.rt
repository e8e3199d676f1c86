//! Vocabularies and their URIs.

ghost use Rattle.std.specs.Prelude.{◌≡◌, IsTrue, IfOk, IfErr, OnOk, false, map, option_map, unwrap_or};
ghost use Rattle.uri_grammar.specs.Parts.{split};
ghost use Rattle.uri_grammar.specs.Grammar as grammar;
ghost use Rattle.schema_definitions.specs.Passed.{Refuses};
ghost use Rattle.schema_drafts.specs.Vocabularies as spec;
ghost use Rattle.schema_dialects.specs.Named.{known_of, vocabulary_of};

use schema_definitions::{Error, UriError};
use std::alloc::{AllocError, Global};
use uri_grammar::grammar::is_uri;

/// A vocabulary: one that Draft 2019-09 or 2020-12 knows, under its URI in either, or a custom one, which holds its URI as it was
/// spelled. Vocabularies compare in the order in which they stand here, and custom ones by their texts.
#[derive(Debug, PartialEq, Eq, PartialOrd, Ord, Hash, Drop)]
pub enum Vocabulary {
    Core,
    Applicator,
    Unevaluated,
    Validation,
    Metadata,
    Format,
    FormatAnnotation,
    FormatAssertion,
    Content,
    Custom(String),
}

// A vocabulary that a draft knows.
#[derive(Clone, Copy)]
pub(crate) enum Known {
    Core,
    Applicator,
    Unevaluated,
    Validation,
    Metadata,
    Format,
    FormatAnnotation,
    FormatAssertion,
    Content,
}

pub(crate) const KNOWN_URIS: [(&str, Known); 14] = [
    (
        "https://json-schema.org/draft/2019-09/vocab/core",
        Known::Core,
    ),
    (
        "https://json-schema.org/draft/2019-09/vocab/applicator",
        Known::Applicator,
    ),
    (
        "https://json-schema.org/draft/2019-09/vocab/validation",
        Known::Validation,
    ),
    (
        "https://json-schema.org/draft/2019-09/vocab/meta-data",
        Known::Metadata,
    ),
    (
        "https://json-schema.org/draft/2019-09/vocab/format",
        Known::Format,
    ),
    (
        "https://json-schema.org/draft/2019-09/vocab/content",
        Known::Content,
    ),
    (
        "https://json-schema.org/draft/2020-12/vocab/core",
        Known::Core,
    ),
    (
        "https://json-schema.org/draft/2020-12/vocab/applicator",
        Known::Applicator,
    ),
    (
        "https://json-schema.org/draft/2020-12/vocab/unevaluated",
        Known::Unevaluated,
    ),
    (
        "https://json-schema.org/draft/2020-12/vocab/validation",
        Known::Validation,
    ),
    (
        "https://json-schema.org/draft/2020-12/vocab/meta-data",
        Known::Metadata,
    ),
    (
        "https://json-schema.org/draft/2020-12/vocab/format-annotation",
        Known::FormatAnnotation,
    ),
    (
        "https://json-schema.org/draft/2020-12/vocab/format-assertion",
        Known::FormatAssertion,
    ),
    (
        "https://json-schema.org/draft/2020-12/vocab/content",
        Known::Content,
    ),
];

// The first row of that text; where there is none, it would be a custom vocabulary.
pub(crate) fn known_among(rows: &[(&str, Known)], text: &str) -> Option<Known>
    ensures { unwrap_or (option_map known_of result) (spec.custom text.now) ≡ spec.vocabulary_among (map (λ r. (r.0.now, known_of r.1)) rows.now) text.now }
{
    for row in rows {
        if row.0 == text {
            return Some(row.1);
        }
    }
    None
}

// The error that names a text.
fn refusal(alloc: Global, text: &str) -> Error
    requires { grammar.is_uri (split text.now) ≡ false }
    ensures { Refuses (grammar.is_uri (split text.now)) text.now result }
{
    match String::from_str(alloc, text) {
        Ok(uri) => Error::InvalidUri(UriError::Parse { uri }),
        Err(_) => Error::Memory,
    }
}

impl Vocabulary {
    fn of_known(known: Known) -> Vocabulary
        ensures { vocabulary_of result ≡ known_of known }
    {
        match known {
            Known::Core => Vocabulary::Core,
            Known::Applicator => Vocabulary::Applicator,
            Known::Unevaluated => Vocabulary::Unevaluated,
            Known::Validation => Vocabulary::Validation,
            Known::Metadata => Vocabulary::Metadata,
            Known::Format => Vocabulary::Format,
            Known::FormatAnnotation => Vocabulary::FormatAnnotation,
            Known::FormatAssertion => Vocabulary::FormatAssertion,
            Known::Content => Vocabulary::Content,
        }
    }

    /// The vocabulary of that URI.
    ///
    /// It takes time in the length of the text, and one text for a custom vocabulary.
    ///
    /// # Errors
    ///
    /// Where the text is no URI, which is then named, or where memory was refused.
    pub fn parse(alloc: Global, text: &str) -> Result<Vocabulary, Error>
        ensures ok { IfOk result (λ v. vocabulary_of v ≡ spec.vocabulary_named text.now) }
        ensures accepted { OnOk result (IsTrue (grammar.is_uri (split text.now))) }
        ensures refused { IfErr result (Refuses (grammar.is_uri (split text.now)) text.now) }
    {
        if !is_uri(text) {
            return Err(refusal(alloc, text));
        }
        Ok(Vocabulary::named(alloc, text)?)
    }

    /// The vocabulary of that name, be it a URI or not.
    ///
    /// It takes time in the length of the text, and one text for a custom vocabulary.
    ///
    /// # Errors
    ///
    /// Where memory for the text was refused.
    pub fn named(alloc: Global, text: &str) -> Result<Vocabulary, AllocError>
        ensures { IfOk result (λ v. vocabulary_of v ≡ spec.vocabulary_named text.now) }
    {
        match known_among(&KNOWN_URIS, text) {
            Some(known) => Ok(Vocabulary::of_known(known)),
            None => Ok(Vocabulary::Custom(String::from_str(alloc, text)?)),
        }
    }
}
