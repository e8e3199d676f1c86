//! Errors in words.
ghost use Rattle.std.specs.Prelude.{◌≡◌, map, IfOk, string_bytes};
ghost use Rattle.schema_reports.specs.Phrases.{phrase_of, AreSpelled};
ghost use Rattle.schema_reports.specs.Sentences.{description_of};

use crate::branches::push_branches_of;
use crate::error::ValidationError;
use crate::phrases::{Phrase, spelled};
use crate::sentences::push_sentence;
use std::alloc::{AllocError, Global};

impl ValidationError<'_> {
    /// What is wrong, as a sentence: the value, what is said of it by the kind, and the limit, the names, the pattern or the value that the
    /// kind carries. For `anyOf` and `oneOf` it says how many of the schemas accept, and then has a line for each error of each of them, with
    /// two spaces before it: the keyword with the index of the schema, where the value stands, and that error's own sentence.
    ///
    /// A value is shown by its JSON text, and of a text of more than 60 code points the first 60 and `...`. Names and patterns are JSON
    /// strings. There is no line end behind the last line. It is linear in the texts of the values, which it writes whole before they
    /// are cut. The error comes where memory is out.
    pub fn description(&self, alloc: Global) -> Result<String, AllocError>
        ensures { IfOk result (λ text. AreSpelled (description_of self.now) (string_bytes text)) }
    {
        spelled(alloc, phrases_of(alloc, self)?.as_slice())
    }
}

fn phrases_of<'e>(
    alloc: Global,
    error: &'e ValidationError<'_>,
) -> Result<Vec<Phrase<'e>>, AllocError>
    ensures { IfOk result (λ phrases. map phrase_of phrases.items ≡ description_of error.now) }
{
    let mut phrases = Vec::new(alloc);
    push_sentence(&mut phrases, error)?;
    push_branches_of(&mut phrases, &error.kind)?;
    Ok(phrases)
}
