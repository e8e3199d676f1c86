//! Phrases of what is said of an error, and the texts that spell them.
ghost use Rattle.std.specs.Prelude.{◌≡◌, ℕ, List, [], map, IfOk, string_bytes};
ghost use Rattle.serde_json.specs.Data.{string};
ghost use Rattle.serde_json.specs.Written.{compact_text};
ghost use Rattle.schema_reports.specs.Phrases.{phrase_of, shortened as cut, IsSpelled, AreSpelled};

use schema_steps::Path;
use serde_json::Value;
use std::alloc::{AllocError, Global};
use value_checks::texts::code_points;

/// How many code points of a value's text are shown.
const SHOWN: usize = 60;

// A part of what is said.
#[derive(Clone, Copy)]
pub(crate) enum Phrase<'e> {
    /// Words as they stand.
    Words(&'static str),
    /// A value, by its JSON text, which is cut where it is long.
    Value(&'e Value),
    /// A name or a pattern, as a JSON string.
    Name(&'e str),
    /// A number of things.
    Count(u64),
    /// A path, as a pointer.
    Place(&'e Path),
}

/// The texts of phrases, one after another.
pub(crate) fn spelled(alloc: Global, phrases: &[Phrase<'_>]) -> Result<String, AllocError>
    ensures { IfOk result (λ text. AreSpelled (map phrase_of phrases.now) (string_bytes text)) }
{
    let mut text = String::new(alloc);
    for phrase in phrases {
        text.push_str(spelling(alloc, *phrase)?.as_str())?;
    }
    Ok(text)
}

fn spelling(alloc: Global, phrase: Phrase<'_>) -> Result<String, AllocError>
    ensures { IfOk result (λ text. IsSpelled (phrase_of phrase.entry) (string_bytes text)) }
{
    match phrase {
        Phrase::Words(words) => String::from_str(alloc, words),
        Phrase::Value(value) => shortened(alloc, value.to_string(alloc)?),
        Phrase::Name(name) => quoted(alloc, name),
        Phrase::Count(number) => number.to_string(alloc),
        Phrase::Place(path) => path.to_pointer(alloc),
    }
}

fn shortened(alloc: Global, text: String) -> Result<String, AllocError>
    ensures { IfOk result (λ short. string_bytes short ≡ cut (string_bytes text)) }
{
    if code_points(text.as_str()) <= SHOWN {
        Ok(text)
    } else {
        format!(in alloc; "{text:.60}...")
    }
}

fn quoted(alloc: Global, name: &str) -> Result<String, AllocError>
    ensures { IfOk result (λ text. string_bytes text ≡ compact_text (string name.now)) }
{
    Value::String(String::from_str(alloc, name)?).to_string(alloc)
}
