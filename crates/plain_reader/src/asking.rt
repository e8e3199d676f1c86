//! Questions that keywords ask of the value itself.
ghost use Rattle.std.specs.Prelude.{◌≡◌};
ghost use Rattle.plain_reader.specs.Choices.{asking};

use applicators::question::{Asked, Question};
use applicators::subschema::{Entry, Subschema};
use serde_json::Value;

// Whether a schema that stands at a keyword accepts the value.
pub(crate) const fn of_value<'r, 'i>(keyword: &'static str, schema: &'r Value) -> Question<'r, 'i>
    ensures { result ≡ asking keyword.entry schema.entry }
{
    Question {
        subschema: Subschema {
            keyword,
            entry: Entry::Whole,
            schema,
        },
        asked: Asked::Value,
    }
}
