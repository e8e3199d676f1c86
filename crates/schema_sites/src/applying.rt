//! What a keyword that applies subschemas is.

ghost use Rattle.std.specs.Prelude.{ℕ, List, IfOk, IfErr};
ghost use Rattle.serde_json.specs.Data.{Data};
ghost use Rattle.schema_definitions.specs.Rows as rows;
ghost use Rattle.applicator_reading.specs.Reads.{ReadsAs, IsByAnswers};
ghost use Rattle.schema_sites.specs.Read.{IsRowOf, Finds};
ghost use Rattle.schema_sites.specs.Refused.{Refuses};
ghost use Rattle.schema_sites.specs.declared.site.Site as code;

use crate::keyword::{Keyword, Refusal};
use applicator_reading::reading::Reading;

pub(crate) fn applying<'r>(reading: Reading<'r>) -> Result<Keyword<'r>, Refusal<'r>>
    requires answers { IsByAnswers reading }
    ensures read { IfOk result (λ k. (x : rows.Context) (n : List ℕ) (row : rows.Row)
        → ReadsAs x n row reading.entry → IsRowOf x n row k) }
    ensures found { IfOk result (λ k. (c : code.Site) (d : Data) → Finds c d k) }
    ensures refused { IfErr result (λ e. (x : rows.Context) (n : List ℕ) (d : Data) (row : rows.Row)
        → ReadsAs x n row reading.entry → Refuses x n d row e) }
{
    match reading {
        Reading::Applied(applicator) => Ok(Keyword::Applicator(applicator)),
        Reading::Nothing => Ok(Keyword::Nothing),
        Reading::Consequent(_) => Ok(Keyword::Nothing),
        Reading::Value { expected } => Err(Refusal::Value { expected }),
        Reading::Entry { name, expected } => Err(Refusal::Entry { name, expected }),
        Reading::Element { index, expected } => Err(Refusal::Element { index, expected }),
    }
}
