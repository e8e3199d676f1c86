//! What a keyword that only asserts is.

ghost use Rattle.std.specs.Prelude.{ℕ, List, IfOk, IfErr};
ghost use Rattle.serde_json.specs.Data.{Data};
ghost use Rattle.schema_definitions.specs.Rows as rows;
ghost use Rattle.assertions.specs.Reads.{ReadsAs};
ghost use Rattle.schema_sites.specs.Read.{IsRowOf, Finds};
ghost use Rattle.schema_sites.specs.Refused.{Refuses};
ghost use Rattle.schema_sites.specs.declared.site.Site as code;

use crate::keyword::{Keyword, Refusal};
use assertions::reading::Reading;

pub(crate) fn asserting<'r>(reading: Reading<'r>) -> Result<Keyword<'r>, Refusal<'r>>
    ensures read { IfOk result (λ k. (x : rows.Context) (n : List ℕ) (row : rows.Row)
        → ReadsAs x n row reading.entry → IsRowOf x n row k) }
    ensures found { IfOk result (λ k. (c : code.Site) (d : Data) → Finds c d k) }
    ensures refused { IfErr result (λ e. (x : rows.Context) (n : List ℕ) (d : Data) (row : rows.Row)
        → ReadsAs x n row reading.entry → Refuses x n d row e) }
{
    match reading {
        Reading::Read(assertion) => Ok(Keyword::Assertion(assertion)),
        Reading::Nothing => Ok(Keyword::Nothing),
        Reading::Value { expected } => Err(Refusal::Value { expected }),
        Reading::Entry { name, expected } => Err(Refusal::Entry { name, expected }),
    }
}
