//! What `if`, `then` and `else` are.

ghost use Rattle.std.specs.Borrow.{Bor};
ghost use Rattle.std.specs.Prelude.{◌≡◌, IfOk, IfErr, Option, codes};
ghost use Rattle.serde_json.specs.View.{view};
ghost use Rattle.serde_json.specs.declared.value.Value as json;
ghost use Rattle.applicators.specs.declared.asks.AsksOf.TheVariants as asked;
ghost use Rattle.schema_definitions.specs.Rows as rows;
ghost use Rattle.schema_sites.specs.Read.{ReadBeside, Finds};
ghost use Rattle.schema_sites.specs.Refused.{RefusedBeside};
ghost use Rattle.schema_sites.specs.declared.keyword.Keyword.TheVariants as keyword;
ghost use Rattle.schema_sites.specs.declared.site.Site as code;

use crate::keyword::{Keyword, Refusal};
use applicator_reading::neighbours::Neighbours;
use applicator_reading::reading::{
    Reading, condition as read_condition, consequent as read_consequent,
};
use applicators::applicator::Applicator;
use applicators::asks::Asks;
use serde_json::Value;

// An applicator as it is found: an `if` is a keyword of its own.
fn found<'r>(applicator: Applicator<'r>) -> Keyword<'r>
    ensures { (condition : Bor json.Value) (t e : Option (Bor json.Value))
        → applicator.entry.asks ≡ asked.Condition condition t e → result ≡ keyword.If condition t e }
{
    match applicator.asks {
        Asks::Condition {
            condition,
            then_schema,
            else_schema,
        } => Keyword::If {
            condition,
            then_schema,
            else_schema,
        },
        _ => Keyword::Applicator(applicator),
    }
}

// What `if` is: nothing without `then` or `else` beside.
pub(crate) fn condition<'r>(
    neighbours: Neighbours<'r>,
    value: &'r Value,
) -> Result<Keyword<'r>, Refusal<'r>>
    ensures read { IfOk result (ReadBeside neighbours.entry (codes "if")
        (λ x. rows.if_row x (codes "if") (view value.now))) }
    ensures found { IfOk result (λ k. (c : code.Site) → Finds c (view value.now) k) }
    ensures refused { IfErr result (RefusedBeside neighbours.entry (codes "if") (view value.now)
        (λ x. rows.if_row x (codes "if") (view value.now))) }
{
    match read_condition(neighbours, value) {
        Reading::Applied(applicator) => Ok(found(applicator)),
        Reading::Value { expected } => Err(Refusal::Value { expected }),
        _ => Ok(Keyword::Nothing),
    }
}

// What `then` or `else` is: nothing without `if` beside.
pub(crate) fn consequent<'r>(
    neighbours: Neighbours<'r>,
    name: &'static str,
    value: &'r Value,
) -> Result<Keyword<'r>, Refusal<'r>>
    ensures read { IfOk result (ReadBeside neighbours.entry name.now
        (λ x. rows.consequent_row x name.now (view value.now))) }
    ensures found { IfOk result (λ k. (c : code.Site) → Finds c (view value.now) k) }
    ensures refused { IfErr result (RefusedBeside neighbours.entry name.now (view value.now)
        (λ x. rows.consequent_row x name.now (view value.now))) }
{
    match read_consequent(neighbours, value) {
        Reading::Consequent(schema) => Ok(Keyword::Consequent { name, schema }),
        Reading::Value { expected } => Err(Refusal::Value { expected }),
        _ => Ok(Keyword::Nothing),
    }
}
