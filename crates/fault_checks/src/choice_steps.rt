//! Steps by `if`.
ghost use Rattle.std.specs.Prelude.{IfOk, IfErr};
ghost use Rattle.fault_checks.specs.Verdicts.{ChoosesIn};
ghost use Rattle.fault_checks.specs.Passed as code;
ghost use Rattle.fault_checks.specs.Steps.{PassesBy, IsMore, IsNotLonger};
ghost use Rattle.plain_reader.specs.Returns.{Stops};
ghost use Rattle.fault_checks.specs.Circles.{StepComesBack};

use crate::applied_steps::to_question;
use crate::choice_refusals::{chosen, is_inner_refused};
use crate::trial::Trial;
use crate::walk::{Step, Walk};
use applicators::question::{Asked, Question};
use applicators::subschema::{Entry, Subschema};
use fault_paths::ahead::Ahead;
use plain_reader::stop::Stop;
use serde_json::Value;
use std::alloc::Global;

/// The step of a walk by `if` under a name: into the schema of `then` where its own accepts, into that of `else` where it refuses, and
/// never into its own.
pub fn through_condition<'r, 'i, 'p>(
    alloc: Global,
    walk: Walk<'r, 'i, 'p>,
    condition: &'r Value,
    then_schema: Option<&'r Value>,
    else_schema: Option<&'r Value>,
    name: &str,
    after: Option<&'p str>,
) -> Result<Step<'r, 'i, 'p>, Stop>
    requires lies { ChoosesIn walk.site condition then_schema else_schema }
    requires more { IsMore walk.instance after }
    ensures passes { IfOk result (PassesBy walk.entry
        (code.If condition.entry then_schema.entry else_schema.entry) name.now after.entry) }
    ensures shorter { IfOk result (IsNotLonger after.entry) }
    ensures stops { IfErr result (Stops (StepComesBack walk.entry
        (code.If condition.entry then_schema.entry else_schema.entry))) }
{
    let trial = Trial {
        alloc,
        site: &walk.site,
        value: walk.value,
    };
    let refused = is_inner_refused(&trial, "if", condition)?;
    let (keyword, part) = chosen(!refused, then_schema, else_schema);
    if keyword != name {
        return Ok(Step::Answered(false));
    }
    let Some(schema) = part else {
        return Ok(Step::Answered(false));
    };
    let question = Question {
        subschema: Subschema {
            keyword,
            entry: Entry::Whole,
            schema,
        },
        asked: Asked::Value,
    };
    let ahead = Ahead {
        question,
        instance: walk.instance,
        evaluation: after,
    };
    Ok(to_question(alloc, walk, ahead)?)
}
