//! What `if` chooses by the verdict of its schema, and whether it refuses.
ghost use Rattle.std.specs.Prelude.{◌<◌, ◌≡◌, ◌∷◌, [], IfOk, IfErr};
ghost use Rattle.serde_json.specs.Data.{depth};
ghost use Rattle.serde_json.specs.View.{view};
ghost use Rattle.schema_meaning.specs.Rules.{chosen_name};
ghost use Rattle.plain_reader.specs.Passed as code;
ghost use Rattle.fault_checks.specs.Verdicts.{ChoosesIn, chosen_of};
ghost use Rattle.fault_checks.specs.Trials.{IsInnerRefused, KeywordRefuses};
ghost use Rattle.plain_reader.specs.Returns.{Stops};
ghost use Rattle.fault_checks.specs.Circles.{InnerComesBack, KeywordComesBack};

use crate::refusing::is_refused;
use crate::trial::Trial;
use plain_reader::stop::Stop;
use serde_json::Value;

/// The name of what `if` chooses where its schema accepts or refuses, and the schema of that name.
pub const fn chosen<'r>(
    accepts: bool,
    then_schema: Option<&'r Value>,
    else_schema: Option<&'r Value>,
) -> (&'static str, Option<&'r Value>)
    ensures name { result.0.now ≡ chosen_name (accepts ∷ []) }
    ensures schema { result.1 ≡ chosen_of accepts then_schema.entry else_schema.entry }
{
    if accepts {
        ("then", then_schema)
    } else {
        ("else", else_schema)
    }
}

/// Whether a schema at a keyword refuses the value.
pub fn is_inner_refused<'r>(
    trial: &Trial<'_, 'r, '_>,
    name: &'static str,
    part: &'r Value,
) -> Result<bool, Stop>
    requires inside { depth (view part.now) < depth (view trial.now.site.now.contents.now) }
    ensures refused { IfOk result (λ b. IsInnerRefused trial.now name.now (view part.now) b) }
    ensures stops { IfErr result (Stops (InnerComesBack trial.now name.now (view part.now))) }
{
    let inner = trial.site.below(trial.alloc, part)?;
    let below = Trial {
        alloc: trial.alloc,
        site: &inner,
        value: trial.value,
    };
    is_refused(&below)
}

/// Whether `if` refuses a value under a name: that of what it chooses, where that schema refuses.
pub(crate) fn condition_refuses<'r>(
    trial: &Trial<'_, 'r, '_>,
    condition: &'r Value,
    then_schema: Option<&'r Value>,
    else_schema: Option<&'r Value>,
    name: &str,
) -> Result<bool, Stop>
    requires lies { ChoosesIn trial.now.site.now condition then_schema else_schema }
    ensures refuses { IfOk result (λ b. KeywordRefuses trial.now
        (code.If condition.entry then_schema.entry else_schema.entry) name.now b) }
    ensures stops { IfErr result (Stops (KeywordComesBack trial.now
        (code.If condition.entry then_schema.entry else_schema.entry))) }
{
    let refused = is_inner_refused(trial, "if", condition)?;
    let (chosen, part) = chosen(!refused, then_schema, else_schema);
    if chosen != name {
        return Ok(false);
    }
    match part {
        None => Ok(false),
        Some(part) => is_inner_refused(trial, chosen, part),
    }
}
