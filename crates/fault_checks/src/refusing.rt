//! Whether a keyword refuses a value.
ghost use Rattle.std.specs.Prelude.{IfOk, IfErr};
ghost use Rattle.plain_reader.specs.Passed.{FindsTarget};
ghost use Rattle.fault_checks.specs.Verdicts.{LiesIn};
ghost use Rattle.fault_checks.specs.Trials.{IsRefused, IsTargetRefused, KeywordRefuses};
ghost use Rattle.plain_reader.specs.Returns.{Stops};
ghost use Rattle.fault_checks.specs.Circles.{TrialComesBack, TargetComesBack, KeywordComesBack};

use crate::applied_refusals::applicator_refuses;
use crate::choice_refusals::condition_refuses;
use crate::trial::Trial;
use plain_reader::site::accepts_site;
use plain_reader::stop::Stop;
use plain_reader::{Keyword, ReferenceKeyword, Resolved, at_target};
use schema_patterns::pattern::accepts_text;

/// Whether a schema refuses a value.
pub fn is_refused(trial: &Trial<'_, '_, '_>) -> Result<bool, Stop>
    ensures refused { IfOk result (λ b. IsRefused trial.now b) }
    ensures stops { IfErr result (Stops (TrialComesBack trial.now)) }
{
    Ok(!accepts_site(trial.alloc, trial.site, trial.value)?)
}

// Whether the target of a reference refuses a value.
fn is_target_refused<'r>(
    trial: &Trial<'_, 'r, '_>,
    keyword: ReferenceKeyword,
    text: &str,
    target: Resolved<'r>,
) -> Result<bool, Stop>
    requires found { FindsTarget trial.now.site.now keyword text.now target }
    ensures refused { IfOk result (λ b. IsTargetRefused trial.now keyword text.now target.entry b) }
    ensures stops { IfErr result (Stops (TargetComesBack trial.now keyword text.now target.entry)) }
{
    let inner = at_target(&target, trial.site.matches)?;
    let followed = Trial {
        alloc: trial.alloc,
        site: &inner,
        value: trial.value,
    };
    is_refused(&followed)
}

/// Whether a keyword refuses a value under a name, where it may refuse under that name.
pub fn keyword_refuses<'r>(
    trial: &Trial<'_, 'r, '_>,
    keyword: Keyword<'r>,
    name: &str,
) -> Result<bool, Stop>
    requires lies { LiesIn trial.now.site.now keyword }
    ensures refuses { IfOk result (λ b. KeywordRefuses trial.now keyword.entry name.now b) }
    ensures stops { IfErr result (Stops (KeywordComesBack trial.now keyword.entry)) }
{
    let alloc = trial.alloc;
    let value = trial.value;
    match keyword {
        Keyword::Nothing => Ok(false),
        Keyword::Assertion(assertion) => Ok(!assertion.accept(alloc, value)?),
        Keyword::Pattern(pattern) => Ok(!accepts_text(alloc, trial.site.matches, pattern, value)?),
        Keyword::If {
            condition,
            then_schema,
            else_schema,
        } => condition_refuses(trial, condition, then_schema, else_schema, name),
        Keyword::Consequent { .. } => Ok(false),
        Keyword::Applicator(applicator) => applicator_refuses(trial, &applicator, name),
        Keyword::Reference {
            keyword: by,
            text,
            target,
        } => is_target_refused(trial, by, text, target),
    }
}
