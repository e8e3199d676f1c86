//! What is said of an instance in one form.

ghost use Rattle.std.specs.Prelude.{◌≡◌, ◌⊎◌, true, IfOk, string_bytes};
ghost use Rattle.serde_json.specs.View.{view};
ghost use Rattle.schema_registries.specs.Seen.{documents_given};
ghost use Rattle.schema_registries.specs.Whole.{only_whole};
ghost use Rattle.schema_validators.specs.Passed.{Root, Patterns};
ghost use Rattle.schema_validators.specs.Made.{IsMadeBy};
ghost use Rattle.json_schema_validator.specs.Answers.{IsTextOf, IsAnswered};

use error_texts::write_faults;
use schema_patterns::{PatternMaker, PatternMatcher};
use schema_registries::{Documents, Retrieve};
use schema_validators::{BuildError, ValidationOptions, Validator};
use serde_json::Value;
use std::alloc::{AllocError, Global};

// The line text of an instance's faults, with its line end.
fn text_by<M: PatternMatcher>(
    alloc: Global,
    validator: &Validator<M>,
    instance: &Value,
) -> Result<String, AllocError>
    requires whole { only_whole (view instance.now) ≡ true }
    ensures { IfOk result (λ text. (p : Patterns) (r : Root) → IsMadeBy p r validator.now
        → IsTextOf p r (view instance.now) (string_bytes text)) }
{
    let errors = validator.iter_errors(instance)?;
    let mut text = String::new(alloc);
    write_faults(alloc, errors, &mut text)?;
    text.push_str("\n")?;
    Ok(text)
}

// The line text by the root that a reference leads to in documents, or why that is not built.
pub(crate) fn answer<P: PatternMaker + Drop, R: Retrieve + Drop>(
    alloc: Global,
    options: &ValidationOptions<P, R>,
    documents: &Documents,
    root: &str,
    instance: &Value,
) -> Result<Result<String, BuildError>, AllocError>
    requires whole { only_whole (view instance.now) ≡ true }
    ensures { IfOk result (IsAnswered (P.patterns options.now.maker) R.may_answer R.may_refuse options.now
        (documents_given documents.now) root.now (view instance.now)) }
{
    match options.build(documents, root) {
        Ok(validator) => Ok(Ok(text_by(alloc, &validator, instance)?)),
        Err(BuildError::Memory) => Err(AllocError),
        Err(error) => Ok(Err(error)),
    }
}
