//! Documents that are wanted and not at hand, by rounds of retrieval.

ghost use Rattle.std.specs.List.{AllByRecursion};
ghost use Rattle.schema_definitions.specs.RoundExamples.{Wants, rows};

/// What documents want, round by round: references, meta-schemas, and what a meta-schema at last lets be seen.
pub fn wants_hold()
    ensures { AllByRecursion Wants rows }
{}
