//! Examples of readings: circular schemas, unfoldings, certificates and obliged steps, computed from the definitions.

ghost use Rattle.std.specs.List.{AllByRecursion};
ghost use Rattle.worked_examples.specs.Circles.{Circles, IsDecided, KeysOfItself, circles_examples, recursive_examples};
ghost use Rattle.worked_examples.specs.Certified.{IsCertified, IsNotCertified, certified_examples, not_certified_examples};
ghost use Rattle.worked_examples.specs.Steps.{StepsHold, place_steps_examples, branch_steps_examples};
ghost use Rattle.worked_examples.specs.Unfoldings.{IsSpent, NestingSpendsNothing, spend_examples};

/// References that come back to a target at one place of the value.
pub fn circles()
    ensures out { AllByRecursion Circles circles_examples }
    ensures all_keys { KeysOfItself }
{}

/// Schemas that refer to themselves, at other places of the value: decided, and the cut reading tells the same.
pub fn recursive_schemas()
    ensures { AllByRecursion IsDecided recursive_examples }
{}

/// Places that obliged steps lead to, down to a keyword that refuses.
pub fn certified_places()
    ensures { AllByRecursion IsCertified certified_examples }
{}

/// Places that none leads to.
pub fn uncertified_places()
    ensures { AllByRecursion IsNotCertified not_certified_examples }
{}

/// The questions that keywords ask of items, members and names, and those whose refusal is the keyword's.
pub fn steps_to_places()
    ensures { AllByRecursion StepsHold place_steps_examples }
{}

/// The questions that keywords ask of the value itself, and those whose refusal is the keyword's.
pub fn steps_to_branches()
    ensures { AllByRecursion StepsHold branch_steps_examples }
{}

/// How many unfoldings a chain of references spends.
pub fn unfoldings()
    ensures spent { AllByRecursion IsSpent spend_examples }
    ensures nested { NestingSpendsNothing }
{}
