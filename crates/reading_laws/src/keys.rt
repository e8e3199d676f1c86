//! How many compile keys are reached. The functions cost nothing to call.
ghost use Rattle.reading_laws.specs.KeyLaws.{KeysAreFewer, ReachedContentsAreOne};

/// Among documents whose names are apart, where members' names rise, two sites that are reached and have one place hold one value.
pub fn reached_contents_are_one()
    ensures { ReachedContentsAreOne }
{}

/// Distinct keys that are all among others are no more than these.
pub fn keys_are_fewer()
    ensures { KeysAreFewer }
{}
