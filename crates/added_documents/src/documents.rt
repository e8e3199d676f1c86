//! Laws on documents that are added to others: each is the contract of a function, and costs nothing to call.

ghost use Rattle.added_documents.specs.DocumentLaws.{DraftsAreToldAlike, DialectsStay, TargetsStay};

/// Where each `$schema` inside documents names a draft, whatever is told of meta-schemas is the same of those that they name.
pub fn drafts_are_told_alike()
    ensures { DraftsAreToldAlike }
{}

/// Where the documents tell no meta-schema anew, and at no stage an added one bears a meta-schema that they name, the dialects of these stay as
/// they were.
pub fn dialects_stay()
    ensures { DialectsStay }
{}

/// Where no added document bears a URI that an old one bears, and the dialects of the meta-schemas that the old ones name stay as they were,
/// references that led somewhere lead to the same targets.
pub fn targets_stay()
    ensures { TargetsStay }
{}
