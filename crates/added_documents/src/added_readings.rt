//! Laws on readings under documents to which others are added: each is the contract of a function, and costs nothing to call.

ghost use Rattle.added_documents.specs.ReadingLaws.{SitesStay, AnswersStay};
ghost use Rattle.added_documents.specs.Needed.{IsMended, PremisesAreNeeded};

/// Where a root builds in the old documents, and no added document bears the base of a schema that is reached from it, it builds in all of
/// them: it is found there, the same sites are reached, with the same keywords at each, and nothing is wrong there.
pub fn sites_stay()
    ensures { SitesStay }
{}

/// And of each value the same is told: the cut reading has the same verdict and faults, a value is circular where it was before, and where it
/// is not the same is decided.
pub fn answers_stay<A>()
    ensures { AnswersStay A }
{}

/// There are documents in which an added one changes a verdict although it bears no URI that an old one bears, and the root builds before and
/// after: in one pair it is the meta-schema of a schema at no schema place, and in another it bears the base of such a schema.
pub fn premises_are_needed()
    ensures { PremisesAreNeeded }
{}

/// There are documents whose root builds only once another is added, which nothing wants before: a schema at no schema place refers to it. So
/// that a root builds without the added documents does not follow.
pub fn root_is_mended()
    ensures { IsMended }
{}
