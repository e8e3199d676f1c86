//! Laws on what references lead to, on sites of one compile key, on names that are missing and on forms of documents: each is the contract of
//! a function, and costs nothing to call.

ghost use Rattle.json_schema_validator.specs.Bases.{BasesAreListed};
ghost use Rattle.json_schema_validator.specs.Laws.{RootsAgree};
ghost use Rattle.json_schema_validator.specs.OneKey.{OneKeyTellsTheSame, OneKeyWithoutAnchors};
ghost use Rattle.json_schema_validator.specs.Required.{EachMissingOnce};

/// In documents in which members' names rise, without a cause to be refused, what a reference leads to, a schema place or not, has the base and
/// the dialect of a schema place of the list of its document, which it is at or below. Among documents whose names are apart that is the nearest
/// one.
pub fn bases_are_listed()
    ensures { BasesAreListed }
{}

/// Where one document can be moved into the other, and nothing is wrong with the documents of the form with it inside, nor with the root in both
/// forms: where the matches that an instance asks for finish and no references come back, the line texts of its faults are one.
pub fn roots_agree()
    ensures { RootsAgree }
{}

/// Two sites of one compile key, each reached from what a reference leads to, answer alike in documents whose names are apart and in which
/// members' names rise: of each value the same verdict, the same faults up to order, with schema paths as pointers spell them, and the same
/// certificates.
pub fn one_key_tells_the_same()
    ensures { OneKeyTellsTheSame }
{}

/// Where no schema place is a dynamic anchor, all scopes have one key from a base that does not say `$recursiveAnchor: true`.
pub fn one_key_without_anchors()
    ensures { OneKeyWithoutAnchors }
{}

/// Each application of a `required` that counts and lists names, each once, tells one fault of the value for each of them that the value lacks,
/// and none for another, wherever it is applied: inside branches and under `propertyNames` too.
pub fn each_missing_once()
    ensures { EachMissingOnce }
{}
