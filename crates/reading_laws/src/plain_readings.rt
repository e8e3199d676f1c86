//! Laws of the plain reading of documents: each is the contract of a function, and costs nothing to call.

ghost use Rattle.reading_laws.specs.PlainLaws.{PlainNests, KeysAreAll, PlainIsDecided, PlainIsDeepEnough};

/// Each subschema nests less than the schema that asks it, and no target of a reference nests deeper than the deepest document.
pub fn plain_nests()
    ensures { PlainNests }
{}

/// Each reference that is followed has a target among the places of the documents, and is asked at a place of the instance.
pub fn keys_are_all()
    ensures { KeysAreAll }
{}

/// Under a root that a lookup found, a value that is not circular is decided, and the cut reading gives the decided answer.
pub fn plain_is_decided<A>()
    ensures { PlainIsDecided A }
{}

/// Deeper than `cut` goes nothing changes under such a root: each greater depth gives the same answer, on circular values too.
pub fn plain_is_deep_enough<A>()
    ensures { PlainIsDeepEnough A }
{}
