//! Whether a document is added beside another, retrieved for it, or moved under a name of its `$defs`.

ghost use Rattle.moved_documents.specs.Example.{TextsCanMove};
ghost use Rattle.moved_documents.specs.Laws.{InsideIsAdded, OnceBeside, OnceIsAlways};
ghost use Rattle.moved_documents.specs.Laws.{RetrievedIsAdded, RootStandsAlone, WantedIsAdded};
ghost use Rattle.moved_documents.specs.Linked.{InsideIsLinked};
ghost use Rattle.moved_documents.specs.Needed.{BothMayBear, LeavesOutIsNeeded};

/// Where the moved document alone is answered, what is retrieved for the root is nothing or that document, once: then the documents are those of
/// the form in which it is added.
pub fn retrieved_is_added()
    ensures { RetrievedIsAdded }
{}

/// Where the root wants a document, and nothing is wanted at last, what is retrieved is the moved one.
pub fn wanted_is_added()
    ensures { WantedIsAdded }
{}

/// Where one document can be moved into the other, and the root by itself leaves it out, as its identifiers and meta-schemas are its own: a root
/// that builds by itself stands alone, so nothing changes where the other is added. It is asked that with the other inside nothing is
/// borne twice by what the two documents tell of meta-schemas either.
pub fn root_stands_alone()
    ensures { RootStandsAlone }
{}

/// Where one document can be moved into the other, and nothing is wrong with the documents of the form with it inside, that form and the one in
/// which it is added are linked place by place. The schema places inside are the root, those below it as they were, and those of the moved
/// document below the name in the root's `$defs`, each with the base and the dialect that it had. A lookup that leads somewhere in both forms
/// leads to the same place. From a root that builds in both, the same places are read, with equal bases, dialects and scopes, and there the same
/// keywords stand.
pub fn inside_is_linked()
    ensures { InsideIsLinked }
{}

/// Where one document can be moved into the other, and nothing is wrong with the documents of the form with it inside, a root that builds both
/// with the document added and with it inside answers alike: verdicts are the same, and so are the faults but for their order, with their
/// instance paths and evaluation paths.
pub fn inside_is_added()
    ensures { InsideIsAdded }
{}

/// There is such a pair: a list whose items refer to the other document.
pub fn texts_can_move()
    ensures { TextsCanMove }
{}

/// Where one document can be moved into the other, and nothing is wrong with the documents of the form with it inside, nothing is borne twice
/// there by what the two documents tell of meta-schemas either.
pub fn once_beside()
    ensures { OnceBeside }
{}

/// That one document can be moved into the other does not keep the two apart by itself: a pair of which it can, with nothing wrong with the root
/// alone, and yet both bear one URI by what the two tell of meta-schemas.
pub fn both_may_bear()
    ensures { BothMayBear }
{}

/// What the premise is for that the root by itself wants a document or leaves the moved one out: two pairs of which one can be moved into the
/// other, and nothing is wrong in any form, and yet the root by itself, which wants no document, has another verdict.
pub fn leaves_out_is_needed()
    ensures { LeavesOutIsNeeded }
{}

/// Where each `$schema` inside documents names a draft, and no URI, and no anchor under one URI, is borne twice by what they tell of meta-schemas,
/// none is borne twice whatever is told: so not at any stage either.
pub fn once_is_always()
    ensures { OnceIsAlways }
{}
