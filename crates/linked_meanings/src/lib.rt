//! Laws of two readings whose sites are related, as the documents and a schema compiled into nodes, and of faults in any order:
//! each is the contract of a function, and costs nothing to call.
#![tactic(auto)]

ghost use Rattle.linked_meanings.specs.Laws.{AnswerAlike, AnswerAlikeButForPaths, AnswerAlikeMoved, HaveSameCertificates, DecideAlike, CutAlikeWithPlaces, SameCutWithPlaces, LinkedAlike, LinkedAlikeButForPaths, LinkedCertified, LinkedRelated, OrderIsEquivalence, OrderTellsTheSame};
ghost use Rattle.linked_meanings.specs.CutDiffers.{CutIsNotPromised};

/// A relation of the sites of two readings, which may depend on a value, as on a graph.
pub trait Relates<S, T> {
    ghost like: { Self → S → T → Type 0 };
}

/// Related readings answer alike: the same verdict, and the same faults up to order.
pub fn related_alike<S, T, R: Relates<S, T>>()
    ensures { (by : R) → AnswerAlike (R.like by) }
{}

/// Where the paths of the schema differ: the same verdict, and the same faults but for their schema paths, up to order.
pub fn related_alike_but_for_paths<S, T, R: Relates<S, T>>()
    ensures { (by : R) → AnswerAlikeButForPaths (R.like by) }
{}

/// Where the other's paths of the schema are those of the first with steps put above them: the same faults, so moved, up to order.
pub fn related_alike_moved<S, T, R: Relates<S, T>>()
    ensures { (by : R) → AnswerAlikeMoved (R.like by) }
{}

/// Related readings have the same certificates, where they are nested.
pub fn related_certified<S, T, R: Relates<S, T>>()
    ensures { (by : R) → HaveSameCertificates (R.like by) }
{}

/// What one of two related readings decides, the other does, where that is nested.
pub fn related_told<S, T, R: Relates<S, T>>()
    ensures { (by : R) → DecideAlike (R.like by) }
{}

/// Where equal places stand with equal places, related readings are cut alike.
pub fn cut_alike_with_places<S, T, R: Relates<S, T>>()
    ensures { (by : R) → CutAlikeWithPlaces (R.like by) }
{}

/// And their cut readings are the same, where both are nested.
pub fn same_cut_with_places<S, T, R: Relates<S, T>>()
    ensures { (by : R) → SameCutWithPlaces (R.like by) }
{}

/// Linked readings answer alike: the same verdict, and the same faults up to order.
pub fn linked_alike<S, T>()
    ensures { LinkedAlike S T }
{}

/// Where the paths of the schema differ: the same verdict, and the same faults but for their schema paths, up to order.
pub fn linked_alike_but_for_paths<S, T>()
    ensures { LinkedAlikeButForPaths S T }
{}

/// Linked readings have the same certificates, where they are nested.
pub fn linked_certified<S, T>()
    ensures { LinkedCertified S T }
{}

/// What is linked is related.
pub fn linked_related<S, T>()
    ensures { LinkedRelated S T }
{}

/// The cut reading is not promised to answer alike at related sites: where the places of sites differ, its verdict may.
pub fn cut_is_not_promised()
    ensures { CutIsNotPromised }
{}

/// Equality of faults up to order is an equivalence.
pub fn order_is_equivalence()
    ensures { OrderIsEquivalence }
{}

/// Two bags of faults that are equal up to order tell the same.
pub fn order_tells_the_same()
    ensures { OrderTellsTheSame }
{}
