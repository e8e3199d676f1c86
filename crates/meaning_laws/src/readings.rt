//! Laws of what the keywords of JSON Schema mean, over any reading of schemas: each is the contract of a function, and costs nothing to call.

ghost use Rattle.meaning_laws.specs.Laws.{DecidedStays, FaultsTellVerdict, CutAgrees, CutIsDecided, CutIsEnough, CutAlike, UnfoldedIsTold, CertificateRefuses, FaultsAreCertified, RulesReadTheirMatches};

/// A decided answer stays with more unfoldings.
pub fn decided_stays<S, A>()
    ensures { DecidedStays S A }
{}

/// The bag of faults is empty exactly where the verdict is yes, and both are out of unfoldings together.
pub fn faults_tell_verdict<S>()
    ensures { FaultsTellVerdict S }
{}

/// Where a value is not circular it is decided, and the cut reading gives the decided answer.
pub fn cut_is_decided<S, A>()
    ensures { CutIsDecided S A }
{}

/// Deeper than `cut` goes nothing changes: each greater depth gives the same answer, on circular values too.
pub fn cut_is_enough<S, A>()
    ensures { CutIsEnough S A }
{}

/// Two readings that agree at each site that questions lead to are cut alike, at each depth; what they hold at other sites is not read.
pub fn cut_alike<S, A>()
    ensures { CutAlike S A }
{}

/// The verdict and the faults of the cut reading agree on every value, circular ones among them.
pub fn cut_agrees<S>()
    ensures { CutAgrees S }
{}

/// Unfoldings spent at every question decide the same as those spent at references alone, with the same answer.
pub fn unfolded_is_told<S, A>()
    ensures { UnfoldedIsTold S A }
{}

/// A certificate implies refusal.
pub fn certificate_refuses<S>()
    ensures { CertificateRefuses S }
{}

/// Every fault has a certificate with its two paths.
pub fn faults_are_certified<S>()
    ensures { FaultsAreCertified S }
{}

/// A keyword reads no match but those that it asks for.
pub fn rules_read_their_matches<S>()
    ensures { RulesReadTheirMatches S }
{}
