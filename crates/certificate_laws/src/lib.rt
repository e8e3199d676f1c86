//! Laws of certificates: their first step, by the texts of the paths, and verdicts that do not depend on paths; for proofs to cite.
#![tactic(auto)]
