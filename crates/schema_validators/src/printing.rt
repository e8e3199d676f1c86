//! Validators and maps of them, printed.

use crate::validator::Validator;
use crate::validator_map::ValidatorMap;
use schema_patterns::PatternMatcher;
use std::fmt;

/// How many schemas it reaches or shares with others, the number of the one at its root, and by what draft.
impl<M: PatternMatcher> fmt::Debug for Validator<M> {
    fn fmt<W: fmt::Write>(&self, f: &mut fmt::Formatter<W>) -> fmt::Result {
        f.debug_struct("Validator")
            .field("schemas", &self.schemas.graph.nodes.len())
            .field("start", &self.start)
            .field("draft", &self.draft)
            .finish_non_exhaustive()
    }
}

/// The validators by their pointers, in the order of the schemas.
impl<M: PatternMatcher> fmt::Debug for ValidatorMap<M> {
    fn fmt<W: fmt::Write>(&self, f: &mut fmt::Formatter<W>) -> fmt::Result {
        f.debug_struct("ValidatorMap")
            .field("validators", &self.validators)
            .finish()
    }
}
