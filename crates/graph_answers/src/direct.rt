//! Matches asked of a table's patterns.
ghost use Rattle.graph_answers.specs.Tables.{AreForms, matches_of};

use crate::answers::is_yes;
use crate::lookup::pattern_at;
use schema_engine::matching::Matching;
use schema_patterns::{PatternMatcher, PatternTable};
use std::alloc::AllocError;

/// Asks each match of the table's pattern of that number, and keeps nothing. A match that stays unfinished counts as none.
#[derive(Drop)]
pub struct Direct<'v, M: PatternMatcher> {
    pub table: &'v PatternTable<M>,
    pub ghost forms: { AreForms M.finds table.now },
}

impl<'v, M: PatternMatcher> Matching for Direct<'v, M> {
    ghost matches = { λ direct. matches_of M.finds direct.table.now };

    fn is_match(&mut self, pattern: usize, text: &str) -> Result<bool, AllocError> {
        let Some(compiled) = pattern_at(self.table, pattern) else {
            return Ok(false);
        };
        is_yes(compiled.is_match(text))
    }
}
