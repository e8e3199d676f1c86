//! What checks the faults of lines.
ghost use Rattle.std.specs.Prelude.{◌≡◌, IfOk, map, option_map, true};
ghost use Rattle.serde_json.specs.View.{view};
ghost use Rattle.schema_registries.specs.Roots.{Patterns, Root, root_on};
ghost use Rattle.schema_registries.specs.Whole.{only_whole};
ghost use Rattle.answer_checks.specs.Checks.{AreCheckedBy, IsCheckerOf, IsLineCheckedBy};
ghost use Rattle.answer_checks.specs.Paths.{path_bytes};

use crate::paths::{listed_value, paths_of};
use fault_checks::checking::{CheckAnswer, FaultPath, check_by};
use fault_checks::reading::{matches_by, read_patterns};
use schema_patterns::{PatternMaker, PatternMatcher, PatternTable};
use schema_registries::{SchemaRegistry, line_value};
use serde_json::Value;
use std::alloc::{AllocError, Global};

/// What checks the faults of lines by the documents of a registry, from a root there. The patterns that are reached from the root are made
/// once for all lines.
#[derive(Drop)]
pub struct AnswerChecker<'r, M> {
    alloc: Global,
    registry: &'r SchemaRegistry,
    root: &'r str,
    patterns: Option<PatternTable<M>>,
}

impl<'r, M: PatternMatcher> AnswerChecker<'r, M> {
    /// It walks what is reached from the root once.
    ///
    /// # Errors
    ///
    /// Where memory was refused or a count of owners is full.
    pub fn new<P: PatternMaker<Matcher = M>>(
        alloc: Global,
        registry: &'r SchemaRegistry,
        root: &'r str,
        maker: &P,
    ) -> Result<AnswerChecker<'r, M>, AllocError>
        ensures { IfOk result (IsCheckerOf M.finds (P.patterns maker.now) (root_on registry.entry.now root.entry.now)) }
    {
        let patterns = read_patterns(alloc, registry, root, maker)?;
        Ok(AnswerChecker {
            alloc,
            registry,
            root,
            patterns,
        })
    }

    /// What [`check_by`] says of each fault that a line of answers lists for a line: none where the line has no value, as
    /// [`line_value`] says, or where the answers are no JSON list of pairs of texts.
    ///
    /// The matches of the value are read once, and each fault takes a step for each part of its evaluation path.
    ///
    /// # Errors
    ///
    /// Where memory was refused or a count of owners is full.
    pub fn check_line(
        &self,
        line: &[u8],
        answers: &[u8],
    ) -> Result<Option<Vec<CheckAnswer>>, AllocError>
        ensures { IfOk result (λ o. IsLineCheckedBy M.finds self.now line.now answers.now (option_map (λ v. v.items) o)) }
    {
        let Some(value) = line_value(self.alloc, line)? else {
            return Ok(None);
        };
        let Some(listed) = listed_value(self.alloc, answers)? else {
            return Ok(None);
        };
        match paths_of(self.alloc, &listed)? {
            Some(paths) => Ok(Some(self.check_paths(&value, paths.as_slice())?)),
            None => Ok(None),
        }
    }

    // What the check says of each of these paths.
    fn check_paths(
        &self,
        value: &Value,
        paths: &[FaultPath<'_>],
    ) -> Result<Vec<CheckAnswer>, AllocError>
        ensures { IfOk result (λ v. AreCheckedBy M.finds self.now (view value.now) (map path_bytes paths.now) v.items) }
    {
        let read = matches_by(self.alloc, self.patterns.as_ref(), value)?;
        let matches = read.as_ref();
        let mut answers = Vec::new(self.alloc);
        for path in paths {
            let answer = check_by(self.alloc, self.registry, self.root, matches, value, *path)?;
            answers.push(answer)?;
        }
        Ok(answers)
    }
}
