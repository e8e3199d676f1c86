//! Matches that are assumed where they stay unfinished.
ghost use Rattle.std.specs.Option.{ForSome};
ghost use Rattle.std.specs.Prelude.{◌≡◌, IfSome, string_bytes};
ghost use Rattle.serde_json.specs.View.{view};
ghost use Rattle.graph_answers.specs.Completions.{assumed_in, matches_from, IsStop};
ghost use Rattle.graph_answers.specs.Tables.{AreForms};

use crate::lookup::{pattern_at, text_at};
use schema_engine::graph::Graph;
use schema_engine::matching::Matching;
use schema_engine::validate::Validate;
use schema_patterns::{MatchAnswer, PatternMatcher, PatternTable};
use serde_json::Value;
use std::alloc::{AllocError, Global};

/// A pattern's match with a text, and the answer that is assumed of it.
#[derive(Drop)]
pub struct AssumedMatch {
    pub pattern: String,
    pub text: String,
    pub is_match: bool,
}

/// A match that stays unfinished: of a pattern with a text.
#[derive(Drop)]
pub struct UnfinishedMatch {
    pub pattern: String,
    pub text: String,
}

/// Asks each match of the table's pattern of that number, and takes what is assumed of one that stays unfinished. At the first of which
/// nothing is assumed either it stops, and remembers which it was. A match may be asked for only where the value asks for it, from a node
/// of the graph on.
#[derive(Drop)]
pub struct Assumed<'v, 'd, 'a, K: Validate, M: PatternMatcher> {
    alloc: Global,
    pub graph: &'v Graph<K>,
    pub start: usize,
    pub value: &'d Value,
    pub table: &'v PatternTable<M>,
    pub assumed: &'a [AssumedMatch],
    pub stopped: Option<UnfinishedMatch>,
    ghost forms: { AreForms M.finds table.now },
    ghost stop: { ForSome stopped (λ one. IsStop
        (matches_from M.finds table.now assumed.now K.shape graph.now.nodes.items start (view value.now))
        (string_bytes one.pattern) (string_bytes one.text)) },
}

impl<'v, 'd, 'a, K: Validate, M: PatternMatcher> Assumed<'v, 'd, 'a, K, M> {
    /// Matches of a table's patterns, with what is assumed, for a value and the node of a graph that is asked of it.
    pub fn new(
        alloc: Global,
        graph: &'v Graph<K>,
        start: usize,
        value: &'d Value,
        table: &'v PatternTable<M>,
        assumed: &'a [AssumedMatch],
    ) -> Assumed<'v, 'd, 'a, K, M>
        requires { AreForms M.finds table.now }
        ensures graph { result.graph.now ≡ graph.now }
        ensures start { result.start ≡ start }
        ensures value { result.value.now ≡ value.now }
        ensures table { result.table.now ≡ table.now }
        ensures assumed { result.assumed.now ≡ assumed.now }
    {
        Assumed {
            alloc,
            graph,
            start,
            value,
            table,
            assumed,
            stopped: None,
        }
    }

    /// The match at which it stopped, if it did.
    pub fn into_stopped(self) -> Option<UnfinishedMatch>
        ensures found { result ≡ self.entry.stopped }
        ensures stop { IfSome result (λ one. IsStop (matches_from M.finds self.entry.table.now self.entry.assumed.now
            K.shape self.entry.graph.now.nodes.items self.entry.start (view self.entry.value.now))
            (string_bytes one.pattern) (string_bytes one.text)) }
    {
        self.stopped
    }
}

// What is assumed of a match, if anything is.
pub(crate) fn answer_in(assumed: &[AssumedMatch], pattern: &str, text: &str) -> Option<bool>
    ensures { result ≡ assumed_in assumed.now pattern.now text.now }
{
    for one in assumed {
        if one.pattern.as_str() == pattern && one.text.as_str() == text {
            return Some(one.is_match);
        }
    }
    None
}

impl<'v, 'd, 'a, K: Validate, M: PatternMatcher> Matching for Assumed<'v, 'd, 'a, K, M> {
    ghost matches = { λ a. matches_from M.finds a.table.now a.assumed.now
        K.shape a.graph.now.nodes.items a.start (view a.value.now) };

    fn is_match(&mut self, pattern: usize, text: &str) -> Result<bool, AllocError> {
        let Some(compiled) = pattern_at(self.table, pattern) else {
            return Ok(false);
        };
        match compiled.is_match(text) {
            MatchAnswer::Yes => Ok(true),
            MatchAnswer::No => Ok(false),
            MatchAnswer::NoMemory => Err(AllocError),
            MatchAnswer::Unfinished => {
                let written = text_at(self.table, pattern);
                match answer_in(self.assumed, written, text) {
                    Some(answer) => Ok(answer),
                    None => {
                        self.stopped = Some(UnfinishedMatch {
                            pattern: String::from_str(self.alloc, written)?,
                            text: String::from_str(self.alloc, text)?,
                        });
                        Err(AllocError)
                    }
                }
            }
        }
    }
}
