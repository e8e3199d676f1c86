//! The walk that fills a graph.

ghost use Rattle.std.specs.Prelude.{◌≡◌, ◌<◌, ◌+◌, List, [], IfOk, IfErr, OnOk, length, option_map, box_value};
ghost use Rattle.schema_definitions.specs.Bearers.{Document};
ghost use Rattle.schema_definitions.specs.Sites.{Site};
ghost use Rattle.reached_sites.specs.Patterns.{IsFront};
ghost use Rattle.compiled_graphs.specs.First.{IsInOrder};
ghost use Rattle.compiled_graphs.specs.Walked.{ArePlaced, Walks, IsWalked, Fills, IsBegun, MayGoOn};
ghost use Rattle.compiled_graphs.specs.Walked.{IsStopped, RefusesWalk, RefusesInOrder};

use crate::filling::{compile, node_of};
use crate::linking::link;
use crate::reading::read;
use compiled_keywords::keyword::Keyword;
use marked_nodes::{Edge, note};
use reached_sites::cause::BuildCause;
use reached_sites::seen::Visits;
use schema_engine::node::Node;
use schema_patterns::{PatternMaker, PatternMatcher, PatternTable};
use std::alloc::{AllocError, Global};

/// Whether a cause ends a walk, or is noted.
#[derive(Clone, Copy)]
pub(crate) enum AtCause {
    Stop,
    GoOn,
}

/// Visits, of which the first have their nodes; the edges from these to those that they ask for, the positions of those with a cause of their
/// own, which have no keywords, and the patterns of the others.
#[derive(Drop)]
pub(crate) struct Walk<'r, M> {
    pub(crate) visits: Visits<'r>,
    pub(crate) nodes: Vec<Node<Keyword>>,
    pub(crate) edges: Vec<Edge>,
    pub(crate) wrong: Vec<usize>,
    pub(crate) table: PatternTable<M>,
}

// A cause as an error, where it ends a walk.
fn stopped(cause: Option<BuildCause>, at_cause: AtCause) -> Result<(), BuildCause>
    ensures goes { OnOk result (MayGoOn at_cause cause) }
    ensures stops { IfErr result (IsStopped at_cause cause) }
{
    match at_cause {
        AtCause::GoOn => Ok(()),
        AtCause::Stop => match cause {
            Some(cause) => Err(cause),
            None => Ok(()),
        },
    }
}

// A cause in a box, which is let go by one call wherever a walk ends.
fn boxed(alloc: Global, cause: Option<BuildCause>) -> Result<Option<Box<BuildCause>>, AllocError>
    ensures { IfOk result (λ b. option_map box_value b ≡ cause) }
{
    match cause {
        Some(cause) => Ok(Some(Box::new(alloc, cause)?)),
        None => Ok(None),
    }
}

fn unboxed(cause: Option<Box<BuildCause>>) -> Option<BuildCause>
    ensures { result ≡ option_map box_value cause }
{
    match cause {
        Some(cause) => Some(Box::into_inner(cause)),
        None => None,
    }
}

impl<'r, M: PatternMatcher> Walk<'r, M> {
    /// A walk that is to begin with some visits.
    pub(crate) fn new(alloc: Global, visits: Visits<'r>) -> Walk<'r, M>
        ensures { IsBegun result visits.entry.list.items }
    {
        Walk {
            visits,
            nodes: Vec::new(alloc),
            edges: Vec::new(alloc),
            wrong: Vec::new(alloc),
            table: PatternTable::new(alloc),
        }
    }

    // Fills the node of the next visit, and answers the first cause there, if there is one.
    fn fill<P: PatternMaker<Matcher = M>>(
        &mut self,
        alloc: Global,
        maker: &P,
    ) -> Result<Option<BuildCause>, AllocError>
        requires there { length self.old.nodes.items < length self.old.visits.list.items }
        ensures further { OnOk result (IsFront self.old.visits.list.items self.new.visits.list.items) }
        ensures one { OnOk result (length self.new.nodes.items ≡ length self.old.nodes.items + 1) }
        ensures fills { IfOk result (λ o. (own : List Document) (roots : List Site) → ArePlaced own roots
            → Fills M.finds (P.patterns maker.now) own roots self.old self.new o) }
    {
        let next = self.nodes.len();
        let visits = &self.visits;
        let (found, cause) = read(alloc, &visits.list[next], maker, &mut self.table)?;
        let cause = boxed(alloc, cause)?;
        note(&mut self.wrong, next, cause.is_none())?;
        let numbers = link(alloc, &mut self.visits, &mut self.edges, next, found.visits)?;
        let keywords = if cause.is_none() {
            compile(alloc, &found.askings, &numbers, &self.table)?
        } else {
            Vec::new(alloc)
        };
        let visits = &self.visits;
        self.nodes.push(node_of(&visits.list[next], keywords)?)?;
        Ok(unboxed(cause))
    }

    /// Fills the nodes of all that is reached, each schema once for each compile key with which it is reached. Where it goes on behind causes, a
    /// keyword that has one leads nowhere, and those beside it are walked.
    ///
    /// # Errors
    ///
    /// More compile keys than the limit, the first cause where it stops, or want of memory.
    pub(crate) fn run<P: PatternMaker<Matcher = M>>(
        mut self,
        alloc: Global,
        maker: &P,
        limit: usize,
        at_cause: AtCause,
    ) -> Result<Walk<'r, M>, BuildCause>
        requires begun { self.nodes.items ≡ [] }
        requires right { self.wrong.items ≡ [] }
        ensures further { IfOk result (λ w. IsFront self.entry.visits.list.items w.visits.list.items) }
        ensures walked { IfOk result (λ w. (own : List Document) (roots : List Site) → ArePlaced own roots
            → Walks M.finds (P.patterns maker.now) own roots self.entry
            → IsWalked M.finds (P.patterns maker.now) own roots limit at_cause w) }
        ensures first { IfErr result (λ e. (own : List Document) (roots : List Site) → ArePlaced own roots
            → Walks M.finds (P.patterns maker.now) own roots self.entry
            → IsInOrder own (P.patterns maker.now).makes roots self.entry
            → RefusesInOrder (P.patterns maker.now).makes own roots limit e) }
        ensures refused { IfErr result (λ e. (own : List Document) (roots : List Site) → ArePlaced own roots
            → Walks M.finds (P.patterns maker.now) own roots self.entry
            → RefusesWalk (P.patterns maker.now).makes own roots limit at_cause e) }
    {
        while self.nodes.len() < self.visits.list.len() {
            if self.visits.list.len() > limit {
                return Err(BuildCause::NodeLimit { limit });
            }
            let cause = self.fill(alloc, maker)?;
            stopped(cause, at_cause)?;
        }
        Ok(self)
    }
}
