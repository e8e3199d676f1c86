//! Compiled schemas with the patterns that they ask for.

ghost use Rattle.std.specs.Prelude.{◌≡◌, ◌<◌, [], length, true, IfOk, OnOk};
ghost use Rattle.serde_json.specs.View.{view};
ghost use Rattle.compiled_keywords.specs.Shapes.{shape_of};
ghost use Rattle.graph_answers.specs.Answers.{IsAnswer, HearsAnswer, Agree, IsVerdict, IsCertified};
ghost use Rattle.graph_answers.specs.Answers.{AreFaults, HaveCertificates};
ghost use Rattle.graph_answers.specs.Certain.{IsAccepting, IsCertain, IsFirst};
ghost use Rattle.graph_answers.specs.Certain.{AreThoseFaults, HaveThoseCertificates, IsOneOfThose};
ghost use Rattle.graph_answers.specs.Completions.{matches_with};
ghost use Rattle.graph_answers.specs.Runs.{IsDecision, IsVerdictOf};
ghost use Rattle.graph_answers.specs.Tables.{AreForms, matches_of};
ghost use Rattle.schema_reports.specs.Told.{faults_of, are_proper};
ghost use Rattle.std.proofs.Props.{props};
ghost use Rattle.compiled_graphs.specs.Known.{knows_prop};
ghost use Rattle.compiled_graphs.specs.Linking.{KnowsTable};

use compiled_keywords::keyword::Keyword;
use graph_answers::certain::{accepts_certain, first_certain, tell_certain};
use graph_answers::checking;
use graph_answers::direct::Direct;
use graph_answers::runs::{Decision, decide};
use schema_engine::graph::Graph;
use schema_engine::matching::Matching;
use schema_patterns::{PatternMatcher, PatternTable};
use schema_reports::{Observer, ValidationError};
use serde_json::Value;
use std::alloc::{AllocError, Global};

/// Schemas compiled into numbered nodes, each once for each compile key, with the patterns that they ask for by their numbers. It borrows
/// from no document.
#[derive(Drop)]
pub struct SchemaGraph<M: PatternMatcher> {
    pub graph: Graph<Keyword>,
    pub table: PatternTable<M>,
    ghost known: { KnowsTable graph.nodes.items table } by { Prim.hlevel (knows_prop, props) },
    ghost forms: { AreForms M.finds table },
}

impl<M: PatternMatcher> SchemaGraph<M> {
    /// The patterns that its keywords ask for, by their numbers.
    pub fn patterns(&self) -> &PatternTable<M>
        ensures table { result.now ≡ self.now.table }
        ensures forms { AreForms M.finds result.now }
    {
        &self.table
    }

    /// What asks each match of its pattern anew.
    pub fn direct(&self) -> Direct<'_, M>
        ensures { result.table.now ≡ self.now.table }
    {
        Direct { table: &self.table }
    }

    /// Whether a value is valid from a node on. Where references come back to where they were, the return is accepted.
    ///
    /// It stops as soon as it is decided, and takes no memory but for one stack of questions.
    ///
    /// # Errors
    ///
    /// Where memory was refused.
    pub fn is_valid(&self, alloc: Global, start: usize, value: &Value) -> Result<bool, AllocError>
        requires there { start < length self.now.graph.nodes.items }
        ensures cut { IfOk result (IsAnswer shape_of M.finds self.now.graph.nodes.items self.now.table start
            (view value.now)) }
        ensures verdict { IfOk result (IsVerdict shape_of M.finds self.now.graph.nodes.items self.now.table start
            (view value.now)) }
        ensures certified { IfOk result (IsCertified shape_of M.finds self.now.graph.nodes.items self.now.table start (view value.now)) }
    {
        let mut matching = self.direct();
        self.is_valid_by(alloc, start, &mut matching, value)
    }

    /// The same by whoever answers the matches of its patterns.
    ///
    /// # Errors
    ///
    /// Where memory was refused.
    pub fn is_valid_by<T: Matching>(
        &self,
        alloc: Global,
        start: usize,
        matching: &mut T,
        value: &Value,
    ) -> Result<bool, AllocError>
        requires there { start < length self.now.graph.nodes.items }
        requires meant { T.matches matching.old ≡ matches_of M.finds self.now.table }
        ensures matches { OnOk result (T.matches matching.new ≡ T.matches matching.old) }
        ensures cut { IfOk result (IsAnswer shape_of M.finds self.now.graph.nodes.items self.now.table start
            (view value.now)) }
        ensures verdict { IfOk result (IsVerdict shape_of M.finds self.now.graph.nodes.items self.now.table start
            (view value.now)) }
        ensures certified { IfOk result (IsCertified shape_of M.finds self.now.graph.nodes.items self.now.table start (view value.now)) }
    {
        checking::is_valid(alloc, &self.graph, start, &self.table, matching, value)
    }

    /// What is decided of a value from a node on: whether it is accepted however its unfinished matches are answered.
    ///
    /// # Errors
    ///
    /// Where memory was refused.
    pub fn decide(&self, alloc: Global, start: usize, value: &Value) -> Result<Decision, AllocError>
        requires there { start < length self.now.graph.nodes.items }
        ensures cut { IfOk result (IsDecision shape_of self.now.graph.nodes.items start (view value.now)
            (matches_with M.finds self.now.table [])) }
        ensures verdict { IfOk result (IsVerdictOf shape_of M.finds self.now.graph.nodes.items self.now.table start (view value.now)) }
    {
        decide(alloc, &self.graph, start, &self.table, value)
    }

    /// Whether a value is accepted from a node on, however its unfinished matches are answered.
    ///
    /// # Errors
    ///
    /// Where memory was refused.
    pub fn accepts_certain(
        &self,
        alloc: Global,
        start: usize,
        value: &Value,
    ) -> Result<bool, AllocError>
        requires there { start < length self.now.graph.nodes.items }
        ensures each { IfOk result (IsAccepting shape_of self.now.graph.nodes.items start (view value.now)
            (matches_with M.finds self.now.table [])) }
        ensures verdict { IfOk result (IsVerdict shape_of M.finds self.now.graph.nodes.items self.now.table start
            (view value.now)) }
        ensures certified { IfOk result (IsCertified shape_of M.finds self.now.graph.nodes.items self.now.table start
            (view value.now)) }
    {
        accepts_certain(alloc, &self.graph, start, &self.table, value)
    }

    /// The faults that a value has from a node on, however its unfinished matches are answered; or one `UnfinishedMatch`.
    ///
    /// # Errors
    ///
    /// Where memory was refused or a count of owners is full.
    pub fn tell_certain<'i>(
        &self,
        alloc: Global,
        start: usize,
        value: &'i Value,
    ) -> Result<Vec<ValidationError<'i>>, AllocError>
        requires there { start < length self.now.graph.nodes.items }
        ensures each { IfOk result (λ es. IsCertain shape_of self.now.graph.nodes.items start (view value.now)
            (matches_with M.finds self.now.table []) (faults_of es.items)) }
        ensures proper { IfOk result (λ es. are_proper es.items ≡ true) }
        ensures faults { IfOk result (λ es. AreThoseFaults shape_of M.finds self.now.graph.nodes.items self.now.table
            start (view value.now) (faults_of es.items)) }
        ensures certified { IfOk result (λ es. HaveThoseCertificates shape_of M.finds self.now.graph.nodes.items
            self.now.table start (view value.now) (faults_of es.items)) }
    {
        tell_certain(alloc, &self.graph, start, &self.table, value)
    }

    /// The first of these, if there is any.
    ///
    /// # Errors
    ///
    /// Where memory was refused or a count of owners is full.
    pub fn first_certain<'i>(
        &self,
        alloc: Global,
        start: usize,
        value: &'i Value,
    ) -> Result<Option<ValidationError<'i>>, AllocError>
        requires there { start < length self.now.graph.nodes.items }
        ensures each { IfOk result (IsFirst shape_of self.now.graph.nodes.items start (view value.now)
            (matches_with M.finds self.now.table [])) }
        ensures fault { IfOk result (IsOneOfThose shape_of M.finds self.now.graph.nodes.items self.now.table start
            (view value.now)) }
    {
        first_certain(alloc, &self.graph, start, &self.table, value)
    }

    /// Tells an observer of the faults of a value from a node on. Where references come back to where they were, the return tells nothing.
    ///
    /// # Errors
    ///
    /// Where memory was refused or a count of owners is full. The observer may have been told of some faults then.
    pub fn tell_faults<'o>(
        &self,
        alloc: Global,
        start: usize,
        value: &'o Value,
        observer: &mut Observer<'o>,
    ) -> Result<(), AllocError>
        requires there { start < length self.now.graph.nodes.items }
        ensures cut { OnOk result (HearsAnswer shape_of M.finds self.now.graph.nodes.items self.now.table start
            (view value.now) observer.old observer.new) }
        ensures agree { Agree shape_of M.finds self.now.graph.nodes.items self.now.table start (view value.now) }
        ensures faults { AreFaults shape_of M.finds self.now.graph.nodes.items self.now.table start (view value.now) }
        ensures certified { HaveCertificates shape_of M.finds self.now.graph.nodes.items self.now.table start
            (view value.now) }
    {
        let mut matching = self.direct();
        self.tell_faults_by(alloc, start, &mut matching, value, observer)
    }

    /// The same by whoever answers the matches of its patterns.
    ///
    /// # Errors
    ///
    /// Where memory was refused or a count of owners is full. The observer may have been told of some faults then.
    pub fn tell_faults_by<'o, T: Matching>(
        &self,
        alloc: Global,
        start: usize,
        matching: &mut T,
        value: &'o Value,
        observer: &mut Observer<'o>,
    ) -> Result<(), AllocError>
        requires there { start < length self.now.graph.nodes.items }
        requires meant { T.matches matching.old ≡ matches_of M.finds self.now.table }
        ensures matches { OnOk result (T.matches matching.new ≡ T.matches matching.old) }
        ensures cut { OnOk result (HearsAnswer shape_of M.finds self.now.graph.nodes.items self.now.table start
            (view value.now) observer.old observer.new) }
        ensures agree { Agree shape_of M.finds self.now.graph.nodes.items self.now.table start (view value.now) }
        ensures faults { AreFaults shape_of M.finds self.now.graph.nodes.items self.now.table start (view value.now) }
        ensures certified { HaveCertificates shape_of M.finds self.now.graph.nodes.items self.now.table start
            (view value.now) }
    {
        checking::tell_faults(
            alloc,
            &self.graph,
            start,
            &self.table,
            matching,
            value,
            observer,
        )
    }
}
