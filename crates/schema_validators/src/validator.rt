//! Validators.

ghost use Rattle.std.specs.Prelude.{◌≡◌, ◌<◌, length, map, OnOk, IfOk, IfErr, is_ok, codes, None, true, false};
ghost use Rattle.serde_json.specs.View.{view};
ghost use Rattle.schema_drafts.specs.Drafts as drafts;
ghost use Rattle.schema_meaning.specs.Faults.{Faults, Told, is_none};
ghost use Rattle.schema_definitions.specs.Lines.{paths_of};
ghost use Rattle.schema_reports.specs.Left.{errors_left};
ghost use Rattle.schema_reports.specs.Pairs.{pair_bytes};
ghost use Rattle.schema_reports.specs.Stands.{is_one_of};
ghost use Rattle.schema_reports.specs.Told.{fault_of, faults_of, error_is_proper, are_proper};
ghost use Rattle.schema_validators.specs.Heard.{SaysOne};
ghost use Rattle.schema_validators.specs.Meant.{AreOfSome};
ghost use Rattle.schema_registries.specs.Whole.{only_whole};
ghost use Rattle.graph_answers.specs.Tables.{AreForms, matches_of};
ghost use Rattle.schema_validators.specs.Numbers.{NamesOther};

use crate::error::{BuildError, NumberError};
use crate::options::ValidationOptions;
use compiled_graphs::schemas::SchemaGraph;
use graph_answers::direct::Direct;
use graph_answers::runs::Decision;
use regex_patterns::RegexMatcher;
use schema_drafts::draft::Draft;
use schema_engine::matching::Matching;
use schema_patterns::{PatternMaker, PatternMatcher, PatternTable};
use schema_registries::{DefaultRetriever, Documents, Retrieve, has_only_whole, other_number};
use schema_reports::heard::pairs_heard;
use schema_reports::{AllFaults, ErrorIterator, Observer, PathPairs, ValidationError};
use serde_json::Value;
use std::alloc::{AllocError, Global};
use std::rc::Rc;

/// A schema to validate by: the one that a reference leads to in documents that were prepared, with all that is reached from there.
///
/// It has them compiled into a graph, with the patterns that were made, and no document. The validators of a map share one graph.
#[derive(Drop)]
pub struct Validator<M: PatternMatcher = RegexMatcher> {
    pub(crate) alloc: Global,
    pub(crate) schemas: Rc<SchemaGraph<M>>,
    pub(crate) start: usize,
    pub(crate) draft: Draft,
    ghost there: { start < length schemas.value.graph.nodes.items },
    ghost of_some: { AreOfSome schemas.value.graph.nodes.items start },
}

impl Validator {
    /// How validators are built: by the draft 2020-12 and the base URI `json-schema:///`, by the patterns that `regex` reads, with nobody
    /// asked for documents, at most 256 of them, at most 65,536 compile keys, and no meta-schemas, until it is said otherwise.
    ///
    /// # Errors
    ///
    /// Where memory was refused.
    pub fn options(alloc: Global) -> Result<ValidationOptions, AllocError>
        ensures draft { IfOk result (λ o. o.draft ≡ drafts.newest) }
        ensures siblings { IfOk result (λ o. o.siblings ≡ false) }
        ensures base { IfOk result (λ o. o.base ≡ codes "json-schema:///") }
        ensures limit { IfOk result (λ o. o.limit ≡ 256) }
        ensures node_limit { IfOk result (λ o. o.node_limit ≡ 65536) }
        ensures meta_schemas { IfOk result (λ o. o.meta_schemas ≡ None) }
    {
        ValidationOptions::new(alloc)
    }
}

impl<M: PatternMatcher> Validator<M> {
    ghost use Rattle.schema_validators.specs.Calls.{IsVerdictOf, IsCertifiedOf, IsDecidedOf, IsFaultOf, AreFaultsOf};
    ghost use Rattle.schema_validators.specs.Calls.{HasCertificateOf, HaveCertificatesOf, TellsMissingOf};
    ghost use Rattle.schema_validators.specs.New.{IsNew, Refuses};
    ghost use Rattle.schema_validators.specs.Seen.{nodes_in, table_in};
    ghost use Rattle.schema_validators.specs.Told.{verdict_by, faults_by};
    ghost use Rattle.schema_validators.specs.ByNodes.{HearsBy, AreFaultsBy, HaveCertificatesBy, Decides};
    ghost use Rattle.schema_validators.specs.ByNodes.{AcceptsBy, TellsBy, SaysFirstBy, HasOpenBy};

    /// A validator of a schema by a maker of patterns, and by the options that stand until it is said otherwise: the schema is the document
    /// at the base URI, and the root of validation.
    ///
    /// It costs what `build` costs. The schema is not copied.
    ///
    /// # Errors
    ///
    /// Where a number of the schema is no whole number of 64 bits; those of `build`; and want of memory.
    pub fn new<P: PatternMaker<Matcher = M> + Drop>(
        alloc: Global,
        schema: Value,
        maker: P,
    ) -> Result<Validator<M>, BuildError>
        ensures built { IfOk result (IsNew
            (P.patterns maker) ⟦<DefaultRetriever as Retrieve>⟧.may_answer ⟦<DefaultRetriever as Retrieve>⟧.may_refuse maker (view schema)) }
        ensures refused { IfErr result (Refuses
            (P.patterns maker) ⟦<DefaultRetriever as Retrieve>⟧.may_answer ⟦<DefaultRetriever as Retrieve>⟧.may_refuse maker (view schema)) }
    {
        let options = Validator::options(alloc)?.with_pattern_maker(maker);
        let mut documents = Documents::new(alloc);
        match documents.add("", schema) {
            Ok(()) => options.build(&documents, ""),
            Err(error) => Err(BuildError::from(error)),
        }
    }

    /// There is a root, and a maker of patterns, by which nothing is wrong at the schemas reached, that its nodes mean. It does nothing.
    pub fn root_is_sound(&self)
        ensures { AreOfSome (nodes_in self.now) self.now.start }
    {}

    /// The draft of the root.
    pub fn draft(&self) -> Draft
        ensures { result ≡ self.now.draft }
    {
        self.draft
    }

    /// Whether a value is valid: however the matches that stay unfinished are answered.
    ///
    /// Its numbers are whole numbers of 64 bits, as `has_only_whole` tells; `check_json` tests that by itself. It stops as soon as that is
    /// decided, and takes no memory but for one stack of questions. A value at which references come back to where they were is read as
    /// the cut reading does: the return is accepted. Where a match stays unfinished there are up to 64 runs in all, by what is assumed of such
    /// matches; a value that is not decided by them is not accepted.
    ///
    /// # Errors
    ///
    /// Where memory was refused.
    pub fn is_valid(&self, value: &Value) -> Result<bool, AllocError>
        requires whole { only_whole (view value.now) ≡ true }
        ensures each { IfOk result (AcceptsBy self.now (view value.now)) }
        ensures cut { IfOk result (λ b. (HasOpenBy self.now (view value.now) → ⊥)
            → b ≡ verdict_by self.now (view value.now)) }
        ensures verdict { IfOk result (IsVerdictOf self.now (view value.now)) }
        ensures certified { IfOk result (IsCertifiedOf self.now (view value.now)) }
    {
        self.schemas.accepts_certain(self.alloc, self.start, value)
    }

    /// What is decided of a value, some of whose matches may stay unfinished: whether it is accepted however they are answered.
    ///
    /// Its numbers are whole numbers of 64 bits. A run stops at the first match that is neither finished nor assumed, and is begun again
    /// with that one assumed no, then yes. There are 64 runs at most, so that five such matches are decided. With none of them one run is all.
    ///
    /// # Errors
    ///
    /// Where memory was refused.
    pub fn decide(&self, value: &Value) -> Result<Decision, AllocError>
        requires whole { only_whole (view value.now) ≡ true }
        ensures cut { IfOk result (Decides self.now (view value.now)) }
        ensures verdict { IfOk result (IsDecidedOf self.now (view value.now)) }
    {
        self.schemas.decide(self.alloc, self.start, value)
    }

    /// The patterns that its schemas ask for, by their numbers.
    pub fn patterns(&self) -> &PatternTable<M>
        ensures table { result.now ≡ table_in self.now }
        ensures forms { AreForms M.finds result.now }
    {
        self.schemas.patterns()
    }

    /// What asks each match of this validator's patterns anew.
    pub fn direct(&self) -> Direct<'_, M>
        ensures { matches_of M.finds result.table.now ≡ matches_of M.finds (table_in self.now) }
    {
        self.schemas.direct()
    }

    /// Whether a value is valid, by whoever answers the matches of this validator's patterns. Its numbers are whole numbers of 64 bits.
    ///
    /// # Errors
    ///
    /// Where memory was refused.
    pub fn is_valid_by<T: Matching>(
        &self,
        matching: &mut T,
        value: &Value,
    ) -> Result<bool, AllocError>
        requires whole { only_whole (view value.now) ≡ true }
        requires meant { T.matches matching.old ≡ matches_of M.finds (table_in self.now) }
        ensures matches { OnOk result (T.matches matching.new ≡ T.matches matching.old) }
        ensures cut { IfOk result (λ b. b ≡ verdict_by self.now (view value.now)) }
        ensures verdict { IfOk result (IsVerdictOf self.now (view value.now)) }
        ensures certified { IfOk result (IsCertifiedOf self.now (view value.now)) }
    {
        self.schemas
            .is_valid_by(self.alloc, self.start, matching, value)
    }

    /// Nothing where a value is valid, and else one of its faults: the first that is met of those that it has however the matches that stay
    /// unfinished are answered; or, where there is none known, an `UnfinishedMatch`.
    ///
    /// Its numbers are whole numbers of 64 bits, as `has_only_whole` tells. It stops at the first fault, and the paths are written out for
    /// that one alone. Where a match stays unfinished it costs what `iter_errors` costs.
    ///
    /// # Errors
    ///
    /// Where memory was refused or a count of owners is full.
    pub fn validate<'i>(
        &self,
        value: &'i Value,
    ) -> Result<Result<(), ValidationError<'i>>, AllocError>
        requires whole { only_whole (view value.now) ≡ true }
        ensures each { IfOk result (SaysFirstBy self.now (view value.now)) }
        ensures cut { IfOk result (λ answer. (HasOpenBy self.now (view value.now) → ⊥)
            → is_ok answer ≡ verdict_by self.now (view value.now)) }
        ensures one { IfOk result (λ answer. (HasOpenBy self.now (view value.now) → ⊥)
            → IfErr answer (λ e. Told (fault_of e) (faults_by self.now (view value.now)))) }
        ensures verdict { IfOk result (λ answer. IsVerdictOf self.now (view value.now) (is_ok answer)) }
        ensures fault { IfOk result (λ answer. IfErr answer (λ e. IsFaultOf self.now (view value.now) (fault_of e))) }
        ensures proper { IfOk result (λ answer. IfErr answer (λ e. error_is_proper e ≡ true)) }
        ensures certified { IfOk result (λ answer. IfErr answer (λ e. HasCertificateOf self.now (view value.now)
            (fault_of e))) }
    {
        self.first_fault(value)
    }

    // The same of any value that the JSON reader gives.
    pub(crate) fn first_fault<'i>(
        &self,
        value: &'i Value,
    ) -> Result<Result<(), ValidationError<'i>>, AllocError>
        ensures each { IfOk result (SaysFirstBy self.now (view value.now)) }
        ensures cut { IfOk result (λ answer. (HasOpenBy self.now (view value.now) → ⊥)
            → is_ok answer ≡ verdict_by self.now (view value.now)) }
        ensures one { IfOk result (λ answer. (HasOpenBy self.now (view value.now) → ⊥)
            → IfErr answer (λ e. Told (fault_of e) (faults_by self.now (view value.now)))) }
        ensures verdict { IfOk result (λ answer. IsVerdictOf self.now (view value.now) (is_ok answer)) }
        ensures fault { IfOk result (λ answer. IfErr answer (λ e. IsFaultOf self.now (view value.now) (fault_of e))) }
        ensures proper { IfOk result (λ answer. IfErr answer (λ e. error_is_proper e ≡ true)) }
        ensures certified { IfOk result (λ answer. IfErr answer (λ e. HasCertificateOf self.now (view value.now)
            (fault_of e))) }
    {
        let first = self.schemas.first_certain(self.alloc, self.start, value)?;
        Ok(refused(first))
    }

    /// What `validate` says of a value that may have other numbers than whole ones of 64 bits.
    ///
    /// It walks the value once for its numbers before it answers.
    ///
    /// # Errors
    ///
    /// Where a number is no whole number of 64 bits: the path of the first. Where memory was refused or a count of owners is full.
    pub fn check_json<'i>(
        &self,
        alloc: Global,
        value: &'i Value,
    ) -> Result<Result<(), ValidationError<'i>>, NumberError>
        ensures whole { OnOk result (only_whole (view value.now) ≡ true) }
        ensures each { IfOk result (SaysFirstBy self.now (view value.now)) }
        ensures cut { IfOk result (λ answer. (HasOpenBy self.now (view value.now) → ⊥)
            → is_ok answer ≡ verdict_by self.now (view value.now)) }
        ensures one { IfOk result (λ answer. (HasOpenBy self.now (view value.now) → ⊥)
            → IfErr answer (λ e. Told (fault_of e) (faults_by self.now (view value.now)))) }
        ensures verdict { IfOk result (λ answer. IsVerdictOf self.now (view value.now) (is_ok answer)) }
        ensures fault { IfOk result (λ answer. IfErr answer (λ e. IsFaultOf self.now (view value.now) (fault_of e))) }
        ensures proper { IfOk result (λ answer. IfErr answer (λ e. error_is_proper e ≡ true)) }
        ensures certified { IfOk result (λ answer. IfErr answer (λ e. HasCertificateOf self.now (view value.now)
            (fault_of e))) }
        ensures refused { IfErr result (NamesOther (view value.now)) }
    {
        if !has_only_whole(value) {
            return Err(NumberError::Other {
                path: other_number(alloc, value)?,
            });
        }
        Ok(self.first_fault(value)?)
    }

    /// The faults of a value, in the order in which they are met: those that it has however the matches that stay unfinished are answered; or,
    /// where it is not accepted by each answer and no such fault is known, one `UnfinishedMatch` alone.
    ///
    /// Its numbers are whole numbers of 64 bits, as `has_only_whole` tells. All faults are gathered before the first is given, each with its
    /// three paths written out. Each application of `required` at the root, below keywords that tell what their subschemas tell, and below the
    /// `then` or `else` that is asked, tells each name that it lists and the value lacks. Where a match stays unfinished there are up to
    /// 64 runs in all, and a walk for where it is asked if an `UnfinishedMatch` is told.
    ///
    /// # Errors
    ///
    /// Where memory was refused, as it may be for a match that only this walk asks, or a count of owners is full.
    pub fn iter_errors<'i>(&self, value: &'i Value) -> Result<ErrorIterator<'i>, AllocError>
        requires whole { only_whole (view value.now) ≡ true }
        ensures each { IfOk result (λ errors. TellsBy self.now (view value.now) (faults_of (errors_left errors))) }
        ensures cut { IfOk result (λ errors. (HasOpenBy self.now (view value.now) → ⊥)
            → faults_of (errors_left errors) ≡ faults_by self.now (view value.now)) }
        ensures agree { OnOk result (is_none (faults_by self.now (view value.now)) ≡ verdict_by self.now (view value.now)) }
        ensures faults { IfOk result (λ errors. AreFaultsOf self.now (view value.now) (faults_of (errors_left errors))) }
        ensures proper { IfOk result (λ errors. are_proper (errors_left errors) ≡ true) }
        ensures certified { IfOk result (λ errors. HaveCertificatesOf self.now (view value.now) (faults_of
            (errors_left errors))) }
        ensures missing { IfOk result (λ errors. TellsMissingOf self.now (view value.now) (faults_of
            (errors_left errors))) }
    {
        self.all_faults(value)
    }

    /// The faults of a value, in the order in which they are met, by whoever answers the matches of this validator's patterns. Its numbers are
    /// whole numbers of 64 bits.
    ///
    /// # Errors
    ///
    /// Where memory was refused or a count of owners is full.
    pub fn errors_by<'i, T: Matching>(
        &self,
        matching: &mut T,
        value: &'i Value,
    ) -> Result<ErrorIterator<'i>, AllocError>
        requires whole { only_whole (view value.now) ≡ true }
        requires meant { T.matches matching.old ≡ matches_of M.finds (table_in self.now) }
        ensures matches { OnOk result (T.matches matching.new ≡ T.matches matching.old) }
        ensures cut { IfOk result (λ errors. faults_of (errors_left errors) ≡ faults_by self.now (view value.now)) }
        ensures agree { OnOk result (is_none (faults_by self.now (view value.now)) ≡ verdict_by self.now (view value.now)) }
        ensures faults { IfOk result (λ errors. AreFaultsOf self.now (view value.now) (faults_of (errors_left errors))) }
        ensures proper { IfOk result (λ errors. are_proper (errors_left errors) ≡ true) }
        ensures certified { IfOk result (λ errors. HaveCertificatesOf self.now (view value.now) (faults_of
            (errors_left errors))) }
        ensures missing { IfOk result (λ errors. TellsMissingOf self.now (view value.now) (faults_of
            (errors_left errors))) }
    {
        self.all_faults_by(matching, value)
    }

    /// The two paths of each fault of a value, in the order in which they are met, as pointers' texts: that in the instance, and that of
    /// evaluation.
    ///
    /// They are those of [`Self::errors_by`], and nothing else is made of a fault. The value's numbers are whole numbers of 64 bits.
    ///
    /// # Errors
    ///
    /// Where memory was refused or a count of owners is full.
    pub fn pairs_by<T: Matching>(
        &self,
        matching: &mut T,
        value: &Value,
    ) -> Result<Vec<(String, String)>, AllocError>
        requires whole { only_whole (view value.now) ≡ true }
        requires meant { T.matches matching.old ≡ matches_of M.finds (table_in self.now) }
        ensures matches { OnOk result (T.matches matching.new ≡ T.matches matching.old) }
        ensures cut { IfOk result (λ pairs. map pair_bytes pairs.items ≡ paths_of (faults_by self.now (view value.now))) }
        ensures agree { OnOk result (is_none (faults_by self.now (view value.now)) ≡ verdict_by self.now (view value.now)) }
        ensures faults { OnOk result (AreFaultsOf self.now (view value.now) (faults_by self.now (view value.now))) }
        ensures certified { OnOk result (HaveCertificatesOf self.now (view value.now) (faults_by self.now
            (view value.now))) }
    {
        let observer = Observer::Paths(PathPairs::new(self.alloc));
        let observer = self.told(matching, value, observer)?;
        Ok(pairs_heard(self.alloc, observer))
    }

    // All faults of any value that the JSON reader gives.
    pub(crate) fn all_faults<'i>(&self, value: &'i Value) -> Result<ErrorIterator<'i>, AllocError>
        ensures each { IfOk result (λ errors. TellsBy self.now (view value.now) (faults_of (errors_left errors))) }
        ensures verdict { IfOk result (λ errors. IsVerdictOf self.now (view value.now) (is_none (faults_of
            (errors_left errors)))) }
        ensures faults { IfOk result (λ errors. AreFaultsOf self.now (view value.now) (faults_of (errors_left errors))) }
        ensures proper { IfOk result (λ errors. are_proper (errors_left errors) ≡ true) }
        ensures certified { IfOk result (λ errors. HaveCertificatesOf self.now (view value.now) (faults_of
            (errors_left errors))) }
        ensures missing { IfOk result (λ errors. TellsMissingOf self.now (view value.now) (faults_of
            (errors_left errors))) }
    {
        let errors = self.schemas.tell_certain(self.alloc, self.start, value)?;
        Ok(ErrorIterator::of(errors))
    }

    // All faults by whoever answers the matches; one that stays unfinished is read as that one reads it.
    fn all_faults_by<'i, T: Matching>(
        &self,
        matching: &mut T,
        value: &'i Value,
    ) -> Result<ErrorIterator<'i>, AllocError>
        requires meant { T.matches matching.old ≡ matches_of M.finds (table_in self.now) }
        ensures matches { OnOk result (T.matches matching.new ≡ T.matches matching.old) }
        ensures cut { IfOk result (λ errors. faults_of (errors_left errors) ≡ faults_by self.now (view value.now)) }
        ensures agree { OnOk result (is_none (faults_by self.now (view value.now)) ≡ verdict_by self.now (view value.now)) }
        ensures verdict { IfOk result (λ errors. IsVerdictOf self.now (view value.now) (is_none (faults_of
            (errors_left errors)))) }
        ensures faults { IfOk result (λ errors. AreFaultsOf self.now (view value.now) (faults_of (errors_left errors))) }
        ensures proper { IfOk result (λ errors. are_proper (errors_left errors) ≡ true) }
        ensures certified { IfOk result (λ errors. HaveCertificatesOf self.now (view value.now) (faults_of
            (errors_left errors))) }
        ensures missing { IfOk result (λ errors. TellsMissingOf self.now (view value.now) (faults_of
            (errors_left errors))) }
    {
        let observer = self.told(matching, value, Observer::All(AllFaults::new(self.alloc)))?;
        match observer {
            Observer::All(all) => Ok(ErrorIterator::of(all.into_errors())),
            Observer::Verdict(_verdict) => unreachable!(),
            Observer::First(_first) => unreachable!(),
            Observer::Paths(_paths) => unreachable!(),
        }
    }

    // An observer that was told of the faults of a value.
    fn told<'i, T: Matching>(
        &self,
        matching: &mut T,
        value: &'i Value,
        mut observer: Observer<'i>,
    ) -> Result<Observer<'i>, AllocError>
        requires meant { T.matches matching.old ≡ matches_of M.finds (table_in self.now) }
        ensures matches { OnOk result (T.matches matching.new ≡ T.matches matching.old) }
        ensures heard { IfOk result (λ o. HearsBy self.now (view value.now) observer.entry o) }
        ensures agree { OnOk result (is_none (faults_by self.now (view value.now)) ≡ verdict_by self.now (view value.now)) }
        ensures faults { OnOk result (AreFaultsBy self.now (view value.now)) }
        ensures certified { OnOk result (HaveCertificatesBy self.now (view value.now)) }
    {
        self.schemas
            .tell_faults_by(self.alloc, self.start, matching, value, &mut observer)?;
        Ok(observer)
    }
}

// The error, if there is one.
fn refused<'i>(first: Option<ValidationError<'i>>) -> Result<(), ValidationError<'i>>
    ensures { (fs : Faults) → is_one_of first.entry fs → SaysOne result fs }
{
    match first {
        Some(error) => Err(error),
        None => Ok(()),
    }
}
