//! What is written for a line.
ghost use Rattle.std.specs.Prelude.{◌≡◌, ◌++◌, ℕ, List, Some, None, true, false, IfOk, IfSome, OnOk, option_map, string_bytes};
ghost use Rattle.serde_json.specs.View.{view};
ghost use Rattle.graph_answers.specs.Tables.{matches_of};
ghost use Rattle.line_cuts.specs.Runs.{is_refused};
ghost use Rattle.regex_patterns.specs.Matchers.{finds_by_regex};
ghost use Rattle.schema_registries.specs.Whole.{only_whole};
ghost use Rattle.schema_validators.specs.Seen.{table_in};
ghost use Rattle.schema_validators.specs.Told.{verdict_by};
ghost use Rattle.line_runs.specs.Forms.{IsCertainText, IsLineToldBy, IsToldBy, refuses_in};
ghost use Rattle.line_runs.specs.Counts.{IsLabel};
ghost use Rattle.line_runs.specs.Runs.{IsLineTextCertain};

use crate::counts::{LineCounts, LineVerdict};
use crate::form::LineForm;
use error_texts::{write_faults, write_paths};
use line_cuts::LineAnswers;
use regex_patterns::kept::Kept;
use schema_engine::matching::Matching;
use schema_patterns::PatternMatcher;
use schema_registries::line_value;
use schema_validators::Validator;
use serde_json::Value;
use std::alloc::{AllocError, Global};

// Answers each line in a form, and keeps the searches for patterns from line to line.
#[derive(Drop)]
pub(crate) struct FormedLines<'v> {
    pub(crate) alloc: Global,
    pub(crate) validator: &'v Validator,
    pub(crate) form: LineForm,
}

// What is kept from line to line: the searches, how many lines were answered, and the names of those to come where they have names.
#[derive(Drop)]
pub(crate) struct KeptLines<'v> {
    pub(crate) searches: Kept<'v>,
    pub(crate) counts: LineCounts,
    pub(crate) names: &'v [&'v str],
}

// What people call the next line in a form: its name, or its number, from 1 on.
fn next_label(
    alloc: Global,
    form: LineForm,
    names: &[&str],
    counts: LineCounts,
) -> Result<String, AllocError>
    ensures { form ≡ LineForm.Sentences → IfOk result (IsLabel names.now counts) }
{
    if form != LineForm::Sentences {
        return Ok(String::new(alloc));
    }
    match names.first() {
        Some(name) => String::from_str(alloc, name),
        None => format!(in alloc; "{}", counts.lines().saturating_add(1)),
    }
}

impl<'v> LineAnswers for FormedLines<'v> {
    type Kept = KeptLines<'v>;

    ghost answers = { λ s. IsLineToldBy s.form s.validator.now };

    ghost refuses = { λ s. refuses_in s.form };

    ghost keeps = { λ s kept. matches_of finds_by_regex kept.searches.table.now ≡ matches_of finds_by_regex (table_in s.validator.now) };

    fn answer(
        &self,
        kept: &mut KeptLines<'v>,
        line: &[u8],
        text: &mut String,
    ) -> Result<(), AllocError> {
        let label = next_label(self.alloc, self.form, kept.names, kept.counts)?;
        let task = LineTask {
            alloc: self.alloc,
            form: self.form,
            validator: self.validator,
            label: label.as_str(),
        };
        let verdict = task.answer_line(&mut kept.searches, line, text)?;
        kept.counts.add(verdict);
        kept.names = kept.names.get(1..).unwrap_or(&[]);
        Ok(())
    }

    fn is_refused(&self, written: &[u8]) -> bool {
        self.form.is_refused(written)
    }
}

// Answers each line with the faults of its value, and keeps nothing.
#[derive(Drop)]
pub(crate) struct LineFaults<'v, M: PatternMatcher> {
    pub(crate) alloc: Global,
    pub(crate) validator: &'v Validator<M>,
}

impl<M: PatternMatcher> LineAnswers for LineFaults<'_, M> {
    type Kept = ();

    ghost answers = { λ s. IsLineTextCertain s.validator.now };

    ghost refuses = { λ s. is_refused };

    ghost keeps = { λ _ _. Unit };

    fn answer(&self, kept: &mut (), line: &[u8], text: &mut String) -> Result<(), AllocError> {
        let value = line_value(self.alloc, line)?;
        self.answer_read(&value, text)?;
        text.push_str("\n")?;
        Ok(())
    }

    fn is_refused(&self, written: &[u8]) -> bool {
        LineForm::Pairs.is_refused(written)
    }
}

impl<M: PatternMatcher> LineFaults<'_, M> {
    // What is written for a value, or for a line that has none.
    fn answer_read(&self, value: &Option<Value>, text: &mut String) -> Result<(), AllocError>
        requires whole { IfSome value.now (λ v. only_whole (view v) ≡ true) }
        ensures { OnOk result ((written : List ℕ)
            × IsCertainText self.now.validator.now (option_map (λ v. view v) value.now) written
            × (string_bytes text.new ≡ string_bytes text.old ++ written)) }
    {
        match value {
            Some(value) => self.answer_value(value, text),
            None => text.push_str("null"),
        }
    }

    // What is written for a value.
    fn answer_value(&self, value: &Value, text: &mut String) -> Result<(), AllocError>
        requires whole { only_whole (view value.now) ≡ true }
        ensures { OnOk result ((written : List ℕ)
            × IsCertainText self.now.validator.now (Some (view value.now)) written
            × (string_bytes text.new ≡ string_bytes text.old ++ written)) }
    {
        let errors = self.validator.iter_errors(value)?;
        write_faults(self.alloc, errors, text)
    }
}

// How a line is to be answered.
#[derive(Drop)]
struct LineTask<'t, M: PatternMatcher> {
    alloc: Global,
    form: LineForm,
    validator: &'t Validator<M>,
    // What people call the line.
    label: &'t str,
}

impl<M: PatternMatcher> LineTask<'_, M> {
    // Answers a line, and tells how its value stands.
    fn answer_line<T: Matching>(
        &self,
        matching: &mut T,
        line: &[u8],
        text: &mut String,
    ) -> Result<LineVerdict, AllocError>
        requires meant { T.matches matching.old ≡ matches_of M.finds (table_in self.now.validator.now) }
        ensures matches { OnOk result (T.matches matching.new ≡ T.matches matching.old) }
        ensures answered { OnOk result ((written : List ℕ)
            × IsLineToldBy self.now.form self.now.validator.now line.now written
            × (string_bytes text.new ≡ string_bytes text.old ++ written)) }
    {
        let value = line_value(self.alloc, line)?;
        let verdict = self.answer_read(matching, line, &value, text)?;
        text.push_str(self.form.end())?;
        Ok(verdict)
    }

    // What is written for a value, or for a line that has none.
    fn answer_read<T: Matching>(
        &self,
        matching: &mut T,
        line: &[u8],
        value: &Option<Value>,
        text: &mut String,
    ) -> Result<LineVerdict, AllocError>
        requires whole { IfSome value.now (λ v. only_whole (view v) ≡ true) }
        requires meant { T.matches matching.old ≡ matches_of M.finds (table_in self.now.validator.now) }
        ensures matches { OnOk result (T.matches matching.new ≡ T.matches matching.old) }
        ensures answered { OnOk result ((written : List ℕ)
            × IsToldBy self.now.form self.now.validator.now (option_map (λ v. view v) value.now) written
            × (string_bytes text.new ≡ string_bytes text.old ++ written)) }
    {
        match value {
            Some(value) => self.answer_value(matching, value, text),
            None => self.answer_none(line, text),
        }
    }

    // What is written for a value. Its verdict is asked first, and the faults are told only where that is no.
    fn answer_value<T: Matching>(
        &self,
        matching: &mut T,
        value: &Value,
        text: &mut String,
    ) -> Result<LineVerdict, AllocError>
        requires whole { only_whole (view value.now) ≡ true }
        requires meant { T.matches matching.old ≡ matches_of M.finds (table_in self.now.validator.now) }
        ensures matches { OnOk result (T.matches matching.new ≡ T.matches matching.old) }
        ensures answered { OnOk result ((written : List ℕ)
            × IsToldBy self.now.form self.now.validator.now (Some (view value.now)) written
            × (string_bytes text.new ≡ string_bytes text.old ++ written)) }
    {
        if self.validator.is_valid_by(matching, value)? {
            self.form.write_accepted(text)?;
            return Ok(LineVerdict::Valid);
        }
        self.answer_refused(matching, value, text)?;
        Ok(LineVerdict::Refused)
    }

    // What is written for a value that is refused. Where that is pairs of paths, its faults are told by these alone.
    fn answer_refused<T: Matching>(
        &self,
        matching: &mut T,
        value: &Value,
        text: &mut String,
    ) -> Result<(), AllocError>
        requires whole { only_whole (view value.now) ≡ true }
        requires meant { T.matches matching.old ≡ matches_of M.finds (table_in self.now.validator.now) }
        requires refused { verdict_by self.now.validator.now (view value.now) ≡ false }
        ensures matches { OnOk result (T.matches matching.new ≡ T.matches matching.old) }
        ensures answered { OnOk result ((written : List ℕ)
            × IsToldBy self.now.form self.now.validator.now (Some (view value.now)) written
            × (string_bytes text.new ≡ string_bytes text.old ++ written)) }
    {
        match self.form {
            LineForm::Pairs => {
                let pairs = self.validator.pairs_by(matching, value)?;
                write_paths(self.alloc, pairs, text)
            }
            LineForm::Objects | LineForm::Sentences => {
                let errors = self.validator.errors_by(matching, value)?;
                self.form
                    .write_refused(self.alloc, self.label, errors, text)
            }
        }
    }

    // What is written for a line that has no value.
    fn answer_none(&self, line: &[u8], text: &mut String) -> Result<LineVerdict, AllocError>
        ensures { OnOk result ((written : List ℕ) × IsToldBy self.now.form self.now.validator.now None written
            × (string_bytes text.new ≡ string_bytes text.old ++ written)) }
    {
        self.form.write_none(self.alloc, self.label, line, text)?;
        Ok(LineVerdict::Unread)
    }
}
