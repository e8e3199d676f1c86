//! Laws of literal forms of patterns and of completions of matches, for proofs to cite. These functions do nothing.

ghost use Rattle.schema_patterns.specs.LiteralLaws.{LiteralsAreReadBack, CompletionsKeepKnownMatches, EveryChoiceIsACompletion, LiteralFormsAreTheGrammar};

/// The pattern of a literal form is read as that form.
#[tactic(auto, using(crate::proofs::LiteralProofs::literals_are_read_back))]
pub fn literals_are_read_back()
    ensures { LiteralsAreReadBack }
{}

/// Each completion reads a known match as it is.
#[tactic(auto, using(crate::proofs::LiteralProofs::completions_keep_known_matches))]
pub fn completions_keep_known_matches()
    ensures { CompletionsKeepKnownMatches }
{}

/// Each choice of the matches that are not known is read by some completion.
#[tactic(auto, using(crate::proofs::LiteralProofs::every_choice_is_a_completion))]
pub fn every_choice_is_a_completion()
    ensures { EveryChoiceIsACompletion }
{}

/// A pattern is read as a literal form just where the grammar of the forms writes it.
#[tactic(auto, using(crate::proofs::LiteralProofs::literal_forms_are_the_grammar))]
pub fn literal_forms_are_the_grammar()
    ensures { LiteralFormsAreTheGrammar }
{}
