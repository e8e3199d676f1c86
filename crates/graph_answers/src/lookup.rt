//! The pattern of a number.
ghost use Rattle.std.specs.Prelude.{◌≡◌, [], IfNone, option_copied};
ghost use Rattle.schema_patterns.specs.Tables.{pattern_for, texts_of_table};
ghost use Rattle.graph_answers.specs.Tables.{table_texts};

use schema_patterns::{CompiledPattern, PatternMatcher, PatternTable};

/// The pattern of a number's text, which is the empty one where the table lacks the number. It is one look-up.
pub fn pattern_at<'v, M: PatternMatcher>(
    table: &'v PatternTable<M>,
    number: usize,
) -> Option<&'v CompiledPattern<M>>
    ensures found { option_copied result ≡ pattern_for table.now (table_texts (texts_of_table table.now) number) }
    ensures absent { IfNone result (table_texts (texts_of_table table.now) number ≡ []) }
{
    match table.at(number) {
        Some((_, compiled)) => Some(compiled),
        None => table.get(""),
    }
}

/// The text of a number's pattern, an empty one where the table lacks the number. It is one look-up.
pub fn text_at<'v, M: PatternMatcher>(table: &'v PatternTable<M>, number: usize) -> &'v str
    ensures { result.now ≡ table_texts (texts_of_table table.now) number }
{
    match table.at(number) {
        Some((text, _)) => text,
        None => "",
    }
}
