//! What is said of each kind of error.
ghost use Rattle.std.specs.Prelude.{◌≡◌, ◌++◌, ◌∷◌, [], map, string_bytes, OnOk};
ghost use Rattle.schema_reports.specs.Phrases.{phrase_of};
ghost use Rattle.schema_reports.specs.Sentences as spec;
ghost use Rattle.assertions.specs.Named.{names_in};

use crate::error::ValidationError;
use crate::kind::ValidationErrorKind as Kind;
use crate::phrases::Phrase;
use assertions::TypeNames;
use std::alloc::AllocError;

/// Appends what is said of an error: its value, the words of its kind, and what the kind carries.
pub(crate) fn push_sentence<'e>(
    phrases: &mut Vec<Phrase<'e>>,
    error: &'e ValidationError<'_>,
) -> Result<(), AllocError>
    ensures { OnOk result (map phrase_of phrases.new.items ≡ map phrase_of phrases.old.items ++ spec.sentence_of error.now) }
{
    phrases.push(Phrase::Value(error.instance.value()))?;
    phrases.push(Phrase::Words(said(&error.kind)))?;
    push_named(phrases, &error.kind)
}

// What is said of the value.
fn said(kind: &Kind<'_>) -> &'static str
    ensures { result.now ≡ spec.said kind.now }
{
    match kind {
        Kind::AdditionalItems => " has an item that is not allowed",
        Kind::AdditionalProperties { .. } => " has members that are not allowed: ",
        Kind::AnyOf { .. } => " is to be accepted by a schema of anyOf, and is by ",
        Kind::Constant { .. } => " differs from the constant ",
        Kind::Contains => " has too few or too many items that contains accepts",
        Kind::Enumeration { .. } => " is none of the values ",
        Kind::ExclusiveMaximum { .. } => " is not below the exclusive maximum ",
        Kind::ExclusiveMinimum { .. } => " is not above the exclusive minimum ",
        Kind::FalseSchema => " is refused by the schema false",
        Kind::MaxItems { .. } => " has more items than the maximum ",
        Kind::Maximum { .. } => " is above the maximum ",
        Kind::MaxLength { .. } => " has more characters than the maximum ",
        Kind::MaxProperties { .. } => " has more members than the maximum ",
        Kind::MinItems { .. } => " has fewer items than the minimum ",
        Kind::Minimum { .. } => " is below the minimum ",
        Kind::MinLength { .. } => " has fewer characters than the minimum ",
        Kind::MinProperties { .. } => " has fewer members than the minimum ",
        Kind::MultipleOf { .. } => " is not a multiple of ",
        Kind::Not { .. } => " is accepted by the schema of not: ",
        Kind::OneOfMultipleValid { .. } | Kind::OneOfNotValid { .. } => {
            " is to be accepted by exactly one schema of oneOf, and is by "
        }
        Kind::Pattern { .. } => " does not match the pattern ",
        Kind::PropertyNames { .. } => " has a name that is refused: ",
        Kind::Required { .. } => " has no member of the required name ",
        Kind::Types { .. } => " is not of type ",
        Kind::UniqueItems => " has items that are equal",
        Kind::UnfinishedMatch { .. } => " goes by a match that stays unfinished, of the pattern ",
    }
}

// What the kind carries.
fn push_named<'e>(phrases: &mut Vec<Phrase<'e>>, kind: &'e Kind<'_>) -> Result<(), AllocError>
    ensures { OnOk result (map phrase_of phrases.new.items ≡ map phrase_of phrases.old.items ++ spec.named kind.now) }
{
    match kind {
        Kind::AdditionalItems | Kind::Contains | Kind::FalseSchema | Kind::UniqueItems => Ok(()),
        Kind::AdditionalProperties { unexpected } => push_names(phrases, unexpected),
        Kind::AnyOf { context }
        | Kind::OneOfMultipleValid { context }
        | Kind::OneOfNotValid { context } => push_counted(phrases, context.branches()),
        Kind::Constant {
            expected_value: value,
        }
        | Kind::Enumeration { options: value }
        | Kind::ExclusiveMaximum { limit: value }
        | Kind::ExclusiveMinimum { limit: value }
        | Kind::Maximum { limit: value }
        | Kind::Minimum { limit: value }
        | Kind::MultipleOf { multiple_of: value }
        | Kind::Not { schema: value } => push(phrases, Phrase::Value(value)),
        Kind::MaxItems { limit }
        | Kind::MaxLength { limit }
        | Kind::MaxProperties { limit }
        | Kind::MinItems { limit }
        | Kind::MinLength { limit }
        | Kind::MinProperties { limit } => push(phrases, Phrase::Count(*limit)),
        Kind::Pattern { pattern: name }
        | Kind::Required { property: name }
        | Kind::UnfinishedMatch { pattern: name } => push(phrases, Phrase::Name(name.as_str())),
        Kind::PropertyNames { error } => {
            push(phrases, Phrase::Value(error.instance.value()))?;
            push(phrases, Phrase::Words(said(&error.kind)))?;
            push_named(phrases, &error.kind)
        }
        Kind::Types { names } => push_types(phrases, names),
    }
}

/// Appends a phrase.
pub(crate) fn push<'e>(phrases: &mut Vec<Phrase<'e>>, phrase: Phrase<'e>) -> Result<(), AllocError>
    ensures { OnOk result (map phrase_of phrases.new.items ≡ map phrase_of phrases.old.items ++ phrase_of phrase.entry ∷ []) }
{
    phrases.push(phrase)?;
    Ok(())
}

// Names with commas between.
fn push_names<'e>(phrases: &mut Vec<Phrase<'e>>, names: &'e [String]) -> Result<(), AllocError>
    ensures { OnOk result (map phrase_of phrases.new.items ≡ map phrase_of phrases.old.items ++ spec.names_listed (map string_bytes names.now)) }
{
    let Some((first, rest)) = names.split_first() else {
        return Ok(());
    };
    push(phrases, Phrase::Name(first.as_str()))?;
    for name in rest {
        push(phrases, Phrase::Words(", "))?;
        push(phrases, Phrase::Name(name.as_str()))?;
    }
    Ok(())
}

// Types with "or" between.
fn push_types<'e>(phrases: &mut Vec<Phrase<'e>>, names: &TypeNames) -> Result<(), AllocError>
    ensures { OnOk result (map phrase_of phrases.new.items ≡ map phrase_of phrases.old.items ++ spec.types_listed (names_in names.now)) }
{
    let Some((first, rest)) = names.as_slice().split_first() else {
        return Ok(());
    };
    push(phrases, Phrase::Words(first.as_str()))?;
    for json_type in rest {
        push(phrases, Phrase::Words(" or "))?;
        push(phrases, Phrase::Words(json_type.as_str()))?;
    }
    Ok(())
}

// How many branches accept, and of how many.
fn push_counted<'e>(
    phrases: &mut Vec<Phrase<'e>>,
    branches: &[Vec<ValidationError<'_>>],
) -> Result<(), AllocError>
    ensures { OnOk result (map phrase_of phrases.new.items ≡ map phrase_of phrases.old.items ++ spec.counted branches.now) }
{
    let accepting = branches.iter().filter(|errors| errors.is_empty()).count();
    push(phrases, Phrase::Count(accepting as u64))?;
    push(phrases, Phrase::Words(" of "))?;
    push(phrases, Phrase::Count(branches.len() as u64))
}
