//! The rules that compiled keywords follow.
ghost use Rattle.std.specs.Prelude.{◌≡◌, is_some};
ghost use Rattle.schema_meaning.specs.Rules.{count_refused_at as refused_at};
ghost use Rattle.applicators.specs.Combining.{refused_under as under};
ghost use Rattle.serde_json.specs.Find.{as_array};
ghost use Rattle.schema_engine.specs.Places.{value_at};
ghost use Rattle.schema_engine.specs.Rules.{or_one};
ghost use Rattle.compiled_keywords.specs.Rules.{combination_by};

use applicators::combining::Combining;
use schema_engine::combination::Combination;
use schema_engine::place::Place;

fn is_list(place: Place<'_>) -> bool
    ensures { result ≡ is_some (as_array (value_at place.entry)) }
{
    match place {
        Place::Value(value) => value.is_array(),
        Place::Name(_) => false,
    }
}

fn least_of(least: Option<u64>) -> usize
    ensures { result ≡ or_one least }
{
    match least {
        Some(least) => least as usize,
        None => 1,
    }
}

fn most_of(most: Option<u64>) -> Option<usize>
    ensures { result ≡ most }
{
    match most {
        Some(most) => Some(most as usize),
        None => None,
    }
}

// The rule of a keyword that combines its answers so. A count is of a list; another value is accepted.
pub(crate) fn combination_at(combining: Combining, place: Place<'_>) -> Combination
    ensures { result ≡ combination_by combining (value_at place.entry) }
{
    match combining {
        Combining::Every => Combination::Every,
        Combining::Together => Combination::Together,
        Combining::EachNamed => Combination::EachNamed,
        Combining::SomeBranch => Combination::SomeBranch,
        Combining::OneBranch => Combination::OneBranch,
        Combining::Refusal => Combination::Refusal,
        Combining::Counted { least, most } => {
            if is_list(place) {
                Combination::Counted {
                    least: least_of(least),
                    most: most_of(most),
                }
            } else {
                Combination::Every
            }
        }
        Combining::Conditional => Combination::Conditional,
    }
}

// The name of the bound that a number of items does not keep.
const fn count_refused_at(least: Option<u64>, most: Option<u64>, accepted: usize) -> &'static str
    ensures { result.now ≡ refused_at least most accepted }
{
    match (least, most) {
        (None, None) => "contains",
        (Some(_), None) => "minContains",
        (None, Some(_)) => "maxContains",
        (Some(_), Some(most)) => {
            if accepted as u64 > most {
                "maxContains"
            } else {
                "minContains"
            }
        }
    }
}

// The name under which a keyword refuses, where so many answers are yes.
pub(crate) const fn refused_under(
    keyword: &'static str,
    combining: Combining,
    accepted: usize,
) -> &'static str
    ensures { result.now ≡ under keyword.now combining accepted }
{
    match combining {
        Combining::Counted { least, most } => count_refused_at(least, most, accepted),
        _ => keyword,
    }
}
