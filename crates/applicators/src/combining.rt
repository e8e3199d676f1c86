//! How the answers to a keyword's questions are combined.
ghost use Rattle.std.specs.Prelude.{◌≡◌};
ghost use Rattle.serde_json.specs.View.{view};
ghost use Rattle.schema_meaning.specs.Rules as rules;
ghost use Rattle.applicators.specs.Combining.{tells_each, tells_names, decided_by};

use serde_json::Value;

/// The rule by which the answers to a keyword's questions make its verdict and its faults.
#[derive(Clone, Copy, Debug)]
pub enum Combining {
    /// Every answer is yes, and nothing is noted of the value itself. It tells what is noted, and the faults of its subschemas.
    Every,
    /// Every answer is yes. One fault speaks for all that are not.
    Together,
    /// Every name is accepted. It tells each fault of a name of the object.
    EachNamed,
    /// At least one answer is yes.
    SomeBranch,
    /// Exactly one answer is yes.
    OneBranch,
    /// The one answer is no.
    Refusal,
    /// In a list the number of answers that are yes is at least the first bound, 1 without one, and at most the second.
    Counted {
        least: Option<u64>,
        most: Option<u64>,
    },
    /// The first answer chooses which of the others count.
    Conditional,
}

// Whether a number of items is at least the bound, 1 without one.
const fn is_enough(least: Option<u64>, accepted: usize) -> bool
    ensures { result ≡ rules.is_enough least accepted }
{
    match least {
        Some(least) => least <= accepted as u64,
        None => accepted >= 1,
    }
}

// Whether it is at most the bound.
const fn is_few(most: Option<u64>, accepted: usize) -> bool
    ensures { result ≡ rules.is_few most accepted }
{
    match most {
        Some(most) => accepted as u64 <= most,
        None => true,
    }
}

// The name of the bound that a number of items does not keep.
pub(crate) const fn count_refused_at(
    least: Option<u64>,
    most: Option<u64>,
    accepted: usize,
) -> &'static str
    ensures { result.now ≡ rules.count_refused_at least most accepted }
{
    match (least, most) {
        (None, None) => "contains",
        (Some(_), None) => "minContains",
        (None, Some(_)) => "maxContains",
        (Some(_), Some(most)) => {
            if accepted as u64 > most {
                "maxContains"
            } else {
                "minContains"
            }
        }
    }
}

impl Combining {
    /// Whether it tells what is noted of the value itself, and the faults of its subschemas.
    pub const fn tells_each(self) -> bool
        ensures { result ≡ tells_each self }
    {
        matches!(self, Combining::Every)
    }

    /// Whether it tells each fault of a name of the object.
    pub const fn tells_names(self) -> bool
        ensures { result ≡ tells_names self }
    {
        matches!(self, Combining::EachNamed)
    }

    /// Whether it accepts a value of which so many questions are asked, so many of them answered yes.
    ///
    /// It looks at no note, and says nothing of an answer that chooses.
    pub fn decides(self, value: &Value, asked: usize, accepted: usize) -> bool
        ensures { result ≡ decided_by self (view value.now) asked accepted }
    {
        match self {
            Combining::Counted { least, most } => {
                if value.is_array() {
                    is_enough(least, accepted) && is_few(most, accepted)
                } else {
                    accepted == asked
                }
            }
            Combining::SomeBranch => accepted > 0,
            Combining::OneBranch => accepted == 1,
            Combining::Refusal => accepted != asked,
            _ => accepted == asked,
        }
    }
}
