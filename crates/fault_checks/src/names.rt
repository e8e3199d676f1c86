//! Names under which keywords refuse.

ghost use Rattle.std.specs.Prelude.{◌≡◌};
ghost use Rattle.certificate_laws.specs.Words as words;
ghost use Rattle.fault_checks.specs.Passed.{is_draft_4_at};
ghost use Rattle.fault_checks.specs.Names as naming;

use crate::{Keyword, Site};
use applicators::applicator::Applicator;
use applicators::combining::Combining;

/// The name of the member whose keyword may refuse under a name: of Draft 4's strict limits that of the limit itself, of the bounds of
/// `contains` that, of `then` and `else` the `if` beside.
pub(crate) fn member_of<'p>(site: &Site<'_>, name: &'p str) -> &'p str
    ensures { result.now ≡ words.member_of (is_draft_4_at site.now) name.now }
{
    let of_draft_4 = site.is_of_draft_4();
    match name {
        "exclusiveMaximum" if of_draft_4 => "maximum",
        "exclusiveMinimum" if of_draft_4 => "minimum",
        "minContains" | "maxContains" => "contains",
        "then" | "else" => "if",
        _ => name,
    }
}

fn applicator_bears(applicator: &Applicator<'_>, name: &str) -> bool
    ensures { result ≡ naming.applicator_bears applicator.now name.now }
{
    match applicator.combining() {
        Combining::Counted { .. } => matches!(name, "contains" | "minContains" | "maxContains"),
        Combining::Conditional => matches!(name, "if" | "then" | "else"),
        _ => applicator.name() == name,
    }
}

/// Whether the keyword of a member may refuse under a name.
pub(crate) fn bears(keyword: &Keyword<'_>, member: &str, name: &str) -> bool
    ensures { result ≡ naming.bears keyword.now member.now name.now }
{
    match keyword {
        Keyword::Assertion(assertion) => assertion.name() == name,
        Keyword::If { .. } => matches!(name, "if" | "then" | "else"),
        Keyword::Applicator(applicator) => applicator_bears(applicator, name),
        _ => member == name,
    }
}
