//! Which keywords say no with one of their questions.
ghost use Rattle.std.specs.Prelude.{◌≡◌};
ghost use Rattle.fault_paths.specs.Obliged.{obliges};

use applicators::applicator::Applicator;
use applicators::combining::Combining;

/// Whether the questions of a keyword oblige, where it asks so many: whether a no to one of them is the keyword's no.
pub const fn obliges(applicator: &Applicator<'_>, asked: usize) -> bool
    ensures { result ≡ obliges applicator.now asked }
{
    match applicator.combining() {
        Combining::SomeBranch => asked == 1,
        Combining::OneBranch => asked == 1,
        Combining::Refusal => false,
        Combining::Counted { .. } => false,
        Combining::Conditional => false,
        _ => true,
    }
}
