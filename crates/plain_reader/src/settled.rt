//! When a verdict is settled by some of the answers.
ghost use Rattle.std.specs.Prelude.{◌≡◌};
ghost use Rattle.plain_reader.specs.Combined.{settles as settle};

use applicators::combining::Combining;

// Whether so many answers, of which so many are yes, settle the verdict, whatever the others are.
pub(crate) const fn settles(combining: Combining, answered: usize, accepted: usize) -> bool
    ensures { result ≡ settle combining answered accepted }
{
    match combining {
        Combining::SomeBranch => accepted > 0,
        Combining::OneBranch => accepted > 1,
        Combining::Counted { least, most } => match (least, most) {
            (_, Some(most)) => accepted as u64 > most,
            (Some(least), None) => accepted as u64 >= least,
            (None, None) => accepted > 0,
        },
        _ => accepted < answered,
    }
}
