//! How many lines were answered, and how.
ghost use Rattle.std.specs.Prelude.{◌≡◌, suc, min};
ghost use Rattle.line_cuts.specs.Devices.{most};
ghost use Rattle.line_runs.specs.Counts.{lines_in};

/// How the value of a line stands.
#[derive(Clone, Copy, Debug, PartialEq, Eq)]
pub(crate) enum LineVerdict {
    Valid,
    Refused,
    /// The line has no value.
    Unread,
}

/// How many lines were valid, how many not, and how many have no value. Each count stays at `u64::MAX`.
#[derive(Clone, Copy, Debug, PartialEq, Eq)]
pub struct LineCounts {
    pub valid: u64,
    pub refused: u64,
    pub unread: u64,
}

impl LineCounts {
    pub(crate) fn none() -> LineCounts
        ensures { lines_in result ≡ 0 }
    {
        LineCounts {
            valid: 0,
            refused: 0,
            unread: 0,
        }
    }

    /// How many lines there were.
    pub fn lines(self) -> u64
        ensures { result ≡ lines_in self }
    {
        self.valid
            .saturating_add(self.refused)
            .saturating_add(self.unread)
    }

    pub(crate) fn add(&mut self, verdict: LineVerdict)
        ensures { lines_in self.new ≡ min (suc (lines_in self.old)) most }
    {
        match verdict {
            LineVerdict::Valid => self.valid = self.valid.saturating_add(1),
            LineVerdict::Refused => self.refused = self.refused.saturating_add(1),
            LineVerdict::Unread => self.unread = self.unread.saturating_add(1),
        }
    }
}
