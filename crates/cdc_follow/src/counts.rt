//! How many lines of a stream came to what.

ghost use Rattle.std.specs.Prelude.{◌≡◌};
ghost use Rattle.cdc_follow.specs.Counts.{counts_with, no_counts, saturated};

use crate::follower::Following;
use crate::streams::Taken;

/// How many lines of a stream came to what. None is above the greatest number of 64 bits, at which it stays.
#[derive(Clone, Copy, Debug, PartialEq, Eq)]
pub struct Counts {
    /// Events that were applied.
    pub applied: u64,
    /// Events that aren't later than the last one seen, and ends that were received before.
    pub duplicates: u64,
    /// Events that are new, and that the binding doesn't take.
    pub passed: u64,
    /// Entries that came too early, and were skipped.
    pub gaps: u64,
    /// Lines without an entry.
    pub lines_skipped: u64,
}

impl Counts {
    /// The counts of no lines.
    pub fn none() -> Counts
        ensures { result ≡ no_counts }
    {
        Counts {
            applied: 0,
            duplicates: 0,
            passed: 0,
            gaps: 0,
            lines_skipped: 0,
        }
    }

    /// Counts a line that was taken so.
    pub fn count(&mut self, taken: &Taken)
        ensures { self.new ≡ counts_with saturated taken.now self.old }
    {
        match taken {
            Taken::Nothing => self.lines_skipped = self.lines_skipped.saturating_add(1),
            Taken::Entry(_, Following::Applied) => self.applied = self.applied.saturating_add(1),
            Taken::Entry(_, Following::PassedBy) => self.passed = self.passed.saturating_add(1),
            Taken::Entry(_, Following::Duplicate) => {
                self.duplicates = self.duplicates.saturating_add(1)
            }
            Taken::Entry(_, Following::Gap) => self.gaps = self.gaps.saturating_add(1),
            Taken::Entry(_, Following::Ended)
            | Taken::Entry(_, Following::AfterEnd)
            | Taken::Entry(_, Following::OutOfRange) => {}
        }
    }
}
