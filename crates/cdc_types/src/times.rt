//! Timestamps that are known to be in range.

ghost use Rattle.std.specs.Prelude.{◌≡◌, ◌<◌, ◌≤◌, MatchOption};

use crate::bounds::Limits;
use std::marker::Model;

/// A timestamp in nanoseconds, at most `Limits::TIMESTAMP`. Contracts see the number.
#[derive(Clone, Copy, Debug, PartialEq, Eq)]
pub struct EventTimestamp {
    nanoseconds: u64,
}

impl Model for EventTimestamp {
    ghost use Rattle.std.specs.Prelude.{◌≤◌, ℕ};
    ghost use Rattle.cdc_types.specs.declared.bounds.TheConstants.Limits.{TIMESTAMP};

    ghost Value = { ℕ };

    ghost view = { λ time. time.nanoseconds };

    ghost invariant = { λ time. time.nanoseconds ≤ TIMESTAMP };

    ghost inverse = { λ n. record { nanoseconds = n } };
}

impl EventTimestamp {
    /// `None` if the number exceeds `Limits::TIMESTAMP`.
    pub fn new(nanoseconds: u64) -> Option<EventTimestamp>
        ensures { MatchOption result (Limits.TIMESTAMP < nanoseconds) (λ time. time ≡ nanoseconds) }
    {
        if nanoseconds > Limits::TIMESTAMP {
            None
        } else {
            Some(EventTimestamp { nanoseconds })
        }
    }

    pub fn nanoseconds(self) -> u64
        ensures value { result ≡ self }
        ensures fits { self ≤ Limits.TIMESTAMP }
    {
        self.nanoseconds
    }
}
