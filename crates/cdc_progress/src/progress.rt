//! The progress record of a connector.

ghost use Rattle.std.specs.Prelude.{◌≡◌, ◌≤◌};

use cdc_types::Limits;
use std::marker::Model;

/// The progress record of a connector: the number of its last session; the timestamp up to which every event after
/// the start is confirmed (TigerBeetle, Change Data Capture, progress tracking); and the start, the timestamp after
/// which its first session began, which is no later. Contracts see the three numbers.
#[derive(Clone, Copy, Debug, PartialEq, Eq)]
pub struct Progress {
    session: u64,
    timestamp: u64,
    start: u64,
}

impl Model for Progress {
    ghost use Rattle.std.specs.Prelude.{◌≤◌};
    ghost use Rattle.cdc_types.specs.declared.bounds.TheConstants.Limits.{TIMESTAMP};
    ghost use Rattle.cdc_progress.specs.Records.{Saved};

    ghost Value = { Saved };

    ghost view = { λ progress. record {
      session = progress.session;
      timestamp = progress.timestamp;
      start = progress.start;
    } };

    ghost invariant = { λ progress. (progress.start ≤ progress.timestamp) × (progress.timestamp ≤ TIMESTAMP) };

    ghost inverse = { λ saved. record {
      session = saved.session;
      timestamp = saved.timestamp;
      start = saved.start;
    } };
}

impl Progress {
    /// The greatest timestamp, in nanoseconds: 2^63-1.
    pub const MAX_TIMESTAMP: u64 = Limits::TIMESTAMP;

    /// The progress of a session: the first session began after `start`, and every event after that is confirmed up
    /// to `timestamp`, which is at most `MAX_TIMESTAMP` and not before `start`. Both are in nanoseconds.
    pub fn new(session: u64, timestamp: u64, start: u64) -> Progress
        requires order { start ≤ timestamp }
        requires fits { timestamp ≤ Limits.TIMESTAMP }
        ensures { result ≡ record { session = session; timestamp = timestamp; start = start } }
    {
        Progress {
            session,
            timestamp,
            start,
        }
    }

    /// The number of the last session.
    pub fn session(self) -> u64
        ensures { result ≡ self.session }
    {
        self.session
    }

    /// The timestamp up to which every event after the start is confirmed, in nanoseconds.
    pub fn timestamp(self) -> u64
        ensures value { result ≡ self.timestamp }
        ensures fits { self.timestamp ≤ Limits.TIMESTAMP }
    {
        self.timestamp
    }

    /// The timestamp after which the first session began, in nanoseconds. No event up to it is published.
    pub fn start(self) -> u64
        ensures value { result ≡ self.start }
        ensures order { self.start ≤ self.timestamp }
    {
        self.start
    }
}
