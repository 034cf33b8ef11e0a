//! Where a follower is in its stream.

ghost use Rattle.std.specs.Prelude.{◌≡◌};
ghost use Rattle.cdc_sql.specs.Places.{place_of};

use cdc_follow::Follower;

/// All that a follower keeps, except its accounts.
#[derive(Clone, Copy, Debug, PartialEq, Eq)]
pub struct Place {
    /// The timestamp of the last event seen, in nanoseconds.
    pub seen: u64,
    /// The timestamp of the last event applied, in nanoseconds.
    pub last: u64,
    /// How many events were applied.
    pub applied: u64,
    /// Whether the end was received.
    pub ended: bool,
    pub closed: bool,
}

impl Place {
    /// The place of a follower.
    pub fn of(follower: &Follower) -> Place
        ensures { result ≡ place_of follower.now }
    {
        let subscriber = follower.subscriber();
        Place {
            seen: follower.seen(),
            last: subscriber.last(),
            applied: subscriber.applied_count(),
            ended: subscriber.ended(),
            closed: subscriber.closed(),
        }
    }
}
