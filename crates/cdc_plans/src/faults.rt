//! The faults that a run is to meet.

ghost use Rattle.std.specs.Prelude.{ℕ, List, [], ◌∷◌, ◌++◌};
ghost use Rattle.cdc_plans.specs.Faults.{IsLeastClose, HasNoFaults};

use std::alloc::Global;

/// The faults that a run is to meet. Counts begin at 1 and go on through all sessions. An entry that names nothing
/// has no effect, and one that is listed twice is met once.
#[derive(Drop)]
pub struct Faults {
    /// The confirms that are lost, by the place of their publishes among those accepted.
    pub lose_confirm: Vec<u64>,
    /// The publishes that are lost, by their place among those that come to the broker.
    pub lose_publish: Vec<u64>,
    /// The publishes right after which the connector restarts, by their place among those that it sent.
    pub restart_after: Vec<u64>,
    /// The deliveries after which the broker rewinds a queue: the queue, and the position. It does so after the first
    /// delivery of the position.
    pub repeat: Vec<(u64, u64)>,
    /// The subscribers that close: the subscriber, and after how many applied events.
    pub close: Vec<(u64, u64)>,
}

impl Faults {
    pub fn none(alloc: Global) -> Faults
        ensures { HasNoFaults result }
    {
        Faults {
            lose_confirm: Vec::new(alloc),
            lose_publish: Vec::new(alloc),
            restart_after: Vec::new(alloc),
            repeat: Vec::new(alloc),
            close: Vec::new(alloc),
        }
    }

    /// After how many applied events this subscriber is to close: the least number from 1 up that is given for it.
    /// None if no such number is.
    pub fn close_after(&self, subscriber: u64) -> Option<u64>
        ensures { IsLeastClose subscriber self.now.close.items result }
    {
        let mut least = None;
        for entry in &self.close {
            least = lesser(least, subscriber, *entry);
        }
        least
    }
}

// The least close number of a subscriber among those before an entry, and that entry's.
fn lesser(least: Option<u64>, subscriber: u64, entry: (u64, u64)) -> Option<u64>
    ensures { (closes : List (ℕ × ℕ)) → IsLeastClose subscriber closes least
        → IsLeastClose subscriber (closes ++ entry ∷ []) result }
{
    if entry.0 != subscriber || entry.1 == 0 {
        return least;
    }
    match least {
        Some(number) => Some(number.min(entry.1)),
        None => Some(entry.1),
    }
}
