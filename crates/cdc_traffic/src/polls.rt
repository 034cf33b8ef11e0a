//! The connector's polls, and the ledger's replies.

ghost use Rattle.std.specs.Prelude.{◌≡◌, IfOk};
ghost use Rattle.cdc_ledger.specs.Submit.{IsLegal};
ghost use Rattle.cdc_traffic.specs.Answering.{read_by};

use cdc_laws::{Offer, read};
use cdc_ledger::Ledger;
use cdc_publisher::Poll as Wanted;
use cdc_types::{Event, Items};
use std::alloc::{AllocError, Global};

/// A poll: a connector's session asks for the events after a timestamp, up to a number.
#[derive(Clone, Copy, Debug, PartialEq, Eq)]
pub struct Poll {
    /// The number of the session that asks.
    pub session: u64,
    /// The poll's number among those of its session, from 1.
    pub number: u64,
    /// The timestamp that the events follow, in nanoseconds.
    pub after: u64,
    /// The greatest number of events.
    pub limit: usize,
}

/// The ledger's reply to a poll.
#[derive(Drop)]
pub struct PollReply {
    /// The poll that this replies to.
    pub poll: Poll,
    /// The first events after the poll's timestamp, up to its limit.
    pub events: Items<Event>,
    /// Whether the ledger is closed, and these events are all that follow.
    pub complete: bool,
}

impl Poll {
    /// Reads what the poll asks for from the ledger's log as it is now. Fails if there is no memory for the events.
    pub fn read(self, alloc: Global, ledger: &Ledger) -> Result<PollReply, AllocError>
        ensures reply { IfOk result (λ reply. reply ≡ read_by ledger.now self) }
        ensures legal { IsLegal ledger.now }
    {
        let wanted = Wanted {
            after: self.after,
            limit: self.limit,
        };
        let Offer { events, complete } = read(alloc, ledger, wanted)?;
        Ok(PollReply {
            poll: self,
            events: Items::from_vec(events),
            complete,
        })
    }
}
