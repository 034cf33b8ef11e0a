//! A ledger's log, as it is read for a session that wants events of it.

ghost use Rattle.std.specs.Prelude.{◌≡◌, IfOk, take};
ghost use Rattle.cdc_ledger.specs.Events.{events as events_of};
ghost use Rattle.cdc_ledger.specs.Submit.{IsLegal};
ghost use Rattle.cdc_laws.specs.Readings.{none_follow};
ghost use Rattle.cdc_log.specs.Log.{events_after};
ghost use Rattle.cdc_publisher.specs.Offers.{IsReply};

use cdc_ledger::Ledger;
use cdc_publisher::Poll;
use cdc_types::Event;
use std::alloc::{AllocError, Global};

/// The events of a ledger's log that a session may be offered.
#[derive(Drop)]
pub struct Offer {
    /// The first events that are wanted, up to the poll's limit.
    pub events: Vec<Event>,
    /// Whether the ledger is closed, and these are all.
    pub complete: bool,
}

/// Reads what is wanted of a ledger's log as it is now. Fails if there is no memory for the events.
pub fn read(alloc: Global, ledger: &Ledger, poll: Poll) -> Result<Offer, AllocError>
    ensures events { IfOk result (λ offer. offer.events.items
        ≡ take poll.limit (events_after poll.after (events_of ledger.now))) }
    ensures complete { IfOk result (λ offer. offer.complete ≡ none_follow ledger.now poll) }
    ensures reply { IfOk result (λ offer. IsReply poll offer.events.items) }
    ensures legal { IsLegal ledger.now }
{
    let _legal = ledger.last();
    let events = ledger.log().read_after(alloc, poll.after, poll.limit)?;
    let complete = is_whole(ledger, poll, &events);
    Ok(Offer { events, complete })
}

/// Whether no events follow those that were read, and none will.
fn is_whole(ledger: &Ledger, poll: Poll, events: &[Event]) -> bool
    requires { events.now ≡ take poll.limit (events_after poll.after (events_of ledger.now)) }
    ensures { result ≡ none_follow ledger.now poll }
{
    let last = match events.last() {
        Some(event) => event.timestamp,
        None => poll.after,
    };
    ledger.closed() && ledger.log().last_timestamp() <= last
}
