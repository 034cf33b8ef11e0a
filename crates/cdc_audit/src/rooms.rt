//! The rules on chains that have to have a next item: no event has its timestamp, a batch has room for it, and a
//! timestamp is left for it.

ghost use Rattle.std.specs.Prelude.{◌≡◌, ◌+◌, ◌==◌, ◌&&◌, Some};
ghost use Rattle.cdc_types.specs.Flags.{has_flag};
ghost use Rattle.cdc_types.specs.declared.accounts.TheConstants.AccountFlags.{LINKED};
ghost use Rattle.cdc_types.specs.Lines.{first_line};
ghost use Rattle.cdc_audit.specs.Rooms as spec;
ghost use Rattle.cdc_audit.specs.Standing as standing;

use crate::checks::{is_linked, is_next};
use crate::refusals::Refusal;
use cdc_types::{AccountFlags, Event, EventAccount, Limits};

/// What an account of an event is linked to, if it is linked and no earlier event shows it.
#[derive(Clone, Copy, Debug, PartialEq, Eq)]
pub(crate) struct Links {
    /// Whether an earlier event has the timestamp after its own.
    pub(crate) to_event: bool,
    /// How many linked accounts in a row it is one of.
    pub(crate) length: usize,
}

/// What is known of the chains that an event is in.
#[derive(Clone, Copy, Debug, PartialEq, Eq)]
pub(crate) struct Room {
    /// The linked account that was created right before the event, if an earlier event shows it, by its id.
    pub(crate) after: Option<u128>,
    /// What the debited account is linked to.
    pub(crate) debit: Links,
    /// What the credited account is linked to.
    pub(crate) credit: Links,
    /// How many linked transfers the events before it end with.
    pub(crate) chain: u64,
}

/// Whether flags are those of an account that is linked to the next one.
pub(crate) fn is_link(flags: u16) -> bool
    ensures { result ≡ has_flag flags LINKED }
{
    flags & AccountFlags::LINKED != 0
}

/// Whether an account of an event is linked and was created at this timestamp.
pub(crate) fn shows_link(account: &EventAccount, timestamp: u64) -> bool
    ensures { result ≡ spec.shows_link account.now timestamp }
{
    is_link(account.flags) && account.timestamp == timestamp
}

/// Whether an account of an event at this timestamp is linked and was created before it.
pub(crate) fn can_link(account: &EventAccount, timestamp: u64) -> bool
    ensures { result ≡ spec.can_link account.now timestamp }
{
    is_link(account.flags) && (account.timestamp < timestamp && timestamp <= Limits::TIMESTAMP)
}

/// How many linked transfers the events end with after one more, as far as 64 bits count.
pub(crate) fn next_chain(chain: u64, event: &Event) -> u64
    ensures { result ≡ standing.next_chain chain event.now }
{
    if is_linked(event) {
        chain.saturating_add(1)
    } else {
        0
    }
}

/// The refusal of an event right after a linked account.
fn after_refusal(after: Option<u128>, event: &Event) -> Option<Refusal>
    ensures { result ≡ first_line (spec.after_lines after event.now) }
{
    match after {
        Some(id) => Some(Refusal::NextIsEvent(id, event.timestamp.saturating_sub(1))),
        None => None,
    }
}

/// Whether an account is linked, and an event at this timestamp comes right after it.
fn links_to(account: &EventAccount, timestamp: u64) -> bool
    ensures { result ≡ (has_flag account.now.flags LINKED && (timestamp == account.now.timestamp + 1)) }
{
    is_link(account.flags) && is_next(account.timestamp, timestamp)
}

/// The refusal of an event at this timestamp by what an account of it is linked to.
fn links_refusal(links: Links, account: &EventAccount, timestamp: u64) -> Option<Refusal>
    ensures { result ≡ first_line (spec.links_lines links account.now timestamp) }
{
    if links.to_event || links_to(account, timestamp) {
        Some(Refusal::NextIsEvent(account.id, account.timestamp))
    } else if links.length >= Limits::BATCH_ITEMS {
        Some(Refusal::LongAccountChain(account.id, account.timestamp))
    } else {
        None
    }
}

/// The refusal of an event by the chain of transfers that it is in.
fn own_chain_refusal(chain: u64, event: &Event) -> Option<Refusal>
    ensures { result ≡ first_line (spec.own_chain_lines chain event.now) }
{
    let linked = is_linked(event);
    if linked && chain > Limits::BATCH_ITEMS as u64 - 2 {
        Some(Refusal::LongChain(event.timestamp))
    } else if linked && event.timestamp >= Limits::TIMESTAMP {
        Some(Refusal::NoNext(event.timestamp))
    } else {
        None
    }
}

/// The refusal of an event by the chains that it is in, as far as these are known.
fn known_refusal(room: &Room, event: &Event) -> Option<Refusal>
    ensures { result ≡ first_line (spec.room_lines (Some room.now) event.now) }
{
    let (debited, credited) = (&event.debit_account, &event.credit_account);
    after_refusal(room.after, event)
        .or(links_refusal(room.debit, debited, event.timestamp))
        .or(links_refusal(room.credit, credited, event.timestamp))
        .or(own_chain_refusal(room.chain, event))
}

/// The refusal of an event by the chains that it is in; none of another ledger's.
pub(crate) fn room_refusal(room: Option<Room>, event: &Event) -> Option<Refusal>
    ensures { result ≡ first_line (spec.room_lines room event.now) }
{
    match room {
        Some(room) => known_refusal(&room, event),
        None => None,
    }
}
