//! An auditor: it accepts each event of a stream that follows from the events before it, and refuses the first other
//! one.

ghost use Rattle.std.specs.Prelude.{◌≡◌, ◌≤◌, ◌<◌, ◌^◌, ◌+◌, ◌==◌, ◌&&◌, is_none, is_some, ℕ, true, false, nat_eq, unwrap_or, Some, None, IsSome, IfOk, OnErr};
ghost use Rattle.std.specs.Prelude.{List, if◌then◌else◌};
ghost use Rattle.cdc_types.specs.declared.events.Event as event;
ghost use Rattle.indexmap.specs.IndexMap.{insert_entry, spare};
ghost use Rattle.cdc_message.specs.declared.items.Item.TheVariants as item;
ghost use Rattle.cdc_ledger.specs.Accounts.{no_balances};
ghost use Rattle.cdc_subscriber.specs.Book.{balances_in};
ghost use Rattle.cdc_subscriber.specs.Steps.{next_state};
ghost use Rattle.cdc_audit.specs.Audits.{AuditState, begins, entry_refusal, event_refusal, next_audit, with_event};
ghost use Rattle.cdc_audit.specs.Apart as apart;
ghost use Rattle.cdc_audit.specs.Apart.{times_known};
ghost use Rattle.cdc_audit.specs.Rooms as rooms;
ghost use Rattle.cdc_audit.specs.Checks as spec;
ghost use Rattle.cdc_audit.specs.Standing as standing;
ghost use Rattle.cdc_audit.specs.Standing.{AreInOrder, IsFirst, IsTimeIndex, StandsFor, kept_after};

use crate::apart::{Times, has_time, index_of, keep_accounts, keep_time, links_index_of};
use crate::checks::{
    Facts, Stored, holds, refusal_by, released, settled_id, settles, stored_by, stores,
};
use crate::expiries::expiry_or;
use crate::fields::FixedFields;
use crate::foreign::audited_event;
use crate::open_ones::OpenOnes;
use crate::refusals::Refusal;
use crate::rooms::{Links, Room, can_link, next_chain, shows_link};
use cdc_follow::Content;
use cdc_keys::{HashKey, KeyedMap};
use cdc_subscriber::{Book, Subscriber};
use cdc_types::{Balances, Event, EventAccount, Limits};
use indexmap::IndexMap;
use std::alloc::{AllocError, Global};
use std::marker::Model;

/// An auditor of a stream. It keeps the book of the events that it accepted, and what is known of each stored transfer.
pub struct Auditor {
    /// Whether the stream is another ledger's.
    foreign: bool,
    subscriber: Subscriber,
    transfers: KeyedMap<u128, Stored>,
    open_ones: OpenOnes,
    /// The fields of each account that never change, as its first event shows them.
    fields: KeyedMap<u128, FixedFields>,
    /// Which account was created at each timestamp.
    created: KeyedMap<u64, u128>,
    /// The same of the accounts that are linked to the next one.
    links: KeyedMap<u64, u128>,
    /// The timestamps of the events.
    times: Vec<u64>,
    /// How many linked transfers the events end with.
    chain: u64,
    /// The last expiry.
    expired: Option<Event>,
}

/// What an auditor can be made of again.
#[derive(Drop)]
pub struct AuditorParts {
    /// Whether the stream is another ledger's.
    pub foreign: bool,
    pub subscriber: Subscriber,
    pub transfers: KeyedMap<u128, Stored>,
    pub open_ones: OpenOnes,
    /// The fields of each account that never change, as its first event shows them.
    pub fields: KeyedMap<u128, FixedFields>,
    /// The timestamps of the events.
    pub times: Vec<u64>,
    /// How many linked transfers the events end with.
    pub chain: u64,
    /// The last expiry.
    pub expired: Option<Event>,
}

impl Drop for Auditor {
    fn drop(self) {
        let Auditor {
            foreign: _,
            subscriber: _,
            transfers: _,
            open_ones: _,
            fields: _,
            created: _,
            links: _,
            times: _,
            chain: _,
            expired: _,
        } = self;
    }
}

impl Model for Auditor {
    ghost use Rattle.cdc_audit.specs.Standing.{AuditorState, IsLinkIndex, IsTimeIndex};

    ghost Value = { AuditorState };

    ghost view = { λ a. record {
      foreign = a.foreign;
      kept = a.subscriber;
      transfers = a.transfers.entries;
      open_ones = a.open_ones;
      fields = a.fields.entries;
      times = a.times.items;
      chain = a.chain;
      expired = a.expired;
    } };

    ghost invariant = { λ a. IsTimeIndex a.created.entries a.fields.entries
        × IsLinkIndex a.links.entries a.fields.entries };
}

impl Auditor {
    /// An auditor of a stream from a ledger's first event on, which hashes ids with a fixed key. `foreign`: another
    /// ledger's, whose flags may have more bits than ours; these are let be.
    pub fn new(alloc: Global, foreign: bool) -> Auditor
        ensures { StandsFor result (begins foreign) }
    {
        Auditor::keyed(alloc, HashKey::Fixed, foreign)
    }

    /// The same auditor, which hashes ids with this key.
    pub fn keyed(alloc: Global, key: HashKey, foreign: bool) -> Auditor
        ensures { StandsFor result (begins foreign) }
    {
        Auditor {
            foreign,
            subscriber: Subscriber::resume(Book::keyed(alloc, key), 0, 0, false),
            transfers: IndexMap::with_hasher(alloc, key),
            open_ones: OpenOnes::new(alloc, key),
            fields: IndexMap::with_hasher(alloc, key),
            created: IndexMap::with_hasher(alloc, key),
            links: IndexMap::with_hasher(alloc, key),
            times: Vec::new(alloc),
            chain: 0,
            expired: None,
        }
    }

    /// An auditor with these parts of another one, which goes on where that one stopped. The one error is that memory
    /// ran out.
    pub fn resume(alloc: Global, parts: AuditorParts) -> Result<Auditor, AllocError>
        ensures { IfOk result (λ auditor. auditor ≡ record {
          foreign = parts.foreign;
          kept = parts.subscriber;
          transfers = parts.transfers.entries;
          open_ones = parts.open_ones;
          fields = parts.fields.entries;
          times = parts.times.items;
          chain = parts.chain;
          expired = parts.expired;
        }) }
    {
        let AuditorParts {
            foreign: of_another,
            subscriber,
            transfers,
            open_ones,
            fields,
            times,
            chain,
            expired,
        } = parts;
        let created = index_of(alloc, &fields)?;
        let links = links_index_of(alloc, &fields)?;
        Ok(Auditor {
            foreign: of_another,
            subscriber,
            transfers,
            open_ones,
            fields,
            created,
            links,
            times,
            chain,
            expired,
        })
    }

    /// Takes an entry of the stream: accepts it, or returns why it is refused. A refused entry changes nothing. The one
    /// error is that memory ran out, and then nothing changes either.
    pub fn take(&mut self, content: &Content) -> Result<Option<Refusal>, AllocError>
        ensures answer { IfOk result (λ answer. (state : AuditState) → StandsFor self.old state
            → answer ≡ entry_refusal state content.now) }
        ensures accepted { IfOk result (λ answer. (state : AuditState) → StandsFor self.old state
            → answer ≡ None → StandsFor self.new (next_audit state content.now)) }
        ensures refused { IfOk result (λ answer. IsSome answer → self.new ≡ self.old) }
        ensures err { OnErr result (self.new ≡ self.old) }
    {
        match content {
            Content::Event(event) => {
                let event = audited_event(self.foreign, event);
                self.take_event(&event)
            }
            Content::End => {
                let _taking = self.subscriber.take_end();
                Ok(None)
            }
        }
    }

    /// The subscriber that applied the accepted events: its book has the balances that they show last.
    pub fn subscriber(&self) -> &Subscriber
        ensures kept { result.now ≡ self.now.kept }
        ensures stands { (state : AuditState) → StandsFor self.now state → result.now ≡ kept_after state }
    {
        &self.subscriber
    }

    /// Whether the stream is another ledger's.
    pub fn foreign(&self) -> bool
        ensures { result ≡ self.now.foreign }
    {
        self.foreign
    }

    /// What is known of each stored transfer, by its id.
    pub fn transfers(&self) -> &KeyedMap<u128, Stored>
        ensures { result.now.entries ≡ self.now.transfers }
    {
        &self.transfers
    }

    /// The open pending transfers.
    pub fn open_ones(&self) -> &OpenOnes
        ensures { result.now ≡ self.now.open_ones }
    {
        &self.open_ones
    }

    /// The fields of each account that never change, by its id.
    pub fn fields(&self) -> &KeyedMap<u128, FixedFields>
        ensures { result.now.entries ≡ self.now.fields }
    {
        &self.fields
    }

    /// The timestamps of the events.
    pub fn times(&self) -> &[u64]
        ensures { result.now ≡ self.now.times }
    {
        self.times.as_slice()
    }

    /// How many linked transfers the events end with; 0 if they don't end within a chain.
    pub fn chain(&self) -> u64
        ensures { result ≡ self.now.chain }
    {
        self.chain
    }

    /// The last expiry.
    pub fn last_expiry(&self) -> Option<Event>
        ensures { result ≡ self.now.expired }
    {
        self.expired
    }

    /// What is known of the transfer with this id, if it counts.
    fn stored_if(&self, counts: bool, id: u128) -> Option<Stored>
        ensures { result ≡ standing.stored_if counts self.now.transfers id }
    {
        if counts {
            self.transfers.get(&id).copied()
        } else {
            None
        }
    }

    /// The event that stored the open pending transfer with this id, if it counts.
    fn open_if(&self, counts: bool, id: u128) -> Option<Event>
        ensures { result ≡ standing.open_if counts self.now.open_ones id }
    {
        if counts { self.open_ones.get(id) } else { None }
    }

    /// The fields of an account that never change, if an event showed it.
    fn fields_of(&self, account: u128) -> Option<FixedFields>
        ensures { result ≡ standing.fields_under self.now.fields account }
    {
        self.fields.get(&account).copied()
    }

    /// What else has the timestamp of an account, of which an earlier event showed these fields.
    fn times_of(&self, shown: Option<FixedFields>, account: &EventAccount) -> Times
        ensures { AreInOrder self.now.times
            → result ≡ times_known (is_some shown) self.now.times self.now.fields account.now.timestamp }
    {
        if shown.is_some() {
            Times {
                of_event: false,
                of_account: None,
            }
        } else {
            Times {
                of_event: has_time(self.times.as_slice(), account.timestamp),
                of_account: self.account_at(account.timestamp),
            }
        }
    }

    /// The account that was created at this timestamp, if an event shows it.
    fn account_at(&self, timestamp: u64) -> Option<u128>
        ensures { result ≡ apart.account_at self.now.fields timestamp }
    {
        self.created.get(&timestamp).copied()
    }

    /// The balances of an account; four zeros before its first event.
    fn balances(&self, account: u128) -> Balances
        ensures { result ≡ unwrap_or (balances_in self.now.kept.book account) no_balances }
    {
        self.subscriber.book().get(account).unwrap_or(Balances {
            debits_pending: 0,
            debits_posted: 0,
            credits_pending: 0,
            credits_posted: 0,
        })
    }

    /// What is known of an event by the events before it.
    fn facts(&self, event: &Event) -> Facts
        ensures facts { AreInOrder self.now.times
            → result ≡ standing.facts_of self.now result.first event.now }
        ensures first { IsFirst (standing.open_under self.now.open_ones) result.first }
        ensures debit { result.debit_fields
            ≡ standing.fields_under self.now.fields event.now.debit_account.id }
        ensures credit { result.credit_fields
            ≡ standing.fields_under self.now.fields event.now.credit_account.id }
    {
        let debit_fields = self.fields_of(event.debit_account.id);
        let credit_fields = self.fields_of(event.credit_account.id);
        Facts {
            last: self.subscriber.last(),
            linked: self.chain > 0,
            first: self.open_ones.first(),
            expired: self.expired,
            own: self.stored_if(stores(event.kind), event.transfer.id),
            settled: self.stored_if(settles(event.kind), settled_id(event)),
            open_one: self.open_if(settles(event.kind), settled_id(event)),
            debit_fields,
            credit_fields,
            debit_times: self.times_of(debit_fields, &event.debit_account),
            credit_times: self.times_of(credit_fields, &event.credit_account),
            debited: self.balances(event.debit_account.id),
            credited: self.balances(event.credit_account.id),
            room: self.room(event),
        }
    }

    /// The linked account that was created at this timestamp, if an event shows it.
    fn link_at(&self, timestamp: u64) -> Option<u128>
        ensures { result ≡ apart.account_at (rooms.links_of self.now.fields) timestamp }
    {
        if self.links.is_empty() {
            return None;
        }
        self.links.get(&timestamp).copied()
    }

    /// Whether a linked account was created at this timestamp, as an event before this one or this one shows.
    fn is_link_at(&self, event: &Event, timestamp: u64) -> bool
        ensures { result ≡ rooms.is_link_at self.now.fields event.now timestamp }
    {
        self.link_at(timestamp).is_some()
            || (shows_link(&event.debit_account, timestamp)
                || shows_link(&event.credit_account, timestamp))
    }

    /// How many timestamps in a row are those of linked accounts, from this one on; no more than so many.
    fn run_up(&self, event: &Event, most: usize, timestamp: u64) -> usize
        requires { timestamp + most < 2 ^ 64 }
        ensures run { result ≡ rooms.run_up (rooms.is_link_at self.now.fields event.now) most timestamp }
        ensures bound { result ≤ most }
    {
        if most == 0 || !self.is_link_at(event, timestamp) {
            0
        } else {
            self.run_up(event, most - 1, timestamp + 1) + 1
        }
    }

    /// The same, from this one back.
    fn run_down(&self, event: &Event, most: usize, timestamp: u64) -> usize
        ensures run { result ≡ rooms.run_down (rooms.is_link_at self.now.fields event.now) most timestamp }
        ensures bound { result ≤ most }
    {
        if most == 0 || !self.is_link_at(event, timestamp) {
            0
        } else {
            self.run_down(event, most - 1, timestamp.saturating_sub(1)) + 1
        }
    }

    /// Whether an earlier event has this timestamp.
    fn has_event(&self, timestamp: u64) -> bool
        ensures { AreInOrder self.now.times → result ≡ apart.has_time self.now.times timestamp }
    {
        has_time(self.times.as_slice(), timestamp)
    }

    /// Whether an account of an event is linked and was created before it, and no earlier event shows it.
    fn is_new_link(&self, event: &Event, account: &EventAccount) -> bool
        ensures { result ≡ (rooms.can_link account.now event.now.timestamp
            && is_none (standing.fields_under self.now.fields account.now.id)) }
    {
        can_link(account, event.timestamp) && self.fields_of(account.id).is_none()
    }

    /// What an account of an event is linked to.
    fn links_of(&self, event: &Event, account: &EventAccount) -> Links
        ensures { AreInOrder self.now.times
            → result ≡ standing.links_of_account self.now event.now account.now }
    {
        if self.is_new_link(event, account) {
            let next = account.timestamp + 1;
            Links {
                to_event: self.has_event(next),
                length: self.run_down(event, Limits::BATCH_ITEMS, account.timestamp)
                    + self.run_up(event, Limits::BATCH_ITEMS, next),
            }
        } else {
            Links {
                to_event: false,
                length: 0,
            }
        }
    }

    /// What is known of the chains that an event is in; nothing of another ledger's.
    fn room(&self, event: &Event) -> Option<Room>
        ensures { AreInOrder self.now.times → result ≡ standing.room_of self.now event.now }
    {
        if self.foreign {
            return None;
        }
        Some(Room {
            after: self.link_at(event.timestamp.saturating_sub(1)),
            debit: self.links_of(event, &event.debit_account),
            credit: self.links_of(event, &event.credit_account),
            chain: self.chain,
        })
    }

    /// Takes an event, as it is audited.
    fn take_event(&mut self, event: &Event) -> Result<Option<Refusal>, AllocError>
        ensures answer { IfOk result (λ answer. (state : AuditState) → StandsFor self.old state
            → answer ≡ event_refusal state event.now) }
        ensures accepted { IfOk result (λ answer. (state : AuditState) → StandsFor self.old state
            → answer ≡ None → StandsFor self.new (with_event state event.now)) }
        ensures refused { IfOk result (λ answer. IsSome answer → self.new ≡ self.old) }
        ensures err { OnErr result (self.new ≡ self.old) }
    {
        if self.subscriber.ended() {
            return Ok(Some(Refusal::AfterEnd(event.timestamp)));
        }
        let facts = self.facts(event);
        if let Some(why) = refusal_by(&facts, event) {
            return Ok(Some(why));
        }
        self.transfers.reserve(2)?;
        self.fields.reserve(2)?;
        self.created.reserve(2)?;
        self.links.reserve(2)?;
        self.times.reserve(1)?;
        let added = add_open(&mut self.open_ones, event)?;
        if self.subscriber.take_event(event).is_err() {
            take_back(&mut self.open_ones, added);
            return Err(AllocError);
        }
        keep(&mut self.transfers, event, released(&facts, event));
        remove_settled(&mut self.open_ones, event);
        keep_accounts(
            &mut self.fields,
            &mut self.created,
            &mut self.links,
            event,
            shows_both(&facts),
        );
        keep_time(&mut self.times, event.timestamp);
        self.chain = next_chain(self.chain, event);
        self.expired = expiry_or(self.expired, event);
        Ok(None)
    }
}

/// Keeps what is known of a transfer.
fn put(transfers: &mut KeyedMap<u128, Stored>, id: u128, stored: Stored)
    requires { 1 ≤ spare transfers.old }
    ensures entries { transfers.new.entries ≡ insert_entry nat_eq transfers.old.entries id stored }
    ensures room { spare transfers.old ≤ spare transfers.new + 1 }
{
    transfers.insert(id, stored).unwrap();
}

/// Keeps the transfer that an event stores, if it stores one.
fn keep_own(transfers: &mut KeyedMap<u128, Stored>, event: &Event)
    requires { 2 ≤ spare transfers.old }
    ensures entries { transfers.new.entries ≡ standing.with_own transfers.old.entries event.now }
    ensures room { 1 ≤ spare transfers.new }
{
    if stores(event.kind) {
        put(transfers, event.transfer.id, stored_by(event));
    }
}

/// Keeps the transfers of an accepted event: the one that it stores, and the pending one, of this amount, that it
/// settles.
fn keep(transfers: &mut KeyedMap<u128, Stored>, event: &Event, amount: u128)
    requires { 2 ≤ spare transfers.old }
    ensures { transfers.new.entries
        ≡ standing.with_settled (standing.with_own transfers.old.entries event.now) event.now amount }
{
    keep_own(transfers, event);
    if settles(event.kind) {
        put(transfers, settled_id(event), Stored::Settled(amount));
    }
}

/// Whether earlier events showed both accounts of an event.
fn shows_both(facts: &Facts) -> bool
    ensures { result ≡ (is_some facts.now.debit_fields && is_some facts.now.credit_fields) }
{
    facts.debit_fields.is_some() && facts.credit_fields.is_some()
}

/// Keeps an event that stores a pending transfer, and returns whether it was added.
fn add_open(open_ones: &mut OpenOnes, event: &Event) -> Result<bool, AllocError>
    ensures events { IfOk result (λ added. open_ones.new ≡ standing.with_held open_ones.old event.now) }
    ensures again { IfOk result (λ added. standing.IsAddedTo added open_ones.old event.now open_ones.new) }
    ensures err { OnErr result (open_ones.new ≡ open_ones.old) }
{
    if holds(event.kind) {
        open_ones.add(event)
    } else {
        Ok(false)
    }
}

/// Forgets the event that was added.
fn take_back(open_ones: &mut OpenOnes, added: bool)
    ensures { (old : List (ℕ × event.Event)) (e : event.Event) → standing.IsAddedTo added old e open_ones.old
        → open_ones.new ≡ old }
{
    if added {
        open_ones.take_back();
    }
}

/// Forgets the event whose pending transfer an accepted event settles.
fn remove_settled(open_ones: &mut OpenOnes, event: &Event)
    ensures { (id : ℕ) → standing.open_under open_ones.new id
        ≡ standing.without_settled open_ones.old event.now id }
{
    if settles(event.kind) {
        open_ones.remove(settled_id(event));
    }
}
