//! What a follower has applied since a save: the rows of the accounts that changed, and the events.

ghost use Rattle.std.specs.Prelude.{◌≡◌, ◌++◌, ◌≤◌, ◌∷◌, [], None, Some, is_some, if◌then◌else◌, OnOk};
ghost use Rattle.indexmap.specs.IndexMap.{spare};
ghost use Rattle.std.specs.Option.{option_map};
ghost use Rattle.cdc_sql.specs.Rows.{HasEventRoom, HasRoom, events_kept, row_of as shown_row, show_rows};

use cdc_book_log::Details;
use cdc_keys::{HashKey, KeyedMap};
use cdc_types::{Balances, Event, EventAccount};
use indexmap::IndexMap;
use std::alloc::{AllocError, Global};

/// What the row of an account has besides the account's number.
#[derive(Clone, Copy, Debug, PartialEq, Eq)]
pub struct AccountRow {
    pub balances: Balances,
    /// What the last event that has the account shows of it besides the balances.
    pub details: Details,
}

/// What a follower has applied since a save.
#[derive(Drop)]
pub struct Recent {
    /// The rows of the accounts that changed, by their numbers.
    rows: KeyedMap<u128, AccountRow>,
    /// The events in their order; `None` if they aren't kept.
    events: Option<Vec<Event>>,
}

/// The row of an account that an event shows.
fn row_of(event: &Event, account: &EventAccount) -> AccountRow
    ensures { result ≡ shown_row event.now account.now }
{
    AccountRow {
        balances: Balances {
            debits_pending: account.debits_pending,
            debits_posted: account.debits_posted,
            credits_pending: account.credits_pending,
            credits_posted: account.credits_posted,
        },
        details: Details {
            last_timestamp: event.timestamp,
            ledger: event.ledger,
            code: account.code,
            flags: account.flags,
            user_data_128: account.user_data_128,
            user_data_64: account.user_data_64,
            user_data_32: account.user_data_32,
        },
    }
}

impl Recent {
    /// Nothing yet, by numbers of accounts that are hashed with this key. Events are kept only if they are to be.
    pub fn new(alloc: Global, key: HashKey, keeps_events: bool) -> Recent
        ensures rows { result.rows.entries ≡ [] }
        ensures events { option_map (λ kept. kept.items) result.events ≡ (if keeps_events then Some [] else None) }
    {
        Recent {
            rows: IndexMap::with_hasher(alloc, key),
            events: if keeps_events {
                Some(Vec::new(alloc))
            } else {
                None
            },
        }
    }

    /// Makes room for one more event, of which nothing is kept yet. The one error is that memory ran out.
    pub fn make_room(&mut self) -> Result<(), AllocError>
        ensures rows { self.new.rows.entries ≡ self.old.rows.entries }
        ensures events { option_map (λ kept. kept.items) self.new.events
            ≡ option_map (λ kept. kept.items) self.old.events }
        ensures room { OnOk result (HasRoom self.new) }
    {
        make_event_room(&mut self.events)?;
        self.rows.reserve(2)
    }

    /// Keeps the rows that an event shows, and the event.
    pub fn record(&mut self, event: &Event)
        requires { HasRoom self.old }
        ensures rows { self.new.rows.entries ≡ show_rows event.now self.old.rows.entries }
        ensures events { option_map (λ kept. kept.items) self.new.events
            ≡ option_map (λ kept. kept.items ++ event.now ∷ []) self.old.events }
    {
        show_event(&mut self.rows, event);
        keep_event(&mut self.events, event);
    }

    /// Drops all that was kept.
    pub fn clear(&mut self)
        ensures rows { self.new.rows.entries ≡ [] }
        ensures events { option_map (λ kept. kept.items) self.new.events ≡ option_map (λ _. []) self.old.events }
    {
        self.rows.clear();
        clear_events(&mut self.events);
    }

    /// Whether events are kept.
    pub fn keeps_events(&self) -> bool
        ensures { result ≡ is_some (option_map (λ kept. kept.items) self.now.events) }
    {
        self.events.is_some()
    }

    /// The rows of the accounts that changed, by their numbers.
    pub(crate) fn rows(&self) -> &KeyedMap<u128, AccountRow>
        ensures { result.now ≡ self.now.rows }
    {
        &self.rows
    }

    /// The events; none if they aren't kept.
    pub(crate) fn events(&self) -> &[Event]
        ensures { result.now ≡ events_kept self.now.events }
    {
        match &self.events {
            Some(events) => events.as_slice(),
            None => &[],
        }
    }
}

/// Makes room for one more event, if events are kept.
fn make_event_room(events: &mut Option<Vec<Event>>) -> Result<(), AllocError>
    ensures events { option_map (λ kept. kept.items) events.new ≡ option_map (λ kept. kept.items) events.old }
    ensures room { OnOk result (HasEventRoom events.new) }
{
    match events {
        Some(kept) => kept.reserve(1),
        None => Ok(()),
    }
}

/// Keeps an event, if events are kept.
fn keep_event(events: &mut Option<Vec<Event>>, event: &Event)
    requires { HasEventRoom events.old }
    ensures { option_map (λ kept. kept.items) events.new
        ≡ option_map (λ kept. kept.items ++ event.now ∷ []) events.old }
{
    if let Some(kept) = events {
        kept.push_reserved(*event);
    }
}

/// Drops the events.
fn clear_events(events: &mut Option<Vec<Event>>)
    ensures { option_map (λ kept. kept.items) events.new ≡ option_map (λ _. []) events.old }
{
    if let Some(kept) = events {
        kept.clear();
    }
}

/// Puts the rows of both accounts of an event.
fn show_event(rows: &mut KeyedMap<u128, AccountRow>, event: &Event)
    requires { 2 ≤ spare rows.old }
    ensures { rows.new.entries ≡ show_rows event.now rows.old.entries }
{
    let (debited, credited) = (&event.debit_account, &event.credit_account);
    let _before = rows.insert(debited.id, row_of(event, debited)).unwrap();
    let _before = rows.insert(credited.id, row_of(event, credited)).unwrap();
}
