//! The book that a subscriber keeps: the balances of each account, as its last event gave them.

ghost use Rattle.std.specs.Prelude.{◌≡◌, ◌==◌, ◌+◌, ◌<◌, ◌≤◌, [], ◌∷◌, ◌++◌, List, length, not, false, true, if◌then◌else◌, IfOk, OnOk, OnErr, option_map, slice_get};
ghost use Rattle.indexmap.specs.IndexMap.{spare};
ghost use Rattle.cdc_types.specs.declared.events.Event.{Event as Emitted};
ghost use Rattle.cdc_subscriber.specs.Book.{are_distinct, balances_in, balances_shown, entries_of, entry_of as shown_entry, book_of, id_and_balances, ids_of, has_both as has_both_in, is_among, put as put_entry};
ghost use Rattle.cdc_subscriber.specs.Steps.{book_after};

use cdc_keys::{HashKey, KeyedMap};
use cdc_types::{Balances, Event, EventAccount};
use indexmap::IndexMap;
use indexmap::map::Iter;
use std::alloc::{AllocError, Global};
use std::marker::Model;

/// One account of a subscriber's book.
#[derive(Clone, Copy, Debug, PartialEq, Eq)]
pub struct BookEntry {
    pub id: u128,
    /// The account's balances in the last event that has it.
    pub balances: Balances,
}

/// The accounts that events have shown, in the order of their first appearance. Within one event the debited account
/// comes first; if both accounts are the same, the credited side counts. Contracts see a book as the list of its
/// entries.
#[derive(Drop)]
pub struct Book {
    // The balances of each account by its number; new numbers come last.
    accounts: KeyedMap<u128, Balances>,
}

impl Model for Book {
    ghost use Rattle.std.specs.Prelude.{List};
    ghost use Rattle.cdc_subscriber.specs.Book.{entries_of};
    ghost use Rattle.cdc_subscriber.specs.declared.book.BookEntry.{BookEntry};

    ghost Value = { List BookEntry };

    ghost view = { λ book. entries_of book.accounts.entries };
}

impl Book {
    /// Creates an empty book, which hashes ids with a fixed key.
    pub fn new(alloc: Global) -> Book
        ensures { result ≡ book_of [] }
    {
        Book::keyed(alloc, HashKey::Fixed)
    }

    /// Creates an empty book, which hashes ids with this key.
    pub fn keyed(alloc: Global, key: HashKey) -> Book
        ensures { result ≡ book_of [] }
    {
        Book {
            accounts: IndexMap::with_hasher(alloc, key),
        }
    }

    /// Creates an empty book, which hashes ids with the key of this one.
    pub fn emptied(&self, alloc: Global) -> Book
        ensures { result ≡ book_of [] }
    {
        Book::keyed(alloc, *self.accounts.hasher())
    }

    /// The balances of the account with this number, or `None` if no event has shown it.
    pub fn get(&self, id: u128) -> Option<Balances>
        ensures found { result ≡ balances_in self.now id }
        ensures last { (events : List Emitted) → self.now ≡ book_of events
            → result ≡ balances_shown events id }
    {
        self.accounts.get(&id).copied()
    }

    /// The number and the balances of the account at this index, counted from 0 in order of first appearance.
    pub fn at_place(&self, place: usize) -> Option<(u128, Balances)>
        ensures { result ≡ option_map id_and_balances (slice_get self.now place) }
    {
        self.accounts
            .get_index(place)
            .map(|(id, balances)| (*id, *balances))
    }

    /// The number of accounts. Their ids are distinct.
    pub fn len(&self) -> usize
        ensures count { result ≡ length self.now }
        ensures distinct { are_distinct (ids_of self.now) ≡ true }
    {
        self.accounts.len()
    }

    pub fn is_empty(&self) -> bool
        ensures { result ≡ (length self.now == 0) }
    {
        self.accounts.is_empty()
    }

    /// Adds an account after all others, unless the book has its id; returns whether it was added. If memory runs out,
    /// for an id that the book doesn't have, the book is unchanged.
    pub fn push(&mut self, entry: BookEntry) -> Result<bool, AllocError>
        ensures added { IfOk result (λ added. added ≡ not (is_among entry.id (ids_of self.old))) }
        ensures ok { IfOk result (λ added.
            self.new ≡ (if added then (self.old ++ entry ∷ []) else self.old)) }
        ensures err { OnErr result (self.new ≡ self.old) }
        ensures memory { OnErr result (is_among entry.id (ids_of self.old) ≡ false) }
    {
        if self.accounts.contains_key(&entry.id) {
            return Ok(false);
        }
        self.accounts.reserve(1)?;
        put(&mut self.accounts, entry);
        Ok(true)
    }

    /// Iterates over the accounts in order of first appearance.
    pub(crate) fn accounts(&self) -> Iter<'_, u128, Balances>
        ensures { entries_of result ≡ self.now }
    {
        self.accounts.iter()
    }

    /// Applies one event to both of its accounts. If memory runs out, the book lacks one of them, and is unchanged.
    pub(crate) fn apply(&mut self, event: &Event) -> Result<(), AllocError>
        ensures ok { OnOk result ((events : List Emitted) → self.old ≡ book_of events
            → self.new ≡ book_of (events ++ event.now ∷ [])) }
        ensures after { OnOk result (self.new ≡ book_after self.old event.now) }
        ensures err { OnErr result (self.new ≡ self.old) }
        ensures memory { OnErr result (has_both_in self.old event.now ≡ false) }
    {
        reserve_for(&mut self.accounts, event)?;
        put(&mut self.accounts, entry_of(&event.debit_account));
        put(&mut self.accounts, entry_of(&event.credit_account));
        Ok(())
    }
}

fn entry_of(account: &EventAccount) -> BookEntry
    ensures { result ≡ shown_entry account.now }
{
    BookEntry {
        id: account.id,
        balances: Balances {
            debits_pending: account.debits_pending,
            debits_posted: account.debits_posted,
            credits_pending: account.credits_pending,
            credits_posted: account.credits_posted,
        },
    }
}

/// Makes room for the accounts of an event. It allocates only if one of them is missing.
fn reserve_for(accounts: &mut KeyedMap<u128, Balances>, event: &Event) -> Result<(), AllocError>
    ensures entries { accounts.new.entries ≡ accounts.old.entries }
    ensures room { OnOk result (has_both_in (entries_of accounts.old.entries) event.now ≡ false
        → 2 ≤ spare accounts.new) }
    ensures memory { OnErr result (has_both_in (entries_of accounts.old.entries) event.now ≡ false) }
{
    let spare = accounts.capacity() - accounts.len();
    if spare < 2 && !has_both(accounts, event) {
        accounts.reserve(2)?;
    }
    Ok(())
}

/// Whether both accounts of an event are there.
fn has_both(accounts: &KeyedMap<u128, Balances>, event: &Event) -> bool
    ensures { result ≡ has_both_in (entries_of accounts.now.entries) event.now }
{
    accounts.contains_key(&event.debit_account.id)
        && accounts.contains_key(&event.credit_account.id)
}

/// Replaces the entry with the same number, or adds the entry last. Only a new number needs room.
fn put(accounts: &mut KeyedMap<u128, Balances>, entry: BookEntry)
    requires { is_among entry.id (ids_of (entries_of accounts.old.entries)) ≡ false → 0 < spare accounts.old }
    ensures entries { entries_of accounts.new.entries
        ≡ put_entry entry (entries_of accounts.old.entries) }
    ensures room { spare accounts.old ≤ spare accounts.new + 1 }
{
    accounts.insert(entry.id, entry.balances).unwrap();
}
