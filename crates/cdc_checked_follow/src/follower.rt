//! A checked follower: it applies the events that a checker applies, and keeps the book of those that its binding
//! takes.

ghost use Rattle.std.specs.Prelude.{◌≡◌, ◌≤◌, ◌+◌, true, max, min, IfOk, OnOk, OnErr, if◌then◌else◌};
ghost use Rattle.indexmap.specs.IndexMap.{spare};
ghost use Rattle.cdc_types.specs.Widths.{max_64};
ghost use Rattle.cdc_message.specs.Headers.{headers_of_event};
ghost use Rattle.cdc_match.specs.Matching as matching;
ghost use Rattle.cdc_subscriber.specs.Book.{entries_of, entry_of as shown_entry, put as put_entry};
ghost use Rattle.cdc_subscriber.specs.Steps.{book_after};
ghost use Rattle.cdc_checked.specs.Standing.{CheckerState};
ghost use Rattle.cdc_checked_follow.specs.Checking.{CheckedState, content_outcome, end_outcome, next_content};
ghost use Rattle.cdc_checked_follow.specs.Standing.{StandsFor, begun_by, changes_nothing, has_nothing};

use cdc_audit::Refusal;
use cdc_checked::{Checker, Outcome};
use cdc_follow::{Content, Entry};
use cdc_keys::{HashKey, KeyedMap};
use cdc_match::Binding;
use cdc_message::headers_of;
use cdc_subscriber::BookEntry;
use cdc_types::{Balances, Event, EventAccount, Limits};
use indexmap::IndexMap;
use std::alloc::{AllocError, Global};
use std::marker::Model;

/// What becomes of an entry.
#[derive(Clone, Copy, Debug, PartialEq, Eq)]
pub enum Checking {
    /// The event is applied. The book has it if the binding takes it.
    Applied,
    /// Nothing changes: the event isn't later than the last applied event of one of its accounts, or an end was received
    /// before this one.
    Late,
    /// Nothing changes: the event doesn't follow, for this reason. An earlier event of one of its accounts is missing.
    Refused(Refusal),
    /// The end-of-stream marker is received. An event after it is checked as one before it.
    Ended,
    /// Nothing changes: the event's timestamp is above the greatest one of a ledger.
    OutOfRange,
}

/// A checked follower. Its checker knows every applied event. Its book has those that the binding takes.
#[derive(Drop)]
pub struct CheckedFollower {
    checker: Checker,
    /// The balances of each account of the book, in the order of the accounts' first appearance.
    book: KeyedMap<u128, Balances>,
    /// How many events the book has. The count saturates at 2^64-1.
    applied: u64,
    /// The greatest timestamp of an applied event, in nanoseconds; 0 before the first.
    last: u64,
    /// Whether the end-of-stream marker was received.
    ended: bool,
    /// Whether the first event of an account is taken as it is.
    baseline: bool,
}

impl Model for CheckedFollower {
    ghost use Rattle.cdc_checked_follow.specs.Standing.{CheckedFollowerState};

    ghost Value = { CheckedFollowerState };

    ghost view = { λ f. record {
      checker = f.checker;
      book = f.book.entries;
      applied = f.applied;
      last = f.last;
      ended = f.ended;
      baseline = f.baseline;
    } };
}

impl CheckedFollower {
    /// A follower that has received nothing, which hashes ids with this key.
    pub fn keyed(alloc: Global, key: HashKey) -> CheckedFollower
        ensures { result ≡ has_nothing }
    {
        CheckedFollower::begin(alloc, key, false)
    }

    /// A follower that has received nothing, which hashes ids with this key. `baseline`: it takes the first event of an
    /// account as it is, so that its stream may begin anywhere.
    pub fn begin(alloc: Global, key: HashKey, baseline: bool) -> CheckedFollower
        ensures { result ≡ begun_by baseline }
    {
        CheckedFollower {
            checker: Checker::keyed(alloc, key),
            book: IndexMap::with_hasher(alloc, key),
            applied: 0,
            last: 0,
            ended: false,
            baseline,
        }
    }

    /// A follower that goes on where another one stopped, with that one's checker and book, the number of events that
    /// the book has, the greatest timestamp of an applied event, whether the end was received, and whether it began by
    /// baseline.
    pub fn resume(
        checker: Checker,
        book: KeyedMap<u128, Balances>,
        applied: u64,
        last: u64,
        ended: bool,
        baseline: bool,
    ) -> CheckedFollower
        ensures { result ≡ record {
          checker = checker;
          book = book.entries;
          applied = applied;
          last = last;
          ended = ended;
          baseline = baseline;
        } }
    {
        CheckedFollower {
            checker,
            book,
            applied,
            last,
            ended,
            baseline,
        }
    }

    /// Takes an entry. The one error is that memory ran out, and then nothing changes.
    pub fn take(&mut self, binding: &Binding, entry: &Entry) -> Result<Checking, AllocError>
        ensures answer { IfOk result (λ answer. (state : CheckedState) → StandsFor binding.now self.old state
            → answer ≡ content_outcome state entry.now.content) }
        ensures next { OnOk result ((state : CheckedState) → StandsFor binding.now self.old state
            → StandsFor binding.now self.new (next_content state entry.now.content)) }
        ensures same { IfOk result (λ answer. changes_nothing answer ≡ true → self.new ≡ self.old) }
        ensures err { OnErr result (self.new ≡ self.old) }
    {
        match &entry.content {
            Content::Event(event) => self.take_event(binding, event),
            Content::End => Ok(self.take_end()),
        }
    }

    /// What is known of each account by all applied events, and the open pending transfers.
    pub fn checker(&self) -> &Checker
        ensures { result.now ≡ self.now.checker }
    {
        &self.checker
    }

    /// The balances of each account of the book, by its id, in the order of the accounts' first appearance.
    pub fn book(&self) -> &KeyedMap<u128, Balances>
        ensures { result.now.entries ≡ self.now.book }
    {
        &self.book
    }

    /// How many events the book has. The count saturates at 2^64-1.
    pub fn applied_count(&self) -> u64
        ensures { result ≡ self.now.applied }
    {
        self.applied
    }

    /// The greatest timestamp of an applied event, in nanoseconds; 0 before the first.
    pub fn last(&self) -> u64
        ensures { result ≡ self.now.last }
    {
        self.last
    }

    /// Whether the end-of-stream marker was received.
    pub fn ended(&self) -> bool
        ensures { result ≡ self.now.ended }
    {
        self.ended
    }

    /// Whether it takes the first event of an account as it is.
    pub fn baseline(&self) -> bool
        ensures { result ≡ self.now.baseline }
    {
        self.baseline
    }

    /// Takes an event.
    fn take_event(&mut self, binding: &Binding, event: &Event) -> Result<Checking, AllocError>
        ensures answer { IfOk result (λ answer. (state : CheckedState) → StandsFor binding.now self.old state
            → answer ≡ content_outcome state (Content.Event event.now)) }
        ensures next { OnOk result ((state : CheckedState) → StandsFor binding.now self.old state
            → StandsFor binding.now self.new (next_content state (Content.Event event.now))) }
        ensures same { IfOk result (λ answer. changes_nothing answer ≡ true → self.new ≡ self.old) }
        ensures err { OnErr result (self.new ≡ self.old) }
    {
        if event.timestamp > Limits::TIMESTAMP {
            return Ok(Checking::OutOfRange);
        }
        self.book.reserve(2)?;
        match self.checker.take_by(self.baseline, event)? {
            Outcome::Applied => {
                let taken = binding.matches(&headers_of(event));
                keep_in_book(&mut self.book, taken, event);
                self.applied = count_if(taken, self.applied);
                self.last = self.last.max(event.timestamp);
                Ok(Checking::Applied)
            }
            Outcome::Late => Ok(Checking::Late),
            Outcome::Refused(why) => Ok(Checking::Refused(why)),
        }
    }

    /// Takes the end.
    fn take_end(&mut self) -> Checking
        ensures answer { result ≡ end_outcome self.old.ended }
        ensures next { self.new ≡ record self.old { ended = true } }
    {
        if self.ended {
            return Checking::Late;
        }
        self.ended = true;
        Checking::Ended
    }
}

/// One more, if it counts. The count saturates at 2^64-1.
fn count_if(counts: bool, count: u64) -> u64
    ensures { result ≡ (if counts then min (count + 1) max_64 else count) }
{
    if counts {
        count.saturating_add(1)
    } else {
        count
    }
}

/// Keeps an account's balances as an event shows them.
fn put(book: &mut KeyedMap<u128, Balances>, account: &EventAccount)
    requires { 1 ≤ spare book.old }
    ensures entries { entries_of book.new.entries ≡ put_entry (shown_entry account.now) (entries_of book.old.entries) }
    ensures room { spare book.old ≤ spare book.new + 1 }
{
    let entry = BookEntry {
        id: account.id,
        balances: Balances {
            debits_pending: account.debits_pending,
            debits_posted: account.debits_posted,
            credits_pending: account.credits_pending,
            credits_posted: account.credits_posted,
        },
    };
    put_balances(book, entry);
}

/// Keeps an account's balances.
fn put_balances(book: &mut KeyedMap<u128, Balances>, entry: BookEntry)
    requires { 1 ≤ spare book.old }
    ensures entries { entries_of book.new.entries ≡ put_entry entry (entries_of book.old.entries) }
    ensures room { spare book.old ≤ spare book.new + 1 }
{
    book.insert(entry.id, entry.balances).unwrap();
}

/// Keeps the balances that an event shows of its accounts, if the book has the event.
fn keep_in_book(book: &mut KeyedMap<u128, Balances>, taken: bool, event: &Event)
    requires { 2 ≤ spare book.old }
    ensures { entries_of book.new.entries
        ≡ (if taken then book_after (entries_of book.old.entries) event.now else entries_of book.old.entries) }
{
    if taken {
        put(book, &event.debit_account);
        put(book, &event.credit_account);
    }
}
