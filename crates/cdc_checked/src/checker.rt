//! A checker: it applies an event only if the balances that the event shows of its accounts follow from the events that
//! it applied before.

ghost use Rattle.std.specs.Prelude.{◌≡◌, ◌≢◌, ◌≤◌, ◌+◌, ℕ, nat_eq, IfOk, OnOk, OnErr, List, [], if◌then◌else◌};
ghost use Rattle.std.specs.Map.{lookup};
ghost use Rattle.indexmap.specs.IndexMap.{insert_entry, spare};
ghost use Rattle.cdc_types.specs.declared.events.Event.{Event as Emitted};
ghost use Rattle.cdc_types.specs.Lines.{first_line};
ghost use Rattle.cdc_audit.specs.Checks as checks;
ghost use Rattle.cdc_checked.specs.Based as based;
ghost use Rattle.cdc_checked.specs.Checked as spec;
ghost use Rattle.cdc_checked.specs.Standing as standing;
ghost use Rattle.cdc_checked.specs.Standing.{StandsFor};

use cdc_audit::Refusal;
use cdc_audit::checks::{Amounts, account_refusal, holds, moves, settled_id, settles};
use cdc_audit::settling::settling_refusal;
use cdc_keys::{HashKey, KeyedMap};
use cdc_types::{Balances, Event, EventAccount};
use indexmap::IndexMap;
use std::alloc::{AllocError, Global};
use std::marker::Model;

/// What becomes of an event.
#[derive(Clone, Copy, Debug, PartialEq, Eq)]
pub enum Outcome {
    /// It is applied.
    Applied,
    /// Nothing changes: the event isn't later than the last applied event of one of its accounts.
    Late,
    /// Nothing changes: the event doesn't follow, for this reason. An earlier event of one of its accounts is missing.
    Refused(Refusal),
}

/// What is known of an account.
#[derive(Clone, Copy, Debug, PartialEq, Eq)]
pub struct KnownAccount {
    /// The balances that its last applied event shows.
    pub balances: Balances,
    /// The timestamp of that event, in nanoseconds; 0 before the first.
    pub last: u64,
}

/// A checker of events. It keeps what is known of each account, and the event that stored each open pending transfer.
#[derive(Drop)]
pub struct Checker {
    accounts: KeyedMap<u128, KnownAccount>,
    /// By the ids of the pending transfers.
    open_ones: KeyedMap<u128, Event>,
}

impl Model for Checker {
    ghost use Rattle.cdc_checked.specs.Standing.{CheckerState};

    ghost Value = { CheckerState };

    ghost view = { λ c. record { accounts = c.accounts.entries; open_ones = c.open_ones.entries } };
}

impl Checker {
    /// A checker that has applied nothing, which hashes ids with a fixed key.
    pub fn new(alloc: Global) -> Checker
        ensures nothing { result ≡ standing.knows_nothing }
        ensures stands { StandsFor result [] }
    {
        Checker::keyed(alloc, HashKey::Fixed)
    }

    /// The same checker, which hashes ids with this key.
    pub fn keyed(alloc: Global, key: HashKey) -> Checker
        ensures nothing { result ≡ standing.knows_nothing }
        ensures stands { StandsFor result [] }
    {
        Checker {
            accounts: IndexMap::with_hasher(alloc, key),
            open_ones: IndexMap::with_hasher(alloc, key),
        }
    }

    /// A checker that knows what another one knew, and goes on where that one stopped.
    pub fn resume(
        accounts: KeyedMap<u128, KnownAccount>,
        open_ones: KeyedMap<u128, Event>,
    ) -> Checker
        ensures { result ≡ record { accounts = accounts.entries; open_ones = open_ones.entries } }
    {
        Checker {
            accounts,
            open_ones,
        }
    }

    /// Takes an event. Only an event that is applied changes anything. The one error is that memory ran out, and then
    /// nothing changes.
    pub fn take(&mut self, event: &Event) -> Result<Outcome, AllocError>
        ensures answer { IfOk result (λ answer. (applied : List Emitted) → StandsFor self.old applied
            → answer ≡ standing.outcome_of applied event.now) }
        ensures next { OnOk result ((applied : List Emitted) → StandsFor self.old applied
            → StandsFor self.new (spec.next_checked applied event.now)) }
        ensures same { IfOk result (λ answer. answer ≢ Outcome.Applied → self.new ≡ self.old) }
        ensures err { OnErr result (self.new ≡ self.old) }
    {
        self.take_by(false, event)
    }

    /// Takes an event. `baseline`: the first event of an account is taken as it is, and a pending transfer that no
    /// applied event stored is taken to hold what its settlement releases; otherwise it does what `take` does. Only an
    /// event that is applied changes anything. The one error is that memory ran out, and then nothing changes.
    pub fn take_by(&mut self, baseline: bool, event: &Event) -> Result<Outcome, AllocError>
        ensures answer { IfOk result (λ answer. (applied : List Emitted) → StandsFor self.old applied
            → answer ≡ standing.outcome_by baseline applied event.now) }
        ensures next { OnOk result ((applied : List Emitted) → StandsFor self.old applied
            → StandsFor self.new (based.next_by baseline applied event.now)) }
        ensures same { IfOk result (λ answer. answer ≢ Outcome.Applied → self.new ≡ self.old) }
        ensures err { OnErr result (self.new ≡ self.old) }
    {
        let debited = self.account(event.debit_account.id);
        let credited = self.account(event.credit_account.id);
        if event.timestamp <= debited.last || event.timestamp <= credited.last {
            return Ok(Outcome::Late);
        }
        let pending = self.open_one(event);
        if let Some(why) = refusal_for(baseline, pending, debited, credited, event) {
            return Ok(Outcome::Refused(why));
        }
        self.accounts.reserve(2)?;
        self.open_ones.reserve(1)?;
        keep_accounts(&mut self.accounts, event);
        keep_open(&mut self.open_ones, event);
        Ok(Outcome::Applied)
    }

    /// What is known of an account; zeros before its first event.
    pub fn account(&self, id: u128) -> KnownAccount
        ensures { result ≡ standing.known_under self.now.accounts id }
    {
        self.accounts.get(&id).copied().unwrap_or(KnownAccount {
            balances: Balances {
                debits_pending: 0,
                debits_posted: 0,
                credits_pending: 0,
                credits_posted: 0,
            },
            last: 0,
        })
    }

    /// What is known of each account, by its id.
    pub fn accounts(&self) -> &KeyedMap<u128, KnownAccount>
        ensures { result.now.entries ≡ self.now.accounts }
    {
        &self.accounts
    }

    /// The event that stored each open pending transfer, by the transfer's id.
    pub fn open_ones(&self) -> &KeyedMap<u128, Event>
        ensures { result.now.entries ≡ self.now.open_ones }
    {
        &self.open_ones
    }

    /// The event that stored the pending transfer that this event settles, if that one is open.
    fn open_one(&self, event: &Event) -> Option<Event>
        ensures { result ≡ standing.one_under self.now.open_ones event.now }
    {
        if settles(event.kind) {
            self.open_ones.get(&settled_id(event)).copied()
        } else {
            None
        }
    }
}

/// The amount, if it counts; otherwise 0.
fn amount_if(counts: bool, amount: u128) -> u128
    ensures { result ≡ (if counts then amount else 0) }
{
    if counts { amount } else { 0 }
}

/// The amount of the pending transfer that this event stored.
fn amount_held(pending: Option<Event>) -> u128
    ensures { result ≡ spec.amount_held pending }
{
    match pending {
        Some(pending) => pending.transfer.amount,
        None => 0,
    }
}

/// What an event moves, if it releases this.
fn moved_by(freed: u128, event: &Event) -> Amounts
    ensures { result ≡ based.moved_by freed event.now }
{
    let amount = event.transfer.amount;
    Amounts {
        posted: amount_if(moves(event.kind), amount),
        held: amount_if(holds(event.kind), amount),
        released: freed,
    }
}

/// The refusal of an event by the pending transfer that it settles: that one isn't open, or has other fields.
fn pending_refusal(pending: Option<Event>, event: &Event) -> Option<Refusal>
    ensures { result ≡ first_line (spec.pending_lines pending event.now) }
{
    if settles(event.kind) && pending.is_none() {
        Some(Refusal::NotPending(settled_id(event)))
    } else {
        settling_refusal(pending, event)
    }
}

/// The refusal of an event by the balances of its two accounts.
fn balances_refusal(
    pending: Option<Event>,
    debited: &Balances,
    credited: &Balances,
    event: &Event,
) -> Option<Refusal>
    ensures { result ≡ first_line (spec.sums_lines pending debited.now credited.now event.now) }
{
    let freed = amount_held(pending);
    seen_sums_refusal(freed, Some(*debited), Some(*credited), event)
}

/// Why an event doesn't follow from these balances and this pending transfer; `None` if it follows.
fn refusal_by(
    pending: Option<Event>,
    debited: &Balances,
    credited: &Balances,
    event: &Event,
) -> Option<Refusal>
    ensures { result ≡ first_line (spec.lines_by pending debited.now credited.now event.now) }
{
    pending_refusal(pending, event).or(balances_refusal(pending, debited, credited, event))
}

/// The balances of an account, if an event of it was applied.
fn seen(known: KnownAccount) -> Option<Balances>
    ensures { result ≡ based.seen known.last known.balances }
{
    if known.last == 0 {
        None
    } else {
        Some(known.balances)
    }
}

/// How far the pending debits of the debited account fall with an event, if it was seen; otherwise how far the pending
/// credits of the credited one do; 0 if neither was seen.
fn fall(debited: Option<Balances>, credited: Option<Balances>, event: &Event) -> u128
    ensures { result ≡ based.fall debited credited event.now }
{
    match debited {
        Some(before) => before
            .debits_pending
            .saturating_sub(event.debit_account.debits_pending),
        None => match credited {
            Some(before) => before
                .credits_pending
                .saturating_sub(event.credit_account.credits_pending),
            None => 0,
        },
    }
}

/// What an event releases of a pending transfer that no applied event stored.
fn inferred(debited: Option<Balances>, credited: Option<Balances>, event: &Event) -> u128
    ensures { result ≡ based.inferred debited credited event.now }
{
    let amount = event.transfer.amount;
    if !settles(event.kind) {
        0
    } else if moves(event.kind) {
        fall(debited, credited, event).max(amount)
    } else {
        amount
    }
}

/// What an event releases.
fn freed_by(
    pending: Option<Event>,
    debited: Option<Balances>,
    credited: Option<Balances>,
    event: &Event,
) -> u128
    ensures { result ≡ based.freed_by pending debited credited event.now }
{
    match pending {
        Some(pending) => pending.transfer.amount,
        None => inferred(debited, credited, event),
    }
}

/// The refusal of an event by an account that was seen.
fn seen_refusal(
    account: &EventAccount,
    before: Option<Balances>,
    debits: Amounts,
    credits: Amounts,
) -> Option<Refusal>
    ensures { result ≡ first_line (based.seen_lines account.now before debits credits) }
{
    match before {
        Some(before) => account_refusal(account, &before, debits, credits),
        None => None,
    }
}

/// The refusal of an event by the balances of its accounts that were seen, if it releases this.
fn seen_sums_refusal(
    freed: u128,
    debited: Option<Balances>,
    credited: Option<Balances>,
    event: &Event,
) -> Option<Refusal>
    ensures { result ≡ first_line (based.seen_sums freed debited credited event.now) }
{
    let amounts = moved_by(freed, event);
    let nothing = Amounts {
        posted: 0,
        held: 0,
        released: 0,
    };
    seen_refusal(&event.debit_account, debited, amounts, nothing).or(seen_refusal(
        &event.credit_account,
        credited,
        nothing,
        amounts,
    ))
}

/// Why an event doesn't follow by baseline from the balances of its accounts that were seen; `None` if it follows.
fn based_refusal(
    pending: Option<Event>,
    debited: Option<Balances>,
    credited: Option<Balances>,
    event: &Event,
) -> Option<Refusal>
    ensures { result ≡ first_line (based.seen_rules pending debited credited event.now) }
{
    let freed = freed_by(pending, debited, credited, event);
    settling_refusal(pending, event).or(seen_sums_refusal(freed, debited, credited, event))
}

/// Why an event doesn't follow, by baseline or not, from what is known of its accounts; `None` if it follows.
fn refusal_for(
    baseline: bool,
    pending: Option<Event>,
    debited: KnownAccount,
    credited: KnownAccount,
    event: &Event,
) -> Option<Refusal>
    ensures { result ≡ first_line (standing.lines_for baseline pending debited credited event.now) }
{
    if baseline {
        based_refusal(pending, seen(debited), seen(credited), event)
    } else {
        refusal_by(pending, &debited.balances, &credited.balances, event)
    }
}

/// Keeps what an event shows of an account.
fn keep_account(accounts: &mut KeyedMap<u128, KnownAccount>, timestamp: u64, account: &EventAccount)
    requires { 1 ≤ spare accounts.old }
    ensures entries { accounts.new.entries
        ≡ insert_entry nat_eq accounts.old.entries account.now.id (standing.known_by timestamp account.now) }
    ensures room { spare accounts.old ≤ spare accounts.new + 1 }
{
    let known = KnownAccount {
        balances: Balances {
            debits_pending: account.debits_pending,
            debits_posted: account.debits_posted,
            credits_pending: account.credits_pending,
            credits_posted: account.credits_posted,
        },
        last: timestamp,
    };
    accounts.insert(account.id, known).unwrap();
}

/// Keeps what an applied event shows of its accounts.
fn keep_accounts(accounts: &mut KeyedMap<u128, KnownAccount>, event: &Event)
    requires { 2 ≤ spare accounts.old }
    ensures { accounts.new.entries ≡ standing.with_accounts accounts.old.entries event.now }
{
    keep_account(accounts, event.timestamp, &event.debit_account);
    keep_account(accounts, event.timestamp, &event.credit_account);
}

/// Keeps an event that stores a pending transfer. Of an event that settles one, forgets the event that stored it.
fn keep_open(open_ones: &mut KeyedMap<u128, Event>, event: &Event)
    requires { 1 ≤ spare open_ones.old }
    ensures { (id : ℕ) → lookup (nat_eq id) open_ones.new.entries
        ≡ spec.open_then id (lookup (nat_eq id) open_ones.old.entries) event.now }
{
    if holds(event.kind) {
        open_ones.insert(event.transfer.id, *event).unwrap();
    } else if settles(event.kind) {
        open_ones.swap_remove(&settled_id(event));
    }
}
