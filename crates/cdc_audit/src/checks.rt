//! The rules by which an event follows from the events before it, by what is known of these.

ghost use Rattle.std.specs.Prelude.{◌≡◌, ◌+◌, ◌==◌, ◌∷◌, [], if◌then◌else◌};
ghost use Rattle.cdc_types.specs.Lines.{first_line};
ghost use Rattle.cdc_ledger.specs.Kinds as kinds;
ghost use Rattle.cdc_audit.specs.Checks as spec;
ghost use Rattle.cdc_audit.specs.Known as known;
ghost use Rattle.cdc_audit.specs.Rules as rules;

use crate::apart::{Times, apart_refusal};
use crate::expiries::expiry_refusal;
use crate::fields::{FixedFields, created_refusal, fields_refusal};
use crate::limits::limits_refusal;
use crate::refusals::{BalanceField, Mismatch, Refusal};
use crate::rooms::{Room, room_refusal};
use crate::settling::settling_refusal;
use crate::shapes::shape_refusal;
use cdc_types::{Balances, Event, EventAccount, EventKind, Limits, TransferFlags};

/// What is known of a stored transfer.
#[derive(Clone, Copy, Debug, PartialEq, Eq)]
pub enum Stored {
    /// It isn't pending: it moved its amount at once, or it posted or voided a pending transfer.
    Plain,
    /// It is pending, with this amount.
    Pending(u128),
    /// It was pending, with this amount, and was posted, was voided or expired.
    Settled(u128),
}

/// What is known of an event by the events before it.
#[derive(Clone, Copy, Debug, PartialEq, Eq)]
pub(crate) struct Facts {
    /// The timestamp of the event before it; 0 before the first event.
    pub(crate) last: u64,
    /// Whether that event stored a linked transfer.
    pub(crate) linked: bool,
    /// The event of the open pending transfer that expires first.
    pub(crate) first: Option<Event>,
    /// The last expiry before it.
    pub(crate) expired: Option<Event>,
    /// The transfer that is stored under the id of the one that the event stores.
    pub(crate) own: Option<Stored>,
    /// The transfer that is stored under the id of the pending one that the event settles.
    pub(crate) settled: Option<Stored>,
    /// The event that stored the pending one that the event settles, if that one is open.
    pub(crate) open_one: Option<Event>,
    /// The fields of the debited account that never change, if an event before it shows the account.
    pub(crate) debit_fields: Option<FixedFields>,
    /// Those of the credited account.
    pub(crate) credit_fields: Option<FixedFields>,
    /// What else has the timestamp of the debited account.
    pub(crate) debit_times: Times,
    /// What else has that of the credited one.
    pub(crate) credit_times: Times,
    /// The balances of the debited account.
    pub(crate) debited: Balances,
    /// The balances of the credited account.
    pub(crate) credited: Balances,
    /// What is known of the chains that the event is in; `None` in another ledger's stream.
    pub(crate) room: Option<Room>,
}

/// What an event moves on one side of an account.
#[derive(Clone, Copy, Debug, PartialEq, Eq)]
pub struct Amounts {
    /// Added to the posted sum.
    pub posted: u128,
    /// Added to the pending sum.
    pub held: u128,
    /// Released of the pending sum.
    pub released: u128,
}

/// Whether an event of this kind stores its transfer. An expiry doesn't: its transfer was stored before.
pub(crate) fn stores(kind: EventKind) -> bool
    ensures { result ≡ kinds.stores kind }
{
    kind != EventKind::TwoPhaseExpired
}

/// Whether an event of this kind settles a pending transfer.
pub fn settles(kind: EventKind) -> bool
    ensures { result ≡ kinds.settles kind }
{
    matches!(
        kind,
        EventKind::TwoPhasePosted | EventKind::TwoPhaseVoided | EventKind::TwoPhaseExpired
    )
}

/// Whether an event of this kind moves its amount for good.
pub fn moves(kind: EventKind) -> bool
    ensures { result ≡ kinds.moves kind }
{
    matches!(kind, EventKind::SinglePhase | EventKind::TwoPhasePosted)
}

/// Whether an event of this kind holds its amount back.
pub fn holds(kind: EventKind) -> bool
    ensures { result ≡ kinds.holds kind }
{
    kind == EventKind::TwoPhasePending
}

/// The id of the pending transfer that an event settles; 0 if it settles none.
pub fn settled_id(event: &Event) -> u128
    ensures { result ≡ known.settled_id event.now }
{
    match event.kind {
        EventKind::SinglePhase | EventKind::TwoPhasePending => 0,
        EventKind::TwoPhasePosted | EventKind::TwoPhaseVoided => event.transfer.pending_id,
        EventKind::TwoPhaseExpired => event.transfer.id,
    }
}

/// The amount of a transfer that is or was pending.
fn pending_amount(stored: Option<Stored>) -> Option<u128>
    ensures { result ≡ spec.amount_in stored }
{
    match stored {
        Some(Stored::Pending(amount)) => Some(amount),
        Some(Stored::Settled(amount)) => Some(amount),
        Some(Stored::Plain) => None,
        None => None,
    }
}

/// Whether a transfer was pending, and no longer is.
fn is_settled(stored: Option<Stored>) -> bool
    ensures { result ≡ spec.was_settled stored }
{
    match stored {
        Some(Stored::Settled(_)) => true,
        Some(Stored::Plain) | Some(Stored::Pending(_)) => false,
        None => false,
    }
}

/// What an event stores of its transfer.
pub(crate) fn stored_by(event: &Event) -> Stored
    ensures { result ≡ spec.stored_by event.now }
{
    if holds(event.kind) {
        Stored::Pending(event.transfer.amount)
    } else {
        Stored::Plain
    }
}

/// The amount, if it counts; otherwise 0.
fn amount_if(counts: bool, amount: u128) -> u128
    ensures { result ≡ (if counts then amount else 0) }
{
    if counts { amount } else { 0 }
}

/// The amount that an event releases: that of the pending transfer that it settles.
pub(crate) fn released(facts: &Facts, event: &Event) -> u128
    ensures { result ≡ spec.released facts.now event.now }
{
    amount_if(
        settles(event.kind),
        pending_amount(facts.settled).unwrap_or(0),
    )
}

/// What an event moves, debited from one account and credited to the other.
fn amounts_of(facts: &Facts, event: &Event) -> Amounts
    ensures { result ≡ spec.amounts_of facts.now event.now }
{
    let amount = event.transfer.amount;
    Amounts {
        posted: amount_if(moves(event.kind), amount),
        held: amount_if(holds(event.kind), amount),
        released: released(facts, event),
    }
}

/// Whether a balance follows. The sums may exceed 128 bits.
fn balance_follows(shown: u128, before: u128, added: u128, released: u128) -> bool
    ensures { result ≡ (shown + released == before + added) }
{
    let (after, after_carry) = shown.overflowing_add(released);
    let (whole, whole_carry) = before.overflowing_add(added);
    after == whole && after_carry == whole_carry
}

/// The refusal of an event by one balance that it shows.
fn balance_refusal(mismatch: Mismatch) -> Option<Refusal>
    ensures { result ≡ first_line (spec.mismatch_line mismatch ∷ []) }
{
    let Mismatch {
        shown,
        before,
        added,
        released,
        ..
    } = mismatch;
    if balance_follows(shown, before, added, released) {
        None
    } else {
        Some(Refusal::Balance(mismatch))
    }
}

/// The refusal of an event by the four balances that it shows of an account.
pub fn account_refusal(
    account: &EventAccount,
    before: &Balances,
    debits: Amounts,
    credits: Amounts,
) -> Option<Refusal>
    ensures { result ≡ first_line (spec.account_lines account.now before.now debits credits) }
{
    let debits_pending = Mismatch {
        account: account.id,
        field: BalanceField::DebitsPending,
        shown: account.debits_pending,
        before: before.debits_pending,
        added: debits.held,
        released: debits.released,
    };
    let debits_posted = Mismatch {
        account: account.id,
        field: BalanceField::DebitsPosted,
        shown: account.debits_posted,
        before: before.debits_posted,
        added: debits.posted,
        released: 0,
    };
    let credits_pending = Mismatch {
        account: account.id,
        field: BalanceField::CreditsPending,
        shown: account.credits_pending,
        before: before.credits_pending,
        added: credits.held,
        released: credits.released,
    };
    let credits_posted = Mismatch {
        account: account.id,
        field: BalanceField::CreditsPosted,
        shown: account.credits_posted,
        before: before.credits_posted,
        added: credits.posted,
        released: 0,
    };
    balance_refusal(debits_pending)
        .or(balance_refusal(debits_posted))
        .or(balance_refusal(credits_pending))
        .or(balance_refusal(credits_posted))
}

/// The refusal of an event by the balances of its two accounts.
fn balances_refusal(facts: &Facts, event: &Event) -> Option<Refusal>
    ensures { result ≡ first_line (spec.balances_lines facts.now event.now) }
{
    let amounts = amounts_of(facts, event);
    let nothing = Amounts {
        posted: 0,
        held: 0,
        released: 0,
    };
    account_refusal(&event.debit_account, &facts.debited, amounts, nothing).or(account_refusal(
        &event.credit_account,
        &facts.credited,
        nothing,
        amounts,
    ))
}

/// The refusal of an event by its timestamp, or by its two accounts being one.
fn order_refusal(last: u64, event: &Event) -> Option<Refusal>
    ensures { result ≡ first_line (rules.order_lines last event.now) }
{
    if event.timestamp <= last {
        Some(Refusal::NotLater(event.timestamp, last))
    } else if event.debit_account.id == event.credit_account.id {
        Some(Refusal::OneAccount(event.debit_account.id))
    } else if event.timestamp > Limits::TIMESTAMP {
        Some(Refusal::TooHigh(event.timestamp))
    } else {
        None
    }
}

/// The refusal of an event by the fields of its accounts that never change, and by their timestamps.
fn fixed_refusal(facts: &Facts, event: &Event) -> Option<Refusal>
    ensures { result ≡ first_line (spec.fixed_lines facts.now event.now) }
{
    let (debited, credited) = (&event.debit_account, &event.credit_account);
    fields_refusal(facts.debit_fields, event.ledger, debited)
        .or(fields_refusal(facts.credit_fields, event.ledger, credited))
        .or(created_refusal(event))
        .or(apart_refusal(facts.debit_times, facts.credit_times, event))
}

/// The refusal of an event by the transfer that it stores or by the pending one that it settles.
fn transfer_refusal(facts: &Facts, event: &Event) -> Option<Refusal>
    ensures { result ≡ first_line (spec.transfer_lines facts.now event.now) }
{
    let settles = settles(event.kind);
    if stores(event.kind) && facts.own.is_some() {
        Some(Refusal::KnownId(event.transfer.id))
    } else if settles && pending_amount(facts.settled).is_none() {
        Some(Refusal::NotPending(settled_id(event)))
    } else if settles && is_settled(facts.settled) {
        Some(Refusal::Settled(settled_id(event)))
    } else {
        None
    }
}

/// The refusal of an event after one that may have stored a linked transfer.
fn chain_refusal(linked: bool, last: u64, event: &Event) -> Option<Refusal>
    ensures { result ≡ first_line (rules.chain_lines linked last event.now) }
{
    if linked && !(stores(event.kind) && is_next(last, event.timestamp)) {
        Some(Refusal::BrokenChain(event.timestamp, last))
    } else {
        None
    }
}

/// Whether a timestamp is one nanosecond later.
pub(crate) fn is_next(last: u64, timestamp: u64) -> bool
    ensures { result ≡ (timestamp == last + 1) }
{
    last < timestamp && timestamp - last == 1
}

/// Whether an event stored a transfer that is linked to the next one.
pub(crate) fn is_linked(event: &Event) -> bool
    ensures { result ≡ known.is_linked event.now }
{
    stores(event.kind) && event.transfer.flags & TransferFlags::LINKED != 0
}

/// Why an event doesn't follow from the events before it, by what is known of these; `None` if it follows.
pub(crate) fn refusal_by(facts: &Facts, event: &Event) -> Option<Refusal>
    ensures { result ≡ first_line (spec.lines facts.now event.now) }
{
    order_refusal(facts.last, event)
        .or(shape_refusal(event))
        .or(fixed_refusal(facts, event))
        .or(transfer_refusal(facts, event))
        .or(settling_refusal(facts.open_one, event).or(expiry_refusal(
            facts.first,
            facts.expired,
            event,
        )))
        .or(chain_refusal(facts.linked, facts.last, event).or(limits_refusal(event)))
        .or(balances_refusal(facts, event).or(room_refusal(facts.room, event)))
}
