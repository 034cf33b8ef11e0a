//! The effect of an entry on the two accounts of its transfer, and the event of the entry.

ghost use Rattle.std.specs.Prelude.{◌≡◌, ◌≢◌, All};
ghost use Rattle.cdc_ledger.specs.Accounts.{event_from};
ghost use Rattle.cdc_ledger.specs.Kinds as kinds;
ghost use Rattle.cdc_ledger.specs.Movements.{IsPlaced, SideFits, Takes, account_ids, accounts_after, credited_account, debited_account, effect_of_movement};
ghost use Rattle.cdc_ledger.specs.Sound.{AreApart};

use crate::accounts::shown_account;
use crate::transfers::shown_transfer;
use cdc_types::{Account, Entry, Event, EventKind, Transfer};

/// The effect of an entry on the balances of its two accounts (TigerBeetle, Two-Phase Transfers).
#[derive(Clone, Copy)]
pub(crate) struct Effect {
    /// The amount that is subtracted from the pending balances.
    released: u128,
    /// The amount that is added to the pending balances.
    held: u128,
    /// The amount that is added to the posted balances.
    moved: u128,
}

impl Effect {
    /// Updates the balances of the debited account.
    fn debit(&self, account: &mut Account)
        requires { let sums = account.old.balances in
            SideFits self.now sums.debits_pending sums.debits_posted }
        ensures { account.new ≡ debited_account self.now account.old }
    {
        let balances = &mut account.balances;
        balances.debits_pending = balances.debits_pending - self.released + self.held;
        balances.debits_posted += self.moved;
    }

    /// Updates the balances of the credited account.
    fn credit(&self, account: &mut Account)
        requires { let sums = account.old.balances in
            SideFits self.now sums.credits_pending sums.credits_posted }
        ensures { account.new ≡ credited_account self.now account.old }
    {
        let balances = &mut account.balances;
        balances.credits_pending = balances.credits_pending - self.released + self.held;
        balances.credits_posted += self.moved;
    }
}

/// A pending transfer, with the index of the entry that stored it, from 0.
#[derive(Clone, Copy)]
pub(crate) struct Pending {
    pub(crate) transfer: Transfer,
    pub(crate) place: usize,
}

/// An entry that the ledger can record, with the indices of its two accounts.
#[derive(Clone, Copy)]
pub(crate) struct Movement {
    pub(crate) entry: Entry,
    /// The index of the debited account, from 0.
    pub(crate) debit: usize,
    /// The index of the credited account, from 0.
    pub(crate) credit: usize,
    /// The pending transfer that the entry posts, voids or expires.
    pub(crate) settled: Option<Pending>,
}

/// Whether an entry of this kind moves its amount for good.
fn moves(kind: EventKind) -> bool
    ensures { result ≡ kinds.moves kind }
{
    matches!(kind, EventKind::SinglePhase | EventKind::TwoPhasePosted)
}

impl Movement {
    /// The effect of the entry on the balances of its two accounts. It releases the amount that the settled transfer
    /// holds, if it settles one. Depending on its kind it holds its own amount, moves it, or does neither.
    fn effect(&self) -> Effect
        ensures { result ≡ effect_of_movement self.now }
    {
        let amount = self.entry.transfer.amount;
        let holds = self.entry.kind == EventKind::TwoPhasePending;
        Effect {
            released: match self.settled {
                Some(pending) => pending.transfer.amount,
                None => 0,
            },
            held: if holds { amount } else { 0 },
            moved: if moves(self.entry.kind) { amount } else { 0 },
        }
    }

    /// Updates the balances of the two accounts.
    pub(crate) fn apply(&self, accounts: &mut [Account])
        requires placed { IsPlaced accounts.old self.now }
        requires apart { let transfer = self.now.entry.transfer in
            transfer.debit_account_id ≢ transfer.credit_account_id }
        requires unique { AreApart (account_ids accounts.old) }
        requires fits { All
            (Takes (effect_of_movement self.now) self.now.entry.transfer.debit_account_id
            self.now.entry.transfer.credit_account_id) accounts.old }
        ensures { accounts.new ≡ accounts_after self.now accounts.old }
    {
        let effect = self.effect();
        effect.debit(&mut accounts[self.debit]);
        effect.credit(&mut accounts[self.credit]);
    }

    /// The event of the entry. `accounts` are the accounts right after the entry.
    pub(crate) fn event(&self, accounts: &[Account]) -> Event
        requires { IsPlaced accounts.now self.now }
        ensures { result ≡ event_from accounts.now self.now.entry }
    {
        let transfer = &self.entry.transfer;
        Event {
            timestamp: self.entry.timestamp,
            kind: self.entry.kind,
            ledger: transfer.ledger,
            transfer: shown_transfer(transfer),
            debit_account: shown_account(&accounts[self.debit]),
            credit_account: shown_account(&accounts[self.credit]),
        }
    }
}
