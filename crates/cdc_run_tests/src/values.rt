//! The batches and bindings of the runs.

ghost use Rattle.std.specs.Prelude.{◌≡◌, ◌+◌, vec_len};

use cdc_match::Binding;
use cdc_types::{Batch, Items, NewAccount, NewTransfer};
use std::alloc::Global;
use std::process::Abort;

fn account(id: u128) -> NewAccount {
    NewAccount {
        id,
        user_data_128: 0,
        user_data_64: 0,
        user_data_32: 0,
        ledger: 700,
        code: 10,
        flags: 0,
    }
}

// A batch that opens an account and the next one.
pub(crate) fn accounts(rt: &impl Abort, alloc: Global, first: u64) -> Batch {
    let (first, second) = (u128::from(first), u128::from(first) + 1);
    let accounts = Vec::from_slice(alloc, &[account(first), account(second)]).expect(rt, "memory");
    Batch::Accounts {
        now: 1000,
        items: Items::from_vec(accounts),
    }
}

fn transfer_of(from: u64, id: u64) -> NewTransfer {
    NewTransfer {
        id: u128::from(id),
        debit_account_id: u128::from(from),
        credit_account_id: u128::from(from) + 1,
        amount: 5,
        pending_id: 0,
        user_data_128: 0,
        user_data_64: 0,
        user_data_32: 0,
        timeout: 0,
        ledger: 700,
        code: 1,
        flags: 0,
    }
}

// A batch of one transfer from an account to the next one.
pub(crate) fn transfer(rt: &impl Abort, alloc: Global, now: u64, from: u64, id: u64) -> Batch {
    let transfers = Vec::from_slice(alloc, &[transfer_of(from, id)]).expect(rt, "memory");
    Batch::Transfers {
        now,
        items: Items::from_vec(transfers),
    }
}

// A batch of so many transfers from account 1 to account 2.
pub(crate) fn transfers(rt: &impl Abort, alloc: Global, count: u64) -> Batch {
    let mut transfers = Vec::new(alloc);
    for id in 0..count {
        transfers
            .push(transfer_of(1, id.saturating_add(1)))
            .expect(rt, "memory");
    }
    Batch::Transfers {
        now: 2000,
        items: Items::from_vec(transfers),
    }
}

pub(crate) fn all_events(rt: &impl Abort, alloc: Global) -> Binding {
    Binding::parse(alloc, &["all"]).expect(rt, "a binding")
}

// The bindings, with those of two more subscribers to all events.
fn with_two_more(rt: &impl Abort, alloc: Global, bindings: Vec<Binding>) -> Vec<Binding>
    ensures { vec_len result ≡ vec_len bindings + 2 }
{
    let mut bindings = bindings;
    bindings.push(all_events(rt, alloc)).expect(rt, "memory");
    bindings.push(all_events(rt, alloc)).expect(rt, "memory");
    bindings
}

pub(crate) fn two_of_all(rt: &impl Abort, alloc: Global) -> Vec<Binding>
    ensures { vec_len result ≡ 2 }
{
    with_two_more(rt, alloc, Vec::new(alloc))
}

pub(crate) fn eight_of_all(rt: &impl Abort, alloc: Global) -> Vec<Binding>
    ensures { vec_len result ≡ 8 }
{
    let four = with_two_more(rt, alloc, two_of_all(rt, alloc));
    let six = with_two_more(rt, alloc, four);
    with_two_more(rt, alloc, six)
}
