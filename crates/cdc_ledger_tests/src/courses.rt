//! Courses of a ledger: what it is asked, what it answers, and which events it has then.
//!
//! Each test creates a ledger and lends it: a function that owns one is proved to drop it at each of its exits, and a
//! `?` is an exit.

use cdc_ledger::Ledger;
use cdc_types::{Event, EventKind, NewAccount, NewTransfer};
use std::alloc::Global;
use std::process::Abort;
use std::test::Fail;

pub(crate) const MAX: u128 = u128::MAX;

/// The timestamp of the pulse after a row of batches: after a timeout of a second that begins at 2000 or 3002.
pub(crate) const PULSE: u64 = 1_000_003_002;

/// A request for an account.
pub(crate) const ACCOUNT: NewAccount = NewAccount {
    id: 1,
    user_data_128: 0,
    user_data_64: 0,
    user_data_32: 0,
    ledger: 700,
    code: 10,
    flags: 0,
};

/// A request for a transfer of amount 0 from account 1 to account 2.
pub(crate) const TRANSFER: NewTransfer = NewTransfer {
    id: 1,
    debit_account_id: 1,
    credit_account_id: 2,
    amount: 0,
    pending_id: 0,
    user_data_128: 0,
    user_data_64: 0,
    user_data_32: 0,
    timeout: 0,
    ledger: 700,
    code: 1,
    flags: 0,
};

/// A post or a void, depending on its flags, that leaves all else to the pending transfer.
pub(crate) const SETTLING: NewTransfer = NewTransfer {
    id: 1,
    debit_account_id: 0,
    credit_account_id: 0,
    amount: 0,
    pending_id: 0,
    user_data_128: 0,
    user_data_64: 0,
    user_data_32: 0,
    timeout: 0,
    ledger: 0,
    code: 0,
    flags: 4,
};

/// A batch of one request with its timestamp: the flags, the id, the pending id, the amount and the timeout; an id of
/// 0 means a pulse. Then the answer: the result's number, or how many transfers expired.
type Step = (u64, u16, u128, u128, u128, u32, u64);

/// A request of a batch: the flags, the id, the pending id, the amount and the timeout; then the number of its result.
type Item = (u16, u128, u128, u128, u32, u8);

/// An event's timestamp, its kind, the amount, and the debited account's four balances after it: debits pending and
/// posted, credits pending and posted.
type Emitted = (u64, EventKind, u128, [u128; 4]);

/// Opens accounts 1 and 2 at 1000 and 1001; the flags are account 1's.
pub(crate) fn open_two(alloc: Global, ledger: &mut Ledger, flags: u16) -> Result<(), Fail> {
    let requests = [
        NewAccount { flags, ..ACCOUNT },
        NewAccount { id: 2, ..ACCOUNT },
    ];
    let _results = ledger.create_accounts(alloc, 1000, &requests)?;
    Ok(())
}

/// The request that these ask for: the flags, the id, the pending id, the amount and the timeout.
fn request_of(flags: u16, id: u128, pending_id: u128, amount: u128, timeout: u32) -> NewTransfer {
    let base = if flags & 12 == 0 { TRANSFER } else { SETTLING };
    NewTransfer {
        id,
        pending_id,
        amount,
        timeout,
        flags,
        ..base
    }
}

/// The ledger's answer to a step, as a number.
pub(crate) fn answer(alloc: Global, ledger: &mut Ledger, step: &Step) -> Result<u64, Fail> {
    let (now, flags, id, pending_id, amount, timeout, _) = *step;
    if id == 0 {
        return Ok(ledger.pulse(now)?);
    }
    let request = request_of(flags, id, pending_id, amount, timeout);
    match ledger.create_transfers(alloc, now, &[request])?.as_slice() {
        [only] => Ok(u64::from(only.number())),
        _ => Err("not one result".into()),
    }
}

/// What the tests compare of an event.
pub(crate) fn emitted_by(event: &Event) -> Emitted {
    let debit = event.debit_account;
    let sums = [
        debit.debits_pending,
        debit.debits_posted,
        debit.credits_pending,
        debit.credits_posted,
    ];
    (event.timestamp, event.kind, event.transfer.amount, sums)
}

/// An account's four balances, in the order of `Emitted`.
pub(crate) fn sums_of(ledger: &Ledger, id: u128) -> Option<[u128; 4]> {
    let sums = ledger.balances(id)?;
    Some([
        sums.debits_pending,
        sums.debits_posted,
        sums.credits_pending,
        sums.credits_posted,
    ])
}

/// Asserts that these are the ledger's events.
fn emits(rt: &impl Abort, ledger: &Ledger, events: &[Emitted]) {
    assert_eq!(rt; ledger.log().len(), events.len());
    for (place, expected) in events.iter().enumerate() {
        assert_eq!(rt; ledger.log().get(place).map(emitted_by), Some(*expected));
    }
}

/// Asserts that these steps, taken one after another on a ledger of two accounts, have these answers, and that these
/// are the ledger's events then.
fn plays(
    rt: &impl Abort,
    alloc: Global,
    ledger: &mut Ledger,
    flags: u16,
    steps: &[Step],
    events: &[Emitted],
) -> Result<(), Fail> {
    open_two(alloc, ledger, flags)?;
    for step in steps {
        assert_eq!(rt; answer(alloc, ledger, step)?, step.6);
    }
    emits(rt, ledger, events);
    Ok(())
}

/// The same, on a ledger of its own.
pub(crate) fn row(
    rt: &impl Abort,
    alloc: Global,
    flags: u16,
    steps: &[Step],
    events: &[Emitted],
) -> Result<(), Fail> {
    let mut ledger = Ledger::new(alloc);
    plays(rt, alloc, &mut ledger, flags, steps, events)
}

/// Asserts that a batch of requests for transfers has these results.
pub(crate) fn answers(
    rt: &impl Abort,
    alloc: Global,
    ledger: &mut Ledger,
    now: u64,
    requests: &[NewTransfer],
    expected: &[u8],
) -> Result<(), Fail> {
    let results = ledger.create_transfers(alloc, now, requests)?;
    assert_eq!(rt; results.len(), expected.len());
    for (result, number) in results.iter().zip(expected) {
        assert_eq!(rt; result.number(), *number);
    }
    Ok(())
}

/// The numbers of the results of a batch of transfers.
fn transfer_numbers(
    alloc: Global,
    ledger: &mut Ledger,
    now: u64,
    items: &[Item],
) -> Result<Vec<u8>, Fail> {
    let mut requests = Vec::with_capacity(alloc, items.len())?;
    for (flags, id, pending_id, amount, timeout, _) in items {
        requests.push(request_of(*flags, *id, *pending_id, *amount, *timeout))?;
    }
    let mut numbers = Vec::with_capacity(alloc, items.len())?;
    for result in ledger
        .create_transfers(alloc, now, requests.as_slice())?
        .iter()
    {
        numbers.push(result.number())?;
    }
    Ok(numbers)
}

/// Asserts that these batches, taken one after another on a ledger of two accounts, have these results, that
/// `expired` pending transfers expire by a pulse after them, and that these are then the ledger's events. Account 1
/// was debited what account 2 was credited.
fn plays_batches(
    rt: &impl Abort,
    alloc: Global,
    ledger: &mut Ledger,
    batches: &[(u64, &[Item])],
    expired: u64,
    events: &[Emitted],
) -> Result<(), Fail> {
    open_two(alloc, ledger, 0)?;
    for (now, items) in batches {
        let numbers = transfer_numbers(alloc, ledger, *now, items)?;
        assert_eq!(rt; numbers.len(), items.len());
        for (place, item) in items.iter().enumerate() {
            assert_eq!(rt; numbers.get(place).copied(), Some(item.5));
        }
    }
    assert_eq!(rt; ledger.pulse(PULSE)?, expired);
    emits(rt, ledger, events);
    let sums = events.last().map_or([0, 0, 0, 0], |event| event.3);
    assert_eq!(rt; sums_of(ledger, 1), Some(sums));
    assert_eq!(rt;
        sums_of(ledger, 2),
        Some([sums[2], sums[3], sums[0], sums[1]])
    );
    Ok(())
}

/// The same, on a ledger of its own.
pub(crate) fn batches(
    rt: &impl Abort,
    alloc: Global,
    batches: &[(u64, &[Item])],
    expired: u64,
    events: &[Emitted],
) -> Result<(), Fail> {
    let mut ledger = Ledger::new(alloc);
    plays_batches(rt, alloc, &mut ledger, batches, expired, events)
}
