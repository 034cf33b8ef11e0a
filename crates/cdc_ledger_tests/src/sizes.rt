//! Tests that the allocations of a ledger succeed, also for many items, that its getters find what it has, and how it
//! comes to an end.

use crate::courses::{ACCOUNT, TRANSFER, answer, answers, open_two};
use cdc_ledger::{BatchError, Ledger};
use cdc_types::{
    AccountResult, Balances, Batch, BatchResults, Items, Limits, NewAccount, NewTransfer,
    TransferResult,
};
use std::alloc::Global;
use std::process::Abort;
use std::test::Fail;

// Two accounts, with a transfer of 5 and a pending one of 7 between them, are found, one by one and together.
fn readers(rt: &impl Abort, alloc: Global, ledger: &mut Ledger) -> Result<(), Fail> {
    let single = NewTransfer {
        amount: 5,
        ..TRANSFER
    };
    let pending = NewTransfer {
        id: 2,
        amount: 7,
        flags: 2,
        ..TRANSFER
    };
    open_two(alloc, ledger, 0)?;
    let _results = ledger.create_transfers(alloc, 2000, &[single, pending])?;
    let balances = Balances {
        debits_pending: 7,
        debits_posted: 5,
        credits_pending: 0,
        credits_posted: 0,
    };
    assert_eq!(rt; ledger.balances(1), Some(balances));
    assert_eq!(rt;
        ledger.account(2).map(|account| account.timestamp),
        Some(1001)
    );
    assert_eq!(rt;
        ledger.transfer(2).map(|transfer| transfer.timestamp),
        Some(2001)
    );
    assert_eq!(rt; (ledger.accounts().len(), ledger.entries().len()), (2, 2));
    assert_eq!(rt; (ledger.log().len(), ledger.last()), (2, 2001));
    Ok(())
}

#[test]
fn readers_find_what_was_stored(rt: HostRuntime) -> Result<(), Fail> {
    let mut ledger = Ledger::new(rt.alloc());
    readers(&rt, rt.alloc(), &mut ledger)
}

// Whether a batch of a thousand transfers, pending for a second, with the ids from `first` on, is accepted.
fn takes_thousand(alloc: Global, ledger: &mut Ledger, first: u32) -> Result<bool, Fail> {
    let mut requests = Vec::with_capacity(alloc, 1000)?;
    for place in 0..1000u32 {
        requests.push(NewTransfer {
            id: u128::from(first.saturating_add(place)),
            amount: 1,
            timeout: 1,
            flags: 2,
            ..TRANSFER
        })?;
    }
    let results = ledger.create_transfers(alloc, 2000, requests.as_slice())?;
    Ok(
        results
            .iter()
            .all(|answer| *answer == TransferResult::Accepted),
    )
}

// More than a thousand pending transfers, all of which expire by one pulse.
fn expires_many(rt: &impl Abort, alloc: Global, ledger: &mut Ledger) -> Result<(), Fail> {
    open_two(alloc, ledger, 0)?;
    for first in [1, 1001] {
        assert!(rt; takes_thousand(alloc, ledger, first)?);
    }
    assert_eq!(rt; ledger.pulse(2_000_000_000)?, 2000);
    assert_eq!(rt; ledger.log().len(), 4000);
    Ok(())
}

#[test]
fn a_pulse_is_of_any_size(rt: HostRuntime) -> Result<(), Fail> {
    let mut ledger = Ledger::new(rt.alloc());
    expires_many(&rt, rt.alloc(), &mut ledger)
}

// A batch of as many accounts as a batch may have.
fn thousand_accounts(alloc: Global) -> Result<Batch, Fail> {
    let mut requests = Vec::with_capacity(alloc, Limits::BATCH_ITEMS)?;
    for id in 1..=1000u32 {
        requests.push(NewAccount {
            id: u128::from(id),
            ..ACCOUNT
        })?;
    }
    Ok(Batch::Accounts {
        now: 1000,
        items: Items::from_vec(requests),
    })
}

// How many results there are, if they are those of accounts, all of which were opened.
fn opened_count(results: &BatchResults) -> Option<usize> {
    let BatchResults::Accounts(answers) = results else {
        return None;
    };
    let answers = answers.as_slice();
    let all = answers
        .iter()
        .all(|answer| *answer == AccountResult::Accepted);
    if all { Some(answers.len()) } else { None }
}

// A batch of a thousand accounts is accepted; a batch of one more is refused.
fn takes_at_most_thousand(rt: &impl Abort, alloc: Global, ledger: &mut Ledger) -> Result<(), Fail> {
    let many = vec![in alloc; ACCOUNT; 1001]?;
    let refused = ledger.create_accounts(alloc, 1, many.as_slice());
    assert!(rt; matches!(refused, Err(BatchError::BatchTooLarge)));
    let results = ledger.submit(alloc, &thousand_accounts(alloc)?)?;
    assert_eq!(rt; opened_count(&results), Some(1000));
    assert_eq!(rt; ledger.accounts().len(), 1000);
    Ok(())
}

#[test]
fn a_batch_of_a_thousand_accounts(rt: HostRuntime) -> Result<(), Fail> {
    let mut ledger = Ledger::new(rt.alloc());
    takes_at_most_thousand(&rt, rt.alloc(), &mut ledger)
}

// The last timestamp is assigned once, and a closed ledger accepts no batch.
fn comes_to_an_end(rt: &impl Abort, alloc: Global, ledger: &mut Ledger) -> Result<(), Fail> {
    let two = ledger.create_accounts(alloc, Limits::TIMESTAMP, &[ACCOUNT, ACCOUNT]);
    assert!(rt; matches!(two, Err(BatchError::TimestampsExhausted)));
    let one = ledger.create_accounts(alloc, Limits::TIMESTAMP, &[ACCOUNT])?;
    assert_eq!(rt; one.as_slice(), [AccountResult::Accepted].as_slice());
    assert_eq!(rt; ledger.pulse(5)?, 0);
    ledger.close();
    assert!(rt; ledger.closed());
    assert!(rt; matches!(ledger.pulse(5), Err(BatchError::LedgerClosed)));
    Ok(())
}

#[test]
fn the_end_of_a_ledger(rt: HostRuntime) -> Result<(), Fail> {
    let mut ledger = Ledger::new(rt.alloc());
    comes_to_an_end(&rt, rt.alloc(), &mut ledger)
}

#[test]
fn refusals_have_numbers_and_names(rt: HostRuntime) {
    for (error, number, name) in [
        (BatchError::LedgerClosed, 1, "ledger_closed"),
        (BatchError::BatchTooLarge, 2, "batch_too_large"),
        (BatchError::TimestampsExhausted, 3, "timestamps_exhausted"),
        (BatchError::OutOfMemory, 4, "out_of_memory"),
    ] {
        assert_eq!(rt; (error.number(), error.name()), (number, name));
    }
}
