//! The public calls of the ledger.

use crate::values::{ACCOUNT, TRANSFER, accounts};
use cdc_ledger::{BatchError, Ledger};
use cdc_log::EventLog;
use cdc_types::{
    Account, AccountResult, Balances, BatchResults, Entry, NewAccount, Transfer, TransferResult,
};

const ERRORS: [BatchError; 4] = [
    BatchError::LedgerClosed,
    BatchError::BatchTooLarge,
    BatchError::TimestampsExhausted,
    BatchError::OutOfMemory,
];

fn error(error: BatchError) -> (u8, &'static str) {
    match error {
        BatchError::LedgerClosed => (1, "ledger_closed"),
        BatchError::BatchTooLarge => (2, "batch_too_large"),
        BatchError::TimestampsExhausted => (3, "timestamps_exhausted"),
        BatchError::OutOfMemory => (4, "out_of_memory"),
    }
}

#[test]
fn errors_of_batches_have_numbers_and_names(rt: HostRuntime) {
    for fault in ERRORS {
        let number: u8 = fault.number();
        let name: &'static str = fault.name();
        assert_eq!(rt; (number, name), error(fault));
    }
}

#[test]
fn a_ledger_takes_batches(rt: HostRuntime) {
    let mut ledger: Ledger = Ledger::new(rt.alloc());
    let two = [ACCOUNT, NewAccount { id: 2, ..ACCOUNT }];
    let opened: Result<Vec<AccountResult>, BatchError> = ledger.create_accounts(
        rt.alloc(),
        1000,
        &two,
    );
    assert_eq!(rt; opened.expect(&rt, "memory").len(), 2);
    let moved: Result<Vec<TransferResult>, BatchError> = ledger.create_transfers(
        rt.alloc(),
        2000,
        &[TRANSFER],
    );
    assert_eq!(rt; moved.expect(&rt, "memory").len(), 1);
    let expired: Result<u64, BatchError> = ledger.pulse(3000);
    assert_eq!(rt; expired, Ok(0));
    let batch = accounts(&rt, rt.alloc());
    let submitted: Result<BatchResults, BatchError> = ledger.submit(rt.alloc(), &batch);
    assert!(rt; matches!(&submitted, Ok(BatchResults::Accounts(_))));
    ledger.close();
    let closed: bool = ledger.closed();
    assert!(rt; closed);
    assert_eq!(rt; ledger.pulse(4000), Err(BatchError::LedgerClosed));
}

#[test]
fn a_ledger_is_read(rt: HostRuntime) {
    let mut ledger = Ledger::new(rt.alloc());
    let two = [ACCOUNT, NewAccount { id: 2, ..ACCOUNT }];
    let _opened = ledger.create_accounts(rt.alloc(), 1000, &two);
    let _moved = ledger.create_transfers(rt.alloc(), 2000, &[TRANSFER]);
    let accounts: &[Account] = ledger.accounts();
    assert_eq!(rt; accounts.len(), 2);
    let account: Option<&Account> = ledger.account(1);
    let balances: Option<Balances> = ledger.balances(1);
    assert_eq!(rt; account.map(|account| account.balances), balances);
    let transfer: Option<&Transfer> = ledger.transfer(1);
    let entries: &[Entry] = ledger.entries();
    assert_eq!(rt;
        transfer.copied(),
        entries.first().map(|entry| entry.transfer)
    );
    let last: u64 = ledger.last();
    let log: &EventLog = ledger.log();
    assert_eq!(rt; (last, log.last_timestamp()), (2000, 2000));
}
