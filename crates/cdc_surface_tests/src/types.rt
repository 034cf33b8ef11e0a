//! The public calls for data: the types with all their fields, the checks of requests, numbers and names, and limits.

use crate::values::{ACCOUNT, EVENT, TRANSFER, accounts, transfers};
use cdc_types::{
    Account, AccountResult, Balances, Batch, BatchResults, Entry, Event, EventAccount, EventKind,
    EventTransfer, Headers, Items, Limits, NewAccount, NewTransfer, Properties, Transfer,
    TransferResult,
};
use std::alloc::AllocError;

const ACCOUNT_RESULTS: [AccountResult; 11] = [
    AccountResult::Accepted,
    AccountResult::ReservedFlag,
    AccountResult::IdMustNotBeZero,
    AccountResult::IdMustNotBeIntMax,
    AccountResult::FlagsAreMutuallyExclusive,
    AccountResult::LedgerMustNotBeZero,
    AccountResult::CodeMustNotBeZero,
    AccountResult::ExistsWithDifferentFields,
    AccountResult::Exists,
    AccountResult::LinkedEventFailed,
    AccountResult::LinkedEventChainOpen,
];

fn account_result(answer: AccountResult) -> (u8, &'static str) {
    match answer {
        AccountResult::Accepted => (0, "ok"),
        AccountResult::ReservedFlag => (1, "reserved_flag"),
        AccountResult::IdMustNotBeZero => (2, "id_must_not_be_zero"),
        AccountResult::IdMustNotBeIntMax => (3, "id_must_not_be_int_max"),
        AccountResult::FlagsAreMutuallyExclusive => (4, "flags_are_mutually_exclusive"),
        AccountResult::LedgerMustNotBeZero => (5, "ledger_must_not_be_zero"),
        AccountResult::CodeMustNotBeZero => (6, "code_must_not_be_zero"),
        AccountResult::ExistsWithDifferentFields => (7, "exists_with_different_fields"),
        AccountResult::Exists => (8, "exists"),
        AccountResult::LinkedEventFailed => (9, "linked_event_failed"),
        AccountResult::LinkedEventChainOpen => (10, "linked_event_chain_open"),
    }
}

const TRANSFER_RESULTS: [TransferResult; 40] = [
    TransferResult::Accepted,
    TransferResult::ReservedFlag,
    TransferResult::IdMustNotBeZero,
    TransferResult::IdMustNotBeIntMax,
    TransferResult::FlagsAreMutuallyExclusive,
    TransferResult::PendingIdMustBeZero,
    TransferResult::PendingIdMustNotBeZero,
    TransferResult::PendingIdMustBeDifferent,
    TransferResult::TimeoutReservedForPendingTransfer,
    TransferResult::LedgerMustNotBeZero,
    TransferResult::CodeMustNotBeZero,
    TransferResult::AccountsMustBeDifferent,
    TransferResult::ExistsWithDifferentFields,
    TransferResult::Exists,
    TransferResult::DebitAccountNotFound,
    TransferResult::CreditAccountNotFound,
    TransferResult::AccountsMustHaveTheSameLedger,
    TransferResult::TransferMustHaveTheSameLedgerAsAccounts,
    TransferResult::PendingTransferNotFound,
    TransferResult::PendingTransferNotPending,
    TransferResult::PendingTransferHasDifferentDebitAccountId,
    TransferResult::PendingTransferHasDifferentCreditAccountId,
    TransferResult::PendingTransferHasDifferentLedger,
    TransferResult::PendingTransferHasDifferentCode,
    TransferResult::ExceedsPendingTransferAmount,
    TransferResult::PendingTransferHasDifferentAmount,
    TransferResult::PendingTransferAlreadyPosted,
    TransferResult::PendingTransferAlreadyVoided,
    TransferResult::PendingTransferExpired,
    TransferResult::OverflowsDebitsPending,
    TransferResult::OverflowsCreditsPending,
    TransferResult::OverflowsDebitsPosted,
    TransferResult::OverflowsCreditsPosted,
    TransferResult::OverflowsDebits,
    TransferResult::OverflowsCredits,
    TransferResult::OverflowsTimeout,
    TransferResult::ExceedsCredits,
    TransferResult::ExceedsDebits,
    TransferResult::LinkedEventFailed,
    TransferResult::LinkedEventChainOpen,
];

fn transfer_result(answer: TransferResult) -> (u8, &'static str) {
    match answer {
        TransferResult::Accepted => (0, "ok"),
        TransferResult::ReservedFlag => (1, "reserved_flag"),
        TransferResult::IdMustNotBeZero => (2, "id_must_not_be_zero"),
        TransferResult::IdMustNotBeIntMax => (3, "id_must_not_be_int_max"),
        TransferResult::FlagsAreMutuallyExclusive => (4, "flags_are_mutually_exclusive"),
        TransferResult::PendingIdMustBeZero => (5, "pending_id_must_be_zero"),
        TransferResult::PendingIdMustNotBeZero => (6, "pending_id_must_not_be_zero"),
        TransferResult::PendingIdMustBeDifferent => (7, "pending_id_must_be_different"),
        TransferResult::TimeoutReservedForPendingTransfer => (
            8,
            "timeout_reserved_for_pending_transfer",
        ),
        TransferResult::LedgerMustNotBeZero => (9, "ledger_must_not_be_zero"),
        TransferResult::CodeMustNotBeZero => (10, "code_must_not_be_zero"),
        TransferResult::AccountsMustBeDifferent => (11, "accounts_must_be_different"),
        TransferResult::ExistsWithDifferentFields => (12, "exists_with_different_fields"),
        TransferResult::Exists => (13, "exists"),
        TransferResult::DebitAccountNotFound => (14, "debit_account_not_found"),
        TransferResult::CreditAccountNotFound => (15, "credit_account_not_found"),
        TransferResult::AccountsMustHaveTheSameLedger => (16, "accounts_must_have_the_same_ledger"),
        TransferResult::TransferMustHaveTheSameLedgerAsAccounts => (
            17,
            "transfer_must_have_the_same_ledger_as_accounts",
        ),
        TransferResult::PendingTransferNotFound => (18, "pending_transfer_not_found"),
        TransferResult::PendingTransferNotPending => (19, "pending_transfer_not_pending"),
        TransferResult::PendingTransferHasDifferentDebitAccountId => (
            20,
            "pending_transfer_has_different_debit_account_id",
        ),
        TransferResult::PendingTransferHasDifferentCreditAccountId => (
            21,
            "pending_transfer_has_different_credit_account_id",
        ),
        TransferResult::PendingTransferHasDifferentLedger => (
            22,
            "pending_transfer_has_different_ledger",
        ),
        TransferResult::PendingTransferHasDifferentCode => (
            23,
            "pending_transfer_has_different_code",
        ),
        TransferResult::ExceedsPendingTransferAmount => (24, "exceeds_pending_transfer_amount"),
        TransferResult::PendingTransferHasDifferentAmount => (
            25,
            "pending_transfer_has_different_amount",
        ),
        TransferResult::PendingTransferAlreadyPosted => (26, "pending_transfer_already_posted"),
        TransferResult::PendingTransferAlreadyVoided => (27, "pending_transfer_already_voided"),
        TransferResult::PendingTransferExpired => (28, "pending_transfer_expired"),
        TransferResult::OverflowsDebitsPending => (29, "overflows_debits_pending"),
        TransferResult::OverflowsCreditsPending => (30, "overflows_credits_pending"),
        TransferResult::OverflowsDebitsPosted => (31, "overflows_debits_posted"),
        TransferResult::OverflowsCreditsPosted => (32, "overflows_credits_posted"),
        TransferResult::OverflowsDebits => (33, "overflows_debits"),
        TransferResult::OverflowsCredits => (34, "overflows_credits"),
        TransferResult::OverflowsTimeout => (35, "overflows_timeout"),
        TransferResult::ExceedsCredits => (36, "exceeds_credits"),
        TransferResult::ExceedsDebits => (37, "exceeds_debits"),
        TransferResult::LinkedEventFailed => (38, "linked_event_failed"),
        TransferResult::LinkedEventChainOpen => (39, "linked_event_chain_open"),
    }
}

#[test]
fn results_have_numbers_and_names(rt: HostRuntime) {
    for result in ACCOUNT_RESULTS {
        let number: u8 = result.number();
        let name: &'static str = result.name();
        assert_eq!(rt; (number, name), account_result(result));
    }
    for result in TRANSFER_RESULTS {
        let number: u8 = result.number();
        let name: &'static str = result.name();
        assert_eq!(rt; (number, name), transfer_result(result));
    }
}

#[test]
fn requests_are_checked(rt: HostRuntime) {
    let account: Option<AccountResult> = ACCOUNT.check();
    let transfer: Option<TransferResult> = TRANSFER.check_shape();
    assert_eq!(rt; (account, transfer), (None, None));
    let account = NewAccount { id: 0, ..ACCOUNT };
    assert_eq!(rt; account.check(), Some(AccountResult::IdMustNotBeZero));
    let transfer = NewTransfer { id: 0, ..TRANSFER };
    assert_eq!(rt;
        transfer.check_shape(),
        Some(TransferResult::IdMustNotBeZero)
    );
}

const BALANCES: Balances = Balances {
    debits_pending: 1,
    debits_posted: 2,
    credits_pending: 3,
    credits_posted: 4,
};

const STORED_ACCOUNT: Account = Account {
    id: 1,
    user_data_128: 0,
    user_data_64: 0,
    user_data_32: 0,
    ledger: 700,
    code: 10,
    flags: 0,
    balances: BALANCES,
    timestamp: 1000,
};

const STORED_TRANSFER: Transfer = Transfer {
    id: 1,
    debit_account_id: 1,
    credit_account_id: 2,
    amount: 5,
    pending_id: 0,
    user_data_128: 0,
    user_data_64: 0,
    user_data_32: 0,
    timeout: 0,
    ledger: 700,
    code: 1,
    flags: 0,
    timestamp: 2000,
};

const ENTRY: Entry = Entry {
    timestamp: 2000,
    kind: EventKind::SinglePhase,
    transfer: STORED_TRANSFER,
};

const HEADERS: Headers = Headers {
    kind: EventKind::SinglePhase,
    ledger: 700,
    transfer_code: 1,
    debit_account_code: 10,
    credit_account_code: 10,
};

const PROPERTIES: Properties = Properties {
    app_id: "tigerbeetle",
    content_type: "application/json",
    delivery_mode: 2,
    timestamp: 0,
};

// A copy, which only plain data has.
fn copy_of<T: Copy>(value: &T) -> T {
    *value
}

#[test]
fn plain_data_is_copied(rt: HostRuntime) {
    assert_eq!(rt; copy_of::<NewAccount>(&ACCOUNT), ACCOUNT);
    assert_eq!(rt; copy_of::<NewTransfer>(&TRANSFER), TRANSFER);
    assert_eq!(rt; copy_of::<Balances>(&BALANCES), BALANCES);
    assert_eq!(rt; copy_of::<Account>(&STORED_ACCOUNT), STORED_ACCOUNT);
    assert_eq!(rt; copy_of::<Transfer>(&STORED_TRANSFER), STORED_TRANSFER);
    assert_eq!(rt; copy_of::<Entry>(&ENTRY), ENTRY);
    assert_eq!(rt; copy_of::<Event>(&EVENT), EVENT);
    assert_eq!(rt; copy_of::<EventTransfer>(&EVENT.transfer), EVENT.transfer);
    assert_eq!(rt;
        copy_of::<EventAccount>(&EVENT.debit_account),
        EVENT.debit_account
    );
    assert_eq!(rt; copy_of::<Headers>(&HEADERS), HEADERS);
    assert_eq!(rt; copy_of::<Properties>(&PROPERTIES), PROPERTIES);
}

fn place_of(kind: EventKind) -> u8 {
    match kind {
        EventKind::SinglePhase => 0,
        EventKind::TwoPhasePending => 1,
        EventKind::TwoPhasePosted => 2,
        EventKind::TwoPhaseVoided => 3,
        EventKind::TwoPhaseExpired => 4,
    }
}

#[test]
fn kinds_of_events_are_copied(rt: HostRuntime) {
    for kind in [
        EventKind::SinglePhase,
        EventKind::TwoPhasePending,
        EventKind::TwoPhasePosted,
        EventKind::TwoPhaseVoided,
        EventKind::TwoPhaseExpired,
    ] {
        assert_eq!(rt; place_of(copy_of::<EventKind>(&kind)), place_of(kind));
    }
}

// The timestamp of a batch, and how many items it has.
fn size_of_batch(batch: Batch) -> (u64, usize) {
    match batch {
        Batch::Accounts { now, items } => (now, items.into_vec().len()),
        Batch::Transfers { now, items } => (now, items.into_vec().len()),
        Batch::Pulse { now } => (now, 0),
    }
}

#[test]
fn batches_are_copied(rt: HostRuntime) {
    for batch in [
        accounts(&rt, rt.alloc()),
        transfers(&rt, rt.alloc()),
        Batch::Pulse { now: 7 },
    ] {
        let copy: Result<Batch, AllocError> = batch.try_copy(rt.alloc());
        let copy = copy.expect(&rt, "memory");
        assert_eq!(rt; size_of_batch(copy), size_of_batch(batch));
    }
}

// How many results there are, or how many transfers a pulse has expired.
fn size_of_results(results: BatchResults) -> u64 {
    match results {
        BatchResults::Accounts(items) => items.into_vec().len() as u64,
        BatchResults::Transfers(items) => items.into_vec().len() as u64,
        BatchResults::Pulsed(count) => count,
    }
}

#[test]
fn results_are_copied(rt: HostRuntime) {
    let accounts = vec![in rt.alloc(); AccountResult::Exists; 2].expect(&rt, "memory");
    let transfers = vec![in rt.alloc(); TransferResult::Exists; 3].expect(&rt, "memory");
    for (results, size) in [
        (BatchResults::Accounts(Items::from_vec(accounts)), 2),
        (BatchResults::Transfers(Items::from_vec(transfers)), 3),
        (BatchResults::Pulsed(4), 4),
    ] {
        let copy: Result<BatchResults, AllocError> = results.try_copy(rt.alloc());
        assert_eq!(rt; size_of_results(copy.expect(&rt, "memory")), size);
    }
}

#[test]
fn limits_have_names(rt: HostRuntime) {
    let sizes: [(usize, usize); 5] = [
        (Limits::BATCH_ITEMS, 1_000),
        (Limits::BINDING_PAIRS, 10),
        (Limits::WINDOW, 64),
        (Limits::SUBSCRIBERS, 8),
        (Limits::SCRIPT_BYTES, 1_048_576),
    ];
    for (limit, expected) in sizes {
        assert_eq!(rt; limit, expected);
    }
    let counts: [(u64, u64); 2] = [(Limits::PREFETCH, 64), (Limits::CLIENTS, 4)];
    for (limit, expected) in counts {
        assert_eq!(rt; limit, expected);
    }
    let bytes: usize = Limits::PROGRESS_BYTES;
    assert_eq!(rt; bytes, 128);
}
