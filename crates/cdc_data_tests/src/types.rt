//! What contracts don't state: that the allocations of copies succeed, and that the tables are those of the manual.

use cdc_types::{
    AccountFlags, AccountResult, Batch, BatchResults, Items, Limits, NewAccount, NewTransfer,
    TransferFlags, TransferResult,
};
use std::test::Fail;

// A valid account, which tests change in one field at a time.
const ACCOUNT: NewAccount = NewAccount {
    id: 1,
    user_data_128: 0,
    user_data_64: 0,
    user_data_32: 0,
    ledger: 700,
    code: 10,
    flags: 0,
};

// A valid transfer, which tests change in one field at a time.
const TRANSFER: NewTransfer = NewTransfer {
    id: 1,
    debit_account_id: 1,
    credit_account_id: 2,
    amount: 100,
    pending_id: 0,
    user_data_128: 0,
    user_data_64: 0,
    user_data_32: 0,
    timeout: 0,
    ledger: 700,
    code: 1,
    flags: 0,
};

#[test]
fn accounts_are_refused_by_the_first_line(rt: HostRuntime) {
    let rows = [
        (ACCOUNT, 0, "ok"),
        (
            NewAccount {
                flags: 1,
                ..ACCOUNT
            },
            0,
            "ok",
        ),
        (
            NewAccount {
                flags: 16,
                id: 0,
                ..ACCOUNT
            },
            1,
            "reserved_flag",
        ),
        (NewAccount { id: 0, ..ACCOUNT }, 2, "id_must_not_be_zero"),
        (
            NewAccount {
                id: u128::MAX,
                ..ACCOUNT
            },
            3,
            "id_must_not_be_int_max",
        ),
        (
            NewAccount {
                flags: 6,
                ..ACCOUNT
            },
            4,
            "flags_are_mutually_exclusive",
        ),
        (
            NewAccount {
                ledger: 0,
                code: 0,
                ..ACCOUNT
            },
            5,
            "ledger_must_not_be_zero",
        ),
        (
            NewAccount { code: 0, ..ACCOUNT },
            6,
            "code_must_not_be_zero",
        ),
    ];
    for (request, number, name) in rows {
        let result = request.check().unwrap_or(AccountResult::Accepted);
        assert_eq!(rt; (result.number(), result.name()), (number, name));
    }
}

#[test]
fn transfers_are_refused_by_the_first_line(rt: HostRuntime) {
    let rows = [
        (TRANSFER, 0, "ok"),
        (
            NewTransfer {
                flags: 1,
                ..TRANSFER
            },
            0,
            "ok",
        ),
        (
            NewTransfer {
                flags: 2,
                timeout: u32::MAX,
                ..TRANSFER
            },
            0,
            "ok",
        ),
        (NewTransfer { id: 0, ..TRANSFER }, 2, "id_must_not_be_zero"),
        (
            NewTransfer {
                id: u128::MAX,
                ..TRANSFER
            },
            3,
            "id_must_not_be_int_max",
        ),
        (
            NewTransfer {
                flags: 6,
                ..TRANSFER
            },
            4,
            "flags_are_mutually_exclusive",
        ),
        (
            NewTransfer {
                flags: 4,
                ..TRANSFER
            },
            6,
            "pending_id_must_not_be_zero",
        ),
        (
            NewTransfer {
                flags: 8,
                pending_id: 1,
                ..TRANSFER
            },
            7,
            "pending_id_must_be_different",
        ),
        (
            NewTransfer {
                pending_id: 9,
                ..TRANSFER
            },
            5,
            "pending_id_must_be_zero",
        ),
        (
            NewTransfer {
                timeout: 1,
                ..TRANSFER
            },
            8,
            "timeout_reserved_for_pending_transfer",
        ),
        (
            NewTransfer {
                ledger: 0,
                ..TRANSFER
            },
            9,
            "ledger_must_not_be_zero",
        ),
        (
            NewTransfer {
                code: 0,
                ..TRANSFER
            },
            10,
            "code_must_not_be_zero",
        ),
        (
            NewTransfer {
                credit_account_id: 1,
                ..TRANSFER
            },
            11,
            "accounts_must_be_different",
        ),
    ];
    for (request, number, name) in rows {
        let result = request.check_shape().unwrap_or(TransferResult::Accepted);
        assert_eq!(rt; (result.number(), result.name()), (number, name));
    }
}

#[test]
fn the_kinds_of_a_transfer_are_read_off_its_flags(rt: HostRuntime) {
    for (flags, kinds) in [
        (0, (false, false, false, true)),
        (2, (true, false, false, true)),
        (4, (false, true, false, false)),
        (8, (false, false, true, false)),
    ] {
        let request = NewTransfer { flags, ..TRANSFER };
        assert_eq!(rt;
            (
                request.is_pending(),
                request.is_post(),
                request.is_void(),
                request.is_plain()
            ),
            kinds
        );
    }
}

#[test]
fn batches_are_copied(rt: HostRuntime) -> Result<(), Fail> {
    let items = vec![in rt.alloc(); ACCOUNT; Limits::BATCH_ITEMS]?;
    let batch = Batch::Accounts {
        now: 7,
        items: Items::from_vec(items),
    };
    let Batch::Accounts { now, items } = batch.try_copy(rt.alloc())? else {
        return Err(Fail::from("another kind of batch"));
    };
    let items = items.into_vec();
    assert_eq!(rt; (now, items.len()), (7, 1_000));
    assert!(rt; items.iter().all(|item| *item == ACCOUNT));
    Ok(())
}

#[test]
fn results_are_copied(rt: HostRuntime) -> Result<(), Fail> {
    let results = vec![in rt.alloc(); TransferResult::Exists; Limits::BATCH_ITEMS]?;
    let results = BatchResults::Transfers(Items::from_vec(results));
    let BatchResults::Transfers(items) = results.try_copy(rt.alloc())? else {
        return Err(Fail::from("another kind of results"));
    };
    let items = items.as_slice();
    assert_eq!(rt; items.len(), 1_000);
    assert!(rt; items.iter().all(|answer| *answer == TransferResult::Exists));
    Ok(())
}

#[test]
fn results_of_chains_have_numbers_and_names(rt: HostRuntime) {
    let rows = [
        (AccountResult::LinkedEventFailed.number(), 9),
        (AccountResult::LinkedEventChainOpen.number(), 10),
        (TransferResult::LinkedEventFailed.number(), 38),
        (TransferResult::LinkedEventChainOpen.number(), 39),
    ];
    for (number, expected) in rows {
        assert_eq!(rt; number, expected);
    }
    let names = [
        (
            AccountResult::LinkedEventFailed.name(),
            "linked_event_failed",
        ),
        (
            AccountResult::LinkedEventChainOpen.name(),
            "linked_event_chain_open",
        ),
        (
            TransferResult::LinkedEventFailed.name(),
            "linked_event_failed",
        ),
        (
            TransferResult::LinkedEventChainOpen.name(),
            "linked_event_chain_open",
        ),
    ];
    for (name, expected) in names {
        assert_eq!(rt; name, expected);
    }
    assert!(rt;
        NewAccount {
            flags: 9,
            ..ACCOUNT
        }
        .is_linked()
    );
    assert!(rt;
        !NewAccount {
            flags: 8,
            ..ACCOUNT
        }
        .is_linked()
    );
    assert!(rt;
        NewTransfer {
            flags: 3,
            ..TRANSFER
        }
        .is_linked()
    );
    assert!(rt;
        !NewTransfer {
            flags: 2,
            ..TRANSFER
        }
        .is_linked()
    );
}

// The numbers that contracts don't name: a wrong one would go unnoticed if nothing reads it yet.
#[test]
fn flags_and_limits_have_their_numbers(rt: HostRuntime) {
    let numbers = [
        ("account linked", u64::from(AccountFlags::LINKED), 1),
        (
            "account debits_must_not_exceed_credits",
            u64::from(AccountFlags::DEBITS_MUST_NOT_EXCEED_CREDITS),
            2,
        ),
        (
            "account credits_must_not_exceed_debits",
            u64::from(AccountFlags::CREDITS_MUST_NOT_EXCEED_DEBITS),
            4,
        ),
        ("account history", u64::from(AccountFlags::HISTORY), 8),
        (
            "accepted of accounts",
            u64::from(AccountFlags::ACCEPTED),
            15,
        ),
        ("transfer linked", u64::from(TransferFlags::LINKED), 1),
        ("transfer pending", u64::from(TransferFlags::PENDING), 2),
        (
            "transfer post_pending_transfer",
            u64::from(TransferFlags::POST_PENDING_TRANSFER),
            4,
        ),
        (
            "transfer void_pending_transfer",
            u64::from(TransferFlags::VOID_PENDING_TRANSFER),
            8,
        ),
        (
            "accepted of transfers",
            u64::from(TransferFlags::ACCEPTED),
            15,
        ),
        ("items of a batch", Limits::BATCH_ITEMS as u64, 1_000),
        ("pairs of a binding", Limits::BINDING_PAIRS as u64, 10),
        ("window", Limits::WINDOW as u64, 64),
        ("prefetch", Limits::PREFETCH, 64),
        ("subscribers", Limits::SUBSCRIBERS as u64, 8),
        ("clients", Limits::CLIENTS, 4),
        ("bytes of a script", Limits::SCRIPT_BYTES as u64, 1_048_576),
        (
            "bytes of a progress file",
            Limits::PROGRESS_BYTES as u64,
            128,
        ),
        ("bytes of a line", Limits::LINE_BYTES as u64, 65_536),
        ("bytes of a buffer", Limits::BUFFER_BYTES as u64, 65_536),
        ("ready messages", Limits::READY_MESSAGES as u64, 64),
        ("random steps", Limits::RANDOM_STEPS.into(), 20_000),
        ("timestamp", Limits::TIMESTAMP, 9_223_372_036_854_775_807),
        ("session", Limits::SESSION, u64::MAX),
    ];
    for (name, number, wanted) in numbers {
        assert_eq!(rt; number, wanted, "{name}");
    }
}
