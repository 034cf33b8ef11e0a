//! Values that the tests share: the first event of a ledger, of a transfer of 5 from account 1 to account 2.

use cdc_match::Binding;
use cdc_types::{
    Batch, Event, EventAccount, EventKind, EventTransfer, Items, NewAccount, NewTransfer,
};
use std::alloc::Global;
use std::process::Abort;

pub const ACCOUNT: NewAccount = NewAccount {
    id: 1,
    user_data_128: 0,
    user_data_64: 0,
    user_data_32: 0,
    ledger: 700,
    code: 10,
    flags: 0,
};

pub const TRANSFER: NewTransfer = NewTransfer {
    id: 1,
    debit_account_id: 1,
    credit_account_id: 2,
    amount: 5,
    pending_id: 0,
    user_data_128: 0,
    user_data_64: 0,
    user_data_32: 0,
    timeout: 0,
    ledger: 700,
    code: 1,
    flags: 0,
};

const DEBITED: EventAccount = EventAccount {
    id: 1,
    debits_pending: 0,
    debits_posted: 5,
    credits_pending: 0,
    credits_posted: 0,
    user_data_128: 0,
    user_data_64: 0,
    user_data_32: 0,
    code: 10,
    flags: 0,
    timestamp: 1000,
};

const CREDITED: EventAccount = EventAccount {
    id: 2,
    debits_pending: 0,
    debits_posted: 0,
    credits_pending: 0,
    credits_posted: 5,
    user_data_128: 0,
    user_data_64: 0,
    user_data_32: 0,
    code: 10,
    flags: 0,
    timestamp: 1001,
};

const TRANSFERRED: EventTransfer = EventTransfer {
    id: 1,
    amount: 5,
    pending_id: 0,
    user_data_128: 0,
    user_data_64: 0,
    user_data_32: 0,
    timeout: 0,
    code: 1,
    flags: 0,
    timestamp: 2000,
};

pub const EVENT: Event = Event {
    timestamp: 2000,
    kind: EventKind::SinglePhase,
    ledger: 700,
    transfer: TRANSFERRED,
    debit_account: DEBITED,
    credit_account: CREDITED,
};

/// The batch that opens both accounts.
pub fn accounts(rt: &impl Abort, alloc: Global) -> Batch {
    let mut items = Vec::with_capacity(alloc, 2).expect(rt, "memory");
    items.push_reserved(ACCOUNT);
    items.push_reserved(NewAccount { id: 2, ..ACCOUNT });
    Batch::Accounts {
        now: 1000,
        items: Items::from_vec(items),
    }
}

/// The batch of the transfer.
pub fn transfers(rt: &impl Abort, alloc: Global) -> Batch {
    let mut items = Vec::with_capacity(alloc, 1).expect(rt, "memory");
    items.push_reserved(TRANSFER);
    Batch::Transfers {
        now: 2000,
        items: Items::from_vec(items),
    }
}

/// The binding that takes every event.
pub fn all(rt: &impl Abort, alloc: Global) -> Binding {
    Binding::parse(alloc, &["all"]).expect(rt, "a binding")
}
