//! Events: what the ledger publishes about each movement.

use crate::transfers::Transfer;

/// What happened to a transfer (TigerBeetle, Change Data Capture, `type`).
#[derive(Clone, Copy, Debug, PartialEq, Eq)]
pub enum EventKind {
    /// A transfer moved its amount in one step.
    SinglePhase,
    /// A pending transfer held back its amount.
    TwoPhasePending,
    /// A post moved the amount of a pending transfer, or a part of it.
    TwoPhasePosted,
    /// A void released the amount of a pending transfer.
    TwoPhaseVoided,
    /// A pending transfer reached its timeout, which released its amount.
    TwoPhaseExpired,
}

/// One movement of the ledger. The transfer of an expiry is the pending transfer that expired.
#[derive(Clone, Copy, Debug, PartialEq, Eq)]
pub struct Entry {
    /// When the movement happened, in nanoseconds.
    pub timestamp: u64,
    pub kind: EventKind,
    /// The transfer as the ledger stores it.
    pub transfer: Transfer,
}

/// A transfer as an event shows it: without its accounts and its ledger, which the event has.
#[derive(Clone, Copy, Debug, PartialEq, Eq)]
pub struct EventTransfer {
    pub id: u128,
    /// The amount that is moved, held back, posted or voided.
    pub amount: u128,
    /// The pending transfer that is posted or voided, or 0.
    pub pending_id: u128,
    /// Opaque to the ledger, as are the next two.
    pub user_data_128: u128,
    /// Opaque to the ledger, as are the next two.
    pub user_data_64: u64,
    /// Opaque to the ledger, as are the next two.
    pub user_data_32: u32,
    /// The seconds after which a pending transfer expires; 0 if it never does.
    pub timeout: u32,
    pub code: u16,
    /// Bits of `TransferFlags`.
    pub flags: u16,
    /// When the transfer was accepted, in nanoseconds.
    pub timestamp: u64,
}

/// One of the two accounts of an event, with its balances right after the event.
#[derive(Clone, Copy, Debug, PartialEq, Eq)]
pub struct EventAccount {
    pub id: u128,
    /// The sum of the debits of unresolved pending transfers.
    pub debits_pending: u128,
    /// The sum of the debits of single-phase and posted transfers.
    pub debits_posted: u128,
    /// The sum of the credits of unresolved pending transfers.
    pub credits_pending: u128,
    /// The sum of the credits of single-phase and posted transfers.
    pub credits_posted: u128,
    /// Opaque to the ledger, as are the next two.
    pub user_data_128: u128,
    /// Opaque to the ledger, as are the next two.
    pub user_data_64: u64,
    /// Opaque to the ledger, as are the next two.
    pub user_data_32: u32,
    pub code: u16,
    /// Bits of `AccountFlags`.
    pub flags: u16,
    /// When the account was created, in nanoseconds.
    pub timestamp: u64,
}

/// An event: what the ledger publishes about one movement (TigerBeetle, Change Data Capture).
#[derive(Clone, Copy, Debug, PartialEq, Eq)]
pub struct Event {
    /// When the movement happened, in nanoseconds.
    pub timestamp: u64,
    pub kind: EventKind,
    pub ledger: u32,
    /// The transfer. For an expiry it is the pending transfer that expired.
    pub transfer: EventTransfer,
    pub debit_account: EventAccount,
    pub credit_account: EventAccount,
}

/// The headers by which a message is routed (TigerBeetle, Change Data Capture, headers).
#[derive(Clone, Copy, Debug, PartialEq, Eq)]
pub struct Headers {
    pub kind: EventKind,
    pub ledger: u32,
    pub transfer_code: u16,
    pub debit_account_code: u16,
    pub credit_account_code: u16,
}

/// The basic properties of a message (TigerBeetle, Change Data Capture; AMQP 0-9-1, basic class).
#[derive(Clone, Copy, Debug, PartialEq, Eq)]
pub struct Properties {
    /// The program that wrote the message.
    pub app_id: &'static str,
    /// The media type of the body.
    pub content_type: &'static str,
    /// 2: the message has to survive a restart of the broker.
    pub delivery_mode: u8,
    /// The event's timestamp in whole seconds.
    pub timestamp: u64,
}
