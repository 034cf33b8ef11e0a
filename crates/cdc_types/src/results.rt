//! The results of a batch's items, with their numbers and names.

ghost use Rattle.std.specs.Prelude.{◌≡◌};
ghost use Rattle.cdc_types.specs.Results.{account_number, account_name, transfer_number, transfer_name};

/// The result of a request for an account (TigerBeetle, `create_accounts`). The variants are in the order of their
/// numbers, from 0. All except the first are reasons to refuse the request.
#[derive(Clone, Copy, Debug, PartialEq, Eq)]
pub enum AccountResult {
    /// The ledger created the account.
    Accepted,
    /// A flag is set that the ledger doesn't support.
    ReservedFlag,
    IdMustNotBeZero,
    /// The id is 2^128-1.
    IdMustNotBeIntMax,
    /// The request sets both balance limits.
    FlagsAreMutuallyExclusive,
    LedgerMustNotBeZero,
    CodeMustNotBeZero,
    /// An account with this id exists, and some of its fields differ from the request's.
    ExistsWithDifferentFields,
    /// An account with this id and these fields exists.
    Exists,
    /// Another item of its chain was refused.
    LinkedEventFailed,
    /// The item is linked to a next one, and is the last of its batch.
    LinkedEventChainOpen,
}

/// The result of a request for a transfer (TigerBeetle, `create_transfers`). The variants are in the order of their
/// numbers, from 0. All except the first are reasons to refuse the request.
#[derive(Clone, Copy, Debug, PartialEq, Eq)]
pub enum TransferResult {
    /// The ledger created the transfer.
    Accepted,
    /// A flag is set that the ledger doesn't support.
    ReservedFlag,
    IdMustNotBeZero,
    /// The id is 2^128-1.
    IdMustNotBeIntMax,
    /// More than one of the flags pending, post and void is set.
    FlagsAreMutuallyExclusive,
    /// The request is neither a post nor a void, so it can't name a pending transfer.
    PendingIdMustBeZero,
    /// A post or a void has to name a pending transfer.
    PendingIdMustNotBeZero,
    /// A transfer can't post or void itself.
    PendingIdMustBeDifferent,
    /// Only a pending transfer can have a timeout.
    TimeoutReservedForPendingTransfer,
    LedgerMustNotBeZero,
    CodeMustNotBeZero,
    /// The debited and the credited account are the same.
    AccountsMustBeDifferent,
    /// A transfer with this id exists, and some of its fields differ from the request's.
    ExistsWithDifferentFields,
    /// A transfer with this id and these fields exists.
    Exists,
    DebitAccountNotFound,
    CreditAccountNotFound,
    /// The two accounts belong to different ledgers.
    AccountsMustHaveTheSameLedger,
    /// The accounts belong to another ledger than the transfer.
    TransferMustHaveTheSameLedgerAsAccounts,
    /// No transfer with the id `pending_id` exists.
    PendingTransferNotFound,
    /// The transfer that `pending_id` names isn't a pending one.
    PendingTransferNotPending,
    PendingTransferHasDifferentDebitAccountId,
    PendingTransferHasDifferentCreditAccountId,
    PendingTransferHasDifferentLedger,
    PendingTransferHasDifferentCode,
    /// A post or a void asks for more than the pending transfer holds back.
    ExceedsPendingTransferAmount,
    /// A void asks for less than the pending transfer holds back.
    PendingTransferHasDifferentAmount,
    /// The pending transfer was posted.
    PendingTransferAlreadyPosted,
    /// The pending transfer was voided.
    PendingTransferAlreadyVoided,
    /// The pending transfer has expired.
    PendingTransferExpired,
    /// The sum would exceed 2^128-1.
    OverflowsDebitsPending,
    /// The sum would exceed 2^128-1.
    OverflowsCreditsPending,
    /// The sum would exceed 2^128-1.
    OverflowsDebitsPosted,
    /// The sum would exceed 2^128-1.
    OverflowsCreditsPosted,
    /// The sum of pending and posted debits would exceed 2^128-1.
    OverflowsDebits,
    /// The sum of pending and posted credits would exceed 2^128-1.
    OverflowsCredits,
    /// The timestamp at which the pending transfer expires would exceed 2^63-1.
    OverflowsTimeout,
    /// The debits would exceed the credits of an account whose flags forbid it.
    ExceedsCredits,
    /// The credits would exceed the debits of an account whose flags forbid it.
    ExceedsDebits,
    /// Another item of its chain was refused.
    LinkedEventFailed,
    /// The item is linked to a next one, and is the last of its batch.
    LinkedEventChainOpen,
}

impl AccountResult {
    /// The number in the results' table; 0 if the account was created.
    pub fn number(self) -> u8
        ensures { result ≡ account_number self }
    {
        self as u8
    }

    /// The manual's name, except for `ok` (the account was created) and `exists_with_different_fields`, which are
    /// ours.
    pub fn name(self) -> &'static str
        ensures { result.now ≡ account_name self }
    {
        match self {
            AccountResult::Accepted => "ok",
            AccountResult::ReservedFlag => "reserved_flag",
            AccountResult::IdMustNotBeZero => "id_must_not_be_zero",
            AccountResult::IdMustNotBeIntMax => "id_must_not_be_int_max",
            AccountResult::FlagsAreMutuallyExclusive => "flags_are_mutually_exclusive",
            AccountResult::LedgerMustNotBeZero => "ledger_must_not_be_zero",
            AccountResult::CodeMustNotBeZero => "code_must_not_be_zero",
            AccountResult::ExistsWithDifferentFields => "exists_with_different_fields",
            AccountResult::Exists => "exists",
            AccountResult::LinkedEventFailed => "linked_event_failed",
            AccountResult::LinkedEventChainOpen => "linked_event_chain_open",
        }
    }
}

impl TransferResult {
    /// The number in the results' table; 0 if the transfer was created.
    pub fn number(self) -> u8
        ensures { result ≡ transfer_number self }
    {
        self as u8
    }

    /// The manual's name, except for `ok` (the transfer was created) and `exists_with_different_fields`, which are
    /// ours.
    pub fn name(self) -> &'static str
        ensures { result.now ≡ transfer_name self }
    {
        match self {
            TransferResult::Accepted => "ok",
            TransferResult::ReservedFlag => "reserved_flag",
            TransferResult::IdMustNotBeZero => "id_must_not_be_zero",
            TransferResult::IdMustNotBeIntMax => "id_must_not_be_int_max",
            TransferResult::FlagsAreMutuallyExclusive => "flags_are_mutually_exclusive",
            TransferResult::PendingIdMustBeZero => "pending_id_must_be_zero",
            TransferResult::PendingIdMustNotBeZero => "pending_id_must_not_be_zero",
            TransferResult::PendingIdMustBeDifferent => "pending_id_must_be_different",
            TransferResult::TimeoutReservedForPendingTransfer =>
                "timeout_reserved_for_pending_transfer",
            TransferResult::LedgerMustNotBeZero => "ledger_must_not_be_zero",
            TransferResult::CodeMustNotBeZero => "code_must_not_be_zero",
            TransferResult::AccountsMustBeDifferent => "accounts_must_be_different",
            TransferResult::ExistsWithDifferentFields => "exists_with_different_fields",
            TransferResult::Exists => "exists",
            TransferResult::DebitAccountNotFound => "debit_account_not_found",
            TransferResult::CreditAccountNotFound => "credit_account_not_found",
            TransferResult::AccountsMustHaveTheSameLedger => "accounts_must_have_the_same_ledger",
            TransferResult::TransferMustHaveTheSameLedgerAsAccounts =>
                "transfer_must_have_the_same_ledger_as_accounts",
            TransferResult::PendingTransferNotFound => "pending_transfer_not_found",
            TransferResult::PendingTransferNotPending => "pending_transfer_not_pending",
            TransferResult::PendingTransferHasDifferentDebitAccountId =>
                "pending_transfer_has_different_debit_account_id",
            TransferResult::PendingTransferHasDifferentCreditAccountId =>
                "pending_transfer_has_different_credit_account_id",
            TransferResult::PendingTransferHasDifferentLedger =>
                "pending_transfer_has_different_ledger",
            TransferResult::PendingTransferHasDifferentCode =>
                "pending_transfer_has_different_code",
            TransferResult::ExceedsPendingTransferAmount => "exceeds_pending_transfer_amount",
            TransferResult::PendingTransferHasDifferentAmount =>
                "pending_transfer_has_different_amount",
            TransferResult::PendingTransferAlreadyPosted => "pending_transfer_already_posted",
            TransferResult::PendingTransferAlreadyVoided => "pending_transfer_already_voided",
            TransferResult::PendingTransferExpired => "pending_transfer_expired",
            TransferResult::OverflowsDebitsPending => "overflows_debits_pending",
            TransferResult::OverflowsCreditsPending => "overflows_credits_pending",
            TransferResult::OverflowsDebitsPosted => "overflows_debits_posted",
            TransferResult::OverflowsCreditsPosted => "overflows_credits_posted",
            TransferResult::OverflowsDebits => "overflows_debits",
            TransferResult::OverflowsCredits => "overflows_credits",
            TransferResult::OverflowsTimeout => "overflows_timeout",
            TransferResult::ExceedsCredits => "exceeds_credits",
            TransferResult::ExceedsDebits => "exceeds_debits",
            TransferResult::LinkedEventFailed => "linked_event_failed",
            TransferResult::LinkedEventChainOpen => "linked_event_chain_open",
        }
    }
}
