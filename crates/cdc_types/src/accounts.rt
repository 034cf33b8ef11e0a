//! Accounts: the client's request, and the account that the ledger keeps.

ghost use Rattle.std.specs.Prelude.{◌≡◌};
ghost use Rattle.cdc_types.specs.Flags.{is_linked_account};
ghost use Rattle.cdc_types.specs.Shapes.{account_refusal};

use crate::results::AccountResult;

/// The bits of an account's flags (TigerBeetle, Account, `flags`).
pub struct AccountFlags;

impl AccountFlags {
    /// The item is chained to the next one of its batch.
    pub const LINKED: u16 = 1;

    /// Debits may not exceed credits.
    pub const DEBITS_MUST_NOT_EXCEED_CREDITS: u16 = 2;

    /// Credits may not exceed debits.
    pub const CREDITS_MUST_NOT_EXCEED_DEBITS: u16 = 4;

    /// The flag is shown in messages and has no other effect.
    pub const HISTORY: u16 = 8;

    /// The bits that the ledger accepts. Any other bit is refused as `ReservedFlag`.
    pub const ACCEPTED: u16 = 15;
}

/// A client's request for an account (TigerBeetle, Account).
#[derive(Clone, Copy, Debug, PartialEq, Eq)]
pub struct NewAccount {
    /// 0 and 2^128-1 are refused.
    pub id: u128,
    /// Opaque to the ledger, as are the next two.
    pub user_data_128: u128,
    /// Opaque to the ledger, as are the next two.
    pub user_data_64: u64,
    /// Opaque to the ledger, as are the next two.
    pub user_data_32: u32,
    /// 0 is refused. A transfer connects two accounts of the same ledger.
    pub ledger: u32,
    /// 0 is refused. The client chooses what it means.
    pub code: u16,
    /// Bits of `AccountFlags`.
    pub flags: u16,
}

/// The four balances of an account (TigerBeetle, Account).
#[derive(Clone, Copy, Debug, PartialEq, Eq)]
pub struct Balances {
    /// The sum of the debits of unresolved pending transfers.
    pub debits_pending: u128,
    /// The sum of the debits of single-phase and posted transfers.
    pub debits_posted: u128,
    /// The sum of the credits of unresolved pending transfers.
    pub credits_pending: u128,
    /// The sum of the credits of single-phase and posted transfers.
    pub credits_posted: u128,
}

/// An account as the ledger keeps it: the request's fields with balances and a timestamp.
#[derive(Clone, Copy, Debug, PartialEq, Eq)]
pub struct Account {
    pub id: u128,
    /// Opaque to the ledger, as are the next two.
    pub user_data_128: u128,
    /// Opaque to the ledger, as are the next two.
    pub user_data_64: u64,
    /// Opaque to the ledger, as are the next two.
    pub user_data_32: u32,
    /// 0 is refused. A transfer connects two accounts of the same ledger.
    pub ledger: u32,
    /// 0 is refused. The client chooses what it means.
    pub code: u16,
    /// Bits of `AccountFlags`.
    pub flags: u16,
    pub balances: Balances,
    /// When the account was created, in nanoseconds.
    pub timestamp: u64,
}

impl NewAccount {
    /// Whether the account is chained to the next item of its batch.
    pub fn is_linked(&self) -> bool
        ensures { result ≡ is_linked_account self.now }
    {
        self.flags & AccountFlags::LINKED != 0
    }

    /// The first reason to refuse the request that its own fields give, whatever the ledger holds. `None` if there is
    /// none.
    pub fn check(&self) -> Option<AccountResult>
        ensures { result ≡ account_refusal self.now }
    {
        if self.flags & !AccountFlags::ACCEPTED != 0 {
            Some(AccountResult::ReservedFlag)
        } else if self.id == 0 {
            Some(AccountResult::IdMustNotBeZero)
        } else if self.id == u128::MAX {
            Some(AccountResult::IdMustNotBeIntMax)
        } else if self.flags & AccountFlags::DEBITS_MUST_NOT_EXCEED_CREDITS != 0
            && self.flags & AccountFlags::CREDITS_MUST_NOT_EXCEED_DEBITS != 0
        {
            Some(AccountResult::FlagsAreMutuallyExclusive)
        } else if self.ledger == 0 {
            Some(AccountResult::LedgerMustNotBeZero)
        } else if self.code == 0 {
            Some(AccountResult::CodeMustNotBeZero)
        } else {
            None
        }
    }
}
