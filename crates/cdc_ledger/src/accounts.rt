//! Opening, comparing and showing the accounts of a ledger.

ghost use Rattle.std.specs.Prelude.{◌≡◌};
ghost use Rattle.cdc_ledger.specs.Accounts.{fresh_account, shown_as, opened_as};
ghost use Rattle.cdc_ledger.specs.Verdict.{is_same_account as same_account};

use cdc_types::{Account, Balances, EventAccount, NewAccount};

/// A new account with all balances 0.
pub(crate) fn opened_account(request: &NewAccount, timestamp: u64) -> Account
    ensures { result ≡ fresh_account request.now timestamp }
{
    Account {
        id: request.id,
        user_data_128: request.user_data_128,
        user_data_64: request.user_data_64,
        user_data_32: request.user_data_32,
        ledger: request.ledger,
        code: request.code,
        flags: request.flags,
        balances: Balances {
            debits_pending: 0,
            debits_posted: 0,
            credits_pending: 0,
            credits_posted: 0,
        },
        timestamp,
    }
}

/// The account as an event shows it.
pub(crate) fn shown_account(account: &Account) -> EventAccount
    ensures { result ≡ shown_as account.now }
{
    let balances = account.balances;
    EventAccount {
        id: account.id,
        debits_pending: balances.debits_pending,
        debits_posted: balances.debits_posted,
        credits_pending: balances.credits_pending,
        credits_posted: balances.credits_posted,
        user_data_128: account.user_data_128,
        user_data_64: account.user_data_64,
        user_data_32: account.user_data_32,
        code: account.code,
        flags: account.flags,
        timestamp: account.timestamp,
    }
}

/// Whether an equal request opened the account.
pub(crate) fn is_same_account(account: &Account, request: &NewAccount) -> bool
    ensures { result ≡ same_account request.now (opened_as account.now).request }
{
    request.id == account.id
        && request.user_data_128 == account.user_data_128
        && request.user_data_64 == account.user_data_64
        && request.user_data_32 == account.user_data_32
        && request.ledger == account.ledger
        && request.code == account.code
        && request.flags == account.flags
}
