//! What each result of an item that wasn't accepted means: a sentence for each, with the numbers of the request and
//! of the ledger that it refers to.

ghost use Rattle.std.specs.Prelude.{◌≡◌};
ghost use Rattle.cdc_diagnostics.specs.Traces as spec;

use crate::sentences::Sentence;
use cdc_ledger::{BatchError, Ledger};
use cdc_types::{
    AccountResult, Batch, BatchResults, Limits, NewAccount, NewTransfer, Transfer, TransferResult,
};

/// Nanoseconds in a second.
const SECOND: u128 = 1_000_000_000;

/// For an item whose chain has another one that wasn't accepted.
const LINKED_FAILED: &str = "another item of its chain wasn't accepted";

/// For a linked item that is the last one of its batch.
const CHAIN_OPEN: &str = "its flag 1 links it to a next item, and the batch ends with it";

/// Why an account wasn't accepted.
pub(crate) fn account_sentence(answer: AccountResult, request: &NewAccount) -> Sentence {
    let id = request.id;
    match answer {
        AccountResult::Accepted => Sentence::Plain("it was accepted"),
        AccountResult::ReservedFlag => {
            Sentence::Plain("a flag is set that the ledger doesn't take")
        }
        AccountResult::IdMustNotBeZero => Sentence::Plain("an account's id is never 0"),
        AccountResult::IdMustNotBeIntMax => Sentence::Plain("an account's id is never 2^128-1"),
        AccountResult::FlagsAreMutuallyExclusive => Sentence::Plain(
            "an account has one limit at most: flag 2 keeps its debits within its credits, flag 4 its credits within its debits",
        ),
        AccountResult::LedgerMustNotBeZero => Sentence::Plain("an account's ledger is never 0"),
        AccountResult::CodeMustNotBeZero => Sentence::Plain("an account's code is never 0"),
        AccountResult::ExistsWithDifferentFields => {
            Sentence::One("account ", id, " came before it, with other fields")
        }
        AccountResult::Exists => {
            Sentence::One("account ", id, " came before it, with the same fields")
        }
        AccountResult::LinkedEventFailed => Sentence::Plain(LINKED_FAILED),
        AccountResult::LinkedEventChainOpen => Sentence::Plain(CHAIN_OPEN),
    }
}

/// Why a transfer wasn't accepted. `ledger` is the ledger after it.
pub(crate) fn transfer_sentence(
    answer: TransferResult,
    request: &NewTransfer,
    ledger: &Ledger,
) -> Sentence {
    if let Some(words) = shape_text(answer) {
        return Sentence::Plain(words);
    }
    if let Some(sentence) = plain_sentence(answer, request, ledger) {
        return sentence;
    }
    // (a later one of the batch may have made it)
    if answer == TransferResult::PendingTransferNotFound {
        return Sentence::One(
            "there was no transfer ",
            request.pending_id,
            " to post or void",
        );
    }
    match ledger.transfer(request.pending_id) {
        Some(pending) => settling_sentence(answer, pending),
        // (it was there while the chain was checked, and isn't stored)
        None => Sentence::One(
            "transfer ",
            request.pending_id,
            ", of its own chain, can't be posted or voided like that",
        ),
    }
}

/// What is wrong with a request, whatever the ledger holds. None if that depends on the ledger.
fn shape_text(answer: TransferResult) -> Option<&'static str> {
    match answer {
        TransferResult::Accepted => Some("it was accepted"),
        TransferResult::ReservedFlag => Some("a flag is set that the ledger doesn't take"),
        TransferResult::IdMustNotBeZero => Some("a transfer's id is never 0"),
        TransferResult::IdMustNotBeIntMax => Some("a transfer's id is never 2^128-1"),
        TransferResult::FlagsAreMutuallyExclusive => Some(
            "a transfer is one thing at most: pending (flag 2), a post (flag 4) or a void (flag 8)",
        ),
        TransferResult::PendingIdMustBeZero => {
            Some("only a post (flag 4) or a void (flag 8) has a pending_id")
        }
        TransferResult::PendingIdMustNotBeZero => {
            Some("a post or a void names a pending transfer by its pending_id, which is 0 here")
        }
        TransferResult::PendingIdMustBeDifferent => Some("a transfer can't post or void itself"),
        TransferResult::TimeoutReservedForPendingTransfer => {
            Some("only a pending transfer (flag 2) has a timeout")
        }
        TransferResult::LedgerMustNotBeZero => Some("a transfer's ledger is never 0"),
        TransferResult::CodeMustNotBeZero => Some("a transfer's code is never 0"),
        TransferResult::AccountsMustBeDifferent => {
            Some("the account that is debited is the one that is credited")
        }
        TransferResult::OverflowsTimeout => {
            Some("its timeout would end after the greatest timestamp, 2^63-1")
        }
        TransferResult::LinkedEventFailed => Some(LINKED_FAILED),
        TransferResult::LinkedEventChainOpen => Some(CHAIN_OPEN),
        _ => None,
    }
}

/// What is wrong with a transfer's own accounts or id. None if the result is about something else.
fn plain_sentence(
    answer: TransferResult,
    request: &NewTransfer,
    ledger: &Ledger,
) -> Option<Sentence> {
    let NewTransfer {
        id,
        debit_account_id: debit,
        credit_account_id: credit,
        ..
    } = *request;
    match answer {
        TransferResult::ExistsWithDifferentFields => {
            Some(Sentence::One("transfer ", id, " came before it, with other fields"))
        }
        TransferResult::Exists => {
            Some(Sentence::One("transfer ", id, " came before it, with the same fields"))
        }
        TransferResult::DebitAccountNotFound => {
            Some(Sentence::One("there is no account ", debit, " to debit"))
        }
        TransferResult::CreditAccountNotFound => {
            Some(Sentence::One("there is no account ", credit, " to credit"))
        }
        TransferResult::AccountsMustHaveTheSameLedger => Some(Sentence::Two(
            "its accounts are of two ledgers, ",
            ledger_of(ledger, debit),
            " and ",
            ledger_of(ledger, credit),
            "",
        )),
        TransferResult::TransferMustHaveTheSameLedgerAsAccounts => Some(Sentence::Two(
            "it is of ledger ",
            request.ledger.into(),
            ", and its accounts are of ledger ",
            ledger_of(ledger, debit),
            "",
        )),
        _ => limit_sentence(answer, debit, credit),
    }
}

/// The ledger number of an account; 0 if there is no such account.
fn ledger_of(ledger: &Ledger, id: u128) -> u128 {
    match ledger.account(id) {
        Some(account) => account.ledger.into(),
        None => 0,
    }
}

/// Which limit the balances of the account that is debited, or of the one that is credited, would exceed. None if the
/// result is about something else.
fn limit_sentence(answer: TransferResult, debit: u128, credit: u128) -> Option<Sentence> {
    let (before, id, after) = match answer {
        TransferResult::OverflowsDebitsPending => {
            (
                "the pending debits of account ",
                debit,
                " would pass 2^128-1",
            )
        }
        TransferResult::OverflowsCreditsPending => {
            (
                "the pending credits of account ",
                credit,
                " would pass 2^128-1",
            )
        }
        TransferResult::OverflowsDebitsPosted => {
            (
                "the posted debits of account ",
                debit,
                " would pass 2^128-1",
            )
        }
        TransferResult::OverflowsCreditsPosted => {
            (
                "the posted credits of account ",
                credit,
                " would pass 2^128-1",
            )
        }
        TransferResult::OverflowsDebits => {
            (
                "the debits of account ",
                debit,
                ", pending and posted, would pass 2^128-1",
            )
        }
        TransferResult::OverflowsCredits => {
            (
                "the credits of account ",
                credit,
                ", pending and posted, would pass 2^128-1",
            )
        }
        TransferResult::ExceedsCredits => (
            "the debits of account ",
            debit,
            ", pending and posted, would pass its posted credits, which its flag 2 forbids",
        ),
        TransferResult::ExceedsDebits => (
            "the credits of account ",
            credit,
            ", pending and posted, would pass its posted debits, which its flag 4 forbids",
        ),
        _ => return None,
    };
    Some(Sentence::One(before, id, after))
}

/// What is wrong with a post or a void of this transfer.
fn settling_sentence(answer: TransferResult, pending: &Transfer) -> Sentence {
    let id = pending.id;
    let (between, number, after) = match answer {
        TransferResult::PendingTransferHasDifferentDebitAccountId => {
            (" debits account ", pending.debit_account_id, "")
        }
        TransferResult::PendingTransferHasDifferentCreditAccountId => {
            (" credits account ", pending.credit_account_id, "")
        }
        TransferResult::PendingTransferHasDifferentLedger => {
            (" is of ledger ", pending.ledger.into(), "")
        }
        TransferResult::PendingTransferHasDifferentCode => {
            (" has the code ", pending.code.into(), "")
        }
        TransferResult::ExceedsPendingTransferAmount => {
            (
                " holds back ",
                pending.amount,
                ", and no more than that can be posted or voided",
            )
        }
        TransferResult::PendingTransferHasDifferentAmount => {
            (
                " holds back ",
                pending.amount,
                ", and a void releases all of it",
            )
        }
        _ => return settled_sentence(answer, pending),
    };
    Sentence::Two("transfer ", id, between, number, after)
}

/// Why a transfer can't be posted or voided any more, or never could.
fn settled_sentence(answer: TransferResult, pending: &Transfer) -> Sentence {
    let id = pending.id;
    match answer {
        TransferResult::PendingTransferAlreadyPosted => {
            Sentence::One("a post of transfer ", id, " came before it")
        }
        TransferResult::PendingTransferAlreadyVoided => {
            Sentence::One("a void of transfer ", id, " came before it")
        }
        TransferResult::PendingTransferExpired => {
            Sentence::One("its timeout ended at ", expires_at(pending), "")
        }
        _ => Sentence::One("transfer ", id, " is not a pending one"),
    }
}

/// The timestamp at which a pending transfer's timeout ends, in nanoseconds.
fn expires_at(pending: &Transfer) -> u128 {
    pending.timestamp as u128 + pending.timeout as u128 * SECOND
}

/// Why a batch was refused as a whole.
pub(crate) fn batch_sentence(refusal: BatchError, batch: &Batch) -> Sentence {
    match refusal {
        BatchError::LedgerClosed => Sentence::Plain(
            "the ledger is closed, and takes no more batches",
        ),
        BatchError::BatchTooLarge => Sentence::Two(
            "it has ",
            item_count(batch) as u128,
            " items, and a batch has ",
            Limits::BATCH_ITEMS as u128,
            " at most",
        ),
        BatchError::TimestampsExhausted => {
            Sentence::Plain("the timestamps of its items would pass the greatest one, 2^63-1")
        }
        BatchError::OutOfMemory => Sentence::Plain("no memory was left"),
    }
}

/// The number of items in a batch; a pulse has none.
pub(crate) fn item_count(batch: &Batch) -> usize
    ensures { result ≡ spec.item_count batch.now }
{
    match batch {
        Batch::Accounts { items, .. } => items.as_slice().len(),
        Batch::Transfers { items, .. } => items.as_slice().len(),
        Batch::Pulse { .. } => 0,
    }
}

/// The number of accepted items in a batch.
pub(crate) fn accepted_count(results: &BatchResults) -> usize
    ensures { result ≡ spec.accepted_count results.now }
{
    match results {
        BatchResults::Accounts(results) => results
            .as_slice()
            .iter()
            .filter(|answer| answer.number() == 0)
            .count(),
        BatchResults::Transfers(results) => results
            .as_slice()
            .iter()
            .filter(|answer| answer.number() == 0)
            .count(),
        BatchResults::Pulsed(_) => 0,
    }
}
