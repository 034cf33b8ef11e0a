//! What it means that an event breaks a rule of an audit.

use cdc_audit::Refusal;

/// What it means that an event breaks this rule: what was done to the stream, as far as the rule shows it.
pub fn meaning_of(why: Refusal) -> &'static str {
    match why {
        Refusal::NotLater(timestamp, last) if timestamp == last => {
            "the event before it has the same timestamp: one of them is a duplicate, which --duplicates skips"
        }
        Refusal::NotLater(_, _) => {
            "a later event came before it: it is a duplicate, which --duplicates skips, or it was moved"
        }
        Refusal::AfterEnd(_) => {
            "the stream had ended before it: the end came too early, or the event is of another stream"
        }
        Refusal::TooHigh(_) => "no ledger gives such a timestamp: it was changed",
        Refusal::OneAccount(_)
        | Refusal::TransferShape(_, _)
        | Refusal::OtherKind(_)
        | Refusal::OtherTimestamp(_, _, _)
        | Refusal::AccountShape(_, _) => { "no ledger stores what it shows: it was changed" }
        Refusal::AccountField(_) => {
            "an event before it shows the account with another value: one of them was changed"
        }
        _ => meaning_of_history(why),
    }
}

/// The same for the rules that compare an event with those before it.
fn meaning_of_history(why: Refusal) -> &'static str {
    match why {
        Refusal::CreatedLater(_, _, _)
        | Refusal::CreatedAtEvent(_, _)
        | Refusal::CreatedTogether(_, _, _) => {
            "no ledger created the account at that time: an event was changed, or is of another ledger"
        }
        Refusal::KnownId(_) => {
            "an event before it stored the same transfer: one of them was changed, or is of another ledger"
        }
        Refusal::NotPending(_) => {
            "the event that stored its pending transfer is missing: it was lost, or was moved behind this one"
        }
        Refusal::Settled(_) => {
            "an event before it settled the same pending transfer: one of them was changed, or is of another ledger"
        }
        Refusal::OtherFields(_) | Refusal::Amount(_, _, _) => {
            "its pending transfer was stored with other values: one of the two events was changed"
        }
        Refusal::NoTimeout(_) | Refusal::TooSoon(_, _, _) | Refusal::TooLate(_, _, _) => {
            "its time doesn't fit the timeout of its pending transfer: one of the two events was changed"
        }
        Refusal::ExpiresLate(_, _) | Refusal::ExpiresApart(_, _) => {
            "another pending transfer expired before: the event of that expiry was lost or moved"
        }
        _ => meaning_of_sums(why),
    }
}

/// The same for the rules on chains, limits and balances.
fn meaning_of_sums(why: Refusal) -> &'static str {
    match why {
        Refusal::BrokenChain(_, _)
        | Refusal::LongChain(_)
        | Refusal::NoNext(_)
        | Refusal::NextIsEvent(_, _)
        | Refusal::LongAccountChain(_, _) => {
            "a linked item has to be followed by the next one of its chain: an event was lost, moved or changed"
        }
        Refusal::TooLarge(_, _) | Refusal::Limit(_) => {
            "the account has a limit, which a ledger keeps: an event of it was lost or changed"
        }
        _ => {
            "the balances don't follow from those before: an earlier event of the account was lost, moved or changed, or this \
             one was"
        }
    }
}
