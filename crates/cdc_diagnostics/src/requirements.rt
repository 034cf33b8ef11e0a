//! What a script or a step file must have, for each kind of error that no single word shows.

use crate::sentences::Sentence;
use cdc_script::FaultKind;
use cdc_types::Limits;

/// What a script must have, for one with this error.
pub(crate) fn script_sentence(kind: FaultKind) -> Sentence {
    match kind {
        FaultKind::BadText => Sentence::Plain(
            "a line is printable ASCII characters, bytes 32 to 126, and ends with a line feed",
        ),
        FaultKind::UnknownWord => Sentence::Plain(
            "a line begins with subscriber, client, accounts, account, transfers, transfer or pulse",
        ),
        FaultKind::WrongCount => Sentence::Plain(
            "accounts, transfers, pulse and client have one number, account and transfer one key=value or more",
        ),
        FaultKind::BadNumber => Sentence::Plain("a number is one or more digits from 0 to 9"),
        FaultKind::NumberOutOfRange => Sentence::Plain(
            "a number fits its field: 128 bits, but 64 for timestamps, clients and user_data_64, 32 for user_data_32, timeout and ledger, 16 for code and flags",
        ),
        FaultKind::UnknownKey => Sentence::Plain(
            "a word is key=value with a key of an account (id, user_data_128, user_data_64, user_data_32, ledger, code, flags) or of a transfer (these, and debit_account_id, credit_account_id, amount, pending_id, timeout)",
        ),
        FaultKind::KeyTwice => Sentence::Plain("a key stands once in a line"),
        FaultKind::NoOpenBatch => Sentence::Plain(
            "account lines follow a line accounts NOW, and transfer lines a line transfers NOW, with nothing but blank lines and comments between",
        ),
        FaultKind::BadBinding => Sentence::Plain(
            "a binding is the word all or any, and up to ten words key=value with event_type and the name of a kind of event, or with ledger (a number of 32 bits), transfer_code, debit_account_code or credit_account_code (numbers of 16 bits)",
        ),
        FaultKind::TooManySubscribers => Sentence::One(
            "a script has ",
            Limits::SUBSCRIBERS as u128,
            " subscriber lines at most",
        ),
        FaultKind::BadClient => {
            Sentence::One("a client's number is 1 to ", Limits::CLIENTS as u128, "")
        }
        FaultKind::NoSubscriber => Sentence::Plain(
            "the file has no line that begins with subscriber, as subscriber all",
        ),
        FaultKind::TooLong => Sentence::One(
            "the file has more bytes than a script may have, which is ",
            Limits::SCRIPT_BYTES as u128,
            "",
        ),
    }
}

/// What a step file must have, for one with this error. Errors of bindings, batches or clients don't occur in it.
pub(crate) fn steps_sentence(kind: FaultKind) -> Sentence {
    match kind {
        FaultKind::UnknownWord => Sentence::Plain(
            "a line begins with batch, close_ledger, start, crash, poll, publish, arrive, answer, save, send, rewind, break, take, ack or close",
        ),
        FaultKind::WrongCount => Sentence::Plain(
            "ack has two numbers, arrive, answer, send, rewind, break, take, close and start at have one number, batch, close_ledger, start, crash, poll, publish and save have none",
        ),
        FaultKind::NumberOutOfRange => Sentence::One(
            "a number has 64 bits at most, and the timestamp of start at is at most ",
            Limits::TIMESTAMP as u128,
            "",
        ),
        FaultKind::TooLong => Sentence::One(
            "the file has more bytes than a step file may have, which is ",
            Limits::SCRIPT_BYTES as u128,
            "",
        ),
        _ => script_sentence(kind),
    }
}
