//! The words `key=value` of a binding.

ghost use Rattle.std.specs.Prelude.{◌≡◌, ◌≤◌, IfSome};
ghost use Rattle.std.specs.Option.{option_map};
ghost use Rattle.cdc_types.specs.Widths.{max_16, max_32};
ghost use Rattle.cdc_message.specs.Decimals as decimals;
ghost use Rattle.cdc_match.specs.Parsing as spec;
ghost use Rattle.cdc_match.specs.Parts.{parted};

use crate::errors::BindError;
use crate::pairs::Pair;
use cdc_message::{decimal_up_to, kind_named};

/// A header that a binding may name.
#[derive(Clone, Copy)]
pub enum Key {
    /// The kind of the event.
    EventType,
    Ledger,
    TransferCode,
    DebitAccountCode,
    CreditAccountCode,
}

const KEYS: [Key; 5] = [
    Key::EventType,
    Key::Ledger,
    Key::TransferCode,
    Key::DebitAccountCode,
    Key::CreditAccountCode,
];

// A ledger's number from its decimal text.
fn ledger(text: &str) -> Option<u32>
    ensures { result ≡ decimals.decimal_up_to max_32 text.now }
{
    Some(decimal_up_to(text.as_bytes(), u128::from(u32::MAX))? as u32)
}

// An account's or a transfer's code from its decimal text.
fn code(text: &str) -> Option<u16>
    ensures { result ≡ decimals.decimal_up_to max_16 text.now }
{
    Some(decimal_up_to(text.as_bytes(), u128::from(u16::MAX))? as u16)
}

impl Key {
    fn name(self) -> &'static str
        ensures { result.now ≡ spec.key_name self }
    {
        match self {
            Key::EventType => "event_type",
            Key::Ledger => "ledger",
            Key::TransferCode => "transfer_code",
            Key::DebitAccountCode => "debit_account_code",
            Key::CreditAccountCode => "credit_account_code",
        }
    }

    fn named(name: &str) -> Option<Key>
        ensures { result ≡ spec.key_named name.now }
    {
        KEYS.iter().copied().find(|key| key.name() == name)
    }

    fn pair_with(self, text: &str) -> Option<Pair>
        ensures { result ≡ spec.pair_with self text.now }
    {
        match self {
            Key::EventType => kind_named(text).map(Pair::EventType),
            Key::Ledger => ledger(text).map(Pair::Ledger),
            Key::TransferCode => code(text).map(Pair::TransferCode),
            Key::DebitAccountCode => code(text).map(Pair::DebitAccountCode),
            Key::CreditAccountCode => code(text).map(Pair::CreditAccountCode),
        }
    }
}

// The text before and after the first equals sign.
fn parted_at_equals(word: &str) -> Option<(&str, &str)>
    ensures { option_map (λ parts. (parts.0.now, parts.1.now)) result ≡ parted 61 word.now }
{
    word.split_once('=')
}

/// The pair that a word represents. The error is `UnknownKey` or `BadValue`.
pub fn pair_of(word: &str) -> Result<Pair, BindError>
    ensures { result ≡ spec.pair_of word.now }
{
    let (name, value) = parted_at_equals(word).ok_or(BindError::UnknownKey)?;
    let key = Key::named(name).ok_or(BindError::UnknownKey)?;
    key.pair_with(value).ok_or(BindError::BadValue)
}
