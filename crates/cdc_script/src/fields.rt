//! The fields of an item: the words `key=value` of its line.

ghost use Rattle.std.specs.Prelude.{◌≡◌, ◌≤◌, MatchResult};
ghost use Rattle.std.specs.Option.{option_map};
ghost use Rattle.cdc_match.specs.Parts.{parted};
ghost use Rattle.cdc_script.specs.Fields as spec;
ghost use Rattle.cdc_script.specs.Fields.{key_name, key_place, keys_of, key_named};
ghost use Rattle.cdc_script.specs.Fields.{greatest_of, field_of, fields_of};
ghost use Rattle.cdc_script.specs.Private.Parts.{seen, words_of};

use crate::faults::{Detail, FaultKind, LineFault, Span};
use crate::operands::number_in;
use crate::parts::Part;
use crate::places::{bad_text, missing, span_of, wrong};
use crate::words::{is_printable_word, is_word, next_word, position_of};
use cdc_types::{NewAccount, NewTransfer};

/// A field of an account or a transfer. The names in scripts are those of the variants in lower case, with
/// underscores.
#[derive(Clone, Copy)]
pub enum Key {
    Id,
    DebitAccountId,
    CreditAccountId,
    Amount,
    PendingId,
    UserData128,
    UserData64,
    UserData32,
    Timeout,
    Ledger,
    Code,
    Flags,
}

/// The kind of an item of a batch.
#[derive(Clone, Copy)]
pub enum ItemKind {
    Account,
    Transfer,
}

impl ItemKind {
    /// The fields that an item of this kind can have.
    pub fn keys(self) -> &'static [Key]
        ensures { result.now ≡ keys_of self }
    {
        match self {
            ItemKind::Account => &[
                Key::Id,
                Key::UserData128,
                Key::UserData64,
                Key::UserData32,
                Key::Ledger,
                Key::Code,
                Key::Flags,
            ],
            ItemKind::Transfer => &[
                Key::Id,
                Key::DebitAccountId,
                Key::CreditAccountId,
                Key::Amount,
                Key::PendingId,
                Key::UserData128,
                Key::UserData64,
                Key::UserData32,
                Key::Timeout,
                Key::Ledger,
                Key::Code,
                Key::Flags,
            ],
        }
    }

    /// The field with this name. `None` if an item of this kind doesn't have it.
    pub fn key_named(self, name: &[u8]) -> Option<Key>
        ensures { result ≡ key_named self name.now }
    {
        self.keys()
            .iter()
            .copied()
            .find(|key| is_word(name, key.name()))
    }
}

impl Key {
    /// The field's name in scripts.
    pub fn name(self) -> &'static str
        ensures { result.now ≡ key_name self }
    {
        match self {
            Key::Id => "id",
            Key::DebitAccountId => "debit_account_id",
            Key::CreditAccountId => "credit_account_id",
            Key::Amount => "amount",
            Key::PendingId => "pending_id",
            Key::UserData128 => "user_data_128",
            Key::UserData64 => "user_data_64",
            Key::UserData32 => "user_data_32",
            Key::Timeout => "timeout",
            Key::Ledger => "ledger",
            Key::Code => "code",
            Key::Flags => "flags",
        }
    }

    /// The field's index among all fields, from 0.
    fn place(self) -> usize
        ensures place { result ≡ key_place self }
        ensures bound { result ≤ 11 }
    {
        self as usize
    }

    /// The greatest value of the field.
    pub fn greatest(self) -> u128
        ensures { result ≡ greatest_of self }
    {
        match self {
            Key::UserData64 => u128::from(u64::MAX),
            Key::UserData32 | Key::Timeout | Key::Ledger => u128::from(u32::MAX),
            Key::Code | Key::Flags => u128::from(u16::MAX),
            _ => u128::MAX,
        }
    }
}

/// The fields of an item before any word is read: each is 0. An account uses a part of a transfer's fields.
fn no_fields() -> NewTransfer
    ensures { result ≡ spec.no_fields }
{
    NewTransfer {
        id: 0,
        debit_account_id: 0,
        credit_account_id: 0,
        amount: 0,
        pending_id: 0,
        user_data_128: 0,
        user_data_64: 0,
        user_data_32: 0,
        timeout: 0,
        ledger: 0,
        code: 0,
        flags: 0,
    }
}

/// The fields with this one set. The value fits the field.
fn with_field(fields: NewTransfer, key: Key, value: u128) -> NewTransfer
    requires { value ≤ greatest_of key }
    ensures { result ≡ spec.with_field fields key value }
{
    let mut fields = fields;
    match key {
        Key::Id => fields.id = value,
        Key::DebitAccountId => fields.debit_account_id = value,
        Key::CreditAccountId => fields.credit_account_id = value,
        Key::Amount => fields.amount = value,
        Key::PendingId => fields.pending_id = value,
        Key::UserData128 => fields.user_data_128 = value,
        Key::UserData64 => fields.user_data_64 = value as u64,
        Key::UserData32 => fields.user_data_32 = value as u32,
        Key::Timeout => fields.timeout = value as u32,
        Key::Ledger => fields.ledger = value as u32,
        Key::Code => fields.code = value as u16,
        Key::Flags => fields.flags = value as u16,
    }
    fields
}

/// The account that the fields ask for. Fields that only transfers have are dropped.
pub fn account_of(fields: NewTransfer) -> NewAccount
    ensures { result ≡ spec.account_of fields }
{
    NewAccount {
        id: fields.id,
        user_data_128: fields.user_data_128,
        user_data_64: fields.user_data_64,
        user_data_32: fields.user_data_32,
        ledger: fields.ledger,
        code: fields.code,
        flags: fields.flags,
    }
}

/// The bytes of a word before and after its first equals sign.
fn parted_at_equals(word: &[u8]) -> Option<(&[u8], &[u8])>
    ensures { option_map (λ parts. (parts.0.now, parts.1.now)) result ≡ parted 61 word.now }
{
    let end = position_of(word, b'=')?;
    Some((&word[..end], &word[end + 1..]))
}

/// The field that a word `key=value` gives, and its value.
fn read_field(word: Part<'_>, kind: ItemKind) -> Result<(Key, u128), LineFault>
    ensures field { result ≡ field_of kind (seen word.entry) }
    ensures bound { MatchResult result (λ field. field.1 ≤ greatest_of field.0) (λ e. Unit {0}) }
{
    if !is_printable_word(word.bytes) {
        return Err(bad_text(word));
    }
    let Some((name, value)) = parted_at_equals(word.bytes) else {
        return Err(wrong(FaultKind::UnknownKey, word));
    };
    let Some(key) = kind.key_named(name) else {
        return Err(wrong(FaultKind::UnknownKey, word));
    };
    let number = number_in(word, value, key.greatest())?;
    Ok((key, number))
}

/// The key of the word is given already, by this one.
fn given_twice(word: Part<'_>, earlier: Span) -> LineFault
    ensures { result ≡ spec.given_twice (seen word.entry) earlier }
{
    LineFault {
        word: Some(span_of(word)),
        kind: FaultKind::KeyTwice,
        detail: Detail::GivenBy(earlier),
    }
}

/// The fields that the words of an item give. It is a fault if there is no word, or if a key occurs twice.
pub fn read_fields(words: Part<'_>, kind: ItemKind) -> Result<NewTransfer, LineFault>
    ensures { result ≡ fields_of kind (words_of words.entry) }
{
    let mut fields = no_fields();
    let mut given: [Option<Span>; 12] = [None; 12];
    let mut rest = words;
    if next_word(words).is_none() {
        return Err(missing(FaultKind::WrongCount));
    }
    while let Some((word, after)) = next_word(rest) {
        let (key, value) = read_field(word, kind)?;
        let place = key.place();
        if let Some(earlier) = given[place] {
            return Err(given_twice(word, earlier));
        }
        given[place] = Some(span_of(word));
        fields = with_field(fields, key, value);
        rest = after;
    }
    Ok(fields)
}
