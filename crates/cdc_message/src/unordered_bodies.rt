//! A fast reader of bodies as TigerBeetle documents them, without a JSON value: the members of the event in the
//! documented order and those of its parts in any order, numbers in quotes or bare, with or without white space.

ghost use Rattle.std.specs.Prelude.{◌≡◌, ◌∷◌, ◌++◌, ◌<◌, ◌^◌, true, Ok, IfSome, OnSome, IsUtf8};
ghost use Rattle.std.specs.Bool.{OnTrue};
ghost use Rattle.json.specs.Lex.{lex, between};
ghost use Rattle.json.specs.Word as spec;
ghost use Rattle.json.specs.Word.{ends_word};
ghost use Rattle.cdc_message.specs.Fields.{key_of};
ghost use Rattle.cdc_message.specs.Kinds.{kind_text as text_of};
ghost use Rattle.cdc_message.specs.Reading.{read};
ghost use Rattle.cdc_message.specs.Unordered.{Gives, GivesNumber, GivesKind, GivesEvent, GivesName, GivesMore};
ghost use Rattle.cdc_message.specs.Unordered.{IsAccount, IsTransfer, Holds};

use crate::fields::FieldName;
use crate::kinds::{kind_named, kind_text};
use crate::own_bodies::Cursor;
use crate::part_numbers::Numbers;
use cdc_types::{Event, EventAccount, EventKind, EventTransfer};

// The most members that are read of a part.
const MOST: usize = 32;

// The name that may stand at the front of a text, by its length up to the quote and two of its bytes. The caller has to
// compare it with the text.
fn likely_name(text: &[u8]) -> Option<FieldName> {
    let length = text.iter().position(|byte| *byte == b'"')?;
    if length == 0 {
        return None;
    }
    match (length, text[0], text[length - 1]) {
        (2, _, _) => Some(FieldName::Id),
        (4, b'c', _) => Some(FieldName::Code),
        (5, _, _) => Some(FieldName::Flags),
        (6, _, _) => Some(FieldName::Amount),
        (7, _, _) => Some(FieldName::Timeout),
        (9, _, _) => Some(FieldName::Timestamp),
        (10, _, _) => Some(FieldName::PendingId),
        (12, _, b'4') => Some(FieldName::UserData64),
        (12, _, _) => Some(FieldName::UserData32),
        (13, b'u', _) => Some(FieldName::UserData128),
        (13, _, _) => Some(FieldName::DebitsPosted),
        (14, b'd', _) => Some(FieldName::DebitsPending),
        (14, _, _) => Some(FieldName::CreditsPosted),
        (15, _, _) => Some(FieldName::CreditsPending),
        _ => None,
    }
}

// Whether a byte is white space.
fn is_space(byte: u8) -> bool
    ensures { result ≡ spec.is_space byte }
{
    byte == b' ' || byte == b'\t' || byte == b'\n' || byte == b'\r'
}

// Whether a bare number ends where this text begins.
fn ends(text: &[u8]) -> bool
    ensures { OnTrue result (ends_word text.now ≡ true) }
{
    matches!(
        text.first(),
        Some(b',' | b'}' | b' ' | b'\n' | b'\r' | b'\t')
    )
}

// A number that has at most 64 bits.
fn narrow_64(number: u128) -> Option<u64>
    ensures fits { IfSome result (λ n. n < 2 ^ 64) }
    ensures same { IfSome result (λ n. number ≡ n) }
{
    u64::try_from(number).ok()
}

// A number that has at most 32 bits.
fn narrow_32(number: u128) -> Option<u32>
    ensures fits { IfSome result (λ n. n < 2 ^ 32) }
    ensures same { IfSome result (λ n. number ≡ n) }
{
    u32::try_from(number).ok()
}

// Whether bytes are UTF-8.
fn is_text(bytes: &[u8]) -> bool
    ensures { OnTrue result (IsUtf8 bytes.now) }
{
    str::from_utf8(bytes).is_ok()
}

impl Cursor<'_> {
    // Skips white space.
    fn spaces(&mut self)
        ensures { lex between self.old.rest.now ≡ lex between self.new.rest.now }
    {
        while let Some((first, rest)) = self.rest.split_first() {
            if !is_space(*first) {
                return;
            }
            self.rest = rest;
        }
    }

    // Skips this byte, with white space before it. `None` if another one comes next.
    fn sign(&mut self, sign: u8) -> Option<()>
        ensures { OnSome result (lex between self.old.rest.now ≡ lex between (sign ∷ self.new.rest.now)) }
    {
        self.spaces();
        self.byte(sign)?;
        Some(())
    }

    // Skips the key of this name.
    fn key(&mut self, name: FieldName) -> Option<()>
        ensures { OnSome result (self.old.rest.now ≡ key_of name ++ self.new.rest.now) }
    {
        self.literal(name.key().as_bytes())?;
        Some(())
    }

    // Skips the text of this kind.
    fn kind_literal(&mut self, kind: EventKind) -> Option<()>
        ensures { OnSome result (self.old.rest.now ≡ text_of kind ++ self.new.rest.now) }
    {
        self.literal(kind_text(kind).as_bytes())?;
        Some(())
    }

    // Skips this name in quotes, and the colon after it.
    fn name(&mut self, name: FieldName) -> Option<()>
        ensures { OnSome result (GivesName self.old.rest.now name self.new.rest.now) }
    {
        self.sign(b'"')?;
        self.key(name)?;
        self.byte(b'"')?;
        self.sign(b':')?;
        Some(())
    }

    // Reads the name of a number, with the colon.
    fn any_name(&mut self) -> Option<FieldName>
        ensures { IfSome result (λ name. GivesName self.old.rest.now name self.new.rest.now) }
    {
        self.spaces();
        let name = likely_name(self.rest.get(1..)?)?;
        self.name(name)?;
        Some(name)
    }

    // Reads a number of at most 64 bits that isn't in quotes.
    fn bare_number(&mut self) -> Option<u128>
        ensures { IfSome result (λ n. GivesNumber self.old.rest.now n self.new.rest.now) }
    {
        let number = self.number()?;
        if number <= u128::from(u64::MAX) && ends(self.rest) {
            Some(number)
        } else {
            None
        }
    }

    // Reads a number in quotes.
    fn quoted_number(&mut self) -> Option<u128>
        ensures { IfSome result (λ n. GivesNumber self.old.rest.now n self.new.rest.now) }
    {
        let number = self.quoted_128()?;
        Some(number)
    }

    // Reads a number in quotes or bare.
    fn any_number(&mut self) -> Option<u128>
        ensures { IfSome result (λ n. GivesNumber self.old.rest.now n self.new.rest.now) }
    {
        self.spaces();
        if self.rest.first() == Some(&b'"') {
            let number = self.quoted_number()?;
            Some(number)
        } else {
            let number = self.bare_number()?;
            Some(number)
        }
    }

    // Whether a comma comes next. `None` if neither a comma comes next nor the end of an object.
    fn more(&mut self) -> Option<bool>
        ensures { IfSome result (λ more. GivesMore self.old.rest.now more self.new.rest.now) }
    {
        self.spaces();
        if self.rest.first() == Some(&b',') {
            self.byte(b',')?;
            Some(true)
        } else {
            self.byte(b'}')?;
            Some(false)
        }
    }

    // Reads an object of numbers. The last one of a name counts.
    fn numbers(&mut self) -> Option<Numbers>
        ensures { IfSome result (λ numbers. Gives 1 self.old.rest.now (Holds numbers) self.new.rest.now) }
    {
        self.sign(b'{')?;
        let mut numbers = Numbers::none();
        'members: for _ in 0..MOST {
            let name = self.any_name()?;
            let number = self.any_number()?;
            numbers.set(name, number);
            let more = self.more()?;
            if !more {
                return Some(numbers);
            }
        }
        None
    }

    // Reads an account with its members in any order.
    fn any_account(&mut self) -> Option<EventAccount>
        ensures { IfSome result (λ account. Gives 1 self.old.rest.now (IsAccount account) self.new.rest.now) }
    {
        let numbers = self.numbers()?;
        Some(EventAccount {
            id: numbers.number_128(FieldName::Id)?,
            debits_pending: numbers.number_128(FieldName::DebitsPending)?,
            debits_posted: numbers.number_128(FieldName::DebitsPosted)?,
            credits_pending: numbers.number_128(FieldName::CreditsPending)?,
            credits_posted: numbers.number_128(FieldName::CreditsPosted)?,
            user_data_128: numbers.number_128(FieldName::UserData128)?,
            user_data_64: numbers.number_64(FieldName::UserData64)?,
            user_data_32: numbers.number_32(FieldName::UserData32)?,
            code: numbers.number_16(FieldName::Code)?,
            flags: numbers.number_16(FieldName::Flags)?,
            timestamp: numbers.number_64(FieldName::Timestamp)?,
        })
    }

    // Reads a transfer with its members in any order.
    fn any_transfer(&mut self) -> Option<EventTransfer>
        ensures { IfSome result (λ transfer. Gives 1 self.old.rest.now (IsTransfer transfer) self.new.rest.now) }
    {
        let numbers = self.numbers()?;
        Some(EventTransfer {
            id: numbers.number_128(FieldName::Id)?,
            amount: numbers.number_128(FieldName::Amount)?,
            pending_id: numbers.number_128(FieldName::PendingId)?,
            user_data_128: numbers.number_128(FieldName::UserData128)?,
            user_data_64: numbers.number_64(FieldName::UserData64)?,
            user_data_32: numbers.number_32(FieldName::UserData32)?,
            timeout: numbers.number_32(FieldName::Timeout)?,
            code: numbers.number_16(FieldName::Code)?,
            flags: numbers.number_16(FieldName::Flags)?,
            timestamp: numbers.number_64(FieldName::Timestamp)?,
        })
    }

    // Reads the name of a kind.
    fn any_kind(&mut self) -> Option<EventKind>
        ensures { IfSome result (λ kind. GivesKind self.old.rest.now kind self.new.rest.now) }
    {
        self.sign(b'"')?;
        let length = self.rest.iter().position(|byte| *byte == b'"')?;
        let kind = kind_named(str::from_utf8(&self.rest[..length]).ok()?)?;
        self.kind_literal(kind)?;
        self.byte(b'"')?;
        Some(kind)
    }

    /// Reads an event with its members in the documented order, as the function of this name does. `None` if there is
    /// none.
    pub fn documented_event(&mut self) -> Option<Event>
        ensures { IfSome result (λ event. GivesEvent self.old.rest.now event self.new.rest.now) }
    {
        self.sign(b'{')?;
        self.name(FieldName::Timestamp)?;
        let timestamp = narrow_64(self.any_number()?)?;
        self.sign(b',')?;
        self.name(FieldName::Kind)?;
        let kind = self.any_kind()?;
        self.sign(b',')?;
        self.name(FieldName::Ledger)?;
        let ledger = narrow_32(self.any_number()?)?;
        self.sign(b',')?;
        self.name(FieldName::TransferPart)?;
        let transfer = self.any_transfer()?;
        self.sign(b',')?;
        self.name(FieldName::DebitAccount)?;
        let debit_account = self.any_account()?;
        self.sign(b',')?;
        self.name(FieldName::CreditAccount)?;
        let credit_account = self.any_account()?;
        self.sign(b'}')?;
        Some(Event {
            timestamp,
            kind,
            ledger,
            transfer,
            debit_account,
            credit_account,
        })
    }
}

/// The event of a body that has the members of an event in the documented order, those of its parts in any order, and
/// no others. Each number is in quotes or bare, and white space may be anywhere. `None` for every other body, and for
/// numbers with leading zeros and names with escapes.
pub fn documented_event(bytes: &[u8]) -> Option<Event>
    ensures { IfSome result (λ event. read bytes.now ≡ Ok event) }
{
    if !is_text(bytes) {
        return None;
    }
    let mut cursor = Cursor { rest: bytes };
    let event = cursor.documented_event()?;
    cursor.spaces();
    if cursor.rest.is_empty() {
        Some(event)
    } else {
        None
    }
}
