//! A fast reader of bodies exactly as `encode` writes them: it works byte by byte, without a JSON value.

ghost use Rattle.std.specs.Prelude.{◌≡◌, ℕ, ◌<◌, ◌^◌, List, [], ◌∷◌, ◌++◌, codes, decimal, false, true, Ok, IfSome, OnSome};
ghost use Rattle.cdc_types.specs.declared.events.Event.{Event};
ghost use Rattle.cdc_types.specs.declared.events.EventKind.{EventKind};
ghost use Rattle.cdc_message.specs.Bodies.{account_text, body, in_quotes, transfer_text};
ghost use Rattle.cdc_message.specs.Kinds.{kind_text as text_of};
ghost use Rattle.cdc_message.specs.OwnBodies.{begins_with_digit, IsOwnBody, ReadsNumber, ReadsPart, ReadsText};
ghost use Rattle.cdc_message.specs.Reading.{read};
ghost use Rattle.cdc_message.specs.Widths.{AccountFits, EventFits, TransferFits};

use crate::decimals::{front_number, leading_number};
use crate::kinds::kind_of;
use crate::words::same;
use cdc_types::{Event, EventAccount, EventKind, EventTransfer};
use itoa::Buffer;

/// The rest of a text that is still to be read.
#[derive(Drop)]
pub struct Cursor<'a> {
    /// What hasn't been read yet.
    pub rest: &'a [u8],
}

// Steps of readers. A step that doesn't find what it looks for is `None`.
impl Cursor<'_> {
    /// Skips this text. `None` if another one comes next. Inlined, so that a constant text is compared by a few words.
    #[inline(always)]
    pub fn literal(&mut self, text: &[u8]) -> Option<()>
        ensures text { OnSome result (self.old.rest.now ≡ text.now ++ self.new.rest.now) }
        ensures complete { (rest : List ℕ) → self.old.rest.now ≡ text.now ++ rest
            → (result ≡ Some tt) × (self.new.rest.now ≡ rest) }
    {
        let (front, rest) = self.rest.split_at_checked(text.len())?;
        if !same(front, text) {
            return None;
        }
        self.rest = rest;
        Some(())
    }

    /// Skips this byte. `None` if another one comes next.
    pub fn byte(&mut self, byte: u8) -> Option<()>
        ensures { OnSome result (self.old.rest.now ≡ byte ∷ self.new.rest.now) }
    {
        let (first, rest) = self.rest.split_first()?;
        if *first != byte {
            return None;
        }
        self.rest = rest;
        Some(())
    }

    /// Reads a number without leading zeros. `None` if there is none, or if it has more than 128 bits.
    pub fn number(&mut self) -> Option<u128>
        ensures text { IfSome result (λ n. self.old.rest.now ≡ decimal n ++ self.new.rest.now) }
        ensures complete { (n : ℕ) (rest : List ℕ) → self.old.rest.now ≡ decimal n ++ rest → n < 2 ^ 128
            → begins_with_digit rest ≡ false → (result ≡ Some n) × (self.new.rest.now ≡ rest) }
    {
        if let Some((number, count)) = front_number(self.rest) {
            self.rest = &self.rest[count..];
            return Some(number);
        }
        self.long_number()
    }

    // Reads a number without leading zeros, of any length: the text is compared with that of the number.
    #[inline(never)]
    fn long_number(&mut self) -> Option<u128>
        ensures text { IfSome result (λ n. self.old.rest.now ≡ decimal n ++ self.new.rest.now) }
        ensures complete { (n : ℕ) (rest : List ℕ) → self.old.rest.now ≡ decimal n ++ rest → n < 2 ^ 128
            → begins_with_digit rest ≡ false → (result ≡ Some n) × (self.new.rest.now ≡ rest) }
    {
        let number = leading_number(self.rest)?;
        self.literal(Buffer::new().format(number).as_bytes())?;
        Some(number)
    }

    // Skips a 0 in quotes, which most numbers are. If something else comes next, the result is false.
    fn quoted_zero(&mut self) -> bool
        ensures zero { result ≡ true → self.old.rest.now ≡ in_quotes (decimal 0) ++ self.new.rest.now }
        ensures other { result ≡ false → self.new.rest.now ≡ self.old.rest.now }
    {
        match self.rest.strip_prefix(b"\"0\"") {
            Some(rest) => {
                self.rest = rest;
                true
            }
            None => false,
        }
    }

    // Reads a number of 128 bits in quotes.
    pub(crate) fn quoted_128(&mut self) -> Option<u128>
        ensures fits { IfSome result (λ n. n < 2 ^ 128) }
        ensures text { IfSome result (λ n. self.old.rest.now ≡ in_quotes (decimal n) ++ self.new.rest.now) }
    {
        if self.quoted_zero() {
            return Some(0);
        }
        self.byte(b'"')?;
        let number = self.number()?;
        self.byte(b'"')?;
        Some(number)
    }
}

// Readers of the parts of a body, each after the last one. A reader that doesn't find what it looks for drops the rest
// of the body, so that every later one fails too: the last one decides whether the body was as `encode` writes it.
impl Cursor<'_> {
    // Drops the rest.
    fn fail(&mut self)
        ensures { self.new.rest.now ≡ [] }
    {
        self.rest = b"";
    }

    // Skips this text.
    fn skip(&mut self, text: &[u8])
        ensures { ReadsText text.now self.old.rest.now self.new.rest.now }
    {
        match self.literal(text) {
            Some(()) => {}
            None => self.fail(),
        }
    }

    // Reads a number of 128 bits.
    #[inline(never)]
    fn next_number(&mut self) -> u128
        ensures { ReadsNumber 128 [] self.old.rest.now result self.new.rest.now }
    {
        match self.number() {
            Some(number) => number,
            None => {
                self.fail();
                0
            }
        }
    }

    // Skips this text, and reads the number of 128 bits after it.
    #[inline(always)]
    fn number_128(&mut self, text: &[u8]) -> u128
        ensures { ReadsNumber 128 text.now self.old.rest.now result self.new.rest.now }
    {
        match self.literal(text) {
            Some(()) => self.next_number(),
            None => {
                self.fail();
                0
            }
        }
    }

    // The same for a number of 64 bits.
    #[inline(always)]
    fn number_64(&mut self, text: &[u8]) -> u64
        ensures { ReadsNumber 64 text.now self.old.rest.now result self.new.rest.now }
    {
        match u64::try_from(self.number_128(text)) {
            Ok(number) => number,
            Err(_) => {
                self.fail();
                0
            }
        }
    }

    // The same for a number of 32 bits.
    #[inline(always)]
    fn number_32(&mut self, text: &[u8]) -> u32
        ensures { ReadsNumber 32 text.now self.old.rest.now result self.new.rest.now }
    {
        match u32::try_from(self.number_128(text)) {
            Ok(number) => number,
            Err(_) => {
                self.fail();
                0
            }
        }
    }

    // The same for a number of 16 bits.
    #[inline(always)]
    fn number_16(&mut self, text: &[u8]) -> u16
        ensures { ReadsNumber 16 text.now self.old.rest.now result self.new.rest.now }
    {
        match u16::try_from(self.number_128(text)) {
            Ok(number) => number,
            Err(_) => {
                self.fail();
                0
            }
        }
    }

    // Reads an account with its members in the order of `encode`.
    fn account(&mut self) -> EventAccount
        ensures { ReadsPart AccountFits account_text self.old.rest.now result self.new.rest.now }
    {
        let code = self.number_16(b"{\"code\":");
        let credits_pending = self.number_128(b",\"credits_pending\":\"");
        let credits_posted = self.number_128(b"\",\"credits_posted\":\"");
        let debits_pending = self.number_128(b"\",\"debits_pending\":\"");
        let debits_posted = self.number_128(b"\",\"debits_posted\":\"");
        let flags = self.number_16(b"\",\"flags\":");
        let id = self.number_128(b",\"id\":\"");
        let timestamp = self.number_64(b"\",\"timestamp\":\"");
        let user_data_128 = self.number_128(b"\",\"user_data_128\":\"");
        let user_data_32 = self.number_32(b"\",\"user_data_32\":");
        let user_data_64 = self.number_64(b",\"user_data_64\":\"");
        self.skip(b"\"}");
        EventAccount {
            id,
            debits_pending,
            debits_posted,
            credits_pending,
            credits_posted,
            user_data_128,
            user_data_64,
            user_data_32,
            code,
            flags,
            timestamp,
        }
    }

    // Reads a transfer with its members in the order of `encode`.
    fn transfer(&mut self) -> EventTransfer
        ensures { ReadsPart TransferFits transfer_text self.old.rest.now result self.new.rest.now }
    {
        let amount = self.number_128(b"{\"amount\":\"");
        let code = self.number_16(b"\",\"code\":");
        let flags = self.number_16(b",\"flags\":");
        let id = self.number_128(b",\"id\":\"");
        let pending_id = self.number_128(b"\",\"pending_id\":\"");
        let timeout = self.number_32(b"\",\"timeout\":");
        let timestamp = self.number_64(b",\"timestamp\":\"");
        let user_data_128 = self.number_128(b"\",\"user_data_128\":\"");
        let user_data_32 = self.number_32(b"\",\"user_data_32\":");
        let user_data_64 = self.number_64(b",\"user_data_64\":\"");
        self.skip(b"\"}");
        EventTransfer {
            id,
            amount,
            pending_id,
            user_data_128,
            user_data_64,
            user_data_32,
            timeout,
            code,
            flags,
            timestamp,
        }
    }

    // Reads the name of a kind, with which a body ends.
    fn kind(&self) -> Option<EventKind>
        ensures text { IfSome result (λ kind. self.now.rest.now ≡ text_of kind ++ codes "\"}") }
        ensures complete { (kind : EventKind) → self.now.rest.now ≡ text_of kind ++ codes "\"}" → result ≡ Some kind }
    {
        kind_of(self.rest.strip_suffix(b"\"}")?)
    }

    // Reads an event with its members in the order of `encode`. The body ends right after it.
    fn event(&mut self) -> Option<Event>
        ensures fits { IfSome result EventFits }
        ensures text { IfSome result (λ event. self.old.rest.now ≡ body event) }
        ensures complete { (event : Event) → IsOwnBody self.old.rest.now event → result ≡ Some event }
    {
        self.literal(b"{\"credit_account\":")?;
        let credit_account = self.account();
        self.skip(b",\"debit_account\":");
        let debit_account = self.account();
        let ledger = self.number_32(b",\"ledger\":");
        let timestamp = self.number_64(b",\"timestamp\":\"");
        self.skip(b"\",\"transfer\":");
        let transfer = self.transfer();
        self.skip(b",\"type\":\"");
        let kind = self.kind()?;
        Some(Event {
            timestamp,
            kind,
            ledger,
            transfer,
            debit_account,
            credit_account,
        })
    }
}

/// The event for which `encode` writes exactly these bytes. `None` if there is none.
pub fn own_event(bytes: &[u8]) -> Option<Event>
    ensures event { IfSome result (λ event. read bytes.now ≡ Ok event) }
    ensures own { IfSome result (λ event. IsOwnBody bytes.now event) }
    ensures complete { (event : Event) → IsOwnBody bytes.now event → result ≡ Some event }
{
    let mut cursor = Cursor { rest: bytes };
    cursor.event()
}
