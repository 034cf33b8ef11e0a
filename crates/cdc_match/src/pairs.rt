//! The parts of a binding: a mode, and pairs of a header and a value.

ghost use Rattle.std.specs.Prelude.{◌≡◌};
ghost use Rattle.cdc_match.specs.Matching as spec;
ghost use Rattle.cdc_match.specs.Parsing.{mode_word, mode_named};

use cdc_types::{EventKind, Headers};

/// How many of a binding's pairs have to match (AMQP 0-9-1, the headers exchange, `x-match`).
#[derive(Clone, Copy, Debug, PartialEq, Eq)]
pub enum Mode {
    /// Every pair.
    All,
    /// At least one pair.
    Any,
}

/// A header and its required value.
#[derive(Clone, Copy, Debug, PartialEq, Eq)]
pub enum Pair {
    /// The kind of the event.
    EventType(EventKind),
    Ledger(u32),
    TransferCode(u16),
    DebitAccountCode(u16),
    CreditAccountCode(u16),
}

impl Mode {
    fn word(self) -> &'static str
        ensures { result.now ≡ mode_word self }
    {
        match self {
            Mode::All => "all",
            Mode::Any => "any",
        }
    }

    /// The mode with this word. `None` if there is none.
    pub(crate) fn named(word: &str) -> Option<Mode>
        ensures { result ≡ mode_named word.now }
    {
        [Mode::All, Mode::Any]
            .iter()
            .copied()
            .find(|mode| mode.word() == word)
    }

    /// Whether all pairs, or any of them, equal the headers' values, as the mode requires.
    pub(crate) fn pass(self, pairs: &[Pair], headers: Headers) -> bool
        ensures { result ≡ spec.pass self (spec.equals_header headers) pairs.now }
    {
        match self {
            Mode::All => pairs.iter().all(|pair| pair.equals_header(headers)),
            Mode::Any => pairs.iter().any(|pair| pair.equals_header(headers)),
        }
    }
}

impl Pair {
    /// Whether the pair's header has the pair's value.
    pub(crate) fn equals_header(self, headers: Headers) -> bool
        ensures { result ≡ spec.equals_header headers self }
    {
        match self {
            Pair::EventType(kind) => headers.kind == kind,
            Pair::Ledger(ledger) => headers.ledger == ledger,
            Pair::TransferCode(code) => headers.transfer_code == code,
            Pair::DebitAccountCode(code) => headers.debit_account_code == code,
            Pair::CreditAccountCode(code) => headers.credit_account_code == code,
        }
    }
}
