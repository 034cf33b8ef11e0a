//! Bindings that are compared by what they mean.

ghost use Rattle.std.specs.Prelude.{◌≡◌, IfOk, map};
ghost use Rattle.std.specs.Option.{option_map};
ghost use Rattle.cdc_match.specs.Errors.{GivesUnlessMemory};
ghost use Rattle.cdc_match.specs.Parts.{parted};
ghost use Rattle.cdc_bindings.specs.Bindings as spec;

use cdc_match::{BindError, Binding, Mode, Pair};
use std::alloc::{AllocError, Global};
use std::str;

/// At how many spaces, at most, the text of a binding is parted into words.
const MOST_SPACES: u64 = 11;

/// Whether two modes are one.
fn same_mode(one: Mode, other: Mode) -> bool
    ensures { result ≡ spec.same_mode one other }
{
    match one {
        Mode::All => match other {
            Mode::All => true,
            Mode::Any => false,
        },
        Mode::Any => match other {
            Mode::All => false,
            Mode::Any => true,
        },
    }
}

/// Whether two pairs are one.
fn same_pair(one: Pair, other: Pair) -> bool
    ensures { result ≡ spec.same_pair one other }
{
    match one {
        Pair::EventType(kind) => match other {
            Pair::EventType(other_kind) => kind == other_kind,
            Pair::Ledger(_)
            | Pair::TransferCode(_)
            | Pair::DebitAccountCode(_)
            | Pair::CreditAccountCode(_) => false,
        },
        Pair::Ledger(ledger) => match other {
            Pair::Ledger(other_ledger) => ledger == other_ledger,
            Pair::EventType(_)
            | Pair::TransferCode(_)
            | Pair::DebitAccountCode(_)
            | Pair::CreditAccountCode(_) => false,
        },
        Pair::TransferCode(code) => match other {
            Pair::TransferCode(other_code) => code == other_code,
            Pair::EventType(_)
            | Pair::Ledger(_)
            | Pair::DebitAccountCode(_)
            | Pair::CreditAccountCode(_) => false,
        },
        Pair::DebitAccountCode(code) => match other {
            Pair::DebitAccountCode(other_code) => code == other_code,
            Pair::EventType(_)
            | Pair::Ledger(_)
            | Pair::TransferCode(_)
            | Pair::CreditAccountCode(_) => false,
        },
        Pair::CreditAccountCode(code) => match other {
            Pair::CreditAccountCode(other_code) => code == other_code,
            Pair::EventType(_)
            | Pair::Ledger(_)
            | Pair::TransferCode(_)
            | Pair::DebitAccountCode(_) => false,
        },
    }
}

/// Whether a pair is among these.
fn is_among(pairs: &[Pair], pair: Pair) -> bool
    ensures { result ≡ spec.is_among pairs.now pair }
{
    pairs.iter().any(|other| same_pair(pair, *other))
}

/// Whether each of these pairs is among those.
fn are_among(those: &[Pair], these: &[Pair]) -> bool
    ensures { result ≡ spec.are_among those.now these.now }
{
    these.iter().all(|pair| is_among(those, *pair))
}

/// Whether two bindings mean the same: they have one mode, and the same pairs, in any order and number.
fn mean_same(one: &Binding, other: &Binding) -> bool
    ensures { result ≡ spec.mean_same one.now other.now }
{
    same_mode(one.mode(), other.mode())
        && are_among(other.pairs(), one.pairs())
        && are_among(one.pairs(), other.pairs())
}

/// The text before and after the first space.
fn parted_at_space(text: &str) -> Option<(&str, &str)>
    ensures { option_map (λ parts. (parts.0.now, parts.1.now)) result ≡ parted 32 text.now }
{
    text.split_once(' ')
}

/// The words of a binding's text.
fn words_of<'a>(alloc: Global, text: &'a str) -> Result<Vec<&'a str>, AllocError>
    ensures { IfOk result (λ words. map (λ word. word.now) words.items ≡ spec.words 11 text.now) }
{
    let mut words = Vec::new(alloc);
    let mut rest = text;
    for spaces in 0..MOST_SPACES {
        match parted_at_space(rest) {
            Some((word, after)) => {
                words.push(word)?;
                rest = after;
            }
            None => {
                words.push(rest)?;
                return Ok(words);
            }
        }
    }
    words.push(rest)?;
    Ok(words)
}

/// The binding of a text, whose words are parted by single spaces.
fn binding_of(alloc: Global, text: &[u8]) -> Result<Binding, BindError>
    ensures { GivesUnlessMemory result (spec.binding_of text.now) }
{
    match str::from_utf8(text) {
        Ok(text) => {
            let words = words_of(alloc, text)?;
            Binding::parse(alloc, words.as_slice())
        }
        Err(_) => Err(BindError::BadMode),
    }
}

/// Whether a text is that of a binding that means the same as this one. The one error is that memory ran out.
pub fn is_of(alloc: Global, text: &[u8], binding: &Binding) -> Result<bool, AllocError>
    ensures { IfOk result (λ same. same ≡ spec.is_of binding.now text.now) }
{
    match binding_of(alloc, text) {
        Ok(read) => Ok(mean_same(&read, binding)),
        Err(BindError::OutOfMemory) => Err(AllocError),
        Err(_) => Ok(false),
    }
}
