//! The words after the first word of a line, in scripts and step files: numbers, and the end of the line.

ghost use Rattle.std.specs.Prelude.{◌≡◌, Ok, Err, IfOk, MatchResult};
ghost use Rattle.cdc_script.specs.Faults.{in_word};
ghost use Rattle.cdc_script.specs.Numbers.{number_of};
ghost use Rattle.cdc_script.specs.Private.Parts.{seen, words_of};
ghost use Rattle.cdc_script.specs.Statements.{ended, lone_number, number_word};

use crate::faults::{FaultKind, LineFault};
use crate::parts::Part;
use crate::places::{bad_text, missing, wrong};
use crate::words::{is_printable_word, next_word};
use cdc_message::{decimal_up_to, is_decimal};

/// The number that a text represents in decimal. Leading zeros are allowed. It is a fault if the number exceeds
/// `greatest`.
fn read_number(text: &[u8], greatest: u128) -> Result<u128, FaultKind>
    ensures { result ≡ number_of greatest text.now }
{
    match decimal_up_to(text, greatest) {
        Some(number) => Ok(number),
        None if is_decimal(text) => Err(FaultKind::NumberOutOfRange),
        None => Err(FaultKind::BadNumber),
    }
}

/// The number that `text` represents. `text` is the word or its end, and a fault is located at the word.
pub fn number_in(word: Part<'_>, text: &[u8], greatest: u128) -> Result<u128, LineFault>
    ensures { result ≡ in_word (seen word.entry) (number_of greatest text.now) }
{
    match read_number(text, greatest) {
        Ok(number) => Ok(number),
        Err(kind) => Err(wrong(kind, word)),
    }
}

/// A number of 64 bits that is the only word.
pub fn read_lone_number(words: Part<'_>) -> Result<u64, LineFault>
    ensures { result ≡ lone_number (words_of words.entry) }
{
    let (number, rest) = read_word_number(words)?;
    at_end(rest, FaultKind::WrongCount, number)
}

/// The number of 64 bits that the next word represents, and the words after it.
pub fn read_word_number(words: Part<'_>) -> Result<(u64, Part<'_>), LineFault>
    ensures { MatchResult result
        (λ found. number_word (words_of words.entry) ≡ Ok (found.0, words_of found.1))
        (λ fault. number_word (words_of words.entry) ≡ Err fault) }
{
    let (word, rest) = next_word(words).ok_or(missing(FaultKind::WrongCount))?;
    if !is_printable_word(word.bytes) {
        return Err(bad_text(word));
    }
    let number = number_in(word, word.bytes, u128::from(u64::MAX))?;
    Ok((number as u64, rest))
}

/// Returns `stated` if the line ends here, otherwise a fault of the word that follows.
pub fn at_end<T: Drop>(words: Part<'_>, fault: FaultKind, stated: T) -> Result<T, LineFault>
    ensures ended { result ≡ ended fault stated (words_of words.entry) }
    ensures stated { IfOk result (λ x. x ≡ stated) }
{
    match next_word(words) {
        None => Ok(stated),
        Some((word, _)) => {
            if is_printable_word(word.bytes) {
                Err(wrong(fault, word))
            } else {
                Err(bad_text(word))
            }
        }
    }
}
