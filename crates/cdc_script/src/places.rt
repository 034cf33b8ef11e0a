//! Faults with their locations.

ghost use Rattle.std.specs.Prelude.{◌≡◌};
ghost use Rattle.cdc_script.specs.Faults as spec;
ghost use Rattle.cdc_script.specs.Private.Parts.{seen, spoken_of};

use crate::faults::{Detail, FaultKind, LineFault, ScriptFault, Span};
use crate::letters::bad_letter;
use crate::parts::Part;
use crate::words::{end_of_words, first_word};

/// The location of a word.
pub fn span_of(word: Part<'_>) -> Span
    ensures { result ≡ spec.span_of (seen word.entry) }
{
    Span {
        start: word.start as u32,
        length: word.bytes.len() as u32,
    }
}

/// A fault of this kind at the word.
pub fn wrong(kind: FaultKind, word: Part<'_>) -> LineFault
    ensures { result ≡ spec.wrong kind (seen word.entry) }
{
    LineFault {
        word: Some(span_of(word)),
        kind,
        detail: Detail::Plain,
    }
}

/// A fault of this kind for a word that is missing at the end of the line.
pub fn missing(kind: FaultKind) -> LineFault
    ensures { result ≡ spec.missing kind }
{
    LineFault {
        word: None,
        kind,
        detail: Detail::Plain,
    }
}

/// The fault of a word that has a letter that isn't printable, located at its first such letter.
pub fn bad_text(word: Part<'_>) -> LineFault
    ensures { result ≡ spec.bad_text (seen word.entry) }
{
    LineFault {
        word: Some(bad_letter(word)),
        kind: FaultKind::BadText,
        detail: Detail::Plain,
    }
}

/// The fault of the text that belongs to a fault of its line `number`.
pub fn fault_in(number: u32, line: Part<'_>, fault: LineFault) -> ScriptFault
    ensures { result ≡ spec.fault_in number (seen line.entry) fault }
{
    let word = match fault.word {
        Some(word) => word,
        None => missing_span(line),
    };
    ScriptFault {
        line: u64::from(number),
        column: u64::from(word.start).saturating_sub(line.start as u64) + 1,
        word,
        first: first_span(line),
        kind: fault.kind,
        detail: fault.detail,
    }
}

/// The location of a word that is missing from a line: right after its last word.
fn missing_span(line: Part<'_>) -> Span
    ensures { result ≡ spec.missing_span (seen line.entry) }
{
    Span {
        start: end_of_words(line) as u32,
        length: 0,
    }
}

/// The location of the first word of a line.
fn first_span(line: Part<'_>) -> Span
    ensures { result ≡ spec.first_span (spoken_of line.entry) }
{
    match first_word(line) {
        Some((word, _)) => span_of(word),
        None => NOWHERE,
    }
}

/// The location of a word that doesn't exist.
const NOWHERE: Span = Span {
    start: 0,
    length: 0,
};

/// A fault of the text as a whole.
pub fn whole_fault(kind: FaultKind) -> ScriptFault
    ensures { result ≡ spec.whole_fault kind }
{
    ScriptFault {
        line: 0,
        column: 0,
        word: NOWHERE,
        first: NOWHERE,
        kind,
        detail: Detail::Plain,
    }
}
