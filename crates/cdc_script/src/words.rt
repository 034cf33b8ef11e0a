//! Splitting a text into lines and a line into words.

ghost use Rattle.std.specs.Prelude.{◌≡◌, ◌==◌, ◌+◌, ◌∷◌, ◌<◌, ◌≤◌, [], false, true};
ghost use Rattle.std.specs.Prelude.{length, position, IfSome, MatchOption};
ghost use Rattle.std.specs.List.{slice_split};
ghost use Rattle.std.specs.Str.{bytes_eq};
ghost use Rattle.std.specs.Str.Lines.{strip_carriage_return};
ghost use Rattle.cdc_types.specs.declared.bounds.TheConstants.Limits.{SCRIPT_BYTES};
ghost use Rattle.cdc_script.specs.Faults.{end_of};
ghost use Rattle.cdc_script.specs.Private.Parts.{seen, lines_of, spoken_of, words_of};
ghost use Rattle.cdc_script.specs.Words.{is_printable};

use crate::parts::Part;
use std::str;

/// The index of the first byte that equals `wanted`. `None` if there is none.
pub fn position_of(bytes: &[u8], wanted: u8) -> Option<usize>
    ensures { result ≡ position (λ b. b == wanted) bytes.now }
{
    bytes.iter().position(|byte| *byte == wanted)
}

/// The parts before and after the first such byte. `None` if there is none.
fn split_once(part: Part<'_>, separator: u8) -> Option<(Part<'_>, Part<'_>)>
    ensures splits { MatchOption result
        (slice_split (λ b. b == separator) part.entry.bytes.now ≡ part.entry.bytes.now ∷ [])
        (λ parts. slice_split (λ b. b == separator) part.entry.bytes.now
        ≡ parts.0.bytes.now ∷ slice_split (λ b. b == separator) parts.1.bytes.now) }
    ensures first { IfSome result (λ parts. parts.0.start ≡ part.entry.start) }
    ensures second { IfSome result (λ parts.
        parts.1.start ≡ part.entry.start + length parts.0.bytes.now + 1) }
    ensures shorter { IfSome result (λ parts.
        length parts.1.bytes.now < length part.entry.bytes.now) }
{
    let Part { start, bytes } = part;
    match position_of(bytes, separator) {
        None => None,
        Some(end) => {
            let before = Part {
                start,
                bytes: &bytes[..end],
            };
            let after = Part {
                start: start + end + 1,
                bytes: &bytes[end + 1..],
            };
            Some((before, after))
        }
    }
}

/// The first line of the rest of a text, without its line ending, and the text after it. `None` if the text is empty.
/// A line ending is a line feed, or a carriage return and a line feed. The last line may lack it.
pub fn next_line(text: Part<'_>) -> Option<(Part<'_>, Part<'_>)>
    ensures line { MatchOption result (lines_of text.entry ≡ [])
        (λ found. lines_of text.entry ≡ seen found.0 ∷ lines_of found.1) }
    ensures shorter { MatchOption result (text.entry.bytes.now ≡ [])
        (λ found. length found.1.bytes.now < length text.entry.bytes.now) }
{
    match split_once(text, b'\n') {
        Some((line, after)) => Some((without_return(line), after)),
        None if text.bytes.is_empty() => None,
        None => Some((text, nothing_after(text))),
    }
}

/// The empty part that remains after the last line.
fn nothing_after(text: Part<'_>) -> Part<'_>
    ensures { result.bytes.now ≡ [] }
{
    Part {
        start: text.start,
        bytes: &[],
    }
}

/// A line without the carriage return at its end, if it has one.
fn without_return(line: Part<'_>) -> Part<'_>
    ensures start { result.start ≡ line.entry.start }
    ensures bytes { result.bytes.now ≡ strip_carriage_return line.entry.bytes.now }
{
    let Part { start, bytes } = line;
    match bytes {
        [front @ .., b'\r'] => Part {
            start,
            bytes: front,
        },
        _ => line,
    }
}

/// The first word of a line, and the rest of the line. `None` if there is no word.
pub fn next_word(line: Part<'_>) -> Option<(Part<'_>, Part<'_>)>
    ensures word { MatchOption result (words_of line.entry ≡ [])
        (λ found. words_of line.entry ≡ seen found.0 ∷ words_of found.1) }
    ensures shorter { MatchOption result (words_of line.entry ≡ [])
        (λ found. length found.1.bytes.now < length line.entry.bytes.now) }
{
    let mut rest = line;
    while let Some((word, after)) = split_once(rest, b' ') {
        if !word.bytes.is_empty() {
            return Some((word, after));
        }
        rest = after;
    }
    if rest.bytes.is_empty() {
        None
    } else {
        Some((rest, nothing_after(rest)))
    }
}

/// The first word of a line, and the rest of the line. `None` if the line is blank or a comment.
pub fn first_word(line: Part<'_>) -> Option<(Part<'_>, Part<'_>)>
    ensures { MatchOption result (spoken_of line.entry ≡ [])
        (λ found. spoken_of line.entry ≡ seen found.0 ∷ words_of found.1) }
{
    if let [b'#', ..] = line.bytes {
        return None;
    }
    next_word(line)
}

/// The offset right after the last word of a line. The offset of the line if it has no word.
pub fn end_of_words(line: Part<'_>) -> usize
    ensures place { result ≡ end_of line.entry.start (words_of line.entry) }
    ensures within { result ≤ SCRIPT_BYTES }
{
    let mut end = line.start;
    let mut rest = line;
    while let Some((word, after)) = next_word(rest) {
        end = word.start + word.bytes.len();
        rest = after;
    }
    end
}

/// Whether every byte of the word is a printable ASCII character.
pub fn is_printable_word(word: &[u8]) -> bool
    ensures { result ≡ is_printable word.now }
{
    word.iter().all(|byte| matches!(byte, b' '..=b'~'))
}

/// A word as text. `None` if a byte of it isn't a printable ASCII character.
#[tactic(auto, using(crate::proofs::PrintableLemmas::printable_text))]
pub fn printable_text(word: &[u8]) -> Option<&str>
    ensures { MatchOption result (is_printable word.now ≡ false)
        (λ text. (is_printable word.now ≡ true) × (text.now ≡ word.now)) }
{
    if is_printable_word(word) {
        str::from_utf8(word).ok()
    } else {
        None
    }
}

pub fn is_word(word: &[u8], wanted: &str) -> bool
    ensures { result ≡ bytes_eq word.now wanted.now }
{
    word == wanted.as_bytes()
}
