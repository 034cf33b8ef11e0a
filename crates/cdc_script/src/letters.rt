//! Letters of words that aren't printable ASCII.

ghost use Rattle.std.specs.Prelude.{◌≡◌, ◌≤◌, ◌&&◌, nat_le, not, position};
ghost use Rattle.cdc_types.specs.declared.bounds.TheConstants.Limits.{SCRIPT_BYTES};
ghost use Rattle.cdc_script.specs.Letters as spec;
ghost use Rattle.cdc_script.specs.Private.Parts.{seen};

use crate::faults::Span;
use crate::parts::Part;
use std::str;

/// The number of bytes in a UTF-8 letter with this first byte. 1 if no letter begins with the byte.
fn letter_size(first: u8) -> usize
    ensures size { result ≡ spec.letter_size first }
    ensures bound { result ≤ 4 }
{
    match first {
        0xC2..=0xDF => 2,
        0xE0..=0xEF => 3,
        0xF0..=0xF4 => 4,
        _ => 1,
    }
}

/// The number of bytes in the letter with which these bytes begin. A byte that belongs to no letter counts as one.
fn letter_length(bytes: &[u8]) -> usize
    ensures length { result ≡ spec.letter_length bytes.now }
    ensures bound { result ≤ 4 }
{
    let Some(first) = bytes.first() else {
        return 0;
    };
    let size = letter_size(*first);
    if size == 1 {
        return 1;
    }
    length_if_utf8(&bytes[..size.min(bytes.len())])
}

/// The number of these bytes if they are UTF-8, otherwise 1.
fn length_if_utf8(letter: &[u8]) -> usize
    ensures { result ≡ spec.length_if_utf8 letter.now }
{
    match str::from_utf8(letter) {
        Ok(_) => letter.len(),
        Err(_) => 1,
    }
}

/// Whether the bytes begin with a byte order mark of UTF-16.
fn begins_utf_16(bytes: &[u8]) -> bool
    ensures { result ≡ spec.begins_utf_16 bytes.now }
{
    let mark = &bytes[..2.min(bytes.len())];
    mark == [0xFF, 0xFE].as_slice() || mark == [0xFE, 0xFF].as_slice()
}

/// The first letter of these bytes, which are at the offset `start` of the text. A byte order mark of UTF-16 at the
/// start of the text counts as one letter.
fn letter_at(start: usize, bytes: &[u8]) -> Span
    requires { start ≤ SCRIPT_BYTES }
    ensures { result ≡ spec.letter_at start bytes.now }
{
    let length = if start == 0 && begins_utf_16(bytes) {
        2
    } else {
        letter_length(bytes)
    };
    Span {
        start: start as u32,
        length: length as u32,
    }
}

/// The location of the word's first letter that isn't printable.
pub fn bad_letter(word: Part<'_>) -> Span
    ensures { result ≡ spec.bad_letter (seen word.entry) }
{
    let Part { start, bytes } = word;
    match bad_byte(bytes) {
        Some(place) => letter_at(start + place, &bytes[place..]),
        None => letter_at(start, bytes),
    }
}

/// The index of the first byte that isn't printable.
fn bad_byte(bytes: &[u8]) -> Option<usize>
    ensures { result ≡ position (λ b. not (nat_le 32 b && nat_le b 126)) bytes.now }
{
    bytes.iter().position(|byte| !matches!(byte, b' '..=b'~'))
}
