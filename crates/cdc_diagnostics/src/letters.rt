//! Names for bytes that aren't printable ASCII.

use crate::texts::Text;
use cdc_commands::bytes_at;
use cdc_script::Span;
use std::str;

const WANTED: &str = "; a line is printable ASCII characters, bytes 32 to 126";

/// Code points that look like ASCII or like nothing, and their names.
const NAMED: [(u32, &str); 16] = [
    (0xA0, "a no-break space"),
    (0xAD, "a soft hyphen"),
    (0x200B, "a zero-width space"),
    (0x2010, "a hyphen outside ASCII"),
    (0x2011, "a no-break hyphen"),
    (0x2013, "an en dash"),
    (0x2014, "an em dash"),
    (0x2018, "a curly quote"),
    (0x2019, "a curly quote"),
    (0x201C, "a curly double quote"),
    (0x201D, "a curly double quote"),
    (0x202F, "a narrow no-break space"),
    (0x2212, "a minus sign outside ASCII"),
    (0x3000, "a wide space"),
    (0xFEFF, "a mark of byte order"),
    (0xFF1D, "a wide equals sign"),
];

/// Names the character at this place of a file, which isn't printable ASCII.
pub(crate) fn push_bad_letter(text: &mut Text, file: &[u8], place: Span) {
    let letter = bytes_at(file, place);
    let end = u64::from(place.start).saturating_add(u64::from(place.length));
    if letter == b"\r".as_slice() && end == file.len() as u64 {
        text.push("the file ends with a carriage return and no line feed behind it");
    } else {
        push_letter(text, letter, place.start == 0);
    }
}

/// Names the character of these bytes. At the head of a file it may be a byte order mark.
fn push_letter(text: &mut Text, letter: &[u8], is_head: bool) {
    if is_head && letter == [0xEF, 0xBB, 0xBF].as_slice() {
        text.push(
            "the file begins with a mark of byte order, bytes 239, 187 and 191: save it without one",
        );
        return;
    }
    if is_head && (letter == [0xFF, 0xFE].as_slice() || letter == [0xFE, 0xFF].as_slice()) {
        text.push(
            "the file begins with UTF-16's mark of byte order: save it as ASCII, without one",
        );
        return;
    }
    match letter {
        [b'\t'] => text.push("a tab; words are parted by spaces"),
        [b'\r'] => text.push("a carriage return; one alone stands right in front of a line feed"),
        [byte] if *byte < 0x80 => push_byte(text, "a control character, byte ", *byte),
        [byte] => push_byte(text, "byte ", *byte),
        _ => push_wide_letter(text, str::from_utf8(letter).unwrap_or("?")),
    }
}

fn push_byte(text: &mut Text, name: &str, byte: u8) {
    text.push(name);
    text.push_number(byte.into());
    text.push(WANTED);
}

/// Names a character outside ASCII.
fn push_wide_letter(text: &mut Text, letter: &str) {
    let code = letter.chars().next().map_or(0, |letter| letter as u32);
    match NAMED.iter().find(|(named, _)| *named == code) {
        Some((_, name)) => text.push(name),
        None => {
            text.push("the letter ");
            text.push(letter);
        }
    }
    text.push(" (U+");
    push_code(text, code);
    text.push(")");
    text.push(WANTED);
}

/// Adds a code point in at least four hexadecimal digits.
fn push_code(text: &mut Text, code: u32) {
    for (place, shift) in [20_u32, 16, 12, 8, 4, 0].iter().enumerate() {
        let left = code >> *shift;
        if place >= 2 || left > 0 {
            text.push(hexadecimal_digit(left % 16));
        }
    }
}

fn hexadecimal_digit(digit: u32) -> &'static str {
    const DIGITS: [&str; 16] = [
        "0", "1", "2", "3", "4", "5", "6", "7", "8", "9", "A", "B", "C", "D", "E", "F",
    ];
    DIGITS.get(digit as usize).copied().unwrap_or("?")
}
