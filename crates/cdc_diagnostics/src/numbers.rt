//! Why a word is no number, or is too large a one.

use crate::fields::Flag;
use crate::texts::Text;
use cdc_message::is_decimal;

const DIGITS: &str = "; a number is one or more digits from 0 to 9";

/// Adds why this word isn't a number, for the field of this name. For a field of flags, `flags` are the names that
/// the word may have in the place of a number.
pub(crate) fn push_bad_number(text: &mut Text, name: &str, word: &str, flags: &[Flag]) {
    if word.is_empty() {
        text.push("no number stands behind ");
        text.push_name(name);
        return;
    }
    if push_flags(text, word, flags) {
        return;
    }
    text.push_name(word);
    text.push(" as ");
    text.push_name(name);
    text.push(trouble(word));
    text.push(DIGITS);
}

/// What keeps a word from being a number, as the end of a sentence.
fn trouble(word: &str) -> &'static str {
    let digits = word.trim_start_matches('-').trim_start_matches('+');
    if word.contains('=') {
        ": a key and a value stand where a number does"
    } else if word.starts_with('-') || word.starts_with('+') {
        " has a sign"
    } else if word.starts_with("0x") || word.starts_with("0b") {
        " isn't decimal"
    } else if word.contains('_') && begins_with_digit(digits) {
        " has an underscore"
    } else if word.contains('.') && begins_with_digit(digits) {
        " has a point"
    } else if word.contains(',') && begins_with_digit(digits) {
        " has a comma"
    } else if begins_with_digit(digits) {
        " has something else than digits"
    } else {
        " is no number"
    }
}

fn begins_with_digit(word: &str) -> bool {
    word.as_bytes()
        .first()
        .is_some_and(|byte| byte.is_ascii_digit())
}

/// Adds the number of flags that are given by name, separated by `|`, `+` or `,`. Returns whether the word has such
/// names.
fn push_flags(text: &mut Text, word: &str, flags: &[Flag]) -> bool {
    let mut sum: u16 = 0;
    for name in word
        .as_bytes()
        .split(|byte| matches!(byte, b'|' | b'+' | b','))
    {
        let found = flags.iter().find(|flag| name == flag.name.as_bytes()
            || name == flag.short.as_bytes());
        match found {
            Some(flag) => sum |= flag.number,
            None => return false,
        }
    }
    text.push_name(word);
    text.push(" as ");
    text.push_name("flags");
    text.push(" is a name; its number is ");
    text.push_number(sum.into());
    text.push(", so `flags=");
    text.push_number(sum.into());
    text.push("`");
    true
}

/// Adds that this word is too large a number for the field of this name, with its greatest value.
pub(crate) fn push_too_large(text: &mut Text, name: &str, word: &str, greatest: u128) {
    text.push_name(word);
    text.push(" is too large: ");
    text.push_name(name);
    text.push(" is ");
    text.push_number(greatest);
    text.push(" at most");
}

/// Whether a word is a number, of whatever size.
pub(crate) fn is_number(word: &str) -> bool {
    is_decimal(word.as_bytes())
}
