//! The parts of a line, as they are read. Each reader takes any text, and returns what it has read and the bytes after
//! that. It refuses nothing: a caller that must refuse what was not written so, writes what it has read, and compares.

ghost use Rattle.std.specs.Prelude.{◌≡◌, ◌≤◌, ◌^◌, drop, length};
ghost use Rattle.std.specs.Char.{is_ascii_digit as is_digit};
ghost use Rattle.std.specs.List.{prefix_len};
ghost use Rattle.cdc_codec.specs.Parts.{flag_at, line_at, narrow, number_at};
ghost use Rattle.cdc_codec.specs.ReadBack.{ReadsFlag, ReadsLine, ReadsNumber};
ghost use Rattle.cdc_codec.specs.Texts.{is_in_line};

use cdc_message::decimal_up_to;

/// The bytes after the first ones; none if there are no more.
pub fn skip(text: &[u8], count: usize) -> &[u8]
    ensures rest { result.now ≡ drop count text.now }
    ensures shorter { length result.now ≤ length text.now }
{
    if count <= text.len() {
        &text[count..]
    } else {
        &[]
    }
}

// How many digits a text begins with.
fn count_digits(text: &[u8]) -> usize
    ensures { result ≡ prefix_len is_digit text.now }
{
    text.iter().take_while(|byte| byte.is_ascii_digit()).count()
}

/// The number of 128 bits after one byte, as after a space. It is 0 if no digit follows, or if the number is greater.
pub fn number(text: &[u8]) -> (u128, &[u8])
    ensures value { result.0 ≡ (number_at text.now).value }
    ensures rest { result.1.now ≡ (number_at text.now).rest }
    ensures reads { ReadsNumber (2 ^ 128) text.now result.0 result.1.now }
    ensures shorter { length result.1.now ≤ length text.now }
{
    let text = skip(text, 1);
    let length = count_digits(text);
    let digits = &text[..length];
    let value = decimal_up_to(digits, u128::MAX).unwrap_or(0);
    (value, &text[length..])
}

/// The number of 64 bits after one byte; 0 if no digit follows, or if the number is greater.
pub fn number_64(text: &[u8]) -> (u64, &[u8])
    ensures value { result.0 ≡ narrow (2 ^ 64) (number_at text.now).value }
    ensures rest { result.1.now ≡ (number_at text.now).rest }
    ensures reads { ReadsNumber (2 ^ 64) text.now result.0 result.1.now }
    ensures shorter { length result.1.now ≤ length text.now }
{
    let (value, rest) = number(text);
    (u64::try_from(value).unwrap_or(0), rest)
}

/// The number of 32 bits after one byte; 0 if no digit follows, or if the number is greater.
pub fn number_32(text: &[u8]) -> (u32, &[u8])
    ensures value { result.0 ≡ narrow (2 ^ 32) (number_at text.now).value }
    ensures rest { result.1.now ≡ (number_at text.now).rest }
    ensures reads { ReadsNumber (2 ^ 32) text.now result.0 result.1.now }
    ensures shorter { length result.1.now ≤ length text.now }
{
    let (value, rest) = number(text);
    (u32::try_from(value).unwrap_or(0), rest)
}

/// The number of 16 bits after one byte; 0 if no digit follows, or if the number is greater.
pub fn number_16(text: &[u8]) -> (u16, &[u8])
    ensures value { result.0 ≡ narrow (2 ^ 16) (number_at text.now).value }
    ensures rest { result.1.now ≡ (number_at text.now).rest }
    ensures reads { ReadsNumber (2 ^ 16) text.now result.0 result.1.now }
    ensures shorter { length result.1.now ≤ length text.now }
{
    let (value, rest) = number(text);
    (u16::try_from(value).unwrap_or(0), rest)
}

/// Whether a text begins with ` yes`, and the bytes after that or, for any other text, after ` no`.
pub fn flag(text: &[u8]) -> (bool, &[u8])
    ensures value { result.0 ≡ (flag_at text.now).value }
    ensures rest { result.1.now ≡ (flag_at text.now).rest }
    ensures reads { ReadsFlag text.now result.0 result.1.now }
    ensures shorter { length result.1.now ≤ length text.now }
{
    if text.starts_with(b" yes") {
        (true, skip(text, 4))
    } else {
        (false, skip(text, 3))
    }
}

// How many bytes precede the first line feed.
fn line_length(text: &[u8]) -> usize
    ensures count { result ≡ prefix_len is_in_line text.now }
    ensures within { result ≤ length text.now }
{
    text.iter().take_while(|byte| **byte != b'\n').count()
}

/// The bytes before the first line feed, and the bytes after it. If there is none, all bytes are before it.
pub fn line(text: &[u8]) -> (&[u8], &[u8])
    ensures value { result.0.now ≡ (line_at text.now).value }
    ensures rest { result.1.now ≡ (line_at text.now).rest }
    ensures reads { ReadsLine text.now result.0.now result.1.now }
    ensures shorter { length result.1.now ≤ length text.now }
{
    let length = line_length(text);
    let first = &text[..length];
    (first, skip(&text[length..], 1))
}
