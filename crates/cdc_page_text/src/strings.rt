//! Strings of JSON inside a page of HTML.

ghost use Rattle.std.specs.Prelude.{◌≡◌, ◌++◌, ◌∷◌, ◌<◌, [], All, List, OnOk, ℕ, decimal};
ghost use Rattle.cdc_page_text.specs.Reading.{Reads};
ghost use Rattle.cdc_page_text.specs.Strings as spec;
ghost use Rattle.cdc_page_text.specs.Strings.{IsSafe, QUOTE, escaped, unit};

use itoa::Buffer;
use std::alloc::AllocError;

/// Adds a part of a page as it is. An error means out of memory.
pub fn push(page: &mut Vec<u8>, part: &str) -> Result<(), AllocError>
    ensures { OnOk result (page.new.items ≡ page.old.items ++ part.now) }
{
    page.extend_from_slice(part.as_bytes())
}

/// Adds a number in decimal digits. An error means out of memory.
pub fn push_number(page: &mut Vec<u8>, number: u128) -> Result<(), AllocError>
    ensures { OnOk result (page.new.items ≡ page.old.items ++ decimal number) }
{
    push(page, Buffer::new().format(number))
}

/// Adds bytes as the inside of a string of JSON: the caller writes the quotes. Whatever the bytes are, no byte that is
/// added is a quote, an angle bracket or an ampersand, or is outside printable ASCII, and a reader of JSON takes the
/// same bytes, each as one character, up to the closing quote. An error means out of memory.
pub fn push_escaped(page: &mut Vec<u8>, bytes: &[u8]) -> Result<(), AllocError>
    ensures text { OnOk result (page.new.items ≡ page.old.items ++ escaped bytes.now) }
    ensures safe { All IsSafe (escaped bytes.now) }
    ensures read { (rest : List ℕ) → Reads (escaped bytes.now ++ QUOTE ∷ rest) bytes.now rest }
{
    for byte in bytes {
        push_unit(page, *byte)?;
    }
    Ok(())
}

/// Adds a byte: itself, or its number in hexadecimal digits.
fn push_unit(page: &mut Vec<u8>, byte: u8) -> Result<(), AllocError>
    ensures { OnOk result (page.new.items ≡ page.old.items ++ unit byte) }
{
    if is_plain(byte) {
        page.push(byte)?;
        return Ok(());
    }
    push(page, "\\u00")?;
    page.push(digit(byte / 16))?;
    page.push(digit(byte % 16))?;
    Ok(())
}

/// Whether a byte stands for itself: printable ASCII without quotes, the backslash and what HTML reads.
fn is_plain(byte: u8) -> bool
    ensures { result ≡ spec.is_plain byte }
{
    matches!(byte, b' '..=b'~') && !matches!(byte, b'"' | b'\\' | b'<' | b'>' | b'&' | b'\'')
}

/// The hexadecimal digit of a number up to 15.
fn digit(number: u8) -> u8
    requires { number < 16 }
    ensures { result ≡ spec.digit number }
{
    if number < 10 {
        b'0' + number
    } else {
        b'a' - 10 + number
    }
}
