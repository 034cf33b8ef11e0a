//! The text of a progress record.

ghost use Rattle.std.specs.Prelude.{◌≡◌, ◌↔◌, ◌++◌, IfOk, IfSome, IsTrue, MatchOption, decimal, string_bytes};
ghost use Rattle.std.specs.List.{flat_map};
ghost use Rattle.cdc_progress.specs.Records.{Saved, Fits, IsTextOf, first_text_of, text_of};

use crate::progress::Progress;
use cdc_codec::{number_64, skip};
use itoa::Buffer;
use std::alloc::{AllocError, Global};

fn push_number(text: &mut String, number: u64) -> Result<(), AllocError>
    ensures { IfOk result (λ _. string_bytes text.new ≡ string_bytes text.old ++ decimal number) }
{
    text.push_str(Buffer::new().format(number))
}

/// The text of a record: `tb-cdc 2 SESSION TIMESTAMP START` and a line feed, in decimal digits without leading zeros.
pub fn print(alloc: Global, progress: Progress) -> Result<String, AllocError>
    ensures { IfOk result (λ text. string_bytes text ≡ text_of progress) }
{
    let mut text = String::new(alloc);
    text.push_str("tb-cdc 2 ")?;
    push_number(&mut text, progress.session())?;
    text.push_str(" ")?;
    push_number(&mut text, progress.timestamp())?;
    text.push_str(" ")?;
    push_number(&mut text, progress.start())?;
    text.push_str("\n")?;
    Ok(text)
}

// Whether a text is made of these parts, one after another.
fn is_made_of(text: &[u8], parts: &[&str]) -> bool
    ensures { IsTrue result ↔ (text.now ≡ flat_map (λ part. part.now) parts.now) }
{
    let mut rest = text;
    for part in parts {
        match rest.strip_prefix(part.as_bytes()) {
            Some(after) => rest = after,
            None => return false,
        }
    }
    rest.is_empty()
}

// Whether a text is the line of a record.
fn is_line(text: &[u8], progress: Progress) -> bool
    ensures { IsTrue result ↔ (text.now ≡ text_of progress) }
{
    let (mut first, mut second, mut third) = (Buffer::new(), Buffer::new(), Buffer::new());
    let session = first.format(progress.session());
    let timestamp = second.format(progress.timestamp());
    let start = third.format(progress.start());
    is_made_of(
        text,
        &["tb-cdc 2 ", session, " ", timestamp, " ", start, "\n"],
    )
}

// Whether a text is the line of a record in the first version of the format, which has no start.
fn is_first_line(text: &[u8], progress: Progress) -> bool
    ensures { IsTrue result ↔ (text.now ≡ first_text_of progress) }
{
    let (mut first, mut second) = (Buffer::new(), Buffer::new());
    let session = first.format(progress.session());
    let timestamp = second.format(progress.timestamp());
    is_made_of(text, &["tb-cdc 1 ", session, " ", timestamp, "\n"])
}

// Whether a text is a record's.
fn is_text_of(text: &[u8], progress: Progress) -> bool
    ensures { IsTrue result ↔ IsTextOf progress text.now }
{
    if is_line(text, progress) {
        true
    } else if progress.start() > 0 {
        false
    } else {
        is_first_line(text, progress)
    }
}

/// Parses the text of a record, to the last byte; `None` for any other bytes. A record of the first version has no
/// start; its start is read as 0.
pub fn parse(bytes: &[u8]) -> Option<Progress>
    ensures record { MatchOption result
        ((saved : Saved) → Fits saved → ¬ (IsTextOf saved bytes.now))
        (λ saved. IsTextOf saved bytes.now) }
    ensures fits { IfSome result Fits }
{
    let (session, rest) = number_64(skip(bytes, 8));
    let (timestamp, rest) = number_64(rest);
    let (start, _) = number_64(rest);
    if timestamp > Progress::MAX_TIMESTAMP {
        return None;
    }
    if start > timestamp {
        return None;
    }
    let progress = Progress::new(session, timestamp, start);
    if is_text_of(bytes, progress) {
        Some(progress)
    } else {
        None
    }
}
