//! The headers of contents.

ghost use Rattle.cdc_amqp_frames.specs.Fields.{Finds};
ghost use Rattle.cdc_amqp_methods.specs.Contents as spec;

use cdc_amqp_frames::{bytes_at, long_at, short_at, u16_at, u64_at};

/// The header of a content, as far as a consumer needs it.
#[derive(Clone, Copy, Debug)]
pub struct ContentHeader<'a> {
    /// The size of the content, in bytes.
    pub size: u64,
    /// The fields of the property `headers`; empty if the content doesn't have it.
    pub headers: &'a [u8],
    /// The property `type`; empty if the content doesn't have it.
    pub message_type: &'a [u8],
}

// The bytes after a short string, if the content has it.
#[tactic(auto, unfolding(crate::specs::Contents::skipped))]
fn skip_short(is_there: bool, bytes: &[u8]) -> Option<&[u8]>
    ensures { Finds (λ x. x.now) result (spec.skipped is_there bytes.now) }
{
    if !is_there {
        return Some(bytes);
    }
    let (_, rest) = short_at(bytes)?;
    Some(rest)
}

// The bytes after `count` bytes, if the content has them.
#[tactic(auto, unfolding(crate::specs::Contents::past))]
fn skip_bytes(is_there: bool, count: usize, bytes: &[u8]) -> Option<&[u8]>
    ensures { Finds (λ x. x.now) result (spec.past is_there count bytes.now) }
{
    if !is_there {
        return Some(bytes);
    }
    let (_, rest) = bytes_at(count, bytes)?;
    Some(rest)
}

// The fields of a table and the bytes after it, if the content has it.
#[tactic(auto, unfolding(crate::specs::Contents::table_at))]
fn table_at(is_there: bool, bytes: &[u8]) -> Option<(&[u8], &[u8])>
    ensures { Finds (λ x. (x.0.now, x.1.now)) result (spec.table_at is_there bytes.now) }
{
    if !is_there {
        return Some((&[], bytes));
    }
    long_at(bytes)
}

// A short string, if the content has it.
#[tactic(auto, unfolding(crate::specs::Contents::text_at))]
fn text_at(is_there: bool, bytes: &[u8]) -> Option<&[u8]>
    ensures { Finds (λ x. x.now) result (spec.text_at is_there bytes.now) }
{
    if !is_there {
        return Some(&[]);
    }
    let (text, _) = short_at(bytes)?;
    Some(text)
}

// The bytes after delivery mode, priority, correlation id, reply-to, expiration, message id and timestamp.
#[tactic(auto, unfolding(crate::specs::Contents::to_type))]
fn to_type(flags: u16, bytes: &[u8]) -> Option<&[u8]>
    ensures { Finds (λ x. x.now) result (spec.to_type flags bytes.now) }
{
    let rest = skip_bytes(flags / 0x1000 % 2 == 1, 1, bytes)?;
    let rest = skip_bytes(flags / 0x800 % 2 == 1, 1, rest)?;
    let rest = skip_short(flags / 0x400 % 2 == 1, rest)?;
    let rest = skip_short(flags / 0x200 % 2 == 1, rest)?;
    let rest = skip_short(flags / 0x100 % 2 == 1, rest)?;
    let rest = skip_short(flags / 0x80 % 2 == 1, rest)?;
    skip_bytes(flags / 0x40 % 2 == 1, 8, rest)
}

// The fields of `headers`, and the bytes after it.
#[tactic(auto, unfolding(crate::specs::Contents::headers_at))]
fn headers_at(flags: u16, bytes: &[u8]) -> Option<(&[u8], &[u8])>
    ensures { Finds (λ x. (x.0.now, x.1.now)) result (spec.headers_at flags bytes.now) }
{
    let rest = skip_short(flags / 0x8000 % 2 == 1, bytes)?;
    let rest = skip_short(flags / 0x4000 % 2 == 1, rest)?;
    table_at(flags / 0x2000 % 2 == 1, rest)
}

// The header of a content of this size, from its flags on.
#[tactic(auto, unfolding(crate::specs::Contents::properties_at))]
fn properties_at(size: u64, flags: u16, bytes: &[u8]) -> Option<ContentHeader<'_>>
    ensures { Finds spec.view result (spec.properties_at size flags bytes.now) }
{
    let (headers, rest) = headers_at(flags, bytes)?;
    let rest = to_type(flags, rest)?;
    let message_type = text_at(flags / 0x20 % 2 == 1, rest)?;
    Some(ContentHeader {
        size,
        headers,
        message_type,
    })
}

/// The header of a content, in the payload of a frame. `None`: the payload is too short. Class and weight are ignored.
#[tactic(auto, unfolding(crate::specs::Contents::header_at))]
pub fn content_header(payload: &[u8]) -> Option<ContentHeader<'_>>
    ensures { Finds spec.view result (spec.header_at payload.now) }
{
    let (_, rest) = bytes_at(4, payload)?;
    let (size, rest) = u64_at(rest)?;
    let (flags, rest) = u16_at(rest)?;
    properties_at(size, flags, rest)
}
