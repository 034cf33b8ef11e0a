//! Reading the fields of AMQP from the front of some bytes. Each function returns a field and the bytes after it, or
//! `None` if there are too few bytes.

ghost use Rattle.std.specs.Int.{w16, w32, w64};
ghost use Rattle.cdc_amqp_frames.specs.Fields as spec;
ghost use Rattle.cdc_amqp_frames.specs.Fields.{Finds, number_at};

/// A number of one byte.
pub fn u8_at(bytes: &[u8]) -> Option<(u8, &[u8])>
    ensures { Finds (λ x. (x.0, x.1.now)) result (spec.u8_at bytes.now) }
{
    match bytes {
        [] => None,
        [first, rest @ ..] => Some((*first, rest)),
    }
}

/// A number of 16 bits, in big-endian order.
pub fn u16_at(bytes: &[u8]) -> Option<(u16, &[u8])>
    ensures { Finds (λ x. (x.0, x.1.now)) result (number_at w16 bytes.now) }
{
    if bytes.len() < 2 {
        return None;
    }
    let (front, rest) = bytes.split_at(2);
    Some((u16::from_be_bytes([front[0], front[1]]), rest))
}

/// A number of 32 bits, in big-endian order.
pub fn u32_at(bytes: &[u8]) -> Option<(u32, &[u8])>
    ensures { Finds (λ x. (x.0, x.1.now)) result (number_at w32 bytes.now) }
{
    if bytes.len() < 4 {
        return None;
    }
    let (front, rest) = bytes.split_at(4);
    let number = u32::from_be_bytes([front[0], front[1], front[2], front[3]]);
    Some((number, rest))
}

/// A number of 64 bits, in big-endian order.
pub fn u64_at(bytes: &[u8]) -> Option<(u64, &[u8])>
    ensures { Finds (λ x. (x.0, x.1.now)) result (number_at w64 bytes.now) }
{
    if bytes.len() < 8 {
        return None;
    }
    let (front, rest) = bytes.split_at(8);
    let number = u64::from_be_bytes([
        front[0], front[1], front[2], front[3], front[4], front[5], front[6], front[7],
    ]);
    Some((number, rest))
}

/// The first `count` bytes.
pub fn bytes_at(count: usize, bytes: &[u8]) -> Option<(&[u8], &[u8])>
    ensures { Finds (λ x. (x.0.now, x.1.now)) result (spec.bytes_at count bytes.now) }
{
    if bytes.len() < count {
        return None;
    }
    Some(bytes.split_at(count))
}

/// A short string: one byte with its length, then its bytes.
#[tactic(auto, unfolding(crate::specs::Fields::short_at))]
pub fn short_at(bytes: &[u8]) -> Option<(&[u8], &[u8])>
    ensures { Finds (λ x. (x.0.now, x.1.now)) result (spec.short_at bytes.now) }
{
    let (count, rest) = u8_at(bytes)?;
    bytes_at(usize::from(count), rest)
}

/// A long string or a table: four bytes with its length, then its bytes.
#[tactic(auto, unfolding(crate::specs::Fields::long_at))]
pub fn long_at(bytes: &[u8]) -> Option<(&[u8], &[u8])>
    ensures { Finds (λ x. (x.0.now, x.1.now)) result (spec.long_at bytes.now) }
{
    let (count, rest) = u32_at(bytes)?;
    bytes_at(count as usize, rest)
}
