//! Frames: reading one from some bytes, and writing one.

ghost use Rattle.std.specs.Prelude.{◌≡◌, ◌++◌, ◌<◌, ◌^◌, length, OnOk};
ghost use Rattle.cdc_amqp_frames.specs.Frames as spec;
ghost use Rattle.cdc_amqp_frames.specs.Frames.{Gives, kind_byte, view_of};

use crate::errors::FrameFault;
use crate::fields::{bytes_at, u8_at, u16_at, u32_at};
use std::alloc::AllocError;

/// The last byte of each frame.
pub const FRAME_END: u8 = 0xce;

/// How many bytes a frame has besides its payload: kind, channel, size and end octet.
pub const FRAME_OVERHEAD: u32 = 8;

/// What a frame carries.
#[derive(Clone, Copy, Debug, PartialEq, Eq)]
pub enum FrameKind {
    /// A method.
    Method,
    /// The header of a content: its size and its properties.
    Header,
    /// A part of a content.
    Body,
    /// Nothing: the peer is alive.
    Heartbeat,
}

impl FrameKind {
    /// The first byte of a frame of this kind.
    pub fn byte(self) -> u8
        ensures { result ≡ kind_byte self }
    {
        match self {
            FrameKind::Method => 1,
            FrameKind::Header => 2,
            FrameKind::Body => 3,
            FrameKind::Heartbeat => 8,
        }
    }

    /// The kind of a frame whose first byte is this one.
    pub fn of_byte(byte: u8) -> Option<FrameKind>
        ensures { result ≡ spec.kind_of byte }
    {
        match byte {
            1 => Some(FrameKind::Method),
            2 => Some(FrameKind::Header),
            3 => Some(FrameKind::Body),
            8 => Some(FrameKind::Heartbeat),
            _ => None,
        }
    }
}

/// A frame that was read from a reader.
#[derive(Debug, Drop)]
pub struct Frame {
    /// What it carries.
    pub kind: FrameKind,
    /// The channel: 0 is the connection itself.
    pub channel: u16,
    /// The bytes that it carries.
    pub payload: Vec<u8>,
}

/// A frame within other bytes.
#[derive(Clone, Copy, Debug)]
pub struct FrameRef<'a> {
    /// What it carries.
    pub kind: FrameKind,
    /// The channel: 0 is the connection itself.
    pub channel: u16,
    /// The bytes that it carries.
    pub payload: &'a [u8],
}

/// The frame at the front of some bytes, and the bytes after it. `limit`: the greatest size of a payload, in bytes.
#[tactic(auto, unfolding(crate::specs::Frames::frame_at))]
pub fn first_frame(limit: u32, bytes: &[u8]) -> Result<(FrameRef<'_>, &[u8]), FrameFault>
    ensures { Gives (λ x. (view_of x.0, x.1.now)) result (spec.frame_at limit bytes.now) }
{
    let Some((kind, rest)) = u8_at(bytes) else {
        return Err(FrameFault::Incomplete);
    };
    let Some(kind) = FrameKind::of_byte(kind) else {
        return Err(FrameFault::UnknownKind);
    };
    let Some((channel, rest)) = u16_at(rest) else {
        return Err(FrameFault::Incomplete);
    };
    let Some((size, rest)) = u32_at(rest) else {
        return Err(FrameFault::Incomplete);
    };
    if size > limit {
        return Err(FrameFault::TooLong);
    }
    let Some((payload, rest)) = bytes_at(size as usize, rest) else {
        return Err(FrameFault::Incomplete);
    };
    let Some((end, rest)) = u8_at(rest) else {
        return Err(FrameFault::Incomplete);
    };
    if end != FRAME_END {
        return Err(FrameFault::NoEnd);
    }
    Ok((
        FrameRef {
            kind,
            channel,
            payload,
        },
        rest,
    ))
}

/// Appends a frame to the output.
pub fn push_frame(
    out: &mut Vec<u8>,
    kind: FrameKind,
    channel: u16,
    payload: &[u8],
) -> Result<(), AllocError>
    requires { length payload.now < 2 ^ 32 }
    ensures { OnOk result (out.new.items
        ≡ out.old.items ++ spec.frame (record { kind = kind; channel = channel; payload = payload.now })) }
{
    out.push(kind.byte())?;
    out.extend_from_slice(&channel.to_be_bytes())?;
    out.extend_from_slice(&(payload.len() as u32).to_be_bytes())?;
    out.extend_from_slice(payload)?;
    out.push(FRAME_END)?;
    Ok(())
}
