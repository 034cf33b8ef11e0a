//! The methods that a consumer sends, and heartbeats.

ghost use Rattle.std.specs.Prelude.{◌≡◌, ◌++◌, ◌<◌, ◌^◌, [], ◌∷◌, length, OnOk};
ghost use Rattle.cdc_amqp_frames.specs.Fields.{long, short};
ghost use Rattle.cdc_amqp_methods.specs.Requests as spec;
ghost use Rattle.cdc_amqp_methods.specs.Requests.{Fits, frame_of, payload_of};

use cdc_amqp_frames::{FrameKind, push_frame};
use std::alloc::{AllocError, Global};

/// The tag of the one consumer on the channel.
pub const CONSUMER_TAG: &[u8] = b"relayplum";

/// What the client states about itself: its name, and that it understands `basic.cancel`, `connection.blocked` and a
/// `connection.close` that refuses its credentials.
pub const PROPERTIES: &[u8] =
    b"\x07productS\x00\x00\x00\x09relayplum\x0ccapabilitiesF\x00\x00\x00\x4d\
    \x16consumer_cancel_notifyt\x01\x12connection.blockedt\x01\x1cauthentication_failure_closet\x01";

/// A frame that a consumer sends.
#[derive(Clone, Copy, Debug)]
pub enum Request<'a> {
    /// `connection.start-ok`: credentials, by the mechanism PLAIN.
    StartOk {
        /// The name of the user.
        user: &'a [u8],
        /// The user's password.
        password: &'a [u8],
    },
    /// `connection.tune-ok`: one channel, and what is negotiated.
    TuneOk {
        /// The greatest size of a frame, in bytes.
        frame_max: u32,
        /// The time between heartbeats, in seconds; 0 for none.
        heartbeat: u16,
    },
    /// `connection.open`
    Open {
        /// The virtual host.
        host: &'a [u8],
    },
    /// `channel.open`
    ChannelOpen,
    /// `basic.qos`
    Qos {
        /// The greatest number of unacknowledged deliveries; 0 for no limit.
        prefetch: u16,
    },
    /// `queue.declare`, passive: whether the queue exists.
    Declare {
        /// The name of the queue.
        queue: &'a [u8],
    },
    /// `basic.consume`
    Consume {
        /// The name of the queue.
        queue: &'a [u8],
    },
    /// `basic.ack` of all deliveries up to this tag.
    Ack {
        /// The delivery tag.
        tag: u64,
    },
    /// `basic.reject` of the delivery with this tag, which isn't queued again: the queue's dead-letter exchange gets the
    /// message, if it has one.
    Reject {
        /// The delivery tag.
        tag: u64,
    },
    /// `basic.cancel` of the consumer.
    Cancel,
    /// `connection.close`, with no fault.
    Close,
    /// `connection.close-ok`
    CloseOk,
    /// `channel.close-ok`
    ChannelCloseOk,
    /// A heartbeat.
    Heartbeat,
}

fn push_ids(out: &mut Vec<u8>, class: u8, method: u8) -> Result<(), AllocError>
    ensures { OnOk result (out.new.items ≡ out.old.items ++ (0 ∷ class ∷ 0 ∷ method ∷ [])) }
{
    out.extend_from_slice(&[0, class, 0, method])?;
    Ok(())
}

fn push_short(out: &mut Vec<u8>, text: &[u8]) -> Result<(), AllocError>
    requires { length text.now < 256 }
    ensures { OnOk result (out.new.items ≡ out.old.items ++ short text.now) }
{
    out.push(text.len() as u8)?;
    out.extend_from_slice(text)?;
    Ok(())
}

fn push_long(out: &mut Vec<u8>, text: &[u8]) -> Result<(), AllocError>
    requires { length text.now < 2 ^ 32 }
    ensures { OnOk result (out.new.items ≡ out.old.items ++ long text.now) }
{
    out.extend_from_slice(&(text.len() as u32).to_be_bytes())?;
    out.extend_from_slice(text)?;
    Ok(())
}

// The credentials, as a long string.
fn push_login(out: &mut Vec<u8>, user: &[u8], password: &[u8]) -> Result<(), AllocError>
    requires user { length user.now < 2 ^ 16 }
    requires password { length password.now < 2 ^ 16 }
    ensures { OnOk result (out.new.items ≡ out.old.items ++ spec.login user.now password.now) }
{
    out.extend_from_slice(&((user.len() + password.len() + 2) as u32).to_be_bytes())?;
    out.push(0)?;
    out.extend_from_slice(user)?;
    out.push(0)?;
    out.extend_from_slice(password)?;
    Ok(())
}

fn push_start_ok(out: &mut Vec<u8>, user: &[u8], password: &[u8]) -> Result<(), AllocError>
    requires user { length user.now < 2 ^ 16 }
    requires password { length password.now < 2 ^ 16 }
    ensures { OnOk result (out.new.items ≡ out.old.items ++ spec.start_ok user.now password.now) }
{
    push_ids(out, 10, 11)?;
    push_long(out, PROPERTIES)?;
    push_short(out, b"PLAIN")?;
    push_login(out, user, password)?;
    push_short(out, b"en_US")?;
    Ok(())
}

fn push_tune_ok(out: &mut Vec<u8>, frame_max: u32, heartbeat: u16) -> Result<(), AllocError>
    ensures { OnOk result (out.new.items ≡ out.old.items ++ spec.tune_ok frame_max heartbeat) }
{
    push_ids(out, 10, 31)?;
    out.extend_from_slice(&[0, 1])?;
    out.extend_from_slice(&frame_max.to_be_bytes())?;
    out.extend_from_slice(&heartbeat.to_be_bytes())?;
    Ok(())
}

fn push_open(out: &mut Vec<u8>, host: &[u8]) -> Result<(), AllocError>
    requires { length host.now < 256 }
    ensures { OnOk result (out.new.items ≡ out.old.items ++ spec.open_host host.now) }
{
    push_ids(out, 10, 40)?;
    push_short(out, host)?;
    out.extend_from_slice(&[0, 0])?;
    Ok(())
}

fn push_qos(out: &mut Vec<u8>, prefetch: u16) -> Result<(), AllocError>
    ensures { OnOk result (out.new.items ≡ out.old.items ++ spec.qos prefetch) }
{
    push_ids(out, 60, 10)?;
    out.extend_from_slice(&[0, 0, 0, 0])?;
    out.extend_from_slice(&prefetch.to_be_bytes())?;
    out.push(0)?;
    Ok(())
}

fn push_declare(out: &mut Vec<u8>, queue: &[u8]) -> Result<(), AllocError>
    requires { length queue.now < 256 }
    ensures { OnOk result (out.new.items ≡ out.old.items ++ spec.declare queue.now) }
{
    push_ids(out, 50, 10)?;
    out.extend_from_slice(&[0, 0])?;
    push_short(out, queue)?;
    out.extend_from_slice(&[1, 0, 0, 0, 0])?;
    Ok(())
}

fn push_consume(out: &mut Vec<u8>, queue: &[u8]) -> Result<(), AllocError>
    requires { length queue.now < 256 }
    ensures { OnOk result (out.new.items ≡ out.old.items ++ spec.consume queue.now) }
{
    push_ids(out, 60, 20)?;
    out.extend_from_slice(&[0, 0])?;
    push_short(out, queue)?;
    push_short(out, CONSUMER_TAG)?;
    out.extend_from_slice(&[0, 0, 0, 0, 0])?;
    Ok(())
}

fn push_ack(out: &mut Vec<u8>, tag: u64) -> Result<(), AllocError>
    ensures { OnOk result (out.new.items ≡ out.old.items ++ spec.ack tag) }
{
    push_ids(out, 60, 80)?;
    out.extend_from_slice(&tag.to_be_bytes())?;
    out.push(1)?;
    Ok(())
}

fn push_reject(out: &mut Vec<u8>, tag: u64) -> Result<(), AllocError>
    ensures { OnOk result (out.new.items ≡ out.old.items ++ spec.reject tag) }
{
    push_ids(out, 60, 90)?;
    let tag = tag.to_be_bytes();
    out.extend_from_slice(&tag)?;
    out.extend_from_slice(&[0])?;
    Ok(())
}

fn push_cancel(out: &mut Vec<u8>) -> Result<(), AllocError>
    ensures { OnOk result (out.new.items ≡ out.old.items ++ spec.cancel) }
{
    push_ids(out, 60, 30)?;
    push_short(out, CONSUMER_TAG)?;
    out.push(0)?;
    Ok(())
}

fn push_close(out: &mut Vec<u8>) -> Result<(), AllocError>
    ensures { OnOk result (out.new.items ≡ out.old.items ++ spec.close) }
{
    push_ids(out, 10, 50)?;
    out.extend_from_slice(&[0, 200, 0, 0, 0, 0, 0])?;
    Ok(())
}

fn push_channel_open(out: &mut Vec<u8>) -> Result<(), AllocError>
    ensures { OnOk result (out.new.items ≡ out.old.items ++ spec.channel_open) }
{
    push_ids(out, 20, 10)?;
    out.push(0)?;
    Ok(())
}

fn push_payload(out: &mut Vec<u8>, request: &Request<'_>) -> Result<(), AllocError>
    requires { Fits request.now }
    ensures { OnOk result (out.new.items ≡ out.old.items ++ payload_of request.now) }
{
    match *request {
        Request::StartOk { user, password } => push_start_ok(out, user, password),
        Request::TuneOk {
            frame_max,
            heartbeat,
        } => push_tune_ok(out, frame_max, heartbeat),
        Request::Open { host } => push_open(out, host),
        Request::ChannelOpen => push_channel_open(out),
        Request::Qos { prefetch } => push_qos(out, prefetch),
        Request::Declare { queue } => push_declare(out, queue),
        Request::Consume { queue } => push_consume(out, queue),
        Request::Ack { tag } => push_ack(out, tag),
        Request::Reject { tag } => push_reject(out, tag),
        Request::Cancel => push_cancel(out),
        Request::Close => push_close(out),
        Request::CloseOk => push_ids(out, 10, 51),
        Request::ChannelCloseOk => push_ids(out, 20, 41),
        Request::Heartbeat => Ok(()),
    }
}

// The channel of a request: 0 is the connection itself, 1 the channel of the consumer.
fn channel_of(request: &Request<'_>) -> u16
    ensures { result ≡ spec.channel_of request.now }
{
    match request {
        Request::StartOk { .. }
        | Request::TuneOk { .. }
        | Request::Open { .. }
        | Request::Close
        | Request::CloseOk
        | Request::Heartbeat => 0,
        Request::ChannelOpen
        | Request::Qos { .. }
        | Request::Declare { .. }
        | Request::Consume { .. }
        | Request::Ack { .. }
        | Request::Reject { .. }
        | Request::Cancel
        | Request::ChannelCloseOk => 1,
    }
}

fn kind_of(request: &Request<'_>) -> FrameKind
    ensures { result ≡ spec.kind_of request.now }
{
    match request {
        Request::Heartbeat => FrameKind::Heartbeat,
        _ => FrameKind::Method,
    }
}

/// Appends the frame of a request to the output. The texts of the request have to fit their fields: user and password
/// have fewer than 65536 bytes, virtual host and queue fewer than 256.
pub fn push_request(
    alloc: Global,
    out: &mut Vec<u8>,
    request: &Request<'_>,
) -> Result<(), AllocError>
    requires { Fits request.now }
    ensures { OnOk result (out.new.items ≡ out.old.items ++ frame_of request.now) }
{
    let mut payload = Vec::new(alloc);
    push_payload(&mut payload, request)?;
    push_frame(out, kind_of(request), channel_of(request), &payload)
}
