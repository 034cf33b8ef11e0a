//! The methods that a server sends to a consumer.

ghost use Rattle.std.specs.Prelude.{◌≡◌};
ghost use Rattle.cdc_amqp_methods.specs.Responses as spec;

use cdc_amqp_frames::{short_at, u8_at, u16_at, u32_at, u64_at};

/// A method that a server sends to a consumer, with the arguments that decide something.
#[derive(Clone, Copy, Debug, PartialEq, Eq)]
pub enum Response {
    /// `connection.start`
    Start,
    /// `connection.tune`: what the server proposes.
    Tune {
        /// The greatest number of a channel; 0 for no limit.
        channels: u16,
        /// The greatest size of a frame, in bytes; 0 for no limit.
        frame_max: u32,
        /// The time between heartbeats, in seconds; 0 for none.
        heartbeat: u16,
    },
    /// `connection.open-ok`
    OpenOk,
    /// `connection.close`, with its reply code.
    Close(u16),
    /// `connection.close-ok`
    CloseOk,
    /// `connection.blocked`: the server accepts no publishes.
    Blocked,
    /// `connection.unblocked`
    Unblocked,
    /// `channel.open-ok`
    ChannelOpenOk,
    /// `channel.close`, with its reply code.
    ChannelClose(u16),
    /// `channel.close-ok`
    ChannelCloseOk,
    /// `queue.declare-ok`
    DeclareOk,
    /// `basic.qos-ok`
    QosOk,
    /// `basic.consume-ok`
    ConsumeOk,
    /// `basic.cancel`: the server delivers no more, for example since the queue was deleted.
    Cancel,
    /// `basic.cancel-ok`
    CancelOk,
    /// `basic.deliver`; the content follows.
    Deliver {
        /// The delivery tag.
        tag: u64,
        /// Whether the message was delivered before.
        redelivered: bool,
    },
}

#[tactic(auto, unfolding(crate::specs::Responses::tune_at))]
fn tune_at(bytes: &[u8]) -> Option<Response>
    ensures { result ≡ spec.tune_at bytes.now }
{
    let (channels, rest) = u16_at(bytes)?;
    let (frame_max, rest) = u32_at(rest)?;
    let (heartbeat, _) = u16_at(rest)?;
    Some(Response::Tune {
        channels,
        frame_max,
        heartbeat,
    })
}

#[tactic(auto, unfolding(crate::specs::Responses::deliver_at))]
fn deliver_at(bytes: &[u8]) -> Option<Response>
    ensures { result ≡ spec.deliver_at bytes.now }
{
    let (_, rest) = short_at(bytes)?;
    let (tag, rest) = u64_at(rest)?;
    let (redelivered, _) = u8_at(rest)?;
    Some(Response::Deliver {
        tag,
        redelivered: redelivered != 0,
    })
}

// A method of the class `connection`.
#[tactic(auto, unfolding(crate::specs::Responses::connection_at))]
fn connection_at(method: u16, bytes: &[u8]) -> Option<Response>
    ensures { result ≡ spec.connection_at method bytes.now }
{
    match method {
        10 => Some(Response::Start),
        30 => tune_at(bytes),
        41 => Some(Response::OpenOk),
        50 => {
            let (code, _) = u16_at(bytes)?;
            Some(Response::Close(code))
        }
        51 => Some(Response::CloseOk),
        60 => Some(Response::Blocked),
        61 => Some(Response::Unblocked),
        _ => None,
    }
}

// A method of the class `channel`.
#[tactic(auto, unfolding(crate::specs::Responses::channel_at))]
fn channel_at(method: u16, bytes: &[u8]) -> Option<Response>
    ensures { result ≡ spec.channel_at method bytes.now }
{
    match method {
        11 => Some(Response::ChannelOpenOk),
        40 => {
            let (code, _) = u16_at(bytes)?;
            Some(Response::ChannelClose(code))
        }
        41 => Some(Response::ChannelCloseOk),
        _ => None,
    }
}

// A method of the class `basic`.
#[tactic(auto, unfolding(crate::specs::Responses::basic_at))]
fn basic_at(method: u16, bytes: &[u8]) -> Option<Response>
    ensures { result ≡ spec.basic_at method bytes.now }
{
    match method {
        11 => Some(Response::QosOk),
        21 => Some(Response::ConsumeOk),
        30 => Some(Response::Cancel),
        31 => Some(Response::CancelOk),
        60 => deliver_at(bytes),
        _ => None,
    }
}

// A method of the class `queue`.
fn queue_at(method: u16) -> Option<Response>
    ensures { result ≡ spec.queue_at method }
{
    match method {
        11 => Some(Response::DeclareOk),
        _ => None,
    }
}

#[tactic(auto, unfolding(crate::specs::Responses::arguments_at))]
fn arguments_at(class: u16, method: u16, bytes: &[u8]) -> Option<Response>
    ensures { result ≡ spec.arguments_at class method bytes.now }
{
    match class {
        10 => connection_at(method, bytes),
        20 => channel_at(method, bytes),
        50 => queue_at(method),
        60 => basic_at(method, bytes),
        _ => None,
    }
}

/// The method in the payload of a frame. `None`: it is cut off, or a server doesn't send it to a consumer. Further
/// arguments are ignored.
#[tactic(auto, unfolding(crate::specs::Responses::response_at))]
pub fn response_of(payload: &[u8]) -> Option<Response>
    ensures { result ≡ spec.response_at payload.now }
{
    let (class, rest) = u16_at(payload)?;
    let (method, rest) = u16_at(rest)?;
    arguments_at(class, method, rest)
}
