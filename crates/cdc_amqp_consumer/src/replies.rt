//! What a consumer sends while its connection is set up.

ghost use Rattle.std.specs.Prelude.{◌≡◌};
ghost use Rattle.cdc_amqp_consumer.specs.Replies as spec;

use cdc_amqp_methods::{Request, Response};

/// What a consumer awaits.
#[derive(Clone, Copy, Debug, PartialEq, Eq)]
pub enum Phase {
    /// `connection.start`
    Start,
    /// `connection.tune`
    Tune,
    /// `connection.open-ok`
    OpenOk,
    /// `channel.open-ok`
    ChannelOpenOk,
    /// `basic.qos-ok`
    QosOk,
    /// `queue.declare-ok`
    DeclareOk,
    /// `basic.consume-ok`
    ConsumeOk,
    /// `basic.deliver`
    Delivery,
    /// The header of a delivery's content.
    Header,
    /// More of a delivery's content.
    Body,
    /// `basic.cancel-ok`; deliveries are ignored.
    CancelOk,
    /// `connection.close-ok`; deliveries are ignored.
    CloseOk,
}

/// What a consumer asks for.
#[derive(Clone, Copy, Debug)]
pub struct Settings<'a> {
    /// The name of the user.
    pub user: &'a [u8],
    /// The user's password.
    pub password: &'a [u8],
    /// The virtual host.
    pub host: &'a [u8],
    /// The name of the queue.
    pub queue: &'a [u8],
    /// The greatest number of unacknowledged deliveries; 0 for no limit.
    pub prefetch: u16,
    /// The time between heartbeats, in seconds, if the server doesn't want a shorter one; 0 for none.
    pub heartbeat: u16,
}

/// What is sent, and what is awaited next.
#[derive(Clone, Copy, Debug)]
pub struct Reply<'a> {
    /// What is awaited next.
    pub phase: Phase,
    /// The first frame.
    pub first: Option<Request<'a>>,
    /// The frame after it.
    pub second: Option<Request<'a>>,
}

/// The greatest size of a frame that a consumer asks for, in bytes.
pub const FRAME_MAX: u32 = 131_072;

/// The greatest size of a frame that is negotiated if the server proposes this one; 0 is no limit.
pub fn agreed_frame_max(proposed: u32) -> u32
    ensures { result ≡ spec.agreed_frame_max proposed }
{
    if proposed == 0 {
        FRAME_MAX
    } else {
        proposed.min(FRAME_MAX)
    }
}

/// The time between heartbeats that is negotiated, in seconds, of the one that is wanted and the one that the server
/// proposes; 0 is none.
fn agreed_heartbeat(wanted: u16, proposed: u16) -> u16
    ensures { result ≡ spec.agreed_heartbeat wanted proposed }
{
    if proposed == 0 {
        wanted
    } else {
        wanted.min(proposed)
    }
}

/// The reply to a method of the server while the connection is set up. `None`: the server may not send it now.
#[tactic(auto, unfolding(crate::specs::Replies::reply_to))]
pub fn reply_to<'a>(settings: &Settings<'a>, phase: Phase, response: Response) -> Option<Reply<'a>>
    ensures { result ≡ spec.reply_to settings.now phase response }
{
    let (phase, first, second) = match (phase, response) {
        (Phase::Start, Response::Start) => {
            let user = settings.user;
            let password = settings.password;
            (Phase::Tune, Some(Request::StartOk { user, password }), None)
        }
        (
            Phase::Tune,
            Response::Tune {
                frame_max,
                heartbeat,
                ..
            },
        ) => {
            let frame_max = agreed_frame_max(frame_max);
            let heartbeat = agreed_heartbeat(settings.heartbeat, heartbeat);
            let host = settings.host;
            (
                Phase::OpenOk,
                Some(Request::TuneOk {
                    frame_max,
                    heartbeat,
                }),
                Some(Request::Open { host }),
            )
        }
        (Phase::OpenOk, Response::OpenOk) => {
            (Phase::ChannelOpenOk, Some(Request::ChannelOpen), None)
        }
        (Phase::ChannelOpenOk, Response::ChannelOpenOk) => {
            let prefetch = settings.prefetch;
            (Phase::QosOk, Some(Request::Qos { prefetch }), None)
        }
        (Phase::QosOk, Response::QosOk) => {
            let queue = settings.queue;
            (Phase::DeclareOk, Some(Request::Declare { queue }), None)
        }
        (Phase::DeclareOk, Response::DeclareOk) => {
            let queue = settings.queue;
            (Phase::ConsumeOk, Some(Request::Consume { queue }), None)
        }
        (Phase::ConsumeOk, Response::ConsumeOk) => (Phase::Delivery, None, None),
        _ => return None,
    };
    Some(Reply {
        phase,
        first,
        second,
    })
}
