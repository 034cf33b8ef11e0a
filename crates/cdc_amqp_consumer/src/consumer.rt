//! A consumer as a state machine.

ghost use Rattle.std.specs.Prelude.{◌≡◌, take, Ok, Some};
ghost use Rattle.std.specs.Option.{option_map};
ghost use Rattle.cdc_amqp_methods.specs.Contents.{view};
ghost use Rattle.cdc_amqp_consumer.specs.Machine as spec;
ghost use Rattle.cdc_amqp_consumer.specs.Machine.{Moves, begins, closing};

use crate::errors::{ConsumeError, ConsumeFault};
use crate::replies::{FRAME_MAX, Phase, Reply, Settings, reply_to};
use cdc_amqp_frames::{FRAME_OVERHEAD, FrameKind};
use cdc_amqp_methods::{ContentHeader, Request, Response, content_header, response_of};
use std::alloc::Global;
use std::marker::Model;

/// How many bytes of a content are kept, at most. It is one more than an entry of a stream may have, so a longer
/// content is refused as too long.
pub const MOST_KEPT: usize = 65_537;

/// How a consumer ends.
#[derive(Clone, Copy, Debug, PartialEq, Eq)]
pub enum End {
    /// The server closed the connection, with this reply code.
    Closed(u16),
    /// The server closed the channel, with this reply code.
    ChannelClosed(u16),
    /// The server canceled the consumer, for example since the queue was deleted.
    Canceled,
    /// The consumer closed the connection, and the server has answered.
    Finished,
}

/// What came of a frame.
#[derive(Clone, Copy, Debug, PartialEq, Eq)]
pub enum Outcome {
    /// Further frames are awaited.
    GoesOn,
    /// A delivery is complete. The consumer has its content and its properties.
    Delivered,
    /// No further frame is awaited.
    Ended(End),
}

/// What came of a frame, and what to send.
#[derive(Clone, Copy, Debug)]
pub struct Done<'a> {
    /// What came of the frame.
    pub outcome: Outcome,
    /// What to send first.
    pub first: Option<Request<'a>>,
    /// What to send after it.
    pub second: Option<Request<'a>>,
}

/// Nothing is sent.
fn silent<'a>(outcome: Outcome) -> Done<'a>
    ensures { result ≡ record { outcome = outcome; first = None; second = None } }
{
    Done {
        outcome,
        first: None,
        second: None,
    }
}

/// One frame is sent.
fn answer<'a>(outcome: Outcome, request: Request<'a>) -> Done<'a>
    ensures { result ≡ record { outcome = outcome; first = Some request.entry; second = None } }
{
    Done {
        outcome,
        first: Some(request),
        second: None,
    }
}

/// The first bytes of a text, at most this many.
fn first_bytes(count: usize, bytes: &[u8]) -> &[u8]
    ensures { result.now ≡ take count bytes.now }
{
    if count < bytes.len() {
        &bytes[..count]
    } else {
        bytes
    }
}

/// The channel on which a method comes.
fn channel_of(response: &Response) -> u16
    ensures { result ≡ spec.channel_of response.now }
{
    match response {
        Response::Start
        | Response::Tune { .. }
        | Response::OpenOk
        | Response::Close(_)
        | Response::CloseOk
        | Response::Blocked
        | Response::Unblocked => 0,
        _ => 1,
    }
}

/// A consumer of one queue, on one connection.
pub struct Consumer {
    phase: Phase,
    /// The greatest size of a frame, in bytes.
    frame_max: u32,
    /// The number of complete deliveries, which is the tag of the last one.
    delivered: u64,
    /// The tag of the current delivery, or the last one.
    tag: u64,
    /// Whether it was delivered before.
    redelivered: bool,
    /// How many bytes of its content are to come.
    left: u64,
    /// The fields of its property `headers`.
    headers: Vec<u8>,
    /// Its property `type`.
    message_type: Vec<u8>,
    /// Its content, as far as it came and is kept.
    content: Vec<u8>,
}

impl Drop for Consumer {
    fn drop(self) {
        let Consumer {
            phase: _,
            frame_max: _,
            delivered: _,
            tag: _,
            redelivered: _,
            left: _,
            headers: _,
            message_type: _,
            content: _,
        } = self;
    }
}

impl Model for Consumer {
    ghost use Rattle.cdc_amqp_consumer.specs.Machine.{State};

    ghost Value = { State };

    ghost view = { λ c. record {
      phase = c.phase;
      frame_max = c.frame_max;
      delivered = c.delivered;
      tag = c.tag;
      redelivered = c.redelivered;
      left = c.left;
      headers = c.headers.items;
      message_type = c.message_type.items;
      content = c.content.items;
    } };
}

impl Consumer {
    /// A consumer whose connection is to be set up.
    pub fn new(alloc: Global) -> Consumer
        ensures { result ≡ begins }
    {
        Consumer {
            phase: Phase::Start,
            frame_max: FRAME_MAX,
            delivered: 0,
            tag: 0,
            redelivered: false,
            left: 0,
            headers: Vec::new(alloc),
            message_type: Vec::new(alloc),
            content: Vec::new(alloc),
        }
    }

    /// The number of complete deliveries, which is the tag of the last one.
    pub fn delivered(&self) -> u64
        ensures { result ≡ self.now.delivered }
    {
        self.delivered
    }

    /// The greatest size of a frame's payload, in bytes.
    pub fn payload_limit(&self) -> u32
        ensures { result ≡ spec.payload_limit self.now }
    {
        self.frame_max.saturating_sub(FRAME_OVERHEAD)
    }

    /// The tag of the last delivery.
    pub fn tag(&self) -> u64
        ensures { result ≡ self.now.tag }
    {
        self.tag
    }

    /// Whether the last delivery was delivered before.
    pub fn redelivered(&self) -> bool
        ensures { result ≡ self.now.redelivered }
    {
        self.redelivered
    }

    /// The fields of the property `headers` of the last delivery.
    pub fn headers(&self) -> &[u8]
        ensures { result.now ≡ self.now.headers }
    {
        self.headers.as_slice()
    }

    /// The property `type` of the last delivery.
    pub fn message_type(&self) -> &[u8]
        ensures { result.now ≡ self.now.message_type }
    {
        self.message_type.as_slice()
    }

    /// The content of the last delivery, or its first `MOST_KEPT` bytes.
    pub fn content(&self) -> &[u8]
        ensures { result.now ≡ self.now.content }
    {
        self.content.as_slice()
    }

    /// Begins to close, once `Request::Cancel` is to be sent. The server's answers lead to `End::Finished`; deliveries
    /// are ignored.
    pub fn close(&mut self)
        ensures { self.new ≡ closing self.old }
    {
        self.phase = Phase::CancelOk;
    }

    /// Whether the consumer awaits a delivery: it is set up, and no delivery is under way.
    pub fn awaits_delivery(&self) -> bool
        ensures { result ≡ spec.awaits_delivery self.now.phase }
    {
        match self.phase {
            Phase::Delivery => true,
            _ => false,
        }
    }

    /// Takes a frame. After an error it may not take another one.
    #[tactic(auto, unfolding(crate::specs::Machine::received))]
    pub fn receive<'a>(
        &mut self,
        settings: &Settings<'a>,
        kind: FrameKind,
        channel: u16,
        payload: &[u8],
    ) -> Result<Done<'a>, ConsumeError>
        ensures { Moves (spec.received settings.now self.old kind channel payload.now) self.new result }
    {
        match kind {
            FrameKind::Method => self.receive_response(settings, channel, response_of(payload)),
            FrameKind::Header if channel == 1 => self.receive_header(content_header(payload)),
            FrameKind::Body if channel == 1 => self.receive_body(payload),
            FrameKind::Heartbeat if channel == 0 => {
                Ok(answer(Outcome::GoesOn, Request::Heartbeat))
            }
            FrameKind::Header | FrameKind::Body | FrameKind::Heartbeat => {
                Err(ConsumeError::Fault(ConsumeFault::WrongChannel))
            }
        }
    }

    #[tactic(auto, unfolding(crate::specs::Machine::response_turn))]
    fn receive_response<'a>(
        &mut self,
        settings: &Settings<'a>,
        channel: u16,
        response: Option<Response>,
    ) -> Result<Done<'a>, ConsumeError>
        ensures { Moves (spec.response_turn settings.now self.old channel response) self.new result }
    {
        let Some(response) = response else {
            return Err(ConsumeError::Fault(ConsumeFault::UnknownMethod));
        };
        if channel != channel_of(&response) {
            return Err(ConsumeError::Fault(ConsumeFault::WrongChannel));
        }
        self.receive_method(settings, response)
    }

    #[tactic(auto, unfolding(crate::specs::Machine::method_turn))]
    fn receive_method<'a>(
        &mut self,
        settings: &Settings<'a>,
        response: Response,
    ) -> Result<Done<'a>, ConsumeError>
        ensures { Moves (spec.method_turn settings.now self.old response) self.new result }
    {
        match response {
            Response::Blocked | Response::Unblocked => Ok(silent(Outcome::GoesOn)),
            Response::Close(code) => Ok(answer(
                Outcome::Ended(End::Closed(code)),
                Request::CloseOk,
            )),
            Response::ChannelClose(code) => Ok(Done {
                outcome: Outcome::Ended(End::ChannelClosed(code)),
                first: Some(Request::ChannelCloseOk),
                second: Some(Request::Close),
            }),
            Response::Cancel => Ok(answer(Outcome::Ended(End::Canceled), Request::Close)),
            Response::CancelOk => self.receive_canceled(),
            Response::CloseOk => self.receive_closed(),
            Response::Deliver { tag, redelivered } => self.receive_delivery(tag, redelivered),
            _ => self.set_up(reply_to(settings, self.phase, response)),
        }
    }

    #[tactic(auto, unfolding(crate::specs::Machine::setup_turn))]
    fn set_up<'a>(&mut self, reply: Option<Reply<'a>>) -> Result<Done<'a>, ConsumeError>
        ensures { Moves (spec.setup_turn self.old reply.entry) self.new result }
    {
        let Some(reply) = reply else {
            return Err(ConsumeError::Fault(ConsumeFault::Unexpected));
        };
        self.phase = reply.phase;
        if let Some(Request::TuneOk { frame_max, .. }) = reply.first {
            self.frame_max = frame_max;
        }
        Ok(Done {
            outcome: Outcome::GoesOn,
            first: reply.first,
            second: reply.second,
        })
    }

    #[tactic(auto, unfolding(crate::specs::Machine::canceled_turn))]
    fn receive_canceled<'a>(&mut self) -> Result<Done<'a>, ConsumeError>
        ensures { Moves (spec.canceled_turn self.old self.old.phase) self.new result }
    {
        match self.phase {
            Phase::CancelOk => {
                self.phase = Phase::CloseOk;
                Ok(answer(Outcome::GoesOn, Request::Close))
            }
            _ => Err(ConsumeError::Fault(ConsumeFault::Unexpected)),
        }
    }

    #[tactic(auto, unfolding(crate::specs::Machine::closed_turn))]
    fn receive_closed<'a>(&mut self) -> Result<Done<'a>, ConsumeError>
        ensures { Moves (spec.closed_turn self.old self.old.phase) self.new result }
    {
        match self.phase {
            Phase::CloseOk => Ok(silent(Outcome::Ended(End::Finished))),
            _ => Err(ConsumeError::Fault(ConsumeFault::Unexpected)),
        }
    }

    #[tactic(auto, unfolding(crate::specs::Machine::delivery_turn))]
    fn receive_delivery<'a>(
        &mut self,
        tag: u64,
        redelivered: bool,
    ) -> Result<Done<'a>, ConsumeError>
        ensures { Moves (spec.delivery_turn self.old self.old.phase tag redelivered) self.new result }
    {
        match self.phase {
            Phase::Delivery => {}
            Phase::CancelOk | Phase::CloseOk => return Ok(silent(Outcome::GoesOn)),
            _ => return Err(ConsumeError::Fault(ConsumeFault::Unexpected)),
        }
        if self.delivered == u64::MAX || tag != self.delivered + 1 {
            return Err(ConsumeError::Fault(ConsumeFault::WrongTag));
        }
        self.phase = Phase::Header;
        self.tag = tag;
        self.redelivered = redelivered;
        Ok(silent(Outcome::GoesOn))
    }

    #[tactic(auto, unfolding(crate::specs::Machine::header_turn))]
    fn receive_header<'a>(
        &mut self,
        header: Option<ContentHeader<'_>>,
    ) -> Result<Done<'a>, ConsumeError>
        ensures { Moves (spec.header_turn self.old self.old.phase (option_map view header.entry)) self.new result }
    {
        match self.phase {
            Phase::Header => {}
            Phase::CancelOk | Phase::CloseOk => return Ok(silent(Outcome::GoesOn)),
            _ => return Err(ConsumeError::Fault(ConsumeFault::Unexpected)),
        }
        let Some(header) = header else {
            return Err(ConsumeError::Fault(ConsumeFault::BadHeader));
        };
        self.headers.clear();
        self.headers.extend_from_slice(header.headers)?;
        self.message_type.clear();
        self.message_type.extend_from_slice(header.message_type)?;
        self.content.clear();
        self.left = header.size;
        Ok(self.fill())
    }

    #[tactic(auto, unfolding(crate::specs::Machine::body_turn))]
    fn receive_body<'a>(&mut self, payload: &[u8]) -> Result<Done<'a>, ConsumeError>
        ensures { Moves (spec.body_turn self.old self.old.phase payload.now) self.new result }
    {
        match self.phase {
            Phase::Body => {}
            Phase::CancelOk | Phase::CloseOk => return Ok(silent(Outcome::GoesOn)),
            _ => return Err(ConsumeError::Fault(ConsumeFault::Unexpected)),
        }
        if payload.len() as u64 > self.left {
            return Err(ConsumeError::Fault(ConsumeFault::TooMuch));
        }
        let room = MOST_KEPT.saturating_sub(self.content.len());
        self.content.extend_from_slice(first_bytes(room, payload))?;
        self.left -= payload.len() as u64;
        Ok(self.fill())
    }

    /// Completes the current delivery, unless bytes of its content are to come.
    #[tactic(auto, unfolding(crate::specs::Machine::filled))]
    fn fill<'a>(&mut self) -> Done<'a>
        ensures { spec.filled self.old ≡ Ok (record { state = self.new; done = result }) }
    {
        if self.left == 0 {
            self.phase = Phase::Delivery;
            self.delivered = self.tag;
            silent(Outcome::Delivered)
        } else {
            self.phase = Phase::Body;
            silent(Outcome::GoesOn)
        }
    }
}
