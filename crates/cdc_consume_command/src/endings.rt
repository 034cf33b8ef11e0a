//! How consuming a queue ends.

ghost use Rattle.std.specs.Prelude.{◌≡◌};
ghost use Rattle.cdc_consume_command.specs.Endings as spec;
ghost use Rattle.cdc_consume_command.specs.Endings.{IsOutcome};

use cdc_amqp_consumer::End;
use cdc_amqp_dialogue::{ConsumeFailure, Reason, Refusal};
use cdc_amqp_frames::FrameFault;
use cdc_follow::Stop;

/// How the command ended.
#[derive(Clone, Copy)]
pub struct ConsumeEnding {
    /// How the connection ended, or why it failed.
    pub how: Result<End, ConsumeFailure>,
    /// The delivery at which following stopped, if it did, and why.
    pub stop: Option<Refusal<Stop>>,
    /// Whether the follower has taken the end-of-stream marker.
    pub ended: bool,
}

/// What is reported of how the command ended.
#[derive(Clone, Copy)]
pub struct Outcome<'a> {
    /// The exit status.
    pub status: u8,
    /// The name of the reason.
    pub reason: &'static str,
    /// The reply code with which the server closed the connection or the channel; 0 if it didn't.
    pub code: u16,
    /// The tag of the delivery at which following stopped; 0 if it didn't.
    pub tag: u64,
    /// Whether that message was delivered before.
    pub redelivered: bool,
    /// How often it was delivered before; 0 if its queue doesn't count that.
    pub delivery_count: u64,
    /// How many messages were parked.
    pub parked: u64,
    /// The text with which the server closed the connection or the channel, or nothing.
    pub text: &'a str,
}

impl ConsumeEnding {
    /// What is reported of it. The status is 0 after the end-of-stream marker or the limit; 1 after a failure that may
    /// pass, so the program is to be started again; 2 if the server refuses the user, the virtual host or the queue, or
    /// a message is no event; 3 at a gap, or at a message that contradicts the end. `parked`: how many messages were
    /// parked. `text`: the text with which the server closed the connection or the channel, or nothing.
    pub fn outcome<'a>(self, parked: u64, text: &'a str) -> Outcome<'a>
        ensures { IsOutcome result self parked text.now }
    {
        Outcome {
            status: status(self.stop, self.how),
            reason: reason(self.stop, self.how, self.ended),
            code: code(self.how),
            tag: tag(self.stop),
            redelivered: is_redelivered(self.stop),
            delivery_count: delivery_count(self.stop),
            parked,
            text,
        }
    }
}

// The exit status.
fn status(stop: Option<Refusal<Stop>>, how: Result<End, ConsumeFailure>) -> u8
    ensures { result ≡ spec.status_by stop how }
{
    match stop {
        Some(refusal) => reason_status(refusal.reason, how),
        None => end_status(how),
    }
}

// The exit status, if following stopped for this reason.
fn reason_status(reason: Reason<Stop>, how: Result<End, ConsumeFailure>) -> u8
    ensures { result ≡ spec.reason_status reason how }
{
    match reason {
        Reason::BadMessage(_) | Reason::Stopped(Stop::BadLine(..)) => 2,
        Reason::Stopped(Stop::Gap(..)) | Reason::Stopped(Stop::AfterEnd(..)) => 3,
        Reason::Stopped(Stop::AtEnd) => end_status(how),
    }
}

// The name of the reason.
fn reason(
    stop: Option<Refusal<Stop>>,
    how: Result<End, ConsumeFailure>,
    ended: bool,
) -> &'static str
    ensures { result.now ≡ spec.reason_by stop how ended }
{
    match stop {
        Some(refusal) => stop_reason(refusal.reason, how, ended),
        None => end_reason(how, ended),
    }
}

// The name of the reason for which following stopped.
fn stop_reason(reason: Reason<Stop>, how: Result<End, ConsumeFailure>, ended: bool) -> &'static str
    ensures { result.now ≡ spec.stop_reason reason how ended }
{
    match reason {
        Reason::BadMessage(error) => error.name(),
        Reason::Stopped(Stop::BadLine(_, error)) => error.name(),
        Reason::Stopped(Stop::Gap(..)) => "gap",
        Reason::Stopped(Stop::AfterEnd(..)) => "after_end",
        Reason::Stopped(Stop::AtEnd) => end_reason(how, ended),
    }
}

// The reply code of the server; 0 if there is none.
fn code(how: Result<End, ConsumeFailure>) -> u16
    ensures { result ≡ spec.code_by how }
{
    match how {
        Ok(End::Closed(code)) | Ok(End::ChannelClosed(code)) => code,
        Ok(End::Canceled) | Ok(End::Finished) | Err(_) => 0,
    }
}

// The tag of the delivery at which following stopped; 0 if it didn't.
fn tag(stop: Option<Refusal<Stop>>) -> u64
    ensures { result ≡ spec.tag_by stop }
{
    match stop {
        Some(refusal) => refusal.tag,
        None => 0,
    }
}

// Whether the message at which following stopped was delivered before.
fn is_redelivered(stop: Option<Refusal<Stop>>) -> bool
    ensures { result ≡ spec.is_redelivered stop }
{
    match stop {
        Some(refusal) => refusal.redelivered,
        None => false,
    }
}

// How often it was; 0 if its queue doesn't count that.
fn delivery_count(stop: Option<Refusal<Stop>>) -> u64
    ensures { result ≡ spec.count_by stop }
{
    match stop {
        Some(refusal) => refusal.delivery_count.unwrap_or(0),
        None => 0,
    }
}

// Whether the server refuses what was asked for: the user or a permission (403), the queue (404), or the virtual host
// (530).
fn is_refusal(code: u16) -> bool
    ensures { result ≡ spec.is_refusal code }
{
    code == 403 || code == 404 || code == 530
}

// The exit status, if following did not stop.
fn end_status(how: Result<End, ConsumeFailure>) -> u8
    ensures { result ≡ spec.end_status how }
{
    match how {
        Ok(End::Finished) => 0,
        Ok(End::Closed(code)) | Ok(End::ChannelClosed(code)) if is_refusal(code) => 2,
        Ok(End::Closed(_)) | Ok(End::ChannelClosed(_)) | Ok(End::Canceled) | Err(_) => 1,
    }
}

// The name of the reason, if following did not stop.
fn end_reason(how: Result<End, ConsumeFailure>, ended: bool) -> &'static str
    ensures { result.now ≡ spec.end_reason how ended }
{
    match how {
        Ok(End::Finished) => { if ended { "end" } else { "limit" } }
        Ok(End::Closed(_)) => "closed",
        Ok(End::ChannelClosed(_)) => "channel_closed",
        Ok(End::Canceled) => "canceled",
        Err(failure) => failure_reason(failure),
    }
}

// The name of a failure.
fn failure_reason(failure: ConsumeFailure) -> &'static str
    ensures { result.now ≡ spec.failure_reason failure }
{
    match failure {
        ConsumeFailure::Read(_) => "read_fault",
        ConsumeFailure::Frame(FrameFault::Incomplete) => "connection_lost",
        ConsumeFailure::Frame(_) | ConsumeFailure::Fault(_) => "protocol_fault",
        ConsumeFailure::Store(_) => "store",
        ConsumeFailure::Write(_) => "write_fault",
        ConsumeFailure::OutOfMemory => "out_of_memory",
    }
}
