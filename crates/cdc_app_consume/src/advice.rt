//! What standard error reports of a queue that was consumed.

use crate::reports::Report;
use cdc_amqp_consumer::End;
use cdc_amqp_dialogue::{ConsumeFailure, Reason};
use cdc_amqp_frames::FrameFault;
use cdc_app_inputs::Escaped;
use cdc_app_streams::advise_on_stream;
use cdc_consume_command::{ConsumeEnding, Outcome};
use cdc_follow::{Counts, Follower, Stop};
use cdc_output::ProgramFault;
use cdc_streams::StreamEnding;
use std::io::Write;
use std::str;

/// Reports what came of the deliveries of this queue: in JSON the whole report.
pub fn advise_on_counts(
    rt: &HostRuntime,
    queue: &str,
    report: &Report<'_>,
    outcome: Outcome<'_>,
    counts: Counts,
    seen: u64,
) {
    if report.is_json() {
        if let Ok(text) = report.end_text(outcome, counts, seen) {
            let _ = rt.stderr().write_all(text.as_slice());
        }
        return;
    }
    let queue = Escaped(queue);
    let Counts {
        applied,
        duplicates,
        passed,
        ..
    } = counts;
    let _ = eprintln!(rt; "{queue}: applied {applied}, duplicates {duplicates}, passed {passed}");
    let parked = outcome.parked;
    if parked != 0 {
        let _ = eprintln!(rt; "{queue}: parked {parked}: messages that are no event were rejected");
    }
}

/// A text that came from the server, or nothing if it isn't UTF-8 or has control characters.
pub fn shown_text(bytes: &[u8]) -> &str {
    match str::from_utf8(bytes) {
        Ok(text) if !text.chars().any(|c| c.is_control()) => text,
        _ => "",
    }
}

/// Reports why consuming this queue ended, unless it was at the end of the stream or at the limit. A place in the queue
/// is a delivery tag.
pub fn advise_on_ending(
    rt: &HostRuntime,
    queue: &str,
    book: &str,
    follower: &Follower,
    ending: ConsumeEnding,
    outcome: Outcome<'_>,
) {
    if let Some(refusal) = ending.stop {
        let stop = match refusal.reason {
            Reason::BadMessage(error) => Stop::BadLine(refusal.tag, error),
            Reason::Stopped(stop) => stop,
        };
        advise_on_stream(rt, queue, Some(book), follower, StreamEnding::Stopped(stop));
        advise_on_delivery(rt, queue, outcome);
    }
    match ending.how {
        Ok(end) => advise_on_end(rt, queue, end, outcome.text),
        Err(failure) => advise_on_failure(rt, queue, book, follower, failure),
    }
}

/// Reports which delivery following stopped at, and whether its message was delivered before.
fn advise_on_delivery(rt: &HostRuntime, queue: &str, outcome: Outcome<'_>) {
    let queue = Escaped(queue);
    let Outcome {
        tag,
        redelivered,
        delivery_count,
        ..
    } = outcome;
    let _ = if redelivered {
        eprintln!(rt; "{queue}: delivery {tag}: redelivered (x-delivery-count {delivery_count})")
    } else {
        eprintln!(rt; "{queue}: delivery {tag}: delivered for the first time")
    };
}

/// Reports how the server ended the connection, and its own text if there is one.
fn advise_on_end(rt: &HostRuntime, queue: &str, end: End, text: &str) {
    let queue = Escaped(queue);
    let _ = match end {
        End::Finished => Ok(()),
        End::Closed(code) => {
            let meaning = meaning_of(code);
            eprintln!(rt; "{queue}: closed: the server closed the connection: {code}, {meaning}")
        }
        End::ChannelClosed(code) => {
            let meaning = meaning_of(code);
            eprintln!(rt;
                "{queue}: channel_closed: the server closed the channel: {code}, {meaning}"
            )
        }
        End::Canceled => {
            eprintln!(rt;
                "{queue}: canceled: the server canceled the consumer: the queue was deleted, or its node stopped"
            )
        }
    };
    if !text.is_empty() {
        let _ = eprintln!(rt; "{queue}: the server's text: {text}");
    }
}

/// What a reply code of the server means.
fn meaning_of(code: u16) -> &'static str {
    match code {
        311 => "a content is too large",
        320 => "an operator closed it, or the server stops",
        403 => "the user, the password or a permission is refused",
        404 => "there is no such queue, or its node is down",
        405 => "another connection has the queue for itself",
        406 => "a precondition failed, such as the time limit on acknowledgements",
        501 => "a frame is malformed",
        502 => "a field is malformed",
        503 => "a command is not allowed now",
        504 => "a channel is not open",
        505 => "a frame is not expected",
        506 => "the server lacks resources",
        530 => "there is no such virtual host, or it is refused",
        540 => "the server lacks a feature",
        541 => "the server has an internal error",
        _ => "a code without a name here",
    }
}

/// Reports why consuming failed.
fn advise_on_failure(
    rt: &HostRuntime,
    queue: &str,
    book: &str,
    follower: &Follower,
    failure: ConsumeFailure,
) {
    let fault = match failure {
        ConsumeFailure::Frame(fault) => return advise_on_frame(rt, queue, fault),
        ConsumeFailure::Fault(fault) => {
            let queue = Escaped(queue);
            let _ = eprintln!(rt; "{queue}: protocol_fault: the server sent {fault}");
            return;
        }
        ConsumeFailure::Read(error) => ProgramFault::ReadFault(error),
        ConsumeFailure::Store(error) => ProgramFault::from(error),
        ConsumeFailure::Write(error) => ProgramFault::WriteFault(error),
        ConsumeFailure::OutOfMemory => ProgramFault::OutOfMemory,
    };
    advise_on_stream(rt, queue, Some(book), follower, StreamEnding::Failed(fault));
}

/// Reports why the server's bytes don't go on with a frame.
fn advise_on_frame(rt: &HostRuntime, queue: &str, fault: FrameFault) {
    let queue = Escaped(queue);
    let _ = match fault {
        FrameFault::Incomplete => {
            eprintln!(rt; "{queue}: connection_lost: the server's bytes ended")
        }
        _ => eprintln!(rt; "{queue}: protocol_fault: the server doesn't speak AMQP 0-9-1: {fault}"),
    };
}
