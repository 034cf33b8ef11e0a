//! Writing requests to the server.

ghost use Rattle.std.specs.Prelude.{◌≡◌, ◌++◌, IfErr, IfOk, OnErr, OnOk};
ghost use Rattle.std.specs.List.{flat_map};
ghost use Rattle.std.specs.Option.{option_to_list};
ghost use Rattle.cdc_amqp_methods.specs.Requests.{frame_of};
ghost use Rattle.cdc_amqp_dialogue.specs.Steps.{ClosesBy, FitsOption, IsPlain, KeepsIt, KeepsNothing, SavesBy};
ghost use Rattle.cdc_amqp_dialogue.specs.Steps.{Sends, StandsStill};
ghost use Rattle.cdc_amqp_dialogue.specs.Worlds.{IsParked, rejections_of};

use crate::errors::ConsumeFailure;
use crate::keepers::Keeper;
use crate::taking::Taking;
use cdc_amqp_consumer::Consumer;
use cdc_amqp_methods::{Request, push_request};
use std::alloc::{AllocError, Global};
use std::io;
use std::io::{ErrorKind, Write};

/// Writes some bytes and flushes them. The one error is that a write failed, and then a part of them may be written.
pub(crate) fn send<W: Write>(writer: &mut W, bytes: &[u8]) -> Result<(), ConsumeFailure>
    ensures { Sends (W.contents writer.old) (W.contents writer.new) bytes.now result }
{
    // (of an error of `write_all` it isn't known what it has written)
    let mut rest = bytes;
    for _ in 0..u64::MAX {
        if rest.is_empty() {
            break;
        }
        match writer.write(rest) {
            Ok(0) => return Err(ConsumeFailure::Write(io::Error::from(ErrorKind::WriteZero))),
            Ok(count) => rest = &rest[count..],
            Err(error) if error.kind() == ErrorKind::Interrupted => {}
            Err(error) => return Err(ConsumeFailure::Write(error)),
        }
    }
    match writer.flush() {
        Ok(()) if rest.is_empty() => Ok(()),
        Ok(()) => Err(ConsumeFailure::Write(io::Error::from(ErrorKind::WriteZero))),
        Err(error) => Err(ConsumeFailure::Write(error)),
    }
}

// Appends the frame of a request to the output, if there is one.
fn push_optional(
    alloc: Global,
    out: &mut Vec<u8>,
    request: &Option<Request<'_>>,
) -> Result<(), AllocError>
    requires { FitsOption request.now }
    ensures { OnOk result (out.new.items ≡ out.old.items ++ flat_map frame_of (option_to_list request.now)) }
{
    match request {
        Some(request) => push_request(alloc, out, request),
        None => Ok(()),
    }
}

/// The frames of requests.
pub(crate) fn frames_of(
    alloc: Global,
    first: &Option<Request<'_>>,
    second: &Option<Request<'_>>,
) -> Result<Vec<u8>, AllocError>
    requires first { FitsOption first.now }
    requires second { FitsOption second.now }
    ensures { IfOk result (λ out. out.items
        ≡ flat_map frame_of (option_to_list first.now ++ option_to_list second.now)) }
{
    let mut out = Vec::new(alloc);
    push_optional(alloc, &mut out, first)?;
    push_optional(alloc, &mut out, second)?;
    Ok(out)
}

/// Appends the frame that rejects a delivery, if it is parked.
pub(crate) fn push_rejection<R: Copy>(
    alloc: Global,
    out: &mut Vec<u8>,
    taking: Taking<R>,
) -> Result<(), AllocError>
    ensures pushed { OnOk result (out.new.items ≡ out.old.items ++ flat_map frame_of (rejections_of taking)) }
    ensures err { OnErr result (IsParked taking) }
{
    match taking {
        Taking::Parked(tag, _) => push_request(alloc, out, &Request::Reject { tag }),
        Taking::Taken(_) | Taking::Refused(_) | Taking::Ignored => Ok(()),
    }
}

/// Saves the follower, and then acknowledges all deliveries up to this tag, if that is due. Returns whether it was.
pub(crate) fn save_if_due<W: Write, K: Keeper>(
    alloc: Global,
    is_due: bool,
    tag: u64,
    setup: &K::Setup,
    keeper: &mut K,
    writer: &mut W,
) -> Result<bool, ConsumeFailure>
    requires fits { K.fits setup.now keeper.old }
    ensures follower { StandsStill (K.stands setup.now) keeper.old keeper.new }
    ensures fits { OnOk result (K.fits setup.now keeper.new) }
    ensures saved { SavesBy (KeepsIt (K.has_kept setup.now) (K.stands setup.now) keeper.old keeper.new)
        (KeepsNothing (K.has_kept setup.now) keeper.old keeper.new) is_due tag
        (W.contents writer.old) (W.contents writer.new) result }
    ensures done { IfOk result (λ was_saved. was_saved ≡ is_due) }
    ensures plain { IfErr result IsPlain }
{
    if !is_due {
        return Ok(false);
    }
    let mut out = Vec::new(alloc);
    push_request(alloc, &mut out, &Request::Ack { tag })?;
    if let Err(error) = keeper.save(setup, alloc) {
        return Err(ConsumeFailure::Store(error));
    }
    match send(writer, &out) {
        Ok(()) => Ok(true),
        Err(failure) => Err(failure),
    }
}

/// Begins to close the connection, if that is due. Returns whether it was.
pub(crate) fn close_if_due<W: Write>(
    alloc: Global,
    is_due: bool,
    consumer: &mut Consumer,
    writer: &mut W,
) -> Result<bool, ConsumeFailure>
    ensures plain { IfErr result IsPlain }
    ensures closed { ClosesBy is_due consumer.old consumer.new (W.contents writer.old) (W.contents writer.new) result }
{
    if !is_due {
        return Ok(false);
    }
    let mut out = Vec::new(alloc);
    push_request(alloc, &mut out, &Request::Cancel)?;
    consumer.close();
    match send(writer, &out) {
        Ok(()) => Ok(true),
        Err(failure) => Err(failure),
    }
}
