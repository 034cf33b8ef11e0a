//! Consuming a queue.

ghost use Rattle.std.specs.Prelude.{◌≡◌, ◌++◌, ◌∷◌, [], Bool, List, None, IfOk, if◌then◌else◌};
ghost use Rattle.std.specs.Io.KnownBytes.{Consumes};
ghost use Rattle.cdc_amqp_frames.specs.Frames.{frame, view};
ghost use Rattle.cdc_amqp_frames.specs.Reading.{IsFault};
ghost use Rattle.cdc_amqp_consumer.specs.Machine.{SettingsFit};
ghost use Rattle.cdc_amqp_dialogue.specs.Dialogues.{Converses};
ghost use Rattle.cdc_amqp_dialogue.specs.Serving.{SavesLast, ServesBy};
ghost use Rattle.cdc_amqp_dialogue.specs.Serving.{unread_failure, untaken_failure};
ghost use Rattle.cdc_amqp_dialogue.specs.Steps.{KeepsIt, KeepsNothing, StandsStill, is_save_due as save_is_due};
ghost use Rattle.cdc_amqp_dialogue.specs.Worlds.{Asked, Gave, Sight, stop_after as why_after};
ghost use Rattle.cdc_amqp_dialogue.specs.Worlds.{taken_after as count_after};

use crate::errors::ConsumeFailure;
use crate::keepers::Keeper;
use crate::taking::{Refusal, Taking, take_if_delivered};
use crate::writing::{close_if_due, frames_of, push_rejection, save_if_due, send};
use cdc_amqp_consumer::{ConsumeError, Consumer, End, FRAME_MAX, Outcome, Settings};
use cdc_amqp_frames::{Frame, ReadFrameError, first_frame, read_frame};
use std::alloc::Global;
use std::io;
use std::io::{BufReader, ErrorKind, Read, Write};

/// The protocol header, which a client sends first: AMQP 0-9-1.
pub const PROTOCOL: &[u8] = b"AMQP\x00\x00\x09\x01";

/// A reader of frames that knows whether a whole one can be read without waiting.
pub trait FrameReader: Read {
    /// The second came from the first, and meanwhile it answered so whether a whole frame was waiting, and gave these
    /// frames, one after another.
    ghost has_answered: { Self → Self → List Sight → Type 0 };

    /// This answer is right for what it has received.
    ghost is_right: { Self → Bool → Type 0 };

    /// Whether a whole frame can be read without waiting. What is left to read stays the same.
    fn has_frame(&mut self) -> bool
        ensures right { is_right self.new result }
        ensures left { Self.remaining self.new ≡ Self.remaining self.old }
        ensures answered { (first : Self) (sights : List Sight) → has_answered first self.old sights
            → has_answered first self.new (sights ++ Asked result ∷ []) };

    /// Reads the next frame, whose payload has at most so many bytes. After an error, nothing more may be read.
    fn next_frame(&mut self, alloc: Global, limit: u32) -> Result<Frame, ReadFrameError>
        ensures frame { IfOk result (λ it. Consumes (Self.remaining self.old) (Self.remaining self.new)
            (frame (view it))) }
        ensures fault { IsFault limit (Self.remaining self.old) result }
        ensures gave { IfOk result (λ it. (first : Self) (sights : List Sight) → has_answered first self.old sights
            → has_answered first self.new (sights ++ Gave (view it) ∷ [])) };

    /// At first it had answered nothing.
    ghost has_answered_none: { (it : Self) → has_answered it it [] };
}

impl<R: Read> FrameReader for BufReader<R> {
    ghost has_answered = { λ _ _ _. Unit {0} };

    // (of what it has buffered no contract speaks)
    ghost is_right = { λ _ _. Unit {0} };

    fn has_frame(&mut self) -> bool {
        first_frame(FRAME_MAX, self.buffer()).is_ok()
    }

    fn next_frame(&mut self, alloc: Global, limit: u32) -> Result<Frame, ReadFrameError> {
        read_frame(alloc, self, limit)
    }

    ghost has_answered_none = { λ _. tt };
}

/// When consuming saves and when it closes, and what it does with a message that carries no entry.
#[derive(Clone, Copy, Debug, PartialEq, Eq)]
pub struct Pace {
    /// After how many deliveries the follower is saved, at the latest.
    pub every: u64,
    /// After how many deliveries the connection is closed.
    pub limit: u64,
    /// Whether a message that carries no entry is rejected, and consuming goes on; otherwise following stops at it.
    pub parks: bool,
}

/// What came of a frame.
#[derive(Clone, Copy)]
pub struct Served<R> {
    outcome: Outcome,
    taking: Taking<R>,
}

/// The failure of a frame that wasn't read.
fn unread(error: ReadFrameError) -> ConsumeFailure
    ensures { result ≡ unread_failure error }
{
    match error {
        ReadFrameError::Read(error) => ConsumeFailure::Read(error),
        ReadFrameError::Fault(fault) => ConsumeFailure::Frame(fault),
        ReadFrameError::OutOfMemory => ConsumeFailure::OutOfMemory,
    }
}

/// The failure of a frame that the consumer didn't take.
fn untaken(error: ConsumeError) -> ConsumeFailure
    ensures { result ≡ untaken_failure error }
{
    match error {
        ConsumeError::Fault(fault) => ConsumeFailure::Fault(fault),
        ConsumeError::OutOfMemory => ConsumeFailure::OutOfMemory,
    }
}

/// Notes why following stops, if it does at this delivery.
fn note_stop<R: Copy>(stop: &mut Option<Refusal<R>>, taking: Taking<R>)
    ensures { stop.new ≡ why_after stop.old taking }
{
    match taking {
        Taking::Refused(why) => *stop = Some(why),
        Taking::Taken(_) | Taking::Parked(..) | Taking::Ignored => {}
    }
}

/// The tag of the last delivery that is taken, after this one.
fn taken_after<R: Copy>(taken: u64, delivered: u64, taking: Taking<R>) -> u64
    ensures { result ≡ count_after taken delivered taking }
{
    match taking {
        Taking::Taken(_) => delivered,
        Taking::Parked(..) | Taking::Refused(_) | Taking::Ignored => taken,
    }
}

/// Whether to save before the next frame is read.
fn is_save_due(every: u64, taken: u64, saved: u64, closes: bool, is_waiting: bool) -> bool
    ensures { result ≡ save_is_due every taken saved closes is_waiting }
{
    taken > saved && (closes || !is_waiting || taken - saved >= every)
}

/// The tag of the last delivery that is saved, after a save, if there was one.
fn saved_after(taken: u64, saved: u64, was_saved: bool) -> u64
    ensures { result ≡ (if was_saved then taken else saved) }
{
    if was_saved { taken } else { saved }
}

/// Serves a frame. The one failure after which it is served is that of a write.
fn serve<W: Write, K: Keeper>(
    alloc: Global,
    settings: &Settings<'_>,
    setup: &K::Setup,
    parks: bool,
    frame: &Frame,
    consumer: &mut Consumer,
    stop: &mut Option<Refusal<K::Stop>>,
    keeper: &mut K,
    writer: &mut W,
) -> Result<Served<K::Stop>, ConsumeFailure>
    requires fit { SettingsFit settings.now }
    ensures served { ServesBy settings.now (K.rules setup.now) parks (view frame.now)
        consumer.old consumer.new stop.old stop.new (K.stands setup.now keeper.old) (K.stands setup.now keeper.new)
        (W.contents writer.old) (W.contents writer.new) result }
    ensures kept { KeepsNothing (K.has_kept setup.now) keeper.old keeper.new }
    ensures fits { K.fits setup.now keeper.old → K.fits setup.now keeper.new }
{
    let done = match consumer.receive(settings, frame.kind, frame.channel, &frame.payload) {
        Ok(done) => done,
        Err(error) => return Err(untaken(error)),
    };
    let mut out = frames_of(alloc, &done.first, &done.second)?;
    let taking = take_if_delivered(alloc, setup, parks, *stop, done.outcome, consumer, keeper)?;
    push_rejection(alloc, &mut out, taking)?;
    note_stop(stop, taking);
    let outcome = done.outcome;
    match send(writer, &out) {
        Ok(()) => Ok(Served { outcome, taking }),
        Err(failure) => Err(failure),
    }
}

/// Notes the end, by the payload of its frame, and saves the follower if that is due. Returns how the connection ended.
fn save_last<K: Keeper>(
    alloc: Global,
    is_due: bool,
    end: End,
    payload: &[u8],
    setup: &K::Setup,
    keeper: &mut K,
) -> Result<End, ConsumeFailure>
    requires fits { K.fits setup.now keeper.old }
    ensures follower { StandsStill (K.stands setup.now) keeper.old keeper.new }
    ensures saved { SavesLast (KeepsIt (K.has_kept setup.now) (K.stands setup.now) keeper.old keeper.new)
        (KeepsNothing (K.has_kept setup.now) keeper.old keeper.new) is_due end result }
{
    keeper.note_end(end, payload);
    if !is_due {
        return Ok(end);
    }
    match keeper.save(setup, alloc) {
        Ok(()) => Ok(end),
        Err(error) => Err(ConsumeFailure::Store(error)),
    }
}

/// Consumes a queue until the connection ends. It saves the follower after `pace.every` deliveries, each time that no
/// whole frame is waiting, and at the end, and acknowledges what is saved. After the end-of-stream marker, after
/// `pace.limit` deliveries, or at a delivery at which following stops, it closes the connection; `stop` then has the
/// delivery and the reason. A message that carries no entry is rejected if `pace.parks`.
///
/// Whatever the server sends, and however consuming ends, the follower has taken the entries of the deliveries in order,
/// each once; and an acknowledgement is sent only of deliveries that the store has. Before a frame is awaited, what was
/// taken is saved and acknowledged.
pub fn consume<R: FrameReader, W: Write, K: Keeper>(
    alloc: Global,
    settings: &Settings<'_>,
    pace: Pace,
    setup: &K::Setup,
    reader: &mut R,
    writer: &mut W,
    keeper: &mut K,
    stop: &mut Option<Refusal<K::Stop>>,
) -> Result<End, ConsumeFailure>
    requires fit { SettingsFit settings.now }
    requires none { stop.old ≡ None }
    requires fits { K.fits setup.now keeper.old }
    ensures { (start : K.State) → K.stands setup.now keeper.old start → Converses settings.now
        (record { rules = K.rules setup.now; parks = pace.parks; start = start }) pace.every
        (K.has_kept setup.now keeper.old) (K.stands setup.now) (R.has_answered reader.old) (R.remaining reader.old)
        (W.contents writer.old) (W.contents writer.new) keeper.new stop.new result }
{
    let mut consumer = Consumer::new(alloc);
    send(writer, PROTOCOL)?;
    let mut taken = 0;
    let mut saved = 0;
    let mut closing = false;
    for _ in 0..u64::MAX {
        let is_waiting = reader.has_frame();
        let count = consumer.delivered();
        let stops = stop.is_some() || keeper.has_ended() || count >= pace.limit;
        let closes = !closing && stops && consumer.awaits_delivery();
        let is_due = is_save_due(pace.every, taken, saved, closes, is_waiting);
        let was_saved = save_if_due(alloc, is_due, taken, setup, keeper, writer)?;
        saved = saved_after(taken, saved, was_saved);
        let was_closed = close_if_due(alloc, closes, &mut consumer, writer)?;
        closing = closing || was_closed;
        let frame = match reader.next_frame(alloc, consumer.payload_limit()) {
            Ok(frame) => frame,
            Err(error) => return Err(unread(error)),
        };
        let served = serve(
            alloc,
            settings,
            setup,
            pace.parks,
            &frame,
            &mut consumer,
            stop,
            keeper,
            writer,
        )?;
        let delivered = consumer.delivered();
        taken = taken_after(taken, delivered, served.taking);
        if let Outcome::Ended(end) = served.outcome {
            return save_last(alloc, taken > saved, end, &frame.payload, setup, keeper);
        }
    }
    Err(ConsumeFailure::Read(io::Error::from(ErrorKind::Other)))
}
