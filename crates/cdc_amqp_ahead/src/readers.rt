//! A reader of frames that knows whether the next one can be had without waiting.

ghost use Rattle.std.specs.Prelude.{◌≡◌, ◌⊎◌, IfErr, IfOk, OnOk, Some, length};
ghost use Rattle.std.specs.Io.KnownBytes.{IsAtEnd};
ghost use Rattle.std.specs.IoError.{error_kind};
ghost use Rattle.cdc_read_ahead.specs.Pieces.{AnswersIfSome, AreBytesOf};
ghost use Rattle.cdc_amqp_ahead.specs.Readers.{frame_is_ready, has_frame_in, held_by, left_of};

use crate::held::Held;
use cdc_amqp_consumer::FRAME_MAX;
use cdc_amqp_dialogue::FrameReader;
use cdc_amqp_frames::{Frame, FrameFault, ReadFrameError, first_frame, read_frame};
use cdc_read_ahead::{BLOCK_BYTES, Blocks, Ending, Known, Piece, StartFault};
use std::alloc::Global;
use std::io::{ErrorKind, Read};
use std::sync::Wait;
use std::thread::Threads;
use std::{io, thread};

/// How often to look for a block before the answer is that none is ready. Between two looks the reading thread gets a
/// chance to run: on one CPU it may have to.
const LOOKS: u32 = 8;

/// Reads what a thread has read ahead. It gives the bytes that the thread's reader gives, in their order, and waits
/// only if none of them is there. If that reader fails, this one fails after the bytes before it, and so does each
/// read after that. It holds at most a frame and a block.
pub struct FramesAhead<O: Known, R: Threads + Wait + Copy> {
    rt: R,
    blocks: Blocks<O>,
    held: Held,
}

// Written by hand, since `O` needs no `Drop`.
impl<O: Known, R: Threads + Wait + Copy> Drop for FramesAhead<O, R> {
    fn drop(self) {
        let Self {
            rt: _,
            blocks: _,
            held: _,
        } = self;
    }
}

/// The next piece if it comes soon.
fn next_soon<O: Known, R: Threads + Wait>(rt: &R, blocks: &mut Blocks<O>) -> Option<Piece>
    ensures { AnswersIfSome O.bytes blocks.old result blocks.new }
{
    for _ in 1..LOOKS {
        if let Some(piece) = blocks.next_ready(rt) {
            return Some(piece);
        }
        thread::yield_now();
    }
    blocks.next_ready(rt)
}

/// Whether these bytes begin with a whole frame, or with bytes that begin none.
fn begins_frame(bytes: &[u8]) -> bool
    ensures { result ≡ has_frame_in bytes.now }
{
    match first_frame(FRAME_MAX, bytes) {
        Ok(_) => true,
        Err(FrameFault::Incomplete) => false,
        Err(FrameFault::UnknownKind) | Err(FrameFault::TooLong) | Err(FrameFault::NoEnd) => true,
    }
}

impl<O: Known, R: Threads + Wait + Copy> FramesAhead<O, R> {
    /// Starts a thread that reads ahead of this. What is left of it is what the thread's reader gives.
    pub fn start<T: Read + Drop + Send + 'static>(
        rt: R,
        alloc: Global,
        reader: T,
    ) -> Result<FramesAhead<O, R>, StartFault>
    where
        O: Send + 'static,
        R: Send + 'static,
        requires known { AreBytesOf O.bytes (T.remaining reader) }
        ensures left { IfOk result (λ ahead. left_of O.bytes ahead ≡ O.bytes) }
    {
        let blocks = Blocks::start(&rt, alloc, reader)?;
        Ok(FramesAhead {
            rt,
            blocks,
            held: Held::new(alloc),
        })
    }

    /// Whether the next frame can be had of what was received, or what is wrong with it, or the end.
    fn is_ready(&self) -> bool
        ensures { result ≡ frame_is_ready self.now }
    {
        begins_frame(self.held.unread()) || self.blocks.ending().is_some()
    }

    /// Takes the next block if the next frame needs it and it is ready. Returns whether it did.
    fn take_ready(&mut self) -> bool
        ensures { left_of O.bytes self.new ≡ left_of O.bytes self.old }
    {
        if self.is_ready() {
            return false;
        }
        let Ok(()) = self.held.make_room(BLOCK_BYTES) else {
            return false;
        };
        match next_soon(&self.rt, &mut self.blocks) {
            Some(Piece::Block(block)) => {
                self.held.append(block.as_slice());
                true
            }
            Some(Piece::Last(_)) | None => false,
        }
    }

    /// Takes blocks as long as the next frame needs another one and it is ready.
    fn take_needed(&mut self)
        ensures { left_of O.bytes self.new ≡ left_of O.bytes self.old }
    {
        for _ in 0..u64::MAX {
            if !self.take_ready() {
                return;
            }
        }
    }

    /// Waits for the next block if nothing is held. An error: memory ran out, or reading failed.
    fn fill(&mut self) -> io::Result<()>
        ensures left { left_of O.bytes self.new ≡ left_of O.bytes self.old }
        ensures end { OnOk result (length (held_by self.new) ≡ 0 → IsAtEnd (left_of O.bytes self.new)) }
        ensures fails { IfErr result (λ error. (error_kind error ≡ ErrorKind.OutOfMemory)
            ⊎ (self.new.blocks.ending ≡ Some (Ending.Failed error))) }
    {
        if !self.held.unread().is_empty() {
            return Ok(());
        }
        let Ok(()) = self.held.make_room(BLOCK_BYTES) else {
            return Err(io::Error::from(ErrorKind::OutOfMemory));
        };
        match self.blocks.next(&self.rt) {
            Piece::Block(block) => {
                self.held.append(block.as_slice());
                Ok(())
            }
            Piece::Last(Ending::AtEnd) => Ok(()),
            Piece::Last(Ending::Failed(error)) => Err(error),
        }
    }
}

impl<O: Known, R: Threads + Wait + Copy> Read for FramesAhead<O, R> {
    ghost use Rattle.cdc_amqp_ahead.specs.Readers.{left_of};

    ghost remaining = { left_of O.bytes };

    fn read(&mut self, buf: &mut [u8]) -> io::Result<usize> {
        self.fill()?;
        Ok(self.held.read_into(buf))
    }
}

impl<O: Known, R: Threads + Wait + Copy> FrameReader for FramesAhead<O, R> {
    ghost use Rattle.std.specs.Prelude.{◌≡◌, refl};
    ghost use Rattle.cdc_amqp_ahead.specs.Readers.{WasSeen, frame_is_ready, left_of};

    ghost has_answered = { λ first now sights. WasSeen O.bytes (left_of O.bytes first) sights (left_of O.bytes now) };

    ghost is_right = { λ reader answer. answer ≡ frame_is_ready reader };

    fn has_frame(&mut self) -> bool {
        self.take_needed();
        self.is_ready()
    }

    fn next_frame(&mut self, alloc: Global, limit: u32) -> Result<Frame, ReadFrameError> {
        read_frame(alloc, self, limit)
    }

    ghost has_answered_none = { λ _. refl };
}
