//! What a reading thread has read, block by block.

ghost use Rattle.std.specs.Prelude.{◌≡◌, [], None, IfOk};
ghost use Rattle.cdc_read_ahead.specs.Pieces.{Answers, AnswersIfSome, AreBytesOf, IsFailure, IsFront, Receives};
ghost use Rattle.cdc_read_ahead.specs.Pieces.{ReceivesIfSome, bytes_received};

use crate::errors::StartFault;
use crate::pieces::{BLOCK_BYTES, Ending, Known, Piece, Sent, WAITING_BLOCKS};
use crate::working::read_all;
use cdc_links::{LinkIn, link};
use std::alloc::Global;
use std::io::{ErrorKind, Read};
use std::marker::Model;
use std::sync::Wait;
use std::thread::{JoinHandle, Threads};
use std::time::{Clock, Duration};
use std::{io, thread};

/// What a thread reads from a reader, in blocks and in order. Contracts see the bytes that were received so far, and
/// how reading ended, if that was received.
///
/// The thread is joined when the last piece is received: it has nothing left to do then. If this is dropped before, the
/// thread is left. It ends by itself when it next sends, or with the process if a read never returns. It only reads,
/// and what it has read ahead was acknowledged to nobody.
pub struct Blocks<O: Known> {
    link: LinkIn<Sent<O>>,
    ending: Option<Ending>,
    thread: Option<JoinHandle<()>>,
}

// Written by hand, so that code that drops it calls this instead of dropping each field itself.
impl<O: Known> Drop for Blocks<O> {
    fn drop(self) {
        let Self {
            link: _,
            ending: _,
            thread: _,
        } = self;
    }
}

impl<O: Known> Model for Blocks<O> {
    ghost use Rattle.cdc_read_ahead.specs.Pieces.{KeepsBlocks, Received, received_by};

    ghost Value = { Received };

    ghost view = { λ blocks. received_by blocks.link blocks.ending };

    ghost invariant = { λ blocks. KeepsBlocks O.bytes blocks.link blocks.ending };
}

impl<O: Known> Blocks<O> {
    /// Starts a thread that reads this reader to its end, at most `WAITING_BLOCKS` blocks ahead of `next`.
    pub fn start<T: Read + Drop + Send + 'static, R: Threads + Wait + Copy + Send + 'static>(
        rt: &R,
        alloc: Global,
        reader: T,
    ) -> Result<Blocks<O>, StartFault>
    where
        O: Send + 'static,
        requires known { AreBytesOf O.bytes (T.remaining reader) }
        ensures none { IfOk result (λ blocks. (blocks.bytes ≡ []) × (blocks.ending ≡ None)) }
    {
        let mut buffer = Vec::with_capacity(alloc, BLOCK_BYTES)?;
        buffer.resize(BLOCK_BYTES, 0)?;
        let (mut outs, into) = link::<Sent<O>>(alloc, WAITING_BLOCKS, 1)?;
        let Some(out) = outs.pop() else {
            unreachable!()
        };
        let its_rt = *rt;
        match thread::spawn(rt, move || read_all(&its_rt, alloc, reader, buffer, out)) {
            Ok(thread) => Ok(Blocks {
                link: into,
                ending: None,
                thread: Some(thread),
            }),
            Err(_) => Err(StartFault::ThreadRefused),
        }
    }

    /// The next piece. Waits while there is none. Once the last piece was received, it is every further answer.
    pub fn next<R: Threads + Wait>(&mut self, rt: &R) -> Piece
        ensures { Answers O.bytes self.old result self.new }
    {
        if let Some(ending) = self.ending {
            return Piece::Last(ending);
        }
        let piece = receive(rt, &mut self.link);
        self.ending = piece.ending();
        join_if_ended(rt, &self.ending, &mut self.thread);
        piece
    }

    /// The next piece if it is there. Never waits. `None`: nothing is there, and nothing has changed.
    pub fn next_ready<R: Threads + Wait>(&mut self, rt: &R) -> Option<Piece>
        ensures { AnswersIfSome O.bytes self.old result self.new }
    {
        if let Some(ending) = self.ending {
            return Some(Piece::Last(ending));
        }
        let Some(piece) = receive_ready(rt, &mut self.link) else {
            return None;
        };
        self.ending = piece.ending();
        join_if_ended(rt, &self.ending, &mut self.thread);
        Some(piece)
    }

    /// The next piece if it comes within so many milliseconds, give or take a few. `None`: it didn't, and nothing has
    /// changed. A channel under a rule has no receive with a time limit, so this looks once in a millisecond.
    pub fn next_within<R: Threads + Wait + Clock>(&mut self, rt: &R, limit: u64) -> Option<Piece>
        ensures { AnswersIfSome O.bytes self.old result self.new }
    {
        for _ in 0..limit {
            if let Some(piece) = self.next_ready(rt) {
                return Some(piece);
            }
            thread::sleep(rt, Duration::from_millis(1));
        }
        self.next_ready(rt)
    }

    /// How reading ended, if the last piece was received.
    pub fn ending(&self) -> Option<Ending>
        ensures { result ≡ self.now.ending }
    {
        self.ending
    }
}

/// Joins the thread if it has ended: the last piece is the last thing that it sends.
fn join_if_ended<R: Threads>(rt: &R, ending: &Option<Ending>, thread: &mut Option<JoinHandle<()>>) {
    if ending.is_some() {
        if let Some(thread) = thread.take() {
            thread.join(rt);
        }
    }
}

/// The failure that stands for a thread which is gone without a last piece.
fn lost() -> Piece
    ensures { IsFailure result }
{
    Piece::Last(Ending::Failed(io::Error::from(ErrorKind::Other)))
}

/// Receives the next piece. Waits while there is none.
fn receive<O: Known, R: Wait>(rt: &R, link: &mut LinkIn<Sent<O>>) -> Piece
    requires one { link.old.senders ≡ 1 }
    requires front { IsFront O.bytes (bytes_received link.old) }
    ensures { Receives O.bytes link.old result link.new }
{
    match link.receive(rt) {
        Ok(sent) => sent.into_piece(),
        Err(_) => lost(),
    }
}

/// Receives the next piece if it is there. Never waits.
fn receive_ready<O: Known, R: Wait>(rt: &R, link: &mut LinkIn<Sent<O>>) -> Option<Piece>
    requires one { link.old.senders ≡ 1 }
    requires front { IsFront O.bytes (bytes_received link.old) }
    ensures { ReceivesIfSome O.bytes link.old result link.new }
{
    match link.receive_ready(rt) {
        Ok(Some(sent)) => Some(sent.into_piece()),
        Ok(None) => None,
        Err(_) => Some(lost()),
    }
}
