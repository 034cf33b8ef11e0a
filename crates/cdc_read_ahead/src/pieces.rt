//! What the reading thread sends.

ghost use Rattle.std.specs.Prelude.{◌≡◌};
ghost use Rattle.cdc_read_ahead.specs.Pieces.{ending_of};

use cdc_links::Message;
use cdc_types::Limits;
use std::io;
use std::marker::PhantomData;

/// What is known of the bytes of a reader. It exists in contracts only: each theorem holds for every type of this kind,
/// and so for all bytes. A program that knows nothing of them has a type with `None`.
pub trait Known {
    ghost use Rattle.std.specs.Prelude.{ℕ, List, Option};

    /// All bytes that the reader gives, where they are known.
    ghost bytes: { Option (List ℕ) };
}

/// A reader of which nothing is known, as of each file and pipe.
pub struct Unknown;

impl Known for Unknown {
    ghost use Rattle.std.specs.Prelude.{None};

    ghost bytes = { None };
}

/// How reading ends.
#[derive(Clone, Copy)]
pub enum Ending {
    /// The reader has no more bytes.
    AtEnd,
    /// The reader failed, or memory ran out, or the reading thread is gone.
    Failed(io::Error),
}

/// The maximum size of a block, in bytes.
pub const BLOCK_BYTES: usize = Limits::BUFFER_BYTES;

/// How many blocks wait to be received, at most.
pub const WAITING_BLOCKS: usize = 16;

/// A piece of what a reader gives.
#[derive(Drop)]
pub enum Piece {
    /// The next bytes: at least one, and at most `BLOCK_BYTES`.
    Block(Vec<u8>),
    /// Nothing follows.
    Last(Ending),
}

impl Piece {
    /// How reading ends with it, if it is the last one.
    pub fn ending(&self) -> Option<Ending>
        ensures { result ≡ ending_of self.now }
    {
        match self {
            Piece::Block(_) => None,
            Piece::Last(ending) => Some(*ending),
        }
    }
}

/// A piece as it travels over the link.
pub struct Sent<O> {
    pub piece: Piece,
    of: PhantomData<O>,
}

// Written by hand, since `O` needs no `Drop`.
impl<O> Drop for Sent<O> {
    fn drop(self) {
        let Self { piece: _, of: _ } = self;
    }
}

impl<O> Sent<O> {
    /// This piece as it travels.
    pub(crate) fn of(piece: Piece) -> Sent<O>
        ensures { result.piece ≡ piece }
    {
        Sent {
            piece,
            of: PhantomData,
        }
    }

    /// The piece.
    pub(crate) fn into_piece(self) -> Piece
        ensures { result ≡ self.piece }
    {
        let Self { piece, of: _ } = self;
        piece
    }
}

impl<O: Known> Message for Sent<O> {
    ghost use Rattle.cdc_read_ahead.specs.Pieces.{MayFollow, bytes_sent};

    type Name = ();

    ghost may_follow = { λ _ before next. MayFollow O.bytes (bytes_sent before) next.0.piece };
}
