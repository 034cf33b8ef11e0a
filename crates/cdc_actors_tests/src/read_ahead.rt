//! Streams that are read ahead. That a block arrives, and that a line counts as there once it has, no contract states.

use cdc_read_ahead::{AheadReader, Blocks, Ending, Piece, Unknown};
use std::io::{BufRead, Read};
use std::{io, thread};

const TEXT: &[u8] = b"one\ntwo";

// A reader of these bytes.
#[derive(Drop)]
struct Given {
    bytes: &'static [u8],
}

impl Read for Given {
    fn read(&mut self, buf: &mut [u8]) -> io::Result<usize> {
        self.bytes.read(buf)
    }
}

// The bytes of a piece, if it is a block.
fn bytes_in(piece: &Piece) -> Option<&[u8]> {
    match piece {
        Piece::Block(block) => Some(block.as_slice()),
        Piece::Last(_) => None,
    }
}

#[test]
fn blocks_and_the_end_arrive(rt: HostRuntime) {
    let given = Given { bytes: TEXT };
    let mut blocks = Blocks::<Unknown>::start(&rt, rt.alloc(), given).expect(&rt, "a thread");
    assert!(rt; blocks.ending().is_none());
    let first = blocks.next(&rt);
    assert!(rt; bytes_in(&first) == Some(TEXT));
    for _ in 0..2 {
        assert!(rt; matches!(blocks.next(&rt), Piece::Last(Ending::AtEnd)));
        assert!(rt; matches!(blocks.ending(), Some(Ending::AtEnd)));
        assert!(rt; matches!(blocks.next_ready(&rt), Some(Piece::Last(Ending::AtEnd))));
    }
}

#[test]
fn a_block_comes_within_a_time(rt: HostRuntime) {
    let given = Given { bytes: TEXT };
    let mut blocks = Blocks::<Unknown>::start(&rt, rt.alloc(), given).expect(&rt, "a thread");
    // (the time is a last guard)
    let first = blocks.next_within(&rt, 300_000).expect(&rt, "a block");
    assert!(rt; bytes_in(&first) == Some(TEXT));
}

// A last line without a line feed is there once the end is known.
#[test]
fn lines_are_there_once_they_have_arrived(rt: HostRuntime) {
    let given = Given { bytes: TEXT };
    let mut reader = AheadReader::<Unknown, HostRuntime>::start(rt, rt.alloc(), given).expect(
        &rt, "a thread",
    );
    for length in [4usize, 3, 0] {
        for _ in rt.forever() {
            if reader.has_line() {
                break;
            }
            thread::yield_now();
        }
        let held = reader.fill_buf().expect(&rt, "bytes");
        assert!(rt; held == &TEXT[TEXT.len() - held.len()..]);
        assert!(rt; held.len() >= length);
        reader.consume(length);
    }
    let mut buf = [0u8; 8];
    assert_eq!(rt; reader.read(&mut buf).expect(&rt, "the end"), 0);
}
