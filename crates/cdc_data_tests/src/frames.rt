//! Frames: written, read back, cut after each byte, and other texts.

use cdc_frames::{read_frame, write_frame};
use std::alloc::{AllocError, Global};
use std::test::Fail;

const TEXT: &[u8] = b"log 0 bytes 4\none\nend 0 bytes 4\nlog 1 bytes 0\nend 1 bytes 0\n";

// How many bytes the first frame has.
const FIRST_BYTES: usize = 32;

#[test]
fn frames_are_written(rt: HostRuntime) -> Result<(), Fail> {
    let mut text = Vec::new(rt.alloc());
    write_frame(&mut text, "log", 0, b"one\n")?;
    write_frame(&mut text, "log", 1, b"")?;
    assert!(rt; text.as_slice() == TEXT);
    Ok(())
}

// How many frames a text begins with, of at most three.
fn frames_in(alloc: Global, text: &[u8]) -> Result<u64, AllocError> {
    let mut rest = text;
    for number in 0..3 {
        match read_frame(alloc, rest, "log", number)? {
            Some(found) => rest = found.rest,
            None => return Ok(number),
        }
    }
    Ok(3)
}

#[test]
fn a_cut_keeps_whole_frames(rt: HostRuntime) -> Result<(), Fail> {
    for cut in 0..TEXT.len() {
        let whole = if cut < FIRST_BYTES { 0 } else { 1 };
        assert_eq!(rt; frames_in(rt.alloc(), &TEXT[..cut])?, whole);
    }
    assert_eq!(rt; frames_in(rt.alloc(), TEXT)?, 2);
    Ok(())
}

// Texts that begin with no frame, or with the first one alone.
#[test]
fn other_texts_are_no_frames(rt: HostRuntime) -> Result<(), Fail> {
    for text in [
        b"".as_slice(),
        b"book 0 bytes 0\nend 0 bytes 0\n".as_slice(),
        b"log 1 bytes 0\nend 1 bytes 0\n".as_slice(),
        b"log 00 bytes 0\nend 0 bytes 0\n".as_slice(),
        b"log 0 bytes 0\nend 1 bytes 0\n".as_slice(),
        b"log 0 bytes 1\nend 0 bytes 1\n".as_slice(),
        b"log 0 bytes 340282366920938463463374607431768211455\nend 0".as_slice(),
        b"log 0 bytes 340282366920938463463374607431768211456\nend 0".as_slice(),
    ] {
        assert_eq!(rt; frames_in(rt.alloc(), text)?, 0);
    }
    Ok(())
}
