//! Scripts and steps from small texts; a script of the greatest size, one that is a byte longer, and a read that
//! fails.

use cdc_script::{
    Act, FaultKind, ReadError, Script, ScriptError, parse_script, parse_steps, read_script,
    read_steps, read_text,
};
use cdc_types::{Limits, Step};
use std::alloc::{AllocError, Global};
use std::io;
use std::io::Read;
use std::test::Fail;

/// A script of two subscribers, an account and a pulse of client 2.
const SCRIPT: &[u8] =
    b"subscriber all\nsubscriber any ledger=7\naccounts 5\naccount id=1 ledger=7 code=1\nclient 2\npulse 9\n";

/// How many subscribers and batches a script has, and whose its last batch is.
fn shape_of(script: &Script) -> (usize, usize, u64) {
    let batches = script.batches.as_slice();
    let last = match batches.last() {
        Some(batch) => batch.client,
        None => 0,
    };
    (script.bindings.as_slice().len(), batches.len(), last)
}

#[test]
fn a_script(rt: HostRuntime) {
    let Ok(script) = parse_script(rt.alloc(), SCRIPT) else {
        assert!(rt; false, "no script");
        return;
    };
    assert_eq!(rt; shape_of(&script), (2, 2, 2));
    assert!(rt; script.lines.batches.as_slice() == [3, 6].as_slice());
    assert!(rt; script.lines.requests.as_slice() == [4].as_slice());
}

#[test]
fn a_fault(rt: HostRuntime) {
    let script = b"subscriber all\r\naccounts 5\naccount id=1 id=\xc3\xa9\n";
    match parse_script(rt.alloc(), script) {
        Err(ScriptError::Fault(fault)) => {
            assert_eq!(rt; (fault.line, fault.column), (3, 17));
            assert_eq!(rt; (fault.word.start, fault.word.length), (43, 2));
            assert_eq!(rt; (fault.first.start, fault.first.length), (27, 7));
            assert_eq!(rt; fault.kind.number(), FaultKind::BadText.number());
        }
        _ => assert!(rt; false, "no fault"),
    }
}

#[test]
fn a_script_of_a_reader(rt: HostRuntime) {
    let mut reader = SCRIPT;
    let Ok(Ok(script)) = read_script(rt.alloc(), &mut reader) else {
        assert!(rt; false, "no script");
        return;
    };
    assert_eq!(rt; shape_of(&script), (2, 2, 2));
}

/// Which kind of step an act is: 0 for the next batch, 1 for a start, 2 for a rewind of queue 3, 9 for another one.
fn kind_of(act: &Act) -> u8 {
    match act {
        Act::Batch => 0,
        Act::Step(Step::Start) => 1,
        Act::Step(Step::Rewind(3)) => 2,
        Act::Step(_) => 9,
    }
}

/// Whether these acts are a batch, a start and a rewind of queue 3.
fn are_expected(acts: &[Act]) -> bool {
    match acts {
        [first, second, third] => {
            kind_of(first) == 0 && kind_of(second) == 1 && kind_of(third) == 2
        }
        _ => false,
    }
}

#[test]
fn steps(rt: HostRuntime) {
    let Ok(steps) = parse_steps(rt.alloc(), b"batch\n# x\nstart\nrewind 3") else {
        assert!(rt; false, "no steps");
        return;
    };
    assert!(rt; are_expected(&steps.acts));
    assert!(rt; steps.lines.as_slice() == [1, 3, 4].as_slice());
}

#[test]
fn steps_of_a_reader(rt: HostRuntime) {
    let mut reader: &[u8] = b"batch\n\nstart\nrewind 03\n";
    let Ok(Ok(steps)) = read_steps(rt.alloc(), &mut reader) else {
        assert!(rt; false, "no steps");
        return;
    };
    assert!(rt; are_expected(&steps.acts));
}

/// A script of the greatest size: a subscriber, and comments.
fn large_text(alloc: Global) -> Result<Vec<u8>, AllocError> {
    let mut text = Vec::from_slice(alloc, b"subscriber all\n")?;
    for _ in 0..65_535 {
        text.extend_from_slice(b"#..............\n")?;
    }
    text.extend_from_slice(b"#")?;
    Ok(text)
}

#[test]
fn the_largest_script(rt: HostRuntime) -> Result<(), Fail> {
    let text = large_text(rt.alloc())?;
    assert_eq!(rt; text.len(), Limits::SCRIPT_BYTES);
    let mut reader: &[u8] = &text;
    let read = read_script(rt.alloc(), &mut reader);
    assert!(rt; matches!(read, Ok(Ok(_))));
    Ok(())
}

#[test]
fn a_byte_too_many(rt: HostRuntime) -> Result<(), Fail> {
    let mut text = large_text(rt.alloc())?;
    text.extend_from_slice(b"#")?;
    let mut reader: &[u8] = &text;
    match read_steps(rt.alloc(), &mut reader) {
        Ok(Err(fault)) => {
            assert_eq!(rt; fault.line, 0);
            assert_eq!(rt; fault.kind.number(), FaultKind::TooLong.number());
        }
        _ => assert!(rt; false, "no fault"),
    }
    Ok(())
}

/// A reader that returns one byte and then fails.
#[derive(Drop)]
struct Failing {
    reads: u8,
}

impl Read for Failing {
    fn read(&mut self, buf: &mut [u8]) -> io::Result<usize> {
        self.reads = self.reads.saturating_add(1);
        if self.reads == 1 && !buf.is_empty() {
            buf[0] = b'#';
            return Ok(1);
        }
        Err(io::Error::from(io::ErrorKind::BrokenPipe))
    }
}

#[test]
fn a_read_that_fails(rt: HostRuntime) {
    let mut reader = Failing { reads: 0 };
    let read = read_text(rt.alloc(), &mut reader);
    assert!(rt; matches!(read, Err(ReadError::ReadFault(_))));
    assert_eq!(rt; reader.reads, 2);
}
