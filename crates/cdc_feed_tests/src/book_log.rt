//! A book's log, by a worked example: written, read back, cut after each byte, and with a record that was not written
//! whole.

use cdc_book_log::{SavedLog, read_log, record_text, without_accounts};
use cdc_data_tests::bodies::FIRST;
use cdc_follow::{Content, Entry, Follower, write_book};
use cdc_keys::HashKey;
use cdc_match::Binding;
use cdc_message::decode;
use cdc_subscriber::Subscriber;
use std::alloc::{AllocError, Global};
use std::test::Fail;

// A log of one record, that of the first event, and what a saved book has before and after that event.
#[derive(Drop)]
struct Example {
    base: Vec<u8>,
    log: Vec<u8>,
    before: Vec<u8>,
    after: Vec<u8>,
}

fn book_of(alloc: Global, follower: &Follower) -> Result<Vec<u8>, AllocError> {
    let mut text = Vec::new(alloc);
    match write_book(&mut text, false, b"all", follower) {
        Ok(()) => Ok(text),
        Err(_) => Err(AllocError),
    }
}

// `None` if the first event can't be read or taken.
fn log_of_an_event(alloc: Global) -> Option<Example> {
    let event = decode(alloc, FIRST.as_bytes()).ok()?;
    let entry = Entry {
        content: Content::Event(event),
        previous: None,
    };
    let binding = Binding::parse(alloc, &["all"]).ok()?;
    let mut follower = Follower::new(Subscriber::new(alloc), 0);
    let mut change = without_accounts(alloc, &follower);
    let base = record_text(alloc, 0, false, b"all", &follower).ok()?;
    let before = book_of(alloc, &follower).ok()?;
    let _outcome = follower.take(&binding, &entry).ok()?;
    let _same = change.take(&binding, &entry).ok()?;
    let record = record_text(alloc, 1, false, b"all", &change).ok()?;
    let mut log = base.clone().ok()?;
    log.extend_from_slice(record.as_slice()).ok()?;
    Some(Example {
        base,
        log,
        before,
        after: book_of(alloc, &follower).ok()?,
    })
}

// Whether a log was read that has this many records in this many bytes, and whose follower has this book.
fn is_read(
    alloc: Global,
    read: Option<SavedLog>,
    records: u64,
    whole: usize,
    book: &[u8],
) -> Result<bool, AllocError> {
    match read {
        Some(log) => {
            let text = book_of(alloc, &log.follower)?;
            Ok(log.records == records && log.whole == whole && text.as_slice() == book)
        }
        None => Ok(false),
    }
}

#[test]
fn a_cut_log_is_that_of_the_last_whole_record(rt: HostRuntime) -> Result<(), Fail> {
    let alloc = rt.alloc();
    let made = log_of_an_event(alloc).expect(&rt, "an example");
    let text = made.log.as_slice();
    for cut in 0..text.len() {
        let read = read_log(alloc, HashKey::Fixed, &text[..cut])?;
        if cut < made.base.len() {
            assert!(rt; read.is_none());
        } else {
            assert!(rt; is_read(alloc, read, 0, made.base.len(), made.before.as_slice())?);
        }
    }
    let read = read_log(alloc, HashKey::Fixed, text)?;
    assert!(rt; is_read(alloc, read, 1, text.len(), made.after.as_slice())?);
    Ok(())
}

// The bytes between the lines of the record are 0.
#[test]
fn a_last_record_without_a_book_is_ignored(rt: HostRuntime) -> Result<(), Fail> {
    let alloc = rt.alloc();
    let made = log_of_an_event(alloc).expect(&rt, "an example");
    let base = made.base.len();
    let mut text = made.base.clone()?;
    text.extend_from_slice(b"book 1 bytes 4\n\0\0\0\0end 1 bytes 4\n")?;
    let read = read_log(alloc, HashKey::Fixed, text.as_slice())?;
    assert!(rt; is_read(alloc, read, 0, base, made.before.as_slice())?);
    text.extend_from_slice(b"b")?;
    assert!(rt; read_log(alloc, HashKey::Fixed, text.as_slice())?.is_none());
    Ok(())
}

// A saved book isn't a log.
#[test]
fn a_book_is_no_log(rt: HostRuntime) -> Result<(), Fail> {
    let alloc = rt.alloc();
    let made = log_of_an_event(alloc).expect(&rt, "an example");
    assert!(rt; read_log(alloc, HashKey::Fixed, made.after.as_slice())?.is_none());
    Ok(())
}
