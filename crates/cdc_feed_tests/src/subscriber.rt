//! What subscribers answer and print, by worked examples, and that their allocations succeed.

use cdc_data_tests::bodies::FIRST;
use cdc_message::{DecodeError, Delivery, Item, Message, decode};
use cdc_subscriber::{Book, BookEntry, Subscriber, TakeError, Taking};
use cdc_types::Balances;
use std::alloc::{AllocError, Global};
use std::io;
use std::io::Write;
use std::process::Abort;
use std::test::Fail;

// What is delivered to a subscriber.
enum Handed {
    First,
    // The first body, after the first text in it is replaced with the second.
    Changed(&'static str, &'static str),
    End,
    Close,
}

// What is delivered to a subscriber, each with the expected answer, and what the subscriber prints after that.
struct Row {
    what: &'static str,
    delivered: &'static [(Handed, Option<Result<Taking, TakeError>>)],
    printed: &'static str,
}

const APPLIED: Option<Result<Taking, TakeError>> = Some(Ok(Taking::Applied));

const REPEAT: Option<Result<Taking, TakeError>> = Some(Ok(Taking::Repeat));

const ENDED: Option<Result<Taking, TakeError>> = Some(Ok(Taking::Ended));

const AFTER_CLOSE: Option<Result<Taking, TakeError>> = Some(Ok(Taking::AfterClose));

const NOT_JSON: Option<Result<Taking, TakeError>> = Some(Err(TakeError::Decode(
    DecodeError::NotJson,
)));

static ROWS: [Row; 7] = [
    Row {
        what: "nothing",
        delivered: &[],
        printed: "subscriber 1 applied 0 last 0 ended no closed no\n",
    },
    Row {
        what: "a repeat, a body cut by a byte, and bodies after the close",
        delivered: &[
            (Handed::First, APPLIED),
            (Handed::First, REPEAT),
            (Handed::Changed("phase\"}", "phase\""), NOT_JSON),
            (Handed::Close, None),
            (Handed::Changed("2000", "2001"), AFTER_CLOSE),
            (Handed::Changed("phase\"}", "phase\""), AFTER_CLOSE),
            (Handed::End, AFTER_CLOSE),
            (Handed::Close, None),
        ],
        printed: "subscriber 1 applied 1 last 2000 ended no closed yes\naccount 1 0 100 0 0\naccount 2 0 0 0 100\n",
    },
    Row {
        what: "bodies after the end",
        delivered: &[
            (Handed::End, ENDED),
            (Handed::First, REPEAT),
            (Handed::Changed("phase\"}", "phase\""), REPEAT),
            (Handed::End, REPEAT),
        ],
        printed: "subscriber 1 applied 0 last 0 ended yes closed no\n",
    },
    Row {
        what: "a close after the end",
        delivered: &[
            (Handed::End, ENDED),
            (Handed::Close, None),
            (Handed::End, AFTER_CLOSE),
        ],
        printed: "subscriber 1 applied 0 last 0 ended yes closed yes\n",
    },
    Row {
        what: "an event at timestamp 0",
        delivered: &[(Handed::Changed("2000", "0"), REPEAT)],
        printed: "subscriber 1 applied 0 last 0 ended no closed no\n",
    },
    Row {
        what: "an event that comes late, and a later one",
        delivered: &[
            (Handed::Changed("2000", "2001"), APPLIED),
            (Handed::First, REPEAT),
            (Handed::Changed("2000", "2002"), APPLIED),
        ],
        printed: "subscriber 1 applied 2 last 2002 ended no closed no\naccount 1 0 100 0 0\naccount 2 0 0 0 100\n",
    },
    Row {
        what: "one account on both sides",
        delivered: &[(Handed::Changed("\"id\":\"2\"", "\"id\":\"1\""), APPLIED)],
        printed: "subscriber 1 applied 1 last 2000 ended no closed no\naccount 1 0 0 0 100\n",
    },
];

fn deliver(
    alloc: Global,
    subscriber: &mut Subscriber,
    delivered: &Handed,
) -> Result<Option<Result<Taking, TakeError>>, AllocError> {
    match delivered {
        Handed::First => Ok(Some(subscriber.take_body(alloc, FIRST.as_bytes()))),
        Handed::Changed(from, to) => {
            let body = FIRST.replace(alloc, from, to)?;
            Ok(Some(subscriber.take_body(alloc, body.as_bytes())))
        }
        Handed::End => Ok(Some(Ok(subscriber.take_end()))),
        Handed::Close => {
            subscriber.close();
            Ok(None)
        }
    }
}

#[test]
fn bodies_ends_and_closes(rt: HostRuntime) -> Result<(), Fail> {
    for row in ROWS.iter() {
        let mut subscriber = Subscriber::new(rt.alloc());
        for (delivered, answer) in row.delivered {
            let given = deliver(rt.alloc(), &mut subscriber, delivered)?;
            assert_eq!(rt; given, *answer, "{}", row.what);
        }
        let mut printed = Vec::new(rt.alloc());
        subscriber.print(&mut printed, 1)?;
        assert_eq!(rt; printed.as_slice(), row.printed.as_bytes(), "{}", row.what);
    }
    Ok(())
}

const MANY: u64 = 10_000;

// Takes many events, each of two accounts, and the end mark.
fn take_many(rt: &impl Abort, alloc: Global, subscriber: &mut Subscriber) -> Result<(), Fail> {
    let mut event = decode(alloc, FIRST.as_bytes())?;
    for position in 1..MANY + 1 {
        event.timestamp = position;
        event.debit_account.id = u128::from(position);
        event.credit_account.id = u128::from(position) + 1;
        let item = Item::Event(Message::of(alloc, &event)?);
        let delivery = Delivery { position, item };
        assert_eq!(rt; subscriber.take(alloc, &delivery), Ok(Taking::Applied));
    }
    let end = Delivery {
        position: MANY + 1,
        item: Item::EndMark,
    };
    assert_eq!(rt; subscriber.take(alloc, &end), Ok(Taking::Ended));
    Ok(())
}

// Asserts what a subscriber shows that has taken many events.
fn shows_many(rt: &impl Abort, alloc: Global, subscriber: &Subscriber) -> Result<(), Fail> {
    assert_eq!(rt;
        (subscriber.applied_count(), subscriber.last()),
        (MANY, MANY)
    );
    assert_eq!(rt; (subscriber.ended(), subscriber.closed()), (true, false));
    let book = subscriber.book();
    let last = Balances {
        debits_pending: 0,
        debits_posted: 0,
        credits_pending: 0,
        credits_posted: 100,
    };
    assert_eq!(rt; book.len(), 10_001);
    assert!(rt; !book.is_empty());
    assert_eq!(rt; (book.get(10_001), book.get(10_002)), (Some(last), None));
    assert_eq!(rt;
        (book.at_place(10_000), book.at_place(10_001)),
        (Some((10_001, last)), None)
    );
    let mut printed = Vec::new(alloc);
    subscriber.print(&mut printed, 1)?;
    assert!(rt; printed.as_slice().ends_with(b"account 10001 0 0 0 100\n"));
    Ok(())
}

// Calls both on one subscriber.
fn take_and_show(rt: &impl Abort, alloc: Global, subscriber: &mut Subscriber) -> Result<(), Fail> {
    take_many(rt, alloc, subscriber)?;
    shows_many(rt, alloc, subscriber)
}

#[test]
fn many_deliveries(rt: HostRuntime) -> Result<(), Fail> {
    let mut subscriber = Subscriber::new(rt.alloc());
    take_and_show(&rt, rt.alloc(), &mut subscriber)
}

// A writer that takes one text, then fails once, and would continue after that.
#[derive(Drop)]
struct BrokenWriter {
    writes: u32,
}

impl Write for BrokenWriter {
    fn write(&mut self, buf: &[u8]) -> io::Result<usize> {
        self.writes = self.writes.saturating_add(1);
        if self.writes == 2 {
            return Err(io::Error::from(io::ErrorKind::BrokenPipe));
        }
        Ok(buf.len())
    }

    fn flush(&mut self) -> io::Result<()> {
        Ok(())
    }
}

#[test]
fn a_write_that_fails(rt: HostRuntime) {
    let subscriber = Subscriber::new(rt.alloc());
    let mut writer = BrokenWriter { writes: 0 };
    assert!(rt; subscriber.print(&mut writer, 1).is_err());
    assert_eq!(rt; writer.writes, 2);
}

// A copy of a book, account by account.
fn copy_of(rt: &impl Abort, alloc: Global, book: &Book) -> Result<Book, AllocError> {
    let mut copy = Book::new(alloc);
    for place in 0..book.len() {
        if let Some((id, balances)) = book.at_place(place) {
            assert_eq!(rt; copy.push(BookEntry { id, balances })?, true);
        }
    }
    Ok(copy)
}

#[test]
fn a_book_has_an_account_once(rt: HostRuntime) -> Result<(), Fail> {
    let mut book = Book::new(rt.alloc());
    let balances = Balances {
        debits_pending: 1,
        debits_posted: 2,
        credits_pending: 3,
        credits_posted: 4,
    };
    assert_eq!(rt; book.push(BookEntry { id: 7, balances })?, true);
    let other = Balances {
        debits_posted: 5,
        ..balances
    };
    assert_eq!(rt;
        book.push(BookEntry {
            id: 7,
            balances: other
        })?,
        false
    );
    assert_eq!(rt; (book.len(), book.get(7)), (1, Some(balances)));
    Ok(())
}

// A subscriber that goes on from what another one keeps does as that one would.
#[test]
fn a_resumed_subscriber_goes_on(rt: HostRuntime) -> Result<(), Fail> {
    let mut first = Subscriber::new(rt.alloc());
    let mut event = decode(rt.alloc(), FIRST.as_bytes())?;
    assert_eq!(rt; first.take_event(&event), Ok(Taking::Applied));
    let book = copy_of(&rt, rt.alloc(), first.book())?;
    let mut second = Subscriber::resume(book, first.last(), first.applied_count(), first.ended());
    assert_eq!(rt; second.take_event(&event), Ok(Taking::Repeat));
    event.timestamp = 2001;
    event.credit_account.id = 9;
    assert_eq!(rt; second.take_event(&event), Ok(Taking::Applied));
    assert_eq!(rt; second.take_end(), Taking::Ended);
    event.timestamp = 2002;
    assert_eq!(rt; second.take_event(&event), Ok(Taking::Repeat));
    let mut printed = Vec::new(rt.alloc());
    second.print(&mut printed, 1)?;
    let expected =
        "subscriber 1 applied 2 last 2001 ended yes closed no\naccount 1 0 100 0 0\naccount 2 0 0 0 100\naccount 9 0 0 0 100\n";
    assert_eq!(rt; printed.as_slice(), expected.as_bytes());
    Ok(())
}
