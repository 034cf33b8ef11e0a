//! The public calls of a subscriber and its book.

use crate::values::EVENT;
use cdc_message::{DecodeError, Delivery, Item, Message, encode};
use cdc_subscriber::{Book, Subscriber, TakeError, Taking};
use cdc_types::Balances;
use std::io;

const ERRORS: [TakeError; 2] = [
    TakeError::Decode(DecodeError::NotJson),
    TakeError::OutOfMemory,
];

fn error(error: TakeError) -> (u8, &'static str) {
    match error {
        TakeError::Decode(_) => (1, "decode"),
        TakeError::OutOfMemory => (2, "out_of_memory"),
    }
}

#[test]
fn errors_of_subscribers_have_numbers_and_names(rt: HostRuntime) {
    for fault in ERRORS {
        let number: u8 = fault.number();
        let name: &'static str = fault.name();
        assert_eq!(rt; (number, name), error(fault));
    }
}

fn word_of(taking: Taking) -> &'static str {
    match taking {
        Taking::Applied => "applied",
        Taking::Repeat => "repeat",
        Taking::Ended => "ended",
        Taking::AfterClose => "after close",
    }
}

#[test]
fn a_subscriber_takes_what_comes(rt: HostRuntime) {
    let mut subscriber: Subscriber = Subscriber::new(rt.alloc());
    let delivery = Delivery {
        position: 1,
        item: Item::Event(Message::of(rt.alloc(), &EVENT).expect(&rt, "memory")),
    };
    let taken: Result<Taking, TakeError> = subscriber.take(rt.alloc(), &delivery);
    assert_eq!(rt; word_of(taken.expect(&rt, "memory")), "applied");
    let body = encode(rt.alloc(), &EVENT).expect(&rt, "memory");
    let taken: Result<Taking, TakeError> = subscriber.take_body(rt.alloc(), body.as_bytes());
    assert_eq!(rt; word_of(taken.expect(&rt, "memory")), "repeat");
    let taken: Taking = subscriber.take_end();
    assert_eq!(rt; word_of(taken), "ended");
    subscriber.close();
    assert_eq!(rt; word_of(subscriber.take_end()), "after close");
    let (closed, ended): (bool, bool) = (subscriber.closed(), subscriber.ended());
    let (last, count): (u64, u64) = (subscriber.last(), subscriber.applied_count());
    assert_eq!(rt; (closed, ended, last, count), (true, true, 2000, 1));
}

#[test]
fn a_subscriber_has_a_book(rt: HostRuntime) {
    let mut subscriber = Subscriber::new(rt.alloc());
    let body = encode(rt.alloc(), &EVENT).expect(&rt, "memory");
    let _taken = subscriber.take_body(rt.alloc(), body.as_bytes());
    let book: &Book = subscriber.book();
    let len: usize = book.len();
    let balances: Option<Balances> = book.get(2);
    let second: Option<(u128, Balances)> = book.at_place(1);
    assert_eq!(rt; (len, second), (2, balances.map(|balances| (2, balances))));
    let mut text: Vec<u8> = Vec::new(rt.alloc());
    let printed: io::Result<()> = subscriber.print(&mut text, 1);
    assert!(rt; printed.is_ok() && text.starts_with(b"subscriber 1 applied 1 last 2000"));
}
