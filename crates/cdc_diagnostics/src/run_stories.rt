//! What didn't go straight through in a run, as its broker and its subscribers saw it.

use crate::movements::Movement;
use crate::texts::Text;
use cdc_broker_actors::{Carried, Fate, Repeat, Repeats, Sending, Span, Story};
use std::alloc::{AllocError, Global};

/// A line for each event, and for the end mark, that was lost, whose confirm was lost, that was ignored or that was
/// sent again, in the ledger's order: each session that sent it, and what became of it then. If memory ran out in the
/// run for one of them, a line reports so. Fails if it is out of memory.
pub fn story_lines(alloc: Global, story: &Story) -> Result<String, AllocError> {
    let mut text = Text::new(alloc);
    let mut sendings = story.sendings().to_vec(alloc)?;
    sendings.sort_by_key(|sending| sending.carried.order())?;
    let mut last = None;
    for sending in sendings.as_slice() {
        let order = sending.carried.order();
        if last != Some(order) {
            if last.is_some() {
                text.push("\n");
            }
            push_first(&mut text, story.spans(), sending);
            last = Some(order);
        } else {
            push_sending(
                &mut text,
                "; sent again by session ",
                sending.session,
                sending.fate,
            );
        }
    }
    if last.is_some() {
        text.push("\n");
    }
    if !story.is_whole() {
        text.push("out of memory: not all publishes are listed\n");
    }
    text.finish()
}

/// Adds the first publish that a line reports of an item.
fn push_first(text: &mut Text, spans: &[Span], sending: &Sending) {
    push_carried(text, &sending.carried);
    text.push(": ");
    let mut words = "sent by session ";
    if sending.is_again {
        // (only what was taken and confirmed at once isn't noted)
        if let Some(session) = first_session(spans, sending.carried.order()) {
            push_sending(text, words, session, Fate::Taken);
            words = "; sent again by session ";
        }
    }
    push_sending(text, words, sending.session, sending.fate);
}

/// The first session that published the item at this place of the ledger's order. None if none did.
fn first_session(spans: &[Span], order: u64) -> Option<u64> {
    for span in spans {
        if span.first <= order && order <= span.last {
            return Some(span.session);
        }
    }
    None
}

/// Adds which session sent an item, and what became of it.
fn push_sending(text: &mut Text, words: &str, session: u64, fate: Fate) {
    text.push(words);
    text.push_number(u128::from(session));
    text.push(match fate {
        Fate::Taken => ", taken",
        Fate::ConfirmLost => ", taken, its confirm lost",
        Fate::Lost => ", lost",
        Fate::Skipped => ", ignored",
    });
}

fn push_carried(text: &mut Text, carried: &Carried) {
    match carried {
        Carried::Event(event) => {
            text.push("event ");
            text.push_number(u128::from(event.timestamp));
            text.push(", ");
            Movement::of(event).push_to(text);
        }
        Carried::EndMark => text.push("end mark"),
    }
}

/// A line for each delivery that the subscriber of this number took for a duplicate, in the order in which they came.
/// If memory ran out in the run for one of them, a line reports so. Fails if it is out of memory.
pub fn repeat_lines(
    alloc: Global,
    subscriber: u64,
    repeats: &Repeats,
) -> Result<String, AllocError> {
    let mut text = Text::new(alloc);
    for Repeat { position, carried } in repeats.as_slice() {
        text.push("again ");
        text.push_number(u128::from(subscriber));
        text.push(": position ");
        text.push_number(u128::from(*position));
        text.push(", ");
        push_carried(&mut text, carried);
        text.push("\n");
    }
    if !repeats.is_whole() {
        text.push("again ");
        text.push_number(u128::from(subscriber));
        text.push(": out of memory: not all are listed\n");
    }
    text.finish()
}

/// The line of the subscriber of this number: how many deliveries came to it, how many of them it applied, how many
/// it took for duplicates, if that is known, and how many are left. Fails if it is out of memory.
pub fn subscriber_line(
    alloc: Global,
    subscriber: u64,
    deliveries: u64,
    applied: u64,
    repeats: Option<&Repeats>,
) -> Result<String, AllocError> {
    let mut text = Text::new(alloc);
    text.push("subscriber ");
    text.push_number(u128::from(subscriber));
    text.push(": ");
    push_count(&mut text, deliveries, " delivery, ", " deliveries, ");
    text.push_number(u128::from(applied));
    text.push(" applied, each once");
    let others = deliveries.saturating_sub(applied);
    match repeats {
        Some(repeats) if repeats.is_whole() => {
            let again = repeats.as_slice().len() as u64;
            text.push("; ");
            text.push_number(u128::from(again));
            text.push(" redelivered, applied no second time");
            push_others(&mut text, others.saturating_sub(again), "");
        }
        _ => push_others(&mut text, others, ", if not redelivered,"),
    }
    text.push("\n");
    text.finish()
}

/// Adds what so many other deliveries may have been, with these words after their count.
fn push_others(text: &mut Text, others: u64, words: &str) {
    match others {
        0 => {}
        1 => {
            text.push("; the other one");
            text.push(words);
            text.push(" is an end mark, or came after a close");
        }
        _ => {
            text.push("; the other ");
            text.push_number(u128::from(others));
            text.push(words);
            text.push(" are end marks, or came after a close");
        }
    }
}

/// Adds a count, with the word for one or for many after it.
fn push_count(text: &mut Text, count: u64, one: &str, many: &str) {
    text.push_number(u128::from(count));
    text.push(if count == 1 { one } else { many });
}
