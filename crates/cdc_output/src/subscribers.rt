//! The lines of subscribers.

ghost use Rattle.std.specs.Prelude.{◌≡◌, ◌++◌, map, OnOk};
ghost use Rattle.cdc_output.specs.Lines.{account_value, json_line, json_lines, kept_values, subscriber_value, subscriber_values};

use crate::lines::Field::{Flag, Number, Wide};
use crate::lines::{Lines, Member};
use cdc_subscriber::{Book, BookEntry, Subscriber};
use std::alloc::{AllocError, Global};

/// Adds the lines of subscribers, which are numbered from 1.
pub fn push_subscribers(
    alloc: Global,
    lines: &mut Lines,
    subscribers: &[Subscriber],
) -> Result<(), AllocError>
    ensures { OnOk result (lines.new.text.items
        ≡ lines.old.text.items ++ json_lines (kept_values 1 subscribers.now)) }
{
    for place in 0..subscribers.len() {
        push_subscriber(alloc, lines, place as u64 + 1, &subscribers[place])?;
    }
    Ok(())
}

/// Adds the lines of the subscriber with this number, from 1: its state, and its book.
pub fn push_subscriber(
    alloc: Global,
    lines: &mut Lines,
    number: u64,
    subscriber: &Subscriber,
) -> Result<(), AllocError>
    ensures { OnOk result (lines.new.text.items
        ≡ lines.old.text.items ++ json_lines (subscriber_values number subscriber.now)) }
{
    push_progress(alloc, lines, number, subscriber)?;
    push_book(alloc, lines, number, subscriber.book())
}

/// Adds the line of a subscriber's state, without its book.
fn push_progress(
    alloc: Global,
    lines: &mut Lines,
    number: u64,
    subscriber: &Subscriber,
) -> Result<(), AllocError>
    ensures { OnOk result (lines.new.text.items
        ≡ lines.old.text.items ++ json_line (subscriber_value number subscriber.now)) }
{
    lines.push(
        alloc,
        "subscriber",
        &[
            Member("subscriber", Number(number)),
            Member("applied", Number(subscriber.applied_count())),
            Member("last", Wide(subscriber.last().into())),
            Member("ended", Flag(subscriber.ended())),
            Member("closed", Flag(subscriber.closed())),
        ],
    )
}

/// Adds the lines of the accounts in a subscriber's book.
fn push_book(alloc: Global, lines: &mut Lines, number: u64, book: &Book) -> Result<(), AllocError>
    ensures { OnOk result (lines.new.text.items
        ≡ lines.old.text.items ++ json_lines (map (account_value number) book.now)) }
{
    for place in 0..book.len() {
        if let Some((id, balances)) = book.at_place(place) {
            push_account(alloc, lines, number, BookEntry { id, balances })?;
        }
    }
    Ok(())
}

/// Adds the line of an account in a subscriber's book.
fn push_account(
    alloc: Global,
    lines: &mut Lines,
    number: u64,
    entry: BookEntry,
) -> Result<(), AllocError>
    ensures { OnOk result (lines.new.text.items
        ≡ lines.old.text.items ++ json_line (account_value number entry)) }
{
    let balances = entry.balances;
    lines.push(
        alloc,
        "account",
        &[
            Member("subscriber", Number(number)),
            Member("id", Wide(entry.id)),
            Member("debits_pending", Wide(balances.debits_pending)),
            Member("debits_posted", Wide(balances.debits_posted)),
            Member("credits_pending", Wide(balances.credits_pending)),
            Member("credits_posted", Wide(balances.credits_posted)),
        ],
    )
}
