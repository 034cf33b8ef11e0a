//! The JSON lines of what must come of deliveries.

ghost use Rattle.std.specs.Prelude.{◌≡◌, ◌++◌, IfOk, List, OnOk, map, string_bytes};
ghost use Rattle.std.specs.List.{join_with_byte};
ghost use Rattle.cdc_types.specs.declared.events.Event.{Event as SomeEvent};
ghost use Rattle.cdc_queue_lines.specs.Lines.{ended};
ghost use Rattle.cdc_subscriber.specs.Book.{entry_of};
ghost use Rattle.cdc_subscriber.specs.Answers.{answer_to};
ghost use Rattle.cdc_subscriber.specs.Reception.{Reception, kept_of, next as next_reception};
ghost use Rattle.cdc_deliveries.specs.Expected.{changed, entry_text, expected_line, expected_text, item_of};
ghost use Rattle.cdc_deliveries.specs.Expected.{answer_line, next_placed, result_text as result_named};
ghost use Rattle.cdc_deliveries.specs.DeliveryLines.{line_of};
ghost use Rattle.cdc_deliveries.specs.Feeds.{placed};
ghost use Rattle.cdc_deliveries.specs.Indexes.{IsIndexOf};

use crate::arrivals::Arrival;
use crate::feeds::{FeedIndex, Placed};
use crate::lines::push_field;
use cdc_log::EventLog;
use cdc_match::Binding;
use cdc_subscriber::{Subscriber, Taking};
use cdc_types::{Event, EventAccount};
use std::alloc::{AllocError, Global};

/// The JSON lines of what must come of the deliveries to a subscriber with this binding: for each arrival what a
/// subscriber that takes them answers, how many events it has applied then and the timestamp of the last one, and the
/// accounts that change. An error means out of memory.
pub fn expected_lines(
    alloc: Global,
    log: &EventLog,
    binding: &Binding,
    arrivals: &[Arrival],
) -> Result<Vec<u8>, AllocError>
    ensures { IfOk result (λ text. text.items ≡ expected_text binding.now log.now.events arrivals.now) }
{
    let index = FeedIndex::new(alloc, log, binding)?;
    let mut text = String::new(alloc);
    let mut subscriber = Subscriber::new(alloc);
    for (place, arrival) in arrivals.iter().enumerate() {
        push_arrival(
            &mut text,
            &mut subscriber,
            &index,
            place as u64 + 1,
            arrival,
        )?;
    }
    Ok(text.into_bytes())
}

/// Lets a subscriber take the item of the arrival of this number, if the feed has it, and adds the line of what comes
/// of it.
fn push_arrival(
    text: &mut String,
    subscriber: &mut Subscriber,
    index: &FeedIndex,
    number: u64,
    arrival: &Arrival,
) -> Result<(), AllocError>
    ensures stands { (reception : Reception) → subscriber.old ≡ kept_of reception → (fed : List SomeEvent)
        → IsIndexOf index.now fed
        → OnOk result (subscriber.new ≡ kept_of (next_placed reception (placed fed arrival.now.item))) }
    ensures line { (reception : Reception) → subscriber.old ≡ kept_of reception → (fed : List SomeEvent)
        → IsIndexOf index.now fed
        → OnOk result (string_bytes text.new
        ≡ string_bytes text.old ++ line_of (answer_line number reception) (placed fed arrival.now.item)) }
{
    let Some(placed) = index.find(arrival.item) else {
        return Ok(());
    };
    let answer = take(subscriber, placed)?;
    push_expected(text, number, answer, subscriber, placed)
}

/// Lets a subscriber take an item.
fn take(subscriber: &mut Subscriber, placed: Placed) -> Result<Taking, AllocError>
    ensures answer { IfOk result (λ answer. answer ≡ answer_to subscriber.old (item_of placed.event)) }
    ensures stands { (reception : Reception) → subscriber.old ≡ kept_of reception
        → OnOk result (subscriber.new ≡ kept_of (next_reception reception (item_of placed.event))) }
{
    match placed.event {
        Some(event) => subscriber.take_event(&event).map_err(|_| AllocError),
        None => Ok(subscriber.take_end()),
    }
}

/// Adds the line of the delivery of this number, to which the subscriber gave this answer.
fn push_expected(
    text: &mut String,
    number: u64,
    answer: Taking,
    subscriber: &Subscriber,
    placed: Placed,
) -> Result<(), AllocError>
    ensures { OnOk result (string_bytes text.new ≡ string_bytes text.old
        ++ ended (expected_line number answer subscriber.now placed.event)) }
{
    push_field(text, "{\"kind\":\"expect\",\"delivery\":", number)?;
    text.push_str(",\"result\":\"")?;
    text.push_str(result_text(answer))?;
    push_field(text, "\",\"applied\":", subscriber.applied_count())?;
    push_field(text, ",\"last\":\"", subscriber.last())?;
    text.push_str("\",\"accounts\":[")?;
    push_changed(text, answer, placed.event)?;
    text.push_str("]}\n")?;
    Ok(())
}

/// Adds the objects of the accounts that an answer to an item changes.
fn push_changed(text: &mut String, answer: Taking, event: Option<Event>) -> Result<(), AllocError>
    ensures { OnOk result (string_bytes text.new
        ≡ string_bytes text.old ++ join_with_byte 44 (map entry_text (changed answer event))) }
{
    match (answer, event) {
        (Taking::Applied, Some(event)) => {
            push_account(text, &event.debit_account)?;
            text.push_str(",")?;
            push_account(text, &event.credit_account)
        }
        _ => Ok(()),
    }
}

fn result_text(answer: Taking) -> &'static str
    ensures { result.now ≡ result_named answer }
{
    match answer {
        Taking::Applied => "applied",
        Taking::Repeat => "duplicate",
        Taking::Ended => "end",
        Taking::AfterClose => "closed",
    }
}

/// Adds the object of an account of an event, with its balances.
fn push_account(text: &mut String, account: &EventAccount) -> Result<(), AllocError>
    ensures { OnOk result (string_bytes text.new
        ≡ string_bytes text.old ++ entry_text (entry_of account.now)) }
{
    push_field(text, "{\"id\":\"", account.id)?;
    push_field(text, "\",\"debits_pending\":\"", account.debits_pending)?;
    push_field(text, "\",\"debits_posted\":\"", account.debits_posted)?;
    push_field(text, "\",\"credits_pending\":\"", account.credits_pending)?;
    push_field(text, "\",\"credits_posted\":\"", account.credits_posted)?;
    text.push_str("\"}")?;
    Ok(())
}
