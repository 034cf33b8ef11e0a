//! Makes one call that may run out of memory on a fixed value, and makes it again if it was refused. This program is
//! only for tests, which refuse allocations beneath it (tests/faults/sweep.py).
//!
//!   cdc_calls NAME    NAME: items, batch, results, delivery, packet, binding or body, which are copied or taken;
//!                     message, parsed, script, steps; accounts, transfers, pulse (submitted to a ledger); log, index,
//!                     read (of a log), queue, messages, predecessors; broker, publish, next; session; world, submit,
//!                     start, poll, send, arrive, deliver, take (steps of a world); taken, foreign (deliveries and
//!                     bodies that a subscriber takes); entry, follow, book; audit, state, resume
//!
//! Before the call it prints `made` on standard error. Then it prints what the last call gave, and how many were
//! refused. The exit status is 0 if all this was done, 2 if the value wasn't made or the arguments weren't read, 4 if
//! the last call was refused too, 8 for other arguments, and 9 if a write failed.
#![tactic(auto)]

mod feeds;
mod logs;
mod moves;
mod reports;
mod streams;
mod tries;
mod trying;
mod values;

use cdc_broker::Taken;
use cdc_ledger::Ledger;
use cdc_message::{Delivery, Item, Packet};
use cdc_subscriber::Subscriber;
use cdc_types::{Batch, BatchResults};
use moves::{delivered, message_of, parsed_binding, parsed_script, published, submitted, taken};
use reports::{CallsFault, made, report};
use std::process::ExitCode;
use std::{env, io};
use tries::{
    copied_batch, copied_binding, copied_delivery, copied_items, copied_packet, copied_results,
    taken_body,
};

fn try_items(rt: &HostRuntime) -> Result<(), CallsFault> {
    let items = made(rt, values::items(rt.alloc()))?;
    let copy = report(rt, copied_items(rt.alloc(), &items))?;
    for number in copy.as_slice() {
        println!(rt; "item {number}")?;
    }
    Ok(())
}

fn try_batch(rt: &HostRuntime) -> Result<(), CallsFault> {
    let batch = made(rt, values::batch(rt.alloc()))?;
    if let Batch::Accounts { now, items } = report(rt, copied_batch(rt.alloc(), &batch))? {
        println!(rt; "now {now}")?;
        for item in items.as_slice() {
            println!(rt; "account {} {} {}", item.id, item.ledger, item.code)?;
        }
    }
    Ok(())
}

fn try_results(rt: &HostRuntime) -> Result<(), CallsFault> {
    let results = made(rt, values::results(rt.alloc()))?;
    if let BatchResults::Transfers(items) = report(rt, copied_results(rt.alloc(), &results))? {
        for item in items.as_slice() {
            println!(rt; "result {}", item.name())?;
        }
    }
    Ok(())
}

// Prints the body of an item's message; nothing for an end mark.
fn show_item(rt: &HostRuntime, item: &Item) -> Result<(), CallsFault> {
    if let Item::Event(message) = item {
        println!(rt; "{}", message.body())?;
    }
    Ok(())
}

fn try_delivery(rt: &HostRuntime) -> Result<(), CallsFault> {
    let item = values::item(rt.alloc());
    let item = made(rt, item)?;
    let delivery = Delivery { position: 7, item };
    let copy = report(rt, copied_delivery(rt.alloc(), &delivery))?;
    println!(rt; "position {}", copy.position)?;
    show_item(rt, &copy.item)
}

fn try_packet(rt: &HostRuntime) -> Result<(), CallsFault> {
    let item = made(rt, values::item(rt.alloc()))?;
    let packet = Packet::Publish {
        session: 3,
        tag: 9,
        item,
    };
    if let Packet::Publish { session, tag, item } = report(
        rt,
        copied_packet(rt.alloc(), &packet),
    )? {
        println!(rt; "session {session} tag {tag}")?;
        show_item(rt, &item)?;
    }
    Ok(())
}

fn try_binding(rt: &HostRuntime) -> Result<(), CallsFault> {
    let binding = made(rt, values::binding(rt.alloc()))?;
    let copy = report(rt, copied_binding(rt.alloc(), &binding))?;
    let equal = copy.mode() == binding.mode() && copy.pairs() == binding.pairs();
    println!(rt; "pairs {} equal {equal}", copy.pairs().len())?;
    Ok(())
}

fn try_body(rt: &HostRuntime, body: Option<String>) -> Result<(), CallsFault> {
    let body = made(rt, body)?;
    let mut subscriber = Subscriber::new(rt.alloc());
    let taken = taken_body(rt.alloc(), &mut subscriber, body.as_bytes());
    println!(rt; "refused {}", taken.refused)?;
    if taken.last.is_err() {
        return Err(CallsFault::Refused);
    }
    println!(rt; "kept {}", taken.kept)?;
    subscriber.print(&mut io::writer(rt), 1)?;
    Ok(())
}

fn try_message(rt: &HostRuntime) -> Result<(), CallsFault> {
    made(rt, Some(()))?;
    let message = report(rt, message_of(rt.alloc(), &values::FIRST))?;
    println!(rt; "{}", message.body())?;
    Ok(())
}

fn try_parsed(rt: &HostRuntime) -> Result<(), CallsFault> {
    made(rt, Some(()))?;
    let binding = report(rt, parsed_binding(rt.alloc(), &values::BINDING))?;
    println!(rt; "pairs {}", binding.pairs().len())?;
    Ok(())
}

fn try_script(rt: &HostRuntime) -> Result<(), CallsFault> {
    made(rt, Some(()))?;
    let script = report(rt, parsed_script(rt.alloc(), values::SCRIPT.as_bytes()))?;
    let (bindings, batches) = (
        script.bindings.as_slice().len(),
        script.batches.as_slice().len(),
    );
    println!(rt; "bindings {bindings} batches {batches}")?;
    Ok(())
}

// Submits a batch, and prints what the ledger has then.
fn try_submit(
    rt: &HostRuntime,
    ledger: Option<Ledger>,
    batch: Option<Batch>,
) -> Result<(), CallsFault> {
    let (Some(mut ledger), Some(batch)) = (ledger, batch) else {
        return Err(CallsFault::NotMade);
    };
    made(rt, Some(()))?;
    let _results = report(rt, submitted(rt.alloc(), &mut ledger, &batch))?;
    let (accounts, entries) = (ledger.accounts().len(), ledger.entries().len());
    println!(rt;
        "accounts {accounts} entries {entries} last {}",
        ledger.last()
    )?;
    Ok(())
}

fn try_publish(rt: &HostRuntime) -> Result<(), CallsFault> {
    let broker = values::broker(rt.alloc());
    let first = values::item(rt.alloc());
    let second = values::item(rt.alloc());
    let (Some(mut broker), Some(first), Some(second)) = (broker, first, second) else {
        return Err(CallsFault::NotMade);
    };
    made(rt, Some(()))?;
    let taken = report(rt, published(rt.alloc(), &mut broker, first, second))?;
    let accepted = taken == Taken::Accepted;
    println!(rt; "accepted {accepted} length {}", values::length_of(&broker))?;
    Ok(())
}

fn try_next(rt: &HostRuntime) -> Result<(), CallsFault> {
    let mut broker = made(rt, values::full_broker(rt.alloc()))?;
    if broker.queue_count() == 0 {
        return Err(CallsFault::NotMade);
    }
    if let Some(delivery) = report(rt, delivered(rt.alloc(), &mut broker))? {
        println!(rt; "position {}", delivery.position)?;
        show_item(rt, &delivery.item)?;
    }
    Ok(())
}

// A subscriber takes a delivery; what it has applied is printed.
fn try_taken(rt: &HostRuntime) -> Result<(), CallsFault> {
    let item = made(rt, values::item(rt.alloc()))?;
    let delivery = Delivery { position: 1, item };
    let mut subscriber = Subscriber::new(rt.alloc());
    let _taking = report(rt, taken(rt.alloc(), &mut subscriber, &delivery))?;
    subscriber.print(&mut io::writer(rt), 1)?;
    Ok(())
}

/// Makes the call that the argument names.
fn run(rt: &HostRuntime) -> Result<(), CallsFault> {
    let Ok(args) = command_line_of(rt) else {
        return Err(CallsFault::NotMade);
    };
    let [name] = args.as_slice() else {
        return Err(CallsFault::BadWords);
    };
    match name.as_str() {
        "items" => try_items(rt),
        "batch" => try_batch(rt),
        "results" => try_results(rt),
        "delivery" => try_delivery(rt),
        "packet" => try_packet(rt),
        "binding" => try_binding(rt),
        "body" => try_body(rt, values::body(rt.alloc())),
        "foreign" => try_body(rt, values::foreign_body(rt.alloc())),
        "message" => try_message(rt),
        "parsed" => try_parsed(rt),
        "script" => try_script(rt),
        "accounts" => try_submit(
            rt,
            values::new_ledger(rt.alloc()),
            values::batch(rt.alloc()),
        ),
        "transfers" => try_submit(
            rt,
            values::ledger(rt.alloc()),
            values::transfers(rt.alloc()),
        ),
        "pulse" => try_submit(rt, values::pending_ledger(rt.alloc()), values::pulse()),
        "publish" => try_publish(rt),
        "next" => try_next(rt),
        "taken" => try_taken(rt),
        other => trying::run(rt, other),
    }
}

/// The arguments, without the program's own name.
fn command_line_of(rt: &HostRuntime) -> io::Result<Vec<String>> {
    let args: Vec<String> = env::args(rt)?.skip(1).collect(rt.alloc())?;
    Ok(args)
}

fn main(rt: HostRuntime) -> ExitCode {
    match run(&rt) {
        Ok(()) => ExitCode::SUCCESS,
        Err(fault) => ExitCode::from(fault.status()),
    }
}
