//! Has the calls on logs, feeds and streams made on their values, and prints what they gave.

use crate::feeds::{made_broker, made_world, parsed_steps, started, stepped};
use crate::logs::{
    lines_of_messages, lines_of_queue, made_predecessors, read_events, reserved_index, reserved_log,
};
use crate::reports::{CallsFault, made, report};
use crate::streams::{audited, followed, parsed_entry, printed_state, resumed_book, resumed_state};
use crate::values;
use cdc_expiry::DueIndex;
use cdc_follow::{Content, Entry, Follower};
use cdc_log::EventLog;
use cdc_progress::MemoryStore;
use cdc_subscriber::Subscriber;
use cdc_world::Did;
use std::io;

fn try_log(rt: &HostRuntime) -> Result<(), CallsFault> {
    let mut log = EventLog::new(rt.alloc());
    made(rt, Some(()))?;
    report(rt, reserved_log(&mut log))?;
    println!(rt; "room {}", log.room())?;
    Ok(())
}

fn try_index(rt: &HostRuntime) -> Result<(), CallsFault> {
    let mut index = DueIndex::new(rt.alloc());
    made(rt, Some(()))?;
    report(rt, reserved_index(&mut index))?;
    println!(rt; "enough {}", index.room() >= 1000)?;
    Ok(())
}

fn try_read(rt: &HostRuntime) -> Result<(), CallsFault> {
    let ledger = made(rt, values::event_ledger(rt.alloc()))?;
    for event in report(rt, read_events(rt.alloc(), ledger.log()))?.iter() {
        println!(rt; "event {}", event.timestamp)?;
    }
    Ok(())
}

fn print_text(rt: &HostRuntime, text: &[u8]) -> Result<(), CallsFault> {
    match str::from_utf8(text) {
        Ok(text) => print!(rt; "{text}")?,
        Err(_) => return Err(CallsFault::Refused),
    }
    Ok(())
}

fn try_queue(rt: &HostRuntime) -> Result<(), CallsFault> {
    let (ledger, binding) = (
        values::event_ledger(rt.alloc()),
        values::binding(rt.alloc()),
    );
    let (Some(ledger), Some(binding)) = (ledger, binding) else {
        return Err(CallsFault::NotMade);
    };
    made(rt, Some(()))?;
    let lines = report(rt, lines_of_queue(rt.alloc(), ledger.log(), &binding))?;
    print_text(rt, lines.as_slice())
}

fn try_messages(rt: &HostRuntime) -> Result<(), CallsFault> {
    let (ledger, bindings) = (
        values::event_ledger(rt.alloc()),
        values::bindings(rt.alloc()),
    );
    let (Some(ledger), Some(bindings)) = (ledger, bindings) else {
        return Err(CallsFault::NotMade);
    };
    made(rt, Some(()))?;
    let lines = report(
        rt,
        lines_of_messages(rt.alloc(), ledger.log(), bindings.as_slice()),
    )?;
    print_text(rt, lines.as_slice())
}

fn try_predecessors(rt: &HostRuntime) -> Result<(), CallsFault> {
    let bindings = made(rt, values::bindings(rt.alloc()))?;
    let predecessors = report(rt, made_predecessors(rt.alloc(), bindings.as_slice()))?;
    println!(rt; "found {}", predecessors.found().len())?;
    Ok(())
}

fn try_broker(rt: &HostRuntime) -> Result<(), CallsFault> {
    let (bindings, copies) = (values::bindings(rt.alloc()), values::bindings(rt.alloc()));
    let (Some(bindings), Some(copies)) = (bindings, copies) else {
        return Err(CallsFault::NotMade);
    };
    made(rt, Some(()))?;
    let broker = report(rt, made_broker(rt.alloc(), bindings, copies))?;
    println!(rt; "queues {}", broker.queue_count())?;
    Ok(())
}

fn try_session(rt: &HostRuntime) -> Result<(), CallsFault> {
    let mut store = MemoryStore::new();
    made(rt, Some(()))?;
    let session = report(rt, started(rt.alloc(), &mut store))?;
    println!(rt; "session {} base {}", session.number(), session.base())?;
    Ok(())
}

fn try_steps(rt: &HostRuntime) -> Result<(), CallsFault> {
    made(rt, Some(()))?;
    let steps = report(rt, parsed_steps(rt.alloc(), values::STEPS.as_bytes()))?;
    println!(rt; "acts {}", steps.acts.as_slice().len())?;
    Ok(())
}

fn try_world(rt: &HostRuntime) -> Result<(), CallsFault> {
    let (bindings, copies) = (values::bindings(rt.alloc()), values::bindings(rt.alloc()));
    let (Some(bindings), Some(copies)) = (bindings, copies) else {
        return Err(CallsFault::NotMade);
    };
    made(rt, Some(()))?;
    let world = report(rt, made_world(rt.alloc(), bindings, copies))?;
    println!(rt; "subscribers {}", world.subscriber_count())?;
    Ok(())
}

/// Takes a step of a world in which all steps before it were taken.
fn try_step(rt: &HostRuntime, place: usize) -> Result<(), CallsFault> {
    let (world, step) = (
        values::world(rt.alloc(), place),
        values::step(rt.alloc(), place),
    );
    let (Some(mut world), Some(step)) = (world, step) else {
        return Err(CallsFault::NotMade);
    };
    made(rt, Some(()))?;
    let did = report(rt, stepped(rt.alloc(), &mut world, &step))?;
    let last = world.ledger().last();
    match did {
        Did::Arrived(taken) => println!(rt; "last {last} taken {taken}")?,
        Did::Took(_) => println!(rt; "last {last} took")?,
        _ => println!(rt; "last {last}")?,
    }
    Ok(())
}

fn try_entry(rt: &HostRuntime) -> Result<(), CallsFault> {
    let line = made(rt, values::foreign_body(rt.alloc()))?;
    if let Some(
        Entry {
            content: Content::Event(event),
            ..
        },
    ) = report(rt, parsed_entry(rt.alloc(), line.as_bytes()))?
    {
        println!(rt; "event {}", event.timestamp)?;
    }
    Ok(())
}

fn try_follow(rt: &HostRuntime) -> Result<(), CallsFault> {
    let binding = made(rt, values::binding(rt.alloc()))?;
    let mut follower = Follower::new(Subscriber::new(rt.alloc()), 0);
    let _outcome = report(rt, followed(&mut follower, &binding, &values::ENTRY))?;
    follower.subscriber().print(&mut io::writer(rt), 1)?;
    Ok(())
}

fn try_book(rt: &HostRuntime) -> Result<(), CallsFault> {
    let text = made(rt, values::book_text(rt.alloc()))?;
    if let Some(saved) = report(rt, resumed_book(rt.alloc(), text.as_slice()))? {
        saved.follower.subscriber().print(&mut io::writer(rt), 1)?;
    }
    Ok(())
}

fn try_audit(rt: &HostRuntime) -> Result<(), CallsFault> {
    let mut auditor = values::new_auditor(rt.alloc());
    made(rt, Some(()))?;
    let refusal = report(rt, audited(&mut auditor, &values::ENTRY.content))?;
    println!(rt; "accepted {}", refusal.is_none())?;
    auditor.subscriber().print(&mut io::writer(rt), 1)?;
    Ok(())
}

fn try_state(rt: &HostRuntime) -> Result<(), CallsFault> {
    let auditor = made(rt, values::auditor(rt.alloc()))?;
    let text = report(rt, printed_state(rt.alloc(), &auditor))?;
    print_text(rt, text.as_slice())
}

fn try_resume(rt: &HostRuntime) -> Result<(), CallsFault> {
    let text = made(rt, values::state_text(rt.alloc()))?;
    if let Some(auditor) = report(rt, resumed_state(rt.alloc(), text.as_slice()))? {
        auditor.subscriber().print(&mut io::writer(rt), 1)?;
    }
    Ok(())
}

/// Makes the call with this name.
pub fn run(rt: &HostRuntime, name: &str) -> Result<(), CallsFault> {
    match name {
        "log" => try_log(rt),
        "index" => try_index(rt),
        "read" => try_read(rt),
        "queue" => try_queue(rt),
        "messages" => try_messages(rt),
        "predecessors" => try_predecessors(rt),
        "broker" => try_broker(rt),
        "session" => try_session(rt),
        "steps" => try_steps(rt),
        "world" => try_world(rt),
        "submit" => try_step(rt, 1),
        "start" => try_step(rt, 2),
        "poll" => try_step(rt, 3),
        "send" => try_step(rt, 5),
        "arrive" => try_step(rt, 7),
        "deliver" => try_step(rt, 8),
        "take" => try_step(rt, 9),
        "entry" => try_entry(rt),
        "follow" => try_follow(rt),
        "book" => try_book(rt),
        "audit" => try_audit(rt),
        "state" => try_state(rt),
        "resume" => try_resume(rt),
        _ => Err(CallsFault::BadWords),
    }
}
