//! Which planned faults never came in a run, on standard error.

use cdc_run::{Counts, Faults, Report};
use std::alloc::{AllocError, Global};

/// A copy, since a run takes its own faults. Fails if it is out of memory.
pub fn copy_faults(alloc: Global, faults: &Faults) -> Result<Faults, AllocError> {
    Ok(Faults {
        lose_confirm: faults.lose_confirm.as_slice().to_vec(alloc)?,
        lose_publish: faults.lose_publish.as_slice().to_vec(alloc)?,
        restart_after: faults.restart_after.as_slice().to_vec(alloc)?,
        repeat: faults.repeat.as_slice().to_vec(alloc)?,
        close: faults.close.as_slice().to_vec(alloc)?,
    })
}

/// Reports for each fault that never came why it didn't, in a run that came to this report.
pub fn report_missed(rt: &HostRuntime, faults: &Faults, report: &Report) {
    let Counts {
        sent,
        reached,
        accepted,
        ..
    } = &report.counts;
    for n in faults.lose_confirm.as_slice() {
        if n > reached {
            let publishes = publishes(*reached);
            let _ = eprintln!(rt;
                "relayplum: --lose-confirm {n}: only {reached} {publishes} reached the broker"
            );
        } else if n > accepted {
            let publishes = publishes(*accepted);
            let _ = eprintln!(rt;
                "relayplum: --lose-confirm {n}: the broker accepted only {accepted} {publishes}"
            );
        }
    }
    for n in faults.lose_publish.as_slice() {
        if n > reached {
            let publishes = publishes(*reached);
            let _ = eprintln!(rt;
                "relayplum: --lose-publish {n}: only {reached} {publishes} reached the broker"
            );
        }
    }
    for n in faults.restart_after.as_slice() {
        if n > sent {
            let (publishes, were) = (publishes(*sent), if *sent == 1 { "was" } else { "were" });
            let _ = eprintln!(rt;
                "relayplum: --restart-after {n}: only {sent} {publishes} {were} sent"
            );
        }
    }
    for (queue, position) in faults.repeat.as_slice() {
        report_missed_repeat(rt, *queue, *position, report);
    }
    for (subscriber, count) in faults.close.as_slice() {
        report_missed_close(rt, *subscriber, *count, report);
    }
}

/// The noun for so many publishes.
fn publishes(count: u64) -> &'static str {
    if count == 1 { "publish" } else { "publishes" }
}

/// Reports it if a queue never came to a position.
fn report_missed_repeat(rt: &HostRuntime, queue: u64, position: u64, report: &Report) {
    match report.counts.delivered.get(queue.wrapping_sub(1) as usize) {
        None => {
            let _ = eprintln!(rt;
                "relayplum: --repeat {queue}:{position}: there is no queue {queue}"
            );
        }
        Some(count) if *count < position => {
            let deliveries = if *count == 1 {
                "delivery"
            } else {
                "deliveries"
            };
            let _ = eprintln!(rt;
                "relayplum: --repeat {queue}:{position}: queue {queue} had only {count} {deliveries}"
            );
        }
        Some(_) => {}
    }
}

/// Reports it if a subscriber never applied so many events.
fn report_missed_close(rt: &HostRuntime, subscriber: u64, count: u64, report: &Report) {
    match applied_by(report, subscriber) {
        None => {
            let _ = eprintln!(rt;
                "relayplum: --close {subscriber}:{count}: there is no subscriber {subscriber}"
            );
        }
        Some(applied) if applied < count => {
            let events = if applied == 1 { "event" } else { "events" };
            let _ = eprintln!(rt;
                "relayplum: --close {subscriber}:{count}: subscriber {subscriber} applied only {applied} {events}"
            );
        }
        Some(_) => {}
    }
}

/// How many events the subscriber of this number, from 1, has applied. None if there is no such subscriber.
pub fn applied_by(report: &Report, number: u64) -> Option<u64> {
    let subscriber = report.subscribers.get(number.wrapping_sub(1) as usize)?;
    Some(subscriber.applied_count())
}
