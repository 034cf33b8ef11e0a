//! A trace of a run on standard error, besides its report. If memory runs out for a part of it, that part is missing.

use crate::run_faults::applied_by;
use crate::run_turns::Turns;
use cdc_app_inputs::report_count;
use cdc_deliveries::Count;
use cdc_diagnostics::{repeat_lines, story_lines, subscriber_line};
use cdc_run::Report;

/// Reports what was lost and what was sent again in a run that came to this report, in the ledger's order; then which
/// deliveries were duplicates; and then for each subscriber how many deliveries came to it.
pub fn trace_run(rt: &HostRuntime, turns: &Turns, report: &Report) {
    if let Some(story) = turns.story() {
        if let Ok(text) = story_lines(rt.alloc(), story) {
            let _ = eprint!(rt; "{text}");
        }
    }
    for number in 1..9 {
        trace_repeats(rt, turns, number);
    }
    for number in 1..9 {
        trace_subscriber(rt, turns, report, number);
    }
}

/// Reports which deliveries the subscriber of this number took for duplicates.
fn trace_repeats(rt: &HostRuntime, turns: &Turns, number: u64) {
    if let Some(repeats) = turns.repeats(number) {
        if let Ok(text) = repeat_lines(rt.alloc(), number, repeats) {
            let _ = eprint!(rt; "{text}");
        }
    }
}

/// Reports how many deliveries came to the subscriber of this number, if there is one, and what it did with them.
fn trace_subscriber(rt: &HostRuntime, turns: &Turns, report: &Report, number: u64) {
    let Some(applied) = applied_by(report, number) else {
        return;
    };
    let deliveries = turns.deliveries(number);
    let repeats = turns.repeats(number);
    if let Ok(text) = subscriber_line(rt.alloc(), number, deliveries, applied, repeats) {
        let _ = eprint!(rt; "{text}");
    }
}

/// Reports how many of the deliveries that came to a subscriber up to its close it applied, for each subscriber that
/// didn't apply all of them. The end mark doesn't count.
pub fn report_counts(rt: &HostRuntime, report: &Report) {
    for (place, subscriber) in report.subscribers.iter().enumerate() {
        let events = match report.deliveries.get(place) {
            Some(arrivals) => arrivals
                .iter()
                .filter(|arrival| arrival.event.is_some())
                .count(),
            None => 0,
        };
        let count = Count {
            applied: subscriber.applied_count() as usize,
            deliveries: events,
        };
        report_count(rt, place + 1, count, "");
    }
}
