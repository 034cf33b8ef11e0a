//! What standard error reports of a command over a script that succeeded, besides what it printed. A write that fails
//! is ignored, since the command has ended by then.

use crate::advice::shown_name;
use crate::names::escaped_text;
use cdc_commands::{Notes, Tally};
use cdc_deliveries::{Asked, Count};
use cdc_diagnostics::notes_text;

/// Names the flag that explains why items weren't accepted.
pub const EXPLAIN: &str = "; --explain prints why";

/// Reports how many items weren't accepted and how many batches were refused, if any was, and then `why`.
pub fn hint(rt: &HostRuntime, tally: Tally, why: &str) {
    let Tally { items, batches } = tally;
    if items == 0 && batches == 0 {
        return;
    }
    let _ = eprintln!(rt;
        "relayplum: requests not accepted: {items}, batches refused: {batches}{why}"
    );
}

/// Prints the notes on a valid script. If the batches of several clients come in any order, as in a run, no note is
/// on their timestamps.
pub fn note(rt: &HostRuntime, file: &str, notes: Notes, is_in_order: bool) {
    let Ok(name) = escaped_text(rt.alloc(), shown_name(file)) else {
        return;
    };
    if let Some(text) = notes_text(rt.alloc(), name.as_str(), notes, is_in_order) {
        let _ = eprint!(rt; "{text}");
    }
}

/// Reports that the script doesn't have the subscriber whose deliveries are asked for.
pub fn report_no_subscriber(rt: &HostRuntime, deliveries: Option<Asked>) {
    if let Some(Asked { subscriber, .. }) = deliveries {
        let _ = eprintln!(rt;
            "relayplum: --deliveries {subscriber}: the script has no such subscriber"
        );
    }
}

/// Reports how many of the deliveries of events to this subscriber it applied, if it didn't apply all of them. The line
/// begins with `before`.
pub fn report_count(rt: &HostRuntime, subscriber: usize, count: Count, before: &str) {
    let Count {
        applied,
        deliveries,
    } = count;
    if applied < deliveries {
        let _ = eprintln!(rt;
            "{before}relayplum: subscriber {subscriber} applied {applied} of {deliveries} deliveries"
        );
    }
}
