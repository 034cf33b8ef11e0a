//! Notes on a valid script that may not do what was meant, as text.

use crate::texts::Text;
use cdc_commands::{Count, Notes, PastBatches};
use std::alloc::Global;

/// A line for each kind of note on a script, with how often it applies. `name` names the script in these lines.
/// Unless the order of its batches is fixed, no line is on their timestamps. None if there is no note, or if memory
/// ran out.
pub fn notes_text(alloc: Global, name: &str, notes: Notes, is_in_order: bool) -> Option<String> {
    let mut text = Text::new(alloc);
    push_posts(&mut text, name, notes.posts);
    push_transfers(&mut text, name, notes.transfers);
    if let (Some(past), true) = (notes.past, is_in_order) {
        push_past(&mut text, name, past);
    }
    match text.finish() {
        Ok(text) if !text.is_empty() => Some(text),
        _ => None,
    }
}

/// Adds how many posts have the amount 0, if any.
fn push_posts(text: &mut Text, name: &str, posts: Count) {
    if posts.count == 0 {
        return;
    }
    push_place(text, name, posts.line);
    text.push("a post with no amount, or 0, takes 0; the whole is ");
    text.push_number(u128::MAX);
    push_count(text, posts.count);
}

/// Adds how many transfers have the amount 0, if any.
fn push_transfers(text: &mut Text, name: &str, transfers: Count) {
    if transfers.count == 0 {
        return;
    }
    push_place(text, name, transfers.line);
    text.push("a transfer with no amount, or 0, moves 0");
    push_count(text, transfers.count);
}

/// Adds how many batches have a timestamp before one that was already assigned.
fn push_past(text: &mut Text, name: &str, past: PastBatches) {
    let PastBatches { batches, now, last } = past;
    push_place(text, name, batches.line);
    text.push_number(now.into());
    text.push(" is before ");
    text.push_number(last.into());
    text.push(": its items count from ");
    text.push_number(u128::from(last).saturating_add(1));
    push_count(text, batches.count);
}

/// Begins a note on a line of a script.
fn push_place(text: &mut Text, name: &str, line: u32) {
    text.push(name);
    text.push(":");
    text.push_number(line.into());
    text.push(": note: ");
}

/// Ends a note with how often it applies to the script.
fn push_count(text: &mut Text, count: u64) {
    text.push(" (");
    text.push_number(count.into());
    text.push(" in this script)\n");
}
