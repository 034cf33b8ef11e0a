//! Why items of a run weren't accepted: its batches are submitted to a ledger again, in the order in which the run's
//! ledger took them, and its answers are explained.

use crate::books::push_batch;
use crate::items::ItemLines;
use crate::results::item_count;
use cdc_ledger::Ledger;
use cdc_script::ScriptLines;
use cdc_traffic::Reply;
use cdc_types::Batch;
use std::alloc::{AllocError, Global};

/// The batches that the clients of a run submitted.
#[derive(Clone, Copy)]
pub struct Submitted<'a> {
    /// The client of each batch, in the order of the script.
    pub owners: &'a [u64],
    /// The client of each batch, in the order in which the ledger took them.
    pub order: &'a [u64],
    /// The replies to each client, with its batches, in its order.
    pub replies: &'a [Vec<Reply>],
}

/// Why items of a run weren't accepted: a line for each, and for each batch that was refused.
#[derive(Drop)]
pub enum RunExplanation {
    /// The batches had one client, and so only one order.
    Alone(String),
    /// They had several clients. The lines are in the order in which the ledger took the batches.
    InOrder(String),
}

/// How far the batches of a client have come.
#[derive(Clone, Copy)]
struct Turn {
    /// The place in the script from which its next batch stands.
    place: usize,
    /// How many have come.
    count: usize,
}

/// No batch has come of any client.
const FIRST_TURNS: [Turn; 4] = [Turn { place: 0, count: 0 }; 4];

/// Why items of a run of a script weren't accepted, which is named to a person by this name, and whose batches and
/// requests stand in these lines. There is nothing if memory ran out.
pub fn run_explanation(
    alloc: Global,
    name: &str,
    lines: ScriptLines,
    submitted: Submitted<'_>,
) -> Option<RunExplanation> {
    let mut lines = ItemLines::new(alloc, name, lines);
    explain(alloc, submitted, &mut lines).ok()?;
    let text = lines.finish().ok()?;
    if has_one_client(submitted.owners) {
        Some(RunExplanation::Alone(text))
    } else {
        Some(RunExplanation::InOrder(text))
    }
}

/// Adds the lines of batches, in the order in which the ledger took them.
fn explain(
    alloc: Global,
    submitted: Submitted<'_>,
    lines: &mut ItemLines<'_>,
) -> Result<(), AllocError> {
    let items = items_before(alloc, submitted)?;
    let mut ledger = Ledger::new(alloc);
    let mut turns = FIRST_TURNS;
    for client in submitted.order {
        let Some(turn) = turns.get_mut(share_of(*client)) else {
            continue;
        };
        let place = place_of(submitted.owners, *client, turn.place);
        if let (Some(batch), Some(before)) = (
            batch_of(submitted.replies, *client, turn.count),
            items.get(place),
        ) {
            lines.go_to(place, *before);
            push_batch(alloc, batch, &mut ledger, lines);
        }
        turn.place = place.saturating_add(1);
        turn.count = turn.count.saturating_add(1);
    }
    Ok(())
}

/// The place of a client among all, from 0.
fn share_of(client: u64) -> usize {
    client.wrapping_sub(1) as usize
}

/// The batch of a client that comes after so many of its own, if there is one.
fn batch_of(replies: &[Vec<Reply>], client: u64, count: usize) -> Option<&Batch> {
    let reply = replies.get(share_of(client))?.get(count)?;
    Some(&reply.batch)
}

/// The place of a client's next batch, from this place on; the number of batches if it has none left.
fn place_of(owners: &[u64], client: u64, from: usize) -> usize {
    let left = owners.get(from..).unwrap_or(&[]);
    match left.iter().position(|owner| *owner == client) {
        Some(count) => from.saturating_add(count),
        None => owners.len(),
    }
}

/// How many items there are before each batch of the script.
fn items_before(alloc: Global, submitted: Submitted<'_>) -> Result<Vec<usize>, AllocError> {
    let mut counts = Vec::with_capacity(alloc, submitted.owners.len())?;
    let mut count: usize = 0;
    let mut turns = FIRST_TURNS;
    for client in submitted.owners {
        counts.push(count)?;
        let Some(turn) = turns.get_mut(share_of(*client)) else {
            continue;
        };
        if let Some(batch) = batch_of(submitted.replies, *client, turn.count) {
            count = count.saturating_add(item_count(batch));
        }
        turn.count = turn.count.saturating_add(1);
    }
    Ok(counts)
}

/// Whether all batches are of one client.
fn has_one_client(owners: &[u64]) -> bool {
    match owners.first() {
        Some(first) => owners.iter().all(|owner| owner == first),
        None => true,
    }
}
