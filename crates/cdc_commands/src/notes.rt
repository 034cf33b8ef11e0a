//! Notes on a good script that may not mean what its author intended: transfers whose amount is 0, and batches whose
//! timestamp is before one that was assigned already.

use cdc_ledger::{BatchError, Ledger};
use cdc_script::{ClientBatch, Script};
use cdc_types::{Batch, BatchResults, NewTransfer};
use std::alloc::{AllocError, Global};

/// How often something occurs in a script, and in which line first.
#[derive(Clone, Copy)]
pub struct Count {
    /// The first line, from 1; 0 if it doesn't occur.
    pub line: u32,
    /// How often it occurs. The count saturates at 2^64-1.
    pub count: u64,
}

/// Batches whose timestamp is before one that was assigned already.
#[derive(Clone, Copy)]
pub struct PastBatches {
    /// How many there are, and the line of the first.
    pub batches: Count,
    /// The timestamp of the first of them, in nanoseconds.
    pub now: u64,
    /// The last timestamp that was assigned before it, in nanoseconds.
    pub last: u64,
}

/// What may be unintended in a script.
#[derive(Clone, Copy)]
pub struct Notes {
    /// Posts whose amount is 0.
    pub posts: Count,
    /// Other transfers whose amount is 0, except voids.
    pub transfers: Count,
    /// Batches whose timestamp is in the past when the batches are taken in the order of the script.
    pub past: Option<PastBatches>,
    /// Whether all batches are those of one client.
    pub has_one_client: bool,
}

/// The count of what doesn't occur.
const NEVER: Count = Count { line: 0, count: 0 };

/// An upper bound of the timestamps that a script may assign, as if all its requests were accepted.
#[derive(Clone, Copy)]
struct Latest {
    /// The last timestamp that was assigned is at most this.
    last: u128,
    /// The greatest number of transfers that may still expire.
    waiting: u128,
    /// Whether the timestamp of a batch may be in the past.
    may_be_past: bool,
}

impl Notes {
    pub const NONE: Notes = Notes {
        posts: NEVER,
        transfers: NEVER,
        past: None,
        has_one_client: true,
    };

    /// The notes on a script, or none if memory runs out.
    pub fn of(alloc: Global, script: &Script) -> Notes {
        let batches = script.batches.as_slice();
        let mut notes = Notes::NONE;
        let mut latest = Latest {
            last: 0,
            waiting: 0,
            may_be_past: false,
        };
        let mut lines = script.lines.requests.as_slice();
        for item in batches {
            latest.take(&item.batch);
            lines = notes.count_batch(&item.batch, lines);
        }
        if latest.may_be_past {
            let lines = script.lines.batches.as_slice();
            match past_batches(alloc, batches, lines) {
                Ok(past) => notes.past = past,
                Err(_) => return Notes::NONE,
            }
        }
        notes.has_one_client = has_one_client(batches);
        notes
    }

    /// Counts the transfers of a batch. `lines` are those of its requests and of the later ones, which are returned.
    fn count_batch<'a>(&mut self, batch: &Batch, lines: &'a [u32]) -> &'a [u32] {
        let count = match batch {
            Batch::Accounts { items, .. } => items.as_slice().len(),
            Batch::Transfers { items, .. } => {
                for (request, line) in items.as_slice().iter().zip(lines) {
                    self.count_transfer(request, *line);
                }
                items.as_slice().len()
            }
            Batch::Pulse { .. } => 0,
        };
        lines.get(count..).unwrap_or(&[])
    }

    /// Counts a transfer in this line if its amount is 0 and it isn't a void.
    fn count_transfer(&mut self, request: &NewTransfer, line: u32) {
        if request.amount != 0 {
            return;
        }
        if request.is_post() {
            self.posts.add(line);
        } else if !request.is_void() {
            self.transfers.add(line);
        }
    }
}

impl Count {
    /// Counts one more, in this line.
    fn add(&mut self, line: u32) {
        if self.count == 0 {
            self.line = line;
        }
        self.count = self.count.saturating_add(1);
    }
}

impl Latest {
    /// Takes a batch. It assigns timestamps from its own on, or from the last one that was assigned: one for each of
    /// its requests, and for a pulse one for each transfer that expires.
    fn take(&mut self, batch: &Batch) {
        match batch {
            Batch::Accounts { now, items } => {
                self.go_to(*now);
                self.give(items.as_slice().len() as u128);
            }
            Batch::Transfers { now, items } => {
                self.go_to(*now);
                self.give(items.as_slice().len() as u128);
                for request in items.as_slice() {
                    self.waiting = self
                        .waiting
                        .saturating_add(u128::from(request.timeout != 0));
                }
            }
            Batch::Pulse { now } => {
                self.go_to(*now);
                self.give(self.waiting);
                self.waiting = 0;
            }
        }
    }

    /// Takes the timestamp of a batch.
    fn go_to(&mut self, now: u64) {
        let now = u128::from(now);
        self.may_be_past = self.may_be_past || now < self.last;
        self.last = self.last.max(now.saturating_sub(1));
    }

    /// Assigns this many timestamps.
    fn give(&mut self, count: u128) {
        self.last = self.last.saturating_add(count);
    }
}

fn has_one_client(batches: &[ClientBatch]) -> bool {
    match batches.first() {
        Some(first) => batches.iter().all(|item| item.client == first.client),
        None => true,
    }
}

/// The batches, in these lines, whose timestamp is before one that a ledger that takes all of them has assigned.
/// Batches that the ledger refuses, and those that assign no timestamp, don't count.
fn past_batches(
    alloc: Global,
    batches: &[ClientBatch],
    lines: &[u32],
) -> Result<Option<PastBatches>, AllocError> {
    let mut ledger = Ledger::new(alloc);
    let mut past: Option<PastBatches> = None;
    for (item, line) in batches.iter().zip(lines) {
        let last = ledger.last();
        let now = now_of(&item.batch);
        match ledger.submit(alloc, &item.batch) {
            Ok(results) if now < last && gives_timestamps(&results) => {
                past = Some(one_more(past, *line, now, last));
            }
            Err(BatchError::OutOfMemory) => return Err(AllocError),
            _ => {}
        }
    }
    Ok(past)
}

/// Adds one more such batch, in this line.
fn one_more(past: Option<PastBatches>, line: u32, now: u64, last: u64) -> PastBatches {
    let mut past = past.unwrap_or(PastBatches {
        batches: NEVER,
        now,
        last,
    });
    past.batches.add(line);
    past
}

fn now_of(batch: &Batch) -> u64 {
    match batch {
        Batch::Accounts { now, .. } | Batch::Transfers { now, .. } | Batch::Pulse { now } => *now,
    }
}

/// Whether a batch with these results has assigned timestamps.
fn gives_timestamps(results: &BatchResults) -> bool {
    match results {
        BatchResults::Accounts(results) => !results.as_slice().is_empty(),
        BatchResults::Transfers(results) => !results.as_slice().is_empty(),
        BatchResults::Pulsed(count) => *count > 0,
    }
}
