//! Counts how much of what was asked for wasn't accepted.

use crate::batches::Answered;
use cdc_ledger::BatchError;
use cdc_types::BatchResults;

/// How many requests weren't accepted, and how many batches were refused as a whole.
#[derive(Clone, Copy, Debug, PartialEq, Eq)]
pub struct Tally {
    /// Requests that weren't accepted, in batches that weren't refused as a whole.
    pub items: usize,
    /// Batches that were refused as a whole.
    pub batches: usize,
}

impl Tally {
    /// The tally if everything was accepted.
    pub const NONE: Tally = Tally {
        items: 0,
        batches: 0,
    };

    /// The tally of the ledger's answers to batches.
    pub fn of(answers: &[Answered]) -> Tally {
        let mut tally = Tally::NONE;
        for answered in answers {
            tally.add(&answered.answer);
        }
        tally
    }

    /// Counts the ledger's answer to a batch.
    pub fn add(&mut self, answer: &Result<BatchResults, BatchError>) {
        match answer {
            Ok(results) => self.items = self.items.saturating_add(count_refused(results)),
            Err(_) => self.batches = self.batches.saturating_add(1),
        }
    }
}

/// How many requests of a batch weren't accepted.
fn count_refused(results: &BatchResults) -> usize {
    match results {
        BatchResults::Accounts(results) => {
            results
                .as_slice()
                .iter()
                .filter(|it| it.number() != 0)
                .count()
        }
        BatchResults::Transfers(results) => {
            results
                .as_slice()
                .iter()
                .filter(|it| it.number() != 0)
                .count()
        }
        BatchResults::Pulsed(_) => 0,
    }
}
