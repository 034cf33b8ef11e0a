//! Why items of a script weren't accepted: a line for each of them.

use crate::results::{account_sentence, batch_sentence, item_count, transfer_sentence};
use crate::sentences::Sentence;
use crate::texts::Text;
use cdc_ledger::{BatchError, Ledger};
use cdc_script::ScriptLines;
use cdc_types::{AccountResult, Batch, BatchResults, NewAccount, NewTransfer, TransferResult};
use std::alloc::{AllocError, Global};

/// The lines so far, and how far a script was read.
#[derive(Drop)]
pub(crate) struct ItemLines<'a> {
    /// Names the script in each line.
    name: &'a str,
    /// The source lines of its batches and items.
    lines: ScriptLines,
    /// How many batches were reported on.
    batches: usize,
    /// How many items are in these batches.
    items: usize,
    text: Text,
}

impl<'a> ItemLines<'a> {
    /// No lines yet. `name` names the script, and `lines` are the source lines of its batches and items.
    pub(crate) fn new(alloc: Global, name: &'a str, lines: ScriptLines) -> ItemLines<'a> {
        ItemLines {
            name,
            lines,
            batches: 0,
            items: 0,
            text: Text::new(alloc),
        }
    }

    /// The text. Fails if memory ran out for it.
    pub(crate) fn finish(self) -> Result<String, AllocError> {
        let ItemLines { text, .. } = self;
        text.finish()
    }

    /// Adds a line for each item of the next batch that wasn't accepted. `ledger` is the ledger after the batch.
    pub(crate) fn push_results(&mut self, batch: &Batch, results: &BatchResults, ledger: &Ledger) {
        match (batch, results) {
            (Batch::Accounts { items, .. }, BatchResults::Accounts(results)) => {
                self.push_accounts(items.as_slice(), results.as_slice());
            }
            (Batch::Transfers { items, .. }, BatchResults::Transfers(results)) => {
                self.push_transfers(items.as_slice(), results.as_slice(), ledger);
            }
            _ => {}
        }
        self.pass(batch);
    }

    /// Adds why the next batch was refused as a whole. A batch that memory ran out for makes the whole text fail.
    pub(crate) fn push_refusal(&mut self, batch: &Batch, refusal: BatchError) {
        if refusal == BatchError::OutOfMemory {
            self.text.abort();
            return;
        }
        let line = line_at(self.lines.batches.as_slice(), self.batches);
        self.push_line(line);
        self.text.push_sentence(Sentence::One("batch ", self.batches as u128 + 1, " refused: "));
        let sentence = batch_sentence(refusal, batch);
        self.push_answer(refusal.number(), refusal.name(), sentence);
        self.pass(batch);
    }

    /// Adds a line that belongs to no item.
    pub(crate) fn push_sentence(&mut self, sentence: Sentence) {
        self.text.push(self.name);
        self.text.push(": ");
        self.text.push_sentence(sentence);
        self.text.push("\n");
    }

    /// Goes to the batch at this place, from 0, with so many items before it.
    pub(crate) fn go_to(&mut self, batch: usize, items: usize) {
        self.batches = batch;
        self.items = items;
    }

    /// Goes on to the next batch.
    fn pass(&mut self, batch: &Batch) {
        self.batches = self.batches.saturating_add(1);
        self.items = self.items.saturating_add(item_count(batch));
    }

    /// Adds a line for each account that wasn't accepted.
    fn push_accounts(&mut self, requests: &[NewAccount], results: &[AccountResult]) {
        for (place, (request, result)) in requests.iter().zip(results).enumerate() {
            if *result != AccountResult::Accepted {
                self.push_place(place, " account ", request.id);
                if *result == AccountResult::LinkedEventFailed {
                    self.push_linked_account(requests, results, place);
                } else {
                    let sentence = account_sentence(*result, request);
                    self.push_answer(result.number(), result.name(), sentence);
                }
            }
        }
    }

    /// Ends the line of an account that failed because another one of its chain did.
    fn push_linked_account(
        &mut self,
        requests: &[NewAccount],
        results: &[AccountResult],
        place: usize,
    ) {
        let before = requests.get(..place).unwrap_or(&[]);
        let first = before.iter().rev().position(|request| !request.is_linked());
        let first = first.map_or(0, |count| place.saturating_sub(count));
        let failed = AccountResult::LinkedEventFailed;
        let other = results
            .iter()
            .skip(first)
            .position(|answer| *answer != failed);
        let other = first.saturating_add(other.unwrap_or(0));
        self.push_link(failed.number(), failed.name(), "account ", other);
        if let (Some(request), Some(result)) = (requests.get(other), results.get(other)) {
            let sentence = account_sentence(*result, request);
            self.push_answer(result.number(), result.name(), sentence);
        }
    }

    /// Adds a line for each transfer that wasn't accepted.
    fn push_transfers(
        &mut self,
        requests: &[NewTransfer],
        results: &[TransferResult],
        ledger: &Ledger,
    ) {
        for (place, (request, result)) in requests.iter().zip(results).enumerate() {
            if *result != TransferResult::Accepted {
                self.push_place(place, " transfer ", request.id);
                if *result == TransferResult::LinkedEventFailed {
                    self.push_linked_transfer(requests, results, place, ledger);
                } else {
                    let sentence = transfer_sentence(*result, request, ledger);
                    self.push_answer(result.number(), result.name(), sentence);
                }
            }
        }
    }

    /// Ends the line of a transfer that failed because another one of its chain did.
    fn push_linked_transfer(
        &mut self,
        requests: &[NewTransfer],
        results: &[TransferResult],
        place: usize,
        ledger: &Ledger,
    ) {
        let before = requests.get(..place).unwrap_or(&[]);
        let first = before.iter().rev().position(|request| !request.is_linked());
        let first = first.map_or(0, |count| place.saturating_sub(count));
        let failed = TransferResult::LinkedEventFailed;
        let other = results
            .iter()
            .skip(first)
            .position(|answer| *answer != failed);
        let other = first.saturating_add(other.unwrap_or(0));
        self.push_link(failed.number(), failed.name(), "transfer ", other);
        if let (Some(request), Some(result)) = (requests.get(other), results.get(other)) {
            let sentence = transfer_sentence(*result, request, ledger);
            self.push_answer(result.number(), result.name(), sentence);
        }
    }

    /// Adds that an item wasn't accepted because another one of its chain wasn't. The reason for that one follows.
    fn push_link(&mut self, number: u8, name: &str, kind: &'static str, other: usize) {
        self.text.push_number(number.into());
        self.text.push(" ");
        self.text.push(name);
        self.text.push(": ");
        self.text.push(kind);
        self.text.push_sentence(Sentence::One(
            "",
            other as u128 + 1,
            ", in its chain, wasn't accepted: ",
        ));
    }

    /// Begins the line of an item: its source line, its place in its batch, and its id.
    fn push_place(&mut self, place: usize, kind: &'static str, id: u128) {
        let line = line_at(
            self.lines.requests.as_slice(),
            self.items.saturating_add(place),
        );
        self.push_line(line);
        self.text.push_sentence(Sentence::Two(
            "batch ",
            self.batches as u128 + 1,
            kind,
            place as u128 + 1,
            " (id ",
        ));
        self.text.push_sentence(Sentence::One("", id, "): "));
    }

    /// Begins a line with the script's name and a source line.
    fn push_line(&mut self, line: u32) {
        self.text.push(self.name);
        self.text
            .push_sentence(Sentence::One(":", line.into(), ": "));
    }

    /// Ends a line with the number and the name of an answer, and what it means.
    fn push_answer(&mut self, number: u8, name: &str, sentence: Sentence) {
        self.text.push_number(number.into());
        self.text.push(" ");
        self.text.push(name);
        self.text.push(": ");
        self.text.push_sentence(sentence);
        self.text.push("\n");
    }
}

/// The line at this place, from 0; 0 if there is none.
fn line_at(lines: &[u32], place: usize) -> u32 {
    lines.get(place).copied().unwrap_or(0)
}
