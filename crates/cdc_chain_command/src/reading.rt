//! Reading the text of a chain's state back.

ghost use Rattle.std.specs.Prelude.{◌≡◌, ◌↔◌, ℕ, List, IfOk, IfSome, IsSomeAnd, IsTrue, length, map};
ghost use Rattle.cdc_chain.specs.Chains.{ChainState};
ghost use Rattle.cdc_chain_command.specs.States.{CanBeSaved, fresh, state_text as text_of};
ghost use Rattle.cdc_chain_command.specs.Private.Reads.{ReadsFront, ReadsRow, ReadsRows};

use crate::states::state_text;
use cdc_chain::Chain;
use cdc_codec::{flag, line, number_64, skip};
use std::alloc::{AllocError, Global};

/// What precedes the lines of the queues, and these lines.
#[derive(Clone, Copy)]
pub(crate) struct Front<'a> {
    last: u64,
    ended: bool,
    rest: &'a [u8],
}

/// The line of a queue, and the lines after it.
#[derive(Clone, Copy)]
pub(crate) struct Row<'a> {
    place: u64,
    binding: &'a [u8],
    rest: &'a [u8],
}

/// What the lines of the queues have.
#[derive(Drop)]
pub(crate) struct Rows {
    places: Vec<u64>,
    texts: Vec<Vec<u8>>,
}

/// A state that was read, and the texts of its bindings.
#[derive(Drop)]
pub(crate) struct SavedState {
    pub(crate) chain: Chain,
    pub(crate) texts: Vec<Vec<u8>>,
}

/// What precedes the lines of the queues.
fn read_front(text: &[u8]) -> Front<'_>
    ensures { ReadsFront text.now result }
{
    let (last, rest) = number_64(skip(text, 18));
    let (ended, rest) = flag(skip(rest, 6));
    Front {
        last,
        ended,
        rest: skip(rest, 1),
    }
}

/// The line of a queue.
fn read_row(text: &[u8]) -> Row<'_>
    ensures { ReadsRow text.now result }
{
    let (place, rest) = number_64(skip(text, 5));
    let (binding, rest) = line(skip(rest, 1));
    Row {
        place,
        binding,
        rest,
    }
}

/// The lines of so many queues.
fn read_rows(alloc: Global, text: &[u8], count: usize) -> Result<Rows, AllocError>
    ensures many { IfOk result (λ it. length it.places.items ≡ count) }
    ensures reads { IfOk result (ReadsRows text.now count) }
{
    let mut rest = text;
    let mut places = Vec::new(alloc);
    let mut texts = Vec::new(alloc);
    for queue in 0..count {
        let row = read_row(rest);
        let binding = Vec::from_slice(alloc, row.binding)?;
        places.push(row.place)?;
        texts.push(binding)?;
        rest = row.rest;
    }
    Ok(Rows { places, texts })
}

/// Whether a text is that of this state.
fn is_text_of(
    alloc: Global,
    text: &[u8],
    texts: &[Vec<u8>],
    chain: &Chain,
) -> Result<bool, AllocError>
    ensures { IfOk result (λ same. IsTrue same ↔ (text.now ≡ text_of (map (λ t. t.items) texts.now) chain.now)) }
{
    let again = state_text(alloc, texts, chain)?;
    Ok(again.as_slice() == text)
}

/// Reads the text of a state with so many queues. `None`: it is no such text. The one error is that memory ran out.
pub(crate) fn read_state(
    alloc: Global,
    text: &[u8],
    count: usize,
) -> Result<Option<SavedState>, AllocError>
    ensures exact { IfOk result (λ read. IfSome read (λ it. (text.now ≡ text_of (map (λ t. t.items) it.texts.items)
        it.chain)
        × (length it.chain.places ≡ count) × (it.chain.duplicates ≡ 0))) }
    ensures all { (saved : List (List ℕ)) (state : ChainState) → CanBeSaved saved state → length saved ≡ count
        → text.now ≡ text_of saved state → IfOk result (λ read. IsSomeAnd read (λ it.
        (it.chain ≡ fresh state) × (map (λ t. t.items) it.texts.items ≡ saved))) }
{
    let front = read_front(text);
    let rows = read_rows(alloc, front.rest, count)?;
    let Rows { places, texts } = rows;
    let chain = Chain::at(alloc, front.last, front.ended, places)?;
    if is_text_of(alloc, text, texts.as_slice(), &chain)? {
        Ok(Some(SavedState { chain, texts }))
    } else {
        Ok(None)
    }
}
