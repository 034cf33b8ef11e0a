//! The text of a chain's state.

ghost use Rattle.std.specs.Prelude.{◌≡◌, ◌++◌, IfOk, OnOk, map};
ghost use Rattle.cdc_chain_command.specs.States as spec;
ghost use Rattle.cdc_chain_command.specs.States.{heading, row, rows};

use cdc_chain::Chain;
use cdc_codec::{write_flagged, write_named, write_text};
use cdc_match::Binding;
use std::alloc::{AllocError, Global};
use std::io;
use std::io::Write;

/// The first bytes of the text of each saved state, whatever its version.
pub const CHAIN_MARK: &[u8] = b"chain-state ";

/// The queues of a chain, in order.
#[derive(Drop)]
pub struct ChainSetup {
    /// Their bindings.
    pub bindings: Vec<Binding>,
    /// The text of each binding, which the saved state has.
    pub texts: Vec<Vec<u8>>,
}

/// Adds what precedes the lines of the queues.
fn push_heading(text: &mut Vec<u8>, chain: &Chain) -> io::Result<()>
    ensures { OnOk result (text.new.items ≡ text.old.items ++ heading chain.now) }
{
    write_named(text, "chain-state 1 last", chain.last())?;
    write_flagged(text, " ended", chain.ended())?;
    write_text(text, "\n")
}

/// Adds the line of a queue with this binding, whose last event has this timestamp.
fn push_row(text: &mut Vec<u8>, binding: &[u8], place: u64) -> io::Result<()>
    ensures { OnOk result (text.new.items ≡ text.old.items ++ row binding.now place) }
{
    write_named(text, "queue", place)?;
    write_text(text, " ")?;
    text.write_all(binding)?;
    write_text(text, "\n")
}

/// Adds the lines of the queues.
fn push_rows(text: &mut Vec<u8>, texts: &[Vec<u8>], places: &[u64]) -> io::Result<()>
    ensures { OnOk result (text.new.items ≡ text.old.items ++ rows (map (λ t. t.items) texts.now) places.now) }
{
    let count = texts.len().min(places.len());
    for place in 0..count {
        push_row(text, texts[place].as_slice(), places[place])?;
    }
    Ok(())
}

/// Adds the text of a state, with these texts of the bindings.
fn push_state(text: &mut Vec<u8>, texts: &[Vec<u8>], chain: &Chain) -> io::Result<()>
    ensures { OnOk result
        (text.new.items ≡ text.old.items ++ spec.state_text (map (λ t. t.items) texts.now) chain.now) }
{
    push_heading(text, chain)?;
    push_rows(text, texts, chain.places())
}

/// The text of a state, with these texts of the bindings. The one error is that memory ran out.
pub(crate) fn state_text(
    alloc: Global,
    texts: &[Vec<u8>],
    chain: &Chain,
) -> Result<Vec<u8>, AllocError>
    ensures { IfOk result (λ text. text.items ≡ spec.state_text (map (λ t. t.items) texts.now) chain.now) }
{
    let mut text = Vec::new(alloc);
    // (a write to a vector fails only if memory runs out)
    match push_state(&mut text, texts, chain) {
        Ok(()) => Ok(text),
        Err(_) => Err(AllocError),
    }
}

impl ChainSetup {
    /// The text of a state of its queues. The one error is that memory ran out.
    pub(crate) fn text_of(&self, alloc: Global, chain: &Chain) -> Result<Vec<u8>, AllocError>
        ensures { IfOk result (λ text. text.items
            ≡ spec.state_text (map (λ t. t.items) self.now.texts.items) chain.now) }
    {
        state_text(alloc, self.texts.as_slice(), chain)
    }
}
