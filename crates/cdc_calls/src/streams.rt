//! Calls on a stream of messages that may run out of memory, each made again if it was refused.

ghost use Rattle.std.specs.Prelude.{◌≡◌, OnErr};

use crate::tries::{Tried, first, second};
use cdc_audit::{Auditor, Refusal};
use cdc_audit_state::{push_state, read_state};
use cdc_follow::{Content, Entry, Follower, Following, SavedBook, read_book, read_entry};
use cdc_keys::HashKey;
use cdc_match::Binding;
use std::alloc::{AllocError, Global};

/// Reads a line of a stream, again if it was refused.
pub fn parsed_entry(alloc: Global, line: &[u8]) -> Tried<Option<Entry>>
    ensures { OnErr result.last (result.refused ≡ 2) }
{
    match read_entry(alloc, line, false) {
        Ok(entry) => first(entry),
        Err(_) => second(read_entry(alloc, line, false).or(Err(AllocError))),
    }
}

/// Has a follower take an entry, again if memory ran out.
pub fn followed(follower: &mut Follower, binding: &Binding, entry: &Entry) -> Tried<Following>
    ensures { OnErr result.last (result.refused ≡ 2) }
{
    match follower.take(binding, entry) {
        Ok(outcome) => first(outcome),
        Err(_) => second(follower.take(binding, entry)),
    }
}

/// Reads a saved book, again if memory ran out.
pub fn resumed_book(alloc: Global, text: &[u8]) -> Tried<Option<SavedBook>>
    ensures { OnErr result.last (result.refused ≡ 2) }
{
    match read_book(alloc, HashKey::Fixed, text) {
        Ok(book) => first(book),
        Err(_) => second(read_book(alloc, HashKey::Fixed, text)),
    }
}

/// Has an auditor take what an entry carries, again if memory ran out.
pub fn audited(auditor: &mut Auditor, content: &Content) -> Tried<Option<Refusal>>
    ensures { OnErr result.last (result.refused ≡ 2) }
{
    match auditor.take(content) {
        Ok(refusal) => first(refusal),
        Err(_) => second(auditor.take(content)),
    }
}

/// Makes the text of an auditor's state, again if memory ran out.
pub fn printed_state(alloc: Global, auditor: &Auditor) -> Tried<Vec<u8>>
    ensures { OnErr result.last (result.refused ≡ 2) }
{
    match state_text(alloc, auditor) {
        Ok(text) => first(text),
        Err(_) => second(state_text(alloc, auditor)),
    }
}

// The text of an auditor's state.
fn state_text(alloc: Global, auditor: &Auditor) -> Result<Vec<u8>, AllocError> {
    let mut text = Vec::new(alloc);
    push_state(alloc, &mut text, auditor)?;
    Ok(text)
}

/// Reads the text of an auditor's state, again if memory ran out.
pub fn resumed_state(alloc: Global, text: &[u8]) -> Tried<Option<Auditor>>
    ensures { OnErr result.last (result.refused ≡ 2) }
{
    match read_state(alloc, HashKey::Fixed, text) {
        Ok(auditor) => first(auditor),
        Err(_) => second(read_state(alloc, HashKey::Fixed, text)),
    }
}
