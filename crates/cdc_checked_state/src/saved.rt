//! Reading a state's text back.

ghost use Rattle.std.specs.Prelude.{◌≡◌, ◌↔◌, IsTrue, ℕ, List, IfOk, IfSome, IsSomeAnd};
ghost use Rattle.cdc_checked_follow.specs.Standing.{CheckedFollowerState};
ghost use Rattle.cdc_checked_state.specs.Rows.{ReadsFront};
ghost use Rattle.cdc_checked_state.specs.Saveable.{CanBeSaved, IsState};
ghost use Rattle.cdc_checked_state.specs.States.{state_text};

use crate::parts::{Parts, read_parts};
use crate::printing::push_state;
use cdc_checked::Checker;
use cdc_checked_follow::CheckedFollower;
use cdc_codec::{flag, line, number_64, skip};
use cdc_keys::HashKey;
use std::alloc::{AllocError, Global};

/// The first bytes of the text of each saved state of checked following, whatever its version.
pub const CHECKED_MARK: &[u8] = b"checked-book ";

/// A state that was saved.
#[derive(Drop)]
pub struct SavedState {
    /// The text of the follower's binding.
    pub binding: Vec<u8>,
    /// The follower as it was when it was saved.
    pub follower: CheckedFollower,
}

/// What precedes the lines, and the lines.
#[derive(Drop)]
pub(crate) struct Front<'a> {
    applied: u64,
    last: u64,
    ended: bool,
    baseline: bool,
    binding: &'a [u8],
    lines: &'a [u8],
}

/// What precedes the lines.
fn read_front(text: &[u8]) -> Front<'_>
    ensures { ReadsFront text.now result }
{
    let (applied, rest) = number_64(skip(text, 22));
    let (last, rest) = number_64(skip(rest, 5));
    let (ended, rest) = flag(skip(rest, 6));
    let (baseline, rest) = flag(skip(rest, 9));
    let (binding, lines) = line(skip(rest, 9));
    Front {
        applied,
        last,
        ended,
        baseline,
        binding,
        lines,
    }
}

/// Whether a text is that of a follower's state.
fn is_text_of(
    alloc: Global,
    text: &[u8],
    binding: &[u8],
    follower: &CheckedFollower,
) -> Result<bool, AllocError>
    ensures { IfOk result (λ same. IsTrue same ↔ (text.now ≡ state_text binding.now follower.now)) }
{
    let mut printed = Vec::new(alloc);
    push_state(alloc, &mut printed, binding, follower)?;
    Ok(printed.as_slice() == text)
}

/// Whether two followers have the same state: with this binding, their texts are the same.
pub fn are_same(
    alloc: Global,
    binding: &[u8],
    one: &CheckedFollower,
    other: &CheckedFollower,
) -> Result<bool, AllocError>
    ensures { IfOk result (λ same.
        IsTrue same ↔ (state_text binding.now one.now ≡ state_text binding.now other.now)) }
{
    let mut text = Vec::new(alloc);
    push_state(alloc, &mut text, binding, one)?;
    is_text_of(alloc, text.as_slice(), binding, other)
}

/// A follower with these parts.
fn follower_of(front: &Front<'_>, parts: Parts) -> CheckedFollower
    ensures { result ≡ record {
      checker = record { accounts = parts.accounts; open_ones = parts.open_ones };
      book = parts.book;
      applied = front.now.applied;
      last = front.now.last;
      ended = front.now.ended;
      baseline = front.now.baseline;
    } }
{
    let Parts {
        book,
        accounts,
        open_ones,
    } = parts;
    let checker = Checker::resume(accounts, open_ones);
    CheckedFollower::resume(
        checker,
        book,
        front.applied,
        front.last,
        front.ended,
        front.baseline,
    )
}

/// Reads the text of a saved state, whose follower then hashes ids with this key. `None`: it is the text of no state
/// that can be saved. The only error is that memory ran out.
pub fn read_state(
    alloc: Global,
    key: HashKey,
    text: &[u8],
) -> Result<Option<SavedState>, AllocError>
    ensures exact { IfOk result (λ read. IfSome read (λ saved.
        text.now ≡ state_text saved.binding.items saved.follower)) }
    ensures all { (binding : List ℕ) (state : CheckedFollowerState) → CanBeSaved binding state
        → text.now ≡ state_text binding state → IfOk result (λ read. IsSomeAnd read (λ saved.
        IsState saved binding state)) }
{
    let front = read_front(text);
    let Some(parts) = read_parts(alloc, key, front.lines)? else {
        return Ok(None);
    };
    let follower = follower_of(&front, parts);
    if is_text_of(alloc, text, front.binding, &follower)? {
        let binding = Vec::from_slice(alloc, front.binding)?;
        Ok(Some(SavedState { binding, follower }))
    } else {
        Ok(None)
    }
}
