//! Reading a state's text back.

ghost use Rattle.std.specs.Prelude.{◌≡◌, ◌↔◌, Bool, IsTrue, ℕ, List, IfOk, IfSome, IsSomeAnd, false};
ghost use Rattle.cdc_audit.specs.Standing.{AuditorState};
ghost use Rattle.cdc_audit_state.specs.Headings.{ReadsChain, ReadsFront};
ghost use Rattle.cdc_audit_state.specs.Saveable.{CanBeSaved};
ghost use Rattle.cdc_audit_state.specs.States.{state_text};

use crate::parts::{Parts, read_parts};
use crate::printing::push_state;
use cdc_audit::{Auditor, AuditorParts};
use cdc_codec::{flag, number, number_64, skip};
use cdc_keys::HashKey;
use cdc_subscriber::Subscriber;
use std::alloc::{AllocError, Global};

/// The first bytes of the text of each saved state, whatever its version.
pub const STATE_MARK: &[u8] = b"audit-state ";

/// What precedes the lines, and the lines.
#[derive(Drop)]
pub(crate) struct Front<'a> {
    foreign: bool,
    chain: u64,
    applied: u64,
    last: u64,
    ended: bool,
    lines: &'a [u8],
}

/// How many linked transfers the events end with, and the bytes after that.
fn read_chain(text: &[u8]) -> (u64, &[u8])
    ensures { ReadsChain text.now result.0 result.1.now }
{
    let (linked, rest) = flag(text);
    if !linked {
        (0, rest)
    } else if rest.starts_with(b" ") {
        number_64(rest)
    } else {
        (1, rest)
    }
}

/// What precedes the lines.
fn read_front(text: &[u8]) -> Front<'_>
    ensures { ReadsFront text.now result }
{
    let (foreign, rest) = flag(skip(text, 21));
    let (chain, rest) = read_chain(skip(rest, 7));
    let (_, rest) = number(skip(rest, 11));
    let (applied, rest) = number_64(skip(rest, 8));
    let (last, rest) = number_64(skip(rest, 5));
    let (ended, rest) = flag(skip(rest, 6));
    let (_, rest) = flag(skip(rest, 7));
    Front {
        foreign,
        chain,
        applied,
        last,
        ended,
        lines: skip(rest, 1),
    }
}

/// Whether a text is that of an auditor's state.
fn is_text_of(alloc: Global, text: &[u8], auditor: &Auditor) -> Result<bool, AllocError>
    ensures { IfOk result (λ same. IsTrue same ↔ (text.now ≡ state_text auditor.now)) }
{
    let mut printed = Vec::new(alloc);
    push_state(alloc, &mut printed, auditor)?;
    Ok(printed.as_slice() == text)
}

/// An auditor with these parts.
fn auditor_of(alloc: Global, front: &Front<'_>, parts: Parts) -> Result<Auditor, AllocError>
    ensures { IfOk result (λ auditor. auditor ≡ record {
      foreign = front.now.foreign;
      kept = record {
        book = parts.accounts;
        last = front.now.last;
        applied = front.now.applied;
        ended = front.now.ended;
        closed = false;
      };
      transfers = parts.transfers;
      open_ones = parts.open_ones;
      fields = parts.fixed;
      times = parts.times;
      chain = front.now.chain;
      expired = parts.expired;
    }) }
{
    let Parts {
        book,
        expired,
        transfers,
        open_ones,
        fields,
        times,
    } = parts;
    let subscriber = Subscriber::resume(book, front.last, front.applied, front.ended);
    Auditor::resume(
        alloc,
        AuditorParts {
            foreign: front.foreign,
            subscriber,
            transfers,
            open_ones,
            fields,
            times,
            chain: front.chain,
            expired,
        },
    )
}

/// Reads the text of a saved state, whose auditor hashes ids with this key. `None`: it is the text of no state that can be saved. The only error is that memory
/// ran out.
pub fn read_state(alloc: Global, key: HashKey, text: &[u8]) -> Result<Option<Auditor>, AllocError>
    ensures exact { IfOk result (λ read. IfSome read (λ auditor. text.now ≡ state_text auditor)) }
    ensures all { (state : AuditorState) → CanBeSaved state → text.now ≡ state_text state
        → IfOk result (λ read. IsSomeAnd read (λ auditor. auditor ≡ state)) }
{
    let front = read_front(text);
    let Some(parts) = read_parts(alloc, key, front.lines)? else {
        return Ok(None);
    };
    let auditor = auditor_of(alloc, &front, parts)?;
    if is_text_of(alloc, text, &auditor)? {
        Ok(Some(auditor))
    } else {
        Ok(None)
    }
}
