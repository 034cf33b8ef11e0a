//! The text of a checked follower's state.

ghost use Rattle.std.specs.Prelude.{◌≡◌, ◌++◌, OnOk, codes};
ghost use Rattle.cdc_subscriber.specs.Book.{entry_for};
ghost use Rattle.cdc_subscriber.specs.Lines.{account_line};
ghost use Rattle.cdc_checked_state.specs.States.{all_rows, book_rows, heading, known_line, known_rows, open_rows};
ghost use Rattle.cdc_checked_state.specs.States.{rows_text, state_text};

use cdc_audit_state::push_event;
use cdc_checked::KnownAccount;
use cdc_checked_follow::CheckedFollower;
use cdc_codec::{write_flagged, write_named, write_spaced, write_text};
use cdc_keys::KeyedMap;
use cdc_types::{Balances, Event};
use std::alloc::{AllocError, Global};
use std::io;
use std::io::Write;

/// Adds the text of a follower's state, with the text of its binding. A state whose binding has a line feed isn't read
/// back.
pub fn push_state(
    alloc: Global,
    text: &mut Vec<u8>,
    binding: &[u8],
    follower: &CheckedFollower,
) -> Result<(), AllocError>
    ensures { OnOk result (text.new.items ≡ text.old.items ++ state_text binding.now follower.now) }
{
    // (a write to a vector fails only if memory runs out)
    push_parts(alloc, text, binding, follower).or(Err(AllocError))
}

/// The same.
fn push_parts(
    alloc: Global,
    text: &mut Vec<u8>,
    binding: &[u8],
    follower: &CheckedFollower,
) -> io::Result<()>
    ensures { OnOk result (text.new.items ≡ text.old.items ++ state_text binding.now follower.now) }
{
    push_heading(text, binding, follower)?;
    push_rows(alloc, text, follower)
}

/// Adds the first two lines.
fn push_heading(text: &mut Vec<u8>, binding: &[u8], follower: &CheckedFollower) -> io::Result<()>
    ensures { OnOk result (text.new.items ≡ text.old.items ++ heading binding.now follower.now) }
{
    write_named(text, "checked-book 1 applied", follower.applied_count())?;
    write_named(text, " last", follower.last())?;
    write_flagged(text, " ended", follower.ended())?;
    write_flagged(text, " baseline", follower.baseline())?;
    push_binding(text, binding)
}

/// Adds the line of the binding.
fn push_binding(text: &mut Vec<u8>, binding: &[u8]) -> io::Result<()>
    ensures { OnOk result (text.new.items ≡ text.old.items ++ (codes "\nbinding " ++ (binding.now ++ codes "\n"))) }
{
    write_text(text, "\nbinding ")?;
    text.write_all(binding)?;
    write_text(text, "\n")
}

/// Adds the lines after the heading.
fn push_rows(alloc: Global, text: &mut Vec<u8>, follower: &CheckedFollower) -> io::Result<()>
    ensures { OnOk result (text.new.items ≡ text.old.items ++ rows_text (all_rows follower.now)) }
{
    push_book(text, follower.book())?;
    push_accounts(text, follower.checker().accounts())?;
    push_open(alloc, text, follower.checker().open_ones())
}

/// Adds the line of an account of the book.
fn push_account(text: &mut Vec<u8>, id: u128, balances: &Balances) -> io::Result<()>
    ensures { OnOk result (text.new.items ≡ text.old.items ++ account_line (entry_for (id, balances.now))) }
{
    write_named(text, "account", id)?;
    write_spaced(text, balances.debits_pending)?;
    write_spaced(text, balances.debits_posted)?;
    write_spaced(text, balances.credits_pending)?;
    write_spaced(text, balances.credits_posted)?;
    write_text(text, "\n")
}

/// Adds the lines of the book. The one error is that memory ran out.
pub fn push_book(text: &mut Vec<u8>, book: &KeyedMap<u128, Balances>) -> io::Result<()>
    ensures { OnOk result (text.new.items ≡ text.old.items ++ rows_text (book_rows book.now.entries)) }
{
    for (id, balances) in book.iter() {
        push_account(text, *id, balances)?;
    }
    Ok(())
}

/// Adds the line of an account that the checker knows.
fn push_known(text: &mut Vec<u8>, id: u128, known: &KnownAccount) -> io::Result<()>
    ensures { OnOk result (text.new.items ≡ text.old.items ++ known_line id known.now) }
{
    write_named(text, "known", id)?;
    write_spaced(text, known.balances.debits_pending)?;
    write_spaced(text, known.balances.debits_posted)?;
    write_spaced(text, known.balances.credits_pending)?;
    write_spaced(text, known.balances.credits_posted)?;
    write_spaced(text, known.last)?;
    write_text(text, "\n")
}

/// Adds the lines of the accounts that the checker knows.
fn push_accounts(text: &mut Vec<u8>, accounts: &KeyedMap<u128, KnownAccount>) -> io::Result<()>
    ensures { OnOk result (text.new.items ≡ text.old.items ++ rows_text (known_rows accounts.now.entries)) }
{
    for (id, known) in accounts.iter() {
        push_known(text, *id, known)?;
    }
    Ok(())
}

/// Adds the lines of the open pending transfers.
fn push_open(alloc: Global, text: &mut Vec<u8>, events: &KeyedMap<u128, Event>) -> io::Result<()>
    ensures { OnOk result (text.new.items ≡ text.old.items ++ rows_text (open_rows events.now.entries)) }
{
    for (_, event) in events.iter() {
        push_event(alloc, text, "open ", event)?;
    }
    Ok(())
}
