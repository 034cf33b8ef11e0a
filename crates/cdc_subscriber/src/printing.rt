//! What a subscriber prints: its own line, and one for each account of its book.

ghost use Rattle.std.specs.Prelude.{OnOk};
ghost use Rattle.std.specs.Io.KnownBytes.{Appends};
ghost use Rattle.std.specs.List.{flat_map};
ghost use Rattle.cdc_subscriber.specs.Lines.{account_line, subscriber_line};

use crate::book::{Book, BookEntry};
use crate::subscriber::Subscriber;
use cdc_codec::{write_flagged, write_named, write_spaced, write_text};
use std::io;
use std::io::Write;

/// Writes the line of the subscriber with this number.
pub(crate) fn write_subscriber<W: Write>(
    writer: &mut W,
    number: u64,
    subscriber: &Subscriber,
) -> io::Result<()>
    ensures { OnOk result (Appends (W.contents writer.old) (W.contents writer.new)
        (subscriber_line number subscriber.now)) }
{
    write_named(writer, "subscriber", number)?;
    write_named(writer, " applied", subscriber.applied_count())?;
    write_named(writer, " last", subscriber.last())?;
    write_flagged(writer, " ended", subscriber.ended())?;
    write_flagged(writer, " closed", subscriber.closed())?;
    write_text(writer, "\n")
}

/// Writes one line for each account of a book.
pub(crate) fn write_accounts<W: Write>(writer: &mut W, book: &Book) -> io::Result<()>
    ensures { OnOk result (Appends (W.contents writer.old) (W.contents writer.new)
        (flat_map account_line book.now)) }
{
    for (id, balances) in book.accounts() {
        let entry = BookEntry {
            id: *id,
            balances: *balances,
        };
        write_account(writer, &entry)?;
    }
    Ok(())
}

/// Writes the account's number and its four balances.
fn write_account<W: Write>(writer: &mut W, entry: &BookEntry) -> io::Result<()>
    ensures { OnOk result (Appends (W.contents writer.old) (W.contents writer.new)
        (account_line entry.now)) }
{
    write_named(writer, "account", entry.id)?;
    write_spaced(writer, entry.balances.debits_pending)?;
    write_spaced(writer, entry.balances.debits_posted)?;
    write_spaced(writer, entry.balances.credits_pending)?;
    write_spaced(writer, entry.balances.credits_posted)?;
    write_text(writer, "\n")
}
