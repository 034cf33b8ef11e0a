//! The text of an audit's state.

ghost use Rattle.std.specs.Prelude.{◌≡◌, ◌++◌, OnOk};
ghost use Rattle.std.specs.List.{flat_map};
ghost use Rattle.cdc_audit_state.specs.States.{chain_text, event_line, expiry_rows, fields_line, fields_rows, heading, known_rows};
ghost use Rattle.cdc_audit_state.specs.States.{time_line, time_rows};
ghost use Rattle.cdc_audit_state.specs.States.{open_rows, rows_text, state_text, transfer_line, transfer_rows};

use cdc_audit::{Auditor, FixedFields, Stored};
use cdc_codec::{write_flagged, write_named, write_spaced, write_text};
use cdc_keys::KeyedMap;
use cdc_message::encode;
use cdc_types::Event;
use std::alloc::{AllocError, Global};
use std::io;

/// Adds the text of an auditor's state.
pub fn push_state(alloc: Global, text: &mut Vec<u8>, auditor: &Auditor) -> Result<(), AllocError>
    ensures { OnOk result (text.new.items ≡ text.old.items ++ state_text auditor.now) }
{
    // (a write to a vector fails only if memory runs out)
    push_parts(alloc, text, auditor).or(Err(AllocError))
}

/// The same. The subscriber has the number 1.
fn push_parts(alloc: Global, text: &mut Vec<u8>, auditor: &Auditor) -> io::Result<()>
    ensures { OnOk result (text.new.items ≡ text.old.items ++ state_text auditor.now) }
{
    push_heading(text, auditor)?;
    auditor.subscriber().print(text, 1)?;
    push_known(alloc, text, auditor)
}

/// Adds the first line.
fn push_heading(text: &mut Vec<u8>, auditor: &Auditor) -> io::Result<()>
    ensures { OnOk result (text.new.items ≡ text.old.items ++ heading auditor.now) }
{
    write_flagged(text, "audit-state 1 foreign", auditor.foreign())?;
    write_text(text, " linked")?;
    push_chain(text, auditor.chain())?;
    write_text(text, "\n")
}

/// Adds how many linked transfers the events end with.
fn push_chain(text: &mut Vec<u8>, chain: u64) -> io::Result<()>
    ensures { OnOk result (text.new.items ≡ text.old.items ++ chain_text chain) }
{
    write_flagged(text, "", chain > 0)?;
    if chain > 1 {
        write_spaced(text, chain)
    } else {
        Ok(())
    }
}

/// Adds a line for each thing that an auditor knows besides its book.
fn push_known(alloc: Global, text: &mut Vec<u8>, auditor: &Auditor) -> io::Result<()>
    ensures { OnOk result (text.new.items ≡ text.old.items ++ rows_text (known_rows auditor.now)) }
{
    push_expiry(alloc, text, auditor.last_expiry())?;
    push_transfers(text, auditor.transfers())?;
    push_open(alloc, text, auditor.open_ones().events())?;
    push_all_fields(text, auditor.fields())?;
    push_times(text, auditor.times())
}

/// Adds the line of an event, after its name.
pub fn push_event(alloc: Global, text: &mut Vec<u8>, name: &str, event: &Event) -> io::Result<()>
    ensures { OnOk result (text.new.items ≡ text.old.items ++ event_line name.now event.now) }
{
    write_text(text, name)?;
    let body = encode(alloc, event)?;
    write_text(text, body.as_str())?;
    write_text(text, "\n")
}

/// Adds the line of the last expiry, if there is one.
fn push_expiry(alloc: Global, text: &mut Vec<u8>, expired: Option<Event>) -> io::Result<()>
    ensures { OnOk result (text.new.items ≡ text.old.items ++ rows_text (expiry_rows expired)) }
{
    match expired {
        Some(event) => push_event(alloc, text, "expired ", &event),
        None => Ok(()),
    }
}

/// Adds the line of a stored transfer.
fn push_transfer(text: &mut Vec<u8>, id: u128, stored: Stored) -> io::Result<()>
    ensures { OnOk result (text.new.items ≡ text.old.items ++ transfer_line id stored) }
{
    match stored {
        Stored::Plain => {
            write_named(text, "plain", id)?;
        }
        Stored::Pending(amount) => {
            write_named(text, "held", id)?;
            write_spaced(text, amount)?;
        }
        Stored::Settled(amount) => {
            write_named(text, "settled", id)?;
            write_spaced(text, amount)?;
        }
    }
    write_text(text, "\n")
}

/// Adds the lines of the stored transfers.
fn push_transfers(text: &mut Vec<u8>, transfers: &KeyedMap<u128, Stored>) -> io::Result<()>
    ensures { OnOk result
        (text.new.items ≡ text.old.items ++ rows_text (transfer_rows transfers.now.entries)) }
{
    for (id, stored) in transfers.iter() {
        push_transfer(text, *id, *stored)?;
    }
    Ok(())
}

/// Adds the lines of the open pending transfers.
fn push_open(alloc: Global, text: &mut Vec<u8>, events: &KeyedMap<u128, Event>) -> io::Result<()>
    ensures { OnOk result
        (text.new.items ≡ text.old.items ++ rows_text (open_rows events.now.entries)) }
{
    for (_, event) in events.iter() {
        push_event(alloc, text, "open ", event)?;
    }
    Ok(())
}

/// Adds the line of an account's fixed fields.
fn push_fields(text: &mut Vec<u8>, id: u128, fields: &FixedFields) -> io::Result<()>
    ensures { OnOk result (text.new.items ≡ text.old.items ++ fields_line id fields.now) }
{
    write_named(text, "fields", id)?;
    write_spaced(text, fields.user_data_128)?;
    write_spaced(text, fields.user_data_64)?;
    write_spaced(text, fields.user_data_32)?;
    write_spaced(text, fields.ledger)?;
    write_spaced(text, fields.code)?;
    write_spaced(text, fields.flags)?;
    write_spaced(text, fields.timestamp)?;
    write_text(text, "\n")
}

/// Adds the lines of the fixed fields of all accounts.
fn push_all_fields(text: &mut Vec<u8>, fields: &KeyedMap<u128, FixedFields>) -> io::Result<()>
    ensures { OnOk result
        (text.new.items ≡ text.old.items ++ rows_text (fields_rows fields.now.entries)) }
{
    for (id, shown) in fields.iter() {
        push_fields(text, *id, shown)?;
    }
    Ok(())
}

/// Adds the line of an event's timestamp.
fn push_time(text: &mut Vec<u8>, timestamp: u64) -> io::Result<()>
    ensures { OnOk result (text.new.items ≡ text.old.items ++ time_line timestamp) }
{
    write_named(text, "time", timestamp)?;
    write_text(text, "\n")
}

/// Adds the lines of the timestamps of the events.
fn push_times(text: &mut Vec<u8>, times: &[u64]) -> io::Result<()>
    ensures { OnOk result (text.new.items ≡ text.old.items ++ rows_text (time_rows times.now)) }
{
    push_time_lines(text, times)
}

/// The same, line after line.
fn push_time_lines(text: &mut Vec<u8>, times: &[u64]) -> io::Result<()>
    ensures { OnOk result (text.new.items ≡ text.old.items ++ flat_map time_line times.now) }
{
    for timestamp in times {
        push_time(text, *timestamp)?;
    }
    Ok(())
}
