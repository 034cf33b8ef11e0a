//! Writes the JSON text of an event.

ghost use Rattle.std.specs.Prelude.{◌≡◌, ◌<◌, ◌^◌, IfOk, OnOk, string_bytes};
ghost use Rattle.cdc_message.specs.Bodies.{body};
ghost use Rattle.cdc_message.specs.Laws.{BodiesReadBack};
ghost use Rattle.cdc_message.specs.Reading.{read};
ghost use Rattle.cdc_message.specs.Sending.{Sends, member_tokens, value_tokens};
ghost use Rattle.cdc_message.specs.Values as value;
ghost use Rattle.cdc_message.specs.Widths.{TransferFits, AccountFits, EventFits};

use crate::kinds::kind_text;
use cdc_types::{Event, EventAccount, EventTransfer};
use itoa::Buffer;
use json::Writer;
use std::alloc::{AllocError, Global};

/// The bytes that are reserved for a body. A longer one is moved once.
const BODY_BYTES: usize = 1_024;

// Writes a member whose value is a number of 128 bits, as a decimal string.
fn send_128(out: &mut Writer, name: &str, number: u128) -> Result<(), AllocError>
    ensures sends { OnOk result (Sends out.old out.new (member_tokens name.now (value.wide number))) }
    ensures fits { number < 2 ^ 128 }
{
    out.key(name)?;
    out.string(Buffer::new().format(number))
}

// Writes a member whose value is a number of 64 bits, as a decimal string.
fn send_64(out: &mut Writer, name: &str, number: u64) -> Result<(), AllocError>
    ensures sends { OnOk result (Sends out.old out.new (member_tokens name.now (value.wide number))) }
    ensures fits { number < 2 ^ 64 }
{
    out.key(name)?;
    out.quoted_u64(number)
}

// Writes a member whose value is a number of 32 bits, as a JSON number.
fn send_32(out: &mut Writer, name: &str, number: u32) -> Result<(), AllocError>
    ensures sends { OnOk result (Sends out.old out.new (member_tokens name.now (value.narrow number))) }
    ensures fits { number < 2 ^ 32 }
{
    out.key(name)?;
    out.u64(u64::from(number))
}

// Writes a member whose value is a number of 16 bits, as a JSON number.
fn send_16(out: &mut Writer, name: &str, number: u16) -> Result<(), AllocError>
    ensures sends { OnOk result (Sends out.old out.new (member_tokens name.now (value.narrow number))) }
    ensures fits { number < 2 ^ 16 }
{
    out.key(name)?;
    out.u64(u64::from(number))
}

fn send_account(out: &mut Writer, account: &EventAccount) -> Result<(), AllocError>
    ensures sends { OnOk result (Sends out.old out.new (value_tokens (value.account_value account.now))) }
    ensures fits { OnOk result (AccountFits account.now) }
{
    out.begin_object()?;
    send_16(out, "code", account.code)?;
    send_128(out, "credits_pending", account.credits_pending)?;
    send_128(out, "credits_posted", account.credits_posted)?;
    send_128(out, "debits_pending", account.debits_pending)?;
    send_128(out, "debits_posted", account.debits_posted)?;
    send_16(out, "flags", account.flags)?;
    send_128(out, "id", account.id)?;
    send_64(out, "timestamp", account.timestamp)?;
    send_128(out, "user_data_128", account.user_data_128)?;
    send_32(out, "user_data_32", account.user_data_32)?;
    send_64(out, "user_data_64", account.user_data_64)?;
    out.end_object()
}

fn send_transfer(out: &mut Writer, transfer: &EventTransfer) -> Result<(), AllocError>
    ensures sends { OnOk result (Sends out.old out.new (value_tokens (value.transfer_value transfer.now))) }
    ensures fits { OnOk result (TransferFits transfer.now) }
{
    out.begin_object()?;
    send_128(out, "amount", transfer.amount)?;
    send_16(out, "code", transfer.code)?;
    send_16(out, "flags", transfer.flags)?;
    send_128(out, "id", transfer.id)?;
    send_128(out, "pending_id", transfer.pending_id)?;
    send_32(out, "timeout", transfer.timeout)?;
    send_64(out, "timestamp", transfer.timestamp)?;
    send_128(out, "user_data_128", transfer.user_data_128)?;
    send_32(out, "user_data_32", transfer.user_data_32)?;
    send_64(out, "user_data_64", transfer.user_data_64)?;
    out.end_object()
}

// Writes an event as a JSON object, with the members of every object in ascending order of their names.
fn send_event(out: &mut Writer, event: &Event) -> Result<(), AllocError>
    ensures sends { OnOk result (Sends out.old out.new (value_tokens (value.event_value event.now))) }
    ensures fits { OnOk result (EventFits event.now) }
{
    out.begin_object()?;
    out.key("credit_account")?;
    send_account(out, &event.credit_account)?;
    out.key("debit_account")?;
    send_account(out, &event.debit_account)?;
    send_32(out, "ledger", event.ledger)?;
    send_64(out, "timestamp", event.timestamp)?;
    out.key("transfer")?;
    send_transfer(out, &event.transfer)?;
    out.key("type")?;
    out.string(kind_text(event.kind))?;
    out.end_object()
}

/// The JSON text of an event, without white space, and with the members of every object in ascending order of their
/// names. Numbers of 64 and 128 bits are decimal strings (TigerBeetle, Change Data Capture). The error is out of
/// memory.
pub fn encode(alloc: Global, event: &Event) -> Result<String, AllocError>
    ensures text { IfOk result (λ text. string_bytes text ≡ body event.now) }
    ensures reads_back { IfOk result (λ text. read (string_bytes text) ≡ Ok event.now) }
    ensures fits { OnOk result (EventFits event.now) }
    // For every event, not only for this one.
    ensures law { BodiesReadBack }
{
    let mut out = Writer::new(Vec::with_capacity(alloc, BODY_BYTES)?);
    send_event(&mut out, event)?;
    // A body is ASCII, so the only possible error is out of memory.
    String::from_utf8(out.into_inner()).or(Err(AllocError))
}
