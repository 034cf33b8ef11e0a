//! The statements of a save that put rows into tables.

ghost use Rattle.std.specs.Prelude.{◌≡◌, ◌++◌, IfOk, OnOk, slice_get};
ghost use Rattle.cdc_sql.specs.Rows.{events_kept};
ghost use Rattle.cdc_sql.specs.Statements as spec;
ghost use Rattle.cdc_sql.specs.Statements.{between_text, lead_text, list_text, next_text, numbers_text, row_text};
ghost use Rattle.cdc_sql.specs.Statements.{account_numbers, account_statement, accounts_table, accounts_text};
ghost use Rattle.cdc_sql.specs.Statements.{event_statement, events_table};
ghost use Rattle.cdc_sql.specs.Statements.{event_text, events_text, row_numbers, transfer_numbers};

use crate::names::SchemaName;
use crate::pieces::{push, push_bytes, push_named};
use crate::rows::{AccountRow, Recent};
use cdc_keys::KeyedMap;
use cdc_message::kind_text;
use cdc_types::{Event, EventAccount, EventTransfer};
use std::alloc::{AllocError, Global};

/// How many rows a statement has, at most.
const STATEMENT_ROWS: usize = 1000;

/// Adds the name of the table `accounts`.
pub(crate) fn push_accounts_table(text: &mut Vec<u8>, name: &SchemaName) -> Result<(), AllocError>
    ensures { OnOk result (text.new.items ≡ text.old.items ++ accounts_table name.now.text.items) }
{
    push(text, "\"")?;
    push_bytes(text, name.text())?;
    push(text, "\".accounts")
}

/// Adds the name of the table `events`.
pub(crate) fn push_events_table(text: &mut Vec<u8>, name: &SchemaName) -> Result<(), AllocError>
    ensures { OnOk result (text.new.items ≡ text.old.items ++ events_table name.now.text.items) }
{
    push(text, "\"")?;
    push_bytes(text, name.text())?;
    push(text, "\".events")
}

/// Adds numbers, each after a comma.
fn push_numbers(text: &mut Vec<u8>, numbers: &[u128]) -> Result<(), AllocError>
    ensures { OnOk result (text.new.items ≡ text.old.items ++ numbers_text numbers.now) }
{
    for number in numbers {
        push_named(text, ", ", *number)?;
    }
    Ok(())
}

/// The columns of an account's row, except its number.
fn row_columns() -> &'static str
    ensures { result.now ≡ spec.row_columns }
{
    "debits_pending, debits_posted, credits_pending, credits_posted, \
     last_timestamp, ledger, code, flags, user_data_128, user_data_64, user_data_32"
}

/// How a statement ends that puts accounts: one that is there already gets the new values.
fn account_conflict() -> &'static str
    ensures { result.now ≡ spec.account_conflict }
{
    "\nON CONFLICT (id) DO UPDATE SET \
     debits_pending = excluded.debits_pending, debits_posted = excluded.debits_posted, \
     credits_pending = excluded.credits_pending, credits_posted = excluded.credits_posted, \
     last_timestamp = excluded.last_timestamp, ledger = excluded.ledger, code = excluded.code, \
     flags = excluded.flags, user_data_128 = excluded.user_data_128, user_data_64 = excluded.user_data_64, \
     user_data_32 = excluded.user_data_32;\n"
}

/// The columns of an event's row.
fn event_columns() -> &'static str
    ensures { result.now ≡ spec.event_columns }
{
    "type, timestamp, ledger, transfer_id, transfer_amount, transfer_pending_id, transfer_user_data_128, \
     transfer_user_data_64, transfer_user_data_32, transfer_timeout, transfer_code, transfer_flags, \
     transfer_timestamp, debit_account_id, debit_account_debits_pending, debit_account_debits_posted, \
     debit_account_credits_pending, debit_account_credits_posted, debit_account_user_data_128, \
     debit_account_user_data_64, debit_account_user_data_32, debit_account_code, debit_account_flags, \
     debit_account_timestamp, credit_account_id, credit_account_debits_pending, credit_account_debits_posted, \
     credit_account_credits_pending, credit_account_credits_posted, credit_account_user_data_128, \
     credit_account_user_data_64, credit_account_user_data_32, credit_account_code, credit_account_flags, \
     credit_account_timestamp"
}

/// Adds how a statement begins that puts accounts.
fn push_account_head(text: &mut Vec<u8>, name: &SchemaName) -> Result<(), AllocError>
    ensures { OnOk result (text.new.items ≡ text.old.items ++ account_statement name.now.text.items) }
{
    push(text, "INSERT INTO ")?;
    push_accounts_table(text, name)?;
    push(text, " (id, ")?;
    push(text, row_columns())?;
    push(text, ") VALUES\n")
}

/// How a statement begins that puts accounts.
fn account_head(alloc: Global, name: &SchemaName) -> Result<Vec<u8>, AllocError>
    ensures { IfOk result (λ head. head.items ≡ account_statement name.now.text.items) }
{
    let mut head = Vec::new(alloc);
    push_account_head(&mut head, name)?;
    Ok(head)
}

/// Adds how a statement begins that adds events.
fn push_event_head(text: &mut Vec<u8>, name: &SchemaName) -> Result<(), AllocError>
    ensures { OnOk result (text.new.items ≡ text.old.items ++ event_statement name.now.text.items) }
{
    push(text, "INSERT INTO ")?;
    push_events_table(text, name)?;
    push(text, " (")?;
    push(text, event_columns())?;
    push(text, ") VALUES\n")
}

/// How a statement begins that adds events.
fn event_head(alloc: Global, name: &SchemaName) -> Result<Vec<u8>, AllocError>
    ensures { IfOk result (λ head. head.items ≡ event_statement name.now.text.items) }
{
    let mut head = Vec::new(alloc);
    push_event_head(&mut head, name)?;
    Ok(head)
}

/// Ends a statement, and begins another one.
fn push_next(text: &mut Vec<u8>, head: &[u8], tail: &str) -> Result<(), AllocError>
    ensures { OnOk result (text.new.items ≡ text.old.items ++ next_text head.now tail.now) }
{
    push(text, tail)?;
    push_bytes(text, head)
}

/// Adds what stands before the row of this place, which isn't the first one.
fn push_between(text: &mut Vec<u8>, head: &[u8], tail: &str, place: usize) -> Result<(), AllocError>
    ensures { OnOk result (text.new.items ≡ text.old.items ++ between_text head.now tail.now place) }
{
    if place % STATEMENT_ROWS == 0 {
        push_next(text, head, tail)
    } else {
        push(text, ",\n")
    }
}

/// Adds what precedes the row of this place.
fn push_lead(text: &mut Vec<u8>, head: &[u8], tail: &str, place: usize) -> Result<(), AllocError>
    ensures { OnOk result (text.new.items ≡ text.old.items ++ lead_text head.now tail.now place) }
{
    if place == 0 {
        push_bytes(text, head)
    } else {
        push_between(text, head, tail, place)
    }
}

/// The number and the row of the account at this index.
fn row_at(rows: &KeyedMap<u128, AccountRow>, place: usize) -> Option<(u128, AccountRow)>
    ensures { result ≡ slice_get rows.now.entries place }
{
    rows.get_index(place).map(|(id, row)| (*id, *row))
}

/// Adds the columns of an account's row, except its number.
fn push_columns_of(text: &mut Vec<u8>, row: &AccountRow) -> Result<(), AllocError>
    ensures { OnOk result (text.new.items ≡ text.old.items ++ numbers_text (row_numbers row.now)) }
{
    let (balances, details) = (&row.balances, &row.details);
    push_numbers(
        text,
        &[
            balances.debits_pending,
            balances.debits_posted,
            balances.credits_pending,
            balances.credits_posted,
            u128::from(details.last_timestamp),
            u128::from(details.ledger),
            u128::from(details.code),
            u128::from(details.flags),
            details.user_data_128,
            u128::from(details.user_data_64),
            u128::from(details.user_data_32),
        ],
    )
}

/// Adds an account's row.
fn push_row(text: &mut Vec<u8>, id: u128, row: &AccountRow) -> Result<(), AllocError>
    ensures { OnOk result (text.new.items ≡ text.old.items ++ row_text (id, row.now)) }
{
    push_named(text, "(", id)?;
    push_columns_of(text, row)?;
    push(text, ")")
}

/// Adds the rows of accounts.
fn push_rows(
    text: &mut Vec<u8>,
    head: &[u8],
    rows: &KeyedMap<u128, AccountRow>,
) -> Result<(), AllocError>
    ensures { OnOk result (text.new.items
        ≡ text.old.items ++ list_text (lead_text head.now spec.account_conflict) row_text 0 rows.now.entries) }
{
    'rows: for place in 0..rows.len() {
        if let Some((id, row)) = row_at(rows, place) {
            push_lead(text, head, account_conflict(), place)?;
            push_row(text, id, &row)?;
        }
    }
    Ok(())
}

/// Adds the statements that put accounts, of which there are some.
fn push_account_statements(
    text: &mut Vec<u8>,
    head: &[u8],
    rows: &KeyedMap<u128, AccountRow>,
) -> Result<(), AllocError>
    ensures { OnOk result (text.new.items ≡ text.old.items
        ++ (list_text (lead_text head.now spec.account_conflict) row_text 0 rows.now.entries
        ++ spec.account_conflict)) }
{
    push_rows(text, head, rows)?;
    push(text, account_conflict())
}

/// Adds the statements that put accounts; none if there is no account.
pub(crate) fn push_accounts(
    text: &mut Vec<u8>,
    alloc: Global,
    name: &SchemaName,
    recent: &Recent,
) -> Result<(), AllocError>
    ensures { OnOk result (text.new.items
        ≡ text.old.items ++ accounts_text name.now.text.items recent.now.rows.entries) }
{
    let rows = recent.rows();
    if rows.is_empty() {
        Ok(())
    } else {
        let head = account_head(alloc, name)?;
        push_account_statements(text, head.as_slice(), rows)
    }
}

/// Adds the columns of an event's transfer.
fn push_transfer(text: &mut Vec<u8>, transfer: &EventTransfer) -> Result<(), AllocError>
    ensures { OnOk result (text.new.items ≡ text.old.items ++ numbers_text (transfer_numbers transfer.now)) }
{
    push_numbers(
        text,
        &[
            transfer.id,
            transfer.amount,
            transfer.pending_id,
            transfer.user_data_128,
            u128::from(transfer.user_data_64),
            u128::from(transfer.user_data_32),
            u128::from(transfer.timeout),
            u128::from(transfer.code),
            u128::from(transfer.flags),
            u128::from(transfer.timestamp),
        ],
    )
}

/// Adds the columns of one of an event's accounts.
fn push_account(text: &mut Vec<u8>, account: &EventAccount) -> Result<(), AllocError>
    ensures { OnOk result (text.new.items ≡ text.old.items ++ numbers_text (account_numbers account.now)) }
{
    push_numbers(
        text,
        &[
            account.id,
            account.debits_pending,
            account.debits_posted,
            account.credits_pending,
            account.credits_posted,
            account.user_data_128,
            u128::from(account.user_data_64),
            u128::from(account.user_data_32),
            u128::from(account.code),
            u128::from(account.flags),
            u128::from(account.timestamp),
        ],
    )
}

/// Adds an event's row.
fn push_event(text: &mut Vec<u8>, event: &Event) -> Result<(), AllocError>
    ensures { OnOk result (text.new.items ≡ text.old.items ++ event_text event.now) }
{
    push(text, "('")?;
    push(text, kind_text(event.kind))?;
    push_named(text, "', ", event.timestamp)?;
    push_named(text, ", ", event.ledger)?;
    push_transfer(text, &event.transfer)?;
    push_account(text, &event.debit_account)?;
    push_account(text, &event.credit_account)?;
    push(text, ")")
}

/// The event at this index.
fn event_at(events: &[Event], place: usize) -> Option<Event>
    ensures { result ≡ slice_get events.now place }
{
    events.get(place).copied()
}

/// Adds the rows of events.
fn push_event_rows(text: &mut Vec<u8>, head: &[u8], events: &[Event]) -> Result<(), AllocError>
    ensures { OnOk result (text.new.items
        ≡ text.old.items ++ list_text (lead_text head.now spec.event_end) event_text 0 events.now) }
{
    'events: for place in 0..events.len() {
        if let Some(event) = event_at(events, place) {
            push_lead(text, head, ";\n", place)?;
            push_event(text, &event)?;
        }
    }
    Ok(())
}

/// Adds the statements that add events, of which there are some.
fn push_event_statements(
    text: &mut Vec<u8>,
    head: &[u8],
    events: &[Event],
) -> Result<(), AllocError>
    ensures { OnOk result (text.new.items ≡ text.old.items
        ++ (list_text (lead_text head.now spec.event_end) event_text 0 events.now ++ spec.event_end)) }
{
    push_event_rows(text, head, events)?;
    push(text, ";\n")
}

/// Adds the statements that add the events that are kept; none if there is no event.
pub(crate) fn push_events(
    text: &mut Vec<u8>,
    alloc: Global,
    name: &SchemaName,
    recent: &Recent,
) -> Result<(), AllocError>
    ensures { OnOk result (text.new.items
        ≡ text.old.items ++ events_text name.now.text.items (events_kept recent.now.events)) }
{
    let events = recent.events();
    if events.is_empty() {
        Ok(())
    } else {
        let head = event_head(alloc, name)?;
        push_event_statements(text, head.as_slice(), events)
    }
}
