//! The text that makes the tables, and the one that precedes the saves.

ghost use Rattle.std.specs.Prelude.{◌≡◌, ◌++◌, codes, IfOk, OnOk};
ghost use Rattle.cdc_sql.specs.Schema as spec;
ghost use Rattle.cdc_sql.specs.Schema.{accounts_schema, book_schema, create_schema, events_schema, events_schema_if};
ghost use Rattle.cdc_sql.specs.Schema.{first_row, preamble, schema_text as text_of, tables_schema};

use crate::names::SchemaName;
use crate::pieces::{push, push_bytes, push_named};
use crate::places::Place;
use crate::positions::push_position;
use crate::statements::{push_accounts_table, push_events_table};
use crate::transactions::push_book_table;
use std::alloc::{AllocError, Global};

/// What precedes the saves, so that `psql -X` needs no options: psql stops at the first error and prints only the
/// reports, each statement outside a transaction is one of its own, and a server that can lose a commit is refused.
pub fn preamble_text() -> &'static str
    ensures { result.now ≡ preamble }
{
    "\\set QUIET on\n\\set ON_ERROR_STOP on\n\\set AUTOCOMMIT on\n\\set ON_ERROR_ROLLBACK off\n\
        \\pset tuples_only on\n\\pset format unaligned\nSET idle_in_transaction_session_timeout = '60s';\n\
        DO $$BEGIN IF current_setting('synchronous_commit') = 'off' THEN \
        RAISE 'synchronous_commit is off, so a commit can be lost'; END IF; END$$;\n"
}

/// Adds what makes the table `book`.
fn push_book_schema(text: &mut Vec<u8>, name: &SchemaName) -> Result<(), AllocError>
    ensures { OnOk result (text.new.items ≡ text.old.items ++ book_schema name.now.text.items) }
{
    push(text, "CREATE TABLE ")?;
    push_book_table(text, name)?;
    push(
        text,
        " (id smallint PRIMARY KEY CHECK (id = 1), position text NOT NULL, seen numeric(20) NOT NULL, \
        last numeric(20) NOT NULL, applied numeric(20) NOT NULL);\nCOMMENT ON TABLE ",
    )?;
    push_book_table(text, name)?;
    push(
        text,
        " IS 'Where the follower is in its stream. Its saves alone may change the row.';\n",
    )
}

/// The columns of the table `accounts`, and what follows them.
fn account_schema_columns() -> &'static str
    ensures { result.now ≡ spec.account_schema_columns }
{
    " (id numeric(39) PRIMARY KEY, debits_pending numeric(39) NOT NULL, debits_posted numeric(39) NOT NULL, \
     credits_pending numeric(39) NOT NULL, credits_posted numeric(39) NOT NULL, \
     last_timestamp numeric(20) NOT NULL, ledger bigint NOT NULL, code integer NOT NULL, \
     flags integer NOT NULL, user_data_128 numeric(39) NOT NULL, user_data_64 numeric(20) NOT NULL, \
     user_data_32 bigint NOT NULL);\nCOMMENT ON TABLE "
}

/// Adds what makes the table `accounts`.
fn push_accounts_schema(text: &mut Vec<u8>, name: &SchemaName) -> Result<(), AllocError>
    ensures { OnOk result (text.new.items ≡ text.old.items ++ accounts_schema name.now.text.items) }
{
    push(text, "CREATE TABLE ")?;
    push_accounts_table(text, name)?;
    push(text, account_schema_columns())?;
    push_accounts_table(text, name)?;
    push(
        text,
        " IS 'Each account after the last event that has it.';\n",
    )
}

/// The columns of the table `events`, except those of the events' accounts.
fn transfer_schema_columns() -> &'static str
    ensures { result.now ≡ spec.transfer_schema_columns }
{
    " (timestamp numeric(20) PRIMARY KEY, type text NOT NULL, ledger bigint NOT NULL, \
     transfer_id numeric(39) NOT NULL, transfer_amount numeric(39) NOT NULL, \
     transfer_pending_id numeric(39) NOT NULL, transfer_user_data_128 numeric(39) NOT NULL, \
     transfer_user_data_64 numeric(20) NOT NULL, transfer_user_data_32 bigint NOT NULL, \
     transfer_timeout bigint NOT NULL, transfer_code integer NOT NULL, \
     transfer_flags integer NOT NULL, transfer_timestamp numeric(20) NOT NULL"
}

/// The columns of an event's debited account.
fn debit_schema_columns() -> &'static str
    ensures { result.now ≡ spec.side_schema_columns (codes "debit_account") }
{
    ", debit_account_id numeric(39) NOT NULL, debit_account_debits_pending numeric(39) NOT NULL, \
     debit_account_debits_posted numeric(39) NOT NULL, debit_account_credits_pending numeric(39) NOT NULL, \
     debit_account_credits_posted numeric(39) NOT NULL, debit_account_user_data_128 numeric(39) NOT NULL, \
     debit_account_user_data_64 numeric(20) NOT NULL, debit_account_user_data_32 bigint NOT NULL, \
     debit_account_code integer NOT NULL, debit_account_flags integer NOT NULL, \
     debit_account_timestamp numeric(20) NOT NULL"
}

/// The columns of an event's credited account.
fn credit_schema_columns() -> &'static str
    ensures { result.now ≡ spec.side_schema_columns (codes "credit_account") }
{
    ", credit_account_id numeric(39) NOT NULL, credit_account_debits_pending numeric(39) NOT NULL, \
     credit_account_debits_posted numeric(39) NOT NULL, credit_account_credits_pending numeric(39) NOT NULL, \
     credit_account_credits_posted numeric(39) NOT NULL, credit_account_user_data_128 numeric(39) NOT NULL, \
     credit_account_user_data_64 numeric(20) NOT NULL, credit_account_user_data_32 bigint NOT NULL, \
     credit_account_code integer NOT NULL, credit_account_flags integer NOT NULL, \
     credit_account_timestamp numeric(20) NOT NULL"
}

/// Adds what makes the table `events`.
fn push_events_schema(text: &mut Vec<u8>, name: &SchemaName) -> Result<(), AllocError>
    ensures { OnOk result (text.new.items ≡ text.old.items ++ events_schema name.now.text.items) }
{
    push(text, "CREATE TABLE ")?;
    push_events_table(text, name)?;
    push(text, transfer_schema_columns())?;
    push(text, debit_schema_columns())?;
    push(text, credit_schema_columns())?;
    push(text, ");\nCOMMENT ON TABLE ")?;
    push_events_table(text, name)?;
    push(
        text,
        " IS 'The events that were applied. Rows are only added.';\n",
    )
}

/// Adds what makes the table `events`, if events are kept.
fn push_events_schema_if(
    text: &mut Vec<u8>,
    name: &SchemaName,
    keeps_events: bool,
) -> Result<(), AllocError>
    ensures { OnOk result (text.new.items ≡ text.old.items ++ events_schema_if keeps_events name.now.text.items) }
{
    if keeps_events {
        push_events_schema(text, name)
    } else {
        Ok(())
    }
}

/// Adds what makes the row of the book.
fn push_first_row(
    text: &mut Vec<u8>,
    name: &SchemaName,
    chained: bool,
    binding: &[u8],
    place: Place,
) -> Result<(), AllocError>
    ensures { OnOk result (text.new.items
        ≡ text.old.items ++ first_row name.now.text.items chained binding.now place) }
{
    push(text, "INSERT INTO ")?;
    push_book_table(text, name)?;
    push(text, " (id, position, seen, last, applied) VALUES (1, '")?;
    push_position(text, chained, binding, place)?;
    push_named(text, "', ", place.seen)?;
    push_named(text, ", ", place.last)?;
    push_named(text, ", ", place.applied)?;
    push(text, ");\n")
}

/// Adds what makes the schema.
fn push_create(text: &mut Vec<u8>, name: &SchemaName) -> Result<(), AllocError>
    ensures { OnOk result (text.new.items ≡ text.old.items ++ create_schema name.now.text.items) }
{
    push(text, "BEGIN;\nCREATE SCHEMA \"")?;
    push_bytes(text, name.text())?;
    push(text, "\";\n")
}

/// Adds what makes the schema with its tables.
fn push_tables(text: &mut Vec<u8>, name: &SchemaName, keeps_events: bool) -> Result<(), AllocError>
    ensures { OnOk result (text.new.items ≡ text.old.items ++ tables_schema keeps_events name.now.text.items) }
{
    push_create(text, name)?;
    push_book_schema(text, name)?;
    push_accounts_schema(text, name)?;
    push_events_schema_if(text, name, keeps_events)
}

/// Adds what makes the row of the book, and the commit.
fn push_start(
    text: &mut Vec<u8>,
    name: &SchemaName,
    chained: bool,
    binding: &[u8],
    place: Place,
) -> Result<(), AllocError>
    ensures { OnOk result (text.new.items
        ≡ text.old.items ++ (first_row name.now.text.items chained binding.now place ++ codes "COMMIT;\n")) }
{
    push_first_row(text, name, chained, binding, place)?;
    push(text, "COMMIT;\n")
}

/// The text that makes the schema of this name, with its tables, and the book's row at the place where the follower
/// begins. The table `events` is among them if events are kept. It is executed once: where the schema exists, it fails,
/// and nothing changes. `binding` is the text of the follower's binding, which has to be plain. The one error is that
/// memory ran out.
pub fn schema_text(
    alloc: Global,
    name: &SchemaName,
    keeps_events: bool,
    chained: bool,
    binding: &[u8],
    place: Place,
) -> Result<Vec<u8>, AllocError>
    ensures { IfOk result (λ text. text.items
        ≡ text_of keeps_events name.now.text.items chained binding.now place) }
{
    let mut text = Vec::new(alloc);
    push_tables(&mut text, name, keeps_events)?;
    push_start(&mut text, name, chained, binding, place)?;
    Ok(text)
}
