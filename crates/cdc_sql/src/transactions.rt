//! The text of a save.

ghost use Rattle.std.specs.Prelude.{◌≡◌, ◌++◌, codes, IfOk, OnOk};
ghost use Rattle.cdc_sql.specs.Saves.{save_between};
ghost use Rattle.cdc_sql.specs.Texts.{book_table, body_text, columns_text, commit_text, end_report};
ghost use Rattle.cdc_sql.specs.Texts.{end_report_text, move_text, report_text, transaction_text as text_of};

use crate::names::SchemaName;
use crate::pieces::{push, push_bytes};
use crate::places::Place;
use crate::positions::push_columns;
use crate::rows::Recent;
use crate::statements::{push_accounts, push_events};
use std::alloc::{AllocError, Global};

/// Adds the name of the table `book`.
pub(crate) fn push_book_table(text: &mut Vec<u8>, name: &SchemaName) -> Result<(), AllocError>
    ensures { OnOk result (text.new.items ≡ text.old.items ++ book_table name.now.text.items) }
{
    push(text, "\"")?;
    push_bytes(text, name.text())?;
    push(text, "\".book")
}

/// What fails the transaction unless the row was moved, up to its message.
fn refusal() -> &'static str
    ensures { result.now ≡ codes "IF NOT FOUND THEN RAISE '" }
{
    "IF NOT FOUND THEN RAISE '"
}

/// Adds what follows the new place in the text that moves the position.
fn push_fence(
    text: &mut Vec<u8>,
    name: &SchemaName,
    chained: bool,
    binding: &[u8],
    before: Place,
) -> Result<(), AllocError>
    ensures { OnOk result (text.new.items ≡ text.old.items ++ (codes "\nWHERE id = 1 AND "
        ++ (columns_text (codes " AND ") chained binding.now before
        ++ (codes ";\n" ++ (codes "IF NOT FOUND THEN RAISE '" ++ (book_table name.now.text.items
        ++ codes " is not where this follower left it'; END IF;\nEND$$;\n")))))) }
{
    push(text, "\nWHERE id = 1 AND ")?;
    push_columns(text, " AND ", chained, binding, before)?;
    push(text, ";\n")?;
    push(text, refusal())?;
    push_book_table(text, name)?;
    push(
        text,
        " is not where this follower left it'; END IF;\nEND$$;\n",
    )
}

/// Adds what moves the position.
fn push_move(
    text: &mut Vec<u8>,
    name: &SchemaName,
    chained: bool,
    binding: &[u8],
    before: Place,
    after: Place,
) -> Result<(), AllocError>
    ensures { OnOk result (text.new.items
        ≡ text.old.items ++ move_text name.now.text.items chained binding.now before after) }
{
    push(text, "BEGIN;\nDO $$BEGIN\nUPDATE ")?;
    push_book_table(text, name)?;
    push(text, " SET ")?;
    push_columns(text, ", ", chained, binding, after)?;
    push_fence(text, name, chained, binding, before)
}

/// Adds what a transaction has before its commit.
fn push_body(
    text: &mut Vec<u8>,
    alloc: Global,
    name: &SchemaName,
    chained: bool,
    binding: &[u8],
    before: Place,
    after: Place,
    recent: &Recent,
) -> Result<(), AllocError>
    ensures { OnOk result (text.new.items ≡ text.old.items
        ++ body_text name.now.text.items chained binding.now (save_between before after recent.now)) }
{
    push_move(text, name, chained, binding, before, after)?;
    push_accounts(text, alloc, name, recent)?;
    push_events(text, alloc, name, recent)
}

/// Adds what prints that the end was received.
fn push_end_report(text: &mut Vec<u8>, name: &SchemaName) -> Result<(), AllocError>
    ensures { OnOk result (text.new.items ≡ text.old.items ++ end_report name.now.text.items) }
{
    push(text, "SELECT ('ended ' || seen) FROM ")?;
    push_book_table(text, name)?;
    push(text, " WHERE id = 1 AND position LIKE '% ended yes %';\n")
}

/// Adds what prints that the end was received, if it was.
fn push_end_if(text: &mut Vec<u8>, name: &SchemaName, ended: bool) -> Result<(), AllocError>
    ensures { OnOk result (text.new.items ≡ text.old.items ++ end_report_text name.now.text.items ended) }
{
    if ended {
        push_end_report(text, name)
    } else {
        Ok(())
    }
}

/// Adds what prints a save.
fn push_report(text: &mut Vec<u8>, name: &SchemaName, ended: bool) -> Result<(), AllocError>
    ensures { OnOk result (text.new.items ≡ text.old.items ++ report_text name.now.text.items ended) }
{
    push(text, "SELECT ('saved ' || seen) FROM ")?;
    push_book_table(text, name)?;
    push(text, " WHERE id = 1;\n")?;
    push_end_if(text, name, ended)
}

/// Adds what a transaction has from its commit on, and what prints it.
fn push_commit(text: &mut Vec<u8>, name: &SchemaName, ended: bool) -> Result<(), AllocError>
    ensures { OnOk result (text.new.items ≡ text.old.items ++ commit_text name.now.text.items ended) }
{
    push(text, "COMMIT;\n")?;
    push_report(text, name, ended)
}

/// The text of the save of a follower that went from the place `before` to the place `after`. `recent` has what it has
/// applied meanwhile. `binding` is the text of its binding, which has to be plain. The transaction moves the row of the
/// table `book` from the one place to the other, and fails if the row isn't as it was left; then it puts the rows of
/// the accounts, and adds the events. What follows it prints `saved T`, and `ended T` once the end was received, both
/// from the row. The one error is that memory ran out.
pub fn transaction_text(
    alloc: Global,
    name: &SchemaName,
    chained: bool,
    binding: &[u8],
    before: Place,
    after: Place,
    recent: &Recent,
) -> Result<Vec<u8>, AllocError>
    ensures { IfOk result (λ text. text.items
        ≡ text_of name.now.text.items chained binding.now (save_between before after recent.now)) }
{
    let mut text = Vec::new(alloc);
    push_body(
        &mut text, alloc, name, chained, binding, before, after, recent,
    )?;
    push_commit(&mut text, name, after.ended)?;
    Ok(text)
}
