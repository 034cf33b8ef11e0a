//! The statements of the lines of a script.

ghost use Rattle.std.specs.Prelude.{◌≡◌, false, true, codes, not, find, Ok, Err};
ghost use Rattle.std.specs.Prelude.{IfOk, IfSome, MatchResult};
ghost use Rattle.std.specs.Str.{bytes_eq};
ghost use Rattle.cdc_script.specs.Private.Lines.{IsLineFault};
ghost use Rattle.cdc_script.specs.Private.Parts.{seen, spoken_of, words_of};
ghost use Rattle.cdc_script.specs.Private.Suited.{IsSuited, IsNoItem, HasBatch};
ghost use Rattle.cdc_script.specs.Scripts.{BeginsSubscriber};
ghost use Rattle.cdc_script.specs.Statements as spec;
ghost use Rattle.cdc_script.specs.Statements.{account_line, client_line, line_states};
ghost use Rattle.cdc_script.specs.Statements.{meaning, subscriber_line, transfer_line};

use crate::bindings::read_binding;
use crate::faults::{BatchEnd, Detail, FaultKind, LineError, LineFault};
use crate::fields::{ItemKind, account_of, read_fields};
use crate::operands::{at_end, read_lone_number, read_word_number};
use crate::parts::Part;
use crate::places::{bad_text, missing, span_of, wrong};
use crate::words::{first_word, is_printable_word, is_word, next_word};
use cdc_match::Binding;
use cdc_types::{Limits, NewAccount, NewTransfer};
use std::alloc::Global;

/// The contents of one line of a script.
#[derive(Drop)]
pub enum Statement {
    /// A subscriber with this binding.
    Subscriber(Binding),
    /// The batches that follow are submitted by this client.
    Client(u64),
    /// A batch of accounts begins. It is submitted at this timestamp, in nanoseconds.
    Accounts(u64),
    /// A batch of transfers begins. It is submitted at this timestamp, in nanoseconds.
    Transfers(u64),
    /// An item of the open batch.
    Account(NewAccount),
    /// An item of the open batch.
    Transfer(NewTransfer),
    /// A batch by itself: a pulse at this timestamp, in nanoseconds.
    Pulse(u64),
}

/// What a line depends on of the lines above it.
#[derive(Clone, Copy)]
pub struct Context {
    /// The kind of the open batch. `None` if no batch is open.
    pub open_batch: Option<ItemKind>,
    /// The number of subscribers so far.
    pub subscribers: usize,
    /// The number of the line that began the open batch, or else ended the last one. 0 before the first batch.
    pub batch_line: u32,
    /// Which line ended the last batch; none before any did, and if one is open.
    pub ended_by: Option<BatchEnd>,
}

/// The statement of a line. `None` if the line is blank or a comment.
pub fn read_statement(
    alloc: Global,
    line: Part<'_>,
    context: Context,
) -> Result<Option<Statement>, LineError>
    ensures states { MatchResult result (λ stated. line_states context (seen line.entry) ≡ Ok stated)
        (λ error. IsLineFault error (line_states context (seen line.entry))) }
    ensures memory { result ≡ Err LineError.OutOfMemory → BeginsSubscriber (spoken_of line.entry) }
    ensures suited { IfOk result (λ stated. IfSome stated (IsSuited context)) }
{
    match first_word(line) {
        None => Ok(None),
        Some((first, rest)) => Ok(Some(read_words(alloc, first, rest, context)?)),
    }
}

/// The statement of the words of a line.
fn read_words(
    alloc: Global,
    first: Part<'_>,
    rest: Part<'_>,
    context: Context,
) -> Result<Statement, LineError>
    ensures states { MatchResult result
        (λ stated. meaning context (seen first.entry) (words_of rest.entry) ≡ Ok stated)
        (λ error. IsLineFault error (meaning context (seen first.entry) (words_of rest.entry))) }
    ensures memory { result ≡ Err LineError.OutOfMemory
        → bytes_eq first.entry.bytes.now (codes "subscriber") ≡ true }
    ensures suited { IfOk result (IsSuited context) }
{
    if is_word(first.bytes, "subscriber") {
        read_subscriber(alloc, first, rest, context.subscribers)
    } else {
        Ok(read_other_words(first, rest, context)?)
    }
}

/// The statement of the words of a line that isn't a subscriber line.
fn read_other_words(
    first: Part<'_>,
    rest: Part<'_>,
    context: Context,
) -> Result<Statement, LineFault>
    requires { bytes_eq first.bytes.now (codes "subscriber") ≡ false }
    ensures states { result ≡ meaning context (seen first.entry) (words_of rest.entry) }
    ensures suited { IfOk result (IsSuited context) }
{
    if !is_printable_word(first.bytes) {
        Err(bad_text(first))
    } else if is_word(first.bytes, "client") {
        read_client(rest)
    } else if is_word(first.bytes, "accounts") {
        Ok(Statement::Accounts(read_lone_number(rest)?))
    } else if is_word(first.bytes, "transfers") {
        Ok(Statement::Transfers(read_lone_number(rest)?))
    } else if is_word(first.bytes, "pulse") {
        Ok(Statement::Pulse(read_lone_number(rest)?))
    } else if is_word(first.bytes, "account") {
        read_account(first, rest, context)
    } else if is_word(first.bytes, "transfer") {
        read_transfer(first, rest, context)
    } else {
        Err(wrong(FaultKind::UnknownWord, first))
    }
}

/// The statement of a subscriber line. If there are as many subscribers as allowed, the binding isn't read.
fn read_subscriber(
    alloc: Global,
    first: Part<'_>,
    words: Part<'_>,
    subscribers: usize,
) -> Result<Statement, LineError>
    ensures states { MatchResult result
        (λ stated. subscriber_line subscribers (seen first.entry) (words_of words.entry) ≡ Ok stated)
        (λ error. IsLineFault error
        (subscriber_line subscribers (seen first.entry) (words_of words.entry))) }
    ensures no_item { IfOk result IsNoItem }
{
    if subscribers >= Limits::SUBSCRIBERS {
        return Err(LineError::Fault(wrong(FaultKind::TooManySubscribers, first)));
    }
    read_binding(alloc, words)
}

/// The statement of a client line.
fn read_client(words: Part<'_>) -> Result<Statement, LineFault>
    ensures states { result ≡ client_line (words_of words.entry) }
    ensures no_item { IfOk result IsNoItem }
{
    let (number, rest) = read_word_number(words)?;
    if number == 0 || number > Limits::CLIENTS {
        return Err(bad_client(words));
    }
    Ok(Statement::Client(at_end(rest, FaultKind::WrongCount, number)?))
}

/// The fault of a client's number that is out of range.
fn bad_client(words: Part<'_>) -> LineFault
    ensures { result ≡ spec.bad_client (words_of words.entry) }
{
    match next_word(words) {
        Some((word, _)) => wrong(FaultKind::BadClient, word),
        None => missing(FaultKind::BadClient),
    }
}

/// The fault of an item that no open batch takes. `first` is the first word of its line.
fn no_batch(context: Context, first: Part<'_>) -> LineFault
    ensures { result ≡ spec.no_batch context (seen first.entry) }
{
    LineFault {
        word: Some(span_of(first)),
        kind: FaultKind::NoOpenBatch,
        detail: batch_detail(context.open_batch, context.batch_line, context.ended_by),
    }
}

/// What happened to the batch above such an item: one of the other kind began, or it ended.
fn batch_detail(open_batch: Option<ItemKind>, line: u32, ended_by: Option<BatchEnd>) -> Detail
    ensures { result ≡ spec.batch_detail open_batch line ended_by }
{
    match (open_batch, ended_by) {
        (Some(_), _) => Detail::BatchBegan(line),
        (None, None) => Detail::Plain,
        (None, Some(end)) => Detail::BatchEnded(line, end),
    }
}

/// The statement of an account line.
fn read_account(first: Part<'_>, words: Part<'_>, context: Context) -> Result<Statement, LineFault>
    ensures states { result ≡ account_line context.open_batch
        (spec.no_batch context (seen first.entry)) (words_of words.entry) }
    ensures suited { IfOk result (HasBatch context.open_batch) }
{
    match context.open_batch {
        Some(ItemKind::Account) => {
            let fields = read_fields(words, ItemKind::Account)?;
            Ok(Statement::Account(account_of(fields)))
        }
        _ => Err(no_batch(context, first)),
    }
}

/// The statement of a transfer line.
fn read_transfer(first: Part<'_>, words: Part<'_>, context: Context) -> Result<Statement, LineFault>
    ensures states { result ≡ transfer_line context.open_batch
        (spec.no_batch context (seen first.entry)) (words_of words.entry) }
    ensures suited { IfOk result (HasBatch context.open_batch) }
{
    match context.open_batch {
        Some(ItemKind::Transfer) => {
            Ok(Statement::Transfer(read_fields(words, ItemKind::Transfer)?))
        }
        _ => Err(no_batch(context, first)),
    }
}
