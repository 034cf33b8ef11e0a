//! The command `chain`: takes a stream line by line, prints the lines of the queues, and saves the places of the queues
//! now and then.

ghost use Rattle.std.specs.Prelude.{◌≡◌, IfSome, OnOk, false, length, map, string_bytes, []};
ghost use Rattle.cdc_chain_command.specs.Printing.{PrintsChain};
ghost use Rattle.cdc_chain_command.specs.Private.Steps.{FitsLog, TakesLines};

use crate::chain_log::ChainLog;
use crate::endings::ChainEnding;
use crate::printing::{save, save_if_due, write_if_many};
use crate::states::ChainSetup;
use cdc_chain::{Chain, chain_line};
use cdc_follow::FollowError;
use cdc_output::ProgramFault;
use cdc_streams::{LineReader, LogStore, StreamEnding, fault_of};
use std::alloc::Global;
use std::io;
use std::io::{ErrorKind, Write};

/// Takes the lines of a reader, numbered from 1, and saves after every so many lines, and each time that no whole line
/// is waiting. Returns how the command is to end once the lines that are left are written and the state is saved.
fn take_lines<B: LineReader, W: Write, L: LogStore>(
    alloc: Global,
    reader: &mut B,
    writer: &mut W,
    lines: &mut String,
    store: &mut ChainLog<L>,
    every: u64,
    setup: &ChainSetup,
    chain: &mut Chain,
) -> Result<ChainEnding, ProgramFault>
    requires queues { length chain.old.places ≡ length setup.now.bindings.items }
    requires none { string_bytes lines.old ≡ [] }
    requires fits { FitsLog L.texts (map (λ t. t.items) setup.now.texts.items) store.old }
    ensures takes { IfSome (B.remaining reader.old) (λ bytes. TakesLines setup.now.bindings.items
        (map (λ t. t.items) setup.now.texts.items) chain.old bytes
        (W.contents writer.old) (L.texts store.old.log.store) result chain.new
        (W.contents writer.new) (string_bytes lines.new) (L.texts store.new.log.store)) }
    ensures queues { length chain.new.places ≡ length chain.old.places }
    ensures fits { OnOk result (FitsLog L.texts (map (λ t. t.items) setup.now.texts.items) store.new) }
{
    let mut line = Vec::new(alloc);
    let mut unsaved = 0u64;
    for number in 1..u64::MAX {
        let waits = !reader.has_line();
        if let Err(fault) = save_if_due(
            alloc,
            writer,
            lines,
            store,
            setup,
            chain,
            every,
            &mut unsaved,
            waits,
        ) {
            return Err(fault);
        }
        match chain_line(
            alloc,
            reader,
            &mut line,
            number,
            setup.bindings.as_slice(),
            chain,
            lines,
        ) {
            Ok(None) => {
                if let Err(fault) = write_if_many(writer, lines) {
                    return Err(fault);
                }
                unsaved = unsaved.saturating_add(1);
            }
            Ok(Some(stop)) => return Ok(StreamEnding::Stopped(stop)),
            Err(FollowError::OutOfMemory) => return Err(ProgramFault::OutOfMemory),
            Err(FollowError::Read(error)) => {
                return Ok(StreamEnding::Failed(fault_of(FollowError::Read(error))));
            }
        }
    }
    Ok(StreamEnding::Failed(ProgramFault::ReadFault(io::Error::from(ErrorKind::Other))))
}

/// Prints the lines of the queues of a stream, which is numbered from 1, and saves the place of each queue: after every
/// so many lines, each time that no whole line is waiting, and at the end, always once the lines before it are written
/// and flushed. So a later run that goes on from the saved places prints no line of another queue or place, may print
/// lines again, and leaves none out. Nothing is written after a write that failed, and nothing is saved after a save
/// that failed. If memory runs out, the lines since the last write aren't written.
pub fn chain_command<B: LineReader, W: Write, L: LogStore>(
    alloc: Global,
    reader: &mut B,
    writer: &mut W,
    store: &mut ChainLog<L>,
    every: u64,
    setup: &ChainSetup,
    chain: &mut Chain,
) -> ChainEnding
    requires queues { length chain.old.places ≡ length setup.now.bindings.items }
    requires fresh { store.old.has_begun ≡ false }
    ensures { IfSome (B.remaining reader.old) (λ bytes. PrintsChain setup.now.bindings.items
        (map (λ t. t.items) setup.now.texts.items) chain.old bytes
        (W.contents writer.old) (W.contents writer.new) (L.texts store.old.log.store) (L.texts store.new.log.store) chain.new result) }
{
    let mut lines = String::new(alloc);
    let ending = match take_lines(
        alloc, reader, writer, &mut lines, store, every, setup, chain,
    ) {
        Ok(ending) => ending,
        Err(fault) => return StreamEnding::Failed(fault),
    };
    if let Err(fault) = save(alloc, writer, &mut lines, store, setup, chain) {
        return StreamEnding::Failed(fault);
    }
    ending
}
