//! Printing the lines of queues, and saving the places of the queues once the lines before them are printed.

ghost use Rattle.std.specs.Prelude.{◌≡◌, ◌<◌, [], IsTrue, OnErr, OnOk, length, map, not, string_bytes};
ghost use Rattle.cdc_streams.specs.Saving.{PrintsPart, is_due as due};
ghost use Rattle.cdc_chain_command.specs.Private.Steps.{FitsLog, SavesState, Writes};

use crate::chain_log::ChainLog;
use crate::states::ChainSetup;
use cdc_chain::Chain;
use cdc_output::ProgramFault;
use cdc_streams::{LogStore, write_part};
use std::alloc::Global;
use std::io::Write;

/// From how many bytes on the lines are written that wait for the next save.
const MOST_BYTES: usize = 1 << 16;

/// Whether to save before the next line is read: `every` lines were taken since the last save, or some were and no
/// whole line has come yet.
fn is_due(every: u64, unsaved: u64, waits: bool) -> bool
    ensures { result ≡ due every unsaved waits }
{
    unsaved >= every || waits && unsaved > 0
}

/// Writes the lines and flushes them. After an error a part of them may be written.
pub(crate) fn write_lines<W: Write>(writer: &mut W, lines: &mut String) -> Result<(), ProgramFault>
    ensures writes { Writes (W.contents writer.old) (W.contents writer.new) (string_bytes lines.old)
        (string_bytes lines.new) result }
    ensures none { OnOk result (string_bytes lines.new ≡ []) }
{
    write_part(writer, lines.as_bytes())?;
    lines.clear();
    Ok(())
}

/// Writes the lines if they have many bytes, so that fewer are left.
pub(crate) fn write_if_many<W: Write>(
    writer: &mut W,
    lines: &mut String,
) -> Result<(), ProgramFault>
    ensures writes { Writes (W.contents writer.old) (W.contents writer.new) (string_bytes lines.old)
        (string_bytes lines.new) result }
    ensures few { OnOk result (length (string_bytes lines.new) < MOST_BYTES) }
{
    if lines.len() < MOST_BYTES {
        return Ok(());
    }
    write_lines(writer, lines)
}

/// Writes the lines and flushes them, and then saves the state. After an error the state isn't saved, and a part of the
/// lines may be written, or all of them.
pub(crate) fn save<W: Write, L: LogStore>(
    alloc: Global,
    writer: &mut W,
    lines: &mut String,
    store: &mut ChainLog<L>,
    setup: &ChainSetup,
    chain: &Chain,
) -> Result<(), ProgramFault>
    requires { FitsLog L.texts (map (λ t. t.items) setup.now.texts.items) store.old }
    ensures saved { OnOk result (SavesState (map (λ t. t.items) setup.now.texts.items) (W.contents writer.old)
        (W.contents writer.new) (string_bytes lines.old) (string_bytes lines.new) (L.texts store.old.log.store)
        (L.texts store.new.log.store) chain.now) }
    ensures fits { OnOk result (FitsLog L.texts (map (λ t. t.items) setup.now.texts.items) store.new) }
    ensures err { OnErr result (PrintsPart (W.contents writer.old) (W.contents writer.new) (string_bytes lines.old)
        × (L.texts store.new.log.store ≡ L.texts store.old.log.store)) }
{
    write_lines(writer, lines)?;
    store.keep(alloc, setup, chain)?;
    Ok(())
}

/// Saves if that is due. `unsaved`: how many lines were taken since the last save. `waits`: no whole line has come yet.
pub(crate) fn save_if_due<W: Write, L: LogStore>(
    alloc: Global,
    writer: &mut W,
    lines: &mut String,
    store: &mut ChainLog<L>,
    setup: &ChainSetup,
    chain: &Chain,
    every: u64,
    unsaved: &mut u64,
    waits: bool,
) -> Result<(), ProgramFault>
    requires { FitsLog L.texts (map (λ t. t.items) setup.now.texts.items) store.old }
    ensures saved { OnOk result (IsTrue (due every unsaved.old waits)
        → SavesState (map (λ t. t.items) setup.now.texts.items) (W.contents writer.old) (W.contents writer.new)
        (string_bytes lines.old) (string_bytes lines.new) (L.texts store.old.log.store)
        (L.texts store.new.log.store) chain.now) }
    ensures fits { OnOk result (FitsLog L.texts (map (λ t. t.items) setup.now.texts.items) store.new) }
    ensures same { IsTrue (not (due every unsaved.old waits))
        → (writer.new ≡ writer.old) × (lines.new ≡ lines.old) × (store.new ≡ store.old) }
    ensures err { OnErr result (PrintsPart (W.contents writer.old) (W.contents writer.new) (string_bytes lines.old)
        × (L.texts store.new.log.store ≡ L.texts store.old.log.store)) }
{
    if !is_due(every, *unsaved, waits) {
        return Ok(());
    }
    *unsaved = 0;
    save(alloc, writer, lines, store, setup, chain)
}
