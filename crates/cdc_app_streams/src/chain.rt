//! The command `chain`: a stream in, and its queues out.

ghost use Rattle.std.specs.Prelude.{◌≡◌, false, length};

use crate::follow_advice::{advise_on_line, unread};
use crate::held::{Asked, advise_on_held, unwritten};
use crate::lines::{Lines, lines_of, refuse_start};
use cdc_app_inputs::{Escaped, Stream, advise_on_failure, shown_name};
use cdc_arguments::ChainPlan;
use cdc_chain::{Chain, ChainStop};
use cdc_chain_command::{
    CHAIN_MARK, ChainEnding, ChainLog, ChainSetup, NoState, chain_command, start,
};
use cdc_output::ProgramFault;
use cdc_progress::StoreError;
use cdc_streams::{LineReader, LogFile, LogStore, StreamEnding};
use std::io;
use std::sync::Wait;
use std::thread::Threads;

/// Chains the stream in the file of this name, and reports on standard error why that stopped before the end. A stream
/// that may have to be waited for is read ahead, on a thread that `threads` starts.
pub fn run_chain<T: Threads + Wait + Copy + Send + 'static>(
    rt: &HostRuntime,
    threads: &T,
    file: &str,
    plan: ChainPlan<'_>,
) -> ChainEnding {
    let ChainPlan {
        bindings,
        binding_texts,
        state,
        every,
    } = plan;
    let setup = ChainSetup {
        bindings,
        texts: binding_texts,
    };
    let Some(path) = state else {
        return chain_in(rt, threads, file, state, NoState, &None, every, &setup);
    };
    match LogFile::open(rt, path, CHAIN_MARK) {
        Ok((store, text)) => chain_in(rt, threads, file, state, store, &text, every, &setup),
        Err(error) => refuse_state(rt, file, state, error),
    }
}

/// Chains the stream, with this store of its state, which holds this text.
fn chain_in<T: Threads + Wait + Copy + Send + 'static, L: LogStore + Drop>(
    rt: &HostRuntime,
    threads: &T,
    file: &str,
    state: Option<&str>,
    store: L,
    text: &Option<Vec<u8>>,
    every: u64,
    setup: &ChainSetup,
) -> ChainEnding {
    let mut chain = match start(rt.alloc(), text, setup) {
        Ok(chain) => chain,
        Err(error) => return refuse_state(rt, file, state, error),
    };
    let mut log = ChainLog::new(store);
    let (ending, line) = chain_stream(rt, threads, file, &mut log, every, setup, &mut chain);
    advise_on_duplicates(rt, file, chain.duplicates());
    advise_on_chain(rt, file, state, chain.last(), ending, line.as_slice());
    ending
}

/// Chains the stream from where the chain is. Returns how that ended, and the line that was read last.
fn chain_stream<T: Threads + Wait + Copy + Send + 'static, L: LogStore>(
    rt: &HostRuntime,
    threads: &T,
    file: &str,
    log: &mut ChainLog<L>,
    every: u64,
    setup: &ChainSetup,
    chain: &mut Chain,
) -> (ChainEnding, Vec<u8>)
    requires queues { length chain.old.places ≡ length setup.now.bindings.items }
    requires fresh { log.old.has_begun ≡ false }
{
    let stream = Stream::of(rt, file);
    let may_wait = stream.may_wait();
    match lines_of(threads, rt.alloc(), stream, may_wait) {
        Ok(Lines::Plain(mut reader)) => {
            let ending = chain_lines(rt, &mut reader, log, every, setup, chain);
            (ending, reader.into_line())
        }
        Ok(Lines::Ahead(mut reader)) => {
            let ending = chain_lines(rt, &mut reader, log, every, setup, chain);
            (ending, reader.into_line())
        }
        Err(fault) => {
            refuse_start(rt, fault);
            let ending = StreamEnding::Failed(ProgramFault::OutOfMemory);
            (ending, Vec::new(rt.alloc()))
        }
    }
}

/// Chains the lines of this reader.
fn chain_lines<B: LineReader, L: LogStore>(
    rt: &HostRuntime,
    reader: &mut B,
    log: &mut ChainLog<L>,
    every: u64,
    setup: &ChainSetup,
    chain: &mut Chain,
) -> ChainEnding
    requires queues { length chain.old.places ≡ length setup.now.bindings.items }
    requires fresh { log.old.has_begun ≡ false }
{
    let mut writer = io::writer(rt);
    chain_command(rt.alloc(), reader, &mut writer, log, every, setup, chain)
}

/// Reports why a state can't be opened or read.
fn refuse_state(
    rt: &HostRuntime,
    file: &str,
    state: Option<&str>,
    error: StoreError,
) -> ChainEnding {
    let fault = ProgramFault::from(error);
    match (state, error) {
        (Some(state), StoreError::BadRecord) => advise_on_held(rt, state, Asked::Chain),
        _ => advise_on_fault(rt, shown_name(file), state, fault),
    }
    StreamEnding::Failed(fault)
}

/// Reports how many duplicates were skipped, if any was.
fn advise_on_duplicates(rt: &HostRuntime, file: &str, duplicates: u64) {
    let place = Escaped(shown_name(file));
    let _ = match duplicates {
        0 => Ok(()),
        1 => eprintln!(rt; "{place}: 1 duplicate was skipped"),
        _ => eprintln!(rt; "{place}: {duplicates} duplicates were skipped"),
    };
}

/// Reports why chaining stopped before the end of the stream in the file of this name, whose state is in that file,
/// after the event of this timestamp. The line that was read last has these bytes.
fn advise_on_chain(
    rt: &HostRuntime,
    file: &str,
    state: Option<&str>,
    last: u64,
    ending: ChainEnding,
    bytes: &[u8],
) {
    let place = shown_name(file);
    let _ = match ending {
        StreamEnding::Stopped(ChainStop::AtEnd) => Ok(()),
        StreamEnding::Stopped(ChainStop::AfterEnd(line)) => {
            let place = Escaped(place);
            eprintln!(rt;
                "{place}:{line}: after_end: the stream ended after {last}, and this event is later: the end came too \
                 early, or the event is of another stream"
            )
        }
        StreamEnding::Stopped(ChainStop::BadLine(line, error)) => {
            advise_on_line(rt, place, line, error, Some(bytes))
        }
        StreamEnding::Failed(fault) => {
            advise_on_fault(rt, place, state, fault);
            Ok(())
        }
    };
}

/// Reports why the command failed.
fn advise_on_fault(rt: &HostRuntime, place: &str, state: Option<&str>, fault: ProgramFault) {
    if let (Some(state), ProgramFault::Store(error)) = (state, fault) {
        let name = error.name();
        if let Some(why) = unwritten(rt, state, error) {
            let state = Escaped(state);
            let _ = eprintln!(rt; "{state}: store: {name}: {why}");
            return;
        }
        let why = trouble(rt, state, error);
        let state = Escaped(state);
        let _ = eprintln!(rt; "{state}: store: {name}: {why}");
        return;
    }
    advise_on_failure(rt, place, fault);
}

/// What is wrong with the file of a state, for which its store has reported this error, and what to do.
fn trouble(rt: &HostRuntime, state: &str, error: StoreError) -> &'static str {
    match error {
        StoreError::ReadFault => unread(rt, state),
        StoreError::WriteFault => {
            "the state can't be written: the file and its folder have to be writable and to have room, nobody else may \
             change the file, and what stands at its name with .new behind it has to be what a save left"
        }
        StoreError::BadRecord => {
            "it holds no state of a chain, or one with other queues: name its queues in their order, or another file"
        }
        StoreError::OutOfMemory => "no memory was left",
    }
}
