//! The command `audit`: a stream in, and whether a ledger can have published it.

use crate::failures::print_failure;
use crate::follow_advice::{advise_on_line, unread};
use crate::held::{Asked, advise_on_held, unwritten};
use crate::keys::{random_key, refuse_key};
use crate::lines::{Lines, lines_of, refuse_reading};
use crate::refusals::meaning_of;
use cdc_app_inputs::{Escaped, Stream, advise_on_failure, shown_name};
use cdc_arguments::{AuditPlan, Form};
use cdc_audit::{AuditStop, Auditor};
use cdc_audit_command::{AuditEnding, AuditSetup, StateLog, StreamAuditor, audit_command, resume};
use cdc_audit_state::STATE_MARK;
use cdc_keys::HashKey;
use cdc_output::{Json, ProgramFault, Text};
use cdc_progress::StoreError;
use cdc_streams::{Keeps, LineReader, LogFile, Saver, StreamEnding};
use std::io;
use std::sync::Wait;
use std::thread::Threads;

/// Audits the stream in the file of this name, and reports on standard error why that stopped before the end. A stream
/// that may have to be waited for is read ahead, on a thread that `threads` starts.
pub fn run_audit<T: Threads + Wait + Copy + Send + 'static>(
    rt: &HostRuntime,
    threads: &T,
    file: &str,
    plan: AuditPlan<'_>,
    form: Form,
) -> AuditEnding {
    let AuditPlan {
        shows_book,
        foreign,
        skips_duplicates,
        state,
        every,
    } = plan;
    let setup = AuditSetup {
        shows_book,
        skips_duplicates,
    };
    let key = match random_key(rt) {
        Ok(key) => key,
        Err(error) => return StreamEnding::Failed(refuse_key(rt, error, form)),
    };
    let (store, mut audited) = match open_state(rt, key, state, foreign, &setup) {
        Ok(opened) => opened,
        Err(StoreError::BadRecord) => return refuse_content(rt, state, foreign, form),
        Err(error) => return refuse_state(rt, file, state, error, form),
    };
    let saver = Saver::new(store, every);
    let stream = Stream::of(rt, file);
    let may_wait = stream.may_wait();
    let (ending, line) = match lines_of(threads, rt.alloc(), stream, may_wait) {
        Ok(Lines::Plain(mut reader)) => {
            let ending = audit_lines(rt, form, &mut reader, saver, &setup, &mut audited);
            (ending, reader.into_line())
        }
        Ok(Lines::Ahead(mut reader)) => {
            let ending = audit_lines(rt, form, &mut reader, saver, &setup, &mut audited);
            (ending, reader.into_line())
        }
        Err(fault) => return StreamEnding::Failed(refuse_reading(rt, fault, form)),
    };
    advise_on_audit(rt, file, state, ending, line.as_slice());
    ending
}

/// Audits the lines of this reader.
fn audit_lines<B: LineReader, K: Keeps<StreamAuditor> + Drop>(
    rt: &HostRuntime,
    form: Form,
    reader: &mut B,
    mut saver: Saver<K>,
    setup: &AuditSetup,
    audited: &mut StreamAuditor,
) -> AuditEnding {
    let mut writer = io::writer(rt);
    match form {
        Form::Text => audit_command(
            &Text,
            rt.alloc(),
            reader,
            &mut writer,
            &mut saver,
            setup,
            audited,
        ),
        Form::Json => audit_command(
            &Json,
            rt.alloc(),
            reader,
            &mut writer,
            &mut saver,
            setup,
            audited,
        ),
    }
}

/// Opens the state at this path, if there is one, and returns it with the auditor that it holds. A state that isn't
/// there yet is made at once, so that the file is locked from the start.
fn open_state<'a>(
    rt: &'a HostRuntime,
    key: HashKey,
    state: Option<&str>,
    foreign: bool,
    setup: &AuditSetup,
) -> Result<(Option<StateLog<LogFile<'a, HostRuntime>>>, StreamAuditor), StoreError> {
    let Some(path) = state else {
        let auditor = Auditor::keyed(rt.alloc(), key, foreign);
        return Ok((None, StreamAuditor::new(auditor)));
    };
    let (file, text) = LogFile::open(rt, path, STATE_MARK)?;
    let mut store = StateLog::new(file);
    if let Some(text) = text {
        let auditor = resume(rt.alloc(), key, text.as_slice(), foreign)?;
        return Ok((Some(store), StreamAuditor::new(auditor)));
    }
    let auditor = Auditor::keyed(rt.alloc(), key, foreign);
    let begun = StreamAuditor::new(auditor);
    store.keep(setup, rt.alloc(), &begun)?;
    Ok((Some(store), begun))
}

/// Prints the fault of a state that can't be opened, and reports why on standard error.
fn refuse_state(
    rt: &HostRuntime,
    file: &str,
    state: Option<&str>,
    error: StoreError,
    form: Form,
) -> AuditEnding {
    let fault = ProgramFault::from(error);
    print_failure(rt, form, fault);
    advise_on_state(rt, shown_name(file), state, fault);
    StreamEnding::Failed(fault)
}

/// Prints the fault of a state that isn't the one that is asked for, and reports why on standard error.
fn refuse_content(rt: &HostRuntime, state: Option<&str>, foreign: bool, form: Form) -> AuditEnding {
    let fault = ProgramFault::from(StoreError::BadRecord);
    print_failure(rt, form, fault);
    advise_on_held(rt, state.unwrap_or(""), Asked::Audit(foreign));
    StreamEnding::Failed(fault)
}

/// Reports why auditing stopped before the end of the stream in the file of this name, whose state is in that file. The
/// line that was read last has these bytes.
fn advise_on_audit(
    rt: &HostRuntime,
    file: &str,
    state: Option<&str>,
    ending: AuditEnding,
    bytes: &[u8],
) {
    let place = shown_name(file);
    let _ = match ending {
        StreamEnding::Stopped(AuditStop::AtEnd) => Ok(()),
        StreamEnding::Stopped(AuditStop::Refused(line, why)) => {
            let rule = why.name();
            let meaning = meaning_of(why);
            let place = Escaped(place);
            eprintln!(rt; "{place}:{line}: {rule}: {meaning}")
        }
        StreamEnding::Stopped(AuditStop::BadLine(line, error)) => {
            advise_on_line(rt, place, line, error, Some(bytes))
        }
        StreamEnding::Failed(fault) => {
            advise_on_state(rt, place, state, fault);
            Ok(())
        }
    };
}

/// Reports why the command failed.
fn advise_on_state(rt: &HostRuntime, place: &str, state: Option<&str>, fault: ProgramFault) {
    if let (Some(state), ProgramFault::Store(error)) = (state, fault) {
        let name = error.name();
        if let Some(why) = unwritten(rt, state, error) {
            let state = Escaped(state);
            let _ = eprintln!(rt; "{state}: store: {name}: {why}");
            return;
        }
        let why = trouble(rt, state, error);
        let state = Escaped(state);
        let _ = eprintln!(rt; "{state}: store: {name}: {why}");
        return;
    }
    advise_on_failure(rt, place, fault);
}

/// What is wrong with the file of a state, for which its store has reported this error, and what to do.
fn trouble(rt: &HostRuntime, state: &str, error: StoreError) -> &'static str {
    match error {
        StoreError::ReadFault => unread(rt, state),
        StoreError::WriteFault => {
            "the state can't be written: the file and its folder have to be writable and to have room, nobody else may \
             change the file, and what stands at its name with .new behind it has to be what a save left"
        }
        StoreError::BadRecord => {
            "it holds no state of an audit, or one that was saved with --foreign where that isn't given now, or the \
             other way round: name its options, or another file"
        }
        StoreError::OutOfMemory => "no memory was left",
    }
}
