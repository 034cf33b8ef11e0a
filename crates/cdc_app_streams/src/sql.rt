//! The flags `--sql`, `--sql-schema` and `--events` of `follow`: a stream in, and SQL for PostgreSQL out.

use crate::failures::print_failure;
use crate::follow_advice::{advise_on_counts, advise_on_stop, unread};
use crate::lines::{Lines, lines_of, refuse_reading};
use crate::watched::Watched;
use cdc_app_inputs::{Escaped, Stream, advise_on_failure, shown_name};
use cdc_arguments::Form;
use cdc_follow::{Follower, Stop};
use cdc_follow_command::{FollowEnding, FollowSetup, ResumeError, begin, resume_at};
use cdc_keys::HashKey;
use cdc_output::ProgramFault;
use cdc_progress::StoreError;
use cdc_sql::{Place, SchemaName, preamble_text, schema_text};
use cdc_sql_book::{Recorded, SqlBook, SqlFollower, SqlForm, sql_command};
use cdc_streams::{Keeps, LineReader, Saver, StreamEnding, write_part};
use std::io::ErrorKind;
use std::sync::Wait;
use std::thread::Threads;
use std::{fs, io};

/// Which saves are printed.
#[derive(Drop)]
pub struct SqlSaves {
    /// The name of the tables' schema.
    pub name: SchemaName,
    /// Whether they add the events that are applied.
    pub keeps_events: bool,
    /// After how many lines, at most, one is printed.
    pub every: u64,
}

/// Prints the SQL that makes the tables in the schema of this name, among them that of the events if these are kept, and
/// their row at the place where a follower begins: at the first event, or after the event of this timestamp.
pub fn run_schema(
    rt: &HostRuntime,
    name: &SchemaName,
    keeps_events: bool,
    setup: &FollowSetup,
    after: Option<u64>,
) -> FollowEnding {
    let begun = begin(rt.alloc(), HashKey::Fixed, after);
    let chained = setup.rules.chained;
    let binding = setup.binding_text.as_slice();
    let place = Place::of(&begun);
    let ending = match schema_text(rt.alloc(), name, keeps_events, chained, binding, place) {
        Ok(text) => print_text(rt, text.as_slice()),
        Err(_) => Err(ProgramFault::OutOfMemory),
    };
    match ending {
        Ok(()) => StreamEnding::Stopped(Stop::AtEnd),
        Err(fault) => refuse(rt, fault),
    }
}

/// Follows the stream in the file of this name, from the position in the second one on, and prints these saves as SQL.
/// Reports on standard error why that stopped before the end.
pub fn run_sql<T: Threads + Wait + Copy + Send + 'static>(
    rt: &HostRuntime,
    threads: &T,
    file: &str,
    key: HashKey,
    saves: SqlSaves,
    position: &str,
    setup: &FollowSetup,
    after: Option<u64>,
) -> FollowEnding {
    let SqlSaves {
        name,
        keeps_events,
        every,
    } = saves;
    let follower = match resumed(rt, key, position, setup, after) {
        Ok(follower) => follower,
        Err(error) => return refuse_position(rt, position, error),
    };
    if let Err(fault) = print_text(rt, preamble_text().as_bytes()) {
        return refuse(rt, fault);
    }
    let book = SqlBook::new(io::writer(rt), name, keeps_events, Place::of(&follower));
    let saver = Saver::new(Some(book), every);
    let recorded = Recorded::new(rt.alloc(), key, follower, keeps_events);
    let mut followed = SqlFollower::new(recorded);
    let stream = Stream::of(rt, file);
    let may_wait = stream.may_wait();
    let Ok(source) = Watched::new(*rt, stream, shown_name(file), setup.rules.chained) else {
        return refuse(rt, ProgramFault::OutOfMemory);
    };
    let (ending, line) = match lines_of(threads, rt.alloc(), source, may_wait) {
        Ok(Lines::Plain(mut reader)) => {
            let ending = sql_lines(rt, &mut reader, saver, setup, &mut followed);
            (ending, reader.into_line())
        }
        Ok(Lines::Ahead(mut reader)) => {
            let ending = sql_lines(rt, &mut reader, saver, setup, &mut followed);
            (ending, reader.into_line())
        }
        Err(fault) => return StreamEnding::Failed(refuse_reading(rt, fault, Form::Text)),
    };
    advise_on_counts(rt, file, followed.counts(), Form::Text);
    match ending {
        StreamEnding::Failed(ProgramFault::Store(error)) => advise_on_save(rt, error),
        _ => advise_on_stop(
            rt,
            file,
            None,
            followed.recorded().follower(),
            ending,
            Some(line.as_slice()),
        ),
    }
    ending
}

/// Follows the lines of this reader. The line of a failure goes to standard error, since psql executes what standard
/// output has.
fn sql_lines<B: LineReader, K: Keeps<SqlFollower> + Drop>(
    rt: &HostRuntime,
    reader: &mut B,
    mut saver: Saver<K>,
    setup: &FollowSetup,
    followed: &mut SqlFollower,
) -> FollowEnding {
    let mut writer = rt.stderr();
    sql_command(
        &SqlForm,
        rt.alloc(),
        reader,
        &mut writer,
        &mut saver,
        setup,
        followed,
    )
}

/// The follower at the position in the file of this name, which has no accounts, and is to begin after the event of this
/// timestamp, if one is named. `BadRecord`: the file has no position, or a book with accounts.
fn resumed(
    rt: &HostRuntime,
    key: HashKey,
    position: &str,
    setup: &FollowSetup,
    after: Option<u64>,
) -> Result<Follower, ResumeError> {
    let text = match fs::read(rt, position) {
        Ok(text) => text,
        Err(error) if error.kind() == ErrorKind::OutOfMemory => {
            return Err(ResumeError::Store(StoreError::OutOfMemory));
        }
        Err(_) => return Err(ResumeError::Store(StoreError::ReadFault)),
    };
    let chained = setup.rules.chained;
    let binding = &setup.binding;
    let follower = resume_at(rt.alloc(), key, text.as_slice(), chained, binding, after)?;
    if follower.subscriber().book().is_empty() {
        Ok(follower)
    } else {
        Err(ResumeError::Store(StoreError::BadRecord))
    }
}

/// Prints a text on standard output.
fn print_text(rt: &HostRuntime, text: &[u8]) -> Result<(), ProgramFault> {
    write_part(&mut io::writer(rt), text)
}

/// Reports on standard error why the command failed.
fn refuse(rt: &HostRuntime, fault: ProgramFault) -> FollowEnding {
    advise_on_failure(rt, "standard output", fault);
    StreamEnding::Failed(fault)
}

/// Reports on standard error why the position in the file of this name isn't resumed.
fn refuse_position(rt: &HostRuntime, position: &str, error: ResumeError) -> FollowEnding {
    let place = Escaped(position);
    let (error, why) = match error {
        ResumeError::Elsewhere(seen) => {
            let name = StoreError::BadRecord.name();
            let _ = eprintln!(rt;
                "{place}: store: {name}: the last event that it has seen has the timestamp {seen}, and --after names \
                 another one: leave out --after"
            );
            return StreamEnding::Failed(ProgramFault::Store(StoreError::BadRecord));
        }
        ResumeError::Store(StoreError::ReadFault) => (StoreError::ReadFault, unread(rt, position)),
        ResumeError::Store(StoreError::BadRecord) => (
            StoreError::BadRecord,
            "it holds no position as the table book has it, or one of another --binding, or of --chained where that \
             isn't given now, or the other way round",
        ),
        ResumeError::Store(error) => (error, "no memory was left"),
    };
    let name = error.name();
    let _ = eprintln!(rt; "{place}: store: {name}: {why}");
    StreamEnding::Failed(ProgramFault::Store(error))
}

/// Reports on standard error why a save isn't printed.
fn advise_on_save(rt: &HostRuntime, error: StoreError) {
    let name = error.name();
    let why = match error {
        StoreError::WriteFault => "standard output can't be written: what reads it has ended",
        StoreError::BadRecord => "the text of the binding can't be quoted",
        StoreError::OutOfMemory | StoreError::ReadFault => "no memory was left",
    };
    let _ = eprintln!(rt; "relayplum: store: {name}: {why}");
}
