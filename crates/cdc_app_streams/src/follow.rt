//! The command `follow`: a stream in, and its book out.

use crate::expect::run_expect;
use crate::failures::print_failure;
use crate::follow_advice::{advise_on_book, advise_on_counts, advise_on_place, advise_on_stop};
use crate::held::{Asked, advise_on_held};
use crate::kept_book::{BookFile, is_in_sqlite, open_book_file};
use crate::keys::{random_key, refuse_key};
use crate::lines::{Lines, lines_of, refuse_reading};
use crate::sql::{SqlSaves, run_schema, run_sql};
use crate::watched::Watched;
use cdc_app_inputs::{Stream, shown_name};
use cdc_arguments::{FollowPlan, Form, SqlPlan};
use cdc_follow::Follower;
use cdc_follow_command::{
    FollowEnding, FollowSetup, ResumeError, StreamFollower, begin, follow_command, resume_at,
};
use cdc_keys::HashKey;
use cdc_output::{Json, ProgramFault, Text};
use cdc_progress::StoreError;
use cdc_streams::{Keeps, LineReader, Saver, StreamEnding};
use std::io;
use std::sync::Wait;
use std::thread::Threads;

/// Follows the stream in the file of this name, and reports on standard error why that stopped before the end. A stream
/// that may have to be waited for is read ahead, on a thread that `threads` starts.
pub fn run_follow<T: Threads + Wait + Copy + Send + 'static>(
    rt: &HostRuntime,
    threads: &T,
    file: &str,
    plan: FollowPlan<'_>,
    form: Form,
) -> FollowEnding {
    let FollowPlan {
        rules,
        binding,
        binding_text,
        after,
        book,
        every,
        busy,
        expects,
        checks: _,
        baseline: _,
        from_book: _,
        sql,
    } = plan;
    if expects {
        return run_expect(rt, threads, file, rules, &binding, after);
    }
    let setup = FollowSetup {
        binding,
        rules,
        binding_text,
    };
    let key = match random_key(rt) {
        Ok(key) => key,
        Err(error) => return StreamEnding::Failed(refuse_key(rt, error, form)),
    };
    match sql {
        Some(SqlPlan::Schema { name, keeps_events }) => {
            return run_schema(rt, &name, keeps_events, &setup, after);
        }
        Some(
            SqlPlan::Saves {
                name,
                position,
                keeps_events,
            },
        ) => {
            let saves = SqlSaves {
                name,
                keeps_events,
                every,
            };
            return run_sql(rt, threads, file, key, saves, position, &setup, after);
        }
        None => {}
    }
    let (store, follower) = match open_book(rt, key, book, busy, &setup, after) {
        Ok(opened) => opened,
        Err(ResumeError::Store(StoreError::BadRecord)) => {
            return refuse_content(rt, book, &setup, form);
        }
        Err(ResumeError::Store(error)) => return refuse_book(rt, file, book, error, form),
        Err(ResumeError::Elsewhere(seen)) => return refuse_place(rt, book, seen, form),
    };
    let mut followed = StreamFollower::new(follower);
    if book.is_some_and(is_in_sqlite) {
        followed.keep_details(rt.alloc(), key);
    }
    let saver = Saver::new(store, every);
    let stream = Stream::of(rt, file);
    let may_wait = stream.may_wait();
    let Ok(source) = Watched::new(*rt, stream, shown_name(file), rules.chained) else {
        return refuse_book(rt, file, book, StoreError::OutOfMemory, form);
    };
    let (ending, line) = match lines_of(threads, rt.alloc(), source, may_wait) {
        Ok(Lines::Plain(mut reader)) => {
            let ending = follow_lines(rt, form, &mut reader, saver, &setup, &mut followed);
            (ending, reader.into_line())
        }
        Ok(Lines::Ahead(mut reader)) => {
            let ending = follow_lines(rt, form, &mut reader, saver, &setup, &mut followed);
            (ending, reader.into_line())
        }
        Err(fault) => return StreamEnding::Failed(refuse_reading(rt, fault, form)),
    };
    advise_on_counts(rt, file, followed.counts(), form);
    advise_on_stop(
        rt,
        file,
        book,
        followed.follower(),
        ending,
        Some(line.as_slice()),
    );
    ending
}

/// Follows the lines of this reader.
fn follow_lines<B: LineReader, K: Keeps<StreamFollower> + Drop>(
    rt: &HostRuntime,
    form: Form,
    reader: &mut B,
    mut saver: Saver<K>,
    setup: &FollowSetup,
    followed: &mut StreamFollower,
) -> FollowEnding {
    let mut writer = io::writer(rt);
    match form {
        Form::Text => follow_command(
            &Text,
            rt.alloc(),
            reader,
            &mut writer,
            &mut saver,
            setup,
            followed,
        ),
        Form::Json => follow_command(
            &Json,
            rt.alloc(),
            reader,
            &mut writer,
            &mut saver,
            setup,
            followed,
        ),
    }
}

/// Opens the book of this name, if there is one, and returns it with the follower that it holds, which is to begin
/// after the event of this timestamp, if one is named. A book that isn't there yet is made at once, so that the file is
/// locked from the start.
pub fn open_book<'a>(
    rt: &'a HostRuntime,
    key: HashKey,
    book: Option<&str>,
    busy: u64,
    setup: &FollowSetup,
    after: Option<u64>,
) -> Result<(Option<BookFile<'a>>, Follower), ResumeError> {
    let Some(name) = book else {
        return Ok((None, begin(rt.alloc(), key, after)));
    };
    let (mut store, text) = open_book_file(rt, name, key, busy)?;
    if let Some(text) = text {
        let chained = setup.rules.chained;
        let binding = &setup.binding;
        let follower = resume_at(rt.alloc(), key, text.as_slice(), chained, binding, after)?;
        return Ok((Some(store), follower));
    }
    let begun = StreamFollower::new(begin(rt.alloc(), key, after));
    store.keep(setup, rt.alloc(), &begun)?;
    Ok((Some(store), begin(rt.alloc(), key, after)))
}

/// Prints the fault of a book that can't be opened, and reports why on standard error.
fn refuse_book(
    rt: &HostRuntime,
    file: &str,
    book: Option<&str>,
    error: StoreError,
    form: Form,
) -> FollowEnding {
    let fault = ProgramFault::from(error);
    print_failure(rt, form, fault);
    advise_on_book(rt, shown_name(file), book, fault);
    StreamEnding::Failed(fault)
}

/// Prints the fault of a book that isn't the one that is asked for, and reports why on standard error.
fn refuse_content(
    rt: &HostRuntime,
    book: Option<&str>,
    setup: &FollowSetup,
    form: Form,
) -> FollowEnding {
    let fault = ProgramFault::from(StoreError::BadRecord);
    print_failure(rt, form, fault);
    let asked = Asked::Book {
        is_chained: setup.rules.chained,
        binding: setup.binding_text.as_slice(),
    };
    advise_on_held(rt, book.unwrap_or(""), asked);
    StreamEnding::Failed(fault)
}

/// Prints the fault of a book whose last event seen has this timestamp, and not the one that `--after` names, and
/// reports it on standard error.
fn refuse_place(rt: &HostRuntime, book: Option<&str>, seen: u64, form: Form) -> FollowEnding {
    let error = StoreError::BadRecord;
    let fault = ProgramFault::from(error);
    print_failure(rt, form, fault);
    advise_on_place(rt, book, error, seen);
    StreamEnding::Failed(fault)
}
