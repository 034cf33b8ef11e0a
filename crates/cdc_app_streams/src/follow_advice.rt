//! What standard error reports of a stream that is followed.

use crate::held::unwritten;
use crate::kept_book::{is_in_sqlite, path_of_book};
use cdc_app_inputs::{Escaped, advise_on_failure, shown_name};
use cdc_arguments::Form;
use cdc_follow::{Content, Counts, Entry, Follower, LineError, Stop};
use cdc_follow_command::FollowEnding;
use cdc_line_faults::{LineSentence, line_sentence};
use cdc_message::{DecodeError, Field, Part};
use cdc_output::ProgramFault;
use cdc_progress::StoreError;
use cdc_streams::StreamEnding;
use std::{fs, io};

/// Reports why following stopped before the end of the messages of this name, whose book is in that file.
pub fn advise_on_stream(
    rt: &HostRuntime,
    file: &str,
    book: Option<&str>,
    follower: &Follower,
    ending: FollowEnding,
) {
    advise_on_stop(rt, file, book, follower, ending, None);
}

/// Reports why following stopped before the end of the stream in the file of this name, whose book is in that file. The
/// line that was read last has these bytes, if they are there.
pub fn advise_on_stop(
    rt: &HostRuntime,
    file: &str,
    book: Option<&str>,
    follower: &Follower,
    ending: FollowEnding,
    bytes: Option<&[u8]>,
) {
    let place = shown_name(file);
    let _ = match ending {
        StreamEnding::Stopped(Stop::AtEnd) => Ok(()),
        StreamEnding::Stopped(Stop::Gap(line, entry)) => {
            advise_on_gap(rt, place, line, entry, follower.seen())
        }
        StreamEnding::Stopped(Stop::AfterEnd(line, entry)) => {
            advise_on_contradiction(rt, place, line, entry, follower.seen())
        }
        StreamEnding::Stopped(Stop::BadLine(line, error)) => {
            advise_on_line(rt, place, line, error, bytes)
        }
        StreamEnding::Failed(fault) => {
            advise_on_book(rt, place, book, fault);
            Ok(())
        }
    };
}

/// Reports what came of the lines of the stream in the file of this name; nothing in JSON, whose last line has it.
pub fn advise_on_counts(rt: &HostRuntime, file: &str, counts: Counts, form: Form) {
    if let Form::Json = form {
        return;
    }
    let place = Escaped(shown_name(file));
    let Counts {
        applied,
        duplicates,
        passed,
        gaps,
        lines_skipped,
    } = counts;
    let _ = eprintln!(rt;
        "{place}: applied {applied}, duplicates {duplicates}, passed {passed}, gaps skipped {gaps}, lines skipped \
         {lines_skipped}"
    );
}

/// Reports why the command failed.
pub fn advise_on_book(rt: &HostRuntime, place: &str, book: Option<&str>, fault: ProgramFault) {
    if let (Some(book), ProgramFault::Store(error)) = (book, fault) {
        let name = error.name();
        if let Some(why) = unwritten(rt, book, error) {
            let book = Escaped(book);
            let _ = eprintln!(rt; "{book}: store: {name}: {why}");
            return;
        }
        let why = trouble(rt, book, error);
        let book = Escaped(book);
        let _ = eprintln!(rt; "{book}: store: {name}: {why}");
        return;
    }
    advise_on_failure(rt, place, fault);
}

/// Reports that a book isn't resumed, since its last event seen has this timestamp.
pub fn advise_on_place(rt: &HostRuntime, book: Option<&str>, error: StoreError, seen: u64) {
    if let Some(book) = book {
        let name = error.name();
        let book = Escaped(book);
        let _ = eprintln!(rt;
            "{book}: store: {name}: the last event that it has seen has the timestamp {seen}, and --after names \
             another one: leave out --after to resume it, or name another file"
        );
    }
}

/// Reports a gap before the entry of the line of this number.
fn advise_on_gap(
    rt: &HostRuntime,
    place: &str,
    line: u64,
    entry: Entry,
    seen: u64,
) -> io::Result<()> {
    let previous = entry.previous.unwrap_or(0);
    let place = Escaped(place);
    if previous > seen {
        return eprintln!(rt;
            "{place}:{line}: gap: the message before this one in its queue has the timestamp {previous}, and the last \
             one that came has {seen}: messages between them are missing"
        );
    }
    eprintln!(rt;
        "{place}:{line}: gap: the message before this one in its queue has the timestamp {previous}, and the last one \
         that came has {seen}: this message is of another queue"
    )
}

/// Reports the entry of the line of this number, which contradicts the end that came after the event of this timestamp.
fn advise_on_contradiction(
    rt: &HostRuntime,
    place: &str,
    line: u64,
    entry: Entry,
    seen: u64,
) -> io::Result<()> {
    let place = Escaped(place);
    match entry.content {
        Content::Event(event) => {
            let timestamp = event.timestamp;
            eprintln!(rt;
                "{place}:{line}: after_end: the event has the timestamp {timestamp}, and the stream ended after \
                 {seen}: the end came too early, or the event is of another stream"
            )
        }
        Content::End => {
            let previous = entry.previous.unwrap_or(0);
            eprintln!(rt;
                "{place}:{line}: after_end: this end comes after {previous}, and the stream ended after {seen}: one of \
                 them is of another stream"
            )
        }
    }
}

/// Reports why the line of this number, which has these bytes, is no entry of a stream.
pub fn advise_on_line(
    rt: &HostRuntime,
    place: &str,
    line: u64,
    error: LineError,
    bytes: Option<&[u8]>,
) -> io::Result<()> {
    let Some(bytes) = bytes else {
        return advise_on_lost_line(rt, place, line, error);
    };
    let name = error.name();
    let place = Escaped(place);
    let Ok(LineSentence { column, text }) = line_sentence(rt.alloc(), bytes, line, error) else {
        return eprintln!(rt; "{place}:{line}: {name}: {error}");
    };
    let text = Escaped(text.as_str());
    if column == 0 {
        eprintln!(rt; "{place}:{line}: {name}: {text}")
    } else {
        eprintln!(rt; "{place}:{line}:{column}: {name}: {text}")
    }
}

/// The same of a line whose bytes aren't there any more.
fn advise_on_lost_line(
    rt: &HostRuntime,
    place: &str,
    line: u64,
    error: LineError,
) -> io::Result<()> {
    let name = error.name();
    let place = Escaped(place);
    match error {
        LineError::Decode(why) => match field_of(why) {
            Some((field, trouble)) => {
                let part = part_of(field);
                let key = field.name.key();
                eprintln!(rt; "{place}:{line}: {name}: {part}{key} {trouble}")
            }
            None => eprintln!(rt; "{place}:{line}: {name}: {why}"),
        },
        _ => eprintln!(rt; "{place}:{line}: {name}: {error}"),
    }
}

/// The field that an error names, and what is wrong with it.
fn field_of(error: DecodeError) -> Option<(Field, &'static str)> {
    match error {
        DecodeError::Missing(field) => Some((field, "is missing")),
        DecodeError::WrongType(field) => Some((field, "has the wrong type")),
        DecodeError::OutOfRange(field) => Some((field, "is too large")),
        DecodeError::NotJson
        | DecodeError::NotAnObject
        | DecodeError::UnknownKind
        | DecodeError::OutOfMemory => None,
    }
}

/// The member that a field stands in, with a dot; nothing for a field of the event itself.
fn part_of(field: Field) -> &'static str {
    match field.part {
        Part::Top => "",
        Part::Transfer => "transfer.",
        Part::Debit => "debit_account.",
        Part::Credit => "credit_account.",
    }
}

/// What is wrong with the file of the book of this name, for which its store has reported this error, and what to do.
fn trouble(rt: &HostRuntime, book: &str, error: StoreError) -> &'static str {
    match error {
        StoreError::ReadFault => unread(rt, path_of_book(book)),
        StoreError::WriteFault if is_in_sqlite(book) => {
            "the book can't be written: the file and its folder have to be writable and to have room, nobody else may \
             change the file, a program that reads it has to end within the seconds of --busy, and a file at its name \
             with .new appended has to be what an interrupted start left"
        }
        StoreError::WriteFault => {
            "the book can't be written: the file and its folder have to be writable and to have room, nobody else may \
             change the file, and a file at its name with .new appended has to be what a save left"
        }
        StoreError::BadRecord => {
            "it holds no book, or one that was saved with another --binding, or with --chained, --checked or \
             --baseline where that isn't given now, or the other way round: name its options, or another file"
        }
        StoreError::OutOfMemory => "no memory was left",
    }
}

/// What is wrong with a file that can't be read.
pub fn unread(rt: &HostRuntime, book: &str) -> &'static str {
    // (it isn't opened, since opening a pipe waits for a writer)
    match fs::metadata(rt, book) {
        Ok(data) if data.is_file() => {
            "it can't be read, or another program has it: let that one end, or name another file"
        }
        Ok(_) => "it is no regular file: name another one",
        Err(_) => {
            "it can't be opened: name a file that can be read, or one that isn't there in a folder that is"
        }
    }
}
