//! The flag `--checked` of `follow`: a stream in, each event of which is checked, and its book out.

use crate::expect_checked::expect_checked;
use crate::failures::print_failure;
use crate::follow_advice::{advise_on_book, advise_on_counts, advise_on_line};
use crate::held::{Asked, advise_on_held};
use crate::keys::{random_key, refuse_key};
use crate::lines::{Lines, lines_of, refuse_reading};
use crate::watched::Watched;
use cdc_app_inputs::{Escaped, Stream, shown_name};
use cdc_arguments::{FollowPlan, Form};
use cdc_audit::Refusal;
use cdc_checked_command::{
    BoundFollower, CheckEnding, CheckSetup, CheckedLog, StreamChecker, check_command, resume,
};
use cdc_checked_follow::{CheckStop, CheckedFollower};
use cdc_checked_state::{CHECKED_MARK, are_same};
use cdc_follow::Counts;
use cdc_keys::HashKey;
use cdc_match::Binding;
use cdc_output::{Json, ProgramFault, Text};
use cdc_progress::StoreError;
use cdc_streams::{Keeps, LineReader, LogFile, Saver, StreamEnding};
use std::io::ErrorKind;
use std::sync::Wait;
use std::thread::Threads;
use std::{fs, io};

/// How a new book begins.
#[derive(Clone, Copy)]
pub(crate) struct CheckStart<'p> {
    /// Whether the first event of an account is taken as it is.
    pub baseline: bool,
    /// The file of the checked book of which it is a copy; `None`: it begins with nothing.
    pub from_book: Option<&'p str>,
}

/// Why checked following can't begin.
#[derive(Clone, Copy)]
pub(crate) enum StartError<'p> {
    /// The file of this name fails, or it has no checked book of the binding.
    File(Option<&'p str>, StoreError),
    /// The book in the file of this name has another state than the one of which it is to be a copy.
    Elsewhere(&'p str),
}

/// Follows the stream in the file of this name by checking each event, and reports on standard error why that stopped
/// before the end. A stream that may have to be waited for is read ahead, on a thread that `threads` starts.
pub fn run_checked<T: Threads + Wait + Copy + Send + 'static>(
    rt: &HostRuntime,
    threads: &T,
    file: &str,
    plan: FollowPlan<'_>,
    form: Form,
) -> CheckEnding {
    let FollowPlan {
        rules,
        binding,
        binding_text,
        after: _,
        book,
        every,
        busy: _,
        expects,
        checks: _,
        baseline,
        from_book,
        sql: _,
    } = plan;
    let setup = CheckSetup {
        skips_gaps: rules.skips_gaps,
    };
    let key = match random_key(rt) {
        Ok(key) => key,
        Err(error) => return StreamEnding::Failed(refuse_key(rt, error, form)),
    };
    let Ok(asked) = Vec::from_slice(rt.alloc(), binding_text.as_slice()) else {
        return refuse_checked(rt, file, book, StoreError::OutOfMemory, form);
    };
    let start = CheckStart {
        baseline,
        from_book,
    };
    if expects {
        return expect_checked(
            rt,
            threads,
            file,
            key,
            start,
            setup.skips_gaps,
            &binding,
            asked.as_slice(),
        );
    }
    let (store, mut checker) = match open_checked(
        rt,
        key,
        book,
        start,
        &setup,
        binding,
        binding_text,
    ) {
        Ok(opened) => opened,
        Err(error) => {
            let asked = Asked::Checked {
                by_baseline: baseline,
                binding: asked.as_slice(),
            };
            return refuse_start(rt, file, error, asked, form);
        }
    };
    let saver = Saver::new(store, every);
    let stream = Stream::of(rt, file);
    let may_wait = stream.may_wait();
    // (a member `previous` isn't needed, so it is no matter that nobody reads it)
    let Ok(source) = Watched::new(*rt, stream, shown_name(file), true) else {
        return refuse_checked(rt, file, book, StoreError::OutOfMemory, form);
    };
    let (ending, line) = match lines_of(threads, rt.alloc(), source, may_wait) {
        Ok(Lines::Plain(mut reader)) => {
            let ending = check_lines(rt, form, &mut reader, saver, &setup, &mut checker);
            (ending, reader.into_line())
        }
        Ok(Lines::Ahead(mut reader)) => {
            let ending = check_lines(rt, form, &mut reader, saver, &setup, &mut checker);
            (ending, reader.into_line())
        }
        Err(fault) => return StreamEnding::Failed(refuse_reading(rt, fault, form)),
    };
    advise_on_counts(rt, file, checker.bound().counts, form);
    advise_on_checked(rt, file, book, ending, line.as_slice());
    ending
}

/// Follows the lines of this reader.
fn check_lines<B: LineReader, K: Keeps<StreamChecker> + Drop>(
    rt: &HostRuntime,
    form: Form,
    reader: &mut B,
    mut saver: Saver<K>,
    setup: &CheckSetup,
    checker: &mut StreamChecker,
) -> CheckEnding {
    let mut writer = io::writer(rt);
    match form {
        Form::Text => check_command(
            &Text,
            rt.alloc(),
            reader,
            &mut writer,
            &mut saver,
            setup,
            checker,
        ),
        Form::Json => check_command(
            &Json,
            rt.alloc(),
            reader,
            &mut writer,
            &mut saver,
            setup,
            checker,
        ),
    }
}

/// A book at some path, if there is one, and what follows the stream.
type Opened<'a> = (Option<CheckedLog<LogFile<'a, HostRuntime>>>, StreamChecker);

/// Opens the book at this path, if there is one, and returns it with the follower that it holds. A book that isn't
/// there yet is made at once, so that the file is locked from the start.
fn open_checked<'a, 'p>(
    rt: &'a HostRuntime,
    key: HashKey,
    book: Option<&'p str>,
    start: CheckStart<'p>,
    setup: &CheckSetup,
    binding: Binding,
    binding_text: Vec<u8>,
) -> Result<Opened<'a>, StartError<'p>> {
    let begun = begun_follower(rt, key, start, &binding)?;
    let bound = BoundFollower {
        binding,
        binding_text,
        follower: begun,
        counts: Counts::none(),
    };
    match book {
        Some(path) => open_book_at(rt, key, path, start, setup, bound),
        None => Ok((None, StreamChecker::new(bound))),
    }
}

/// Opens the book at this path. A new one begins with this follower.
fn open_book_at<'a, 'p>(
    rt: &'a HostRuntime,
    key: HashKey,
    path: &'p str,
    start: CheckStart<'p>,
    setup: &CheckSetup,
    begun: BoundFollower,
) -> Result<Opened<'a>, StartError<'p>> {
    let (file, text) = match LogFile::open(rt, path, CHECKED_MARK) {
        Ok(opened) => opened,
        Err(error) => return Err(StartError::File(Some(path), error)),
    };
    let store = CheckedLog::new(file);
    match text {
        Some(text) => {
            let bound = resumed_in(rt, key, path, text.as_slice(), start, begun)?;
            Ok((Some(store), StreamChecker::new(bound)))
        }
        None => keep_first(rt, path, setup, store, begun),
    }
}

/// Saves the follower with which a new book begins.
fn keep_first<'a, 'p>(
    rt: &'a HostRuntime,
    path: &'p str,
    setup: &CheckSetup,
    mut store: CheckedLog<LogFile<'a, HostRuntime>>,
    begun: BoundFollower,
) -> Result<Opened<'a>, StartError<'p>> {
    let checker = StreamChecker::new(begun);
    match store.keep(setup, rt.alloc(), &checker) {
        Ok(()) => Ok((Some(store), checker)),
        Err(error) => Err(StartError::File(Some(path), error)),
    }
}

/// The follower of the book with this text, which was begun by this one if it is to be a copy of another book.
fn resumed_in<'p>(
    rt: &HostRuntime,
    key: HashKey,
    path: &'p str,
    text: &[u8],
    start: CheckStart<'p>,
    begun: BoundFollower,
) -> Result<BoundFollower, StartError<'p>> {
    let follower = resumed(rt, key, path, text, start.baseline, &begun.binding)?;
    if start.from_book.is_some() {
        compare(rt, path, &begun, &follower)?;
    }
    let BoundFollower {
        binding,
        binding_text,
        follower: _,
        counts,
    } = begun;
    Ok(BoundFollower {
        binding,
        binding_text,
        follower,
        counts,
    })
}

/// Fails if the follower of the book in the file of this name hasn't the state of the one with which it would begin.
fn compare<'p>(
    rt: &HostRuntime,
    path: &'p str,
    begun: &BoundFollower,
    follower: &CheckedFollower,
) -> Result<(), StartError<'p>> {
    match are_same(
        rt.alloc(),
        begun.binding_text.as_slice(),
        &begun.follower,
        follower,
    ) {
        Ok(true) => Ok(()),
        Ok(false) => Err(StartError::Elsewhere(path)),
        Err(_) => Err(StartError::File(None, StoreError::OutOfMemory)),
    }
}

/// The follower with which a new book begins.
pub(crate) fn begun_follower<'p>(
    rt: &HostRuntime,
    key: HashKey,
    start: CheckStart<'p>,
    binding: &Binding,
) -> Result<CheckedFollower, StartError<'p>> {
    let Some(path) = start.from_book else {
        return Ok(CheckedFollower::begin(rt.alloc(), key, start.baseline));
    };
    match fs::read(rt, path) {
        Ok(text) => resumed(rt, key, path, text.as_slice(), start.baseline, binding),
        Err(error) if error.kind() == ErrorKind::OutOfMemory => {
            Err(StartError::File(Some(path), StoreError::OutOfMemory))
        }
        Err(_) => Err(StartError::File(Some(path), StoreError::ReadFault)),
    }
}

/// The follower of the checked book with this text, in the file of this name, which began by baseline if this one is to,
/// and otherwise didn't.
fn resumed<'p>(
    rt: &HostRuntime,
    key: HashKey,
    path: &'p str,
    text: &[u8],
    baseline: bool,
    binding: &Binding,
) -> Result<CheckedFollower, StartError<'p>> {
    let follower = match resume(rt.alloc(), key, text, binding) {
        Ok(follower) => follower,
        Err(error) => return Err(StartError::File(Some(path), error)),
    };
    if follower.baseline() == baseline {
        Ok(follower)
    } else {
        Err(StartError::File(Some(path), StoreError::BadRecord))
    }
}

/// Prints the fault of a book that can't be opened, and reports why on standard error.
fn refuse_checked(
    rt: &HostRuntime,
    file: &str,
    book: Option<&str>,
    error: StoreError,
    form: Form,
) -> CheckEnding {
    let fault = ProgramFault::from(error);
    print_failure(rt, form, fault);
    advise_on_book(rt, shown_name(file), book, fault);
    StreamEnding::Failed(fault)
}

/// Prints the fault of checked following that can't begin, and reports why on standard error.
pub(crate) fn refuse_start(
    rt: &HostRuntime,
    file: &str,
    error: StartError<'_>,
    asked: Asked<'_>,
    form: Form,
) -> CheckEnding {
    match error {
        StartError::File(book, StoreError::BadRecord) => refuse_content(rt, book, asked, form),
        StartError::File(book, error) => refuse_checked(rt, file, book, error, form),
        StartError::Elsewhere(book) => refuse_elsewhere(rt, book, form),
    }
}

/// Prints the fault of a book that isn't the copy of another one, and reports why on standard error.
fn refuse_elsewhere(rt: &HostRuntime, book: &str, form: Form) -> CheckEnding {
    let error = StoreError::BadRecord;
    let fault = ProgramFault::from(error);
    print_failure(rt, form, fault);
    let name = error.name();
    let book = Escaped(book);
    let _ = eprintln!(rt;
        "{book}: store: {name}: it has another state than the book that --from-book names: leave out \
         --from-book to resume it, or name another file"
    );
    StreamEnding::Failed(fault)
}

/// Prints the fault of a book that isn't the one that is asked for, and reports why on standard error.
fn refuse_content(
    rt: &HostRuntime,
    book: Option<&str>,
    asked: Asked<'_>,
    form: Form,
) -> CheckEnding {
    let fault = ProgramFault::from(StoreError::BadRecord);
    print_failure(rt, form, fault);
    advise_on_held(rt, book.unwrap_or(""), asked);
    StreamEnding::Failed(fault)
}
/// Reports why following stopped before the end of the stream in the file of this name, whose book is in that file. The
/// line that was read last has these bytes.
pub(crate) fn advise_on_checked(
    rt: &HostRuntime,
    file: &str,
    book: Option<&str>,
    ending: CheckEnding,
    bytes: &[u8],
) {
    let place = shown_name(file);
    let _ = match ending {
        StreamEnding::Stopped(CheckStop::AtEnd) => Ok(()),
        StreamEnding::Stopped(CheckStop::Gap(line, why)) => {
            advise_on_refusal(rt, place, line, why)
        }
        StreamEnding::Stopped(CheckStop::BadLine(line, error)) => {
            advise_on_line(rt, place, line, error, Some(bytes))
        }
        StreamEnding::Failed(fault) => {
            advise_on_book(rt, place, book, fault);
            Ok(())
        }
    };
}

/// Reports why the event of the line of this number is refused.
fn advise_on_refusal(rt: &HostRuntime, place: &str, line: u64, why: Refusal) -> io::Result<()> {
    let place = Escaped(place);
    let rule = why.name();
    match why {
        Refusal::Balance(mismatch) => {
            let account = mismatch.account;
            let field = mismatch.field.name();
            let shown = mismatch.shown;
            let before = mismatch.before;
            let added = mismatch.added;
            let released = mismatch.released;
            eprintln!(rt;
                "{place}:{line}: gap: {rule}: the event shows account {account} with {field} {shown}, and the balance \
                 known before it is {before}, to which it adds {added} and of which it releases {released}: an \
                 earlier event of one of its accounts is missing; send its accounts' events again from there, with all \
                 kinds and codes"
            )
        }
        Refusal::NotPending(transfer) => eprintln!(rt;
            "{place}:{line}: gap: {rule}: the pending transfer {transfer} isn't open: the event that stored it is \
             missing; send its accounts' events again, with all kinds and codes; if this remains, only a new book helps"
        ),
        _ => eprintln!(rt;
            "{place}:{line}: gap: {rule}: the event doesn't settle the pending transfer that it names: the stream is \
             of another ledger, or was changed"
        ),
    }
}
