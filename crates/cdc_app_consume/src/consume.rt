//! The command `consume`: a queue in, and its book out.

ghost use Rattle.cdc_amqp_consumer.specs.Machine.{SettingsFit};

use crate::advice::{advise_on_counts, advise_on_ending, shown_text};
use crate::credentials::{BAD_CREDENTIALS, NO_MEMORY, NOT_READ, Refusal, password};
use crate::reports::{Report, ReportingStore};
use crate::settings::fitting;
use cdc_amqp_ahead::FramesAhead;
use cdc_amqp_consumer::Settings;
use cdc_amqp_dialogue::Pace;
use cdc_app_inputs::Source;
use cdc_app_streams::{advise_on_book, is_in_sqlite, open_book, random_key};
use cdc_arguments::{ConsumePlan, Form, STANDARD_INPUT};
use cdc_consume_command::{ConsumeEnding, KeptFollower, Outcome, consume_command};
use cdc_files::StoreError;
use cdc_follow::Counts;
use cdc_follow_command::{FollowSetup, ResumeError, StreamFollower};
use cdc_output::ProgramFault;
use cdc_read_ahead::{StartFault, Unknown};
use cdc_streams::Keeps;
use std::io;
use std::sync::Wait;
use std::thread::Threads;

/// What a refusal reports of the deliveries: there were none.
const NO_PLACE: u64 = 0;

/// Consumes a queue, and reports on standard error how that ended. Standard input is read ahead, on a thread that
/// `threads` starts. Returns the exit status.
pub fn run_consume<T: Threads + Wait + Copy + Send + 'static>(
    rt: &HostRuntime,
    threads: &T,
    plan: ConsumePlan<'_>,
    form: Form,
) -> u8 {
    let report = Report::new(*rt, plan.report, form);
    let secret = match password(rt, plan.password_file) {
        Ok(secret) => secret,
        Err(why) => return refuse(&report, why),
    };
    let wanted = Settings {
        user: plan.user.as_bytes(),
        password: secret.as_slice(),
        host: plan.host.as_bytes(),
        queue: plan.queue.as_bytes(),
        prefetch: plan.prefetch,
        heartbeat: plan.heartbeat,
    };
    let Some(settings) = fitting(wanted) else {
        let _ = eprintln!(rt; "relayplum: the password has more than 65535 bytes");
        return refuse(&report, BAD_CREDENTIALS);
    };
    consume_with(rt, threads, &settings, plan, report)
}

/// Consumes a queue with these settings.
fn consume_with<T: Threads + Wait + Copy + Send + 'static>(
    rt: &HostRuntime,
    threads: &T,
    settings: &Settings<'_>,
    plan: ConsumePlan<'_>,
    report: Report<'_>,
) -> u8
    requires { SettingsFit settings.now }
{
    let ConsumePlan {
        queue,
        book,
        binding,
        binding_text,
        rules,
        busy,
        every,
        limit,
        parks,
        ..
    } = plan;
    let setup = FollowSetup {
        binding,
        rules,
        binding_text,
    };
    let key = match random_key(rt) {
        Ok(key) => key,
        Err(error) => {
            advise_on_book(rt, "random bytes", None, ProgramFault::ReadFault(error));
            return refuse(&report, NOT_READ);
        }
    };
    let (opened, follower) = match open_book(rt, key, Some(book), busy, &setup, None) {
        Ok(opened) => opened,
        Err(ResumeError::Store(error)) => return refuse_book(rt, queue, book, error, &report),
        Err(ResumeError::Elsewhere(_)) => {
            return refuse_book(rt, queue, book, StoreError::BadRecord, &report);
        }
    };
    let Some(store) = opened else {
        return refuse_book(rt, queue, book, StoreError::BadRecord, &report);
    };
    let mut followed = StreamFollower::new(follower);
    if is_in_sqlite(book) {
        followed.keep_details(rt.alloc(), key);
    }
    let mut kept = KeptFollower::new(
        rt.alloc(),
        followed,
        ReportingStore::new(store, report, queue),
    );
    let pace = Pace {
        every,
        limit,
        parks,
    };
    let Some(ending) = converse(rt, threads, settings, pace, &setup, &mut kept) else {
        return refuse(&report, NO_MEMORY);
    };
    let outcome = ending.outcome(kept.parked(), shown_text(kept.close_text()));
    let seen = kept.follower().seen();
    report.end(outcome, kept.counts(), seen);
    advise_on_counts(rt, queue, &report, outcome, kept.counts(), seen);
    advise_on_ending(rt, queue, book, kept.follower(), ending, outcome);
    outcome.status
}

/// Speaks with the server on standard input, which is read ahead, and standard output. `None`: reading ahead didn't
/// start, and standard error has the reason.
fn converse<T: Threads + Wait + Copy + Send + 'static, K: Keeps<StreamFollower>>(
    rt: &HostRuntime,
    threads: &T,
    settings: &Settings<'_>,
    pace: Pace,
    setup: &FollowSetup,
    kept: &mut KeptFollower<K>,
) -> Option<ConsumeEnding>
    requires { SettingsFit settings.now }
{
    let source = Source::of_script(rt, STANDARD_INPUT);
    let started: Result<FramesAhead<Unknown, T>, StartFault> = FramesAhead::start(
        *threads,
        rt.alloc(),
        source,
    );
    let mut reader = match started {
        Ok(reader) => reader,
        Err(fault) => {
            let _ = eprintln!(rt; "relayplum: out_of_memory: {fault}");
            return None;
        }
    };
    let mut writer = io::writer(rt);
    Some(consume_command(
        rt.alloc(),
        settings,
        pace,
        setup,
        &mut reader,
        &mut writer,
        kept,
    ))
}

/// Reports a book that can't be opened, and returns the exit status.
fn refuse_book(
    rt: &HostRuntime,
    queue: &str,
    book: &str,
    error: StoreError,
    report: &Report<'_>,
) -> u8 {
    advise_on_book(rt, queue, Some(book), ProgramFault::from(error));
    let status = match error {
        StoreError::BadRecord => 2,
        StoreError::ReadFault | StoreError::WriteFault | StoreError::OutOfMemory => 1,
    };
    let reason = error.name();
    refuse(report, Refusal { status, reason })
}

/// Reports the end of a command that didn't begin, and returns its status.
fn refuse(report: &Report<'_>, why: Refusal) -> u8 {
    let Refusal { status, reason } = why;
    let outcome = Outcome {
        status,
        reason,
        code: 0,
        tag: 0,
        redelivered: false,
        delivery_count: 0,
        parked: 0,
        text: "",
    };
    report.end(outcome, Counts::none(), NO_PLACE);
    status
}
