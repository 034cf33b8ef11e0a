//! The arguments of the command `run`.

ghost use Rattle.std.specs.Prelude.{◌≤◌, All, IfOk, IfSome};
ghost use Rattle.cdc_plans.specs.Plans.{AreCounts, IsPlan, IsPrefetch};
ghost use Rattle.cdc_arguments.specs.Options.{IsDefaultPlan};

use crate::arguments::{Argument, with_arguments};
use crate::command_line::OptionsFault;
use crate::delivery_options::{deliveries_option, expect_flag};
use crate::help;
use crate::parsing::{
    DEFAULT_WINDOW, asked_window, bad_value, explain_flag, json_flag, script_argument,
    window_option,
};
use cdc_message::decimal_up_to;
use cdc_plans::{Faults, RunPlan};
use cdc_types::{EventTimestamp, Limits};
use clap::{ArgMatches, Command};
use std::alloc::{AllocError, Global};

/// The limit of deliveries of a queue without an acknowledgement, if none is given.
const DEFAULT_PREFETCH: u64 = 8;

/// What is expected of a count.
const COUNTS: &str = "a number from 1 to 18446744073709551615";

/// What is expected of a queue and one of its positions.
const POSITIONS: &str = "a queue from 1, a colon and a position from 1, such as 1:2";

/// What is expected of a subscriber and how many events it applies.
const CLOSES: &str = "a subscriber from 1, a colon and a number of events from 1, such as 1:2";

pub fn run_arguments<'a>(alloc: Global) -> Result<Command<'a>, AllocError> {
    let command = Command::new(alloc, "run")
        .about(
            "Run a script on threads, and print the results of its batches and the books of its subscribers",
        )
        .after_help(help::RUN)
        .arg(script_argument(alloc))?;
    with_arguments(
        alloc,
        command,
        &[
            window_option(),
            Argument::option(
                "prefetch",
                "N",
                "Set the number of deliveries that a queue may have unacknowledged [1-64; default: 8]",
            ),
            Argument::option(
                "lose-confirm",
                "N",
                "Lose the confirm of the Nth accepted publish",
            )
            .several(),
            Argument::option(
                "lose-publish",
                "N",
                "Lose the Nth publish that comes to the broker",
            )
            .several(),
            Argument::option(
                "restart-after",
                "N",
                "Restart the connector after its Nth publish",
            )
            .several(),
            Argument::option(
                "repeat",
                "QUEUE:POSITION",
                "Rewind a queue after its first delivery of a position",
            )
            .several(),
            Argument::option(
                "close",
                "SUBSCRIBER:N",
                "Close a subscriber after N applied events",
            )
            .several(),
            Argument::option(
                "start-after",
                "N",
                "Leave out the events up to this timestamp, in nanoseconds [0-9223372036854775807]",
            ),
            Argument::option(
                "progress",
                "SAVED",
                "Save the connector's progress in this file, and resume from it [default: memory]",
            ),
            deliveries_option(),
            expect_flag(),
            explain_flag(),
            Argument::flag(
                "trace",
                "Print on standard error what was lost or sent again, and what each subscriber received",
            ),
            json_flag(),
        ],
    )
}

/// The plan of a run without any option: a window of one event, a prefetch of 8, no fault and no start.
pub fn default_plan(alloc: Global) -> RunPlan
    ensures default { IsDefaultPlan result }
    ensures plan { IsPlan result }
{
    RunPlan {
        window: DEFAULT_WINDOW,
        prefetch: DEFAULT_PREFETCH,
        faults: Faults::none(alloc),
        start: None,
    }
}

/// The plan of the run that the arguments ask for, or a usage error.
pub fn run_plan(alloc: Global, arguments: &ArgMatches<'_>) -> Result<RunPlan, OptionsFault>
    ensures { IfOk result IsPlan }
{
    let window = asked_window(alloc, arguments)?;
    let prefetch = asked_prefetch(alloc, arguments)?;
    let faults = asked_faults(alloc, arguments)?;
    let start = asked_start(alloc, arguments)?;
    Ok(RunPlan {
        window,
        prefetch,
        faults,
        start,
    })
}

/// The timestamp after which the first session is to start. None if none is given.
fn asked_start(
    alloc: Global,
    arguments: &ArgMatches<'_>,
) -> Result<Option<EventTimestamp>, OptionsFault> {
    let Some(word) = arguments.get_str("start-after") else {
        return Ok(None);
    };
    match timestamp_in(word) {
        Some(start_time) => Ok(Some(start_time)),
        None => Err(bad_value(
            alloc,
            "start-after",
            word,
            "a timestamp in nanoseconds, from 0 to 9223372036854775807",
        )?),
    }
}

/// The timestamp of an argument, in nanoseconds. None if it isn't one.
fn timestamp_in(word: &str) -> Option<EventTimestamp> {
    let number = decimal_up_to(word.as_bytes(), u128::from(Limits::TIMESTAMP))?;
    EventTimestamp::new(number as u64)
}

/// The prefetch that is given, or 8. A usage error if it isn't 1 to 64.
fn asked_prefetch(alloc: Global, arguments: &ArgMatches<'_>) -> Result<u64, OptionsFault>
    ensures { IfOk result IsPrefetch }
{
    let Some(word) = arguments.get_str("prefetch") else {
        return Ok(DEFAULT_PREFETCH);
    };
    match count_in(word, Limits::PREFETCH) {
        Some(prefetch) => Ok(prefetch),
        None => Err(bad_value(alloc, "prefetch", word, "a number from 1 to 64")?),
    }
}

/// The planned faults, or a usage error.
fn asked_faults(alloc: Global, arguments: &ArgMatches<'_>) -> Result<Faults, OptionsFault>
    ensures { IfOk result AreCounts }
{
    let lose_confirm = asked_counts(alloc, arguments, "lose-confirm")?;
    let lose_publish = asked_counts(alloc, arguments, "lose-publish")?;
    let restart_after = asked_counts(alloc, arguments, "restart-after")?;
    let repeat = asked_pairs(alloc, arguments, "repeat", POSITIONS)?;
    let close = asked_pairs(alloc, arguments, "close", CLOSES)?;
    Ok(Faults {
        lose_confirm,
        lose_publish,
        restart_after,
        repeat,
        close,
    })
}

/// The counts of an option, in the order in which it is given.
fn asked_counts(
    alloc: Global,
    arguments: &ArgMatches<'_>,
    name: &str,
) -> Result<Vec<u64>, OptionsFault>
    ensures { IfOk result (λ counts. All (λ n. 1 ≤ n) counts.items) }
{
    let mut counts = Vec::new(alloc);
    let Some(values) = arguments.get_strs(name) else {
        return Ok(counts);
    };
    for word in values {
        let Some(count) = count_in(word, u64::MAX) else {
            return Err(bad_value(alloc, name, word, COUNTS)?);
        };
        if counts.push(count).is_err() {
            return Err(OptionsFault::OutOfMemory);
        }
    }
    Ok(counts)
}

/// The pairs of numbers of an option, in the order in which it is given.
fn asked_pairs(
    alloc: Global,
    arguments: &ArgMatches<'_>,
    name: &str,
    expected: &str,
) -> Result<Vec<(u64, u64)>, OptionsFault>
    ensures { IfOk result (λ pairs. All (λ p. (1 ≤ p.0) × (1 ≤ p.1)) pairs.items) }
{
    let mut pairs = Vec::new(alloc);
    let Some(values) = arguments.get_strs(name) else {
        return Ok(pairs);
    };
    for word in values {
        let Some(pair) = pair_in(word) else {
            return Err(bad_value(alloc, name, word, expected)?);
        };
        if pairs.push(pair).is_err() {
            return Err(OptionsFault::OutOfMemory);
        }
    }
    Ok(pairs)
}

/// The number of an argument. None if it isn't one from 1 to `greatest`.
fn count_in(word: &str, greatest: u64) -> Option<u64>
    ensures { IfSome result (λ n. (1 ≤ n) × (n ≤ greatest)) }
{
    let number = decimal_up_to(word.as_bytes(), u128::from(greatest))?;
    if number == 0 {
        None
    } else {
        Some(number as u64)
    }
}

/// The two numbers of an argument, separated at its first colon. None unless both are numbers from 1. A subscriber or a
/// queue that the script doesn't have is no error: its fault never comes.
fn pair_in(word: &str) -> Option<(u64, u64)>
    ensures { IfSome result (λ p. (1 ≤ p.0) × (1 ≤ p.1)) }
{
    let (first, second) = word.split_once(':')?;
    Some((count_in(first, u64::MAX)?, count_in(second, u64::MAX)?))
}
