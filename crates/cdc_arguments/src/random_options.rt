//! The arguments of `simulate` that ask for random steps.

use crate::arguments::Argument;
use crate::command_line::OptionsFault;
use crate::parsing::bad_value;
use cdc_message::decimal_up_to;
use cdc_plans::Chances;
use cdc_types::Limits;
use clap::ArgMatches;
use std::alloc::Global;

/// The greatest number of steps, if none is given.
const DEFAULT_STEPS: u64 = 200;

/// The number of faults to inject, if none is given.
const DEFAULT_FAULTS: u64 = 10;

pub fn random_option() -> Argument {
    Argument::option(
        "random",
        "SEED",
        "Take random steps from this seed, and print them on standard error [0-18446744073709551615]",
    )
    .without(&["STEPS", "check"])
}

pub fn to_end_flag() -> Argument {
    Argument::flag(
        "to-end",
        "Go on until every subscriber has received the end mark; draw no close and no late start",
    )
    .with("random")
    .without(&["STEPS"])
}

pub fn steps_option() -> Argument {
    Argument::option(
        "steps",
        "N",
        "Take at most N random steps [0-20000; default: 200]",
    )
    .with("random")
    .without(&["STEPS"])
}

pub fn faults_option() -> Argument {
    Argument::option(
        "faults",
        "N",
        "Inject N faults among the steps [0-20000; default: 10]",
    )
    .with("random")
    .without(&["STEPS"])
}

/// The seed and the numbers of steps and faults that the arguments give, or a usage error.
pub fn asked_chances(alloc: Global, arguments: &ArgMatches<'_>) -> Result<Chances, OptionsFault> {
    let seed = arguments.get_str("random").unwrap_or("");
    let Some(number) = decimal_up_to(seed.as_bytes(), u128::from(u64::MAX)) else {
        return Err(bad_value(
            alloc,
            "random",
            seed,
            "a seed, a number from 0 to 18446744073709551615",
        )?);
    };
    Ok(Chances {
        seed: number as u64,
        steps: asked_count(alloc, arguments, "steps", DEFAULT_STEPS)?,
        faults: asked_count(alloc, arguments, "faults", DEFAULT_FAULTS)?,
        to_end: arguments.get_flag("to-end"),
    })
}

/// The count that an option gives, or `default` if it isn't given. A usage error if it exceeds the limit of steps.
fn asked_count(
    alloc: Global,
    arguments: &ArgMatches<'_>,
    name: &str,
    default: u64,
) -> Result<u64, OptionsFault> {
    let Some(word) = arguments.get_str(name) else {
        return Ok(default);
    };
    match decimal_up_to(word.as_bytes(), u128::from(Limits::RANDOM_STEPS)) {
        Some(count) => Ok(count as u64),
        None => Err(bad_value(alloc, name, word, "a number from 0 to 20000")?),
    }
}
