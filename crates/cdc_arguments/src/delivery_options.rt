//! The arguments of `simulate` and `run` that ask for the deliveries to one subscriber.

use crate::arguments::Argument;
use crate::command_line::OptionsFault;
use crate::parsing::{bad_value, read_subscriber};
use cdc_deliveries::Asked;
use clap::ArgMatches;
use std::alloc::Global;

pub fn deliveries_option() -> Argument {
    Argument::option(
        "deliveries",
        "I",
        "Print what subscriber I receives up to its close, as JSON lines, instead of the report [1-8]",
    )
}

pub fn expect_flag() -> Argument {
    Argument::flag(
        "expect",
        "Print the expected result of each delivery instead of the delivery",
    )
    .with("deliveries")
}

/// The subscriber whose deliveries the arguments ask for, if they do. A usage error if no script can have it.
pub fn asked_deliveries(
    alloc: Global,
    arguments: &ArgMatches<'_>,
) -> Result<Option<Asked>, OptionsFault> {
    let expects = arguments.get_flag("expect");
    let subscriber = read_subscriber(alloc, arguments, "deliveries")?;
    Ok(subscriber.map(|subscriber| Asked {
        subscriber,
        expects,
    }))
}
